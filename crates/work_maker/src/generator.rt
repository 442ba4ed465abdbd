//! The generator of the numbers of a seed.

ghost use Rattle.std.specs.Prelude.{◌≡◌};
ghost use Rattle.work_maker.specs.MadeSource.{next_state, number_in};

/// A generator, by its state.
#[derive(Drop)]
pub(crate) struct Generator {
    pub(crate) state: u32,
}

impl Generator {
    /// Goes on to the next state, and gives its number.
    pub(crate) fn next_number(&mut self) -> u32
        ensures state { self.new.state ≡ next_state self.old.state }
        ensures number { result ≡ number_in self.new.state }
    {
        let next = (u64::from(self.state) * 1_103_515_245 + 12_345) % 2_147_483_648;
        self.state = next as u32;
        self.state / 65_536
    }
}
