//! Laws of the sizes of acts. Each is the contract of a function that does nothing.

ghost use Rattle.image_acts.specs.Acts.{Act};
ghost use Rattle.image_acts.specs.Core.{Core};
ghost use Rattle.act_sizes.specs.Sized.{Sized};

/// Each act takes from each part of the stack as much as its size says and leaves no more there, and ends its image
/// exactly where its size says so.
pub fn law_acts_have_their_sizes()
    ensures { (x : Act) (c : Core) → Sized x c }
{}
