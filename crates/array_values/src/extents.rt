//! The extents of array values and of places.

ghost use Rattle.std.specs.Prelude.{◌≡◌, ◌<◌, ◌≤◌, ◌*◌, ◌∷◌, length, IfSome, IfNone};
ghost use Rattle.caf_base.specs.Arithmetic.{natural};
ghost use Rattle.image_acts.specs.Operate.Bounds.{same_extents};
ghost use Rattle.image_acts.specs.Places.{place_in, extents_of};
ghost use Rattle.array_values.specs.Extents.{listed, behind_start, dims_of};

/// The extents of an array value or of a place, of rank 0 to 3. Each is a number of the stack; one below 0 counts as 0.
#[derive(Clone, Copy)]
pub enum Extents {
    Scalar,
    One(i64),
    Two(i64, i64),
    Three(i64, i64, i64),
}

impl Extents {
    /// How many there are.
    pub fn rank(self) -> u32
        ensures { result ≡ length (listed self) }
    {
        match self {
            Extents::Scalar => 0,
            Extents::One(_) => 1,
            Extents::Two(_, _) => 2,
            Extents::Three(_, _, _) => 3,
        }
    }

    /// Whether these are the same (10.2.1.2).
    pub fn agree(self, others: Extents) -> bool
        ensures { result ≡ same_extents (listed self) (listed others) }
    {
        match self {
            Extents::Scalar => matches!(others, Extents::Scalar),
            Extents::One(k) => match others {
                Extents::One(l) => natural(k) == natural(l),
                _ => false,
            },
            Extents::Two(k, m) => match others {
                Extents::Two(l, n) => natural(k) == natural(l) && natural(m) == natural(n),
                _ => false,
            },
            Extents::Three(k, m, p) => match others {
                Extents::Three(l, n, q) => {
                    natural(k) == natural(l) && natural(m) == natural(n) && natural(p) == natural(q)
                }
                _ => false,
            },
        }
    }
}

/// A number, or 0 for one below 0.
pub(crate) fn natural(v: i64) -> u64
    ensures { result ≡ natural v }
{
    if v < 0 { 0 } else { v as u64 }
}

/// The first two numbers and those behind them, where there are two.
fn first_pair(numbers: &[i64]) -> Option<(i64, i64, &[i64])>
    ensures some { IfSome result (λ r. numbers.now ≡ r.0 ∷ r.1 ∷ r.2.now) }
    ensures none { IfNone result (length numbers.now < 2) }
{
    let (first, behind) = numbers.split_first()?;
    let (second, rest) = behind.split_first()?;
    Some((*first, *second, rest))
}

/// The numbers of a place behind its first one.
fn behind_start(place: &[i64]) -> &[i64]
    ensures { result.now ≡ behind_start place.now }
{
    match place.split_first() {
        Some((_, dims)) => dims,
        None => place,
    }
}

/// The counts of dimensions, each of which is a count and a step.
#[tactic(auto, using(crate::proofs::ExtentLaws::none_left))]
fn counts_of(dims: &[i64]) -> Extents
    requires { length dims.now ≤ 6 }
    ensures { listed result ≡ dims_of dims.now }
{
    let Some((first, _, rest)) = first_pair(dims) else {
        return Extents::Scalar;
    };
    let Some((second, _, rest)) = first_pair(rest) else {
        return Extents::One(first);
    };
    let Some((third, _, _)) = first_pair(rest) else {
        return Extents::Two(first, second);
    };
    Extents::Three(first, second, third)
}

/// The extents of a place of at most three dimensions (9.5.3.3), which is the offset of its first cell and a count and
/// a step for each dimension.
#[tactic(auto, using(crate::proofs::ExtentLaws::extents_are, crate::proofs::ExtentLaws::fewer))]
pub fn extents_of(place: &[i64]) -> Extents
    requires { length place.now ≤ 7 }
    ensures { listed result ≡ extents_of (place_in place.now) }
{
    counts_of(behind_start(place))
}
