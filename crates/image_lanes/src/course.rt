//! How an image goes on: by its program, or with the steps of its failure (ISO/IEC 1539-1:2018, 5.3.6).

ghost use Rattle.std.specs.Prelude.{◌≡◌, ℕ};
ghost use Rattle.image_lanes.specs.Holds.{steps_from, first_of, PlaceIs, rest_of};

use crate::held::HeldLocks;
use caf_base::place::{ImageNo, Place};
use caf_events::ask::Ask;
use caf_events::walker::Next;
use std::alloc::Global;

/// A step of a failure behind its first one: the mark at the image's memory, the release of a held lock by its number
/// from 0 (of the number of them all: the end at the board), or no more.
#[derive(Clone, Copy)]
pub(crate) enum Failing {
    Mark,
    Release(usize),
    Ended,
}

/// How an image goes on: by its program, with the steps of its failure at a line, or not at all, behind a limit or a
/// step without recorded words.
#[derive(Clone, Copy)]
pub(crate) enum Going {
    ByProgram,
    Failing { step: Failing, line: u32 },
    AtEnd,
}

impl Failing {
    /// The ask of this step, if there is one.
    #[tactic(auto, using(crate::proofs::Releases::first_release, crate::proofs::Releases::last_release))]
    pub(crate) fn ask(self, alloc: Global, image: ImageNo, held: &HeldLocks) -> Option<Ask>
        ensures { result ≡ first_of (steps_from image.0 held.now.locks self) }
    {
        match self {
            Failing::Mark => Some(Ask::Mark { owner: image }),
            Failing::Release(number) => match held.release(alloc, number) {
                Some(release) => Some(release),
                None => Some(Ask::Gone),
            },
            Failing::Ended => None,
        }
    }

    /// The step after this one.
    #[tactic(auto, using(crate::proofs::Releases::rest_release, crate::proofs::Releases::no_release))]
    pub(crate) fn after(self, held: &HeldLocks) -> Failing
        ensures { (image : ℕ) → steps_from image held.now.locks result ≡ rest_of (steps_from image held.now.locks self) }
    {
        match self {
            Failing::Mark => Failing::Release(0),
            Failing::Release(number) if number < held.count() => Failing::Release(number + 1),
            Failing::Release(_) | Failing::Ended => Failing::Ended,
        }
    }

    /// The place of this step, or that there is none.
    #[tactic(auto, using(crate::proofs::Releases::release_place, crate::proofs::Releases::end_place))]
    pub(crate) fn next(self, image: ImageNo, held: &HeldLocks) -> Next
        ensures { PlaceIs (steps_from image.0 held.now.locks self) result }
    {
        match self {
            Failing::Mark => Next::Ask(Place::Memory(image)),
            Failing::Release(number) => match held.owner(number) {
                Some(owner) => Next::Ask(Place::Memory(owner)),
                None => Next::Ask(Place::Board),
            },
            Failing::Ended => Next::Ended,
        }
    }
}
