//! Allocation and deallocation of coarrays (ISO/IEC 1539-1:2018, 9.7).

ghost use Rattle.std.specs.Prelude.{◌≡◌, ◌<◌, ◌≤◌, map, IfOk};
ghost use Rattle.image_acts.specs.Words as words;
ghost use Rattle.image_code.specs.declared.step.AskStep.TheVariants as asked;
ghost use Rattle.image_asks.specs.Asking.{ask_here, IsAsking, IsAsked, GoesOnWith};

use crate::operands::{numbers, team_at, this_image};
use crate::replies::join;
use caf_base::listing::Listing;
use caf_base::refusal::NoMemory;
use caf_events::ask::Ask;
use caf_events::reply::Reply;
use caf_events::round::Arriving;
use coarray_tables::asks::{cells_of_bounds, word};
use image_state::state::ImageState;
use std::alloc::Global;

/// The cells of a coarray whose bounds stand beneath so many numbers.
#[tactic(auto, using(crate::proofs::AllocationAsks::create_there, crate::proofs::AllocationAsks::create_asked))]
pub(crate) fn create(image: &ImageState, coarray: u32, depth: u32, rank: u32) -> Ask
    requires { IsAsking (ask_here image.now (asked.Create coarray depth rank)) }
    ensures { IsAsked (ask_here image.now (asked.Create coarray depth rank)) result }
{
    let bounds = numbers(image, depth as usize, 2 * rank as usize);
    Ask::Create {
        owner: this_image(image),
        coarray,
        cells: cells_of_bounds(bounds),
    }
}

/// The end of a coarray's cells.
pub(crate) fn delete(image: &ImageState, coarray: u32) -> Ask
    ensures { IsAsked (ask_here image.now (asked.Delete coarray)) result }
{
    Ask::Delete {
        owner: this_image(image),
        coarray,
    }
}

/// The arrival of ALLOCATE at the team beneath n coarrays.
#[tactic(auto, using(crate::proofs::AllocationAsks::allocate_there, crate::proofs::AllocationAsks::allocate_asked))]
pub(crate) fn arrive_allocate(image: &ImageState, n: u32) -> Result<Ask, NoMemory>
    requires { IsAsking (ask_here image.now (asked.ArriveAllocate n)) }
    ensures { IfOk result (λ a. IsAsked (ask_here image.now (asked.ArriveAllocate n)) a) }
{
    let coarrays = numbers(image, 0, n as usize);
    let list = image.coarrays().allotment(image.alloc(), coarrays)?;
    Ok(Ask::Arrive {
        team: team_at(image, n),
        arriving: Arriving::Allocate { list },
    })
}

/// The arrival of DEALLOCATE at the team beneath n coarrays.
#[tactic(auto, using(crate::proofs::AllocationAsks::deallocate_there, crate::proofs::AllocationAsks::deallocate_asked))]
pub(crate) fn arrive_deallocate(image: &ImageState, n: u32) -> Result<Ask, NoMemory>
    requires { IsAsking (ask_here image.now (asked.ArriveDeallocate n)) }
    ensures { IfOk result (λ a. IsAsked (ask_here image.now (asked.ArriveDeallocate n)) a) }
{
    let list = words(image.alloc(), numbers(image, 0, n as usize))?;
    Ok(Ask::Arrive {
        team: team_at(image, n),
        arriving: Arriving::Deallocate { list },
    })
}

/// Numbers as numbers of 32 bits.
fn words(alloc: Global, numbers: &[i64]) -> Result<Listing<u32>, NoMemory>
    ensures { IfOk result (λ l. l ≡ map words.word numbers.now) }
{
    let mut list = Vec::with_capacity(alloc, numbers.len())?;
    for i in 0..numbers.len() {
        list.push_reserved(word(&numbers[i]));
    }
    Ok(Listing::from_vec(list))
}

/// Goes on after the arrival of ALLOCATE.
#[tactic(auto, using(crate::proofs::AllocationAsks::allocate_there, crate::proofs::AllocationAsks::allocate_heard))]
pub(crate) fn hear_allocate(image: &mut ImageState, n: u32, reply: &Reply)
    requires { IsAsking (ask_here image.old (asked.ArriveAllocate n)) }
    ensures { GoesOnWith image.old (ask_here image.old (asked.ArriveAllocate n)) reply.now image.new }
{
    join(image, n as usize + 1, reply);
}

/// Goes on after the arrival of DEALLOCATE.
#[tactic(auto, using(crate::proofs::AllocationAsks::deallocate_there, crate::proofs::AllocationAsks::deallocate_heard))]
pub(crate) fn hear_deallocate(image: &mut ImageState, n: u32, reply: &Reply)
    requires { IsAsking (ask_here image.old (asked.ArriveDeallocate n)) }
    ensures { GoesOnWith image.old (ask_here image.old (asked.ArriveDeallocate n)) reply.now image.new }
{
    join(image, n as usize + 1, reply);
}
