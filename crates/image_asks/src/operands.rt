//! The operands of asks: numbers on the stack, as images, as teams and as coarrays.

ghost use Rattle.std.specs.Prelude.{◌≡◌, ◌==◌, ◌<◌, ◌≤◌, ◌+◌, cond, length, IsTrue, IsFalse};
ghost use Rattle.image_asks.specs.Operands as operands;
ghost use Rattle.image_asks.specs.Operands.{image_of, number_beneath, numbers_beneath};

use caf_base::place::{ImageNo, TeamNo};
use coarray_tables::asks::word;
use image_code::step::AskStep;
use image_state::state::ImageState;

/// How many numbers must stand on the stack for an ask.
pub(crate) fn numbers_for(ask: AskStep) -> usize
    ensures { result ≡ operands.numbers_for ask }
{
    match ask {
        AskStep::Read(_, rank) | AskStep::WriteArray(_, rank, _) => 2 * rank as usize + 2,
        AskStep::Write(_, rank, _) => 2 * rank as usize + 3,
        AskStep::Create(_, _, 0) => 0,
        AskStep::Create(_, depth, rank) => depth as usize + 2 * rank as usize,
        AskStep::Atomic(_, _, _) => 4,
        AskStep::ArriveForm => 3,
        AskStep::Lock(_)
        | AskStep::TryLock(_)
        | AskStep::Unlock(_)
        | AskStep::Post(_)
        | AskStep::Wait(_)
        | AskStep::Status => 2,
        AskStep::ArriveAllocate(n) | AskStep::ArriveDeallocate(n) => n as usize + 1,
        AskStep::Query(_)
        | AskStep::ArriveSync
        | AskStep::ArriveChange
        | AskStep::ArriveEnd
        | AskStep::Leave
        | AskStep::Gather(_, _)
        | AskStep::Failed
        | AskStep::Stopped
        | AskStep::Stop
        | AskStep::ErrorStop => 1,
        AskStep::Delete(_)
        | AskStep::Take
        | AskStep::Pair
        | AskStep::Unpair
        | AskStep::EnterCritical(_)
        | AskStep::ExitCritical(_)
        | AskStep::Say
        | AskStep::Memory
        | AskStep::Fail
        | AskStep::EndProgram => 0,
    }
}

/// Whether so many numbers stand on the stack.
pub(crate) fn has(image: &ImageState, n: usize) -> bool
    ensures there { IsTrue result → n ≤ length image.now.core.values }
    ensures not { IsFalse result → length image.now.core.values < n }
{
    image.numbers_at(0, n).is_some()
}

/// The number beneath so many others, 0 where there is none.
#[tactic(auto, using(crate::proofs::OperandLaws::number_is))]
pub(crate) fn number(image: &ImageState, depth: u32) -> i64
    ensures { result ≡ number_beneath depth image.now.core.values }
{
    image.number_at(depth).unwrap_or(0)
}

/// The n numbers beneath so many others, in the order in which they were put down.
pub(crate) fn numbers(image: &ImageState, depth: usize, n: usize) -> &[i64]
    requires { cond (n == 0) 0 (depth + n) ≤ length image.now.core.values }
    ensures { result.now ≡ numbers_beneath depth n image.now.core.values }
{
    match image.numbers_at(depth, n) {
        Some(numbers) => numbers,
        None => &[],
    }
}

/// The image that the number beneath so many others is.
pub(crate) fn image_at(image: &ImageState, depth: u32) -> ImageNo
    ensures { result ≡ image_of (number_beneath depth image.now.core.values) }
{
    ImageNo(word(&number(image, depth)))
}

/// The team that it is.
pub(crate) fn team_at(image: &ImageState, depth: u32) -> TeamNo
    ensures { result ≡ operands.team_of (number_beneath depth image.now.core.values) }
{
    TeamNo(word(&number(image, depth)))
}

/// This image.
pub(crate) fn this_image(image: &ImageState) -> ImageNo
    ensures { result ≡ record { 0 = image.now.core.me } }
{
    ImageNo(image.me())
}
