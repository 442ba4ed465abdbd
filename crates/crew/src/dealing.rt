//! The images of a run dealt among workers, and given back by them.

ghost use Rattle.std.specs.Prelude.{◌≡◌, ◌<◌, ◌≤◌, ◌++◌, length, map, IfOk};
ghost use Rattle.crew.specs.Crews.{members_of};
ghost use Rattle.crew.specs.Dealt.{run_of, passes_of};

use crate::member::{Member, Worker};
use crate::resting::Pause;
use caf_base::refusal::NoMemory;
use image_core::run::ImageRun;
use image_gate::passes::Passes;
use image_turns::looks::Spin;
use std::alloc::Global;

/// Each image with its passes, in the order of both.
pub(crate) fn members<M: Drop>(
    alloc: Global,
    images: Vec<ImageRun<M>>,
    mut passes: Vec<Passes>,
) -> Result<Vec<Member<M>>, NoMemory>
    requires { length passes.items ≡ length images.items }
    ensures images { IfOk result (λ v. map run_of v.items ≡ images.items) }
    ensures passes { IfOk result (λ v. map passes_of v.items ≡ passes.items) }
{
    let mut members = Vec::with_capacity(alloc, images.len())?;
    for run in images {
        let passes = passes.remove(0);
        members.push(Member {
            run,
            passes,
            pause: Pause::None,
            spin: Spin::none(),
        })?;
    }
    Ok(members)
}

// The first so many images of those that are left.
fn share<M: Drop>(
    alloc: Global,
    rest: &mut Vec<Member<M>>,
    size: usize,
) -> Result<Vec<Member<M>>, NoMemory>
    requires { size ≤ length rest.old.items }
    ensures { IfOk result (λ v. v.items ++ rest.new.items ≡ rest.old.items) }
{
    let mut taken = Vec::with_capacity(alloc, size)?;
    for _ in 0..size {
        taken.push(rest.remove(0))?;
    }
    Ok(taken)
}

/// Workers with these images by number, as many for each as for another or one more. Condition: there is at least one
/// worker.
pub(crate) fn deal<M: Drop>(
    alloc: Global,
    members: Vec<Member<M>>,
    workers: u32,
) -> Result<Vec<Worker<M>>, NoMemory>
    requires { 0 < workers }
    ensures { IfOk result (λ v. members_of v.items ≡ members.items) }
{
    let mut rest = members;
    let mut dealt = Vec::new(alloc);
    for number in 0..workers - 1 {
        let size = rest.len() / (workers - number) as usize;
        let members = share(alloc, &mut rest, size)?;
        dealt.push(Worker {
            number,
            members,
            short: false,
        })?;
    }
    dealt.push(Worker {
        number: workers - 1,
        members: rest,
        short: false,
    })?;
    Ok(dealt)
}

/// All images in order, back from workers none of which was short of memory.
pub(crate) fn gather<M: Drop>(
    alloc: Global,
    workers: Vec<Worker<M>>,
) -> Result<Vec<Member<M>>, NoMemory>
    ensures { IfOk result (λ v. v.items ≡ members_of workers.items) }
{
    let mut members = Vec::new(alloc);
    for worker in workers {
        if worker.short {
            return Err(NoMemory);
        }
        let mut more = worker.members;
        members.append(&mut more)?;
    }
    Ok(members)
}

/// The images and their passes, in the order of the members.
pub(crate) fn apart<M: Drop>(
    alloc: Global,
    members: Vec<Member<M>>,
) -> Result<(Vec<ImageRun<M>>, Vec<Passes>), NoMemory>
    ensures images { IfOk result (λ r. r.0.items ≡ map run_of members.items) }
    ensures passes { IfOk result (λ r. r.1.items ≡ map passes_of members.items) }
{
    let mut images = Vec::new(alloc);
    let mut passes = Vec::new(alloc);
    for member in members {
        let Member {
            run,
            passes: pass,
            ..
        } = member;
        images.push(run)?;
        passes.push(pass)?;
    }
    Ok((images, passes))
}
