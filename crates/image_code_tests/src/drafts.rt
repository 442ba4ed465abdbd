//! Drafts by hand.

use caf_base::refusal::Refusal;
use image_code::code::CodeDraft;
use image_code::step::{AskStep, Step};
use std::alloc::Global;
use std::process::Abort;

/// The first bad place of a draft of these steps; or its length, with the most numbers and arrays that stand on its
/// stack.
#[derive(PartialEq, Debug, Clone, Copy)]
enum Outcome {
    Code(usize, u64, u64),
    Bad(u32),
}

/// What becomes of a draft of these steps.
fn made<R: Abort>(rt: &R, alloc: Global, steps: &[Step]) -> Outcome {
    let mut draft = CodeDraft::new(alloc).expect(rt, "memory");
    for step in steps {
        draft.push(*step, 1).expect(rt, "memory");
    }
    match draft.finish() {
        Ok(code) => {
            let most = code.highest();
            Outcome::Code(code.length(), most.numbers, most.arrays)
        }
        Err(Refusal::Cause(bad)) => Outcome::Bad(bad.at),
        Err(Refusal::NoMemory) => panic!(rt; "memory"),
    }
}

const END: Step = Step::Ask(AskStep::EndProgram);

const MEMORY: Step = Step::Ask(AskStep::Memory);

#[test]
fn drafts_that_are_refused(rt: HostRuntime) {
    let refused: [(&[Step], u32); 11] = [
        (&[], 0),
        (&[Step::Jump(5)], 0),
        (&[MEMORY, Step::Count], 1),
        (&[Step::Number(7), Step::Less, END], 1),
        (&[Step::Append, END], 0),
        (&[Step::Ask(AskStep::Say), END], 0),
        (&[MEMORY, Step::Jump(0)], 1),
        (&[Step::Count, Step::Number(1), Step::Jump(0)], 0),
        // two ways come to place 3 with unlike heights
        (
            &[
                Step::Number(1),
                Step::JumpIf(3),
                Step::Number(2),
                Step::Count,
                END,
            ],
            3,
        ),
        // no path comes to place 1
        (&[END, Step::Jump(1)], 1),
        (&[Step::Call(2), END, Step::Number(1), Step::Back], 3),
    ];
    for (steps, at) in refused {
        assert_eq!(rt; made(&rt, rt.alloc(), steps), Outcome::Bad(at));
    }
}

#[test]
fn drafts_that_become_code(rt: HostRuntime) {
    let accepted: [(&[Step], Outcome); 4] = [
        (
            &[MEMORY, Step::Number(0), Step::Ask(AskStep::Stop)],
            Outcome::Code(3, 1, 0),
        ),
        (
            &[Step::Count, MEMORY, Step::Jump(0)],
            Outcome::Code(3, 0, 0),
        ),
        (
            &[
                Step::Number(1),
                Step::Call(3),
                Step::Ask(AskStep::Stop),
                Step::EmptyArray,
                Step::DropArray,
                Step::Back,
            ],
            Outcome::Code(6, 1, 1),
        ),
        (
            &[
                Step::Number(1),
                Step::Number(2),
                Step::CoSection(0, 13),
                Step::OwnImage(1),
                Step::Ask(AskStep::Read(0, 1)),
                Step::Accessed,
                Step::Drop(1),
                Step::DropArray,
                END,
            ],
            Outcome::Code(9, 4, 1),
        ),
    ];
    for (steps, due) in accepted {
        assert_eq!(rt; made(&rt, rt.alloc(), steps), due);
    }
}
