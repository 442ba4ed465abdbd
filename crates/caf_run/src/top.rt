//! The top call: all that the program does.

ghost use Rattle.std.specs.Prelude.{◌≡◌, ◌≤◌, ℕ, List, Option};
ghost use Rattle.caf_base.specs.Outside.{Rose};
ghost use Rattle.caf_run.specs.Dues.{IsAnswer, CompletenessClause};
ghost use Rattle.caf_run.specs.Tasks.{NamesNoFile};
ghost use Rattle.caf_words.specs.Words.{words_in};

use crate::due::what_is_due;
use crate::said::Due;
use crate::writing::write_all;
use caf_base::hook::Hook;
use caf_base::outside::{Sink, Source};
use caf_report::report::Report;
use std::alloc::Global;
use std::sync::Wait;
use std::thread::Threads;

/// What a call answers: the exit status, and the report of a run where the status due is that of a run.
#[derive(Drop)]
pub struct Done {
    pub status: u8,
    pub report: Option<Report>,
}

/// All that the program does with the words behind its name: it judges them, reads the trace's file and then the
/// source's file that they name to its end, or makes the source that they say, reads the program, checks it, runs it,
/// or judges or replays the trace, where the words say so, and writes what is due. Status 0 finished, of a check that
/// the program breaks no rule, of `make` that the source is made, of `judge` that the trace is that of a run without a
/// race, 2 usage, 3 refused, 4 error stop, 5 race, 6 stuck, 7 limit, 8 run fault, 9 clash, 10 read fault, 11 write
/// fault, 12 want of memory, 13 too long, 14 the trace of no run, 15 bytes of no trace.
///
/// Words that name no file leave the source as it was. Where the source tells its files and its count of faults
/// doesn't rise in this call, the words and the files settle whether the status that is due is 3, 13 or that of what
/// the words ask for; where the sink's doesn't rise either, that is the answer, or 12. A run without a stated order is
/// on workers: the call may wait for them, and calls the hook at each turn at a memory or the board.
pub fn caf<R: Threads + Wait + Sync, S: Source, K: Sink, H: Hook + Sync>(
    rt: &R,
    alloc: Global,
    words: &Vec<String>,
    source: &mut S,
    sink: &mut K,
    hook: &H,
) -> Done
    ensures files { S.files source.new ≡ S.files source.old }
    ensures untouched { NamesNoFile (words_in words.now.items) → source.new ≡ source.old }
    ensures answer { IsAnswer (words_in words.now.items) (S.files source.old) (S.left source.new) (S.faults source.old) (S.faults source.new)
        (K.written sink.old) (K.written sink.new) (K.faults sink.old) (K.faults sink.new) result.status result.report }
    ensures write_fault { result.status ≡ 11 → Rose (K.faults sink.old) (K.faults sink.new) }
    ensures complete { CompletenessClause (words_in words.now.items) (S.files source.old) (S.faults source.old) (S.faults source.new)
        (K.faults sink.old) (K.faults sink.new) result.status result.report }
{
    match what_is_due(rt, alloc, words.as_slice(), source, hook) {
        Ok(
            Due {
                status,
                text,
                report,
            },
        ) => match write_all(sink, text.as_slice()) {
            Ok(()) => Done { status, report },
            Err(_) => Done { status: 11, report },
        },
        Err(_) => Done {
            status: 12,
            report: None,
        },
    }
}
