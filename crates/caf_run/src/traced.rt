//! What is due for the bytes of a trace that is judged or replayed.

ghost use Rattle.std.specs.Prelude.{◌≡◌, ◌≤◌, IfOk, None, length};
ghost use Rattle.checked_tree.specs.StatementViews as typed;
ghost use Rattle.fortran_tree.specs.Units as units;
ghost use Rattle.rule_definitions.specs.Acceptance.{Accepts};
ghost use Rattle.trace_replay.specs.Judging.{RaceIn};
ghost use Rattle.caf_words.specs.declared.command.Goal.TheVariants as goals;
ghost use Rattle.caf_run.specs.Dues.{TreeDue};
ghost use Rattle.caf_run.specs.Tasks.{IsRunTask};
ghost use Rattle.caf_run.specs.Traces.{core_run_status, core_run_text, IsNoRunSaid, IsOfBytes, IsTraceAnswer};
ghost use Rattle.caf_run.specs.declared.task.Task.TheVariants as tasks;

use crate::failures::by_image;
use crate::said::{Due, report_due, said_at};
use crate::task::told_of;
use caf_base::refusal::{NoMemory, Refusal};
use caf_report::race::race_text;
use caf_words::command::{FailAt, Goal, Options};
use checked_traces::judging::{Judged, judge_checked};
use checked_traces::no_run::NoRun;
use checked_traces::replay::replay_checked;
use checked_tree::program::Checked;
use std::alloc::Global;

// What is said of bytes that are the trace of no run.
fn no_run_due(alloc: Global, no_run: NoRun) -> Result<Due, NoMemory>
    requires { IsOfBytes no_run }
    ensures { IfOk result (λ d. IsNoRunSaid no_run d.status d.text.items d.report) }
{
    match no_run {
        NoRun::BadTrace { line } => said_at(alloc, 15, b"bad trace at line ", u64::from(line)),
        NoRun::NotARun { step } => said_at(alloc, 14, b"not a run at step ", step as u64),
        NoRun::Unrunnable { .. } => unreachable!(),
    }
}

// The text of the trace of a run that was judged.
fn judged_text(alloc: Global, judged: &Judged) -> Result<Vec<u8>, NoMemory>
    requires { RaceIn judged.now.trace judged.now.race }
    ensures { IfOk result (λ text. text.items ≡ core_run_text judged.now.names judged.now.trace judged.now.race) }
{
    let mut text = Vec::from_slice(alloc, b"core run\n")?;
    if let Some(race) = &judged.race {
        let line = race_text(alloc, judged.names.as_slice(), &judged.trace, race)?;
        text.extend_from_slice(line.as_slice())?;
    }
    Ok(text)
}

// What is due for the trace of a run that was judged.
fn judged_due(alloc: Global, judged: &Judged) -> Result<Due, NoMemory>
    requires { RaceIn judged.now.trace judged.now.race }
    ensures { IfOk result (λ d. (d.status ≡ core_run_status judged.now.race) × (d.text.items ≡ core_run_text judged.now.names judged.now.trace judged.now.race) × (d.report ≡ None)) }
{
    Ok(Due {
        status: if judged.race.is_some() { 5 } else { 0 },
        text: judged_text(alloc, judged)?,
        report: None,
    })
}

// What is due for the bytes of a trace that is to be judged by an accepted program.
fn judge_due(
    alloc: Global,
    checked: &Checked,
    options: Options,
    fails: &[FailAt],
    trace: &[u8],
) -> Result<Due, NoMemory>
    requires task { IsRunTask options fails.now }
    requires accepted { (x : units.Program) × Accepts x (typed.program checked.now) }
    requires few { length trace.now ≤ 67108864 }
    ensures { IfOk result (λ d. IsTraceAnswer goals.Judge (typed.program checked.now) options fails.now trace.now d.status d.text.items d.report) }
{
    let events = by_image(alloc, fails)?;
    match judge_checked(alloc, checked, told_of(options), events.as_slice(), trace) {
        Ok(judged) => {
            let due = judged_due(alloc, &judged);
            drop(judged);
            due
        }
        Err(Refusal::Cause(no_run)) => no_run_due(alloc, no_run),
        Err(Refusal::NoMemory) => Err(NoMemory),
    }
}

// What is due for the bytes of a trace that is to be replayed by an accepted program.
fn replay_due(
    alloc: Global,
    checked: &Checked,
    options: Options,
    fails: &[FailAt],
    trace: &[u8],
) -> Result<Due, NoMemory>
    requires task { IsRunTask options fails.now }
    requires accepted { (x : units.Program) × Accepts x (typed.program checked.now) }
    requires few { length trace.now ≤ 67108864 }
    ensures { IfOk result (λ d. IsTraceAnswer goals.Replay (typed.program checked.now) options fails.now trace.now d.status d.text.items d.report) }
{
    let events = by_image(alloc, fails)?;
    match replay_checked(alloc, checked, told_of(options), events.as_slice(), trace) {
        Ok(report) => report_due(alloc, report, options),
        Err(Refusal::Cause(no_run)) => no_run_due(alloc, no_run),
        Err(Refusal::NoMemory) => Err(NoMemory),
    }
}

/// What is due for the bytes of a trace, by an accepted program.
pub(crate) fn traced_due(
    alloc: Global,
    checked: &Checked,
    goal: Goal,
    options: Options,
    fails: &[FailAt],
    trace: &[u8],
) -> Result<Due, NoMemory>
    requires task { IsRunTask options fails.now }
    requires accepted { (x : units.Program) × Accepts x (typed.program checked.now) }
    requires few { length trace.now ≤ 67108864 }
    ensures { IfOk result (λ d. (x : units.Program) → Accepts x (typed.program checked.now) → TreeDue x (tasks.Traced goal options fails.now) trace.now d.status d.text.items d.report) }
{
    match goal {
        Goal::Judge => judge_due(alloc, checked, options, fails, trace),
        Goal::Replay => replay_due(alloc, checked, options, fails, trace),
    }
}
