//! What is due for the words, the source and the trace: a status, a text, and the report of a run.

ghost use Rattle.std.specs.Prelude.{◌≡◌, ◌≤◌, ◌<◌, ℕ, List, Option, IfOk, Some, None, length, slice_get, ◌-◌};
ghost use Rattle.caf_base.specs.Outside.{Files};
ghost use Rattle.caf_run.specs.Dues.{usage_text, IsDue, BytesDue, SourceDue, TreeDue};
ghost use Rattle.caf_run.specs.Tasks.{IsTask, IsRunTask, IsTraceIfTold, NamesNoFile, AsksOf, AsksTraced};
ghost use Rattle.caf_run.specs.declared.task.Task.TheVariants as tasks;
ghost use Rattle.caf_words.specs.Words.{words_in, Means};
ghost use Rattle.caf_words.specs.Words.Origin.{from_file, from_made};
ghost use Rattle.checked_tree.specs.StatementViews as typed;
ghost use Rattle.fortran_tree.specs.UnitViews.{program};
ghost use Rattle.fortran_tree.specs.Units as units;
ghost use Rattle.rule_definitions.specs.Acceptance.{Accepts};
ghost use Rattle.work_maker.specs.MadeSource.{made_source};

use crate::failures::by_image;
use crate::reading::{ReadEnd, read_file};
use crate::said::{Due, refused_due, report_due, said, said_at};
use crate::task::{Task, told_of};
use crate::traced::traced_due;
use caf_base::hook::Hook;
use caf_base::outside::Source;
use caf_base::refusal::{NoMemory, Refusal};
use caf_words::command::{Command, FailAt, Input, Options, Places};
use caf_words::words::words_of;
use checked_run::running::run_checked;
use checked_tree::program::Checked;
use fortran_tree::unit::Program;
use rule_checker::check::check;
use source_reader::fault::{at, number};
use source_reader::source::read;
use std::alloc::Global;
use std::sync::Wait;
use std::thread::Threads;
use work_maker::source::make_source;

/// The most bytes of a source.
const SOURCE_BYTES: usize = 1_048_576;

/// The most bytes of a trace.
const TRACE_BYTES: usize = 67_108_864;

// The answer to words that aren't valid.
fn usage_due(alloc: Global, word: u32) -> Result<Due, NoMemory>
    ensures { IfOk result (λ d. (d.status ≡ 2) × (d.text.items ≡ usage_text word) × (d.report ≡ None)) }
{
    said_at(alloc, 2, b"usage: word ", u64::from(word))
}

// What is due for an accepted program that is to be run: the machine can run each of them.
fn run_due<R: Threads + Wait + Sync, H: Hook + Sync>(
    rt: &R,
    alloc: Global,
    checked: &Checked,
    options: Options,
    fails: &[FailAt],
    hook: &H,
) -> Result<Due, NoMemory>
    requires task { IsRunTask options fails.now }
    requires accepted { (x : units.Program) × Accepts x (typed.program checked.now) }
    ensures { IfOk result (λ d. (x : units.Program) (trace : List ℕ) → Accepts x (typed.program checked.now) → TreeDue x (tasks.Run options fails.now) trace d.status d.text.items d.report) }
{
    let events = by_image(alloc, fails)?;
    match run_checked(
        rt,
        alloc,
        checked,
        told_of(options),
        events.as_slice(),
        hook,
    ) {
        Ok(report) => report_due(alloc, report, options),
        Err(Refusal::NoMemory) => Err(NoMemory),
        Err(Refusal::Cause(_)) => unreachable!(),
    }
}

// What is due for an accepted program.
fn accepted_due<R: Threads + Wait + Sync, H: Hook + Sync>(
    rt: &R,
    alloc: Global,
    checked: &Checked,
    task: &Task,
    trace: &[u8],
    hook: &H,
) -> Result<Due, NoMemory>
    requires task { IsTask task.now }
    requires accepted { (x : units.Program) × Accepts x (typed.program checked.now) }
    requires few { length trace.now ≤ 67108864 }
    ensures { IfOk result (λ d. (x : units.Program) → Accepts x (typed.program checked.now) → TreeDue x task.now trace.now d.status d.text.items d.report) }
{
    match task {
        Task::Check => said(alloc, 0, b"ok\n"),
        Task::Run { options, fails } => run_due(
            rt,
            alloc,
            checked,
            *options,
            fails.as_slice(),
            hook,
        ),
        Task::Traced {
            goal,
            options,
            fails,
        } => traced_due(alloc, checked, *goal, *options, fails.as_slice(), trace),
    }
}

// What is due for the program that a source is read as.
fn tree_due<R: Threads + Wait + Sync, H: Hook + Sync>(
    rt: &R,
    alloc: Global,
    tree: Program,
    task: &Task,
    trace: &[u8],
    hook: &H,
) -> Result<Due, NoMemory>
    requires task { IsTask task.now }
    requires few { length trace.now ≤ 67108864 }
    ensures { IfOk result (λ d. TreeDue (program tree) task.now trace.now d.status d.text.items d.report) }
{
    match check(alloc, tree) {
        Ok(checked) => {
            let due = accepted_due(rt, alloc, &checked, task, trace, hook);
            drop(checked);
            due
        }
        Err(Refusal::Cause(broken)) => refused_due(alloc, u32::from(broken.rule), broken.at),
        Err(Refusal::NoMemory) => Err(NoMemory),
    }
}

// What is due for the bytes of a source.
fn bytes_due<R: Threads + Wait + Sync, H: Hook + Sync>(
    rt: &R,
    alloc: Global,
    bytes: &[u8],
    task: &Task,
    trace: &[u8],
    hook: &H,
) -> Result<Due, NoMemory>
    requires task { IsTask task.now }
    requires few { length trace.now ≤ 67108864 }
    requires short { length bytes.now ≤ 1048576 }
    ensures { IfOk result (λ d. BytesDue bytes.now task.now trace.now d.status d.text.items d.report) }
{
    match read(alloc, bytes) {
        Ok(tree) => tree_due(rt, alloc, tree, task, trace, hook),
        Err(Refusal::Cause(fault)) => refused_due(alloc, number(fault), at(fault)),
        Err(Refusal::NoMemory) => Err(NoMemory),
    }
}

// What is due for a named file.
fn file_due<R: Threads + Wait + Sync, S: Source, H: Hook + Sync>(
    rt: &R,
    alloc: Global,
    source: &mut S,
    name: &str,
    task: &Task,
    trace: &[u8],
    hook: &H,
) -> Result<Due, NoMemory>
    requires task { IsTask task.now }
    requires few { length trace.now ≤ 67108864 }
    ensures files { S.files source.new ≡ S.files source.old }
    ensures later { S.faults source.old ≤ S.faults source.new }
    ensures due { IfOk result (λ d. SourceDue (S.files source.old) (from_file name.now) task.now trace.now (S.left source.new) (S.faults source.old) (S.faults source.new) d.status d.text.items d.report) }
{
    match read_file(alloc, source, name, SOURCE_BYTES) {
        Ok(bytes) => bytes_due(rt, alloc, bytes.as_slice(), task, trace, hook),
        Err(ReadEnd::Fault) => said(alloc, 10, b"read fault\n"),
        Err(ReadEnd::TooLong) => said(alloc, 13, b"too long\n"),
        Err(ReadEnd::NoMemory) => Err(NoMemory),
    }
}

// What is due for the source that a seed and a size make: it is never too long.
fn made_due<R: Threads + Wait + Sync, H: Hook + Sync>(
    rt: &R,
    alloc: Global,
    seed: u32,
    size: u32,
    task: &Task,
    trace: &[u8],
    hook: &H,
) -> Result<Due, NoMemory>
    requires task { IsTask task.now }
    requires few { length trace.now ≤ 67108864 }
    requires seed { seed ≤ 2147483647 }
    requires size { (1 ≤ size) × (size ≤ 4096) }
    ensures { IfOk result (λ d. (files : Option Files) (left : Option (List ℕ)) (faults faults' : ℕ)
        → SourceDue files (from_made seed size) task.now trace.now left faults faults' d.status d.text.items d.report) }
{
    let bytes = make_source(alloc, seed, size)?;
    bytes_due(rt, alloc, bytes.as_slice(), task, trace, hook)
}

// The word of a number from 1.
fn word_at(words: &[String], number: u32) -> &str
    requires { (0 < number) × (number ≤ length words.now) }
    ensures { slice_get (words_in words.now) (number - 1) ≡ Some result.now }
{
    words[(number - 1) as usize].as_str()
}

// What is due for words that ask for a task, of the source that this input is, and of these bytes of a trace where the
// task is of one. A made source leaves the files as they were.
fn task_due<R: Threads + Wait + Sync, S: Source, H: Hook + Sync>(
    rt: &R,
    alloc: Global,
    words: &[String],
    source: &mut S,
    input: Input,
    task: &Task,
    trace: &[u8],
    hook: &H,
) -> Result<Due, NoMemory>
    requires asks { AsksOf (words_in words.now) task.now input }
    requires trace { IsTraceIfTold (words_in words.now) (S.files source.old) task.now trace.now }
    requires few { length trace.now ≤ 67108864 }
    ensures files { S.files source.new ≡ S.files source.old }
    ensures later { S.faults source.old ≤ S.faults source.new }
    ensures untouched { NamesNoFile (words_in words.now) → source.new ≡ source.old }
    ensures due { IfOk result (λ d. IsDue (words_in words.now) (S.files source.old) (S.left source.new) (S.faults source.old) (S.faults source.new) d.status d.text.items d.report) }
{
    match input {
        Input::File { word } => file_due(
            rt,
            alloc,
            source,
            word_at(words, word),
            task,
            trace,
            hook,
        ),
        Input::Made { seed, size } => made_due(rt, alloc, seed, size, task, trace, hook),
    }
}

// What is due for words that judge or replay a trace: its bytes are read, and then those of the source.
fn trace_and_file_due<R: Threads + Wait + Sync, S: Source, H: Hook + Sync>(
    rt: &R,
    alloc: Global,
    words: &[String],
    source: &mut S,
    places: Places,
    task: &Task,
    hook: &H,
) -> Result<Due, NoMemory>
    requires asks { AsksTraced (words_in words.now) task.now places }
    ensures files { S.files source.new ≡ S.files source.old }
    ensures later { S.faults source.old ≤ S.faults source.new }
    ensures untouched { NamesNoFile (words_in words.now) → source.new ≡ source.old }
    ensures due { IfOk result (λ d. IsDue (words_in words.now) (S.files source.old) (S.left source.new) (S.faults source.old) (S.faults source.new) d.status d.text.items d.report) }
{
    let name = word_at(words, places.trace);
    let word = places.file;
    match read_file(alloc, source, name, TRACE_BYTES) {
        Ok(trace) => task_due(
            rt,
            alloc,
            words,
            source,
            Input::File { word },
            task,
            trace.as_slice(),
            hook,
        ),
        Err(ReadEnd::Fault) => said(alloc, 10, b"read fault\n"),
        Err(ReadEnd::TooLong) => said(alloc, 13, b"too long\n"),
        Err(ReadEnd::NoMemory) => Err(NoMemory),
    }
}

// What is due for words that make a source.
fn make_due(alloc: Global, seed: u32, size: u32) -> Result<Due, NoMemory>
    requires seed { seed ≤ 2147483647 }
    requires size { (1 ≤ size) × (size ≤ 4096) }
    ensures { IfOk result (λ d. (d.status ≡ 0) × (d.text.items ≡ made_source seed size) × (d.report ≡ None)) }
{
    Ok(Due {
        status: 0,
        text: make_source(alloc, seed, size)?,
        report: None,
    })
}

// What is due for a command that the words mean.
fn command_due<R: Threads + Wait + Sync, S: Source, H: Hook + Sync>(
    rt: &R,
    alloc: Global,
    words: &[String],
    source: &mut S,
    command: Command,
    hook: &H,
) -> Result<Due, NoMemory>
    requires means { Means (words_in words.now) command }
    ensures files { S.files source.new ≡ S.files source.old }
    ensures later { S.faults source.old ≤ S.faults source.new }
    ensures untouched { NamesNoFile (words_in words.now) → source.new ≡ source.old }
    ensures due { IfOk result (λ d. IsDue (words_in words.now) (S.files source.old) (S.left source.new) (S.faults source.old) (S.faults source.new) d.status d.text.items d.report) }
{
    match command {
        Command::Run {
            input,
            fails,
            options,
        } => {
            let task = Task::Run { options, fails };
            task_due(rt, alloc, words, source, input, &task, &[], hook)
        }
        Command::Traced {
            goal,
            places,
            fails,
            options,
        } => {
            let task = Task::Traced {
                goal,
                options,
                fails,
            };
            trace_and_file_due(rt, alloc, words, source, places, &task, hook)
        }
        Command::Check { word } => {
            task_due(
                rt,
                alloc,
                words,
                source,
                Input::File { word },
                &Task::Check,
                &[],
                hook,
            )
        }
        Command::Make { seed, size } => make_due(alloc, seed, size),
    }
}

/// What is due for the words over a source. Words that name no file leave the source as it was. A run on workers may
/// wait for them, and calls the hook at each turn.
pub fn what_is_due<R: Threads + Wait + Sync, S: Source, H: Hook + Sync>(
    rt: &R,
    alloc: Global,
    words: &[String],
    source: &mut S,
    hook: &H,
) -> Result<Due, NoMemory>
    ensures files { S.files source.new ≡ S.files source.old }
    ensures later { S.faults source.old ≤ S.faults source.new }
    ensures untouched { NamesNoFile (words_in words.now) → source.new ≡ source.old }
    ensures due { IfOk result (λ d. IsDue (words_in words.now) (S.files source.old) (S.left source.new) (S.faults source.old) (S.faults source.new) d.status d.text.items d.report) }
{
    match words_of(alloc, words) {
        Ok(command) => command_due(rt, alloc, words, source, command, hook),
        Err(Refusal::Cause(usage)) => usage_due(alloc, usage.word),
        Err(Refusal::NoMemory) => Err(NoMemory),
    }
}
