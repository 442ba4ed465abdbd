//! A report: the trace of a run and its end.

ghost use Rattle.std.specs.Prelude.{◌≡◌, ◌++◌, [], ⊤, cond, flat_map, IfOk, OnOk, IfSome, IfNone, MatchOption};
ghost use Rattle.caf_report.specs.declared.report.End.TheVariants as ends;
ghost use Rattle.caf_report.specs.Ends.{EndsAt, IsFirstEnding, HasNoEnding, ending_at, ending_by, IsEndOf, RaceStands, EndStands, HasEnd, IsPlain, status_of};
ghost use Rattle.caf_report.specs.ReportText.{final_line, shown_trace, middle_text, report_text};

use super::ending::push_end;
use super::finals::push_finals;
use super::line::push_prints;
use super::summary::push_summary;
use caf_base::listing::{Listing, Text};
use caf_base::place::ImageNo;
use caf_base::refusal::NoMemory;
use caf_base::value::Value;
use caf_events::ask::Ask;
use caf_events::event::Trace;
use std::alloc::Global;
use trace_text::piece::{push_count, push_text};
use trace_text::trace::push_trace;

/// An image that waits: the line of its statement, and the ask that it can't make.
#[derive(Drop)]
pub struct Waiting {
    pub image: ImageNo,
    pub line: u32,
    pub ask: Ask,
}

/// Two entries that are a race: their places in the trace from 0, the earlier one first, and a cell that both touch, by
/// the number of its coarray in declared order from 0 and its offset in the memory of its owner.
#[derive(Clone, Copy)]
pub struct Race {
    pub first: usize,
    pub second: usize,
    pub owner: ImageNo,
    pub coarray: u32,
    pub offset: u32,
}

/// How a run ended; `at` is a place in the trace, from 0.
#[derive(Drop)]
pub enum End {
    /// A race: two entries conflict whose segments are unordered (ISO/IEC 1539-1:2018, 11.6.2). It comes before all
    /// other ends.
    Raced { race: Race },
    /// Normal termination (ISO/IEC 1539-1:2018, 5.3.7): every image has stopped or failed (5.3.6).
    Finished,
    /// Error termination (5.3.7), by ERROR STOP (11.4) or a status that no STAT= takes (11.6.11).
    ErrorStop { at: usize },
    /// A run fault.
    RunFault { at: usize },
    /// An arrival of another kind than the first one of its round.
    Clash { at: usize },
    /// A limit of the run.
    Limit { at: usize },
    /// Deadlock: no image that hasn't ended can go on; these are named in rising order.
    Stuck { waits: Listing<Waiting> },
}

/// What a variable of the main program holds at the end on an image: its values in array element order, none where it
/// isn't allocated.
#[derive(Drop)]
pub struct Final {
    pub image: ImageNo,
    pub name: Text,
    pub is_allocated: bool,
    pub values: Listing<Value>,
}

/// What a report's text shows beside the printed lines and the end: the final values of variables, the trace, and the
/// line that sums the run up.
#[derive(Clone, Copy)]
pub struct Shown {
    pub vars: bool,
    pub trace: bool,
    pub summary: bool,
}

/// A run that is over: its number of images, its trace, its end, the names of the coarrays in declared order, and the
/// final values of the images that haven't failed, by image in rising order and by variable in declared order.
#[derive(Drop)]
pub struct Report {
    pub images: u32,
    pub trace: Trace,
    pub end: End,
    pub names: Listing<Text>,
    pub finals: Listing<Final>,
}

/// The place of the first ending event, from 0; `None` exactly where no event ends the run.
pub fn first_ending(trace: &Trace) -> Option<usize>
    ensures { MatchOption result (HasNoEnding trace.now) (λ k. IsFirstEnding trace.now k) }
{
    for (at, entry) in trace.entries.as_slice().iter().enumerate() {
        if entry.event.ends_run() {
            return Some(at);
        }
    }
    None
}

/// The end that the event at this place makes.
pub fn end_at(trace: &Trace, at: usize) -> End
    requires { EndsAt trace.now at }
    ensures is { result ≡ ending_at trace.now at }
    ensures plain { IsPlain result }
{
    match trace.entries.as_slice()[at].event.told().ending() {
        Some(whole) => end_by(at, &whole.ask),
        None => unreachable!(),
    }
}

// The end that an ending ask makes at this place.
fn end_by(at: usize, ask: &Ask) -> End
    ensures is { result ≡ ending_by at ask.now }
    ensures plain { IsPlain result }
{
    match ask {
        Ask::ErrorStop { .. } => End::ErrorStop { at },
        Ask::Fault { .. } => End::RunFault { at },
        Ask::LimitStatements { .. } | Ask::LimitWords { .. } | Ask::LimitStamp { .. } => {
            End::Limit { at }
        }
        _ => End::Clash { at },
    }
}

// The end of a run with this trace, of which those images wait.
fn end_of(trace: &Trace, waits: Listing<Waiting>) -> End
    ensures is { IsEndOf trace.now waits result }
    ensures stands { EndStands trace.now result }
    ensures plain { IsPlain result }
{
    match first_ending(trace) {
        Some(at) => end_at(trace, at),
        None if waits.len() > 0 => End::Stuck { waits },
        None => End::Finished,
    }
}

impl Report {
    /// The report of a run of so many images, of which those in `waits` can't go on. It takes no memory.
    pub fn new(
        images: u32,
        trace: Trace,
        waits: Listing<Waiting>,
        names: Listing<Text>,
        finals: Listing<Final>,
    ) -> Report
        ensures images { result.images ≡ images }
        ensures trace { result.trace ≡ trace }
        ensures names { result.names ≡ names }
        ensures finals { result.finals ≡ finals }
        ensures end { IsEndOf trace waits result.end }
        ensures plain { IsPlain result.end }
        ensures has_end { HasEnd result }
    {
        let end = end_of(&trace, waits);
        Report {
            images,
            trace,
            end,
            names,
            finals,
        }
    }

    /// The report of a run in whose trace this race was found, if any was: it is the end then, and else the end is as
    /// that of `new`. Condition: the places of the race are in the trace. It takes no memory.
    pub fn with_race(
        images: u32,
        trace: Trace,
        race: Option<Race>,
        waits: Listing<Waiting>,
        names: Listing<Text>,
        finals: Listing<Final>,
    ) -> Report
        requires { MatchOption race ⊤ (RaceStands trace) }
        ensures images { result.images ≡ images }
        ensures trace { result.trace ≡ trace }
        ensures names { result.names ≡ names }
        ensures finals { result.finals ≡ finals }
        ensures raced { IfSome race (λ r. result.end ≡ ends.Raced r) }
        ensures end { IfNone race (IsEndOf trace waits result.end) }
        ensures plain { IfNone race (IsPlain result.end) }
        ensures has_end { HasEnd result }
    {
        match race {
            Some(race) => {
                drop(waits);
                Report {
                    images,
                    trace,
                    end: End::Raced { race },
                    names,
                    finals,
                }
            }
            None => Report::new(images, trace, waits, names, finals),
        }
    }

    /// The exit status: 0 Finished, 4 ErrorStop, 5 Raced, 6 Stuck, 7 Limit, 8 RunFault, 9 Clash.
    pub fn status(&self) -> u8
        ensures { result ≡ status_of self.now.end }
    {
        match &self.end {
            End::Finished => 0,
            End::ErrorStop { .. } => 4,
            End::Raced { .. } => 5,
            End::Stuck { .. } => 6,
            End::Limit { .. } => 7,
            End::RunFault { .. } => 8,
            End::Clash { .. } => 9,
        }
    }

    /// What each image printed, by image in rising order; then the final values and the trace, where they are to be
    /// shown; the line of the end; and the line that sums the run up, where it is to be shown. Condition: the end's
    /// event stands in the trace, as in each report that `new` makes.
    pub fn text(&self, alloc: Global, shown: Shown) -> Result<Vec<u8>, NoMemory>
        requires { HasEnd self.now }
        ensures { IfOk result (λ bytes. bytes.items ≡ report_text shown self.now) }
    {
        let mut out = Vec::new(alloc);
        self.push_middle(&mut out, shown)?;
        push_end(&mut out, self.names.as_slice(), &self.trace, &self.end)?;
        if shown.summary {
            push_summary(
                &mut out,
                self.images,
                self.trace.entries.len() as u64,
                self.status(),
            )?;
        }
        Ok(out)
    }

    // Appends what was printed, and the final values and the trace where they are to be shown.
    fn push_middle(&self, out: &mut Vec<u8>, shown: Shown) -> Result<(), NoMemory>
        ensures { OnOk result (out.new.items ≡ out.old.items ++ middle_text shown self.now) }
    {
        push_prints(out, self.images, &self.trace)?;
        self.push_final_values(out, shown.vars)?;
        self.push_trace_lines(out, shown.trace)
    }

    // Appends the final values, where they are shown.
    fn push_final_values(&self, out: &mut Vec<u8>, are_shown: bool) -> Result<(), NoMemory>
        ensures { OnOk result (out.new.items ≡ out.old.items ++ cond are_shown (flat_map final_line self.now.finals) []) }
    {
        if are_shown {
            push_finals(out, self.finals.as_slice())
        } else {
            Ok(())
        }
    }

    // Appends the trace, where it is shown.
    fn push_trace_lines(&self, out: &mut Vec<u8>, are_shown: bool) -> Result<(), NoMemory>
        ensures { OnOk result (out.new.items ≡ out.old.items ++ cond are_shown (shown_trace self.now) []) }
    {
        if are_shown {
            self.push_shown_trace(out)
        } else {
            Ok(())
        }
    }

    // Appends the line that begins the trace, with its form and the number of images, and the lines of the steps.
    fn push_shown_trace(&self, out: &mut Vec<u8>) -> Result<(), NoMemory>
        ensures { OnOk result (out.new.items ≡ out.old.items ++ shown_trace self.now) }
    {
        push_text(out, "trace 2 images ")?;
        push_count(out, u64::from(self.images))?;
        push_text(out, "\n")?;
        push_trace(*out.allocator(), out, self.names.as_slice(), &self.trace)
    }
}
