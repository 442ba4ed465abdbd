//! What is due, as a status and a text.

ghost use Rattle.std.specs.Prelude.{◌≡◌, ◌++◌, IfOk, Some, None, codes};
ghost use Rattle.std.specs.Fmt.{decimal};
ghost use Rattle.caf_report.specs.Ends.{HasEnd, status_of};
ghost use Rattle.caf_run.specs.RunTexts as spec;
ghost use Rattle.caf_run.specs.RunTexts.{IsChainText, TellsWhy, TellsOrder, IsRunText};
ghost use Rattle.caf_run.specs.Sources.{refusal_text};

use caf_base::place::Pos;
use caf_base::refusal::NoMemory;
use caf_events::event::Trace;
use caf_report::report::{End, Report, Shown, Waiting};
use caf_text::push_number;
use caf_words::command::Options;
use order_lines::line::order_text;
use std::alloc::Global;
use trace_text::piece::push_count;
use wait_chain::chain::why;
use wait_lines::why_text;

/// The status and the text that are due, and the report where a run was made.
#[derive(Drop)]
pub struct Due {
    pub status: u8,
    pub text: Vec<u8>,
    pub report: Option<Report>,
}

/// A status with its text, and no report.
pub(crate) fn said(alloc: Global, status: u8, text: &[u8]) -> Result<Due, NoMemory>
    ensures { IfOk result (λ d. (d.status ≡ status) × (d.text.items ≡ text.now) × (d.report ≡ None)) }
{
    Ok(Due {
        status,
        text: Vec::from_slice(alloc, text)?,
        report: None,
    })
}

/// A status with a text and a number, on a line, and no report.
pub(crate) fn said_at(alloc: Global, status: u8, text: &[u8], number: u64) -> Result<Due, NoMemory>
    ensures { IfOk result (λ d. (d.status ≡ status) × (d.text.items ≡ text.now ++ decimal number ++ codes "\n") × (d.report ≡ None)) }
{
    let mut line = Vec::from_slice(alloc, text)?;
    push_count(&mut line, number)?;
    line.push(b'\n')?;
    Ok(Due {
        status,
        text: line,
        report: None,
    })
}

// What a report's text shows of a run.
fn shown_of(options: Options) -> Shown
    ensures { result ≡ spec.shown_of options }
{
    Shown {
        vars: options.vars,
        trace: options.trace,
        summary: options.summary,
    }
}

// The lines of the chain of waits that the trace of a run of n images tells.
fn chain_text(alloc: Global, n: u32, trace: &Trace, waits: &[Waiting]) -> Result<Vec<u8>, NoMemory>
    ensures { IfOk result (λ text. IsChainText n trace.now.entries waits.now text.items) }
{
    let chain = why(alloc, trace.entries.as_slice(), n, waits)?;
    let text = why_text(alloc, &chain);
    drop(chain);
    text
}

// The lines that tell why a run is stuck; none where it isn't, or isn't to be told.
fn why_lines(alloc: Global, report: &Report, is_asked: bool) -> Result<Vec<u8>, NoMemory>
    ensures { IfOk result (λ text. TellsWhy is_asked report.now.images report.now.trace.entries report.now.end text.items) }
{
    match &report.end {
        End::Stuck { waits } if is_asked => {
            chain_text(alloc, report.images, &report.trace, waits.as_slice())
        }
        _ => Ok(Vec::new(alloc)),
    }
}

// The line that tells whether a run speaks for every order of the images; none where that isn't to be told.
fn order_line(alloc: Global, report: &Report, is_asked: bool) -> Result<Vec<u8>, NoMemory>
    ensures { IfOk result (λ text. TellsOrder is_asked report.now.images report.now.trace.entries report.now.end text.items) }
{
    if is_asked {
        order_text(alloc, report)
    } else {
        Ok(Vec::new(alloc))
    }
}

// The text of a run with what the options show.
fn run_text(alloc: Global, report: &Report, options: Options) -> Result<Vec<u8>, NoMemory>
    requires { HasEnd report.now }
    ensures { IfOk result (λ text. IsRunText options report.now text.items) }
{
    let mut text = report.text(alloc, shown_of(options))?;
    let why = why_lines(alloc, report, options.why)?;
    text.extend_from_slice(why.as_slice())?;
    let line = order_line(alloc, report, options.every)?;
    text.extend_from_slice(line.as_slice())?;
    Ok(text)
}

/// What is due for a run that was made, or that went on behind a trace: the status of its report, and the text of that
/// with what the options show.
pub(crate) fn report_due(alloc: Global, report: Report, options: Options) -> Result<Due, NoMemory>
    requires { HasEnd report }
    ensures { IfOk result (λ d. (d.report ≡ Some report) × (d.status ≡ status_of report.end) × IsRunText options report d.text.items) }
{
    let text = run_text(alloc, &report, options)?;
    Ok(Due {
        status: report.status(),
        text,
        report: Some(report),
    })
}

/// The answer to a refusal.
pub(crate) fn refused_due(alloc: Global, number: u32, at: Pos) -> Result<Due, NoMemory>
    ensures { IfOk result (λ d. (d.status ≡ 3) × (d.text.items ≡ refusal_text number at) × (d.report ≡ None)) }
{
    let mut text = Vec::from_slice(alloc, b"refused ")?;
    push_number(&mut text, i64::from(number))?;
    text.extend_from_slice(b" at ")?;
    push_number(&mut text, i64::from(at.line))?;
    text.push(b':')?;
    push_number(&mut text, i64::from(at.col))?;
    text.push(b'\n')?;
    Ok(Due {
        status: 3,
        text,
        report: None,
    })
}
