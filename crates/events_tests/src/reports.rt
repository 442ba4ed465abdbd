//! The status and the text of a report.

ghost use Rattle.caf_report.specs.Ends.{HasEnd};

use caf_base::few::Few;
use caf_base::listing::Listing;
use caf_base::place::{INITIAL_TEAM, ImageNo};
use caf_base::span::{Dims, Span};
use caf_base::value::Value;
use caf_events::ask::Ask;
use caf_events::event::{Entry, Event, Trace};
use caf_events::exchange::Exchange;
use caf_events::fault::FaultKind;
use caf_events::reply::Reply;
use caf_events::round::Arriving;
use caf_report::report::{Final, Race, Report, Shown, Waiting};
use std::alloc::Global;
use std::process::Abort;

// An entry of an image, of line 7.
fn entry<R: Abort>(rt: &R, alloc: Global, image: u32, stamp: u64, ask: Ask) -> Entry {
    let told = Exchange::new(alloc, &ask, &Reply::Done);
    drop(ask);
    Entry {
        image: ImageNo(image),
        event: Event::new(told.expect(rt, "memory"), stamp, 7),
    }
}

// An entry that prints.
fn print<R: Abort>(rt: &R, alloc: Global, image: u32, stamp: u64, text: &str) -> Entry {
    let text = Listing::from_slice(alloc, text.as_bytes()).expect(rt, "memory");
    entry(rt, alloc, image, stamp, Ask::Print { text })
}

// Whether a report has this status and this text is judged; with `all` it shows the final values, the trace and the
// line that sums the run up too.
fn says<R: Abort>(rt: &R, alloc: Global, report: Report, all: bool, status: u8, wanted: &str)
    requires { HasEnd report }
{
    let has = report.status();
    let shown = Shown {
        vars: all,
        trace: all,
        summary: all,
    };
    let text = report.text(alloc, shown);
    drop(report);
    let text = text.expect(rt, "memory");
    assert!(rt; has == status);
    assert!(rt; text.as_slice() == wanted.as_bytes(), "{wanted}");
}

// The report of two images that print, of which the first one then fails.
fn faulty<R: Abort>(rt: &R, alloc: Global) -> Trace {
    let kind = FaultKind::CoBounds;
    let fault = entry(rt, alloc, 1, 2, Ask::Fault { kind });
    let mut entries = Listing::new(alloc);
    for (image, stamp, text) in [(2, 1, "two"), (1, 1, "one\n\nthree"), (2, 2, "")] {
        let entry = print(rt, alloc, image, stamp, text);
        entries.push(entry).expect(rt, "memory");
    }
    entries.push(fault).expect(rt, "memory");
    let last = print(rt, alloc, 1, 3, "-4");
    entries.push(last).expect(rt, "memory");
    Trace { entries }
}

#[test]
fn images_are_grouped_and_the_fault_ends(rt: HostRuntime) {
    let alloc = rt.alloc();
    let (names, finals) = (Listing::new(alloc), Listing::new(alloc));
    let report = Report::new(2, faulty(&rt, alloc), Listing::new(alloc), names, finals);
    let wanted = "1: one\n1: \n1: three\n1: -4\n2: two\n2: \nfault image 1 line 7 CoBounds\n";
    says(&rt, alloc, report, false, 8, wanted);
}

#[test]
fn nothing_printed_and_finished_is_no_text(rt: HostRuntime) {
    let alloc = rt.alloc();
    let stop = entry(&rt, alloc, 1, 1, Ask::Stop { code: 0 });
    let entries = Listing::of_one(alloc, stop).expect(&rt, "memory");
    let (names, finals) = (Listing::new(alloc), Listing::new(alloc));
    let report = Report::new(1, Trace { entries }, Listing::new(alloc), names, finals);
    says(&rt, alloc, report, false, 0, "");
}

#[test]
fn an_image_that_waits_is_stuck(rt: HostRuntime) {
    let alloc = rt.alloc();
    let (team, arriving) = (INITIAL_TEAM, Arriving::Sync);
    let arrival = entry(&rt, alloc, 2, 1, Ask::Arrive { team, arriving });
    let entries = Listing::of_one(alloc, arrival).expect(&rt, "memory");
    let wait = Waiting {
        image: ImageNo(2),
        line: 12,
        ask: Ask::Leave { team, round: 1 },
    };
    let waits = Listing::of_one(alloc, wait).expect(&rt, "memory");
    let (names, finals) = (Listing::new(alloc), Listing::new(alloc));
    let report = Report::new(2, Trace { entries }, waits, names, finals);
    says(
        &rt,
        alloc,
        report,
        false,
        6,
        "stuck image 2 line 12 leave\n",
    );
}

// What a variable holds at the end on an image.
fn last<R: Abort>(rt: &R, alloc: Global, image: u32, name: &str, values: &[Value]) -> Final {
    let name = Listing::from_slice(alloc, name.as_bytes()).expect(rt, "memory");
    let values = Listing::from_slice(alloc, values).expect(rt, "memory");
    Final {
        image: ImageNo(image),
        name,
        is_allocated: true,
        values,
    }
}

#[test]
fn final_values_the_trace_and_the_summary_are_shown(rt: HostRuntime) {
    let alloc = rt.alloc();
    let owner = ImageNo(2);
    let span = Span {
        coarray: 0,
        start: 3,
        dims: Dims::new(alloc),
    };
    let values = Few::of_one(Value::Int(-5));
    let write = entry(
        &rt,
        alloc,
        1,
        4,
        Ask::Write {
            owner,
            span,
            values,
        },
    );
    let entries = Listing::of_one(alloc, write).expect(&rt, "memory");
    let name = Listing::from_slice(alloc, b"field").expect(&rt, "memory");
    let names = Listing::of_one(alloc, name).expect(&rt, "memory");
    let mut finals = Listing::new(alloc);
    let scalar = last(&rt, alloc, 1, "a", &[Value::Bool(true)]);
    finals.push(scalar).expect(&rt, "memory");
    let array = last(&rt, alloc, 2, "v", &[Value::Int(7), Value::Int(-8)]);
    finals.push(array).expect(&rt, "memory");
    let mut absent = last(&rt, alloc, 2, "w", &[]);
    absent.is_allocated = false;
    finals.push(absent).expect(&rt, "memory");
    let report = Report::new(2, Trace { entries }, Listing::new(alloc), names, finals);
    let wanted = "var 1 a = T
var 2 v = 7,-8
var 2 w = unallocated
trace 2 images 2
4 1 7 m2 write field:3 -5 > ok
summary images 2 events 1 status 0
";
    says(&rt, alloc, report, true, 0, wanted);
}

#[test]
fn a_race_comes_before_the_fault(rt: HostRuntime) {
    let alloc = rt.alloc();
    let name = Listing::from_slice(alloc, b"x").expect(&rt, "memory");
    let names = Listing::of_one(alloc, name).expect(&rt, "memory");
    let (first, second, owner, coarray, offset) = (0, 3, ImageNo(2), 0, 3);
    let race = Race {
        first,
        second,
        owner,
        coarray,
        offset,
    };
    let trace = faulty(&rt, alloc);
    assert!(&rt; trace.entries.len() > second);
    let report = Report::with_race(
        2,
        trace,
        Some(race),
        Listing::new(alloc),
        names,
        Listing::new(alloc),
    );
    let wanted =
        "1: one\n1: \n1: three\n1: -4\n2: two\n2: \nrace on x:3 of image 2: image 2 event 1 line 7, image 1 event 2 line 7\n";
    says(&rt, alloc, report, false, 5, wanted);
}
