//! Files that are read, and the line that is bad.

use caf_base::listing::Text;
use caf_base::refusal::Refusal;
use caf_events::event::Trace;
use std::alloc::Global;
use std::process::Abort;
use trace_reader::trace::read_trace;

// What became of a file.
#[derive(Clone, Copy, PartialEq, Eq, Debug)]
enum Read {
    Steps(usize),
    Bad(u32),
}

// How many steps a trace has.
fn count(trace: Trace) -> usize {
    let steps = trace.entries.len();
    drop(trace);
    steps
}

// What becomes of a file. It names no coarray.
fn what_is_read<R: Abort>(rt: &R, alloc: Global, text: &str) -> Read {
    let bytes = text.as_bytes();
    assert!(rt; bytes.len() < 1000);
    let names: Vec<Text> = Vec::new(alloc);
    let read = read_trace(alloc, bytes, names.as_slice());
    drop(names);
    match read {
        Ok(trace) => Read::Steps(count(trace)),
        Err(Refusal::Cause(bad)) => Read::Bad(bad.line),
        Err(Refusal::NoMemory) => panic!(rt; "memory"),
    }
}

#[test]
fn lines_between_are_passed_over(rt: HostRuntime) {
    for (text, wanted) in [
        ("", Read::Steps(0)),
        ("1: hello\n1 image\n\n", Read::Bad(2)),
        ("1: hello\nimage 1\n\n", Read::Steps(0)),
        ("1: hello\n1 1 2 own fail > ok\nend", Read::Steps(1)),
        ("1: hello\n1 1 2 own fail > ok", Read::Bad(2)),
        ("1: hello\n1 1 2 own fail > ok\r\n", Read::Bad(2)),
        ("1 1 2 m1 sing\n", Read::Bad(1)),
    ] {
        assert!(rt; what_is_read(&rt, rt.alloc(), text) == wanted, "{text}");
    }
}

#[test]
fn a_file_has_one_form(rt: HostRuntime) {
    for (text, wanted) in [
        (
            "1 1 2 board arrive 1 sync > round 1\n2 1 2 board leave 1 1 > 0\n",
            Read::Steps(2),
        ),
        (
            "trace 2 images 2\n1 1 2 board arrive 1/-1 sync > round 1\n",
            Read::Steps(1),
        ),
        (
            "trace 2 images 2\n1 1 2 board arrive 1 sync > round 1\n",
            Read::Bad(2),
        ),
        (
            "trace 2 images 257\n1 1 2 board arrive 1 sync > round 1\n",
            Read::Steps(1),
        ),
        (
            "1 1 2 own memory > ok\ntrace 2 images 2\n2 1 2 board arrive 1 sync > round 1\n",
            Read::Steps(2),
        ),
        (
            "trace 2 images 1\n1 1 2 board arrive 2/7 sync > round 1\n",
            Read::Bad(2),
        ),
    ] {
        assert!(rt; what_is_read(&rt, rt.alloc(), text) == wanted, "{text}");
    }
}

#[test]
fn a_line_is_what_is_printed(rt: HostRuntime) {
    for (text, wanted) in [
        ("1 1 2 board stop -3 > ok\n", Read::Steps(1)),
        ("1 1 2 board stop +3 > ok\n", Read::Bad(1)),
        ("01 1 2 board stop 3 > ok\n", Read::Bad(1)),
        ("1\t1 2 board stop 3 > ok\n", Read::Bad(1)),
        ("1 1 2 m1 read x:0 > 3\n", Read::Bad(1)),
        ("1 1 2 board enter 1 > 6001\n", Read::Steps(1)),
        ("1 1 2 board enter 1 > 6000\n", Read::Bad(1)),
        ("18446744073709551615 1 2 own fail > ok\n", Read::Steps(1)),
        ("18446744073709551616 1 2 own fail > ok\n", Read::Bad(1)),
        ("1 1 2 own print a > ok > ok\n", Read::Steps(1)),
        ("1 1 2 own print a\\nb\\\\ > ok\n", Read::Steps(1)),
        ("1 1 2 own print a\\b > ok\n", Read::Bad(1)),
    ] {
        assert!(rt; what_is_read(&rt, rt.alloc(), text) == wanted, "{text}");
    }
}
