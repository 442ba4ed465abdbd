//! Sources and sinks, in memory and real ones, call by call.

use caf_base::outside::{Failed, Sink, Source};
use caf_io::const_sink::ConstSink;
use caf_io::file_source::FileSource;
use caf_io::mem_sink::MemSink;
use caf_io::mem_source::MemSource;
use caf_io::std_sink::StdSink;
use std::alloc::Global;
use std::process::Abort;

fn bytes<R: Abort>(rt: &R, alloc: Global, text: &[u8]) -> Vec<u8> {
    Vec::from_slice(alloc, text).expect(rt, "memory")
}

// The files `a`, `b` and a second `a`, of which no call finds the last.
fn three_files<R: Abort>(rt: &R, alloc: Global) -> Vec<(Vec<u8>, Vec<u8>)> {
    let files = [
        (bytes(rt, alloc, b"a"), bytes(rt, alloc, b"abcde")),
        (bytes(rt, alloc, b"b"), bytes(rt, alloc, b"")),
        (bytes(rt, alloc, b"a"), bytes(rt, alloc, b"second")),
    ];
    Vec::from_array(alloc, files).expect(rt, "memory")
}

fn third_call<R: Abort>(rt: &R, alloc: Global) -> Vec<u64> {
    Vec::from_slice(alloc, &[3u64]).expect(rt, "memory")
}

#[test]
fn a_source_gives_its_files_in_short_pieces(rt: HostRuntime) {
    let alloc = rt.alloc();
    let files = three_files(&rt, alloc);
    let mut source = MemSource::new(files, third_call(&rt, alloc), 2);
    let mut buf = *b"....";
    assert_eq!(rt; source.read(&mut buf), Ok(0));
    assert_eq!(rt; source.begin("a"), Ok(()));
    assert_eq!(rt; source.begin("b"), Err(Failed));
    for (n, want) in [(2, b"ab.."), (2, b"cd.."), (1, b"ed.."), (0, b"ed..")] {
        assert_eq!(rt; source.read(&mut buf), Ok(n));
        assert_eq!(rt; buf[..], want[..]);
    }
    assert_eq!(rt; source.begin("c"), Err(Failed));
    assert_eq!(rt; source.begin("b"), Ok(()));
    assert_eq!(rt; source.read(&mut buf), Ok(0));
}

#[test]
fn a_sink_takes_short_pieces_until_it_is_full(rt: HostRuntime) {
    let alloc = rt.alloc();
    let failing = Vec::from_slice(alloc, &[2u64]).expect(&rt, "memory");
    let mut sink = MemSink::new(alloc, failing, 3, 5).expect(&rt, "memory");
    for (text, want) in [
        ("abcd", Ok(3)),
        ("d", Err(Failed)),
        ("def", Ok(2)),
        ("f", Err(Failed)),
        ("", Ok(0)),
    ] {
        assert_eq!(rt; sink.write(text.as_bytes()), want, "at {text}");
    }
    assert_eq!(rt; sink.bytes(), b"abcde".as_slice());
}

#[test]
fn a_sink_of_fixed_size_takes_what_fits(rt: HostRuntime) {
    let mut sink: ConstSink<4> = ConstSink::new();
    for (text, want) in [
        ("abc", Ok(3)),
        ("def", Ok(1)),
        ("", Ok(0)),
        ("e", Err(Failed)),
    ] {
        assert_eq!(rt; sink.write(text.as_bytes()), want, "at {text}");
    }
    assert_eq!(rt; sink.bytes(), b"abcd".as_slice());
}

#[test]
fn the_real_ones_answer(rt: HostRuntime) {
    let mut source = FileSource::new(&rt);
    let mut buf = *b"...";
    assert_eq!(rt; source.read(&mut buf), Ok(0));
    assert_eq!(rt; source.begin("/no/such/file"), Err(Failed));
    assert_eq!(rt; source.begin("/dev/zero"), Ok(()));
    assert_eq!(rt; source.read(&mut buf), Ok(3));
    assert_eq!(rt; buf[..], [0; 3][..]);
    assert_eq!(rt; source.begin("/no/such/file"), Err(Failed));
    assert_eq!(rt; source.read(&mut buf), Ok(3));
    assert_eq!(rt; source.begin("/dev/null"), Ok(()));
    assert_eq!(rt; source.read(&mut buf), Ok(0));
    let mut sink = StdSink::new(&rt);
    assert_eq!(rt; sink.write(b""), Ok(0));
    assert_eq!(rt; sink.write(b"written\n"), Ok(8));
}
