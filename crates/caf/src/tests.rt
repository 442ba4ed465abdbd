//! Calls through the top call, over a source and a sink in memory that move few bytes at once, that fail, or that
//! mustn't be called. What needs neither is run on the built program (tools/answers.cases). A test ends where memory
//! is wanting.

ghost use Rattle.std.specs.Prelude.{◌≤◌};

use caf_base::hook::Quiet;
use caf_io::mem_sink::MemSink;
use caf_io::mem_source::MemSource;
use caf_run::top::caf;
use std::alloc::Global;
use std::process::Abort;
use std::sync::Wait;
use std::thread::Threads;

/// How many bytes a read and a write move at most, and which calls of the source and which writes fail, each counted
/// from 1.
#[derive(Clone, Copy)]
pub(crate) struct Pace {
    read: usize,
    write: usize,
    broken: &'static [u64],
    failing: &'static [u64],
}

/// No call fails, and each moves all that it can.
pub(crate) const WHOLE: Pace = Pace {
    read: 4096,
    write: 4096,
    broken: &[],
    failing: &[],
};

// Image 1 reads the number that its fourth neighbour has.
const NEIGHBOUR: &[u8] =
    b"integer :: x[*]\nx = this_image()\nsync all\nif (this_image() == 1) print *, x[4]\nend\n";

// The words of a check of the one file.
const CHECK: [&str; 2] = ["check", "a.f90"];

// The words of a call.
pub(crate) fn words_of<R: Abort>(rt: &R, alloc: Global, words: &[&str]) -> Vec<String> {
    let mut texts = Vec::new(alloc);
    for word in words {
        let text = String::from_str(alloc, word).expect(rt, "memory");
        texts.push(text).expect(rt, "memory");
    }
    texts
}

// A source with the one file `a.f90` of these bytes.
pub(crate) fn source_of<R: Abort>(rt: &R, alloc: Global, file: &[u8], pace: Pace) -> MemSource
    requires { 1 ≤ pace.read }
{
    let name = Vec::from_slice(alloc, b"a.f90").expect(rt, "memory");
    let bytes = Vec::from_slice(alloc, file).expect(rt, "memory");
    let files = Vec::from_array(alloc, [(name, bytes)]).expect(rt, "memory");
    let broken = Vec::from_slice(alloc, pace.broken).expect(rt, "memory");
    MemSource::new(files, broken, pace.read)
}

// A call with these words over the file `a.f90` answers this status and writes this text.
fn says<R: Abort + Threads + Wait + Sync>(
    rt: &R,
    alloc: Global,
    words: &[&str],
    file: &[u8],
    pace: Pace,
    status: u8,
    text: &str,
)
    requires { (1 ≤ pace.read) × (1 ≤ pace.write) }
{
    let texts = words_of(rt, alloc, words);
    let mut source = source_of(rt, alloc, file, pace);
    let failing = Vec::from_slice(alloc, pace.failing).expect(rt, "memory");
    let mut sink = MemSink::new(alloc, failing, pace.write, 4096).expect(rt, "memory");
    let done = caf(rt, alloc, &texts, &mut source, &mut sink, &Quiet);
    assert!(rt; sink.bytes() == text.as_bytes(), "{words:?} write {text}");
    assert!(rt; done.status == status, "{words:?} end with {status}");
    drop(done);
}

// The source is called for its begin and for each piece, and once more for the end of the file; the sink for each
// piece. So what is listed from the fourth call of the source on, and from the third of the sink, changes nothing.
#[test]
fn neighbour_read(rt: HostRuntime) {
    let words = ["run", "-n", "4", "--order", "0", "a.f90"];
    let behind = Pace {
        read: 4096,
        write: 4,
        broken: &[4, 5],
        failing: &[3, 4],
    };
    says(&rt, rt.alloc(), &words, NEIGHBOUR, WHOLE, 0, "1: 4\n");
    says(&rt, rt.alloc(), &words, NEIGHBOUR, behind, 0, "1: 4\n");
}

#[test]
fn neighbour_read_byte_by_byte(rt: HostRuntime) {
    let words = ["run", "-n", "4", "--order", "0", "a.f90"];
    let slow = Pace {
        read: 1,
        write: 1,
        broken: &[],
        failing: &[],
    };
    says(&rt, rt.alloc(), &words, NEIGHBOUR, slow, 0, "1: 4\n");
}

#[test]
fn short_sink(rt: HostRuntime) {
    let words = ["run", "-n", "4", "--order", "0", "a.f90"];
    let short = Pace {
        read: 4096,
        write: 4,
        broken: &[],
        failing: &[2],
    };
    says(&rt, rt.alloc(), &words, NEIGHBOUR, short, 11, "1: 4");
}

#[test]
fn fault_at_the_end_of_the_file(rt: HostRuntime) {
    let words = ["run", "-n", "4", "--order", "0", "a.f90"];
    let broken = Pace {
        read: 4096,
        write: 4096,
        broken: &[3],
        failing: &[2],
    };
    says(
        &rt,
        rt.alloc(),
        &words,
        NEIGHBOUR,
        broken,
        10,
        "read fault\n",
    );
}

// A check reads its file to the end and writes its text as a run does, with the same faults.
#[test]
fn faults_of_a_check(rt: HostRuntime) {
    let broken = Pace {
        read: 4096,
        write: 4096,
        broken: &[3],
        failing: &[2],
    };
    let short = Pace {
        read: 4096,
        write: 2,
        broken: &[4],
        failing: &[2],
    };
    says(
        &rt,
        rt.alloc(),
        &CHECK,
        NEIGHBOUR,
        broken,
        10,
        "read fault\n",
    );
    says(&rt, rt.alloc(), &CHECK, NEIGHBOUR, short, 11, "ok");
    says(
        &rt,
        rt.alloc(),
        &["check", "b.f90"],
        NEIGHBOUR,
        WHOLE,
        10,
        "read fault\n",
    );
    says(&rt, rt.alloc(), &CHECK, b"", WHOLE, 3, "refused 7 at 1:1\n");
}

// A file of the most bytes is read by 257 calls behind its begin, one longer by 257 too: what is listed from the
// 259th on changes nothing.
#[test]
fn too_long_file(rt: HostRuntime) {
    let words = ["run", "-n", "1", "--order", "0", "a.f90"];
    let behind = Pace {
        read: 4096,
        write: 4096,
        broken: &[259],
        failing: &[2],
    };
    let mut file = vec![in rt.alloc(); b'\n'; 1_048_573].expect(&rt, "memory");
    file.extend_from_slice(b"end").expect(&rt, "memory");
    says(&rt, rt.alloc(), &words, file.as_slice(), behind, 0, "");
    file.push(b'\n').expect(&rt, "memory");
    says(
        &rt,
        rt.alloc(),
        &words,
        file.as_slice(),
        behind,
        13,
        "too long\n",
    );
}

// A made source is run without a call of the source, and summed up behind the line of the end.
#[test]
fn made_source(rt: HostRuntime) {
    let unread = Pace {
        read: 4096,
        write: 4096,
        broken: &[1],
        failing: &[],
    };
    let words = ["run", "-n", "2", "--order", "0", "--made", "1", "4"];
    let wanted = "1: 4448\nsummary images 2 events 127 status 0\n";
    says(&rt, rt.alloc(), &words, b"", unread, 0, wanted);
    let words = [
        "run", "--fail", "2@1", "-n", "2", "--order", "0", "--made", "1", "4",
    ];
    let wanted = "error stop image 1 line 12 code 6001\nsummary images 2 events 7 status 4\n";
    says(&rt, rt.alloc(), &words, b"", unread, 4, wanted);
}

// `make` writes it.
#[test]
fn source_that_is_made(rt: HostRuntime) {
    let unread = Pace {
        read: 4096,
        write: 4096,
        broken: &[1],
        failing: &[],
    };
    let wanted = "program made
integer :: u(2), edge[*], me, left, k, i, s, t
me = this_image()
left = me - 1
if (left == 0) left = num_images()
u(1) = 838
u(2) = 758
do k = 1, 10
edge = u(2)
sync all
t = edge[left]
sync all
do i = 2, 2, -1
u(i) = u(i - 1)
end do
u(1) = t
end do
s = 0
do i = 1, 2
s = s + u(i)
end do
call co_sum(s)
if (me == 1) print *, s
end program made
";
    says(&rt, rt.alloc(), &["make", "1", "2"], b"", unread, 0, wanted);
}
