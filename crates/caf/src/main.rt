//! The program `caf`: it checks a Coarray Fortran program, or runs it, on workers or in a stated order, and says
//! exactly what happened.
//! It stands on `caf_run`, whose top call does all of it, and on `caf_io` for the real file and standard output.
//! Nothing stands on it.
//! Its main contract is that of `caf_run::top::caf`; these lines hand over the words behind the program's name.
#![tactic(auto)]

use caf_base::hook::Quiet;
use caf_io::file_source::FileSource;
use caf_io::std_sink::StdSink;
use caf_run::top::caf;
use std::alloc::{AllocError, Global};
use std::env;
use std::io::ErrorKind;
use std::process::ExitCode;
use std::rt::Env;

#[cfg(test)]
mod tests;
#[cfg(test)]
mod tests_of_threads;

/// The status where memory is wanting.
const WANT_OF_MEMORY: u8 = 12;

// The words behind the program's name; none where the system doesn't give them as text.
fn words<R: Env + Alloc<A = Global>>(rt: &R) -> Result<Vec<String>, AllocError> {
    match env::args(rt) {
        Ok(words) => words.skip(1).collect(rt.alloc()),
        Err(error) if error.kind() == ErrorKind::OutOfMemory => Err(AllocError),
        Err(_) => Ok(Vec::new(rt.alloc())),
    }
}

fn main(rt: HostRuntime) -> ExitCode {
    let Ok(words) = words(&rt) else {
        return ExitCode::from(WANT_OF_MEMORY);
    };
    let mut source = FileSource::new(&rt);
    let mut sink = StdSink::new(&rt);
    let done = caf(&rt, rt.alloc(), &words, &mut source, &mut sink, &Quiet);
    ExitCode::from(done.status)
}
