//! The sink over standard output.

ghost use Rattle.std.specs.Prelude.{◌≡◌, None};

use caf_base::outside::{Failed, Sink};
use std::io;
use std::io::{Print, Printer, Write};

/// A sink over a writer. Of its content it tells what the writer tells.
#[derive(Drop)]
pub struct WriterSink<W: Write> {
    writer: W,
    faults: u64,
}

/// A sink over standard output, which tells nothing of its content; that what it takes is written is trusted.
pub type StdSink<'a, R> = WriterSink<Printer<'a, R>>;

impl<'a, R: Print> WriterSink<Printer<'a, R>> {
    /// A sink with nothing written.
    pub fn new(rt: &'a R) -> StdSink<'a, R>
        ensures { ⟦<StdSink<'a, R> as Sink>⟧.faults result ≡ 0 }
    {
        WriterSink {
            writer: io::writer(rt),
            faults: 0,
        }
    }
}

impl<W: Write> Sink for WriterSink<W> {
    ghost written = { λ s. ⟦<W as Write>⟧.contents s.writer };

    ghost faults = { λ s. s.faults };

    fn write(&mut self, bytes: &[u8]) -> Result<usize, Failed> {
        match self.writer.write(bytes) {
            Ok(n) if n > 0 || bytes.is_empty() => Ok(n),
            _ => {
                self.faults = self.faults.saturating_add(1);
                Err(Failed)
            }
        }
    }
}
