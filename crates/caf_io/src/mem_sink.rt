//! A sink in memory, for tests.

ghost use Rattle.std.specs.Prelude.{◌≡◌, ◌≤◌, [], Some, not, is_ok, length, take, IfOk, OnOk, OnErr};
ghost use Rattle.std.specs.Io.KnownBytes.{WriteAppends};
ghost use Rattle.caf_base.specs.Outside.{Rose};

use crate::calls::Calls;
use caf_base::outside::{Failed, Sink};
use caf_base::refusal::NoMemory;
use std::alloc::Global;
use std::marker::Model;

/// A sink in memory, with room for a number of bytes that it reserves when it is made. It tells its bytes and its
/// calls. A write fails where its call is listed, and where it has something to write and the room is used up.
#[derive(Drop)]
pub struct MemSink {
    bytes: Vec<u8>,
    calls: Calls,
    piece: usize,
    room: usize,
}

impl Model for MemSink {
    ghost use Rattle.std.specs.Prelude.{◌≤◌, vec_len, vec_capacity};
    ghost use Rattle.caf_io.specs.Sinks.{MemSinkState};

    ghost Value = { MemSinkState };

    ghost view = { λ s. record { written = s.bytes.items; calls = s.calls; piece = s.piece; room = s.room } };

    ghost invariant = { λ s. (vec_len s.bytes ≤ s.room) × (s.room ≤ vec_capacity s.bytes) × (1 ≤ s.piece) };
}

impl MemSink {
    /// A sink with nothing written. `fail` lists the writes, counted from 1, that fail, `piece` is the most bytes
    /// that a write takes, and `room` how many bytes the sink holds.
    pub fn new(
        alloc: Global,
        fail: Vec<u64>,
        piece: usize,
        room: usize,
    ) -> Result<MemSink, NoMemory>
        requires { 1 ≤ piece }
        ensures { IfOk result (λ s. s ≡ record {
          written = [];
          calls = record { fail = fail.items; made = 0; faults = 0 };
          piece = piece;
          room = room;
        }) }
    {
        Ok(MemSink {
            bytes: Vec::with_capacity(alloc, room)?,
            calls: Calls::new(fail),
            piece,
            room,
        })
    }

    /// What was written.
    pub fn bytes(&self) -> &[u8]
        ensures { result.now ≡ self.now.written }
    {
        self.bytes.as_slice()
    }
}

impl Sink for MemSink {
    ghost use Rattle.caf_io.specs.Sinks.{write_fails, taken, after_write};

    ghost written = { λ s. Some s.written };

    ghost faults = { λ s. s.calls.faults };

    fn write(&mut self, bytes: &[u8]) -> Result<usize, Failed>
        ensures bound { IfOk result (λ n. n ≤ length bytes.now) }
        ensures takes { IfOk result (λ n. n ≡ 0 → bytes.now ≡ []) }
        ensures appends { WriteAppends (Some self.old.written) (Some self.new.written) result bytes.now }
        ensures later { self.old.calls.faults ≤ self.new.calls.faults }
        ensures still { OnOk result (self.new.calls.faults ≡ self.old.calls.faults) }
        ensures cause { OnErr result (Rose self.old.calls.faults self.new.calls.faults) }

        // What a call does, exactly.
        ensures answer { is_ok result ≡ not (write_fails self.old bytes.now) }
        ensures count { IfOk result (λ n. n ≡ taken self.old bytes.now) }
        ensures exact { self.new ≡ after_write self.old bytes.now }
    {
        let left = self.room - self.bytes.len();
        let is_full = !bytes.is_empty() && left == 0;
        if self.calls.begin() || is_full {
            self.calls.fault();
            return Err(Failed);
        }
        let n = bytes.len().min(self.piece).min(left);
        self.bytes.extend_from_slice(&bytes[..n]).unwrap();
        Ok(n)
    }
}
