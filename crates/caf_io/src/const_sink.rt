//! A sink that takes no memory, for the tests of what happens without any.

ghost use Rattle.std.specs.Prelude.{◌≡◌, ◌≤◌, ◌-◌, [], Some, not, is_ok, min, length, IfOk, OnOk, OnErr};
ghost use Rattle.std.specs.Io.KnownBytes.{WriteAppends};
ghost use Rattle.caf_base.specs.Outside.{Rose};

use caf_base::outside::{Failed, Sink};
use std::marker::Model;

/// A sink that keeps up to N bytes in place. It tells its bytes. A write fails exactly where it has something to
/// write and the sink is full.
#[derive(Drop)]
pub struct ConstSink<const N: usize> {
    bytes: [u8; N],
    len: usize,
    faults: u64,
}

impl<const N: usize> Model for ConstSink<N> {
    ghost use Rattle.std.specs.Prelude.{◌≤◌, take};
    ghost use Rattle.caf_io.specs.Sinks.{ConstSinkState};

    ghost Value = { ConstSinkState };

    ghost view = { λ s. record { written = take s.len s.bytes; faults = s.faults } };

    ghost invariant = { λ s. s.len ≤ N };
}

impl<const N: usize> ConstSink<N> {
    /// A sink with nothing written.
    pub fn new() -> ConstSink<N>
        ensures { result ≡ record { written = []; faults = 0 } }
    {
        ConstSink {
            bytes: [0; N],
            len: 0,
            faults: 0,
        }
    }

    /// What was written.
    pub fn bytes(&self) -> &[u8]
        ensures { result.now ≡ self.now.written }
    {
        &self.bytes[..self.len]
    }
}

impl<const N: usize> Sink for ConstSink<N> {
    ghost use Rattle.caf_io.specs.Sinks.{finds_full, after_const_write};

    ghost written = { λ s. Some s.written };

    ghost faults = { λ s. s.faults };

    fn write(&mut self, bytes: &[u8]) -> Result<usize, Failed>
        ensures bound { IfOk result (λ n. n ≤ length bytes.now) }
        ensures takes { IfOk result (λ n. n ≡ 0 → bytes.now ≡ []) }
        ensures appends { WriteAppends (Some self.old.written) (Some self.new.written) result bytes.now }
        ensures later { self.old.faults ≤ self.new.faults }
        ensures still { OnOk result (self.new.faults ≡ self.old.faults) }
        ensures cause { OnErr result (Rose self.old.faults self.new.faults) }

        // What a call does, exactly.
        ensures answer { is_ok result ≡ not (finds_full N self.old.written bytes.now) }
        ensures count { IfOk result (λ n. n ≡ min (length bytes.now) (N - length self.old.written)) }
        ensures exact { self.new ≡ after_const_write N self.old bytes.now }
    {
        if !bytes.is_empty() && self.len == N {
            self.faults = self.faults.saturating_add(1);
            return Err(Failed);
        }
        let n = bytes.len().min(N - self.len);
        let all = &mut self.bytes[..];
        all[self.len..self.len + n].copy_from_slice(&bytes[..n]);
        self.len += n;
        Ok(n)
    }
}
