//! A source over files in memory, for tests.

ghost use Rattle.std.specs.Prelude.{◌≡◌, ◌≤◌, ◌<◌, ◌&&◌, [], Some, not, is_ok, is_some, length, drop, IfOk, OnOk, OnErr, MatchOption, None};
ghost use Rattle.std.specs.Io.KnownBytes.{ReadConsumes, Keeps};
ghost use Rattle.caf_base.specs.Outside.{Begins, MayNotBegin, Rose, file_of};
ghost use Rattle.caf_io.specs.Calls.{fails_next};

use crate::calls::Calls;
use caf_base::outside::{Failed, Source};
use std::marker::Model;

/// A place in one of the files: its index, and how many of its bytes are still to come.
#[derive(Clone, Copy)]
struct Place {
    file: usize,
    left: usize,
}

/// A source over files in memory. It tells its files, what is left, and its calls; a call that isn't listed fails
/// only where no file has the name.
#[derive(Drop)]
pub struct MemSource {
    files: Vec<(Vec<u8>, Vec<u8>)>,
    place: Option<Place>,
    calls: Calls,
    piece: usize,
}

impl Model for MemSource {
    ghost use Rattle.std.specs.Prelude.{◌≤◌};
    ghost use Rattle.caf_io.specs.Sources.{SourceState, files_of, left_from, IsPlace};

    ghost Value = { SourceState };

    ghost view = { λ s. record { files = files_of s.files.items; left = left_from s.files.items s.place; calls = s.calls; piece = s.piece } };

    ghost invariant = { λ s. IsPlace s.files.items s.place × (1 ≤ s.piece) };
}

impl MemSource {
    ghost use Rattle.caf_io.specs.Sources.{files_of, bytes_at};

    /// A source over these files, of which none is begun. `fail` lists the calls of `begin` and `read` together,
    /// counted from 1, that fail, and `piece` is the most bytes that a call moves.
    pub fn new(files: Vec<(Vec<u8>, Vec<u8>)>, fail: Vec<u64>, piece: usize) -> MemSource
        requires { 1 ≤ piece }
        ensures { result ≡ record {
          files = files_of files.items;
          left = [];
          calls = record { fail = fail.items; made = 0; faults = 0 };
          piece = piece;
        } }
    {
        MemSource {
            files,
            place: None,
            calls: Calls::new(fail),
            piece,
        }
    }

    // The bytes still to come.
    fn left(&self) -> &[u8]
        ensures { result.now ≡ self.now.left }
    {
        let Some(place) = self.place else {
            return &[];
        };
        let bytes = self.files[place.file].1.as_slice();
        &bytes[bytes.len() - place.left..]
    }

    // Goes past the first bytes of what is left.
    fn advance(&mut self, count: usize)
        requires { count ≤ length self.old.left }
        ensures { self.new ≡ record self.old { left = drop count self.old.left } }
    {
        if let Some(place) = &mut self.place {
            place.left -= count;
        }
    }

    // The index of the first file of a name.
    fn index_of(files: &[(Vec<u8>, Vec<u8>)], name: &[u8]) -> Option<usize>
        ensures { MatchOption result (file_of name.now (files_of files.now) ≡ None) (λ i. (i < length files.now) × (file_of name.now (files_of files.now) ≡ Some (bytes_at files.now i))) }
    {
        for (i, file) in files.iter().enumerate() {
            if file.0.as_slice() == name {
                return Some(i);
            }
        }
        None
    }
}

impl Source for MemSource {
    ghost use Rattle.caf_io.specs.Sources.{after_begin, after_read, moved, buffer_after};

    ghost files = { λ s. Some s.files };

    ghost left = { λ s. Some s.left };

    ghost faults = { λ s. s.calls.faults };

    fn begin(&mut self, name: &str) -> Result<(), Failed>
        ensures files { Some self.new.files ≡ Some self.old.files }
        ensures begins { OnOk result (Begins (Some self.old.files) name.now (Some self.new.left)) }
        ensures failed_keeps { OnErr result (Keeps (Some self.old.left) (Some self.new.left)) }
        ensures later { self.old.calls.faults ≤ self.new.calls.faults }
        ensures still { OnOk result (self.new.calls.faults ≡ self.old.calls.faults) }
        ensures cause { OnErr result (MayNotBegin (Some self.old.files) name.now self.old.calls.faults self.new.calls.faults) }

        // What a call does, exactly.
        ensures answer { is_ok result ≡ (not (fails_next self.old.calls) && is_some (file_of name.now self.old.files)) }
        ensures exact { self.new ≡ after_begin self.old name.now }
    {
        if self.calls.begin() {
            self.calls.fault();
            return Err(Failed);
        }
        let Some(file) = MemSource::index_of(&self.files, name.as_bytes()) else {
            return Err(Failed);
        };
        let left = self.files[file].1.len();
        self.place = Some(Place { file, left });
        Ok(())
    }

    fn read(&mut self, buf: &mut [u8]) -> Result<usize, Failed>
        ensures files { Some self.new.files ≡ Some self.old.files }
        ensures bound { IfOk result (λ n. n ≤ length buf.new) }
        ensures moves { ReadConsumes (Some self.old.left) (Some self.new.left) result buf.new }
        ensures later { self.old.calls.faults ≤ self.new.calls.faults }
        ensures still { OnOk result (self.new.calls.faults ≡ self.old.calls.faults) }
        ensures cause { OnErr result (Rose self.old.calls.faults self.new.calls.faults) }

        // What a call does, exactly.
        ensures answer { is_ok result ≡ not (fails_next self.old.calls) }
        ensures count { IfOk result (λ n. n ≡ moved self.old (length buf.old)) }
        ensures exact { self.new ≡ after_read self.old (length buf.old) }
        ensures buffer { buf.new ≡ buffer_after self.old buf.old }
    {
        if self.calls.begin() {
            self.calls.fault();
            return Err(Failed);
        }
        let left = self.left();
        let n = buf.len().min(self.piece).min(left.len());
        buf[..n].copy_from_slice(&left[..n]);
        self.advance(n);
        Ok(n)
    }
}
