//! The source over real files.

ghost use Rattle.std.specs.Prelude.{◌≡◌, ◌≤◌, ℕ, List, None, OnOk, OnErr, IfOk, IsSomeAnd, ⊤};
ghost use Rattle.std.specs.Io.KnownBytes.{Keeps};
ghost use Rattle.caf_base.specs.Outside.{Begins, MayNotBegin};
ghost use Rattle.caf_io.specs.Sources.{untold};

use caf_base::outside::{Failed, Source};
use std::fs;
use std::io::Read;
use std::marker::Model;
use std::rt::Files;

/// What opens files. Of each that it opens it tells `opened`: that it is the one of that name, from its start.
pub trait Opener {
    type File: Read + Drop;

    ghost opened: { Self → List ℕ → Self.File → Type 0 };

    /// The file of a name, of which nothing is read yet.
    fn open(&self, name: &str) -> Result<Self::File, Failed>
        ensures { IfOk result (opened self.now name.now) };
}

/// The files of the system, which tell nothing of a file that they open; that it is the one of that name is trusted.
#[derive(Drop)]
pub struct SystemFiles<'a, R: Files> {
    rt: &'a R,
}

impl<'a, R: Files> Opener for SystemFiles<'a, R> {
    type File = R::File;

    ghost opened = { λ _ _ _. ⊤ };

    fn open(&self, name: &str) -> Result<R::File, Failed> {
        match fs::open(self.rt, name) {
            Ok(file) => Ok(file),
            Err(_) => Err(Failed),
        }
    }
}

/// A source over the files that an opener opens. Of their content it tells what the open file tells.
#[derive(Drop)]
pub struct OpenerSource<O: Opener> {
    opener: O,
    file: Option<O::File>,
    faults: u64,
}

/// A source over the files of the system, of whose content nothing is told; that what it gives stands in them is
/// trusted.
pub type FileSource<'a, R> = OpenerSource<SystemFiles<'a, R>>;

impl<O: Opener> Model for OpenerSource<O> {
    ghost use Rattle.caf_io.specs.Sources.{FileState, left_of_file};

    ghost Value = { FileState O O.File };

    ghost view = { λ s. record { opener = s.opener; file = s.file; left = left_of_file ⟦<O::File as Read>⟧.remaining s.file; faults = s.faults } };
}

impl<'a, R: Files> OpenerSource<SystemFiles<'a, R>> {
    /// A source of which no file is begun.
    pub fn new(rt: &'a R) -> FileSource<'a, R>
        ensures file { result.file ≡ None }
        ensures faults { result.faults ≡ 0 }
    {
        OpenerSource {
            opener: SystemFiles { rt },
            file: None,
            faults: 0,
        }
    }
}

impl<O: Opener> Source for OpenerSource<O> {
    ghost files = { λ _. untold };

    ghost left = { λ s. s.left };

    ghost faults = { λ s. s.faults };

    fn begin(&mut self, name: &str) -> Result<(), Failed>
        ensures files { untold ≡ untold }
        ensures begins { OnOk result (Begins untold name.now self.new.left) }
        ensures failed_keeps { OnErr result (Keeps self.old.left self.new.left) }
        ensures later { self.old.faults ≤ self.new.faults }
        ensures still { OnOk result (self.new.faults ≡ self.old.faults) }
        ensures cause { OnErr result (MayNotBegin untold name.now self.old.faults self.new.faults) }

        // The file that was opened by that name is read from now on.
        ensures begun { OnOk result (IsSomeAnd self.new.file (O.opened self.old.opener name.now)) }
    {
        match self.opener.open(name) {
            Ok(file) => {
                self.file = Some(file);
                Ok(())
            }
            Err(_) => {
                self.faults = self.faults.saturating_add(1);
                Err(Failed)
            }
        }
    }

    fn read(&mut self, buf: &mut [u8]) -> Result<usize, Failed> {
        let Some(file) = &mut self.file else {
            return Ok(0);
        };
        match file.read(buf) {
            Ok(n) => Ok(n),
            Err(_) => {
                self.faults = self.faults.saturating_add(1);
                Err(Failed)
            }
        }
    }
}
