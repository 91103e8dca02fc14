//! A shelf of files and a sink on standard output: one call of the runtime each, whose answer is
//! handed on. A call that a signal interrupts is made again.
ghost use Rattle.std.specs.Prelude.{◌≡◌, ◌≤◌, IfSome, length, false};

use crate::shelf_core::faults::Faults;
use crate::shelf_core::{Failed, Shelf, Sink};
use std::fs;
use std::io::{ErrorKind, Read};
use std::marker::Model;
use std::rt::Files;

/// Reads once, however often a signal interrupts it; none where it fails.
fn read_once<T: Read>(from: &mut T, into: &mut [u8]) -> Option<usize>
    ensures { IfSome result (λ n. n ≤ length into.new) }
{
    for _ in 0..u64::MAX {
        match from.read(into) {
            Ok(n) => return Some(n),
            Err(error) if error.kind() == ErrorKind::Interrupted => {}
            Err(_) => return None,
        }
    }
    None
}

/// Writes once, however often a signal interrupts it; none where it fails.
fn write_once<R: Print>(rt: &R, from: &[u8]) -> Option<usize>
    ensures { IfSome result (λ n. n ≤ length from.now) }
{
    for _ in 0..u64::MAX {
        match rt.write_some(from) {
            Ok(n) => return Some(n),
            Err(error) if error.kind() == ErrorKind::Interrupted => {}
            Err(_) => return None,
        }
    }
    None
}

/// The texts of files, by their paths. It tells no bytes and no names.
#[derive(Drop)]
pub struct FileShelf<'a, R: Files> {
    rt: &'a R,
    file: Option<R::File>,
    faults: Faults,
}

impl<'a, R: Files> Model for FileShelf<'a, R> {
    ghost use Rattle.std.specs.Prelude.{is_some};
    ghost use Rattle.decision_core.specs.ShelfCore.Files.{Filed};

    ghost Value = { Filed };

    ghost view = { λ s. record {
      is_open = is_some s.file;
      faults = s.faults.count;
      failed = s.faults.last;
    } };
}

impl<R: Files> FileShelf<'_, R> {
    /// A shelf with no file open, of which no call was made yet.
    pub fn new(rt: &R) -> FileShelf<'_, R>
        ensures { result ≡ record { is_open = false; faults = 0; failed = false } }
    {
        FileShelf {
            rt,
            file: None,
            faults: Faults::new(),
        }
    }
}

impl<R: Files> Shelf for FileShelf<'_, R> {
    ghost use Rattle.std.specs.Prelude.{None};

    ghost text = { λ _ _. None };

    ghost left = { λ _. None };

    ghost opens = { λ _. None };

    ghost faults = { λ s. s.faults };

    ghost failed = { λ s. s.failed };

    fn open(&mut self, name: &str) -> Result<(), Failed> {
        self.file = fs::open(self.rt, name).ok();
        if self.file.is_none() {
            return Err(self.faults.fail());
        }
        self.faults.pass();
        Ok(())
    }

    fn read(&mut self, into: &mut [u8]) -> Result<usize, Failed> {
        let read = match &mut self.file {
            Some(file) => read_once(file, into),
            None => Some(0),
        };
        let Some(n) = read else {
            self.file = None;
            return Err(self.faults.fail());
        };
        self.faults.pass();
        Ok(n)
    }
}

/// Standard output. It tells no bytes.
#[derive(Drop)]
pub struct OutSink<'a, R: Print> {
    rt: &'a R,
    faults: Faults,
}

impl<'a, R: Print> Model for OutSink<'a, R> {
    ghost use Rattle.decision_core.specs.ShelfCore.Files.{Printed};

    ghost Value = { Printed };

    ghost view = { λ s. record {
      faults = s.faults.count;
      failed = s.faults.last;
    } };
}

impl<R: Print> OutSink<'_, R> {
    /// Standard output, to which nothing was written yet.
    pub fn new(rt: &R) -> OutSink<'_, R>
        ensures { result ≡ record { faults = 0; failed = false } }
    {
        OutSink {
            rt,
            faults: Faults::new(),
        }
    }
}

impl<R: Print> Sink for OutSink<'_, R> {
    ghost use Rattle.std.specs.Prelude.{None};

    ghost written = { λ _. None };

    ghost faults = { λ s. s.faults };

    ghost failed = { λ s. s.failed };

    fn write(&mut self, from: &[u8]) -> Result<usize, Failed> {
        match write_once(self.rt, from) {
            Some(n) if n > 0 || from.is_empty() => {
                self.faults.pass();
                Ok(n)
            }
            _ => Err(self.faults.fail()),
        }
    }
}
