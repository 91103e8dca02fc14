//! A sink on standard error.
ghost use Rattle.std.specs.Prelude.{◌≡◌, ◌≤◌, false};
ghost use Rattle.decision_core.specs.ShelfCore.Outside.{FailsLast};

use decision_core::shelf_core::{Failed, Sink};
use std::marker::Model;
use std::str;

/// Standard error, to which lines are written. It tells no bytes.
#[derive(Drop)]
pub struct ErrSink<'a, R: Eprint> {
    rt: &'a R,
    faults: u64,
    failed: bool,
}

impl<'a, R: Eprint> Model for ErrSink<'a, R> {
    ghost use Rattle.decision_core.specs.ShelfCore.Files.{Printed};

    ghost Value = { Printed };

    ghost view = { λ s. record {
      faults = s.faults;
      failed = s.failed;
    } };
}

impl<R: Eprint> ErrSink<'_, R> {
    /// Standard error, to which nothing was written yet.
    pub fn new(rt: &R) -> ErrSink<'_, R>
        ensures { result ≡ record { faults = 0; failed = false } }
    {
        ErrSink {
            rt,
            faults: 0,
            failed: false,
        }
    }

    // A call failed.
    fn fail(&mut self) -> Failed
        ensures fails { FailsLast self.old.faults self.new.faults self.new.failed }
        ensures rising { self.old.faults ≤ self.new.faults }
    {
        self.faults = self.faults.saturating_add(1);
        self.failed = true;
        Failed
    }

    // A call went well.
    fn pass(&mut self)
        ensures { self.new ≡ record self.old { failed = false } }
    {
        self.failed = false;
    }
}

impl<R: Eprint> Sink for ErrSink<'_, R> {
    ghost use Rattle.std.specs.Prelude.{None};

    ghost written = { λ _. None };

    ghost faults = { λ s. s.faults };

    ghost failed = { λ s. s.failed };

    /// It takes the piece whole, where it is a text.
    fn write(&mut self, from: &[u8]) -> Result<usize, Failed> {
        let Ok(text) = str::from_utf8(from) else {
            return Err(self.fail());
        };
        if eprint!(self.rt; "{text}").is_err() {
            return Err(self.fail());
        }
        self.pass();
        Ok(from.len())
    }
}
