//! A shelf of two texts and a sink that never fail.
ghost use Rattle.std.specs.Prelude.{◌≡◌, ◌+◌, ◌^◌, ◌<◌, length, drop};
ghost use Rattle.decision_core.specs.ShelfCore.Sure.{sure_text, sure_left};

use crate::shelf_core::{Failed, Shelf, Sink};
use cargo_core::Text;
use std::marker::Model;

/// Which text of a `SureShelf` is open.
#[derive(Clone, Copy, Debug, PartialEq, Eq)]
pub enum Opened {
    Nothing,
    Description,
    Trace,
}

/// A description under its name, and a trace under every other name. It never fails.
#[derive(Drop)]
pub struct SureShelf {
    name: Text,
    desc: Text,
    trace: Text,
    opened: Opened,
    at: usize,
}

impl Model for SureShelf {
    ghost use Rattle.decision_core.specs.ShelfCore.Sure.{Sure};

    ghost Value = { Sure };

    ghost view = { λ s. record {
      name = s.name;
      desc = s.desc;
      trace = s.trace;
      opened = s.opened;
      at = s.at;
    } };
}

impl SureShelf {
    /// These texts, none of which is open.
    pub fn new(name: Text, desc: Text, trace: Text) -> SureShelf
        ensures name { result.name ≡ name }
        ensures desc { result.desc ≡ desc }
        ensures trace { result.trace ≡ trace }
        ensures opened { result.opened ≡ Opened.Nothing }
    {
        SureShelf {
            name,
            desc,
            trace,
            opened: Opened::Nothing,
            at: 0,
        }
    }

    /// Which text has a name.
    fn which(&self, name: &str) -> Opened
        ensures { sure_left (record self.now { opened = result; at = 0 })
            ≡ sure_text self.now name.now }
    {
        if self.name.as_str() == name {
            Opened::Description
        } else {
            Opened::Trace
        }
    }

    /// What is left of the open text.
    fn left(&self) -> &[u8]
        ensures left { result.now ≡ sure_left self.now }
        ensures fits { self.now.at + length result.now < 2 ^ 64 }
    {
        let text = match self.opened {
            Opened::Nothing => "",
            Opened::Description => self.desc.as_str(),
            Opened::Trace => self.trace.as_str(),
        };
        let bytes = text.as_bytes();
        if self.at < bytes.len() {
            &bytes[self.at..]
        } else {
            &[]
        }
    }
}

impl SureShelf {
    /// Goes on behind the next bytes.
    fn skip(&mut self, n: usize)
        requires { self.old.at + n < 2 ^ 64 }
        ensures { self.new ≡ record self.old { at = self.old.at + n } }
    {
        self.at += n;
    }
}

impl Shelf for SureShelf {
    ghost use Rattle.std.specs.Prelude.{Some, None, false};

    ghost text = { λ s name. Some (sure_text s name) };

    ghost left = { λ s. Some (sure_left s) };

    ghost opens = { λ _. None };

    ghost faults = { λ _. 0 };

    ghost failed = { λ _. false };

    fn open(&mut self, name: &str) -> Result<(), Failed> {
        self.opened = self.which(name);
        self.at = 0;
        Ok(())
    }

    fn read(&mut self, into: &mut [u8]) -> Result<usize, Failed> {
        let left = self.left();
        let n = left.len().min(into.len());
        into[..n].copy_from_slice(&left[..n]);
        self.skip(n);
        Ok(n)
    }
}

/// A sink that counts bytes, and never fails. It tells none of them: it is how many were written.
/// The count stands still at the end of its type.
#[derive(Debug, Drop)]
pub struct SureSink {
    bytes: u64,
}

impl Model for SureSink {
    ghost use Rattle.std.specs.Prelude.{ℕ};

    ghost Value = { ℕ };

    ghost view = { λ s. s.bytes };
}

impl SureSink {
    /// Nothing was written yet.
    pub fn new() -> SureSink
        ensures { result ≡ 0 }
    {
        SureSink { bytes: 0 }
    }

    /// How many bytes were written.
    pub fn bytes(&self) -> u64
        ensures { result ≡ self.now }
    {
        self.bytes
    }
}

impl Sink for SureSink {
    ghost use Rattle.std.specs.Prelude.{None, false, ◌-◌, min, Ok};

    ghost written = { λ _. None };

    ghost faults = { λ _. 0 };

    ghost failed = { λ _. false };

    /// It takes the piece whole, and counts its bytes.
    fn write(&mut self, from: &[u8]) -> Result<usize, Failed>
        ensures whole { result ≡ Ok (length from.now) }
        ensures counted { self.new ≡ min (self.old + length from.now) (2 ^ 64 - 1) }
    {
        self.bytes = self.bytes.saturating_add(from.len() as u64);
        Ok(from.len())
    }
}
