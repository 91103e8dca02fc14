//! Bytes that an actor records, with the memory of the next one taken before its step knows it.
ghost use Rattle.std.specs.Prelude.{◌≡◌, ◌<◌, [], ◌∷◌, ◌++◌, OnOk, OnErr};

use crate::Memory;
use std::alloc::Global;
use std::marker::Model;

/// Bytes that are recorded one by one. The memory of the next one can be taken beforehand, so that
/// a step which records can do first what may fail.
#[derive(Debug, Drop)]
pub struct Tape {
    bytes: Vec<u8>,
}

impl Model for Tape {
    ghost use Rattle.std.specs.Prelude.{◌-◌, vec_len, vec_capacity};
    ghost use Rattle.cargo_core.specs.Tapes.{Taped};

    ghost Value = { Taped };

    ghost view = { λ t. record {
      shown = t.bytes.items;
      spare = vec_capacity t.bytes - vec_len t.bytes;
    } };
}

impl Tape {
    /// Nothing recorded. It takes no memory.
    pub fn new(alloc: Global) -> Tape
        ensures { result.shown ≡ [] }
    {
        Tape {
            bytes: Vec::new(alloc),
        }
    }

    /// What was recorded.
    pub fn as_slice(&self) -> &[u8]
        ensures { result.now ≡ self.now.shown }
    {
        &self.bytes
    }

    /// Takes the memory of one more byte. After want of memory nothing changed.
    pub fn reserve(&mut self) -> Result<(), Memory>
        ensures ok { OnOk result (self.new.shown ≡ self.old.shown) }
        ensures room { OnOk result (0 < self.new.spare) }
        ensures err { OnErr result (self.new ≡ self.old) }
    {
        self.bytes.reserve(1)?;
        Ok(())
    }

    /// Records a byte, whose memory was taken before.
    pub fn push(&mut self, byte: u8)
        requires { 0 < self.old.spare }
        ensures { self.new.shown ≡ self.old.shown ++ byte ∷ [] }
    {
        self.bytes.push_reserved(byte);
    }
}
