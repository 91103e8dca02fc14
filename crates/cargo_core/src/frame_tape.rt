//! Frames that an actor records, with the memory of the next one taken before its step knows the
//! frame.
ghost use Rattle.std.specs.Prelude.{◌≡◌, ◌<◌, ◌≤◌, [], ◌∷◌, ◌++◌, length, OnOk, OnErr};

use crate::{Bytes, FrameLog, Memory};
use std::alloc::Global;
use std::marker::Model;
use std::mem;

/// Frames that are recorded one by one. The memory of the next one can be taken beforehand, so that
/// a step which records can do first what may fail.
#[derive(Debug, Drop)]
pub struct FrameTape {
    alloc: Global,
    log: FrameLog,
    /// An empty list that can hold the frames and one more, for when the log's own is full.
    next: Vec<Bytes>,
    /// No bytes, with the memory of the next frame.
    blank: Vec<u8>,
}

impl Model for FrameTape {
    ghost use Rattle.std.specs.Prelude.{◌≡◌, ◌-◌, [], length, vec_capacity};
    ghost use Rattle.cargo_core.specs.Tapes.{FramesTaped};

    ghost Value = { FramesTaped };

    ghost view = { λ t. record {
      shown = t.log;
      places = vec_capacity t.next - length t.log;
      bytes = vec_capacity t.blank;
    } };

    ghost invariant = { λ t. (t.next.items ≡ []) × (t.blank.items ≡ []) };
}

impl FrameTape {
    /// Nothing recorded. It takes no memory.
    pub fn new(alloc: Global) -> FrameTape
        ensures { result.shown ≡ [] }
    {
        FrameTape {
            alloc,
            log: FrameLog::new(alloc),
            next: Vec::new(alloc),
            blank: Vec::new(alloc),
        }
    }

    /// What was recorded.
    pub fn frames(&self) -> &FrameLog
        ensures { result.now ≡ self.now.shown }
    {
        &self.log
    }

    /// Takes the memory of one more frame of at most `len` bytes. After want of memory nothing
    /// changed.
    pub fn reserve(&mut self, len: usize) -> Result<(), Memory>
        ensures ok { OnOk result (self.new.shown ≡ self.old.shown) }
        ensures place { OnOk result (0 < self.new.places) }
        ensures bytes { OnOk result (len ≤ self.new.bytes) }
        ensures err { OnErr result (self.new ≡ self.old) }
    {
        let frames = self.log.len();
        if self.next.capacity() <= frames {
            let next = Vec::with_capacity(self.alloc, frames.saturating_mul(2).saturating_add(1))?;
            self.reserve_bytes(len)?;
            self.next = next;
            Ok(())
        } else {
            self.reserve_bytes(len)
        }
    }

    // Takes the memory of the next frame's bytes.
    fn reserve_bytes(&mut self, len: usize) -> Result<(), Memory>
        ensures ok { OnOk result
            ((self.new.shown ≡ self.old.shown) × (self.new.places ≡ self.old.places)) }
        ensures bytes { OnOk result (len ≤ self.new.bytes) }
        ensures err { OnErr result (self.new ≡ self.old) }
    {
        if self.blank.capacity() < len {
            self.blank = Vec::with_capacity(self.alloc, len)?;
        }
        Ok(())
    }

    /// Records a frame, whose memory was taken before.
    pub fn push(&mut self, frame: &[u8])
        requires place { 0 < self.old.places }
        requires bytes { length frame.now ≤ self.old.bytes }
        ensures { self.new.shown ≡ self.old.shown ++ frame.now ∷ [] }
    {
        let mut bytes = mem::replace(&mut self.blank, Vec::new(self.alloc));
        match bytes.extend_from_slice(frame) {
            Ok(()) => self.log.push_with(&mut self.next, Bytes::from_vec(bytes)),
            Err(_) => unreachable!(),
        }
    }
}
