//! Lists of frames, as traces and reports have them.
ghost use Rattle.std.specs.Prelude.{◌≡◌, ◌<◌, ◌==◌, [], ◌∷◌, ◌++◌, length, OnOk, OnErr, slice_get};
ghost use Rattle.std.specs.Prelude.{Some, vec_capacity};

use crate::{Bytes, Memory};
use std::alloc::Global;
use std::marker::Model;
use std::mem;

/// A list of frames.
#[derive(Debug, Drop)]
pub struct FrameLog {
    alloc: Global,
    frames: Vec<Bytes>,
}

impl Model for FrameLog {
    ghost use Rattle.std.specs.Prelude.{ℕ, List};

    ghost Value = { List (List ℕ) };

    ghost view = { λ l. l.frames.items };
}

impl FrameLog {
    /// The empty list. It takes no memory.
    pub fn new(alloc: Global) -> FrameLog
        ensures { result ≡ [] }
    {
        FrameLog {
            alloc,
            frames: Vec::new(alloc),
        }
    }

    /// Appends a copy of a frame. After want of memory nothing changed.
    pub fn push(&mut self, frame: &[u8]) -> Result<(), Memory>
        ensures ok { OnOk result (self.new ≡ self.old ++ frame.now ∷ []) }
        ensures err { OnErr result (self.new ≡ self.old) }
    {
        let copy = Bytes::from_slice(self.alloc, frame)?;
        self.frames.push(copy)?;
        Ok(())
    }

    // Appends a frame. Where the list is full, its frames move to another one that has the place:
    // it takes no memory.
    pub(crate) fn push_with(&mut self, next: &mut Vec<Bytes>, frame: Bytes)
        requires empty { next.old.items ≡ [] }
        requires place { length self.old < vec_capacity next.old }
        ensures frames { self.new ≡ self.old ++ frame ∷ [] }
        ensures empty { next.new.items ≡ [] }
    {
        if self.frames.len() < self.frames.capacity() {
            self.frames.push_reserved(frame);
        } else {
            match next.append(&mut self.frames) {
                Ok(()) => mem::swap(next, &mut self.frames),
                Err(_) => unreachable!(),
            }
            self.frames.push_reserved(frame);
        }
    }

    /// How many frames there are.
    pub fn len(&self) -> usize
        ensures { result ≡ length self.now }
    {
        self.frames.len()
    }

    /// Whether there is no frame.
    pub fn is_empty(&self) -> bool
        ensures { result ≡ (length self.now == 0) }
    {
        self.frames.is_empty()
    }

    /// The frame at a place.
    pub fn get(&self, at: usize) -> &[u8]
        requires { at < length self.now }
        ensures { slice_get self.now at ≡ Some result.now }
    {
        let frame = &self.frames[at];
        frame.as_slice()
    }
}
