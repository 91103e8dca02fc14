//! What a network client does with its frames: the programs are this project's own.
ghost use Rattle.std.specs.Prelude.{◌≡◌, ◌<◌, ◌^◌, ℕ, List, Some, All, length, slice_get};
ghost use Rattle.buffer_kit.specs.Entries.{filled};
ghost use Rattle.client_programs.specs.Net.Programs.{frames_out, is_echo};

use crate::net::answers::fill_answer;
use buffer_kit::fill;
use cargo_core::{Body, FrameLog, Item};
use frame_core::Mac;

/// The programs of network clients.
#[derive(Clone, Copy, Debug, PartialEq, Eq)]
pub enum NetProgram {
    /// Records the frames that come, and sends nothing.
    Sink,
    /// Sends the frames of its script too, in order.
    Source,
    /// Answers each frame that comes, before it takes the next.
    Echo,
}

/// A client's program: its kind, the client's own address, and the frames that a source sends.
#[derive(Drop)]
pub struct ClientProgram {
    pub kind: NetProgram,
    pub mac: Mac,
    pub script: FrameLog,
}

impl ClientProgram {
    /// Whether it answers each frame before the next is taken.
    pub fn is_echo(&self) -> bool
        ensures { result ≡ is_echo self.now.kind }
    {
        match self.kind {
            NetProgram::Sink | NetProgram::Source => false,
            NetProgram::Echo => true,
        }
    }

    /// How many frames it sends where these came.
    pub fn count(&self, came: &FrameLog) -> usize
        ensures { result ≡ length (frames_out self.now came.now) }
    {
        match self.kind {
            NetProgram::Sink => 0,
            NetProgram::Source => self.script.len(),
            NetProgram::Echo => came.len(),
        }
    }

    /// Fills an entry with the frame of a place among those that it sends. Each frame has at most
    /// 65,535 bytes.
    pub fn fill(&self, came: &FrameLog, at: usize, entry: (Item, Body)) -> (Item, Body)
        requires there { at < length (frames_out self.now came.now) }
        requires script { All (λ frame. length frame < 2 ^ 16) self.now.script }
        requires came { All (λ frame. length frame < 2 ^ 16) came.now }
        ensures { (frame : List ℕ) → slice_get (frames_out self.now came.now) at ≡ Some frame
            → result ≡ filled frame entry }
    {
        match self.kind {
            NetProgram::Sink => entry,
            NetProgram::Source => fill(entry, self.script.get(at)),
            NetProgram::Echo => fill_answer(entry, came.get(at), self.mac),
        }
    }
}
