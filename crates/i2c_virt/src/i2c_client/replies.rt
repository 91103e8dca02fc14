//! The replies that a client recorded.
ghost use Rattle.std.specs.Prelude.{◌≡◌, ◌<◌, ◌≤◌, ◌∷◌, ◌++◌, [], OnOk, OnErr, length};
ghost use Rattle.std.specs.Prelude.{vec_len, vec_capacity};
ghost use Rattle.i2c_virt.specs.I2cClient.Replies.{Replied};

use cargo_core::{Bytes, Memory};
use i2c_text::{BusReply, BusStatus};
use std::alloc::Global;
use std::marker::Model;
use std::mem;

/// The replies that were recorded. The memory of the next one can be taken beforehand, so that a
/// step which records can do first what may fail.
#[derive(Drop)]
pub struct Replies {
    alloc: Global,
    replies: Vec<BusReply>,
    /// No bytes, with the memory of the next reply's.
    blank: Vec<u8>,
}

impl Model for Replies {
    ghost use Rattle.std.specs.Prelude.{◌≡◌, ◌-◌, [], vec_len, vec_capacity};
    ghost use Rattle.i2c_virt.specs.I2cClient.Replies.{Replied};

    ghost Value = { Replied };

    ghost view = { λ r. record {
      shown = r.replies.items;
      places = vec_capacity r.replies - vec_len r.replies;
      bytes = vec_capacity r.blank;
    } };

    ghost invariant = { λ r. r.blank.items ≡ [] };
}

// Records a reply, whose memory was taken before.
fn record_reply(
    alloc: Global,
    replies: &mut Vec<BusReply>,
    blank: &mut Vec<u8>,
    status: BusStatus,
    from: &[u8],
)
    requires place { vec_len replies.old < vec_capacity replies.old }
    requires room { length from.now ≤ vec_capacity blank.old }
    requires empty { blank.old.items ≡ [] }
    ensures replies { replies.new.items
        ≡ replies.old.items ++ record { status = status; bytes = from.now } ∷ [] }
    ensures empty { blank.new.items ≡ [] }
{
    if from.is_empty() {
        let bytes = Bytes::new(alloc);
        replies.push_reserved(BusReply { status, bytes });
        return;
    }
    let mut bytes = mem::replace(blank, Vec::new(alloc));
    match bytes.extend_from_slice(from) {
        Ok(()) => replies.push_reserved(BusReply {
            status,
            bytes: Bytes::from_vec(bytes),
        }),
        Err(_) => unreachable!(),
    }
}

impl Replies {
    /// No reply. It takes no memory.
    pub fn new(alloc: Global) -> Replies
        ensures { result.shown ≡ [] }
    {
        Replies {
            alloc,
            replies: Vec::new(alloc),
            blank: Vec::new(alloc),
        }
    }

    /// The replies, in their order.
    pub fn as_slice(&self) -> &[BusReply]
        ensures { result.now ≡ self.now.shown }
    {
        &self.replies
    }

    /// How many replies there are.
    pub fn len(&self) -> usize
        ensures { result ≡ length self.now.shown }
    {
        self.replies.len()
    }

    /// Takes the memory of one more reply with so many bytes. After want of memory nothing changed.
    pub fn reserve(&mut self, len: usize) -> Result<(), Memory>
        ensures shown { self.new.shown ≡ self.old.shown }
        ensures place { OnOk result (0 < self.new.places) }
        ensures bytes { OnOk result (len ≤ self.new.bytes) }
        ensures err { OnErr result (self.new ≡ self.old) }
    {
        if self.blank.capacity() < len {
            let blank = Vec::with_capacity(self.alloc, len)?;
            self.replies.reserve(1)?;
            self.blank = blank;
        } else {
            self.replies.reserve(1)?;
        }
        Ok(())
    }

    /// Records a reply, whose memory was taken before.
    pub fn push(&mut self, status: BusStatus, from: &[u8])
        requires place { 0 < self.old.places }
        requires bytes { length from.now ≤ self.old.bytes }
        ensures { self.new.shown
            ≡ self.old.shown ++ record { status = status; bytes = from.now } ∷ [] }
    {
        record_reply(self.alloc, &mut self.replies, &mut self.blank, status, from);
    }
}
