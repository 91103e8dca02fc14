//! Which clients have a lease: a mark for each client, by its place.
ghost use Rattle.std.specs.Prelude.{◌≡◌, ◌<◌, ◌≤◌, ◌^◌, false, true, nat_lt, IfOk, length, map};
ghost use Rattle.std.specs.Prelude.{replicate, slice_index_or, slice_set};
ghost use Rattle.frame_core.specs.declared.mac.Mac.{Mac};
ghost use Rattle.class_expect.specs.NetExpect.Expecting.{is_for_client};
ghost use Rattle.net_virt_rx.specs.Sharing.{how_many};

use cargo_core::Memory;
use class_expect::net_expect::is_for_client;
use frame_core::Mac;
use std::alloc::Global;
use std::marker::Model;

/// A mark for each client: whether it has a lease, or is owed one.
#[derive(Debug, Drop)]
pub struct Receivers {
    marks: Vec<bool>,
}

impl Model for Receivers {
    ghost use Rattle.std.specs.Prelude.{Bool, List};

    ghost Value = { List Bool };

    ghost view = { λ r. r.marks.items };
}

// Marks the clients that a frame is for.
fn mark(marks: &mut [bool], macs: &[Mac], frame: &[u8])
    requires { length macs.now ≡ length marks.old }
    ensures { marks.new ≡ map (λ (mac : Mac). is_for_client mac frame.now) macs.now }
{
    for k in 0..macs.len() {
        marks[k] = is_for_client(frame, macs[k]);
    }
}

// How many marks are set.
fn count(marks: &[bool]) -> u32
    requires { length marks.now < 2 ^ 32 }
    ensures { result ≡ how_many marks.now }
{
    let mut count = 0;
    for mark in marks {
        if *mark {
            count += 1;
        }
    }
    count
}

// Whether some mark is set.
fn any(marks: &[bool]) -> bool
    ensures { result ≡ nat_lt 0 (how_many marks.now) }
{
    let mut some = false;
    for mark in marks {
        if *mark {
            some = true;
        }
    }
    some
}

impl Receivers {
    /// None of so many clients.
    pub fn new(alloc: Global, clients: usize) -> Result<Receivers, Memory>
        ensures { IfOk result (λ r. r ≡ replicate clients false) }
    {
        let marks = vec![in alloc; false; clients]?;
        Ok(Receivers { marks })
    }

    /// The marks.
    pub fn as_slice(&self) -> &[bool]
        ensures { result.now ≡ self.now }
    {
        &self.marks
    }

    /// Whether the client at a place is one.
    pub fn has(&self, client: usize) -> bool
        ensures { result ≡ slice_index_or self.now client false }
    {
        match self.marks.get(client) {
            Some(mark) => *mark,
            None => false,
        }
    }

    /// Whether there is one.
    pub fn any(&self) -> bool
        ensures { result ≡ nat_lt 0 (how_many self.now) }
    {
        any(&self.marks)
    }

    /// How many there are.
    pub fn count(&self) -> u32
        requires { length self.now < 2 ^ 32 }
        ensures { result ≡ how_many self.now }
    {
        count(&self.marks)
    }

    /// The client at a place is none any more.
    pub fn remove(&mut self, client: usize)
        requires { client < length self.old }
        ensures { self.new ≡ slice_set self.old client false }
    {
        self.marks[client] = false;
    }

    /// They are now the clients that a frame is for.
    pub fn address(&mut self, macs: &[Mac], frame: &[u8])
        requires { length macs.now ≡ length self.old }
        ensures { self.new ≡ map (λ (mac : Mac). is_for_client mac frame.now) macs.now }
    {
        mark(&mut self.marks, macs, frame);
    }

    /// They are now the same as these.
    pub fn copy_from(&mut self, from: &[bool])
        requires { length from.now ≡ length self.old }
        ensures { self.new ≡ from.now }
    {
        self.marks.copy_from_slice(from);
    }
}
