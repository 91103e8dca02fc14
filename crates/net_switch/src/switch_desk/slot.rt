//! What a switch holds of one port.
ghost use Rattle.std.specs.Prelude.{◌≡◌, ◌<◌, length, IfOk, Some, slice_set, false};
ghost use Rattle.frame_core.specs.declared.mac.Mac.{Mac};
ghost use Rattle.net_switch.specs.SwitchDesk.Frames.{receivers_of};
ghost use Rattle.net_switch.specs.SwitchDesk.Desks.{is_free, is_owing, is_copied, has_copy, IsNewSlot};

use buffer_kit::frame;
use cargo_core::{Body, Item, Memory};
use frame_core::Mac;
use net_virt_rx::Receivers;
use std::alloc::Global;

/// What is held of a port: `frame` came from there, and its buffer didn't go back; `owed` are the
/// ports to which a copy of it wasn't put yet; `copy` is a filled buffer that is to be put to the
/// port.
#[derive(Drop)]
pub struct Slot {
    pub frame: Option<(Item, Body)>,
    pub owed: Receivers,
    pub copy: Option<(Item, Body)>,
}

impl Slot {
    /// Nothing is held, where there are so many ports.
    pub fn new(alloc: Global, ports: usize) -> Result<Slot, Memory>
        ensures { IfOk result (λ s. IsNewSlot ports s) }
    {
        Ok(Slot {
            frame: None,
            owed: Receivers::new(alloc, ports)?,
            copy: None,
        })
    }

    /// Whether no frame of the port is held.
    pub fn is_free(&self) -> bool
        ensures { result ≡ is_free self.now }
    {
        self.frame.is_none()
    }

    /// Whether a copy of its frame is owed to some port.
    pub fn is_owing(&self) -> bool
        ensures { result ≡ is_owing self.now }
    {
        self.owed.any()
    }

    /// Whether a frame of the port is held, and each copy of it was put.
    pub fn is_copied(&self) -> bool
        ensures { result ≡ is_copied self.now }
    {
        self.frame.is_some() && !self.owed.any()
    }

    /// Whether a copy for the port is in hand.
    pub fn has_copy(&self) -> bool
        ensures { result ≡ has_copy self.now }
    {
        self.copy.is_some()
    }

    /// A frame came from the port, which is that at a place: it is owed to each port that it goes
    /// to.
    pub fn hold(&mut self, macs: &[Mac], port: usize, entry: (Item, Body))
        requires long { length self.old.owed ≡ length macs.now }
        requires there { port < length macs.now }
        ensures { self.new ≡ record self.old {
          frame = Some entry;
          owed = receivers_of macs.now (port, entry);
        } }
    {
        self.owed.address(macs, frame(&entry));
        self.owed.remove(port);
        self.frame = Some(entry);
    }

    /// A copy of its frame isn't owed to the port at a place any more.
    pub fn settle(&mut self, receiver: usize)
        requires { receiver < length self.old.owed }
        ensures { self.new ≡ record self.old { owed = slice_set self.old.owed receiver false } }
    {
        self.owed.remove(receiver);
    }
}
