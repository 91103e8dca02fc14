//! What a switch holds of all its ports.
ghost use Rattle.std.specs.Prelude.{◌≡◌, ◌<◌, ◌^◌, [], ◌∷◌, ℕ, IfOk, Some, None, true};
ghost use Rattle.std.specs.Prelude.{◌+◌, if◌then◌else◌, length, slice_get};
ghost use Rattle.cargo_core.specs.Items.{kind_of};
ghost use Rattle.cargo_core.specs.declared.item.QueueKind.TheVariants as Kind;
ghost use Rattle.frame_core.specs.declared.mac.Mac.{Mac};
ghost use Rattle.wire_core.specs.Deeds.{Cargo};
ghost use Rattle.buffer_kit.specs.Clients.{capped};
ghost use Rattle.net_switch.specs.declared.switch_desk.slot.Slot.{Slot};
ghost use Rattle.net_switch.specs.SwitchDesk.Desks.{IsDesk, IsNewDesk, IsNewSlot, Moved};
ghost use Rattle.net_switch.specs.SwitchDesk.Desks.{is_taking, is_returning, is_wanting, is_loaded, owes};
ghost use Rattle.net_switch.specs.SwitchDesk.Desks.{first_owing, is_copied, WithSlot, DeskStands};
ghost use Rattle.net_switch.specs.SwitchDesk.Desks.{IsFilledFor};

use crate::switch_desk::order::Order;
use crate::switch_desk::slot::Slot;
use buffer_kit::{fill, frame};
use cargo_core::{Body, Item, Memory};
use frame_core::Mac;
use std::alloc::Global;
use turn_kit::Needs;

/// What a switch holds: the addresses of its ports, what is held of each, the order in which it
/// last took from them, and how many frames it lost, a count that stands still at its type's end.
#[derive(Drop)]
pub struct Desk {
    pub macs: Vec<Mac>,
    pub slots: Vec<Slot>,
    pub order: Order,
    pub lost: u64,
}

/// The ports from which the switch takes a frame.
#[derive(Clone, Copy)]
pub struct Taking<'a> {
    pub desk: &'a Desk,
}

impl<'a> Needs for Taking<'a> {
    ghost need = { λ n k. is_taking n.desk.now k };

    fn at(&self, place: usize) -> bool {
        self.desk.is_taking(place)
    }
}

/// The ports to which a buffer goes back.
#[derive(Clone, Copy)]
pub struct Returning<'a> {
    pub desk: &'a Desk,
}

impl<'a> Needs for Returning<'a> {
    ghost need = { λ n k. is_returning n.desk.now k };

    fn at(&self, place: usize) -> bool {
        self.desk.is_returning(place)
    }
}

/// The ports of which a buffer for a copy is wanted.
#[derive(Clone, Copy)]
pub struct Wanting<'a> {
    pub desk: &'a Desk,
}

impl<'a> Needs for Wanting<'a> {
    ghost need = { λ n k. is_wanting n.desk.now k };

    fn at(&self, place: usize) -> bool {
        self.desk.is_wanting(place)
    }
}

/// The ports to which a copy goes.
#[derive(Clone, Copy)]
pub struct Loaded<'a> {
    pub desk: &'a Desk,
}

impl<'a> Needs for Loaded<'a> {
    ghost need = { λ n k. is_loaded n.desk.now k };

    fn at(&self, place: usize) -> bool {
        self.desk.is_loaded(place)
    }
}

// A count with one more where that is so.
fn counted(count: u64, more: bool) -> u64
    ensures { result ≡ (if more then capped (count + 1) else count) }
{
    if more { count.saturating_add(1) } else { count }
}

// Of so many ports nothing is held.
fn empty_slots(alloc: Global, ports: usize) -> Result<Vec<Slot>, Memory>
    ensures many { IfOk result (λ v. length v.items ≡ ports) }
    ensures each { IfOk result (λ v. (k : ℕ) (s : Slot) → slice_get v.items k ≡ Some s
        → IsNewSlot ports s) }
{
    let mut slots = Vec::with_capacity(alloc, ports)?;
    for _ in 0..ports {
        slots.push(Slot::new(alloc, ports)?)?;
    }
    Ok(slots)
}

impl Desk {
    /// A desk of these ports that took nothing yet.
    pub fn new(alloc: Global, macs: Vec<Mac>) -> Result<Desk, Memory>
        requires { length macs.items < 2 ^ 32 }
        ensures new { IfOk result (IsNewDesk macs.items) }
        ensures desk { IfOk result (λ d. IsDesk d) }
        ensures stands { IfOk result (λ d. DeskStands d [] (λ _. []) (λ _. []) (λ _. [])) }
    {
        let ports = macs.len();
        let slots = empty_slots(alloc, ports)?;
        let order = Order::new(alloc, ports)?;
        Ok(Desk {
            macs,
            slots,
            order,
            lost: 0,
        })
    }

    /// Whether the switch takes from the port at a place.
    pub fn is_taking(&self, port: usize) -> bool
        ensures { result ≡ is_taking self.now port }
    {
        match self.slots.get(port) {
            Some(slot) => slot.is_free(),
            None => false,
        }
    }

    /// Whether the port's buffer is to go back to it.
    pub fn is_returning(&self, port: usize) -> bool
        ensures { result ≡ is_returning self.now port }
    {
        match self.slots.get(port) {
            Some(slot) => slot.is_copied(),
            None => false,
        }
    }

    /// Whether a copy is to be put to the port at a place.
    pub fn is_loaded(&self, port: usize) -> bool
        ensures { result ≡ is_loaded self.now port }
    {
        match self.slots.get(port) {
            Some(slot) => slot.has_copy(),
            None => false,
        }
    }

    // Whether a copy of the frame of one port is owed to another.
    fn owes(&self, sender: usize, port: usize) -> bool
        ensures { result ≡ owes self.now sender port }
    {
        match self.slots.get(sender) {
            Some(slot) => slot.owed.has(port),
            None => false,
        }
    }

    // The port whose frame was taken first, of those that are owed to the port at a place.
    fn first_owing(&self, port: usize) -> Option<usize>
        ensures { result ≡ first_owing self.now port }
    {
        let senders = self.order.as_slice();
        for sender in senders {
            if self.owes(*sender, port) {
                return Some(*sender);
            }
        }
        None
    }

    /// Whether a copy is owed to the port at a place, and no buffer for one is in hand.
    pub fn is_wanting(&self, port: usize) -> bool
        ensures { result ≡ is_wanting self.now port }
    {
        match self.slots.get(port) {
            Some(slot) => !slot.has_copy() && self.first_owing(port).is_some(),
            None => false,
        }
    }

    /// A frame came from the port at a place, of which none is held. It is owed to each port that
    /// it goes to; where there is none, it is lost.
    pub fn receive(&mut self, port: usize, entry: (Item, Body))
        requires desk { IsDesk self.old }
        requires taking { is_taking self.old port ≡ true }
        requires kind { kind_of entry.0 ≡ Kind.Net }
        ensures { Moved self.old self.new port ((port, entry) ∷ []) [] [] [] }
    {
        let slot = &mut self.slots[port];
        slot.hold(&self.macs, port, entry);
        self.lost = counted(self.lost, !slot.is_owing());
        self.order.turn(port);
    }

    // A buffer, filled with the first frame that is owed to the port at a place.
    fn filled(&self, port: usize, entry: (Item, Body)) -> (Item, Body)
        requires desk { IsDesk self.now }
        requires wanting { is_wanting self.now port ≡ true }
        ensures { IsFilledFor self.now port entry result }
    {
        match self.first_owing(port) {
            Some(sender) => match &self.slots[sender].frame {
                Some(held) => fill(entry, frame(held)),
                None => unreachable!(),
            },
            None => unreachable!(),
        }
    }

    /// A buffer came from the port at a place, to which a copy is owed: it is filled with the first
    /// frame that is owed there.
    pub fn copy(&mut self, port: usize, entry: (Item, Body))
        requires desk { IsDesk self.old }
        requires wanting { is_wanting self.old port ≡ true }
        requires kind { kind_of entry.0 ≡ Kind.Net }
        ensures { Moved self.old self.new port [] (entry ∷ []) [] [] }
    {
        let filled = self.filled(port, entry);
        let slot = &mut self.slots[port];
        slot.copy = Some(filled);
    }

    /// The copy that was in hand for the port at a place was put: it is owed no more.
    pub fn settle(&mut self, port: usize)
        requires { (d : Desk) × (s : Slot) × IsDesk d × (slice_get d.slots.items port ≡ Some s)
            × WithSlot d self.old port (record s { copy = None }) }
        ensures { (d : Desk) (s : Slot) (x : Cargo) → IsDesk d
            → slice_get d.slots.items port ≡ Some s → s.copy ≡ Some x
            → WithSlot d self.old port (record s { copy = None })
            → Moved d self.new port [] [] (x ∷ []) [] }
    {
        if let Some(sender) = self.first_owing(port) {
            let slot = &mut self.slots[sender];
            slot.settle(port);
        }
    }
}

/// Where the buffer of a port went back to it, nothing else is to be done.
pub fn back_law()
    ensures { (old new : Desk) (port : ℕ) (s : Slot) (x : Cargo) → IsDesk old
        → slice_get old.slots.items port ≡ Some s → is_copied s ≡ true → s.frame ≡ Some x
        → WithSlot old new port (record s { frame = None })
        → Moved old new port [] [] [] (x ∷ []) }
{}
