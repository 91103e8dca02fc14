//! What the block virtualiser has in its hand.
ghost use Rattle.std.specs.Prelude.{◌≡◌, ◌+◌, ◌-◌, ◌<◌, ◌^◌, ◌++◌, ◌∷◌, ◌==◌, ◌&&◌, [], ℕ, List};
ghost use Rattle.std.specs.Prelude.{None, Some, true, false, is_some, length, slice_get};
ghost use Rattle.std.specs.Option.{option_to_list};
ghost use Rattle.cargo_core.specs.Pages.{Paged};
ghost use Rattle.wire_core.specs.Deeds.{Cargo, deed_of, put_of};
ghost use Rattle.wire_core.specs.Lists.{taken_by, put_by, if_there};
ghost use Rattle.wire_core.specs.Ends.{role_of};
ghost use Rattle.wire_core.specs.Marks.{is_mark};
ghost use Rattle.turn_kit.specs.Turns.{PostedAt};
ghost use Rattle.buffer_kit.specs.Conserving.{Count, weight, weighed};
ghost use Rattle.buffer_kit.specs.Virtualising.{VirtOwns, SameVirt, from_queues, to_queues};
ghost use Rattle.buffer_kit.specs.Virtualising.{virt_posts};
ghost use Rattle.blk_virt.specs.Ends.{FitsEnds};
ghost use Rattle.blk_virt.specs.declared.client.Client.{Client};
ghost use Rattle.blk_virt.specs.Clients.{carried};
ghost use Rattle.blk_virt.specs.Desks.{is_due, held_at, leaving_at, leaving_with, with_more};
ghost use Rattle.blk_virt.specs.Openings.{is_open, is_reading};
ghost use Rattle.blk_virt.specs.Works.{IsWork, SameWork, WorkStands, WorkIsStill, Sent, Gave};
ghost use Rattle.blk_virt.specs.Works.{Received, wants_at, gives_at, is_owing, work_cargo};

use crate::{Desk, Opening};
use buffer_kit::{BlkCargo, VirtEnds};
use cargo_core::{Body, Item, PoolId};
use turn_kit::{Needs, count_held};
use wire_core::{Event, Wires};

/// What is kept of the first read and of the clients. `number` is that of the next request to the
/// driver. After a response came out of turn, which is `stray`, nothing more is taken or put.
#[derive(Drop)]
pub struct Work {
    pub opening: Opening,
    pub desk: Desk,
    pub number: u32,
    pub stray: Option<(Item, Body)>,
}

/// The clients whose next request is needed.
#[derive(Clone, Copy)]
pub struct Wanting<'a> {
    pub work: &'a Work,
}

impl<'a> Needs for Wanting<'a> {
    ghost need = { λ n k. wants_at n.work.now k };

    fn at(&self, place: usize) -> bool {
        self.work.wants(place)
    }
}

/// The clients to which an answer is to go.
#[derive(Clone, Copy)]
pub struct Giving<'a> {
    pub work: &'a Work,
}

impl<'a> Needs for Giving<'a> {
    ghost need = { λ n k. gives_at n.work.now k };

    fn at(&self, place: usize) -> bool {
        self.work.gives(place)
    }
}

impl Work {
    /// How many buffers of a pool are in its hand.
    pub fn held(&self, pool: PoolId) -> u32
        requires { length self.now.desk.clients.items < 2 ^ 31 - 2 }
        ensures { result ≡ carried pool (work_cargo self.now) }
    {
        self.opening.held(pool) + self.desk.held(pool) + count_held(pool, &self.stray)
    }

    /// Whether the next request of the client at a place is needed.
    pub fn wants(&self, place: usize) -> bool
        ensures { result ≡ wants_at self.now place }
    {
        self.stray.is_none() && self.opening.is_open() && self.desk.needs(place)
    }

    /// Whether an answer is to go to the client at a place.
    pub fn gives(&self, place: usize) -> bool
        ensures { result ≡ gives_at self.now place }
    {
        self.stray.is_none() && self.desk.is_loaded(place)
    }

    /// Whether a request is to go to the driver.
    pub fn is_owing(&self) -> bool
        ensures { result ≡ is_owing self.now }
    {
        self.stray.is_none()
            && (self.opening.is_reading()
                || (self.opening.is_open() && self.desk.leaver().is_some()))
    }

    // Whether a response is to the request of a client.
    fn is_due(&self, entry: &(Item, Body)) -> bool
        ensures { result ≡ (is_open self.now.opening && is_due self.now.desk entry.now) }
    {
        self.opening.is_open() && self.desk.is_due(entry)
    }

    /// A response came. One out of turn strays.
    pub fn receive(&mut self, entry: (Item, Body))
        requires work { IsWork self.old }
        requires free { self.old.stray ≡ None }
        ensures work { IsWork self.new }
        ensures same { SameWork self.old self.new }
        ensures stands { (start : Paged) (back sent : List Cargo) (came gave : ℕ → List Cargo)
            → WorkStands self.old start back came sent gave
            → Received self.old self.new entry start back came sent gave }
        ensures held { (f : Count) → weighed f (work_cargo self.new)
            ≡ weighed f (work_cargo self.old) + weight f entry.1 }
    {
        if self.opening.is_first(&entry) {
            self.opening.open(entry);
        } else if self.is_due(&entry) {
            self.desk.take_back(entry);
        } else {
            self.stray = Some(entry);
        }
    }

    /// A request of the client at a place came.
    pub fn request(&mut self, place: usize, entry: (Item, Body))
        requires work { IsWork self.old }
        requires needed { wants_at self.old place ≡ true }
        ensures work { IsWork self.new }
        ensures same { SameWork self.old self.new }
        ensures stray { self.new.stray ≡ self.old.stray }
        ensures stands { (start : Paged) (back sent : List Cargo) (came gave : ℕ → List Cargo)
            → WorkStands self.old start back came sent gave
            → WorkStands self.new start back (with_more came place (entry ∷ [])) sent gave }
        ensures held { (f : Count) → weighed f (work_cargo self.new)
            ≡ weighed f (work_cargo self.old) + weight f entry.1 }
    {
        let partition = self.desk.clients[place].holder.partition;
        let part = self.opening.part(partition);
        self.desk.receive(place, part, entry);
    }

    /// The next call to the driver, for the read of the first block.
    pub fn send_first<W: Wires>(&mut self, ends: &mut VirtEnds, wires: &mut W) -> Event
        requires fits { FitsEnds (W.ends wires.old) ends.old }
        requires work { IsWork self.old }
        requires some { is_reading self.old.opening ≡ true }
        ensures fits { FitsEnds (W.ends wires.new) ends.new }
        ensures own { VirtOwns ends.old (role_of result.op) result.queue.0 }
        ensures same { SameVirt ends.old ends.new }
        ensures did { W.did wires.old (deed_of result (put_of result self.old.opening.first))
            wires.new }
        ensures takes { (n : ℕ) → taken_by (deed_of result (put_of result self.old.opening.first)) n
            ≡ [] }
        ensures puts { (n : ℕ) → put_by (deed_of result (put_of result self.old.opening.first)) n
            ≡ if_there (ends.old.output.queue.0 == n)
            (option_to_list (put_of result self.old.opening.first)) }
        ensures posted { PostedAt (virt_posts ends.old) 1 true result (virt_posts ends.new) }
        ensures turn { ends.new.turn ≡ ends.old.turn }
        ensures still { is_mark result.op result.answer ≡ false → self.new ≡ self.old }
        ensures work { IsWork self.new }
        ensures kept { SameWork self.old self.new }
        ensures stray { self.new.stray ≡ self.old.stray }
        ensures sent { Sent self.old self.new (option_to_list
            (put_of result self.old.opening.first)) }
    {
        let event = ends.step_output::<BlkCargo, _>(wires, &mut self.opening.first);
        if self.opening.first.is_none() {
            self.number = 1;
        }
        event
    }

    /// The next call to the driver, for the request of the client at a place.
    pub fn send_request<W: Wires>(
        &mut self,
        ends: &mut VirtEnds,
        wires: &mut W,
        place: usize,
    ) -> Event
        requires fits { FitsEnds (W.ends wires.old) ends.old }
        requires work { IsWork self.old }
        requires open { is_open self.old.opening ≡ true }
        requires some { is_some (leaving_at self.old.desk place) ≡ true }
        ensures fits { FitsEnds (W.ends wires.new) ends.new }
        ensures own { VirtOwns ends.old (role_of result.op) result.queue.0 }
        ensures same { SameVirt ends.old ends.new }
        ensures did { W.did wires.old (deed_of result (put_of result
            (leaving_with self.old.number self.old.desk place))) wires.new }
        ensures takes { (n : ℕ) → taken_by (deed_of result (put_of result
            (leaving_with self.old.number self.old.desk place))) n ≡ [] }
        ensures puts { (n : ℕ) → put_by (deed_of result (put_of result
            (leaving_with self.old.number self.old.desk place))) n
            ≡ if_there (ends.old.output.queue.0 == n) (option_to_list (put_of result
            (leaving_with self.old.number self.old.desk place))) }
        ensures posted { PostedAt (virt_posts ends.old) 1 true result (virt_posts ends.new) }
        ensures turn { ends.new.turn ≡ ends.old.turn }
        ensures still { is_mark result.op result.answer ≡ false → WorkIsStill self.old self.new }
        ensures work { IsWork self.new }
        ensures kept { SameWork self.old self.new }
        ensures stray { self.new.stray ≡ self.old.stray }
        ensures sent { Sent self.old self.new (option_to_list (put_of result
            (leaving_with self.old.number self.old.desk place))) }
    {
        let number = self.number;
        let event = self.desk.send(ends, wires, place, number);
        if event.item.is_some() {
            self.number = number.wrapping_add(1);
        }
        event
    }

    /// The next call to the client at a place, for the answer that is held.
    pub fn give<W: Wires>(&mut self, ends: &mut VirtEnds, wires: &mut W, place: usize) -> Event
        requires fits { FitsEnds (W.ends wires.old) ends.old }
        requires work { IsWork self.old }
        requires there { place < length (to_queues ends.old) }
        requires some { gives_at self.old place ≡ true }
        ensures fits { FitsEnds (W.ends wires.new) ends.new }
        ensures own { VirtOwns ends.old (role_of result.op) result.queue.0 }
        ensures same { SameVirt ends.old ends.new }
        ensures did { W.did wires.old (deed_of result (put_of result (held_at self.old.desk place)))
            wires.new }
        ensures on { slice_get (to_queues ends.old) place ≡ Some result.queue }
        ensures takes { (n : ℕ)
            → taken_by (deed_of result (put_of result (held_at self.old.desk place))) n ≡ [] }
        ensures puts { (n : ℕ)
            → put_by (deed_of result (put_of result (held_at self.old.desk place))) n
            ≡ if_there (result.queue.0 == n)
            (option_to_list (put_of result (held_at self.old.desk place))) }
        ensures posted { PostedAt (virt_posts ends.old)
            (2 + length (from_queues ends.old) + place) true result (virt_posts ends.new) }
        ensures turn { ends.new.turn ≡ ends.old.turn }
        ensures still { is_mark result.op result.answer ≡ false → WorkIsStill self.old self.new }
        ensures work { IsWork self.new }
        ensures kept { SameWork self.old self.new }
        ensures stray { self.new.stray ≡ self.old.stray }
        ensures gave { Gave self.old self.new place (option_to_list (put_of result
            (held_at self.old.desk place))) }
    {
        self.desk.give(ends, wires, place)
    }
}
