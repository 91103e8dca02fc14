//! What the sending virtualiser keeps of one client.
ghost use Rattle.std.specs.Prelude.{◌≡◌, ◌+◌, ◌*◌, ◌/◌, ◌<◌, ◌≤◌, ◌^◌, ◌++◌, ◌∷◌, ◌&&◌, ◌==◌, []};
ghost use Rattle.std.specs.Prelude.{ℕ, None, Some, true, false, IfOk, is_some, min, length};
ghost use Rattle.std.specs.Prelude.{slice_get, slice_set};
ghost use Rattle.std.specs.Option.{option_to_list};
ghost use Rattle.cargo_core.specs.declared.item.PoolId.{PoolId};
ghost use Rattle.cargo_core.specs.declared.item.QueueKind.TheVariants as Kind;
ghost use Rattle.cargo_core.specs.Items.{kind_of};
ghost use Rattle.wire_core.specs.Deeds.{Cargo, deed_of, put_of};
ghost use Rattle.wire_core.specs.Lists.{taken_by, put_by, if_there};
ghost use Rattle.wire_core.specs.Ends.{role_of};
ghost use Rattle.wire_core.specs.Marks.{is_mark};
ghost use Rattle.turn_kit.specs.Turns.{PostedAt};
ghost use Rattle.buffer_kit.specs.Entries.{addr_of};
ghost use Rattle.buffer_kit.specs.Virtualising.{FitsVirt, VirtOwns, SameVirt, from_queues};
ghost use Rattle.buffer_kit.specs.Virtualising.{to_queues, virt_posts};
ghost use Rattle.net_virt_tx.specs.Descriptors.{to_device, to_client};
ghost use Rattle.net_virt_tx.specs.Queued.{returns_list};
ghost use Rattle.net_virt_tx.specs.Serving.{is_good_of};
ghost use Rattle.net_virt_tx.specs.Clients.{IsClient, IsFresh, Moved, is_idle};
ghost use Rattle.net_virt_tx.specs.Clients.{is_loaded, load_of, comes_in_turn, is_away, buffer_at};
ghost use Rattle.net_virt_tx.specs.Clients.{number_of, is_marked, capped, carried, client_cargo};

use crate::{Marks, Returns, Sender, to_client, to_device};
use buffer_kit::{NetCargo, Served, VirtEnds, address};
use cargo_core::{Body, Item, Memory, PoolId};
use std::alloc::Global;
use turn_kit::count_held;
use wire_core::{Event, Wires};

/// What is kept of a client. `leaving` is a good descriptor on its way to the driver, at the buffer
/// of `number`; `bad` is a bad one on its way back, and `bad_many` counts those that came;
/// `returns` came back from the driver. `inside` marks the buffers that came and didn't go back,
/// and `away` those of them that are at the driver.
#[derive(Drop)]
pub struct Client {
    pub sender: Sender,
    pub leaving: Option<(Item, Body)>,
    pub number: u32,
    pub bad: Option<(Item, Body)>,
    pub bad_many: u64,
    pub returns: Returns,
    pub inside: Marks,
    pub away: Marks,
}

// The number of the buffer of a body.
fn page_number(body: &Body) -> u32
    ensures { result ≡ number_of body.now }
{
    match body {
        Body::Page(page) => page.no(),
        Body::Lease(lease) => lease.no(),
        Body::Empty => 0,
    }
}

// The number of the buffer of an entry that goes to the client, where one has so many bytes; 0
// where there is none.
fn returned_number(entry: &Option<(Item, Body)>, size: u32) -> usize
    requires { 1 ≤ size }
    ensures { (x : Cargo) → entry.now ≡ Some x → result ≡ addr_of x.0 / size }
{
    match entry {
        Some(entry) => (address(&entry.0) / size as u64) as usize,
        None => 0,
    }
}

impl Served for Client {
    ghost leaving = { λ c. c.leaving };

    ghost bad_many = { λ c. c.bad_many };

    fn is_leaving(&self) -> bool {
        self.leaving.is_some()
    }

    fn bad(&self) -> u64 {
        self.bad_many
    }
}

impl Client {
    /// A client of which nothing came yet, with the memory for all its buffers.
    pub fn new(alloc: Global, sender: Sender) -> Result<Client, Memory>
        requires sized { 1 ≤ sender.size }
        requires room { sender.base + sender.buffers * sender.size ≤ 2 ^ 62 }
        ensures sender { IfOk result (λ c. c.sender ≡ sender) }
        ensures fresh { IfOk result (λ c. IsFresh c) }
    {
        let buffers = sender.buffers as usize;
        let returns = Returns::new(alloc, buffers)?;
        let inside = Marks::new(alloc, buffers)?;
        let away = Marks::new(alloc, buffers)?;
        Ok(Client {
            sender,
            leaving: None,
            number: 0,
            bad: None,
            bad_many: 0,
            returns,
            inside,
            away,
        })
    }

    /// Whether nothing that came from it is still to be put.
    pub fn is_idle(&self) -> bool
        ensures { result ≡ is_idle self.now }
    {
        self.leaving.is_none() && self.bad.is_none()
    }

    /// Whether an entry is to go to it.
    pub fn is_loaded(&self) -> bool
        ensures { result ≡ is_loaded self.now }
    {
        self.bad.is_some() || self.returns.next.is_some()
    }

    /// How many buffers of a pool it has here.
    pub fn held(&self, pool: PoolId) -> u32
        requires work { IsClient self.now }
        requires few { self.now.sender.buffers + 2 < 2 ^ 32 }
        ensures held { result ≡ carried pool (client_cargo self.now) }
        ensures few { result ≤ self.now.sender.buffers + 1 }
    {
        count_held(pool, &self.leaving) + count_held(pool, &self.bad) + self.returns.held(pool)
    }

    /// Whether a descriptor that came is bad, or at a buffer that isn't inside.
    pub fn comes_in_turn(&self, entry: &(Item, Body)) -> bool
        ensures { result ≡ comes_in_turn self.now entry.now }
    {
        !self.sender.is_good(entry) || !self.inside.has(page_number(&entry.1) as usize)
    }

    /// Whether its buffer that begins at a device address is at the driver.
    pub fn is_away(&self, address: u64) -> bool
        requires sized { 1 ≤ self.now.sender.size }
        requires room { self.now.sender.base + self.now.sender.buffers * self.now.sender.size
            ≤ 2 ^ 62 }
        ensures { result ≡ is_away self.now address }
    {
        if address < self.sender.base {
            return false;
        }
        let size = self.sender.size as u64;
        let number = (address - self.sender.base) / size;
        self.sender.base + number * size == address && self.away.has(number as usize)
    }

    // A good descriptor is on its way to the driver.
    fn accept(&mut self, entry: (Item, Body))
        requires work { IsClient self.old }
        requires good { is_good_of self.old.sender entry ≡ true }
        ensures { self.new ≡ record self.old {
          leaving = Some (to_device self.old.sender.base entry);
          number = number_of entry.1;
          inside = slice_set self.old.inside (number_of entry.1) true;
        } }
    {
        let number = page_number(&entry.1);
        self.number = number;
        self.inside.set(number as usize, true);
        self.leaving = Some(to_device(entry, self.sender.base));
    }

    /// A descriptor came in turn. A bad one is counted.
    pub fn receive(&mut self, entry: (Item, Body))
        requires work { IsClient self.old }
        requires idle { is_idle self.old ≡ true }
        requires kind { kind_of entry.0 ≡ Kind.Net }
        requires turn { comes_in_turn self.old entry ≡ true }
        ensures { Moved self.old self.new (entry ∷ []) [] [] [] }
    {
        if self.sender.is_good(&entry) {
            self.accept(entry);
        } else {
            self.bad = Some(entry);
            self.bad_many = self.bad_many.saturating_add(1);
        }
    }

    /// A buffer that was away came back from the driver.
    pub fn take_back(&mut self, entry: (Item, Body))
        requires work { IsClient self.old }
        requires kind { kind_of entry.0 ≡ Kind.Net }
        requires away { is_away self.old (addr_of entry.0) ≡ true }
        ensures { Moved self.old self.new [] [] (entry ∷ []) [] }
    {
        let base = self.sender.base;
        let number = (address(&entry.0) - base) / self.sender.size as u64;
        self.away.set(number as usize, false);
        self.returns.push(to_client(entry, base));
    }

    /// The next call to the driver, for the entry that leaves.
    pub fn send<W: Wires>(&mut self, ends: &mut VirtEnds, wires: &mut W) -> Event
        requires fits { FitsVirt (W.ends wires.old) ends.old }
        requires work { IsClient self.old }
        requires some { is_some self.old.leaving ≡ true }
        ensures fits { FitsVirt (W.ends wires.new) ends.new }
        ensures own { VirtOwns ends.old (role_of result.op) result.queue.0 }
        ensures same { SameVirt ends.old ends.new }
        ensures did { W.did wires.old (deed_of result (put_of result self.old.leaving)) wires.new }
        ensures takes { (n : ℕ) → taken_by (deed_of result (put_of result self.old.leaving)) n
            ≡ [] }
        ensures puts { (n : ℕ) → put_by (deed_of result (put_of result self.old.leaving)) n
            ≡ if_there (ends.old.output.queue.0 == n)
            (option_to_list (put_of result self.old.leaving)) }
        ensures posted { PostedAt (virt_posts ends.old) 1 true result (virt_posts ends.new) }
        ensures still { is_mark result.op result.answer ≡ false → self.new ≡ self.old }
        ensures turn { ends.new.turn ≡ ends.old.turn }
        ensures moved { Moved self.old self.new []
            (option_to_list (put_of result self.old.leaving)) [] [] }
    {
        let event = ends.step_output::<NetCargo, _>(wires, &mut self.leaving);
        if self.leaving.is_none() {
            self.away.set(self.number as usize, true);
        }
        event
    }

    // The next call to the client, for its bad descriptor.
    fn give_bad<W: Wires>(&mut self, ends: &mut VirtEnds, wires: &mut W, place: usize) -> Event
        requires fits { FitsVirt (W.ends wires.old) ends.old }
        requires work { IsClient self.old }
        requires there { place < length (to_queues ends.old) }
        requires some { is_some self.old.bad ≡ true }
        ensures fits { FitsVirt (W.ends wires.new) ends.new }
        ensures own { VirtOwns ends.old (role_of result.op) result.queue.0 }
        ensures same { SameVirt ends.old ends.new }
        ensures did { W.did wires.old (deed_of result (put_of result self.old.bad)) wires.new }
        ensures on { slice_get (to_queues ends.old) place ≡ Some result.queue }
        ensures takes { (n : ℕ) → taken_by (deed_of result (put_of result self.old.bad)) n ≡ [] }
        ensures puts { (n : ℕ) → put_by (deed_of result (put_of result self.old.bad)) n
            ≡ if_there (result.queue.0 == n) (option_to_list (put_of result self.old.bad)) }
        ensures posted { PostedAt (virt_posts ends.old)
            (2 + length (from_queues ends.old) + place) true result (virt_posts ends.new) }
        ensures still { is_mark result.op result.answer ≡ false → self.new ≡ self.old }
        ensures turn { ends.new.turn ≡ ends.old.turn }
        ensures moved { Moved self.old self.new [] [] []
            (option_to_list (put_of result self.old.bad)) }
    {
        ends.step_to_client::<NetCargo, _>(wires, place, &mut self.bad)
    }

    // The next call to the client, for the first buffer that came back.
    fn give_returned<W: Wires>(&mut self, ends: &mut VirtEnds, wires: &mut W, place: usize) -> Event
        requires fits { FitsVirt (W.ends wires.old) ends.old }
        requires work { IsClient self.old }
        requires there { place < length (to_queues ends.old) }
        requires some { is_some self.old.returns.next ≡ true }
        ensures fits { FitsVirt (W.ends wires.new) ends.new }
        ensures own { VirtOwns ends.old (role_of result.op) result.queue.0 }
        ensures same { SameVirt ends.old ends.new }
        ensures did { W.did wires.old (deed_of result (put_of result self.old.returns.next))
            wires.new }
        ensures on { slice_get (to_queues ends.old) place ≡ Some result.queue }
        ensures takes { (n : ℕ)
            → taken_by (deed_of result (put_of result self.old.returns.next)) n ≡ [] }
        ensures puts { (n : ℕ) → put_by (deed_of result (put_of result self.old.returns.next)) n
            ≡ if_there (result.queue.0 == n)
            (option_to_list (put_of result self.old.returns.next)) }
        ensures posted { PostedAt (virt_posts ends.old)
            (2 + length (from_queues ends.old) + place) true result (virt_posts ends.new) }
        ensures still { is_mark result.op result.answer ≡ false → self.new ≡ self.old }
        ensures turn { ends.new.turn ≡ ends.old.turn }
        ensures moved { Moved self.old self.new [] [] []
            (option_to_list (put_of result self.old.returns.next)) }
    {
        let number = returned_number(&self.returns.next, self.sender.size);
        let event = ends.step_to_client::<NetCargo, _>(wires, place, &mut self.returns.next);
        if self.returns.next.is_none() {
            self.inside.set(number, false);
            self.returns.refill();
        }
        event
    }

    /// The next call to the client: its bad descriptor goes before the buffers that came back.
    pub fn give<W: Wires>(&mut self, ends: &mut VirtEnds, wires: &mut W, place: usize) -> Event
        requires fits { FitsVirt (W.ends wires.old) ends.old }
        requires work { IsClient self.old }
        requires there { place < length (to_queues ends.old) }
        requires some { is_loaded self.old ≡ true }
        ensures fits { FitsVirt (W.ends wires.new) ends.new }
        ensures own { VirtOwns ends.old (role_of result.op) result.queue.0 }
        ensures same { SameVirt ends.old ends.new }
        ensures did { W.did wires.old (deed_of result (put_of result (load_of self.old)))
            wires.new }
        ensures on { slice_get (to_queues ends.old) place ≡ Some result.queue }
        ensures takes { (n : ℕ) → taken_by (deed_of result (put_of result (load_of self.old))) n
            ≡ [] }
        ensures puts { (n : ℕ) → put_by (deed_of result (put_of result (load_of self.old))) n
            ≡ if_there (result.queue.0 == n) (option_to_list (put_of result (load_of self.old))) }
        ensures posted { PostedAt (virt_posts ends.old)
            (2 + length (from_queues ends.old) + place) true result (virt_posts ends.new) }
        ensures still { is_mark result.op result.answer ≡ false → self.new ≡ self.old }
        ensures turn { ends.new.turn ≡ ends.old.turn }
        ensures moved { Moved self.old self.new [] [] []
            (option_to_list (put_of result (load_of self.old))) }
    {
        if self.bad.is_some() {
            self.give_bad(ends, wires, place)
        } else {
            self.give_returned(ends, wires, place)
        }
    }
}
