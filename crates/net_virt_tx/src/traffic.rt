//! What the sending virtualiser keeps of all its clients.
ghost use Rattle.std.specs.Prelude.{◌≡◌, ◌+◌, ◌*◌, ◌<◌, ◌≤◌, ◌^◌, ◌++◌, ◌==◌, [], ℕ, List, Some};
ghost use Rattle.std.specs.Prelude.{None, true, false, All, IfOk, is_some, length, map, slice_get};
ghost use Rattle.std.specs.Option.{MatchOption, option_to_list};
ghost use Rattle.cargo_core.specs.declared.item.QueueKind.TheVariants as Kind;
ghost use Rattle.cargo_core.specs.declared.item.PoolId.{PoolId};
ghost use Rattle.cargo_core.specs.Bodies.{buffers_of};
ghost use Rattle.cargo_core.specs.Items.{kind_of};
ghost use Rattle.wire_core.specs.Deeds.{Cargo, deed_of, put_of};
ghost use Rattle.wire_core.specs.Lists.{taken_by, put_by, if_there};
ghost use Rattle.wire_core.specs.Ends.{role_of};
ghost use Rattle.wire_core.specs.Marks.{is_mark};
ghost use Rattle.turn_kit.specs.Turns.{PostedAt};
ghost use Rattle.buffer_kit.specs.Entries.{addr_of};
ghost use Rattle.buffer_kit.specs.Virtualising.{FitsVirt, VirtOwns, SameVirt, from_queues};
ghost use Rattle.buffer_kit.specs.Virtualising.{to_queues, virt_posts};
ghost use Rattle.net_virt_tx.specs.declared.client.Client.{Client};
ghost use Rattle.net_virt_tx.specs.declared.traffic.Traffic.{Traffic};
ghost use Rattle.net_virt_tx.specs.declared.TxEnds.{TxEnds};
ghost use Rattle.net_virt_tx.specs.Clients.{IsFresh, is_away, carried};
ghost use Rattle.net_virt_tx.specs.Traffics.{IsTraffic, OneMoved, TookBack, TookIn, is_free};
ghost use Rattle.net_virt_tx.specs.Traffics.{needs_at, loaded_at, owes, leaving_at, load_at};
ghost use Rattle.net_virt_tx.specs.Traffics.{bad_count, IsStill, TrafficStands, with_more};
ghost use Rattle.net_virt_tx.specs.Traffics.{traffic_cargo, traffic_hand};
ghost use Rattle.net_virt_tx.specs.Sending.{FitsClients, IsNewTraffic, sender_of};

use crate::{Client, TxEnds};
use buffer_kit::{VirtEnds, address, bad_of_all, leaver};
use cargo_core::{Body, Item, Memory, PoolId, Ranges};
use std::alloc::Global;
use turn_kit::{Needs, count_held};
use wire_core::{Event, Wires};

/// What is kept of each client, and the ranges of their buffers. After an entry came out of turn,
/// which is `stray`, nothing more is taken or put.
#[derive(Drop)]
pub struct Traffic {
    pub clients: Vec<Client>,
    pub ranges: Ranges,
    pub stray: Option<(Item, Body)>,
}

/// The clients whose next descriptor is needed.
#[derive(Clone, Copy)]
pub struct Wanting<'a> {
    pub work: &'a Traffic,
}

impl<'a> Needs for Wanting<'a> {
    ghost need = { λ n k. needs_at n.work.now k };

    fn at(&self, place: usize) -> bool {
        self.work.needs(place)
    }
}

/// The clients to which an entry is to go.
#[derive(Clone, Copy)]
pub struct Loaded<'a> {
    pub work: &'a Traffic,
}

impl<'a> Needs for Loaded<'a> {
    ghost need = { λ n k. loaded_at n.work.now k };

    fn at(&self, place: usize) -> bool {
        self.work.is_loaded(place)
    }
}

// Clients of which nothing came yet.
fn served(alloc: Global, clients: &[TxEnds], most: u16) -> Result<Vec<Client>, Memory>
    requires sized { All (λ (c : TxEnds). 1 ≤ c.size) clients.now }
    requires ends { All (λ (c : TxEnds). c.base + c.buffers * c.size ≤ 2 ^ 62) clients.now }
    ensures senders { IfOk result
        (λ v. map (λ (c : Client). c.sender) v.items ≡ map (sender_of most) clients.now) }
    ensures fresh { IfOk result (λ v. (k : ℕ) (c : Client) → slice_get v.items k ≡ Some c
        → IsFresh c) }
{
    let mut served = Vec::with_capacity(alloc, clients.len())?;
    for client in clients {
        served.push(Client::new(alloc, client.sender(most))?)?;
    }
    Ok(served)
}

impl Traffic {
    /// Of these clients nothing came yet.
    pub fn new(
        alloc: Global,
        clients: &[TxEnds],
        ranges: Ranges,
        most: u16,
    ) -> Result<Traffic, Memory>
        requires { FitsClients clients.now ranges }
        ensures new { IfOk result (λ w. IsNewTraffic (map (sender_of most) clients.now) w) }
        ensures work { IfOk result (λ w. IsTraffic w) }
    {
        let clients = served(alloc, clients, most)?;
        Ok(Traffic {
            clients,
            ranges,
            stray: None,
        })
    }

    /// Whether no entry came out of turn.
    pub fn is_free(&self) -> bool
        ensures { result ≡ is_free self.now }
    {
        self.stray.is_none()
    }

    /// Whether the next descriptor of the client at a place is needed.
    pub fn needs(&self, place: usize) -> bool
        ensures { result ≡ needs_at self.now place }
    {
        match self.clients.get(place) {
            Some(client) => self.stray.is_none() && client.is_idle(),
            None => false,
        }
    }

    /// Whether an entry is to go to the client at a place.
    pub fn is_loaded(&self, place: usize) -> bool
        ensures { result ≡ loaded_at self.now place }
    {
        match self.clients.get(place) {
            Some(client) => self.stray.is_none() && client.is_loaded(),
            None => false,
        }
    }

    // The first client that has an entry to the driver.
    fn first_leaving(&self) -> Option<usize>
        ensures { MatchOption result (owes (record self.now { stray = None }) ≡ false)
            (λ k. (owes (record self.now { stray = None }) ≡ true)
            × (is_some (leaving_at self.now k) ≡ true)) }
    {
        leaver(&self.clients)
    }

    /// A client that has an entry to the driver. None where an entry came out of turn.
    pub fn leaver(&self) -> Option<usize>
        ensures { MatchOption result (owes self.now ≡ false) (λ k. (owes self.now ≡ true)
            × (self.now.stray ≡ None) × (is_some (leaving_at self.now k) ≡ true)) }
    {
        if self.stray.is_some() {
            return None;
        }
        self.first_leaving()
    }

    // The client whose buffer at a device address is at the driver.
    fn away_from(&self, address: u64) -> Option<usize>
        requires { IsTraffic self.now }
        ensures { MatchOption result ((k : ℕ) (c : Client)
            → slice_get self.now.clients.items k ≡ Some c → is_away c address ≡ false)
            (λ k. (c : Client) × (slice_get self.now.clients.items k ≡ Some c)
            × (is_away c address ≡ true)) }
    {
        match self.ranges.client_of(address) {
            Some(client) => {
                let place = client as usize;
                if self.clients[place].is_away(address) {
                    Some(place)
                } else {
                    None
                }
            }
            None => None,
        }
    }

    /// An entry came back from the driver. One that names no buffer that is there strays.
    pub fn take_back(&mut self, entry: (Item, Body))
        requires work { IsTraffic self.old }
        requires kind { kind_of entry.0 ≡ Kind.Net }
        ensures { TookBack self.old self.new entry }
    {
        match self.away_from(address(&entry.0)) {
            Some(place) => {
                let client = &mut self.clients[place];
                client.take_back(entry);
            }
            None => self.stray = Some(entry),
        }
    }

    /// A descriptor came from the client at a place. A good one whose buffer is inside strays.
    pub fn receive(&mut self, place: usize, entry: (Item, Body))
        requires work { IsTraffic self.old }
        requires needed { needs_at self.old place ≡ true }
        requires kind { kind_of entry.0 ≡ Kind.Net }
        ensures { TookIn self.old self.new place entry }
    {
        if self.clients[place].comes_in_turn(&entry) {
            let client = &mut self.clients[place];
            client.receive(entry);
        } else {
            self.stray = Some(entry);
        }
    }

    /// The next call to the driver, for the entry of the client at a place.
    pub fn send<W: Wires>(&mut self, ends: &mut VirtEnds, wires: &mut W, place: usize) -> Event
        requires fits { FitsVirt (W.ends wires.old) ends.old }
        requires work { IsTraffic self.old }
        requires some { is_some (leaving_at self.old place) ≡ true }
        ensures fits { FitsVirt (W.ends wires.new) ends.new }
        ensures own { VirtOwns ends.old (role_of result.op) result.queue.0 }
        ensures same { SameVirt ends.old ends.new }
        ensures did { W.did wires.old (deed_of result (put_of result (leaving_at self.old place)))
            wires.new }
        ensures takes { (n : ℕ)
            → taken_by (deed_of result (put_of result (leaving_at self.old place))) n ≡ [] }
        ensures puts { (n : ℕ)
            → put_by (deed_of result (put_of result (leaving_at self.old place))) n
            ≡ if_there (ends.old.output.queue.0 == n)
            (option_to_list (put_of result (leaving_at self.old place))) }
        ensures posted { PostedAt (virt_posts ends.old) 1 true result (virt_posts ends.new) }
        ensures still { is_mark result.op result.answer ≡ false → IsStill self.old self.new }
        ensures turn { ends.new.turn ≡ ends.old.turn }
        ensures moved { OneMoved self.old self.new place []
            (option_to_list (put_of result (leaving_at self.old place))) [] [] }
    {
        let client = &mut self.clients[place];
        client.send(ends, wires)
    }

    /// The next call to the client at a place, for what goes to it next.
    pub fn give<W: Wires>(&mut self, ends: &mut VirtEnds, wires: &mut W, place: usize) -> Event
        requires fits { FitsVirt (W.ends wires.old) ends.old }
        requires work { IsTraffic self.old }
        requires there { place < length (to_queues ends.old) }
        requires some { loaded_at self.old place ≡ true }
        ensures fits { FitsVirt (W.ends wires.new) ends.new }
        ensures own { VirtOwns ends.old (role_of result.op) result.queue.0 }
        ensures same { SameVirt ends.old ends.new }
        ensures did { W.did wires.old (deed_of result (put_of result (load_at self.old place)))
            wires.new }
        ensures on { slice_get (to_queues ends.old) place ≡ Some result.queue }
        ensures takes { (n : ℕ)
            → taken_by (deed_of result (put_of result (load_at self.old place))) n ≡ [] }
        ensures puts { (n : ℕ) → put_by (deed_of result (put_of result (load_at self.old place))) n
            ≡ if_there (result.queue.0 == n)
            (option_to_list (put_of result (load_at self.old place))) }
        ensures posted { PostedAt (virt_posts ends.old)
            (2 + length (from_queues ends.old) + place) true result (virt_posts ends.new) }
        ensures still { is_mark result.op result.answer ≡ false → IsStill self.old self.new }
        ensures turn { ends.new.turn ≡ ends.old.turn }
        ensures moved { OneMoved self.old self.new place [] [] []
            (option_to_list (put_of result (load_at self.old place))) }
    {
        let client = &mut self.clients[place];
        client.give(ends, wires, place)
    }

    /// How many buffers of a pool are in its hand.
    pub fn held(&self, pool: PoolId) -> u32
        requires { IsTraffic self.now }
        ensures { result ≡ buffers_of pool (traffic_hand self.now) }
    {
        let mut count = count_held(pool, &self.stray);
        for client in &self.clients {
            count += client.held(pool);
        }
        count
    }

    /// How many bad descriptors came. The count stands still at its type's end.
    pub fn bad(&self) -> u64
        ensures { result ≡ bad_count self.now }
    {
        bad_of_all(&self.clients)
    }
}

/// Where a client is served further, all clients stand for so much more, what is kept goes on to
/// fit together, and each buffer that came went or is in its hand.
pub fn serve_law()
    ensures kept { (old new : Traffic) (k : ℕ) (came sent returned back : List Cargo)
        → IsTraffic old → OneMoved old new k came sent returned back → IsTraffic new }
    ensures stands { (old new : Traffic) (k : ℕ) (came sent returned back : List Cargo)
        → IsTraffic old → OneMoved old new k came sent returned back
        → (cs : ℕ → List Cargo) (ss rs : List Cargo) (bs : ℕ → List Cargo)
        → TrafficStands old cs ss rs bs → TrafficStands new
        (with_more cs k came) (ss ++ sent) (rs ++ returned) (with_more bs k back) }
    ensures held { (old new : Traffic) (k : ℕ) (came sent returned back : List Cargo)
        → IsTraffic old → OneMoved old new k came sent returned back
        → (pool : PoolId) → carried pool (traffic_cargo old)
        + (carried pool came + carried pool returned)
        ≡ carried pool (traffic_cargo new) + (carried pool sent + carried pool back) }
{}
