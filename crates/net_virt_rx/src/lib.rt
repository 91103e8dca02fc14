//! The receiving virtualiser of the network: it lends each frame's buffer to the clients that the
//! frame is for, and gives the buffer back when each of them returned its lease. That the network
//! has one is sDDF's; its turns are this project's own.
#![tactic(auto)]

ghost use Rattle.std.specs.Prelude.{◌≡◌, ◌+◌, ◌<◌, ◌^◌, ◌∷◌, [], ℕ, IfOk, OnErr, is_some, length};
ghost use Rattle.std.specs.Prelude.{map, slice_index_or, true, false};
ghost use Rattle.cargo_core.specs.declared.item.PoolId.{PoolId};
ghost use Rattle.cargo_core.specs.Bodies.{buffers_of};
ghost use Rattle.wire_core.specs.Ends.{role_of, Role, End};
ghost use Rattle.wire_core.specs.Lists.{Passed, Stepped, nothing_passed};
ghost use Rattle.wire_core.specs.Marks.{is_mark};
ghost use Rattle.turn_kit.specs.Turns.{Turned, PostedAt, choice_of, chosen_place, last_after};
ghost use Rattle.turn_kit.specs.Turns.{is_at_rest};
ghost use Rattle.buffer_kit.specs.Pools.{ArePool};
ghost use Rattle.buffer_kit.specs.Virtualising.{from_queues, to_queues, virt_posts, place_of};
ghost use Rattle.buffer_kit.specs.Virtualising.{IsThere, need_of};
ghost use Rattle.net_virt_rx.specs.Sharing.{IsSharer, is_idle, is_owing, sharer_hand, lent_many};
ghost use Rattle.net_virt_rx.specs.Receiving.{FitsRx, RxStandsFor, RxRow, RxBalances, RxEnd};
ghost use Rattle.net_virt_rx.specs.Receiving.{SameRx, IsNewRx, RxForgot, rx_round};

use buffer_kit::{NetCargo, VirtEnd, VirtEnds};
use cargo_core::{Memory, Page, PoolId};
use frame_core::Mac;
use std::alloc::Global;
use wire_core::{Event, QueueId, Wires};

mod receivers;
mod sharer;

pub use receivers::Receivers;
pub use sharer::Sharer;

/// A client of the virtualiser: its address, the queue on which its leases go to its copier, and
/// the one on which they come back.
#[derive(Clone, Copy, Debug, PartialEq, Eq)]
pub struct LeaseEnds {
    pub mac: Mac,
    pub active: QueueId,
    pub free: QueueId,
}

/// The receiving virtualiser. It takes a frame or a lease only while it has no lease and no buffer
/// in its hand.
#[derive(Drop)]
pub struct NetVirtRx {
    pub ends: VirtEnds,
    pub work: Sharer,
}

// The addresses of the clients.
fn macs_of(alloc: Global, clients: &[LeaseEnds]) -> Result<Vec<Mac>, Memory>
    ensures { IfOk result (λ v. v.items ≡ map (λ (c : LeaseEnds). c.mac) clients.now) }
{
    let mut macs = Vec::with_capacity(alloc, clients.len())?;
    for client in clients {
        macs.push(client.mac)?;
    }
    Ok(macs)
}

// The queues to the clients.
fn active_of(alloc: Global, clients: &[LeaseEnds]) -> Result<Vec<QueueId>, Memory>
    ensures { IfOk result (λ v. v.items ≡ map (λ (c : LeaseEnds). c.active) clients.now) }
{
    let mut queues = Vec::with_capacity(alloc, clients.len())?;
    for client in clients {
        queues.push(client.active)?;
    }
    Ok(queues)
}

// The queues from the clients.
fn free_of(alloc: Global, clients: &[LeaseEnds]) -> Result<Vec<QueueId>, Memory>
    ensures { IfOk result (λ v. v.items ≡ map (λ (c : LeaseEnds). c.free) clients.now) }
{
    let mut queues = Vec::with_capacity(alloc, clients.len())?;
    for client in clients {
        queues.push(client.free)?;
    }
    Ok(queues)
}

impl NetVirtRx {
    /// A virtualiser in its start state. Frames come at `active`, and buffers go to `free`; the
    /// pages are all buffers of the pool in rising number, the first of which begins at `base`.
    pub fn new(
        alloc: Global,
        active: QueueId,
        free: QueueId,
        clients: Vec<LeaseEnds>,
        pages: Vec<Page>,
        base: u64,
    ) -> Result<NetVirtRx, Memory>
        requires pool { (pool : PoolId) × (size : ℕ) × ArePool base pool size pages.items }
        requires few { length clients.items < 2 ^ 32 }
        ensures new { IfOk result (λ v. IsNewRx active free base clients.items pages.items v) }
        ensures stands { IfOk result (λ v. RxStandsFor v nothing_passed) }
    {
        let from_clients = free_of(alloc, &clients)?;
        let to_clients = active_of(alloc, &clients)?;
        let macs = macs_of(alloc, &clients)?;
        let ends = VirtEnds::new(alloc, active, free, &from_clients, &to_clients)?;
        let work = Sharer::new(alloc, macs, pages, base)?;
        Ok(NetVirtRx { ends, work })
    }

    /// Whether nothing is to be done before a notification comes.
    pub fn at_rest(&self) -> bool
        ensures { result ≡ is_at_rest (rx_round self.now) }
    {
        let idle = self.work.is_idle();
        let owes = self.work.stock.next.is_some();
        self.ends
            .settled(idle, owes, &idle, &self.work.owed.as_slice())
    }

    /// How many buffers of a pool are in its hand and aren't lent.
    pub fn held(&self, pool: PoolId) -> u32
        requires { IsSharer self.now.work }
        ensures { result ≡ buffers_of pool (sharer_hand self.now.work) }
    {
        self.work.held(pool)
    }

    /// How many buffers are lent.
    pub fn lent(&self) -> u32
        ensures { result ≡ lent_many self.now.work.stock.buffers self.now.work.lent }
    {
        self.work.lent()
    }

    // The end that is stepped now.
    fn choose(&mut self) -> VirtEnd
        requires from_clients { length (from_queues self.old.ends) < 2 ^ 32 }
        requires to_clients { length (to_queues self.old.ends) < 2 ^ 32 }
        ensures place { place_of self.old.ends result
            ≡ chosen_place (choice_of (rx_round self.old)) }
        ensures there { IsThere self.old.ends result }
        ensures after { self.new ≡ record self.old {
          ends = record self.old.ends {
            turn = record { last = last_after (choice_of (rx_round self.old)) };
          };
        } }
    {
        let idle = self.work.is_idle();
        let owes = self.work.stock.next.is_some();
        self.ends
            .choose(idle, owes, &idle, &self.work.owed.as_slice())
    }

    // The next call where frames come.
    fn step_input<W: Wires>(&mut self, wires: &mut W) -> Event
        requires { FitsRx (W.ends wires.old) self.old }
        ensures fits { FitsRx (W.ends wires.new) self.new }
        ensures own { RxEnd self.old (role_of result.op) result.queue.0 }
        ensures same { SameRx self.old self.new }
        ensures stepped { Stepped RxStandsFor W.did wires.old wires.new self.old self.new result }
        ensures posted { PostedAt (virt_posts self.old.ends) 0 (is_idle self.old.work) result
            (virt_posts self.new.ends) }
        ensures still { is_mark result.op result.answer ≡ false → self.new.work ≡ self.old.work }
        ensures turn { self.new.ends.turn ≡ self.old.ends.turn }
    {
        let (event, got) = self
            .ends
            .step_input::<NetCargo, _>(wires, self.work.is_idle());
        if let Some(entry) = got {
            self.work.receive(entry);
        }
        event
    }

    // The next call where leases of the client at a place come back.
    fn step_returned<W: Wires>(&mut self, wires: &mut W, client: usize) -> Event
        requires fits { FitsRx (W.ends wires.old) self.old }
        requires there { client < length (from_queues self.old.ends) }
        ensures fits { FitsRx (W.ends wires.new) self.new }
        ensures own { RxEnd self.old (role_of result.op) result.queue.0 }
        ensures same { SameRx self.old self.new }
        ensures stepped { Stepped RxStandsFor W.did wires.old wires.new self.old self.new result }
        ensures posted { PostedAt (virt_posts self.old.ends) (2 + client) (is_idle self.old.work)
            result (virt_posts self.new.ends) }
        ensures still { is_mark result.op result.answer ≡ false → self.new.work ≡ self.old.work }
        ensures turn { self.new.ends.turn ≡ self.old.ends.turn }
    {
        let idle = self.work.is_idle();
        let (event, got) = self
            .ends
            .step_from_client::<NetCargo, _>(wires, client, idle);
        if let Some(entry) = got {
            self.work.take_back(client, entry);
        }
        event
    }

    // The next call where free buffers go.
    fn step_output<W: Wires>(&mut self, wires: &mut W) -> Event
        requires { FitsRx (W.ends wires.old) self.old }
        ensures fits { FitsRx (W.ends wires.new) self.new }
        ensures own { RxEnd self.old (role_of result.op) result.queue.0 }
        ensures same { SameRx self.old self.new }
        ensures stepped { Stepped RxStandsFor W.did wires.old wires.new self.old self.new result }
        ensures posted { PostedAt (virt_posts self.old.ends) 1 (is_some self.old.work.stock.next)
            result (virt_posts self.new.ends) }
        ensures still { is_mark result.op result.answer ≡ false → self.new.work ≡ self.old.work }
        ensures turn { self.new.ends.turn ≡ self.old.ends.turn }
    {
        if self.work.stock.next.is_none() {
            let mut nothing = None;
            return self.ends.step_output::<NetCargo, _>(wires, &mut nothing);
        }
        let event = self
            .ends
            .step_output::<NetCargo, _>(wires, &mut self.work.stock.next);
        if self.work.stock.next.is_none() {
            self.work.stock.refill();
        }
        event
    }

    // The next call where leases go to the client at a place. Where one is owed there, it is ready.
    fn step_share<W: Wires>(&mut self, wires: &mut W, client: usize) -> Event
        requires fits { FitsRx (W.ends wires.old) self.old }
        requires there { client < length (to_queues self.old.ends) }
        requires ready { is_owing self.old.work ≡ true → is_some self.old.work.ready ≡ true }
        ensures fits { FitsRx (W.ends wires.new) self.new }
        ensures own { RxEnd self.old (role_of result.op) result.queue.0 }
        ensures same { SameRx self.old self.new }
        ensures stepped { Stepped RxStandsFor W.did wires.old wires.new self.old self.new result }
        ensures posted { PostedAt (virt_posts self.old.ends)
            (2 + length (from_queues self.old.ends) + client)
            (slice_index_or self.old.work.owed client false) result (virt_posts self.new.ends) }
        ensures still { is_mark result.op result.answer ≡ false → self.new.work ≡ self.old.work }
        ensures turn { self.new.ends.turn ≡ self.old.ends.turn }
    {
        if !self.work.owed.has(client) {
            let mut nothing = None;
            return self
                .ends
                .step_to_client::<NetCargo, _>(wires, client, &mut nothing);
        }
        let event = self
            .ends
            .step_to_client::<NetCargo, _>(wires, client, &mut self.work.ready);
        if self.work.ready.is_none() {
            self.work.owed.remove(client);
        }
        event
    }

    // The next call at an end.
    fn step_at<W: Wires>(&mut self, wires: &mut W, at: VirtEnd) -> Event
        requires fits { FitsRx (W.ends wires.old) self.old }
        requires there { IsThere self.old.ends at }
        requires ready { is_owing self.old.work ≡ true → is_some self.old.work.ready ≡ true }
        ensures fits { FitsRx (W.ends wires.new) self.new }
        ensures own { RxEnd self.old (role_of result.op) result.queue.0 }
        ensures same { SameRx self.old self.new }
        ensures stepped { Stepped RxStandsFor W.did wires.old wires.new self.old self.new result }
        ensures posted { PostedAt (virt_posts self.old.ends) (place_of self.old.ends at) (need_of
            (is_idle self.old.work) (is_some self.old.work.stock.next)
            (λ k. is_idle self.old.work) (λ k. slice_index_or self.old.work.owed k false) at) result
            (virt_posts self.new.ends) }
        ensures still { is_mark result.op result.answer ≡ false → self.new.work ≡ self.old.work }
        ensures turn { self.new.ends.turn ≡ self.old.ends.turn }
    {
        match at {
            VirtEnd::Input => self.step_input(wires),
            VirtEnd::Output => self.step_output(wires),
            VirtEnd::FromClient(client) => self.step_returned(wires, client),
            VirtEnd::ToClient(client) => self.step_share(wires, client),
        }
    }

    /// Makes one call on one of its ends. The memory of a lease that is owed is taken first; after
    /// want of memory no call was made and nothing changed.
    #[inline(never)]
    pub fn step<W: Wires>(&mut self, wires: &mut W) -> Result<Event, Memory>
        requires { FitsRx (W.ends wires.old) self.old }
        ensures fits { FitsRx (W.ends wires.new) self.new }
        ensures own { IfOk result (λ e. RxEnd self.old (role_of e.op) e.queue.0) }
        ensures same { SameRx self.old self.new }
        ensures stepped { IfOk result
            (λ e. Stepped RxStandsFor W.did wires.old wires.new self.old self.new e) }
        ensures turned { IfOk result (λ e. Turned (rx_round self.old) e (rx_round self.new)) }
        ensures no_call { OnErr result (wires.new ≡ wires.old) }
        ensures unchanged { OnErr result (self.new ≡ self.old) }
    {
        self.work.prepare()?;
        let at = self.choose();
        Ok(self.step_at(wires, at))
    }

    /// Discards the last look of each end, and nothing else.
    pub fn forget(&mut self)
        ensures after { RxForgot self.old self.new }
        ensures same { SameRx self.old self.new }
        ensures fits { (ends : Role → ℕ → End) → FitsRx ends self.old → FitsRx ends self.new }
        ensures lists { (passed : Passed) → RxStandsFor self.old passed
            → RxStandsFor self.new passed }
    {
        self.ends.forget();
    }
}

/// Whatever it stands for meets its row.
pub fn row_law()
    ensures { (v : NetVirtRx) (passed : Passed) → RxStandsFor v passed → RxRow v passed }
{}

/// What it had at the start and what came is what went, what is in its hand, and what is lent.
pub fn hand_law()
    ensures { (v : NetVirtRx) (passed : Passed) → RxStandsFor v passed → RxBalances v passed }
{}
