//! The block virtualiser itself: the ends that it steps, and whose turn it is.
ghost use Rattle.std.specs.Prelude.{◌≡◌, ◌+◌, ◌-◌, ◌<◌, ◌≤◌, ◌^◌, ℕ, IfOk, is_none, length, map};
ghost use Rattle.std.specs.Prelude.{false};
ghost use Rattle.cargo_core.specs.Blocks.{blk_buffer_bytes};
ghost use Rattle.cargo_core.specs.Bodies.{buffers_of};
ghost use Rattle.turn_kit.specs.Hands.{bodies_of};
ghost use Rattle.wire_core.specs.Ends.{role_of, Role, End};
ghost use Rattle.wire_core.specs.Lists.{Passed, Stepped, nothing_passed};
ghost use Rattle.wire_core.specs.Marks.{is_mark};
ghost use Rattle.turn_kit.specs.Turns.{Turned, PostedAt, choice_of, chosen_place, last_after};
ghost use Rattle.turn_kit.specs.Turns.{is_at_rest};
ghost use Rattle.buffer_kit.specs.Virtualising.{from_queues, to_queues, virt_posts, place_of};
ghost use Rattle.buffer_kit.specs.Virtualising.{IsThere, need_of};
ghost use Rattle.blk_virt.specs.Desks.{bad_count};
ghost use Rattle.blk_virt.specs.Works.{IsWork, WorkIsStill, wants_at, gives_at, is_owing};
ghost use Rattle.blk_virt.specs.Works.{work_cargo};
ghost use Rattle.blk_virt.specs.Virtualising.{FitsBlkVirt, BlkVirtStandsFor, BlkVirtEnd};
ghost use Rattle.blk_virt.specs.Virtualising.{SameBlkVirt, BlkVirtForgot, BlkVirtRow};
ghost use Rattle.blk_virt.specs.Virtualising.{BlkVirtBalances, AreClients, IsNewBlkVirt};
ghost use Rattle.blk_virt.specs.Virtualising.{new_client, blk_virt_round};

use crate::{Client, Desk, Giving, Holder, Line, Opening, Wanting, Work};
use buffer_kit::{BlkCargo, VirtEnd, VirtEnds};
use cargo_core::{Memory, Page, PoolId};
use std::alloc::Global;
use wire_core::{Event, QueueId, Wires};

/// A client of the virtualiser: the queues on which its requests come and its responses go, the
/// entry of its partition, its pool, how many buffers that has, and the device address at which
/// the first of them begins.
#[derive(Clone, Copy, Debug, PartialEq, Eq)]
pub struct BlkEnds {
    pub base: u64,
    pub buffers: u32,
    pub req: QueueId,
    pub resp: QueueId,
    pub pool: PoolId,
    pub partition: u8,
}

/// The block virtualiser.
#[derive(Drop)]
pub struct BlkVirt {
    pub ends: VirtEnds,
    pub work: Work,
}

// The queues on which requests come.
fn reqs_of(alloc: Global, clients: &[BlkEnds]) -> Result<Vec<QueueId>, Memory>
    ensures { IfOk result (λ v. v.items ≡ map (λ (c : BlkEnds). c.req) clients.now) }
{
    let mut queues = Vec::with_capacity(alloc, clients.len())?;
    for client in clients {
        queues.push(client.req)?;
    }
    Ok(queues)
}

// The queues to which responses go.
fn resps_of(alloc: Global, clients: &[BlkEnds]) -> Result<Vec<QueueId>, Memory>
    ensures { IfOk result (λ v. v.items ≡ map (λ (c : BlkEnds). c.resp) clients.now) }
{
    let mut queues = Vec::with_capacity(alloc, clients.len())?;
    for client in clients {
        queues.push(client.resp)?;
    }
    Ok(queues)
}

// What is kept of a client at the start.
fn new_client(ends: &BlkEnds) -> Client
    ensures { result ≡ new_client ends.now }
{
    let holder = Holder {
        pool: ends.pool,
        buffers: ends.buffers,
        base: ends.base,
        partition: ends.partition,
    };
    Client {
        holder,
        current: None,
        leaving: None,
        held: None,
        bad: 0,
    }
}

// What is kept of the clients at the start.
fn clients_of(alloc: Global, clients: &[BlkEnds]) -> Result<Vec<Client>, Memory>
    ensures { IfOk result (λ v. v.items ≡ map new_client clients.now) }
{
    let mut kept = Vec::with_capacity(alloc, clients.len())?;
    for client in clients {
        kept.push(new_client(client))?;
    }
    Ok(kept)
}

impl BlkVirt {
    /// A virtualiser in its start state. Requests go to `req`, and responses come at `resp`; the
    /// page is its own buffer, of 32,768 bytes, which begins at the device address `base`.
    /// It takes the memory for one request of each client at the driver.
    pub fn new(
        alloc: Global,
        req: QueueId,
        resp: QueueId,
        clients: Vec<BlkEnds>,
        page: Page,
        base: u64,
        disk_sectors: u32,
    ) -> Result<BlkVirt, Memory>
        requires clients { AreClients clients.items }
        requires own { length page.bytes ≡ blk_buffer_bytes }
        ensures new { IfOk result (λ v. IsNewBlkVirt req resp clients.items page base
            disk_sectors v) }
        ensures work { IfOk result (λ v. IsWork v.work) }
        ensures stands { IfOk result (λ v. BlkVirtStandsFor v nothing_passed) }
    {
        let from_clients = reqs_of(alloc, &clients)?;
        let to_clients = resps_of(alloc, &clients)?;
        let ends = VirtEnds::new(alloc, resp, req, &from_clients, &to_clients)?;
        let line = Line::new(alloc, clients.len())?;
        let clients = clients_of(alloc, &clients)?;
        let work = Work {
            opening: Opening::new(page, base, disk_sectors),
            desk: Desk { clients, line },
            number: 0,
            stray: None,
        };
        Ok(BlkVirt { ends, work })
    }

    /// Discards the last look of each end, and nothing else.
    pub fn forget(&mut self)
        ensures after { BlkVirtForgot self.old self.new }
        ensures same { SameBlkVirt self.old self.new }
        ensures fits { (ends : Role → ℕ → End) → FitsBlkVirt ends self.old
            → FitsBlkVirt ends self.new }
        ensures lists { (passed : Passed) → BlkVirtStandsFor self.old passed
            → BlkVirtStandsFor self.new passed }
    {
        self.ends.forget();
    }

    /// How many buffers of a pool are in its hand.
    pub fn held(&self, pool: PoolId) -> u32
        requires { length self.now.work.desk.clients.items < 2 ^ 31 - 2 }
        ensures { result ≡ buffers_of pool (bodies_of (work_cargo self.now.work)) }
    {
        self.work.held(pool)
    }

    /// How many requests had a buffer that wasn't the client's own. The count stands still at its
    /// type's end.
    pub fn bad(&self) -> u64
        ensures { result ≡ bad_count self.now.work.desk }
    {
        self.work.desk.bad()
    }

    /// Whether nothing is to be done before a notification comes.
    pub fn at_rest(&self) -> bool
        ensures { result ≡ is_at_rest (blk_virt_round self.now) }
    {
        let wanting = Wanting { work: &self.work };
        let giving = Giving { work: &self.work };
        self.ends.settled(
            self.work.stray.is_none(),
            self.work.is_owing(),
            &wanting,
            &giving,
        )
    }

    // The next call where responses come.
    fn step_response<W: Wires>(&mut self, wires: &mut W) -> Event
        requires { FitsBlkVirt (W.ends wires.old) self.old }
        ensures fits { FitsBlkVirt (W.ends wires.new) self.new }
        ensures own { BlkVirtEnd self.old (role_of result.op) result.queue.0 }
        ensures same { SameBlkVirt self.old self.new }
        ensures stepped { Stepped BlkVirtStandsFor W.did wires.old wires.new
            self.old self.new result }
        ensures posted { PostedAt (virt_posts self.old.ends) 0 (is_none self.old.work.stray) result
            (virt_posts self.new.ends) }
        ensures still { is_mark result.op result.answer ≡ false
            → WorkIsStill self.old.work self.new.work }
        ensures turn { self.new.ends.turn ≡ self.old.ends.turn }
    {
        let (event, got) = self
            .ends
            .step_input::<BlkCargo, _>(wires, self.work.stray.is_none());
        if let Some(entry) = got {
            self.work.receive(entry);
        }
        event
    }

    // The next call where requests of the client at a place come.
    fn step_request<W: Wires>(&mut self, wires: &mut W, place: usize) -> Event
        requires fits { FitsBlkVirt (W.ends wires.old) self.old }
        requires there { place < length (from_queues self.old.ends) }
        ensures fits { FitsBlkVirt (W.ends wires.new) self.new }
        ensures own { BlkVirtEnd self.old (role_of result.op) result.queue.0 }
        ensures same { SameBlkVirt self.old self.new }
        ensures stepped { Stepped BlkVirtStandsFor W.did wires.old wires.new
            self.old self.new result }
        ensures posted { PostedAt (virt_posts self.old.ends) (2 + place)
            (wants_at self.old.work place) result (virt_posts self.new.ends) }
        ensures still { is_mark result.op result.answer ≡ false
            → WorkIsStill self.old.work self.new.work }
        ensures turn { self.new.ends.turn ≡ self.old.ends.turn }
    {
        let wants = self.work.wants(place);
        let (event, got) = self
            .ends
            .step_from_client::<BlkCargo, _>(wires, place, wants);
        if let Some(entry) = got {
            self.work.request(place, entry);
        }
        event
    }

    // The next call where requests go to the driver.
    fn step_driver<W: Wires>(&mut self, wires: &mut W) -> Event
        requires { FitsBlkVirt (W.ends wires.old) self.old }
        ensures fits { FitsBlkVirt (W.ends wires.new) self.new }
        ensures own { BlkVirtEnd self.old (role_of result.op) result.queue.0 }
        ensures same { SameBlkVirt self.old self.new }
        ensures stepped { Stepped BlkVirtStandsFor W.did wires.old wires.new
            self.old self.new result }
        ensures posted { PostedAt (virt_posts self.old.ends) 1 (is_owing self.old.work) result
            (virt_posts self.new.ends) }
        ensures still { is_mark result.op result.answer ≡ false
            → WorkIsStill self.old.work self.new.work }
        ensures turn { self.new.ends.turn ≡ self.old.ends.turn }
    {
        if !self.work.is_owing() {
            let mut nothing = None;
            return self.ends.step_output::<BlkCargo, _>(wires, &mut nothing);
        }
        if self.work.opening.is_reading() {
            return self.work.send_first(&mut self.ends, wires);
        }
        match self.work.desk.leaver() {
            Some(place) => self.work.send_request(&mut self.ends, wires, place),
            None => unreachable!(),
        }
    }

    // The next call where answers go to the client at a place.
    fn step_answer<W: Wires>(&mut self, wires: &mut W, place: usize) -> Event
        requires fits { FitsBlkVirt (W.ends wires.old) self.old }
        requires there { place < length (to_queues self.old.ends) }
        ensures fits { FitsBlkVirt (W.ends wires.new) self.new }
        ensures own { BlkVirtEnd self.old (role_of result.op) result.queue.0 }
        ensures same { SameBlkVirt self.old self.new }
        ensures stepped { Stepped BlkVirtStandsFor W.did wires.old wires.new
            self.old self.new result }
        ensures posted { PostedAt (virt_posts self.old.ends)
            (2 + length (from_queues self.old.ends) + place) (gives_at self.old.work place) result
            (virt_posts self.new.ends) }
        ensures still { is_mark result.op result.answer ≡ false
            → WorkIsStill self.old.work self.new.work }
        ensures turn { self.new.ends.turn ≡ self.old.ends.turn }
    {
        if !self.work.gives(place) {
            let mut nothing = None;
            return self
                .ends
                .step_to_client::<BlkCargo, _>(wires, place, &mut nothing);
        }
        self.work.give(&mut self.ends, wires, place)
    }

    // The end that is stepped now.
    fn choose(&mut self) -> VirtEnd
        requires from_clients { length (from_queues self.old.ends) < 2 ^ 32 }
        requires to_clients { length (to_queues self.old.ends) < 2 ^ 32 }
        ensures place { place_of self.old.ends result
            ≡ chosen_place (choice_of (blk_virt_round self.old)) }
        ensures there { IsThere self.old.ends result }
        ensures after { self.new ≡ record self.old {
          ends = record self.old.ends {
            turn = record { last = last_after (choice_of (blk_virt_round self.old)) };
          };
        } }
    {
        let free = self.work.stray.is_none();
        let owes = self.work.is_owing();
        let wanting = Wanting { work: &self.work };
        let giving = Giving { work: &self.work };
        self.ends.choose(free, owes, &wanting, &giving)
    }

    // The next call at an end.
    fn step_at<W: Wires>(&mut self, wires: &mut W, at: VirtEnd) -> Event
        requires fits { FitsBlkVirt (W.ends wires.old) self.old }
        requires there { IsThere self.old.ends at }
        ensures fits { FitsBlkVirt (W.ends wires.new) self.new }
        ensures own { BlkVirtEnd self.old (role_of result.op) result.queue.0 }
        ensures same { SameBlkVirt self.old self.new }
        ensures stepped { Stepped BlkVirtStandsFor W.did wires.old wires.new
            self.old self.new result }
        ensures posted { PostedAt (virt_posts self.old.ends) (place_of self.old.ends at) (need_of
            (is_none self.old.work.stray) (is_owing self.old.work) (wants_at self.old.work)
            (gives_at self.old.work) at) result (virt_posts self.new.ends) }
        ensures still { is_mark result.op result.answer ≡ false
            → WorkIsStill self.old.work self.new.work }
        ensures turn { self.new.ends.turn ≡ self.old.ends.turn }
    {
        match at {
            VirtEnd::Input => self.step_response(wires),
            VirtEnd::Output => self.step_driver(wires),
            VirtEnd::FromClient(place) => self.step_request(wires, place),
            VirtEnd::ToClient(place) => self.step_answer(wires, place),
        }
    }

    /// Makes one call on one of its ends.
    #[inline(never)]
    pub fn step<W: Wires>(&mut self, wires: &mut W) -> Event
        requires { FitsBlkVirt (W.ends wires.old) self.old }
        ensures fits { FitsBlkVirt (W.ends wires.new) self.new }
        ensures own { BlkVirtEnd self.old (role_of result.op) result.queue.0 }
        ensures same { SameBlkVirt self.old self.new }
        ensures stepped { Stepped BlkVirtStandsFor W.did wires.old wires.new
            self.old self.new result }
        ensures turned { Turned (blk_virt_round self.old) result (blk_virt_round self.new) }
    {
        let at = self.choose();
        self.step_at(wires, at)
    }
}

/// Whatever it stands for meets its row.
pub fn row_law()
    ensures { (v : BlkVirt) (passed : Passed) → BlkVirtStandsFor v passed → BlkVirtRow v passed }
{}

/// What it had at the start and what came is what went and what is in its hand.
pub fn hand_law()
    ensures { (v : BlkVirt) (passed : Passed) → BlkVirtStandsFor v passed
        → BlkVirtBalances v passed }
{}
