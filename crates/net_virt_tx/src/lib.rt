//! The sending virtualiser of the network: it checks each client's descriptors and gives them to
//! the driver with their device addresses, and gives sent buffers back to the client in whose range
//! they are. That the network has one is sDDF's; its turns are this project's own.
#![tactic(auto)]

ghost use Rattle.std.specs.Prelude.{◌≡◌, ◌+◌, ◌<◌, ◌^◌, [], ℕ, IfOk, length, map, true, false};
ghost use Rattle.cargo_core.specs.Bodies.{buffers_of};
ghost use Rattle.wire_core.specs.Ends.{role_of, Role, End};
ghost use Rattle.wire_core.specs.Lists.{Passed, Stepped, nothing_passed};
ghost use Rattle.wire_core.specs.Marks.{is_mark};
ghost use Rattle.turn_kit.specs.Turns.{Turned, PostedAt, choice_of, chosen_place, last_after};
ghost use Rattle.turn_kit.specs.Turns.{is_at_rest};
ghost use Rattle.buffer_kit.specs.Virtualising.{from_queues, to_queues, virt_posts, place_of};
ghost use Rattle.buffer_kit.specs.Virtualising.{IsThere, need_of};
ghost use Rattle.net_virt_tx.specs.Traffics.{IsTraffic, IsStill, is_free, owes, needs_at};
ghost use Rattle.net_virt_tx.specs.Traffics.{loaded_at, bad_count, traffic_hand};
ghost use Rattle.net_virt_tx.specs.Sending.{FitsTx, FitsClients, TxStandsFor, TxRow, TxBalances};
ghost use Rattle.net_virt_tx.specs.Sending.{TxEnd, SameTx, IsNewTx, TxForgot, sender_of, tx_round};

use buffer_kit::{NetCargo, VirtEnd, VirtEnds};
use cargo_core::{Memory, PoolId, Ranges};
use std::alloc::Global;
use wire_core::{Event, QueueId, Wires};

mod client;
mod descriptors;
mod marks;
mod returns;
mod traffic;
mod waiting;

pub use client::Client;
pub use descriptors::{Sender, to_client, to_device};
pub use marks::Marks;
pub use returns::Returns;
pub use traffic::{Loaded, Traffic, Wanting, serve_law};
pub use waiting::Waiting;

/// A client of the virtualiser: the queue on which its descriptors come, the one on which its
/// buffers go back, and its buffers, of `size` bytes each, the first of which has the device
/// address `base`.
#[derive(Clone, Copy, Debug, PartialEq, Eq)]
pub struct TxEnds {
    pub active: QueueId,
    pub free: QueueId,
    pub pool: PoolId,
    pub buffers: u32,
    pub base: u64,
    pub size: u32,
}

/// The sending virtualiser. While a descriptor of a client is still to be put, it takes no other of
/// that client.
#[derive(Drop)]
pub struct NetVirtTx {
    pub ends: VirtEnds,
    pub work: Traffic,
}

impl TxEnds {
    /// The client as it sends, where the longest frame has `most` bytes.
    pub fn sender(&self, most: u16) -> Sender
        ensures { result ≡ sender_of most self.now }
    {
        Sender {
            pool: self.pool,
            buffers: self.buffers,
            base: self.base,
            size: self.size,
            most,
        }
    }
}

// The queues from the clients.
fn active_of(alloc: Global, clients: &[TxEnds]) -> Result<Vec<QueueId>, Memory>
    ensures { IfOk result (λ v. v.items ≡ map (λ (c : TxEnds). c.active) clients.now) }
{
    let mut queues = Vec::with_capacity(alloc, clients.len())?;
    for client in clients {
        queues.push(client.active)?;
    }
    Ok(queues)
}

// The queues to the clients.
fn free_of(alloc: Global, clients: &[TxEnds]) -> Result<Vec<QueueId>, Memory>
    ensures { IfOk result (λ v. v.items ≡ map (λ (c : TxEnds). c.free) clients.now) }
{
    let mut queues = Vec::with_capacity(alloc, clients.len())?;
    for client in clients {
        queues.push(client.free)?;
    }
    Ok(queues)
}

impl NetVirtTx {
    /// A virtualiser in its start state. Descriptors go to the driver at `active` and come back at
    /// `free`; `ranges` are the device addresses of the clients' buffers, in the same order, and
    /// the longest frame has `most` bytes. It takes the memory for all buffers that it may hold.
    pub fn new(
        alloc: Global,
        active: QueueId,
        free: QueueId,
        clients: Vec<TxEnds>,
        ranges: Ranges,
        most: u16,
    ) -> Result<NetVirtTx, Memory>
        requires { FitsClients clients.items ranges }
        ensures new { IfOk result (λ v. IsNewTx active free clients.items most v) }
        ensures stands { IfOk result (λ v. TxStandsFor v nothing_passed) }
    {
        let from_clients = active_of(alloc, &clients)?;
        let to_clients = free_of(alloc, &clients)?;
        let ends = VirtEnds::new(alloc, free, active, &from_clients, &to_clients)?;
        let work = Traffic::new(alloc, &clients, ranges, most)?;
        Ok(NetVirtTx { ends, work })
    }

    /// Whether nothing is to be done before a notification comes.
    pub fn at_rest(&self) -> bool
        ensures { result ≡ is_at_rest (tx_round self.now) }
    {
        self.ends.settled(
            self.work.is_free(),
            self.work.leaver().is_some(),
            &Wanting { work: &self.work },
            &Loaded { work: &self.work },
        )
    }

    /// How many buffers of a pool are in its hand.
    pub fn held(&self, pool: PoolId) -> u32
        requires { IsTraffic self.now.work }
        ensures { result ≡ buffers_of pool (traffic_hand self.now.work) }
    {
        self.work.held(pool)
    }

    /// How many bad descriptors came. The count stands still at its type's end.
    pub fn bad(&self) -> u64
        ensures { result ≡ bad_count self.now.work }
    {
        self.work.bad()
    }

    // The end that is stepped now.
    fn choose(&mut self) -> VirtEnd
        requires from_clients { length (from_queues self.old.ends) < 2 ^ 32 }
        requires to_clients { length (to_queues self.old.ends) < 2 ^ 32 }
        ensures place { place_of self.old.ends result
            ≡ chosen_place (choice_of (tx_round self.old)) }
        ensures there { IsThere self.old.ends result }
        ensures after { self.new ≡ record self.old {
          ends = record self.old.ends {
            turn = record { last = last_after (choice_of (tx_round self.old)) };
          };
        } }
    {
        let free = self.work.is_free();
        let owed = self.work.leaver().is_some();
        self.ends.choose(
            free,
            owed,
            &Wanting { work: &self.work },
            &Loaded { work: &self.work },
        )
    }

    // The next call where buffers come back from the driver.
    fn step_input<W: Wires>(&mut self, wires: &mut W) -> Event
        requires { FitsTx (W.ends wires.old) self.old }
        ensures fits { FitsTx (W.ends wires.new) self.new }
        ensures own { TxEnd self.old (role_of result.op) result.queue.0 }
        ensures same { SameTx self.old self.new }
        ensures stepped { Stepped TxStandsFor W.did wires.old wires.new self.old self.new result }
        ensures posted { PostedAt (virt_posts self.old.ends) 0 (is_free self.old.work) result
            (virt_posts self.new.ends) }
        ensures still { is_mark result.op result.answer ≡ false
            → IsStill self.old.work self.new.work }
        ensures turn { self.new.ends.turn ≡ self.old.ends.turn }
    {
        let (event, got) = self
            .ends
            .step_input::<NetCargo, _>(wires, self.work.is_free());
        if let Some(entry) = got {
            self.work.take_back(entry);
        }
        event
    }

    // The next call where descriptors of the client at a place come.
    fn step_client<W: Wires>(&mut self, wires: &mut W, client: usize) -> Event
        requires fits { FitsTx (W.ends wires.old) self.old }
        requires there { client < length (from_queues self.old.ends) }
        ensures fits { FitsTx (W.ends wires.new) self.new }
        ensures own { TxEnd self.old (role_of result.op) result.queue.0 }
        ensures same { SameTx self.old self.new }
        ensures stepped { Stepped TxStandsFor W.did wires.old wires.new self.old self.new result }
        ensures posted { PostedAt (virt_posts self.old.ends) (2 + client)
            (needs_at self.old.work client) result (virt_posts self.new.ends) }
        ensures still { is_mark result.op result.answer ≡ false
            → IsStill self.old.work self.new.work }
        ensures turn { self.new.ends.turn ≡ self.old.ends.turn }
    {
        let needed = self.work.needs(client);
        let (event, got) = self
            .ends
            .step_from_client::<NetCargo, _>(wires, client, needed);
        if let Some(entry) = got {
            self.work.receive(client, entry);
        }
        event
    }

    // The next call where descriptors go to the driver.
    fn step_output<W: Wires>(&mut self, wires: &mut W) -> Event
        requires { FitsTx (W.ends wires.old) self.old }
        ensures fits { FitsTx (W.ends wires.new) self.new }
        ensures own { TxEnd self.old (role_of result.op) result.queue.0 }
        ensures same { SameTx self.old self.new }
        ensures stepped { Stepped TxStandsFor W.did wires.old wires.new self.old self.new result }
        ensures posted { PostedAt (virt_posts self.old.ends) 1 (owes self.old.work) result
            (virt_posts self.new.ends) }
        ensures still { is_mark result.op result.answer ≡ false
            → IsStill self.old.work self.new.work }
        ensures turn { self.new.ends.turn ≡ self.old.ends.turn }
    {
        match self.work.leaver() {
            Some(place) => self.work.send(&mut self.ends, wires, place),
            None => {
                let mut nothing = None;
                self.ends.step_output::<NetCargo, _>(wires, &mut nothing)
            }
        }
    }

    // The next call where descriptors and buffers go back to the client at a place.
    fn step_return<W: Wires>(&mut self, wires: &mut W, client: usize) -> Event
        requires fits { FitsTx (W.ends wires.old) self.old }
        requires there { client < length (to_queues self.old.ends) }
        ensures fits { FitsTx (W.ends wires.new) self.new }
        ensures own { TxEnd self.old (role_of result.op) result.queue.0 }
        ensures same { SameTx self.old self.new }
        ensures stepped { Stepped TxStandsFor W.did wires.old wires.new self.old self.new result }
        ensures posted { PostedAt (virt_posts self.old.ends)
            (2 + length (from_queues self.old.ends) + client) (loaded_at self.old.work client)
            result (virt_posts self.new.ends) }
        ensures still { is_mark result.op result.answer ≡ false
            → IsStill self.old.work self.new.work }
        ensures turn { self.new.ends.turn ≡ self.old.ends.turn }
    {
        if self.work.is_loaded(client) {
            self.work.give(&mut self.ends, wires, client)
        } else {
            let mut nothing = None;
            self.ends
                .step_to_client::<NetCargo, _>(wires, client, &mut nothing)
        }
    }

    // The next call at an end.
    fn step_at<W: Wires>(&mut self, wires: &mut W, at: VirtEnd) -> Event
        requires fits { FitsTx (W.ends wires.old) self.old }
        requires there { IsThere self.old.ends at }
        ensures fits { FitsTx (W.ends wires.new) self.new }
        ensures own { TxEnd self.old (role_of result.op) result.queue.0 }
        ensures same { SameTx self.old self.new }
        ensures stepped { Stepped TxStandsFor W.did wires.old wires.new self.old self.new result }
        ensures posted { PostedAt (virt_posts self.old.ends) (place_of self.old.ends at)
            (need_of (is_free self.old.work) (owes self.old.work) (needs_at self.old.work)
            (loaded_at self.old.work) at) result (virt_posts self.new.ends) }
        ensures still { is_mark result.op result.answer ≡ false
            → IsStill self.old.work self.new.work }
        ensures turn { self.new.ends.turn ≡ self.old.ends.turn }
    {
        match at {
            VirtEnd::Input => self.step_input(wires),
            VirtEnd::Output => self.step_output(wires),
            VirtEnd::FromClient(client) => self.step_client(wires, client),
            VirtEnd::ToClient(client) => self.step_return(wires, client),
        }
    }

    /// Makes one call on one of its ends.
    #[inline(never)]
    pub fn step<W: Wires>(&mut self, wires: &mut W) -> Event
        requires { FitsTx (W.ends wires.old) self.old }
        ensures fits { FitsTx (W.ends wires.new) self.new }
        ensures own { TxEnd self.old (role_of result.op) result.queue.0 }
        ensures same { SameTx self.old self.new }
        ensures stepped { Stepped TxStandsFor W.did wires.old wires.new self.old self.new result }
        ensures turned { Turned (tx_round self.old) result (tx_round self.new) }
    {
        let at = self.choose();
        self.step_at(wires, at)
    }

    /// Discards the last look of each end, and nothing else.
    pub fn forget(&mut self)
        ensures after { TxForgot self.old self.new }
        ensures same { SameTx self.old self.new }
        ensures fits { (ends : Role → ℕ → End) → FitsTx ends self.old → FitsTx ends self.new }
        ensures lists { (passed : Passed) → TxStandsFor self.old passed
            → TxStandsFor self.new passed }
    {
        self.ends.forget();
    }
}

/// Whatever it stands for meets its row.
pub fn row_law()
    ensures { (v : NetVirtTx) (passed : Passed) → TxStandsFor v passed → TxRow v passed }
{}

/// What came and did not go out is in its hand.
pub fn hand_law()
    ensures { (v : NetVirtTx) (passed : Passed) → TxStandsFor v passed → TxBalances v passed }
{}
