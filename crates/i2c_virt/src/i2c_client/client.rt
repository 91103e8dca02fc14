//! The program of a client of the bus. It is this project's own; that a client has one queue each
//! way is sDDF's.
ghost use Rattle.std.specs.Prelude.{◌≡◌, ◌<◌, ◌≤◌, ◌^◌, ◌==◌, ◌∷◌, [], ℕ, None, IfOk, OnOk};
ghost use Rattle.std.specs.Prelude.{OnErr, false, is_none, length};
ghost use Rattle.wire_core.specs.Lists.{Passed, Stepped, nothing_passed};
ghost use Rattle.wire_core.specs.Marks.{is_mark};
ghost use Rattle.turn_kit.specs.Turns.{Turned, Posted, choice_of, chosen_place, last_after};
ghost use Rattle.turn_kit.specs.Turns.{is_at_rest};
ghost use Rattle.turn_kit.specs.Posts.{intake_post, outlet_post};
ghost use Rattle.i2c_virt.specs.declared.i2c_kit.page.TheConstants.{MOST_BYTES};
ghost use Rattle.i2c_virt.specs.declared.i2c_client.client.BusClient.{BusClient};
ghost use Rattle.i2c_virt.specs.I2cClient.Asking.{IsAsking, SameAsking, AreRequests, is_due, AskingStands};
ghost use Rattle.i2c_virt.specs.I2cClient.Clients.{FitsClient, ClientStandsFor, ClientRow, SameClient};
ghost use Rattle.i2c_virt.specs.I2cClient.Clients.{IsNewClient, is_asking, client_round, Received};

use crate::i2c_client::Asking;
use cargo_core::{Body, Item, Memory, PoolId, Series};
use i2c_text::{BusAsk, BusReply};
use std::alloc::Global;
use turn_kit::{Intake, Lowest, Outlet, Turn, pull, push};
use wire_core::{Event, QueueId, Wires};

/// A client of the bus. `asking` has what it has yet to ask, and what came of the rest. After an
/// entry came out of turn, which is `stray`, it takes and puts no more.
#[derive(Drop)]
pub struct BusClient {
    pub responses: Intake,
    pub requests: Outlet,
    pub asking: Asking,
    pub stray: Option<(Item, Body)>,
    pub turn: Turn,
}

impl BusClient {
    /// A client in its start state: it puts its requests to `req`, and takes their replies from
    /// `resp`. Its buffers are made here; their pool is `pool`.
    pub fn new(
        alloc: Global,
        req: QueueId,
        resp: QueueId,
        pool: PoolId,
        script: Series<BusAsk>,
    ) -> Result<BusClient, Memory>
        requires good { AreRequests script }
        requires few { length script < 2 ^ 32 }
        ensures new { IfOk result (λ c. IsNewClient req resp pool script c) }
        ensures asking { IfOk result (λ c. IsAsking c.asking) }
        ensures stands { IfOk result (λ c. ClientStandsFor c nothing_passed) }
    {
        Ok(BusClient {
            responses: Intake::new(resp),
            requests: Outlet::new(req),
            asking: Asking::new(alloc, pool, script)?,
            stray: None,
            turn: Turn::new(),
        })
    }

    /// The replies that came, in their order.
    pub fn replies(&self) -> &[BusReply]
        ensures { result.now ≡ self.now.asking.replies.shown }
    {
        self.asking.replies()
    }

    // Whether a request is to be put.
    fn is_asking(&self) -> bool
        ensures { result ≡ is_asking self.now }
    {
        self.asking.load.is_some() && self.stray.is_none()
    }

    /// Whether nothing is to be done before a notification comes.
    pub fn at_rest(&self) -> bool
        ensures { result ≡ is_at_rest (client_round self.now) }
    {
        self.responses.settled(self.stray.is_none()) && self.requests.settled(self.is_asking())
    }

    // The end that is stepped now, in the order of responses and requests. The rotation is asked
    // only where both are settled.
    fn choose(&mut self) -> usize
        ensures place { result ≡ chosen_place (choice_of (client_round self.old)) }
        ensures within { result < 2 }
        ensures after { self.new ≡ record self.old {
          turn = record { last = last_after (choice_of (client_round self.old)) };
        } }
    {
        let asking = self.is_asking();
        let responses = self.responses.settled(self.stray.is_none());
        let requests = self.requests.settled(asking);
        let lowest = Lowest::none()
            .unless_settled(0, self.responses.queue, responses)
            .unless_settled(1, self.requests.queue, requests);
        if let Some(end) = lowest.stand() {
            return end.place;
        }
        let choice = self
            .turn
            .begin(2)
            .offer(0, self.responses.queue, responses)
            .offer(1, self.requests.queue, requests);
        self.turn.pass(choice)
    }

    // A response was taken. One out of turn is kept where it is.
    fn receive(&mut self, entry: (Item, Body))
        requires asking { IsAsking self.old.asking }
        requires place { 0 < self.old.asking.replies.places }
        requires bytes { MOST_BYTES ≤ self.old.asking.replies.bytes }
        ensures asking { IsAsking self.new.asking }
        ensures same { SameAsking self.old.asking self.new.asking }
        ensures others { self.new
            ≡ record self.old { asking = self.new.asking; stray = self.new.stray } }
        ensures received { Received self.old entry self.new }
    {
        if self.asking.is_due(&entry) {
            self.asking.receive(entry);
        } else {
            self.stray = Some(entry);
        }
    }

    // The next call where responses come. What it takes is recorded.
    fn step_responses<W: Wires>(&mut self, wires: &mut W, event: &mut Event)
        requires fits { FitsClient (W.ends wires.old) self.old }
        requires place { 0 < self.old.asking.replies.places }
        requires bytes { MOST_BYTES ≤ self.old.asking.replies.bytes }
        ensures fits { FitsClient (W.ends wires.new) self.new }
        ensures same { SameClient self.old self.new }
        ensures stepped { Stepped ClientStandsFor W.did wires.old wires.new self.old self.new
            event.new }
        ensures posted { Posted (intake_post self.old.responses) (is_none self.old.stray) event.new
            (intake_post self.new.responses) }
        ensures asking { is_mark event.new.op event.new.answer ≡ false
            → self.new.asking ≡ self.old.asking }
        ensures stray { is_mark event.new.op event.new.answer ≡ false
            → self.new.stray ≡ self.old.stray }
        ensures requests { self.new.requests ≡ self.old.requests }
        ensures turn { self.new.turn ≡ self.old.turn }
    {
        let mut got = None;
        pull(
            &mut self.responses,
            wires,
            self.stray.is_none(),
            &mut got,
            event,
        );
        if let Some(entry) = got {
            self.receive(entry);
        }
    }

    // The next call where requests go.
    fn step_requests<W: Wires>(&mut self, wires: &mut W, event: &mut Event)
        requires { FitsClient (W.ends wires.old) self.old }
        ensures fits { FitsClient (W.ends wires.new) self.new }
        ensures same { SameClient self.old self.new }
        ensures stepped { Stepped ClientStandsFor W.did wires.old wires.new self.old self.new
            event.new }
        ensures posted { Posted (outlet_post self.old.requests) (is_asking self.old) event.new
            (outlet_post self.new.requests) }
        ensures asking { is_mark event.new.op event.new.answer ≡ false
            → self.new.asking ≡ self.old.asking }
        ensures others { self.new
            ≡ record self.old { requests = self.new.requests; asking = self.new.asking } }
    {
        if !self.is_asking() {
            let mut nothing = None;
            push(&mut self.requests, wires, &mut nothing, event);
            return;
        }
        push(&mut self.requests, wires, &mut self.asking.load, event);
        if self.asking.load.is_none() {
            self.asking.go_on();
        }
    }

    /// Makes one call on one of its ends, which `event` tells then. The memory of the next reply is
    /// taken first; after want of memory no call was made and nothing changed.
    pub fn step<W: Wires>(&mut self, wires: &mut W, event: &mut Event) -> Result<(), Memory>
        requires { FitsClient (W.ends wires.old) self.old }
        ensures fits { FitsClient (W.ends wires.new) self.new }
        ensures same { SameClient self.old self.new }
        ensures stepped { OnOk result (Stepped ClientStandsFor W.did wires.old wires.new
            self.old self.new event.new) }
        ensures turned { OnOk result (Turned (client_round self.old) event.new
            (client_round self.new)) }
        ensures no_call { OnErr result (wires.new ≡ wires.old) }
        ensures unchanged { OnErr result (self.new ≡ self.old) }
    {
        self.asking.reserve()?;
        match self.choose() {
            0 => self.step_responses(wires, event),
            1 => self.step_requests(wires, event),
            _ => unreachable!(),
        }
        Ok(())
    }
}

/// Whatever it stands for meets its row.
pub fn client_law()
    ensures { (c : BusClient) (passed : Passed) → ClientStandsFor c passed → ClientRow
        c.asking.pool c.asking.script c.requests.queue.0 c.responses.queue.0
        c.asking.replies.shown passed }
{}
