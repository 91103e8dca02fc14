//! The program of the block clients: it puts the requests of its script in their order, each read
//! and write in a buffer that it has in hand, and records and keeps what comes back. The program is
//! this project's own; that a client has one queue each way is sDDF's.

ghost use Rattle.std.specs.Prelude.{◌≡◌, ◌+◌, ◌-◌, ◌<◌, ◌≤◌, ◌^◌, ◌==◌, ◌∷◌, [], ℕ, None, IfOk};
ghost use Rattle.std.specs.Prelude.{OnErr, is_none, false, length, slice_get, List};
ghost use Rattle.std.specs.Option.{option_to_list};
ghost use Rattle.cargo_core.specs.Blocks.{blk_buffer_bytes};
ghost use Rattle.cargo_core.specs.Bodies.{buffers_of};
ghost use Rattle.wire_core.specs.Ends.{role_of, Role, End};
ghost use Rattle.wire_core.specs.Lists.{Lists, Passed, Stepped, nothing_passed, with, if_there};
ghost use Rattle.wire_core.specs.Marks.{is_mark};
ghost use Rattle.turn_kit.specs.Turns.{Turned, Posted, choice_of, chosen_place, last_after};
ghost use Rattle.turn_kit.specs.Turns.{is_at_rest};
ghost use Rattle.turn_kit.specs.Posts.{intake_post, outlet_post};
ghost use Rattle.buffer_kit.specs.Pools.{ArePool};
ghost use Rattle.client_programs.specs.Blk.Asking.{IsAsking, SameAsking, reply_room};
ghost use Rattle.client_programs.specs.Blk.Clients.{BlkStands, FitsBlkClient};
ghost use Rattle.client_programs.specs.Blk.Clients.{BlkClientStandsFor, BlkClientRow};
ghost use Rattle.client_programs.specs.Blk.Clients.{BlkClientBalances, BlkClientEnd};
ghost use Rattle.client_programs.specs.Blk.Clients.{SameBlkClient, IsNewBlkClient};
ghost use Rattle.client_programs.specs.Blk.Clients.{is_asking, blk_client_round};
ghost use Rattle.client_programs.specs.Blk.Clients.{blk_client_hand, blk_client_forgotten};

use cargo_core::{Ask, Body, Item, Memory, Page, PoolId, Reply};
use std::alloc::Global;
use turn_kit::{Intake, Outlet, Turn, count_held};
use wire_core::{Event, QueueId, Wires};

mod asking;
mod keeping;

pub use asking::Asking;
pub use keeping::Keeping;

/// A block client. `asking` has what it has yet to ask, and what came back. After a response came
/// for no request, which is `stray`, it takes and puts no more.
#[derive(Drop)]
pub struct BlkClient {
    pub responses: Intake,
    pub requests: Outlet,
    pub asking: Asking,
    pub stray: Option<(Item, Body)>,
    pub turn: Turn,
}

impl BlkClient {
    /// A client in its start state: it puts its requests to `req`, and takes responses from `resp`.
    /// The pages are its buffers, in rising number, of 32,768 bytes each.
    pub fn new(
        alloc: Global,
        req: QueueId,
        resp: QueueId,
        pages: Vec<Page>,
        script: Vec<Ask>,
    ) -> BlkClient
        requires pool { (pool : PoolId) × ArePool 0 pool blk_buffer_bytes pages.items }
        requires few { length pages.items + length script.items < 2 ^ 32 - 2 }
        ensures new { IsNewBlkClient req resp pages.items script.items result }
        ensures asking { IsAsking result.asking }
        ensures stands { BlkClientStandsFor result nothing_passed }
    {
        BlkClient {
            responses: Intake::new(resp),
            requests: Outlet::new(req),
            asking: Asking::new(alloc, pages, script),
            stray: None,
            turn: Turn::new(),
        }
    }

    /// The record of the responses that came, in their order: each with its bytes, where it answers
    /// a read and the read went well.
    pub fn replies(&self) -> &[Reply]
        ensures { result.now ≡ self.now.asking.kept.shown }
    {
        self.asking.replies()
    }

    // Whether a request is to be put.
    fn is_asking(&self) -> bool
        ensures { result ≡ is_asking self.now }
    {
        self.asking.next.is_some() && self.stray.is_none()
    }

    /// Whether nothing is to be done before a notification comes.
    pub fn at_rest(&self) -> bool
        ensures { result ≡ is_at_rest (blk_client_round self.now) }
    {
        self.responses.settled(self.stray.is_none()) && self.requests.settled(self.is_asking())
    }

    /// How many buffers of a pool are in its hand.
    pub fn held(&self, pool: PoolId) -> u32
        requires few { length self.now.asking.kept.pages < 2 ^ 32 - 2 }
        ensures { result ≡ buffers_of pool (blk_client_hand self.now) }
    {
        self.asking.held(pool) + count_held(pool, &self.stray)
    }

    // The end that is stepped now, in the order of responses and requests.
    fn choose(&mut self) -> usize
        ensures place { result ≡ chosen_place (choice_of (blk_client_round self.old)) }
        ensures within { result < 2 }
        ensures after { self.new ≡ record self.old {
          turn = record {
            last = last_after (choice_of
                (blk_client_round self.old));
          };
        } }
    {
        let asking = self.is_asking();
        let settled = self.responses.settled(self.stray.is_none());
        let asking_settled = self.requests.settled(asking);
        let choice = self
            .turn
            .begin(2)
            .offer(0, self.responses.queue, settled)
            .offer(1, self.requests.queue, asking_settled);
        self.turn.pass(choice)
    }

    // A response was taken. One that is for no request strays.
    fn receive(&mut self, entry: (Item, Body))
        requires asking { IsAsking self.old.asking }
        requires free { self.old.stray ≡ None }
        requires place { 0 < self.old.asking.kept.places }
        requires bytes { reply_room (slice_get self.old.asking.script.items
            (length self.old.asking.kept.shown)) ≤ self.old.asking.kept.bytes }
        ensures asking { IsAsking self.new.asking }
        ensures same { SameAsking self.old.asking self.new.asking }
        ensures others { self.new
            ≡ record self.old { asking = self.new.asking; stray = self.new.stray } }
        ensures stands { (responses requests : ℕ) (passed : Passed) (took put : Lists)
            (calls : List Event) → ((n : ℕ) → took n ≡ if_there (responses == n) (entry ∷ []))
            → ((n : ℕ) → put n ≡ []) → BlkStands responses requests self.old.asking [] passed
            → BlkStands responses requests self.new.asking (option_to_list self.new.stray)
            (record {
              taken = with passed.taken took;
              sent = with passed.sent put;
              calls = calls;
            }) }
    {
        if self.asking.is_due() {
            self.asking.receive(entry);
        } else {
            self.stray = Some(entry);
        }
    }

    // The next call where responses come. What it takes is recorded.
    fn step_responses<W: Wires>(&mut self, wires: &mut W) -> Event
        requires fits { FitsBlkClient (W.ends wires.old) self.old }
        requires place { 0 < self.old.asking.kept.places }
        requires bytes { reply_room (slice_get self.old.asking.script.items
            (length self.old.asking.kept.shown)) ≤ self.old.asking.kept.bytes }
        ensures fits { FitsBlkClient (W.ends wires.new) self.new }
        ensures own { BlkClientEnd self.old (role_of result.op) result.queue.0 }
        ensures same { SameBlkClient self.old self.new }
        ensures stepped { Stepped BlkClientStandsFor W.did wires.old wires.new
            self.old self.new result }
        ensures posted { Posted (intake_post self.old.responses) (is_none self.old.stray) result
            (intake_post self.new.responses) }
        ensures asking { is_mark result.op result.answer ≡ false
            → self.new.asking ≡ self.old.asking }
        ensures stray { is_mark result.op result.answer ≡ false → self.new.stray ≡ self.old.stray }
        ensures requests { self.new.requests ≡ self.old.requests }
        ensures turn { self.new.turn ≡ self.old.turn }
    {
        let (event, got) = self.responses.step(wires, self.stray.is_none());
        if let Some(entry) = got {
            self.receive(entry);
        }
        event
    }

    // The next call where requests go.
    fn step_requests<W: Wires>(&mut self, wires: &mut W) -> Event
        requires { FitsBlkClient (W.ends wires.old) self.old }
        ensures fits { FitsBlkClient (W.ends wires.new) self.new }
        ensures own { BlkClientEnd self.old (role_of result.op) result.queue.0 }
        ensures same { SameBlkClient self.old self.new }
        ensures stepped { Stepped BlkClientStandsFor W.did wires.old wires.new
            self.old self.new result }
        ensures posted { Posted (outlet_post self.old.requests) (is_asking self.old) result
            (outlet_post self.new.requests) }
        ensures asking { is_mark result.op result.answer ≡ false
            → self.new.asking ≡ self.old.asking }
        ensures others { self.new
            ≡ record self.old { requests = self.new.requests; asking = self.new.asking } }
    {
        if !self.is_asking() {
            let mut nothing = None;
            return self.requests.step(wires, &mut nothing);
        }
        let event = self.requests.step(wires, &mut self.asking.next);
        if self.asking.next.is_none() {
            self.asking.go_on();
        }
        event
    }

    /// Makes one call on one of its ends. The memory of the record is taken first; after want of
    /// memory no call was made and nothing changed.
    #[inline(never)]
    pub fn step<W: Wires>(&mut self, wires: &mut W) -> Result<Event, Memory>
        requires { FitsBlkClient (W.ends wires.old) self.old }
        ensures fits { FitsBlkClient (W.ends wires.new) self.new }
        ensures own { IfOk result (λ e. BlkClientEnd self.old (role_of e.op) e.queue.0) }
        ensures same { SameBlkClient self.old self.new }
        ensures stepped { IfOk result
            (λ e. Stepped BlkClientStandsFor W.did wires.old wires.new self.old self.new e) }
        ensures turned { IfOk result (λ e. Turned (blk_client_round self.old) e
            (blk_client_round self.new)) }
        ensures no_call { OnErr result (wires.new ≡ wires.old) }
        ensures unchanged { OnErr result (self.new ≡ self.old) }
    {
        self.asking.reserve()?;
        match self.choose() {
            0 => Ok(self.step_responses(wires)),
            1 => Ok(self.step_requests(wires)),
            _ => unreachable!(),
        }
    }

    /// Discards the last look of each end, and nothing else.
    pub fn forget(&mut self)
        ensures after { self.new ≡ blk_client_forgotten self.old }
        ensures same { SameBlkClient self.old self.new }
        ensures fits { (ends : Role → ℕ → End) → FitsBlkClient ends self.old
            → FitsBlkClient ends self.new }
        ensures lists { (passed : Passed) → BlkClientStandsFor self.old passed
            → BlkClientStandsFor self.new passed }
    {
        self.responses.forget();
        self.requests.forget();
    }
}

/// Whatever it stands for meets its row.
pub fn row_law()
    ensures { (c : BlkClient) (passed : Passed) → BlkClientStandsFor c passed
        → BlkClientRow c passed }
{}

/// What it had at the start and what came is what went and what is in its hand.
pub fn hand_law()
    ensures { (c : BlkClient) (passed : Passed) → BlkClientStandsFor c passed
        → BlkClientBalances c passed }
{}
