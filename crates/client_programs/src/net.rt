//! The programs of the network clients. A sink gives its buffers, records the frames that come in
//! them, and gives them back; a source sends the frames of its script too, and an echo answers each
//! frame that comes. The programs are this project's own; that a client has two queues each way is
//! sDDF's.

ghost use Rattle.std.specs.Prelude.{◌≡◌, ◌+◌, ◌-◌, ◌<◌, ◌≤◌, ◌^◌, [], ◌∷◌, ℕ, IfOk, OnErr, is_some};
ghost use Rattle.std.specs.Prelude.{false, length};
ghost use Rattle.cargo_core.specs.Bodies.{buffers_of};
ghost use Rattle.cargo_core.specs.Pages.{Paged};
ghost use Rattle.wire_core.specs.Ends.{role_of, Role, End};
ghost use Rattle.wire_core.specs.Lists.{Passed, Stepped, nothing_passed};
ghost use Rattle.wire_core.specs.Marks.{is_mark};
ghost use Rattle.turn_kit.specs.Turns.{Turned, Posted, choice_of, chosen_place, last_after};
ghost use Rattle.turn_kit.specs.Turns.{is_at_rest};
ghost use Rattle.turn_kit.specs.Posts.{intake_post, outlet_post};
ghost use Rattle.buffer_kit.specs.Pools.{ArePool};
ghost use Rattle.client_programs.specs.Net.Clients.{FitsClient, ClientStandsFor, ClientRow};
ghost use Rattle.client_programs.specs.Net.Clients.{ClientBalances, ClientEnd, SameClient};
ghost use Rattle.client_programs.specs.Net.Clients.{IsNewClient, client_frames, is_giving};
ghost use Rattle.client_programs.specs.Net.Clients.{needs_frame, client_round, client_hand};
ghost use Rattle.client_programs.specs.Net.Clients.{client_forgotten};
ghost use Rattle.client_programs.specs.Net.Sending.{is_sending, needs_buffer, is_through};

mod answers;
mod outbox;
mod program;

use buffer_kit::{Recorder, Stock, frame};
use cargo_core::{FrameLog, Memory, Page, PoolId};
use frame_core::Mac;
pub use outbox::Outbox;
pub use program::{ClientProgram, NetProgram};
use std::alloc::Global;
use turn_kit::{Intake, Outlet, Turn, count_held};
use wire_core::{Event, QueueId, Wires};

/// A network client. `frames` moves what comes back to the queue of free buffers, and records it;
/// `stock` has the receive buffers that it didn't give yet; `sent` and `send` are its ends for
/// sending, and `outbox` has the buffers in which it sends; `program` tells which frames it sends.
#[derive(Drop)]
pub struct NetClient {
    pub frames: Recorder,
    pub stock: Stock,
    pub sent: Intake,
    pub send: Outlet,
    pub outbox: Outbox,
    pub program: ClientProgram,
    pub turn: Turn,
}

impl NetClient {
    /// A client in its start state. `rx` and `tx` are each the queue of frames and then the queue
    /// of free buffers; the pages are its buffers for receiving and for sending, in rising number;
    /// `mac` is its own address, and `script` the frames that a source sends, each of at most
    /// 65,535 bytes.
    pub fn new(
        alloc: Global,
        program: NetProgram,
        mac: Mac,
        rx: [QueueId; 2],
        tx: [QueueId; 2],
        rx_pages: Vec<Page>,
        tx_pages: Vec<Page>,
        script: FrameLog,
    ) -> NetClient
        requires rx_pool { (pool : PoolId) × (size : ℕ) × ArePool 0 pool size rx_pages.items }
        requires tx_pool { (pool : PoolId) × (size : ℕ) × ArePool 0 pool size tx_pages.items }
        ensures new { (rx_active rx_free tx_active tx_free : QueueId) → rx
            ≡ rx_active ∷ rx_free ∷ [] → tx ≡ tx_active ∷ tx_free ∷ []
            → IsNewClient program mac rx_active rx_free tx_active tx_free rx_pages.items
            tx_pages.items script result }
        ensures stands { ClientStandsFor result nothing_passed }
    {
        let [rx_active, rx_free] = rx;
        let [tx_active, tx_free] = tx;
        NetClient {
            frames: Recorder::new(alloc, rx_active, rx_free),
            stock: Stock::new(rx_pages, 0),
            sent: Intake::new(tx_free),
            send: Outlet::new(tx_active),
            outbox: Outbox::new(tx_pages),
            program: ClientProgram {
                kind: program,
                mac,
                script,
            },
            turn: Turn::new(),
        }
    }

    /// The record of the frames that came.
    pub fn got(&self) -> &FrameLog
        ensures { result.now ≡ self.now.frames.tape.shown }
    {
        self.frames.tape.frames()
    }

    // How many frames it sends, by those that came.
    fn frame_count(&self) -> usize
        ensures { result ≡ length (client_frames self.now) }
    {
        self.program.count(self.frames.tape.frames())
    }

    // Whether it needs a frame.
    fn needs_frame(&self) -> bool
        ensures { result ≡ needs_frame self.now }
    {
        self.frames.pipe.load.is_none()
            && !(self.program.is_echo() && !self.outbox.is_through(self.frame_count()))
    }

    // Whether something is to be put to the queue of free buffers.
    fn is_giving(&self) -> bool
        ensures { result ≡ is_giving self.now }
    {
        self.stock.next.is_some() || self.frames.pipe.load.is_some()
    }

    /// Whether nothing is to be done before a notification comes.
    pub fn at_rest(&self) -> bool
        ensures { result ≡ is_at_rest (client_round self.now) }
    {
        let frames = self.frame_count();
        self.frames.pipe.input.settled(self.needs_frame())
            && self.frames.pipe.output.settled(self.is_giving())
            && self.sent.settled(self.outbox.needs_buffer(frames))
            && self.send.settled(self.outbox.is_sending(frames))
    }

    /// How many buffers of a pool are in its hand: those that it has yet to put, and those in which
    /// it sends.
    pub fn held(&self, pool: PoolId) -> u32
        requires few { length self.now.stock.rest.items
            + length self.now.outbox.stock.rest.items < 2 ^ 32 - 4 }
        ensures { result ≡ buffers_of pool (client_hand self.now) }
    {
        self.stock.held(pool) + count_held(pool, &self.frames.pipe.load) + self.outbox.held(pool)
    }

    // The end that is stepped now, in the order of frames in, buffers out, and the two of sending.
    fn choose(&mut self) -> usize
        ensures place { result ≡ chosen_place (choice_of (client_round self.old)) }
        ensures within { result < 4 }
        ensures after { self.new ≡ record self.old {
          turn = record {
            last = last_after (choice_of
                (client_round self.old));
          };
        } }
    {
        let frames = self.frame_count();
        let needing = self.needs_frame();
        let giving = self.is_giving();
        let buffer_needed = self.outbox.needs_buffer(frames);
        let sending = self.outbox.is_sending(frames);
        let input_settled = self.frames.pipe.input.settled(needing);
        let giving_settled = self.frames.pipe.output.settled(giving);
        let sent_settled = self.sent.settled(buffer_needed);
        let send_settled = self.send.settled(sending);
        let choice = self
            .turn
            .begin(4)
            .offer(0, self.frames.pipe.input.queue, input_settled)
            .offer(1, self.frames.pipe.output.queue, giving_settled)
            .offer(2, self.sent.queue, sent_settled)
            .offer(3, self.send.queue, send_settled);
        self.turn.pass(choice)
    }

    // The next call where frames come. What it takes is recorded, and its buffer is to go back.
    fn step_input<W: Wires>(&mut self, wires: &mut W) -> Event
        requires fits { FitsClient (W.ends wires.old) self.old }
        requires place { 0 < self.old.frames.tape.places }
        requires bytes { 65535 ≤ self.old.frames.tape.bytes }
        ensures fits { FitsClient (W.ends wires.new) self.new }
        ensures own { ClientEnd self.old (role_of result.op) result.queue.0 }
        ensures same { SameClient self.old self.new }
        ensures stepped { Stepped ClientStandsFor W.did wires.old wires.new
            self.old self.new result }
        ensures posted { Posted (intake_post self.old.frames.pipe.input) (needs_frame self.old)
            result (intake_post self.new.frames.pipe.input) }
        ensures still { is_mark result.op result.answer ≡ false → self.new.frames.pipe.load
            ≡ self.old.frames.pipe.load }
        ensures shown { is_mark result.op result.answer ≡ false → self.new.frames.tape.shown
            ≡ self.old.frames.tape.shown }
        ensures output { self.new.frames.pipe.output ≡ self.old.frames.pipe.output }
        ensures others { self.new ≡ record self.old { frames = self.new.frames } }
    {
        let need = self.needs_frame();
        let (event, got) = self.frames.pipe.input.step(wires, need);
        if let Some(entry) = got {
            self.frames.tape.push(frame(&entry));
            self.frames.pipe.load = Some(entry);
        }
        event
    }

    // The next call where free buffers go: first those that it gives for the first time, in rising
    // number.
    fn step_output<W: Wires>(&mut self, wires: &mut W) -> Event
        requires { FitsClient (W.ends wires.old) self.old }
        ensures fits { FitsClient (W.ends wires.new) self.new }
        ensures own { ClientEnd self.old (role_of result.op) result.queue.0 }
        ensures same { SameClient self.old self.new }
        ensures stepped { Stepped ClientStandsFor W.did wires.old wires.new
            self.old self.new result }
        ensures posted { Posted (outlet_post self.old.frames.pipe.output)
            (is_giving self.old) result (outlet_post self.new.frames.pipe.output) }
        ensures load { is_mark result.op result.answer ≡ false → self.new.frames.pipe.load
            ≡ self.old.frames.pipe.load }
        ensures next { is_mark result.op result.answer ≡ false → self.new.stock.next
            ≡ self.old.stock.next }
        ensures tape { self.new.frames.tape ≡ self.old.frames.tape }
        ensures input { self.new.frames.pipe.input ≡ self.old.frames.pipe.input }
        ensures others { self.new ≡ record self.old
            { frames = self.new.frames; stock = self.new.stock } }
    {
        if self.stock.next.is_none() {
            return self.frames.step_output(wires);
        }
        let event = self.frames.pipe.output.step(wires, &mut self.stock.next);
        if self.stock.next.is_none() {
            self.stock.refill();
        }
        event
    }

    // The next call where buffers that were sent come back. What it takes is kept for the next
    // frame.
    fn step_sent<W: Wires>(&mut self, wires: &mut W) -> Event
        requires { FitsClient (W.ends wires.old) self.old }
        ensures fits { FitsClient (W.ends wires.new) self.new }
        ensures own { ClientEnd self.old (role_of result.op) result.queue.0 }
        ensures same { SameClient self.old self.new }
        ensures stepped { Stepped ClientStandsFor W.did wires.old wires.new
            self.old self.new result }
        ensures posted { Posted (intake_post self.old.sent)
            (needs_buffer self.old.outbox (length (client_frames self.old))) result
            (intake_post self.new.sent) }
        ensures still { is_mark result.op result.answer ≡ false → self.new.outbox
            ≡ self.old.outbox }
        ensures others { self.new ≡ record self.old
            { sent = self.new.sent; outbox = self.new.outbox } }
    {
        let need = self.outbox.needs_buffer(self.frame_count());
        let (event, got) = self.sent.step(wires, need);
        if got.is_some() {
            self.outbox.stock.next = got;
        }
        event
    }

    // The next call where frames are sent, each in the next buffer that is at hand.
    fn step_send<W: Wires>(&mut self, wires: &mut W) -> Event
        requires { FitsClient (W.ends wires.old) self.old }
        ensures fits { FitsClient (W.ends wires.new) self.new }
        ensures own { ClientEnd self.old (role_of result.op) result.queue.0 }
        ensures same { SameClient self.old self.new }
        ensures stepped { Stepped ClientStandsFor W.did wires.old wires.new
            self.old self.new result }
        ensures posted { Posted (outlet_post self.old.send)
            (is_sending self.old.outbox (length (client_frames self.old))) result
            (outlet_post self.new.send) }
        ensures sending { is_mark result.op result.answer ≡ false
            → is_sending self.new.outbox (length (client_frames self.old))
            ≡ is_sending self.old.outbox (length (client_frames self.old)) }
        ensures needs { is_mark result.op result.answer ≡ false
            → needs_buffer self.new.outbox (length (client_frames self.old))
            ≡ needs_buffer self.old.outbox (length (client_frames self.old)) }
        ensures through { is_mark result.op result.answer ≡ false
            → is_through self.new.outbox (length (client_frames self.old))
            ≡ is_through self.old.outbox (length (client_frames self.old)) }
        ensures others { self.new ≡ record self.old
            { send = self.new.send; outbox = self.new.outbox } }
    {
        self.outbox
            .load_next(&self.program, self.frames.tape.frames());
        self.send.step(wires, &mut self.outbox.load)
    }

    /// Makes one call on one of its ends. The memory of the record is taken first; after want of
    /// memory no call was made and nothing changed.
    #[inline(never)]
    pub fn step<W: Wires>(&mut self, wires: &mut W) -> Result<Event, Memory>
        requires { FitsClient (W.ends wires.old) self.old }
        ensures fits { FitsClient (W.ends wires.new) self.new }
        ensures own { IfOk result (λ e. ClientEnd self.old (role_of e.op) e.queue.0) }
        ensures same { SameClient self.old self.new }
        ensures stepped { IfOk result
            (λ e. Stepped ClientStandsFor W.did wires.old wires.new self.old self.new e) }
        ensures turned { IfOk result (λ e. Turned (client_round self.old) e
            (client_round self.new)) }
        ensures no_call { OnErr result (wires.new ≡ wires.old) }
        ensures unchanged { OnErr result (self.new ≡ self.old) }
    {
        self.frames.reserve()?;
        match self.choose() {
            0 => Ok(self.step_input(wires)),
            1 => Ok(self.step_output(wires)),
            2 => Ok(self.step_sent(wires)),
            3 => Ok(self.step_send(wires)),
            _ => unreachable!(),
        }
    }

    /// Discards the last look of each end, and nothing else.
    pub fn forget(&mut self)
        ensures after { self.new ≡ client_forgotten self.old }
        ensures same { SameClient self.old self.new }
        ensures fits { (ends : Role → ℕ → End) → FitsClient ends self.old
            → FitsClient ends self.new }
        ensures lists { (passed : Passed) → ClientStandsFor self.old passed
            → ClientStandsFor self.new passed }
    {
        self.frames.pipe.forget();
        self.sent.forget();
        self.send.forget();
    }
}

/// Whatever it stands for meets its row.
pub fn row_law()
    ensures { (c : NetClient) (passed : Passed) → ClientStandsFor c passed → ClientRow c passed }
{}

/// What it had at the start and what came is what went and what is in its hand.
pub fn hand_law()
    ensures { (c : NetClient) (passed : Passed) → ClientStandsFor c passed
        → ClientBalances c passed }
{}
