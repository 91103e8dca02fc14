//! The sending side of a network client: the buffers in which it sends.
ghost use Rattle.std.specs.Prelude.{◌≡◌, ◌+◌, ◌-◌, ◌<◌, ◌≤◌, ◌^◌, ℕ, List, [], All, length};
ghost use Rattle.std.specs.Prelude.{is_some};
ghost use Rattle.cargo_core.specs.Bodies.{buffers_of};
ghost use Rattle.wire_core.specs.Deeds.{Cargo};
ghost use Rattle.buffer_kit.specs.Pools.{ArePool};
ghost use Rattle.buffer_kit.specs.Stocks.{SameStock};
ghost use Rattle.client_programs.specs.Net.Programs.{frames_out};
ghost use Rattle.client_programs.specs.Net.Sending.{FitsOutbox, OutboxStandsFor};
ghost use Rattle.client_programs.specs.Net.Sending.{IsNewOutbox, outbox_hand, is_sending};
ghost use Rattle.client_programs.specs.Net.Sending.{needs_buffer, is_through};

use crate::net::ClientProgram;
use buffer_kit::Stock;
use cargo_core::{Body, FrameLog, Item, Page, PoolId};
use turn_kit::count_held;

/// The buffers in which a client sends: `stock` has those that it keeps for later, `load` the one
/// that is filled and is put next. With the first `next` of its frames it has filled a buffer.
#[derive(Drop)]
pub struct Outbox {
    pub stock: Stock,
    pub load: Option<(Item, Body)>,
    pub next: usize,
}

impl Outbox {
    /// All buffers of a pool, none of them filled. It takes no memory.
    pub fn new(pages: Vec<Page>) -> Outbox
        requires { (pool : PoolId) × (size : ℕ) × ArePool 0 pool size pages.items }
        ensures new { IsNewOutbox pages.items result }
        ensures fits { (frames : List (List ℕ)) → FitsOutbox result frames }
        ensures stands { (frames : List (List ℕ)) → OutboxStandsFor result frames [] [] }
    {
        Outbox {
            stock: Stock::new(pages, 0),
            load: None,
            next: 0,
        }
    }

    /// Whether something is to be put, of so many frames that are sent.
    pub fn is_sending(&self, frames: usize) -> bool
        ensures { result ≡ is_sending self.now frames }
    {
        self.load.is_some() || self.stock.next.is_some() && self.next < frames
    }

    /// Whether a frame is to be sent and no buffer is in its hand.
    pub fn needs_buffer(&self, frames: usize) -> bool
        ensures { result ≡ needs_buffer self.now frames }
    {
        self.load.is_none() && self.stock.next.is_none() && self.next < frames
    }

    /// Whether all frames were put.
    pub fn is_through(&self, frames: usize) -> bool
        ensures { result ≡ is_through self.now frames }
    {
        self.load.is_none() && self.next >= frames
    }

    /// How many buffers of a pool it has.
    pub fn held(&self, pool: PoolId) -> u32
        requires few { length self.now.stock.rest.items < 2 ^ 32 - 2 }
        ensures held { result ≡ buffers_of pool (outbox_hand self.now) }
        ensures few { result ≤ 2 + length self.now.stock.rest.items }
    {
        count_held(pool, &self.load) + self.stock.held(pool)
    }

    /// Fills the next buffer with the next frame, where one is to be sent and none is filled yet.
    /// `came` are the frames that came to the client.
    pub fn load_next(&mut self, program: &ClientProgram, came: &FrameLog)
        requires fits { FitsOutbox self.old (frames_out program.now came.now) }
        requires script { All (λ frame. length frame < 2 ^ 16) program.now.script }
        requires came { All (λ frame. length frame < 2 ^ 16) came.now }
        ensures fits { FitsOutbox self.new (frames_out program.now came.now) }
        ensures same { SameStock self.old.stock self.new.stock }
        ensures few { length self.new.stock.rest.items ≤ length self.old.stock.rest.items }
        ensures loaded { is_some self.new.load
            ≡ is_sending self.old (length (frames_out program.now came.now)) }
        ensures kept { (back put : List Cargo)
            → OutboxStandsFor self.old (frames_out program.now came.now) back put
            → OutboxStandsFor self.new (frames_out program.now came.now) back put }
        ensures sending { is_sending self.new (length (frames_out program.now came.now))
            ≡ is_sending self.old (length (frames_out program.now came.now)) }
        ensures needs { needs_buffer self.new (length (frames_out program.now came.now))
            ≡ needs_buffer self.old (length (frames_out program.now came.now)) }
        ensures through { is_through self.new (length (frames_out program.now came.now))
            ≡ is_through self.old (length (frames_out program.now came.now)) }
    {
        if self.load.is_some() || program.count(came) <= self.next {
            return;
        }
        if let Some(entry) = self.stock.next.take() {
            self.load = Some(program.fill(came, self.next, entry));
            self.next += 1;
            self.stock.refill();
        }
    }
}
