//! What a client has yet to ask, and what came of what it asked.
ghost use Rattle.std.specs.Prelude.{◌≡◌, ◌+◌, ◌<◌, ◌≤◌, ◌^◌, ◌&&◌, ◌∷◌, ◌++◌, ℕ, [], List, Some};
ghost use Rattle.std.specs.Prelude.{None, true, is_some, IfOk, OnOk, OnErr, length, slice_get};
ghost use Rattle.std.specs.Option.{option_to_list};
ghost use Rattle.cargo_core.specs.declared.item.QueueKind.TheVariants as Kind;
ghost use Rattle.cargo_core.specs.Items.{kind_of};
ghost use Rattle.wire_core.specs.Deeds.{Cargo};
ghost use Rattle.i2c_text.specs.declared.bus.BusAsk.{BusAsk};
ghost use Rattle.i2c_virt.specs.declared.i2c_kit.page.TheConstants.{BUFFER_BYTES, MOST_BYTES};
ghost use Rattle.i2c_virt.specs.I2cKit.Pages.{is_request, status_in, reply_in};
ghost use Rattle.i2c_virt.specs.I2cClient.Hands.{IsBuffer};
ghost use Rattle.i2c_virt.specs.I2cClient.Asking.{buffer_of, is_reply, is_due, IsAsked, AreRequests};
ghost use Rattle.i2c_virt.specs.I2cClient.Asking.{IsMade, IsAsking, AskingStands, SameAsking, IsNewAsking};

use crate::i2c_client::{Hand, Replies};
use crate::i2c_kit::{
    BUFFERS, DATA, MOST_BYTES, bytes_due, is_reply_in, item_at, own_place, read_status,
    write_request,
};
use cargo_core::{Body, Item, Memory, Page, PoolId, Series};
use i2c_text::{BusAsk, BusReply};
use std::alloc::Global;

/// What a client asks. `sent` counts the requests that were put; `load` is the request that is put
/// next, which is ready where one can be put; `hand` has the buffers in hand, which are of `pool`;
/// and `replies` the replies that came.
#[derive(Drop)]
pub struct Asking {
    pub pool: PoolId,
    pub script: Series<BusAsk>,
    pub sent: usize,
    pub load: Option<(Item, Body)>,
    pub hand: Hand,
    pub replies: Replies,
}

// The number of the buffer of a request.
fn buffer_of(request: usize) -> u32
    ensures { result ≡ buffer_of request }
{
    (request % BUFFERS) as u32
}

// A request in a buffer.
fn asked_in(ask: &BusAsk, mut page: Page) -> (Item, Body)
    requires size { length page.bytes ≡ BUFFER_BYTES }
    requires good { is_request ask.now ≡ true }
    ensures asked { (k : ℕ) → page.no ≡ buffer_of k → IsAsked page.pool k ask.now result }
    ensures kind { kind_of result.0 ≡ Kind.Net }
{
    write_request(&mut page, ask);
    let item = item_at(own_place(page.no()));
    (item, Body::Page(page))
}

// Records the reply to a request that a page spells, into memory that was taken before.
#[tactic(auto, unfolding(crate::specs::I2cKit::Pages::reply_in))]
fn keep_reply(replies: &mut Replies, ask: &BusAsk, page: &[u8])
    requires spelled { is_some (status_in page.now) ≡ true }
    requires good { is_request ask.now ≡ true }
    requires place { 0 < replies.old.places }
    requires bytes { MOST_BYTES ≤ replies.old.bytes }
    ensures { replies.new.shown
        ≡ replies.old.shown ++ option_to_list (reply_in ask.now page.now) }
{
    match read_status(page) {
        None => unreachable!(),
        Some(status) => {
            let due = bytes_due(status, ask);
            replies.push(status, &page[DATA..DATA + due]);
        }
    }
}

impl Asking {
    /// Nothing asked yet: the script's first request is ready, if there is one.
    pub fn new(alloc: Global, pool: PoolId, script: Series<BusAsk>) -> Result<Asking, Memory>
        requires good { AreRequests script }
        requires few { length script < 2 ^ 32 }
        ensures new { IfOk result (λ w. IsNewAsking pool script w) }
        ensures asking { IfOk result IsAsking }
        ensures stands { IfOk result (λ w. AskingStands w [] []) }
    {
        let mut asking = Asking {
            pool,
            script,
            sent: 0,
            load: None,
            hand: Hand::new(alloc, pool)?,
            replies: Replies::new(alloc),
        };
        asking.prepare();
        Ok(asking)
    }

    /// The replies, in their order.
    pub fn replies(&self) -> &[BusReply]
        ensures { result.now ≡ self.now.replies.shown }
    {
        self.replies.as_slice()
    }

    /// Whether an entry is the reply that is due: some request isn't answered, and it answers the
    /// first of them in its buffer.
    pub fn is_due(&self, entry: &(Item, Body)) -> bool
        ensures { result ≡ is_due self.now entry.now }
    {
        let next = self.replies.len();
        let number = buffer_of(next);
        next < self.sent && is_reply_in(self.pool, number, own_place(number), entry)
    }

    // Makes the next request ready, where none is and one can be put.
    fn prepare(&mut self)
        requires made { IsMade self.old }
        ensures asking { IsAsking self.new }
        ensures same { SameAsking self.old self.new }
        ensures sent { self.new.sent ≡ self.old.sent }
        ensures replies { self.new.replies ≡ self.old.replies }
        ensures stands { (came put : List Cargo) → AskingStands self.old came put
            → AskingStands self.new came put }
    {
        if self.load.is_some() {
            return;
        }
        if self.sent < self.script.len() {
            if let Some(page) = self.hand.pop() {
                self.load = Some(asked_in(self.script.get(self.sent), page));
            }
        }
    }

    /// Takes the memory of one reply more. After want of memory nothing changed.
    pub fn reserve(&mut self) -> Result<(), Memory>
        ensures others { self.new ≡ record self.old { replies = self.new.replies } }
        ensures shown { self.new.replies.shown ≡ self.old.replies.shown }
        ensures place { OnOk result (0 < self.new.replies.places) }
        ensures bytes { OnOk result (MOST_BYTES ≤ self.new.replies.bytes) }
        ensures err { OnErr result (self.new ≡ self.old) }
    {
        self.replies.reserve(MOST_BYTES)
    }

    /// The reply that is due came: it is recorded, into memory that was taken before, and its
    /// buffer is in hand again.
    #[tactic(auto, unfolding(crate::specs::I2cKit::Entries::is_reply_in))]
    pub fn receive(&mut self, entry: (Item, Body))
        requires asking { IsAsking self.old }
        requires due { is_due self.old entry ≡ true }
        requires place { 0 < self.old.replies.places }
        requires bytes { MOST_BYTES ≤ self.old.replies.bytes }
        ensures asking { IsAsking self.new }
        ensures same { SameAsking self.old self.new }
        ensures stands { (came put : List Cargo) → AskingStands self.old came put
            → AskingStands self.new (came ++ entry ∷ []) put }
    {
        let (_, body) = entry;
        match body {
            Body::Page(page) => {
                let ask = self.script.get(self.replies.len());
                keep_reply(&mut self.replies, ask, page.bytes());
                self.hand.push(page);
                self.prepare();
            }
            Body::Empty | Body::Lease(_) => unreachable!(),
        }
    }

    /// The request that was ready was put.
    pub fn go_on(&mut self)
        requires { IsMade (record self.old { sent = self.old.sent + 1 }) }
        ensures asking { IsAsking self.new }
        ensures same { SameAsking self.old self.new }
        ensures stands { (came put : List Cargo)
            → AskingStands (record self.old { sent = self.old.sent + 1 }) came put
            → AskingStands self.new came put }
    {
        self.sent += 1;
        self.prepare();
    }
}
