//! What a block client has yet to ask, and how it asks it.
ghost use Rattle.std.specs.Prelude.{◌≡◌, ◌-◌, ◌+◌, ◌*◌, ◌<◌, ◌≤◌, ◌^◌, ◌∷◌, ◌++◌, ℕ, [], List};
ghost use Rattle.std.specs.Prelude.{None, Some, OnOk, OnErr, nat_lt, length, slice_get};
ghost use Rattle.std.specs.Option.{ForSome, option_to_list};
ghost use Rattle.cargo_core.specs.Blocks.{blk_buffer_bytes};
ghost use Rattle.cargo_core.specs.Bodies.{buffers_of};
ghost use Rattle.cargo_core.specs.declared.item.Ask.{Ask};
ghost use Rattle.cargo_core.specs.declared.item.QueueKind.TheVariants as Kind;
ghost use Rattle.cargo_core.specs.Items.{kind_of};
ghost use Rattle.cargo_core.specs.Pages.{Paged};
ghost use Rattle.wire_core.specs.Deeds.{Cargo};
ghost use Rattle.buffer_kit.specs.Conserving.{Count, weight, counted, weighed};
ghost use Rattle.buffer_kit.specs.Pools.{ArePool, page_bodies};
ghost use Rattle.client_programs.specs.Blk.Asking.{IsAsking, IsHoard, AskingStands};
ghost use Rattle.client_programs.specs.Blk.Asking.{SameAsking, needs_buffer, request_for};
ghost use Rattle.client_programs.specs.Blk.Asking.{page_for, asked_in, asked_bare};
ghost use Rattle.client_programs.specs.Blk.Asking.{asked_from, made, response_of};
ghost use Rattle.client_programs.specs.Blk.Asking.{read_blocks, came_blocks, read_bytes};
ghost use Rattle.client_programs.specs.Blk.Asking.{reply_room, asking_hand};

use crate::blk::Keeping;
use cargo_core::{
    Ask, BLK_BUFFER_BYTES, BLOCK_BYTES, BlkReq, BlkResp, BlkStatus, Body, Bytes, Code, Item,
    Memory, Page, PoolId, Reply,
};
use std::alloc::Global;
use turn_kit::count_held;

/// What a client asks. `sent` counts the requests that were put; `next` is the request that is put
/// next, which is ready where one can be put; `kept` has the replies and the buffers in hand. At
/// the start these were the buffers of `pool`, as many as `buffers`.
#[derive(Drop)]
pub struct Asking {
    pub script: Vec<Ask>,
    pub sent: u32,
    pub next: Option<(Item, Body)>,
    pub kept: Keeping,
    pub pool: PoolId,
    pub buffers: u32,
}

// The pool of some buffers. Where there is none, any pool will do.
fn pool_of(pages: &[Page]) -> PoolId
    ensures { (pool : PoolId) → ArePool 0 pool blk_buffer_bytes pages.now
        → ArePool 0 result blk_buffer_bytes pages.now }
{
    match pages.first() {
        Some(page) => page.pool(),
        None => PoolId(0),
    }
}

// Whether a request needs a buffer.
fn needs_buffer(code: Code) -> bool
    ensures { result ≡ needs_buffer code }
{
    match code {
        Code::Read | Code::Write => true,
        Code::Flush | Code::Barrier => false,
    }
}

// The request for what is asked, with its number, at the buffer of an address.
fn request_for(ask: &Ask, id: u32, addr: u64) -> Item
    ensures { result ≡ request_for ask.now id addr }
{
    Item::Req(BlkReq {
        addr,
        block: ask.block,
        id,
        count: ask.count,
        code: ask.code,
    })
}

// A buffer as a request takes it: that of a write holds its bytes, where it is long enough.
fn page_for(code: Code, fill: &Bytes, mut page: Page) -> Page
    ensures { result ≡ page_for code fill.now page }
{
    if code == Code::Write && fill.len() <= page.bytes().len() {
        page.fill(0, fill.as_slice());
    }
    page
}

// What is asked, in a buffer.
fn asked_in(ask: &Ask, id: u32, page: Page) -> (Item, Body)
    ensures { result ≡ asked_in ask.now id page }
{
    let item = request_for(ask, id, page.no() as u64 * BLK_BUFFER_BYTES as u64);
    (item, Body::Page(page_for(ask.code, &ask.fill, page)))
}

// The response that an item is.
fn response_of(item: Item) -> BlkResp
    ensures { result ≡ response_of item }
{
    match item {
        Item::Resp(resp) => resp,
        _ => BlkResp {
            status: BlkStatus::Invalid,
            count: 0,
            id: 0,
        },
    }
}

// How many blocks a read asks for.
fn read_blocks(ask: &Ask) -> u16
    ensures { result ≡ read_blocks ask.now.code ask.now.count }
{
    match ask.code {
        Code::Read => ask.count,
        _ => 0,
    }
}

// How many blocks came, by what a response says.
fn came_blocks(resp: &BlkResp) -> u16
    ensures { result ≡ came_blocks resp.now.status resp.now.count }
{
    match resp.status {
        BlkStatus::Ok => resp.count,
        _ => 0,
    }
}

// The request for what is asked next, where it can be put. A read or a write takes the buffer that
// is used next.
fn next_request(ask: &Ask, id: u32, kept: &mut Keeping) -> Option<(Item, Body)>
    ensures some { (c : Cargo) → result ≡ Some c → (asks : List Ask) (more : List Paged)
        → asked_from id (ask.now ∷ asks) (kept.old.pages ++ more)
        ≡ c ∷ asked_from (id + 1) asks (kept.new.pages ++ more) }
    ensures none { result ≡ None → kept.new.pages ≡ kept.old.pages }
    ensures ready { result ≡ None → (asks : List Ask)
        → asked_from id (ask.now ∷ asks) kept.old.pages ≡ [] }
    ensures kind { ForSome result (λ c. kind_of c.0 ≡ Kind.Req) }
    ensures shown { kept.new.shown ≡ kept.old.shown }
    ensures fewer { length kept.new.pages ≤ length kept.old.pages }
    ensures held { (f : Count) → counted f (page_bodies kept.old.pages)
        ≡ weighed f (option_to_list result) + counted f (page_bodies kept.new.pages) }
{
    if !needs_buffer(ask.code) {
        return Some((request_for(ask, id, 0), Body::Empty));
    }
    match kept.next_page() {
        Some(page) => Some(asked_in(ask, id, page)),
        None => None,
    }
}

impl Asking {
    /// Nothing asked yet: the script's first request is ready, where it can be put. The pages are
    /// the client's buffers, in rising number. It takes no memory.
    pub fn new(alloc: Global, pages: Vec<Page>, script: Vec<Ask>) -> Asking
        requires pool { (pool : PoolId) × ArePool 0 pool blk_buffer_bytes pages.items }
        requires few { length pages.items + length script.items < 2 ^ 32 - 2 }
        ensures script { result.script ≡ script }
        ensures asking { IsAsking result }
        ensures hoard { IsHoard result pages.items }
        ensures stands { AskingStands result pages.items [] [] }
        ensures held { (f : Count) → counted f (asking_hand result)
            ≡ counted f (page_bodies pages.items) }
    {
        let pool = pool_of(&pages);
        let buffers = pages.len() as u32;
        let mut asking = Asking {
            script,
            sent: 0,
            next: None,
            kept: Keeping::new(alloc, pages),
            pool,
            buffers,
        };
        asking.prepare();
        asking
    }

    /// The replies, in their order.
    pub fn replies(&self) -> &[Reply]
        ensures { result.now ≡ self.now.kept.shown }
    {
        self.kept.replies()
    }

    /// How many buffers of a pool are in its hand.
    pub fn held(&self, pool: PoolId) -> u32
        requires few { length self.now.kept.pages < 2 ^ 32 - 1 }
        ensures held { result ≡ buffers_of pool (asking_hand self.now) }
        ensures many { result ≤ 1 + length self.now.kept.pages }
    {
        count_held(pool, &self.next) + self.kept.held(pool)
    }

    /// Whether a response is due: one for a request that was put.
    pub fn is_due(&self) -> bool
        ensures { result ≡ nat_lt (length self.now.kept.shown) self.now.sent }
    {
        self.kept.len() < self.sent as usize
    }

    // Makes the next request ready, where none is and one can be put.
    fn prepare(&mut self)
        requires few { length self.old.script.items < 2 ^ 32 }
        requires within { made self.old ≤ length self.old.script.items }
        requires kind { ForSome self.old.next (λ c. kind_of c.0 ≡ Kind.Req) }
        requires answered { length self.old.kept.shown ≤ self.old.sent }
        requires hold { length self.old.kept.pages
            ≤ self.old.buffers + length self.old.kept.shown }
        requires room { self.old.buffers + length self.old.script.items < 2 ^ 32 - 2 }
        ensures asking { IsAsking self.new }
        ensures same { SameAsking self.old self.new }
        ensures stands { (start : List Paged) (came put : List Cargo)
            → AskingStands self.old start came put → AskingStands self.new start came put }
        ensures held { (f : Count) → counted f (asking_hand self.new)
            ≡ counted f (asking_hand self.old) }
    {
        if self.next.is_some() {
            return;
        }
        if let Some(ask) = self.script.get(self.sent as usize) {
            self.next = next_request(ask, self.sent, &mut self.kept);
        }
    }

    // How many bytes of a buffer are recorded with a response.
    fn read_bytes(&self, resp: &BlkResp) -> usize
        ensures bytes { (a : Ask)
            → slice_get self.now.script.items (length self.now.kept.shown) ≡ Some a
            → result ≡ read_bytes a resp.now }
        ensures room { result ≤ reply_room (slice_get self.now.script.items
            (length self.now.kept.shown)) }
    {
        match self.script.get(self.kept.len()) {
            Some(ask) => read_blocks(ask).min(came_blocks(resp)) as usize * BLOCK_BYTES,
            None => 0,
        }
    }

    /// Takes the memory of one reply more, and of its buffer. After want of memory nothing changed.
    pub fn reserve(&mut self) -> Result<(), Memory>
        ensures others { self.new ≡ record self.old { kept = self.new.kept } }
        ensures shown { self.new.kept.shown ≡ self.old.kept.shown }
        ensures pages { self.new.kept.pages ≡ self.old.kept.pages }
        ensures place { OnOk result (0 < self.new.kept.places) }
        ensures bytes { OnOk result (reply_room (slice_get self.old.script.items
            (length self.old.kept.shown)) ≤ self.new.kept.bytes) }
        ensures err { OnErr result (self.new ≡ self.old) }
    {
        let len = match self.script.get(self.kept.len()) {
            Some(ask) => read_blocks(ask) as usize * BLOCK_BYTES,
            None => 0,
        };
        self.kept.reserve(len)
    }

    /// A response came that was due: it is recorded, into memory that was taken before, and its
    /// buffer is kept.
    pub fn receive(&mut self, entry: (Item, Body))
        requires asking { IsAsking self.old }
        requires due { length self.old.kept.shown < self.old.sent }
        requires place { 0 < self.old.kept.places }
        requires bytes { reply_room (slice_get self.old.script.items (length self.old.kept.shown))
            ≤ self.old.kept.bytes }
        ensures asking { IsAsking self.new }
        ensures same { SameAsking self.old self.new }
        ensures stands { (start : List Paged) (came put : List Cargo)
            → AskingStands self.old start came put
            → AskingStands self.new start (came ++ entry ∷ []) put }
        ensures held { (f : Count) → counted f (asking_hand self.new)
            ≡ counted f (asking_hand self.old) + weight f entry.1 }
    {
        let (item, body) = entry;
        let resp = response_of(item);
        let len = self.read_bytes(&resp);
        self.kept.keep(resp, body, len);
        self.prepare();
    }

    /// The next request was put.
    pub fn go_on(&mut self)
        requires few { length self.old.script.items < 2 ^ 32 }
        requires within { self.old.sent < length self.old.script.items }
        requires none { self.old.next ≡ None }
        requires answered { length self.old.kept.shown ≤ self.old.sent }
        requires hold { length self.old.kept.pages
            ≤ self.old.buffers + length self.old.kept.shown }
        requires room { self.old.buffers + length self.old.script.items < 2 ^ 32 - 2 }
        ensures asking { IsAsking self.new }
        ensures same { SameAsking self.old self.new }
        ensures stands { (start : List Paged) (came put : List Cargo) (c : Cargo)
            → AskingStands (record self.old { next = Some c }) start came put
            → AskingStands self.new start came (put ++ c ∷ []) }
        ensures held { (f : Count) → counted f (asking_hand self.new)
            ≡ counted f (asking_hand self.old) }
    {
        self.sent += 1;
        self.prepare();
    }
}
