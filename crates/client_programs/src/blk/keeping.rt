//! What a block client keeps of the responses that came: the replies, which are recorded, and the
//! buffers, which are used again.
ghost use Rattle.std.specs.Prelude.{◌≡◌, ◌<◌, ◌≤◌, ◌+◌, ◌^◌, ◌∷◌, ◌++◌, [], None, OnOk, OnErr};
ghost use Rattle.std.specs.Prelude.{length, map, min, reverse, vec_len, vec_capacity};
ghost use Rattle.std.specs.Option.{option_to_list};
ghost use Rattle.cargo_core.specs.Bodies.{buffers_of};
ghost use Rattle.buffer_kit.specs.Entries.{first_bytes};
ghost use Rattle.buffer_kit.specs.Pools.{page_bodies};
ghost use Rattle.client_programs.specs.Blk.Asking.{page_in};
ghost use Rattle.client_programs.specs.Blk.Kept.{Kept};

use buffer_kit::pages_of;
use cargo_core::{BlkResp, Body, Bytes, Memory, Page, PoolId, Reply};
use std::alloc::Global;
use std::marker::Model;
use std::mem;

/// The replies that were recorded, and the buffers in hand. The memory of the next reply and of its
/// buffer can be taken beforehand, so that a step which records can do first what may fail.
#[derive(Drop)]
pub struct Keeping {
    alloc: Global,
    replies: Vec<Reply>,
    /// The buffers that are used next, the last of them first.
    front: Vec<Page>,
    /// The buffers that came since, in their order.
    back: Vec<Page>,
    /// No bytes, with the memory of the next reply's.
    blank: Vec<u8>,
}

impl Model for Keeping {
    ghost use Rattle.std.specs.Prelude.{◌≡◌, ◌-◌, ◌++◌, [], min, reverse, vec_len, vec_capacity};
    ghost use Rattle.client_programs.specs.Blk.Kept.{Kept};

    ghost Value = { Kept };

    ghost view = { λ k. record {
      shown = k.replies.items;
      pages = reverse k.front.items ++ k.back.items;
      places = min (vec_capacity k.replies - vec_len k.replies)
          (vec_capacity k.back - vec_len k.back);
      bytes = vec_capacity k.blank;
    } };

    ghost invariant = { λ k. k.blank.items ≡ [] };
}

// Records a reply, whose memory was taken before.
fn record_reply(
    alloc: Global,
    replies: &mut Vec<Reply>,
    blank: &mut Vec<u8>,
    resp: BlkResp,
    from: &[u8],
)
    requires place { vec_len replies.old < vec_capacity replies.old }
    requires room { length from.now ≤ vec_capacity blank.old }
    requires empty { blank.old.items ≡ [] }
    ensures replies { replies.new.items
        ≡ replies.old.items ++ record { resp = resp; bytes = from.now } ∷ [] }
    ensures empty { blank.new.items ≡ [] }
{
    if from.is_empty() {
        let bytes = Bytes::new(alloc);
        replies.push_reserved(Reply { resp, bytes });
        return;
    }
    let mut bytes = mem::replace(blank, Vec::new(alloc));
    match bytes.extend_from_slice(from) {
        Ok(()) => replies.push_reserved(Reply {
            resp,
            bytes: Bytes::from_vec(bytes),
        }),
        Err(_) => unreachable!(),
    }
}

// The first bytes of a body's page, as many as these and the page has; none where there is no page.
fn first_of(body: &Body, most: usize) -> &[u8]
    ensures first { result.now ≡ first_bytes most body.now }
    ensures few { length result.now ≤ most }
{
    match body {
        Body::Page(page) => {
            let bytes = page.bytes();
            let len = bytes.len().min(most);
            &bytes[..len]
        }
        _ => &[],
    }
}

// Where no buffer is in front, those behind come there.
fn refill(front: &mut Vec<Page>, back: &mut Vec<Page>)
    ensures all { reverse front.new.items ++ back.new.items
        ≡ reverse front.old.items ++ back.old.items }
    ensures some { front.new.items ≡ [] → back.new.items ≡ [] }
{
    if front.is_empty() {
        mem::swap(front, back);
        front.reverse();
    }
}

// Keeps the buffer of a body behind the others, into memory that was taken before.
fn keep_page(back: &mut Vec<Page>, body: Body)
    requires { vec_len back.old < vec_capacity back.old }
    ensures { back.new.items ≡ back.old.items ++ page_in body }
{
    match body {
        Body::Page(page) => back.push_reserved(page),
        _other => (),
    }
}

impl Keeping {
    /// No reply, and these buffers, in their order. It takes no memory.
    pub fn new(alloc: Global, mut pages: Vec<Page>) -> Keeping
        ensures shown { result.shown ≡ [] }
        ensures pages { result.pages ≡ pages.items }
    {
        pages.reverse();
        Keeping {
            alloc,
            replies: Vec::new(alloc),
            front: pages,
            back: Vec::new(alloc),
            blank: Vec::new(alloc),
        }
    }

    /// The replies, in their order.
    pub fn replies(&self) -> &[Reply]
        ensures { result.now ≡ self.now.shown }
    {
        &self.replies
    }

    /// How many replies there are.
    pub fn len(&self) -> usize
        ensures { result ≡ length self.now.shown }
    {
        self.replies.len()
    }

    /// How many of the buffers in hand are of a pool.
    pub fn held(&self, pool: PoolId) -> u32
        requires { length self.now.pages < 2 ^ 32 }
        ensures held { result ≡ buffers_of pool (page_bodies self.now.pages) }
        ensures few { result ≤ length self.now.pages }
    {
        pages_of(pool, &self.front) + pages_of(pool, &self.back)
    }

    // Takes the memory of a reply and of a buffer.
    fn reserve_places(&mut self) -> Result<(), Memory>
        ensures ok { OnOk result (self.new ≡ record self.old { places = self.new.places }) }
        ensures place { OnOk result (0 < self.new.places) }
        ensures err { OnErr result (self.new ≡ self.old) }
    {
        self.replies.reserve(1)?;
        self.back.reserve(1)?;
        Ok(())
    }

    /// Takes the memory of one more reply with so many bytes, and of its buffer. After want of
    /// memory nothing changed.
    pub fn reserve(&mut self, len: usize) -> Result<(), Memory>
        ensures shown { self.new.shown ≡ self.old.shown }
        ensures pages { self.new.pages ≡ self.old.pages }
        ensures place { OnOk result (0 < self.new.places) }
        ensures bytes { OnOk result (len ≤ self.new.bytes) }
        ensures err { OnErr result (self.new ≡ self.old) }
    {
        if self.blank.capacity() < len {
            let blank = Vec::with_capacity(self.alloc, len)?;
            self.reserve_places()?;
            self.blank = blank;
            Ok(())
        } else {
            self.reserve_places()
        }
    }

    /// Records a response with the first `len` bytes of its buffer, and keeps the buffer behind the
    /// others. The memory was taken before.
    pub fn keep(&mut self, resp: BlkResp, body: Body, len: usize)
        requires place { 0 < self.old.places }
        requires bytes { len ≤ self.old.bytes }
        ensures shown { self.new.shown
            ≡ self.old.shown ++ record { resp = resp; bytes = first_bytes len body } ∷ [] }
        ensures pages { self.new.pages ≡ self.old.pages ++ page_in body }
    {
        let from = first_of(&body, len);
        record_reply(self.alloc, &mut self.replies, &mut self.blank, resp, from);
        keep_page(&mut self.back, body);
    }

    /// The buffer that is used next. None where there is none.
    pub fn next_page(&mut self) -> Option<Page>
        ensures shown { self.new.shown ≡ self.old.shown }
        ensures pages { self.old.pages ≡ option_to_list result ++ self.new.pages }
        ensures none { result ≡ None → self.old.pages ≡ [] }
    {
        refill(&mut self.front, &mut self.back);
        self.front.pop()
    }
}
