//! What a hostile client's calls are made of.
ghost use Rattle.std.specs.Prelude.{◌≡◌, ◌<◌, ◌≤◌, ◌+◌, ◌^◌, if◌then◌else◌, length, IfOk, vec_len};
ghost use Rattle.std.specs.Prelude.{vec_capacity};
ghost use Rattle.cargo_core.specs.Bodies.{buffers_of};
ghost use Rattle.wire_core.specs.Deeds.{answer_of};
ghost use Rattle.buffer_kit.specs.Pools.{page_bodies};
ghost use Rattle.client_programs.specs.Rogue.Acts.{item_for, makes_call};

use cargo_core::{Act, BlkReq, Body, Code, Item, Memory, NetDesc, Page, PoolId, QueueKind};
use std::alloc::Global;
use wire_core::Answer;

/// Whether an act makes a call, where so many entries are kept.
pub fn makes_call(act: &Act, kept: usize) -> bool
    ensures { result ≡ makes_call kept act.now }
{
    match act {
        Act::Give(_, place, _, _) => (*place as usize) < kept,
        _ => true,
    }
}

/// The place of the first act that is left after a look, which keeps its act where it answers yes.
pub fn place_after(place: usize, found: bool) -> usize
    requires { place + 1 < 2 ^ 64 }
    ensures { result ≡ (if found then place else place + 1) }
{
    if found { place } else { place + 1 }
}

/// A look's answer.
pub fn answer_of(yes: bool) -> Answer
    ensures { result ≡ answer_of yes }
{
    if yes { Answer::Yes } else { Answer::No }
}

/// The item that an address and a length tell, at a queue of a kind.
pub fn item_for(kind: QueueKind, addr: u64, length: u64) -> Item
    ensures { result ≡ item_for kind addr length }
{
    match kind {
        QueueKind::Net => Item::Net(NetDesc {
            addr,
            len: (length % 65536) as u16,
        }),
        QueueKind::Req => Item::Req(BlkReq {
            addr,
            block: (length % (1 << 32)) as u32,
            id: 0,
            count: 1,
            code: Code::Write,
        }),
        QueueKind::Byte | QueueKind::Resp => Item::Byte((length % 256) as u8),
    }
}

/// The bodies of pages, with room for so many more.
pub fn kept_pages(alloc: Global, pages: Vec<Page>, more: usize) -> Result<Vec<Body>, Memory>
    requires { length pages.items + more < 2 ^ 64 }
    ensures items { IfOk result (λ kept. kept.items ≡ page_bodies pages.items) }
    ensures room { IfOk result (λ kept. vec_len kept + more ≤ vec_capacity kept) }
{
    let mut kept = Vec::with_capacity(alloc, pages.len() + more)?;
    for page in pages {
        kept.push(Body::Page(page)).unwrap();
    }
    Ok(kept)
}

/// How many buffers of a pool some bodies are.
pub fn held_of(pool: PoolId, bodies: &[Body]) -> u32
    requires { length bodies.now < 2 ^ 32 }
    ensures { result ≡ buffers_of pool bodies.now }
{
    let mut count = 0;
    for body in bodies {
        if let Body::Page(page) = body {
            if page.pool().0 == pool.0 {
                count += 1;
            }
        }
    }
    count
}
