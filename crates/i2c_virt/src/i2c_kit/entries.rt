//! The entries of the bus: which buffer an item names, and which entries are in turn.
ghost use Rattle.std.specs.Prelude.{◌≡◌};
ghost use Rattle.i2c_virt.specs.I2cKit.Entries.{own_place, shared_place, item_at, names, is_buffer};
ghost use Rattle.i2c_virt.specs.I2cKit.Entries.{is_own_request, is_bus_request, is_reply_in};

use crate::i2c_kit::page::{BUFFER_BYTES, BUFFERS, read_head, read_status};
use cargo_core::{Body, Item, NetDesc, Page, PoolId};

/// Where a buffer of a client begins on the client's own queues.
pub fn own_place(number: u32) -> u64
    ensures { result ≡ own_place number }
{
    BUFFER_BYTES as u64 * u64::from(number)
}

/// Where it begins on the other queues; a client's pool has the number of the client.
pub fn shared_place(pool: PoolId, number: u32) -> u64
    ensures { result ≡ shared_place pool number }
{
    BUFFERS as u64 * BUFFER_BYTES as u64 * u64::from(pool.0) + own_place(number)
}

/// The item that names the buffer at a place.
pub fn item_at(place: u64) -> Item
    ensures { result ≡ item_at place }
{
    Item::Net(NetDesc {
        addr: place,
        len: BUFFER_BYTES as u16,
    })
}

// Whether an item names the buffer at a place.
fn names(item: &Item, place: u64) -> bool
    ensures { result ≡ names item.now place }
{
    match item {
        Item::Net(desc) => desc.addr == place && usize::from(desc.len) == BUFFER_BYTES,
        _ => false,
    }
}

// Whether a page is one of a client's buffers.
fn is_buffer(page: &Page) -> bool
    ensures { result ≡ is_buffer page.now }
{
    (page.no() as usize) < BUFFERS
}

/// Whether an entry is a request in turn on a client's own queue: it carries the buffer of the
/// client's pool that its item names, and the page spells a request.
#[tactic(auto, unfolding(crate::specs::I2cKit::Entries::is_own_request))]
pub fn is_own_request(pool: PoolId, entry: &(Item, Body)) -> bool
    ensures { result ≡ is_own_request pool entry.now }
{
    let Body::Page(page) = &entry.1 else {
        return false;
    };
    page.pool().0 == pool.0
        && is_buffer(page)
        && names(&entry.0, own_place(page.no()))
        && read_head(page.bytes()).is_some()
}

/// Whether an entry is one on the queue of the bus.
#[tactic(auto, unfolding(crate::specs::I2cKit::Entries::is_bus_request))]
pub fn is_bus_request(entry: &(Item, Body)) -> bool
    ensures { result ≡ is_bus_request entry.now }
{
    let Body::Page(page) = &entry.1 else {
        return false;
    };
    is_buffer(page)
        && names(&entry.0, shared_place(page.pool(), page.no()))
        && read_head(page.bytes()).is_some()
}

/// Whether an entry is a reply in turn to the request in this buffer, which stands at this place of
/// the queue: it carries that buffer, names it, and the page spells a reply.
#[tactic(auto, unfolding(crate::specs::I2cKit::Entries::is_reply_in))]
pub fn is_reply_in(pool: PoolId, number: u32, place: u64, entry: &(Item, Body)) -> bool
    ensures { result ≡ is_reply_in pool number place entry.now }
{
    let Body::Page(page) = &entry.1 else {
        return false;
    };
    page.pool().0 == pool.0
        && page.no() == number
        && names(&entry.0, place)
        && read_status(page.bytes()).is_some()
}
