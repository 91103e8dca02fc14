//! What an entry of a network queue says, and how its buffer is filled.
ghost use Rattle.std.specs.Prelude.{◌≡◌, ◌<◌, ◌^◌, length};
ghost use Rattle.buffer_kit.specs.Entries.{frame_of, filled, addr_of, len_of};

use cargo_core::{Body, Item, NetDesc};

/// The address at which the buffer of an item begins; 0 where the item is of another class.
pub fn address(item: &Item) -> u64
    ensures { result ≡ addr_of item.now }
{
    match item {
        Item::Net(desc) => desc.addr,
        _ => 0,
    }
}

/// The length of the frame that an item tells; 0 where the item is of another class.
pub fn told_length(item: &Item) -> u16
    ensures { result ≡ len_of item.now }
{
    match item {
        Item::Net(desc) => desc.len,
        _ => 0,
    }
}

/// The frame of an entry: the first bytes of its page, as many as its length says and the page has.
/// It is empty where the entry has no page. At most 65,535 bytes, since a length has 16 bits.
pub fn frame(entry: &(Item, Body)) -> &[u8]
    ensures frame { result.now ≡ frame_of entry.now }
    ensures short { length result.now < 2 ^ 16 }
{
    match entry {
        (Item::Net(desc), Body::Page(page)) => {
            let bytes = page.bytes();
            let len = bytes.len().min(desc.len as usize);
            &bytes[..len]
        }
        _ => &[],
    }
}

/// Fills an entry with these bytes: it has their length, and they stand at the front of its page
/// where that is long enough. Any other body goes on as it is.
pub fn fill(entry: (Item, Body), bytes: &[u8]) -> (Item, Body)
    requires { length bytes.now < 2 ^ 16 }
    ensures { result ≡ filled bytes.now entry }
{
    let (item, body) = entry;
    let item = match item {
        Item::Net(desc) => Item::Net(NetDesc {
            addr: desc.addr,
            len: bytes.len() as u16,
        }),
        other => other,
    };
    let body = match body {
        Body::Page(mut page) => {
            if bytes.len() <= page.bytes().len() {
                page.fill(0, bytes);
            }
            Body::Page(page)
        }
        other => other,
    };
    (item, body)
}
