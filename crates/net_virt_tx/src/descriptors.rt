//! Which descriptors of a client are good, and the addresses of their buffers on either side.
ghost use Rattle.std.specs.Prelude.{◌≡◌, ◌+◌, ◌*◌, ◌≤◌, ◌<◌, ◌^◌};
ghost use Rattle.buffer_kit.specs.Entries.{addr_of};
ghost use Rattle.net_virt_tx.specs.Descriptors.{to_device, to_client, with_addr};
ghost use Rattle.net_virt_tx.specs.Serving.{is_good_of};

use buffer_kit::{address, told_length};
use cargo_core::{Body, Item, NetDesc, PoolId};

/// The shortest frame, in bytes.
const SHORTEST: u16 = 14;

/// A client that sends: the pool of its buffers, how many there are, the device address at which
/// the first one begins, the size of one and the longest frame, both in bytes.
#[derive(Clone, Copy, Debug, PartialEq, Eq)]
pub struct Sender {
    pub pool: PoolId,
    pub buffers: u32,
    pub base: u64,
    pub size: u32,
    pub most: u16,
}

impl Sender {
    /// Whether a descriptor of the client is good.
    pub fn is_good(&self, entry: &(Item, Body)) -> bool
        ensures { result ≡ is_good_of self.now entry.now }
    {
        match &entry.1 {
            Body::Page(page) => {
                page.pool().0 == self.pool.0
                    && page.no() < self.buffers
                    && address(&entry.0) == page.no() as u64 * self.size as u64
                    && SHORTEST <= told_length(&entry.0)
                    && told_length(&entry.0) <= self.most
            }
            _ => false,
        }
    }
}

// The same item with another address.
fn with_address(item: Item, addr: u64) -> Item
    ensures { result ≡ with_addr addr item }
{
    match item {
        Item::Net(desc) => Item::Net(NetDesc {
            addr,
            len: desc.len,
        }),
        other => other,
    }
}

/// An entry with the device address of its buffer, where the client's range begins at `base`.
pub fn to_device(entry: (Item, Body), base: u64) -> (Item, Body)
    requires { base + addr_of entry.0 < 2 ^ 64 }
    ensures { result ≡ to_device base entry }
{
    let (item, body) = entry;
    let addr = base + address(&item);
    (with_address(item, addr), body)
}

/// An entry with the offset of its buffer in the client's range, which begins at `base`.
pub fn to_client(entry: (Item, Body), base: u64) -> (Item, Body)
    requires { base ≤ addr_of entry.0 }
    ensures { result ≡ to_client base entry }
{
    let (item, body) = entry;
    let addr = address(&item) - base;
    (with_address(item, addr), body)
}
