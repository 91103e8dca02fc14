//! System descriptions as values: plans, and the parts that they are made of.
use cargo_core::{Series, Text};

/// A system description, with every default filled in. Its fields, like those of its parts, bear
/// the names of the description's keys. The elements are those of the Microkit manual; `net`,
/// `serial` and `blk` are this project's own, after the device classes of the sDDF design document.
#[derive(Debug, Drop)]
pub struct Plan {
    pub version: u64,
    pub memory_region: Series<Region>,
    pub protection_domain: Series<Domain>,
    pub channel: Series<Channel>,
    pub net: Option<Net>,
    pub serial: Option<Serial>,
    pub blk: Option<Blk>,
}

/// A memory region. Sizes and addresses are in bytes.
#[derive(Debug, Drop)]
pub struct Region {
    pub name: Text,
    pub size: u64,
    pub page_size: u64,
    pub phys_addr: Option<u64>,
}

/// A protection domain. Priority, budget and period are checked, and don't change how a system
/// plays.
#[derive(Debug, Drop)]
pub struct Domain {
    pub name: Text,
    pub priority: u64,
    pub budget: u64,
    pub period: u64,
    pub program: Text,
    pub map: Series<Map>,
    pub irq: Series<Irq>,
}

/// A region mapped into a domain. `perms` is made of the letters `r`, `w` and `x`.
#[derive(Debug, Drop)]
pub struct Map {
    pub mr: Text,
    pub vaddr: u64,
    pub perms: Text,
    pub cached: bool,
    pub setvar_vaddr: Option<Text>,
}

/// A hardware interrupt that is delivered to a domain. `trigger` is `edge` or `level`.
#[derive(Debug, Drop)]
pub struct Irq {
    pub irq: u64,
    pub id: u64,
    pub trigger: Text,
}

/// A channel, with its two ends.
#[derive(Debug, Drop)]
pub struct Channel {
    pub end: Series<End>,
}

/// One end of a channel: the domain, and the id by which that domain knows the channel.
#[derive(Debug, Drop)]
pub struct End {
    pub pd: Text,
    pub id: u64,
}

/// What is done with what comes where there is no buffer and no room for it: it waits, or it is
/// dropped.
#[derive(Clone, Copy, Debug, PartialEq, Eq)]
pub enum Policy {
    Hold,
    Drop,
}

/// The network class. A text of version 1 has no key for `max_frame` and for the sizes of buffers,
/// in bytes, here and at a client: they are 1,514 and 2,048 there.
#[derive(Debug, Drop)]
pub struct Net {
    pub driver: Text,
    pub rx_virt: Text,
    pub tx_virt: Text,
    pub rx_region: Text,
    pub rx_queues: Text,
    pub tx_queues: Text,
    pub rx_buffers: u64,
    pub rx_capacity: u64,
    pub tx_capacity: u64,
    pub client: Series<NetClient>,
    pub max_frame: u64,
    pub rx_buffer_size: u64,
}

/// A client of the network class. `policy` is what its copier does with a frame.
#[derive(Debug, Drop)]
pub struct NetClient {
    pub pd: Text,
    pub copier: Text,
    pub mac: Text,
    pub lease_queues: Text,
    pub rx_region: Text,
    pub rx_queues: Text,
    pub tx_region: Text,
    pub tx_queues: Text,
    pub rx_buffers: u64,
    pub rx_capacity: u64,
    pub tx_buffers: u64,
    pub tx_capacity: u64,
    pub policy: Policy,
    pub rx_buffer_size: u64,
    pub tx_buffer_size: u64,
}

/// The serial class.
#[derive(Debug, Drop)]
pub struct Serial {
    pub driver: Text,
    pub rx_virt: Text,
    pub tx_virt: Text,
    pub rx_queues: Text,
    pub tx_queues: Text,
    pub rx_capacity: u64,
    pub tx_capacity: u64,
    pub client: Series<SerialClient>,
}

/// A client of the serial class. `policy` is what the receiving virtualiser does with a byte for
/// it.
#[derive(Debug, Drop)]
pub struct SerialClient {
    pub pd: Text,
    pub rx_queues: Text,
    pub tx_queues: Text,
    pub rx_capacity: u64,
    pub tx_capacity: u64,
    pub policy: Policy,
}

/// The block class.
#[derive(Debug, Drop)]
pub struct Blk {
    pub driver: Text,
    pub virt: Text,
    pub queues: Text,
    pub region: Text,
    pub capacity: u64,
    pub client: Series<BlkClient>,
}

/// A client of the block class.
#[derive(Debug, Drop)]
pub struct BlkClient {
    pub pd: Text,
    pub region: Text,
    pub queues: Text,
    pub partition: u64,
    pub buffers: u64,
    pub capacity: u64,
}
