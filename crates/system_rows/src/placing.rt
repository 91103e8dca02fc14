//! Where buffers may be beside hostile clients, by the pools of a report and by a journal.

use crate::blocks::block_clients;
use cargo_core::{Code, Item};
use expect_core::Report;
use region_layout::Layout;
use sdf_plan::Plan;
use trace_text::{is_blk_rogue, is_net_rogue};
use wire_core::{Entry, Op, PoolRow, QueueId};

/// What goes to the driver of a class: the queue to it, how many clients the class has, the last
/// words of the names of a client's pool and of the queue to which it puts, and how many entries may
/// be none of a client.
#[derive(Clone, Copy)]
struct Driver<'a> {
    class: &'a str,
    queue: &'a str,
    clients: usize,
    pool: &'a str,
    puts: &'a str,
    beside: u64,
}

// Whether a name is that of something of a client, as `net.0.tx`.
fn is_of(name: &str, class: &str, client: usize, last: &str) -> bool {
    match name.split_once(".") {
        Some((first, rest)) if first == class => {
            let (number, rest) = rest.split_once(".").unwrap_or((rest, ""));
            number.parse::<usize>().ok() == Some(client) && rest == last
        }
        _ => false,
    }
}

// The number of the queue of a client, or of a driver.
fn queue_of(layout: &Layout, class: &str, client: usize, last: &str) -> Option<QueueId> {
    let mut number = 0u16;
    for row in layout.queues() {
        if is_of(row.name.as_str(), class, client, last) {
            return Some(QueueId(number));
        }
        number = number.saturating_add(1);
    }
    None
}

// The number of the queue of a name.
fn queue_named(layout: &Layout, name: &str) -> Option<QueueId> {
    let mut number = 0u16;
    for row in layout.queues() {
        if row.name.as_str() == name {
            return Some(QueueId(number));
        }
        number = number.saturating_add(1);
    }
    None
}

/// The row of a pool of a client.
pub fn pool_of<'a>(
    layout: &'a Layout,
    class: &str,
    client: usize,
    last: &str,
) -> Option<&'a PoolRow> {
    for row in layout.pools() {
        if is_of(row.name.as_str(), class, client, last) {
            return Some(row);
        }
    }
    None
}

// Whether a call puts to a queue.
fn puts(entry: &Entry, queue: QueueId) -> bool {
    entry.event.queue == queue && entry.event.op == Op::Put
}

// How often a call is made on a queue.
fn count(journal: &[Entry], queue: QueueId, op: Op) -> u64 {
    let mut count = 0u64;
    for entry in journal {
        if entry.event.queue == queue && entry.event.op == op {
            count = count.saturating_add(1);
        }
    }
    count
}

// Whether a buffer of a pool begins at an address, for a device.
fn begins_buffer(address: u64, pool: &PoolRow) -> bool {
    match address.checked_sub(pool.base) {
        Some(offset) => {
            let size = u64::from(pool.size);
            offset.checked_rem(size) == Some(0)
                && offset < u64::from(pool.buffers).saturating_mul(size)
        }
        None => false,
    }
}

// Whether a put names a buffer of a pool.
fn names(entry: &Entry, pool: &PoolRow) -> bool {
    match &entry.event.item {
        Some(Item::Net(desc)) => begins_buffer(desc.addr, pool),
        Some(Item::Req(request)) => begins_buffer(request.addr, pool),
        _ => false,
    }
}

// How many network clients a plan has.
fn network_clients(plan: &Plan) -> usize {
    match &plan.net {
        Some(net) => net.client.len(),
        None => 0,
    }
}

/// Whether each pool's line counts all its buffers once, and lent ones of the receiving pool alone.
pub fn do_add_up(report: &Report) -> bool {
    let mut right = true;
    for pool in report.pools.as_slice() {
        let all = u64::from(pool.queues)
            .saturating_add(u64::from(pool.hands))
            .saturating_add(u64::from(pool.lent));
        right = all == u64::from(pool.buffers) && right;
        right = (pool.lent == 0 || pool.name.as_str() == "net.rx") && right;
    }
    right
}

// How many buffers of a pool are in hands; none where there is no such pool.
fn hands_of(report: &Report, class: &str, client: usize, last: &str) -> Option<u64> {
    for pool in report.pools.as_slice() {
        if is_of(pool.name.as_str(), class, client, last) {
            return Some(u64::from(pool.hands));
        }
    }
    None
}

// Whether the buffers in which a network client sends are all in queues and in its own hand, where
// it has those that it took and didn't put.
fn has_its_own(layout: &Layout, report: &Report, journal: &[Entry], client: usize) -> bool {
    let (Some(row), Some(hands)) = (
        pool_of(layout, "net", client, "tx"),
        hands_of(report, "net", client, "tx"),
    ) else {
        return false;
    };
    let (Some(sends), Some(gets)) = (
        queue_of(layout, "net", client, "tx.active"),
        queue_of(layout, "net", client, "tx.free"),
    ) else {
        return false;
    };
    let own = u64::from(row.buffers)
        .saturating_add(count(journal, gets, Op::Take))
        .saturating_sub(count(journal, sends, Op::Put));
    hands == own
}

// Whether all buffers of a block client are with it.
fn keeps_all(layout: &Layout, report: &Report, client: usize) -> bool {
    match (
        pool_of(layout, "blk", client, ""),
        hands_of(report, "blk", client, ""),
    ) {
        (Some(row), Some(hands)) => hands == u64::from(row.buffers),
        (None, None) => true,
        _ => false,
    }
}

/// Whether in a quiet play all buffers of the clients that aren't hostile are in queues or with
/// their client: nobody else keeps one.
pub fn are_at_home(plan: &Plan, layout: &Layout, report: &Report, journal: &[Entry]) -> bool {
    let mut right = true;
    for client in 0..network_clients(plan) {
        if !is_net_rogue(plan, client as u64) {
            right = hands_of(report, "net", client, "rx") == Some(0) && right;
            right = has_its_own(layout, report, journal, client) && right;
        }
    }
    for client in 0..block_clients(plan) {
        if !is_blk_rogue(plan, client as u64) {
            right = keeps_all(layout, report, client) && right;
        }
    }
    right
}

// Whether a request to the driver stays in the partition of a client, where partitions of two
// blocks follow each other from block 1 on in the order of the clients.
fn stays_within(item: &Option<Item>, client: usize) -> bool {
    let Some(Item::Req(request)) = item else {
        return false;
    };
    let first = (client as u64).saturating_mul(2).saturating_add(1);
    let begin = u64::from(request.block);
    let end = begin.saturating_add(u64::from(request.count));
    match request.code {
        Code::Read | Code::Write => first <= begin && end <= first.saturating_add(2),
        Code::Flush | Code::Barrier => begin == 0 && end == 0,
    }
}

// How many puts to the driver name a buffer of a pool of a client; none where requests leave the
// client's partition.
fn count_right(
    journal: &[Entry],
    to_driver: QueueId,
    pool: &PoolRow,
    class: &str,
    client: usize,
) -> Option<u64> {
    let mut count = 0u64;
    for entry in journal {
        if puts(entry, to_driver) && names(entry, pool) {
            if class == "blk" && !stays_within(&entry.event.item, client) {
                return None;
            }
            count = count.saturating_add(1);
        }
    }
    Some(count)
}

// How many entries to the driver name a buffer of a client; none where it put fewer, where its
// requests leave its partition, or where there is no such client.
fn count_of(
    layout: &Layout,
    journal: &[Entry],
    to_driver: QueueId,
    driver: Driver<'_>,
    client: usize,
) -> Option<u64> {
    let (Some(pool), Some(puts)) = (
        pool_of(layout, driver.class, client, driver.pool),
        queue_of(layout, driver.class, client, driver.puts),
    ) else {
        return None;
    };
    match count_right(journal, to_driver, pool, driver.class, client) {
        Some(sent) if sent <= count(journal, puts, Op::Put) => Some(sent),
        _ => None,
    }
}

// Whether what goes to a driver is right, where so many entries may name no buffer of a client.
fn goes_to_driver(layout: &Layout, journal: &[Entry], driver: Driver<'_>) -> bool {
    let Some(queue) = queue_named(layout, driver.queue) else {
        return true;
    };
    let mut named = driver.beside;
    for client in 0..driver.clients {
        match count_of(layout, journal, queue, driver, client) {
            Some(sent) => named = named.saturating_add(sent),
            None => return false,
        }
    }
    count(journal, queue, Op::Put) <= named
}

/// Whether what goes to the drivers of the network and of the disk is right: it names buffers of
/// clients, those of each client no more often than it put any, and what the disk is asked for is
/// in the partition of the client. The first request to the disk is none of a client.
pub fn goes_right(plan: &Plan, layout: &Layout, journal: &[Entry]) -> bool {
    let net = Driver {
        class: "net",
        queue: "net.tx.active",
        clients: network_clients(plan),
        pool: "tx",
        puts: "tx.active",
        beside: 0,
    };
    let blk = Driver {
        class: "blk",
        queue: "blk.req",
        clients: block_clients(plan),
        pool: "",
        puts: "req",
        beside: 1,
    };
    goes_to_driver(layout, journal, net) && goes_to_driver(layout, journal, blk)
}
