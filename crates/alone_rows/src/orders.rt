//! Three clients that claim two devices, played: each of the 36 pairs of orders in which their
//! claims come to the virtualiser occurs, and in each the first claim of each device is good, and
//! the others aren't.
ghost use Rattle.std.specs.Prelude.{◌≡◌, ◌<◌, ◌≤◌, ℕ, Some};

use crate::bus_plays::played;
use crate::telling::tell;
use cargo_core::Memory;
use i2c_text::{BusReply, BusReport, BusStatus};
use std::alloc::Global;
use std::io;
use wire_core::{Entry, Op};

// How many seeds are played for each text.
const SEEDS: u64 = 4;

// How many requests each client makes.
const REQUESTS: usize = 36;

// The place of a client in an order, of the six of three clients.
fn position(order: usize, client: usize) -> usize
    ensures { result ≤ 2 }
{
    match (order, client) {
        (0, 0) | (1, 0) | (2, 1) | (3, 1) | (4, 2) | (5, 2) => 0,
        (0, 1) | (1, 2) | (2, 0) | (3, 2) | (4, 0) | (5, 1) => 1,
        _ => 2,
    }
}

// The device that a client's request of a number claims, where it is a claim. Those of one device
// are fourteen requests apart, so that they hardly come to the virtualiser in another order than
// the one that is asked for.
fn claimed_at(one: usize, other: usize, client: usize, number: usize) -> Option<u8> {
    if number == 14 * position(one, client) {
        Some(80)
    } else if number == 14 * position(other, client) + 7 {
        Some(81)
    } else {
        None
    }
}

// Three clients that claim both devices in these orders, and between these claims read where
// nobody has a claim.
fn text(alloc: Global, one: usize, other: usize) -> Result<String, Memory> {
    let mut text = String::from_str(alloc, "clients 3\ndevice 80\ndevice 81\n")?;
    for client in 0..3usize {
        for number in 0..REQUESTS {
            match claimed_at(one, other, client, number) {
                Some(device) => write!(text, "claim {client} {device}\n")?,
                None => write!(text, "read {client} 100 1\n")?,
            }
        }
    }
    Ok(text)
}

// The client whose request an entry of the journal takes.
fn client_of(entry: &Entry) -> Option<usize>
    ensures { (client : ℕ) → result ≡ Some client → client < 3 }
{
    match (entry.event.op, entry.event.queue.0) {
        (Op::Take, 0) => Some(0),
        (Op::Take, 2) => Some(1),
        (Op::Take, 4) => Some(2),
        _ => None,
    }
}

// The clients in the order in which their claims of a device were taken.
fn order_of(
    alloc: Global,
    journal: &[Entry],
    one: usize,
    other: usize,
    device: u8,
) -> Result<Vec<usize>, Memory> {
    let mut order = Vec::new(alloc);
    let mut taken = [0usize; 3];
    for entry in journal {
        if let Some(client) = client_of(entry) {
            if let Some(claimed) = claimed_at(one, other, client, taken[client]) {
                if claimed == device {
                    order.push(client)?;
                }
            }
            taken[client] = taken[client].saturating_add(1);
        }
    }
    Ok(order)
}

// Whether all three clients stand in this order, of the six.
fn is_order(order: &[usize], number: usize) -> bool {
    match order {
        [first, second, third] => {
            position(number, *first) == 0
                && position(number, *second) == 1
                && position(number, *third) == 2
        }
        _ => false,
    }
}

// Whether a reply to a claim is good exactly where it is the first client's.
fn is_right(reply: &BusReply, client: usize, order: &[usize]) -> bool {
    let first = match order.first() {
        Some(first) => *first == client,
        None => false,
    };
    match reply.status {
        BusStatus::Ok => first,
        BusStatus::Taken => !first,
        BusStatus::Unclaimed | BusStatus::NoAck => false,
    }
}

// Whether a client got the replies to its claims that these orders say, and `unclaimed` to each
// read.
fn are_right(
    report: &BusReport,
    one: usize,
    other: usize,
    client: usize,
    first: &[usize],
    second: &[usize],
) -> bool {
    let Some(replies) = report.replies.as_slice().get(client) else {
        return false;
    };
    let mut number = 0usize;
    for reply in replies.as_slice() {
        let right = match claimed_at(one, other, client, number) {
            Some(80) => is_right(reply, client, first),
            Some(_) => is_right(reply, client, second),
            None => reply.status == BusStatus::Unclaimed,
        };
        if !right {
            return false;
        }
        number = number.saturating_add(1);
    }
    number == REQUESTS
}

// Whether the claims came in these orders, where a play gets quiet with each reply as it must be.
fn came_so(alloc: Global, one: usize, other: usize, seed: u64) -> Result<Option<bool>, Memory> {
    let lines = text(alloc, one, other)?;
    let Some(report) = played(alloc, lines.as_str(), seed, None)? else {
        return Ok(None);
    };
    let journal = report.journal.as_slice();
    let first = order_of(alloc, journal, one, other, 80)?;
    let second = order_of(alloc, journal, one, other, 81)?;
    let mut right = report.quiet;
    for client in 0..3usize {
        right = right && are_right(&report, one, other, client, &first, &second);
    }
    if !right {
        return Ok(None);
    }
    Ok(Some(is_order(&first, one) && is_order(&second, other)))
}

// Whether the claims came in these orders in one of the plays, and each play was as it must be.
fn comes_so(alloc: Global, one: usize, other: usize) -> Result<bool, Memory> {
    let mut came = false;
    for seed in 0..SEEDS {
        match came_so(alloc, one, other, seed)? {
            Some(so) => came = came || so,
            None => return Ok(false),
        }
    }
    Ok(came)
}

fn each_order_of_the_claims_comes_and_is_right(alloc: Global) -> Result<bool, Memory> {
    for one in 0..6usize {
        for other in 0..6usize {
            if !comes_so(alloc, one, other)? {
                return Ok(false);
            }
        }
    }
    Ok(true)
}

/// Prints the row of played claims.
pub fn print_orders(rt: &HostRuntime) -> io::Result<()> {
    let right = each_order_of_the_claims_comes_and_is_right(rt.alloc());
    tell(
        rt,
        "the first claim of each device is good in every order of a play",
        right,
    )
}
