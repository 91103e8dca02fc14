//! The replies of clients by the plain program.
use crate::telling::tell;
use cargo_core::{Bytes, Memory, Series};
use i2c_text::{BusAsk, BusReply, BusStatus};
use i2c_virt::i2c_kit::{Request, granted_to, owner_after, replies_alone, replies_by};
use std::alloc::Global;
use std::io;

// Whether a reply is this.
fn is_reply(replies: &Series<BusReply>, at: usize, status: BusStatus, bytes: &[u8]) -> bool {
    if at >= replies.len() {
        return false;
    }
    let reply = replies.get(at);
    reply.status == status && reply.bytes.as_slice() == bytes
}

// Whether so many replies bring no byte, and these are their statuses.
fn are_statuses(replies: &Series<BusReply>, statuses: &[BusStatus]) -> bool {
    for (at, status) in statuses.iter().enumerate() {
        if !is_reply(replies, at, *status, &[]) {
            return false;
        }
    }
    true
}

// A request to write.
fn write(alloc: Global, address: u8, bytes: &[u8]) -> Result<BusAsk, Memory> {
    Ok(BusAsk::Write(address, Bytes::from_slice(alloc, bytes)?))
}

// A client's replies, where it alone has an address, and a device is at 80.
fn replies_at(alloc: Global, granted: u8, asks: &[BusAsk]) -> Result<Series<BusReply>, Memory> {
    Ok(replies_alone(alloc, &[granted], &[80], asks)?)
}

fn a_client_reads_what_it_wrote(alloc: Global) -> Result<bool, Memory> {
    let mut asks = Vec::new(alloc);
    asks.push(BusAsk::Claim(80))?;
    asks.push(write(alloc, 80, &[5, 0xaa, 0xbb])?)?;
    asks.push(write(alloc, 80, &[5])?)?;
    asks.push(BusAsk::Read(80, 2))?;
    let replies = replies_at(alloc, 80, &asks)?;
    Ok(
        replies.len() == 4
            && are_statuses(&replies, &[BusStatus::Ok, BusStatus::Ok, BusStatus::Ok])
            && is_reply(&replies, 3, BusStatus::Ok, &[0xaa, 0xbb]),
    )
}

fn a_client_has_nothing_of_another(alloc: Global) -> Result<bool, Memory> {
    let mut asks = Vec::new(alloc);
    asks.push(BusAsk::Read(80, 1))?;
    asks.push(BusAsk::Claim(81))?;
    asks.push(BusAsk::Read(81, 1))?;
    let replies = replies_at(alloc, 81, &asks)?;
    let statuses = [BusStatus::Unclaimed, BusStatus::Ok, BusStatus::NoAck];
    Ok(replies.len() == 3 && are_statuses(&replies, &statuses))
}

// A claim of the address 80 by each of two clients, in this order.
fn claims(alloc: Global, first: u32, second: u32) -> Result<Vec<Request>, Memory> {
    let mut taken = Vec::new(alloc);
    for client in [first, second] {
        taken.push(Request {
            client,
            ask: BusAsk::Claim(80),
        })?;
    }
    Ok(taken)
}

// The replies to requests in their order, where a device is at 80.
fn replies_to(alloc: Global, taken: &[Request]) -> Result<Series<BusReply>, Memory> {
    Ok(replies_by(alloc, &[80], taken)?)
}

// How many times an address was granted to a client, and whether it was 80 each time.
fn grants(alloc: Global, client: u32, taken: &[Request]) -> Result<(usize, bool), Memory> {
    let granted = granted_to(alloc, client, taken)?;
    let mut are_80 = true;
    for address in granted.as_slice() {
        are_80 = are_80 && *address == 80;
    }
    Ok((granted.as_slice().len(), are_80))
}

// The owner of an address behind these requests.
fn owner_of(taken: &[Request], address: u8) -> Option<u32> {
    owner_after(taken, address)
}

// Whether of two claims in this order the first one alone is good.
fn is_first_alone(alloc: Global, first: u32, second: u32) -> Result<bool, Memory> {
    let taken = claims(alloc, first, second)?;
    let replies = replies_to(alloc, &taken)?;
    let of_first = grants(alloc, first, &taken)?;
    let of_second = grants(alloc, second, &taken)?;
    Ok(
        are_statuses(&replies, &[BusStatus::Ok, BusStatus::Taken])
            && owner_of(&taken, 80) == Some(first)
            && owner_of(&taken, 81).is_none()
            && of_first == (2, true)
            && of_second == (0, true),
    )
}

fn only_the_first_claim_of_an_address_is_good(alloc: Global) -> Result<bool, Memory> {
    Ok(is_first_alone(alloc, 0, 1)? && is_first_alone(alloc, 1, 0)?)
}

/// Prints the rows of replies.
pub fn print_replies(rt: &HostRuntime) -> io::Result<()> {
    let alloc = rt.alloc();
    tell(
        rt,
        "a client reads what it wrote",
        a_client_reads_what_it_wrote(alloc),
    )?;
    tell(
        rt,
        "a client has nothing of another",
        a_client_has_nothing_of_another(alloc),
    )?;
    let first = only_the_first_claim_of_an_address_is_good(alloc);
    tell(rt, "only the first claim of an address is good", first)
}
