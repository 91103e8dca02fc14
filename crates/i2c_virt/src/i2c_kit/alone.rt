//! The replies of clients by a plain program, which knows no queues: by the order in which all
//! requests were taken, and of one client by its own requests alone.
ghost use Rattle.std.specs.Prelude.{◌≡◌, ◌==◌, ◌++◌, ◌∷◌, [], if◌then◌else◌, IfOk, OnOk};
ghost use Rattle.std.specs.List.{list_any};
ghost use Rattle.i2c_virt.specs.I2cKit.Devices.{AreWhole};
ghost use Rattle.i2c_virt.specs.I2cKit.Grants.{is_claim, claims, owner_after, is_free_for, is_owner, granted_to};
ghost use Rattle.i2c_virt.specs.I2cKit.Replies.{reply_to, reached_after, replies_by, replies_alone};
ghost use Rattle.i2c_virt.specs.I2cKit.Replies.{bare_reply, is_claimed};

use crate::i2c_kit::Device;
use crate::i2c_kit::devices::{address_of, answer, new_devices};
use cargo_core::{Bytes, Memory, Series};
use i2c_text::{BusAsk, BusReply, BusStatus};
use std::alloc::Global;

/// A request that the virtualiser took, and whose it is.
#[derive(Debug, Drop)]
pub struct Request {
    pub client: u32,
    pub ask: BusAsk,
}

// Whether a request is a claim.
fn is_claim(ask: &BusAsk) -> bool
    ensures { result ≡ is_claim ask.now }
{
    match ask {
        BusAsk::Claim(_) => true,
        BusAsk::Read(_, _) | BusAsk::Write(_, _) => false,
    }
}

// Whether a request claims an address.
fn claims(ask: &BusAsk, address: u8) -> bool
    ensures { result ≡ claims ask.now address }
{
    is_claim(ask) && address_of(ask) == address
}

/// The client that has an address after these requests were taken: that of the first claim of it.
pub fn owner_after(taken: &[Request], address: u8) -> Option<u32>
    ensures { result ≡ owner_after taken.now address }
{
    for request in taken {
        if claims(&request.ask, address) {
            return Some(request.client);
        }
    }
    None
}

// Whether no client but this has an address.
fn is_free_for(owner: Option<u32>, client: u32) -> bool
    ensures { result ≡ is_free_for owner client }
{
    match owner {
        Some(owner) => owner == client,
        None => true,
    }
}

// Whether this client has an address.
fn is_owner(owner: Option<u32>, client: u32) -> bool
    ensures { result ≡ is_owner owner client }
{
    match owner {
        Some(owner) => owner == client,
        None => false,
    }
}

// A reply without bytes.
fn bare_reply(alloc: Global, status: BusStatus) -> BusReply
    ensures { result ≡ bare_reply status }
{
    BusReply {
        status,
        bytes: Bytes::new(alloc),
    }
}

// The reply to a request, where its client may have the address, or has it already.
fn reply_to(
    alloc: Global,
    devices: &mut [Device],
    may: bool,
    has: bool,
    ask: &BusAsk,
) -> Result<BusReply, Memory>
    requires { AreWhole devices.old }
    ensures reply { IfOk result (λ r. r ≡ reply_to may has devices.old ask.now) }
    ensures after { OnOk result (devices.new ≡ reached_after has devices.old ask.now) }
    ensures whole { OnOk result (AreWhole devices.new) }
{
    if is_claim(ask) {
        let status = if may { BusStatus::Ok } else { BusStatus::Taken };
        return Ok(bare_reply(alloc, status));
    }
    if has {
        return answer(alloc, devices, ask);
    }
    Ok(bare_reply(alloc, BusStatus::Unclaimed))
}

// Adds an address to others, where it is so.
fn push_if(granted: &mut Bytes, so: bool, address: u8) -> Result<(), Memory>
    ensures { OnOk result
        (granted.new ≡ granted.old ++ (if so then address ∷ [] else [])) }
{
    if so {
        granted.push(address)?;
    }
    Ok(())
}

/// The addresses that were granted to a client, by the requests that were taken, in their order.
pub fn granted_to(alloc: Global, client: u32, taken: &[Request]) -> Result<Bytes, Memory>
    ensures { IfOk result (λ b. b ≡ granted_to client taken.now) }
{
    let mut granted = Bytes::new(alloc);
    for request in taken {
        let address = address_of(&request.ask);
        let owned = is_owner(owner_after(taken, address), client);
        push_if(&mut granted, owned, address)?;
    }
    Ok(granted)
}

/// The replies to requests that were taken in this order, by the devices of these addresses.
pub fn replies_by(
    alloc: Global,
    addresses: &[u8],
    taken: &[Request],
) -> Result<Series<BusReply>, Memory>
    ensures { IfOk result (λ replies. replies ≡ replies_by addresses.now taken.now) }
{
    let mut devices = new_devices(alloc, addresses)?;
    let mut replies = Series::new(alloc);
    for k in 0..taken.len() {
        let request = &taken[k];
        let owner = owner_after(&taken[..k], address_of(&request.ask));
        let may = is_free_for(owner, request.client);
        let has = is_owner(owner, request.client);
        let reply = reply_to(alloc, &mut devices, may, has, &request.ask)?;
        replies.push(reply)?;
    }
    Ok(replies)
}

/// The replies to a client's requests, by the devices of these addresses and those addresses that
/// are granted to it.
pub fn replies_alone(
    alloc: Global,
    granted: &[u8],
    addresses: &[u8],
    asks: &[BusAsk],
) -> Result<Series<BusReply>, Memory>
    ensures { IfOk result (λ replies. replies ≡ replies_alone granted.now addresses.now asks.now) }
{
    let mut devices = new_devices(alloc, addresses)?;
    let mut replies = Series::new(alloc);
    for k in 0..asks.len() {
        let address = address_of(&asks[k]);
        let may = has(granted, address);
        let has = is_claimed(granted, &asks[..k], address);
        let reply = reply_to(alloc, &mut devices, may, has, &asks[k])?;
        replies.push(reply)?;
    }
    Ok(replies)
}

// Whether an address is among these.
fn has(granted: &[u8], address: u8) -> bool
    ensures { result ≡ list_any (λ g. g == address) granted.now }
{
    granted.iter().any(|g| *g == address)
}

// Whether one of these requests claims an address.
fn claimed_in(before: &[BusAsk], address: u8) -> bool
    ensures { result ≡ list_any (λ q. claims q address) before.now }
{
    before.iter().any(|ask| claims(ask, address))
}

// Whether an address is among those granted, and one of these requests claims it.
fn is_claimed(granted: &[u8], before: &[BusAsk], address: u8) -> bool
    ensures { result ≡ is_claimed granted.now before.now address }
{
    has(granted, address) && claimed_in(before, address)
}
