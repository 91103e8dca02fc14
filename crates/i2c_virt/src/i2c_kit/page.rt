//! What the bytes of a buffer say: a request, and in its place the reply to it.
ghost use Rattle.std.specs.Prelude.{◌≡◌, ◌≤◌, length, true, drop, IfOk, IsSome};
ghost use Rattle.std.specs.Option.{ForSome};
ghost use Rattle.i2c_virt.specs.I2cKit.Pages.{is_address, is_count, is_request, operation_of, suits};
ghost use Rattle.i2c_virt.specs.I2cKit.Pages.{head_in, asked, request_in, SpellsRequest, status_number};
ghost use Rattle.i2c_virt.specs.I2cKit.Pages.{status_in, bytes_due, with_reply, SpellsReply};
ghost use Rattle.i2c_text.specs.declared.bus.BusAsk.{BusAsk};

use cargo_core::{Bytes, Memory, Page};
use i2c_text::{BusAsk, BusStatus};
use std::alloc::Global;

/// How many bytes a buffer has.
pub const BUFFER_BYTES: usize = 64;

/// How many buffers a client has.
pub const BUFFERS: usize = 2;

/// Where the data of a buffer begin: operation, address, status and count come before them, a byte
/// each.
pub const DATA: usize = 4;

/// The most bytes of a transfer.
pub const MOST_BYTES: usize = 32;

/// What a request asks for.
#[derive(Clone, Copy, Debug, PartialEq, Eq)]
pub enum Operation {
    Claim,
    Read,
    Write,
}

/// What the first bytes of a buffer say of a request. The count is that of the bytes which a
/// transfer reads or writes.
#[derive(Clone, Copy, Debug, PartialEq, Eq)]
pub struct Head {
    pub operation: Operation,
    pub address: u8,
    pub count: u8,
}

// Whether a number can be the address of a device.
fn is_address(address: u8) -> bool
    ensures { result ≡ is_address address }
{
    8 <= address && address <= 119
}

// Whether a transfer can have so many bytes.
fn is_count(count: u8) -> bool
    ensures { result ≡ is_count count }
{
    1 <= count && usize::from(count) <= MOST_BYTES
}

// The operation of a number.
fn operation_of(number: u8) -> Option<Operation>
    ensures { result ≡ operation_of number }
{
    match number {
        0 => Some(Operation::Claim),
        1 => Some(Operation::Read),
        2 => Some(Operation::Write),
        _ => None,
    }
}

// Whether a count suits an operation; that of a claim says nothing.
fn suits(operation: Operation, count: u8) -> bool
    ensures { result ≡ suits operation count }
{
    match operation {
        Operation::Claim => true,
        Operation::Read | Operation::Write => is_count(count),
    }
}

/// The head of the request that a page spells; None where it spells none.
#[tactic(auto, unfolding(crate::specs::I2cKit::Pages::head_in))]
pub fn read_head(page: &[u8]) -> Option<Head>
    ensures head { result ≡ head_in page.now }
    ensures size { IsSome result → length page.now ≡ BUFFER_BYTES }
    ensures suits { ForSome result (λ h. suits h.operation h.count ≡ true) }
{
    if page.len() != BUFFER_BYTES || !is_address(page[1]) {
        return None;
    }
    let operation = operation_of(page[0])?;
    if !suits(operation, page[3]) {
        return None;
    }
    Some(Head {
        operation,
        address: page[1],
        count: page[3],
    })
}

// The request of a head and of the bytes behind it.
fn ask_of(alloc: Global, head: Head, bytes: &[u8]) -> Result<BusAsk, Memory>
    requires room { MOST_BYTES ≤ length bytes.now }
    requires suits { suits head.operation head.count ≡ true }
    ensures { IfOk result
        (λ ask. ask ≡ asked head.operation head.address head.count bytes.now) }
{
    match head.operation {
        Operation::Claim => Ok(BusAsk::Claim(head.address)),
        Operation::Read => Ok(BusAsk::Read(head.address, head.count)),
        Operation::Write => {
            let written = Bytes::from_slice(alloc, &bytes[..usize::from(head.count)])?;
            Ok(BusAsk::Write(head.address, written))
        }
    }
}

/// The request that a page spells; None where it spells none.
#[tactic(auto, unfolding(crate::specs::I2cKit::Pages::request_in))]
pub fn read_request(alloc: Global, page: &[u8]) -> Result<Option<BusAsk>, Memory>
    ensures { IfOk result (λ ask. ask ≡ request_in page.now) }
{
    match read_head(page) {
        None => Ok(None),
        Some(head) => {
            let ask = ask_of(alloc, head, &page[DATA..])?;
            Ok(Some(ask))
        }
    }
}

/// Makes a page spell a request; the page has the length of a buffer, and the request is one that a
/// text can give.
#[tactic(auto, unfolding(crate::specs::I2cKit::Pages::head_in, crate::specs::I2cKit::Pages::request_in))]
pub fn write_request(page: &mut Page, ask: &BusAsk)
    requires size { length page.old.bytes ≡ BUFFER_BYTES }
    requires good { is_request ask.now ≡ true }
    ensures spelled { SpellsRequest page.new.bytes ask.now }
    ensures same { (page.new.pool ≡ page.old.pool) × (page.new.no ≡ page.old.no) }
{
    match ask {
        BusAsk::Claim(address) => page.fill(0, &[0, *address, 0, 0]),
        BusAsk::Read(address, count) => page.fill(0, &[1, *address, 0, *count]),
        BusAsk::Write(address, bytes) => {
            page.fill(0, &[2, *address, 0, bytes.len() as u8]);
            page.fill(DATA, bytes.as_slice());
        }
    }
}

/// The number of a status.
pub fn status_number(status: BusStatus) -> u8
    ensures { result ≡ status_number status }
{
    match status {
        BusStatus::Ok => 0,
        BusStatus::Taken => 1,
        BusStatus::Unclaimed => 2,
        BusStatus::NoAck => 3,
    }
}

/// Writes a reply into a page, by its status and its bytes.
#[tactic(auto, unfolding(crate::specs::I2cKit::Pages::with_reply))]
pub fn write_answer(page: &mut Page, status: BusStatus, bytes: &[u8])
    requires size { length page.old.bytes ≡ BUFFER_BYTES }
    requires few { length bytes.now ≤ MOST_BYTES }
    ensures after { page.new
        ≡ record page.old { bytes = with_reply page.old.bytes status bytes.now } }
    ensures spelled { (ask : BusAsk) → length bytes.now ≡ bytes_due status ask
        → SpellsReply page.new.bytes ask (record { status = status; bytes = bytes.now }) }
{
    page.fill(2, &[status_number(status)]);
    page.fill(DATA, bytes);
}

/// The status of the reply that a page spells; None where it spells none.
#[tactic(auto, unfolding(crate::specs::I2cKit::Pages::status_in))]
pub fn read_status(page: &[u8]) -> Option<BusStatus>
    ensures { result ≡ status_in page.now }
{
    if page.len() != BUFFER_BYTES {
        return None;
    }
    match page[2] {
        0 => Some(BusStatus::Ok),
        1 => Some(BusStatus::Taken),
        2 => Some(BusStatus::Unclaimed),
        3 => Some(BusStatus::NoAck),
        _ => None,
    }
}

/// How many bytes the reply of a status to a request has.
pub fn bytes_due(status: BusStatus, ask: &BusAsk) -> usize
    ensures { result ≡ bytes_due status ask.now }
{
    match ask {
        BusAsk::Read(_, count) if status == BusStatus::Ok => usize::from(*count),
        _ => 0,
    }
}
