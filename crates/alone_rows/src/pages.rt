//! Pages that spell requests and replies.
ghost use Rattle.std.specs.Prelude.{◌≡◌, ◌≤◌, true, length, IfOk};
ghost use Rattle.i2c_virt.specs.I2cKit.Pages.{is_request};

use crate::telling::tell;
use cargo_core::{Bytes, Memory, Page, PoolId};
use i2c_text::{BusAsk, BusStatus};
use i2c_virt::i2c_kit::{BUFFER_BYTES, read_request, read_status, write_answer, write_request};
use std::alloc::Global;
use std::io;

// A buffer of the bus with nothing in it.
fn blank(alloc: Global) -> Result<Page, Memory>
    ensures { IfOk result (λ p. length p.bytes ≡ BUFFER_BYTES) }
{
    Page::new(alloc, PoolId(0), 0, BUFFER_BYTES as u32)
}

// A buffer that begins with these bytes.
fn begun(alloc: Global, bytes: &[u8]) -> Result<Page, Memory>
    requires { length bytes.now ≤ 4 }
{
    let mut page = blank(alloc)?;
    page.fill(0, bytes);
    Ok(page)
}

// A buffer with a request.
fn asked(alloc: Global, ask: &BusAsk) -> Result<Page, Memory>
    requires { is_request ask.now ≡ true }
{
    let mut page = blank(alloc)?;
    write_request(&mut page, ask);
    Ok(page)
}

// A buffer with a reply of at most two bytes.
fn answered(alloc: Global, status: BusStatus, bytes: &[u8]) -> Result<Page, Memory>
    requires { length bytes.now ≤ 2 }
{
    let mut page = blank(alloc)?;
    write_answer(&mut page, status, bytes);
    Ok(page)
}

// Whether bytes spell no request.
fn is_none(alloc: Global, bytes: &[u8]) -> Result<bool, Memory> {
    Ok(read_request(alloc, bytes)?.is_none())
}

// The request that bytes spell: its form, which is 0 for a claim, its address, how many bytes it is
// to read, and those to write.
fn spelled(alloc: Global, bytes: &[u8]) -> Result<Option<(u8, u8, u8, Bytes)>, Memory> {
    match read_request(alloc, bytes)? {
        Some(BusAsk::Claim(address)) => Ok(Some((0, address, 0, Bytes::new(alloc)))),
        Some(BusAsk::Read(address, count)) => Ok(Some((1, address, count, Bytes::new(alloc)))),
        Some(BusAsk::Write(address, bytes)) => Ok(Some((2, address, 0, bytes))),
        None => Ok(None),
    }
}

// Whether bytes begin with these and spell a request of this form.
fn spells(
    alloc: Global,
    bytes: &[u8],
    begin: &[u8],
    form: (u8, u8, u8),
    written: &[u8],
) -> Result<bool, Memory> {
    let Some((kind, address, count, to_write)) = spelled(alloc, bytes)? else {
        return Ok(false);
    };
    Ok(bytes.starts_with(begin) && (kind, address, count) == form && to_write.as_slice() == written)
}

fn a_blank_page_spells_no_request(alloc: Global) -> Result<bool, Memory> {
    is_none(alloc, blank(alloc)?.bytes())
}

fn a_claim_is_spelled(alloc: Global) -> Result<bool, Memory> {
    let page = asked(alloc, &BusAsk::Claim(8))?;
    spells(alloc, page.bytes(), &[0, 8, 0, 0], (0, 8, 0), &[])
}

fn a_read_is_spelled(alloc: Global) -> Result<bool, Memory> {
    let page = asked(alloc, &BusAsk::Read(119, 32))?;
    spells(alloc, page.bytes(), &[1, 119, 0, 32], (1, 119, 32), &[])
}

fn a_write_is_spelled(alloc: Global) -> Result<bool, Memory> {
    let bytes = Bytes::from_slice(alloc, &[5, 0xaa, 0xbb])?;
    let page = asked(alloc, &BusAsk::Write(80, bytes))?;
    let begin = [2, 80, 0, 3, 5, 0xaa, 0xbb];
    spells(alloc, page.bytes(), &begin, (2, 80, 0), &[5, 0xaa, 0xbb])
}

fn what_is_outside_the_limits_spells_no_request(alloc: Global) -> Result<bool, Memory> {
    for head in [
        [0, 7, 0, 0],
        [0, 120, 0, 0],
        [1, 80, 0, 0],
        [1, 80, 0, 33],
        [2, 80, 0, 33],
        [3, 80, 0, 1],
    ] {
        let page = begun(alloc, &head)?;
        if !is_none(alloc, page.bytes())? {
            return Ok(false);
        }
    }
    is_none(alloc, &[0, 80, 0, 0])
}

fn a_reply_stands_in_its_page(alloc: Global) -> Result<bool, Memory> {
    let good = answered(alloc, BusStatus::Ok, &[0xaa, 0xbb])?;
    let begins = good.bytes().starts_with(&[0, 0, 0, 0, 0xaa, 0xbb]);
    let nobody = answered(alloc, BusStatus::NoAck, &[])?;
    let none = begun(alloc, &[0, 0, 4])?;
    Ok(
        begins
            && read_status(good.bytes()) == Some(BusStatus::Ok)
            && read_status(nobody.bytes()) == Some(BusStatus::NoAck)
            && read_status(none.bytes()).is_none(),
    )
}

/// Prints the rows of pages.
pub fn print_pages(rt: &HostRuntime) -> io::Result<()> {
    let alloc = rt.alloc();
    tell(
        rt,
        "a blank page spells no request",
        a_blank_page_spells_no_request(alloc),
    )?;
    tell(
        rt,
        "a page spells the claim that was written",
        a_claim_is_spelled(alloc),
    )?;
    tell(
        rt,
        "a page spells the read that was written",
        a_read_is_spelled(alloc),
    )?;
    tell(
        rt,
        "a page spells the write that was written",
        a_write_is_spelled(alloc),
    )?;
    let outside = what_is_outside_the_limits_spells_no_request(alloc);
    tell(rt, "what is outside the limits spells no request", outside)?;
    tell(
        rt,
        "a reply stands in its page",
        a_reply_stands_in_its_page(alloc),
    )
}
