//! What block clients must get for their requests.
ghost use Rattle.std.specs.Prelude.{◌≡◌, ◌<◌, ◌≤◌, ◌+◌, ◌^◌, IfOk, length};

use crate::blk::{entry, sector};
use cargo_core::{Ask, BlkStatus, Bytes, Code, Memory, Reply};
use class_expect::blk_expect::replies_of;
use std::alloc::Global;
use std::test::Fail;

/// What a reply says, and how many bytes of the one value that all of them have it brings.
#[derive(Clone, Copy, PartialEq, Eq)]
struct Summary {
    status: BlkStatus,
    count: u16,
    id: u32,
    bytes: usize,
    value: u8,
}

// The image of a disk with this table in its first sector, and so many zeros behind that.
fn image(alloc: Global, second_first: u32, zeros: usize) -> Result<Bytes, Memory>
    requires { zeros < 65536 }
    ensures { IfOk result (λ bytes. length bytes ≡ 512 + zeros) }
{
    let table = sector(entry(0x83, 8, 16), entry(0x83, second_first, 8));
    let mut bytes = Bytes::from_slice(alloc, &table)?;
    let rest = vec![in alloc; 0; zeros]?;
    bytes.extend_from_slice(&rest)?;
    Ok(bytes)
}

// A request for blocks, with bytes that are to be written.
fn ask(alloc: Global, code: Code, block: u32, count: u16, fill: usize) -> Result<Ask, Memory> {
    let fill = vec![in alloc; 0xAB; fill]?;
    Ok(Ask {
        code,
        block,
        count,
        fill: Bytes::from_vec(fill),
    })
}

// What the reply at a place says; None where it brings bytes of several values.
fn told(replies: &[Reply], k: usize) -> Option<Summary> {
    let reply = replies.get(k)?;
    let bytes = reply.bytes.as_slice();
    let value = bytes.first().copied().unwrap_or(0);
    if bytes.iter().any(|byte| *byte != value) {
        return None;
    }
    Some(Summary {
        status: reply.resp.status,
        count: reply.resp.count,
        id: reply.resp.id,
        bytes: bytes.len(),
        value,
    })
}

// What each reply says that the client of a partition gets for these requests.
fn answers(
    alloc: Global,
    image: &Bytes,
    entry: u8,
    asks: &[Ask],
) -> Result<Vec<Option<Summary>>, Memory>
    requires entry { entry < 4 }
    requires sector { 512 ≤ length image.now }
    requires few { length image.now < 131072 }
    requires ids { length asks.now ≤ 2 ^ 32 }
{
    let replies = replies_of(alloc, image.as_slice(), entry, asks)?;
    let mut all = Vec::new(alloc);
    for k in 0..replies.len() {
        all.push(told(&replies, k))?;
    }
    Ok(all)
}

// A reply that went well.
fn went_well(id: u32, count: u16, bytes: usize, value: u8) -> Option<Summary> {
    Some(Summary {
        status: BlkStatus::Ok,
        count,
        id,
        bytes,
        value,
    })
}

// A reply that was refused.
fn refused(id: u32, status: BlkStatus) -> Option<Summary> {
    Some(Summary {
        status,
        count: 0,
        id,
        bytes: 0,
        value: 0,
    })
}

#[test]
fn a_client_reads_what_it_wrote(rt: HostRuntime) -> Result<(), Fail> {
    let alloc = rt.alloc();
    let image = image(alloc, 24, 31 * 512)?;
    let asks = vec![in alloc;
        ask(alloc, Code::Write, 1, 1, 4096)?,
        ask(alloc, Code::Read, 1, 1, 0)?,
        ask(alloc, Code::Read, 2, 1, 0)?,
        ask(alloc, Code::Flush, 0, 0, 0)?,
    ]?;
    let got = answers(alloc, &image, 0, &asks)?;
    let want = [
        went_well(0, 1, 0, 0),
        went_well(1, 1, 4096, 0xAB),
        refused(2, BlkStatus::Invalid),
        went_well(3, 0, 0, 0),
    ];
    assert!(rt; got.as_slice() == want.as_slice());
    let others = vec![in alloc; ask(alloc, Code::Read, 0, 1, 0)?]?;
    let got = answers(alloc, &image, 1, &others)?;
    assert!(rt; got.as_slice() == [went_well(0, 1, 4096, 0)].as_slice());
    Ok(())
}

#[test]
fn a_client_without_a_partition_is_told_so(rt: HostRuntime) -> Result<(), Fail> {
    let alloc = rt.alloc();
    let image = image(alloc, 25, 63 * 512)?;
    let asks = vec![in alloc;
        ask(alloc, Code::Read, 0, 1, 0)?,
        ask(alloc, Code::Flush, 0, 0, 0)?,
    ]?;
    let first = answers(alloc, &image, 0, &asks)?;
    assert!(rt; first.first() == Some(&went_well(0, 1, 4096, 0)));
    let second = answers(alloc, &image, 1, &asks)?;
    let want = [
        refused(0, BlkStatus::NoDevice),
        refused(1, BlkStatus::NoDevice),
    ];
    assert!(rt; second.as_slice() == want.as_slice());
    Ok(())
}
