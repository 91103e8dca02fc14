//! How the virtualiser judges the requests of a client: by its buffers and by its blocks.
use blk_mbr::Part;
use blk_virt::Holder;
use cargo_core::{BlkReq, BlkStatus, Body, Code, Item, Memory, Page, PoolId};
use std::alloc::Global;
use std::test::Fail;

/// A client with the two buffers of pool 5.
const CLIENT: Holder = Holder {
    pool: PoolId(5),
    buffers: 2,
    base: 0x4000_0000,
    partition: 0,
};

/// Its partition: the blocks 1 to 9 of the disk.
const PART: Option<Part> = Some(Part {
    first_block: 1,
    blocks: 9,
});

// A request.
fn request(code: Code, addr: u64, block: u32, count: u16) -> Item {
    Item::Req(BlkReq {
        code,
        addr,
        block,
        count,
        id: 0,
    })
}

// How a read of one block is judged that names an address and comes with a buffer of a pool, and
// whether its buffer is another's.
fn with_buffer(
    alloc: Global,
    part: Option<Part>,
    addr: u64,
    pool: u16,
    no: u32,
) -> Result<(BlkStatus, bool), Memory> {
    let page = Page::new(alloc, PoolId(pool), no, 32_768)?;
    let entry = (request(Code::Read, addr, 0, 1), Body::Page(page));
    Ok((CLIENT.judge(part, &entry), CLIENT.is_bad(&entry)))
}

// How a request for blocks is judged that comes with the client's first buffer.
fn of_blocks(alloc: Global, code: Code, block: u32, count: u16) -> Result<BlkStatus, Memory> {
    let page = Page::new(alloc, PoolId(5), 0, 32_768)?;
    let entry = (request(code, 0, block, count), Body::Page(page));
    Ok(CLIENT.judge(PART, &entry))
}

#[test]
fn buffers_of_requests(rt: HostRuntime) -> Result<(), Fail> {
    let own = (BlkStatus::Ok, false);
    let bad = (BlkStatus::Invalid, true);
    for (part, addr, pool, no, want) in [
        (PART, 0, 5, 0, own),
        (PART, 32_768, 5, 1, own),
        // of another pool
        (PART, 0, 6, 0, bad),
        // past the last one
        (PART, 65_536, 5, 2, bad),
        // an address inside the buffer, of the other buffer, and of the device
        (PART, 1, 5, 0, bad),
        (PART, 32_768, 5, 0, bad),
        (PART, 0x4000_0000, 5, 0, bad),
        // without a partition
        (None, 0, 5, 0, (BlkStatus::NoDevice, false)),
        (None, 0, 6, 0, (BlkStatus::NoDevice, true)),
    ] {
        let got = with_buffer(rt.alloc(), part, addr, pool, no)?;
        assert!(rt; got == want, "buffer {no} of pool {pool} at {addr}");
    }
    Ok(())
}

// A request without a buffer is judged so, and its buffer is another's or not.
#[test]
fn requests_without_a_buffer(rt: HostRuntime) {
    for (code, count, part, want, is_bad) in [
        (Code::Read, 1, PART, BlkStatus::Invalid, true),
        (Code::Flush, 0, PART, BlkStatus::Ok, false),
        (Code::Barrier, 0, None, BlkStatus::NoDevice, false),
    ] {
        let entry = (request(code, 0, 0, count), Body::Empty);
        assert!(rt; CLIENT.judge(part, &entry) == want, "{code:?}");
        assert!(rt; CLIENT.is_bad(&entry) == is_bad, "{code:?}");
    }
}

#[test]
fn blocks_of_requests(rt: HostRuntime) -> Result<(), Fail> {
    let ok = BlkStatus::Ok;
    let invalid = BlkStatus::Invalid;
    for (code, block, count, want) in [
        (Code::Read, 0, 0, invalid),
        (Code::Read, 0, 1, ok),
        (Code::Read, 0, 8, ok),
        (Code::Read, 0, 9, invalid),
        (Code::Write, 0, 9, invalid),
        // the last block, and the one after
        (Code::Write, 8, 1, ok),
        (Code::Write, 9, 1, invalid),
        (Code::Write, 8, 2, invalid),
        (Code::Read, 1, 8, ok),
        (Code::Read, 2, 8, invalid),
        (Code::Read, u32::MAX, 8, invalid),
    ] {
        let got = of_blocks(rt.alloc(), code, block, count)?;
        assert!(rt; got == want, "{code:?} of {count} blocks from {block}");
    }
    Ok(())
}
