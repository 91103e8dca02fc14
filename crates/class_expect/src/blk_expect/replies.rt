//! What a block client must get for its requests: a plain program for tests.
ghost use Rattle.std.specs.Prelude.{◌≡◌, ◌<◌, ◌≤◌, ◌/◌, ◌^◌, true, length, IfOk};
ghost use Rattle.cargo_core.specs.Blocks.{sector_bytes};
ghost use Rattle.class_expect.specs.BlkExpect.Replies.{HasBytes, has_partition, partition_in, partition_bytes};
ghost use Rattle.class_expect.specs.BlkExpect.Replies.{status_to, reply_of, left_by, replies_from, replies_of};

use crate::blk_expect::blk_kit::{blocks_at, moved_blocks};
use crate::blk_expect::judge;
use blk_mbr::{Part, partition_law, read_mbr};
use cargo_core::{Ask, BLOCK_BYTES, BlkResp, BlkStatus, Bytes, Code, Memory, Reply, SECTOR_BYTES};
use std::alloc::Global;

// The partition of an entry, of a disk with this image.
fn partition_in(image: &[u8], entry: u8) -> Option<Part>
    requires entry { entry < 4 }
    requires sector { sector_bytes ≤ length image.now }
    requires sectors { length image.now / sector_bytes < 2 ^ 32 }
    ensures part { result ≡ partition_in image.now entry }
    ensures within { has_partition result image.now ≡ true }
{
    let Some(sector) = image.first_chunk::<SECTOR_BYTES>() else {
        return None;
    };
    partition_law();
    let sectors = (image.len() / SECTOR_BYTES) as u32;
    let partitions = read_mbr(sector, sectors);
    partitions.part(entry)
}

// The bytes of a client's blocks.
fn partition_bytes(alloc: Global, part: Option<Part>, image: &[u8]) -> Result<Bytes, Memory>
    requires { has_partition part image.now ≡ true }
    ensures bytes { IfOk result (λ b. b ≡ partition_bytes part image.now) }
    ensures size { IfOk result (λ b. HasBytes part b) }
{
    match part {
        Some(part) => Bytes::from_slice(alloc, blocks_at(image, part.first_block, part.blocks)),
        None => Ok(Bytes::new(alloc)),
    }
}

// How a client's request is judged, whose buffer is always its own.
fn status_to(part: Option<Part>, ask: &Ask) -> BlkStatus
    ensures { result ≡ status_to part ask.now }
{
    judge(true, part, ask.code, ask.block, ask.count)
}

// The reply to a request with this id, on the bytes of the client's partition.
fn reply_to(
    alloc: Global,
    part: Option<Part>,
    bytes: &[u8],
    id: u32,
    ask: &Ask,
) -> Result<Reply, Memory>
    requires { HasBytes part bytes.now }
    ensures { IfOk result (λ r. r ≡ reply_of (status_to part ask.now) bytes.now id ask.now) }
{
    let status = status_to(part, ask);
    let goes_well = status == BlkStatus::Ok;
    let count = if goes_well {
        moved_blocks(ask.code, ask.count)
    } else {
        0
    };
    let read: &[u8] = if goes_well && ask.code == Code::Read {
        blocks_at(bytes, ask.block, ask.count as u32)
    } else {
        &[]
    };
    Ok(Reply {
        resp: BlkResp { status, count, id },
        bytes: Bytes::from_slice(alloc, read)?,
    })
}

// Stores what a request writes.
fn store(part: Option<Part>, bytes: &mut Bytes, ask: &Ask)
    requires { HasBytes part bytes.old }
    ensures bytes { bytes.new ≡ left_by (status_to part ask.now) bytes.old ask.now }
    ensures size { HasBytes part bytes.new }
{
    if ask.code == Code::Write && status_to(part, ask) == BlkStatus::Ok {
        let fill = ask.fill.as_slice();
        let len = fill.len().min(ask.count as usize * BLOCK_BYTES);
        bytes.replace(ask.block as usize * BLOCK_BYTES, &fill[..len]);
    }
}

// The replies to these requests, with ids from 0 on.
fn replies_from(
    alloc: Global,
    part: Option<Part>,
    bytes: Bytes,
    asks: &[Ask],
) -> Result<Vec<Reply>, Memory>
    requires bytes { HasBytes part bytes }
    requires ids { length asks.now ≤ 2 ^ 32 }
    ensures { IfOk result (λ rs. rs.items ≡ replies_from part bytes 0 asks.now) }
{
    let mut bytes = bytes;
    let mut replies = Vec::new(alloc);
    for (k, ask) in asks.iter().enumerate() {
        let reply = reply_to(alloc, part, bytes.as_slice(), k as u32, ask)?;
        replies.push(reply)?;
        store(part, &mut bytes, ask);
    }
    Ok(replies)
}

/// What a client with the partition of an entry must get for its requests, by the image of the disk
/// at the start. It asks for nothing else: what others write doesn't matter.
pub fn replies_of(
    alloc: Global,
    image: &[u8],
    entry: u8,
    asks: &[Ask],
) -> Result<Vec<Reply>, Memory>
    requires entry { entry < 4 }
    requires sector { sector_bytes ≤ length image.now }
    requires sectors { length image.now / sector_bytes < 2 ^ 32 }
    requires ids { length asks.now ≤ 2 ^ 32 }
    ensures { IfOk result (λ rs. rs.items ≡ replies_of image.now entry asks.now) }
{
    let part = partition_in(image, entry);
    let bytes = partition_bytes(alloc, part, image)?;
    replies_from(alloc, part, bytes, asks)
}
