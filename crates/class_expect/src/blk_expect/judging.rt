//! How the block virtualiser judges a request.
ghost use Rattle.std.specs.Prelude.{◌≡◌};
ghost use Rattle.class_expect.specs.BlkExpect.Judging.{can_move, status_of};

use blk_mbr::Part;
use cargo_core::{BlkStatus, Code};

/// The most blocks that a request moves: as many as a buffer has room for.
const MOST_BLOCKS: u16 = 8;

// Whether so many blocks of a partition can be moved, from one on.
fn can_move(own: bool, blocks: u32, block: u32, count: u16) -> bool
    ensures { result ≡ can_move own blocks block count }
{
    own && count >= 1 && count <= MOST_BLOCKS && block as u64 + count as u64 <= blocks as u64
}

/// How a request is answered, by whether its buffer is the client's own, the client's partition,
/// the request's code, its first block in the partition and its number of blocks. `NoDevice` comes
/// where the client has no partition; `Invalid` for a read or write of no blocks, of more than
/// eight, past the partition, or by way of a buffer that isn't the client's own. Those that are
/// answered `Ok` are for the disk.
pub fn judge(own: bool, part: Option<Part>, code: Code, block: u32, count: u16) -> BlkStatus
    ensures { result ≡ status_of own part code block count }
{
    let Some(part) = part else {
        return BlkStatus::NoDevice;
    };
    let moves = match code {
        Code::Read | Code::Write => can_move(own, part.blocks, block, count),
        Code::Flush | Code::Barrier => true,
    };
    if moves {
        BlkStatus::Ok
    } else {
        BlkStatus::Invalid
    }
}
