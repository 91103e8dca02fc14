//! How a disk does one request on its image.
ghost use Rattle.std.specs.Prelude.{◌≡◌, ◌*◌, ◌≤◌, true, false, length};
ghost use Rattle.device_model.specs.Disk.Serving.{is_stray, strays_by, resp_to, body_back};
ghost use Rattle.device_model.specs.Disk.Serving.{stored, answer_to, done};

use cargo_core::{BLOCK_BYTES, BlkReq, BlkResp, BlkStatus, Body, Bytes, Code, Item};
use class_expect::blk_expect::blk_kit::{
    blocks_at, carried_blocks, fill, has_blocks, has_room, moved_blocks,
};

// Whether a request is out of turn.
fn strays(image: &[u8], r: BlkReq, body: &Body) -> bool
    ensures { result ≡ strays_by r.code image.now r body.now }
{
    match r.code {
        Code::Read => !has_blocks(image, r.block, r.count as u32),
        Code::Write => !has_blocks(image, r.block, r.count as u32) || !has_room(r.count, body),
        Code::Flush | Code::Barrier => false,
    }
}

/// Whether an entry is out of turn: a read or a write past the image, a write without a page of its
/// count of blocks, or no request.
pub fn is_stray(image: &[u8], entry: &(Item, Body)) -> bool
    ensures { result ≡ is_stray image.now entry.now }
{
    match entry.0 {
        Item::Req(r) => strays(image, r, &entry.1),
        _ => true,
    }
}

// Stores what a request writes.
fn store(image: &mut Bytes, r: BlkReq, body: &Body)
    requires { strays_by r.code image.old r body.now ≡ false }
    ensures image { image.new ≡ stored r.code image.old r body.now }
    ensures size { length image.new ≡ length image.old }
{
    if r.code == Code::Write {
        image.replace(
            r.block as usize * BLOCK_BYTES,
            carried_blocks(r.count, body),
        );
    }
}

// What goes back with the answer to a request.
fn body_back(image: &[u8], r: BlkReq, body: Body) -> Body
    requires { strays_by r.code image.now r body ≡ false }
    ensures { result ≡ body_back r.code image.now r body }
{
    if r.code == Code::Read {
        return fill(body, blocks_at(image, r.block, r.count as u32));
    }
    body
}

/// Does a request on an image, and answers it. It takes no memory, and makes no copy beyond that of
/// the blocks that are moved.
pub fn answer_to(image: &mut Bytes, entry: (Item, Body)) -> (Item, Body)
    requires { is_stray image.old entry ≡ false }
    ensures answer { result ≡ answer_to image.old entry }
    ensures image { image.new ≡ done image.old entry }
    ensures size { length image.new ≡ length image.old }
{
    let (Item::Req(r), body) = entry else {
        unreachable!()
    };
    store(image, r, &body);
    let body = body_back(image.as_slice(), r, body);
    let resp = BlkResp {
        status: BlkStatus::Ok,
        count: moved_blocks(r.code, r.count),
        id: r.id,
    };
    (Item::Resp(resp), body)
}
