//! The pages that carry blocks.
ghost use Rattle.std.specs.Prelude.{◌≡◌, ◌*◌, true, length};
ghost use Rattle.cargo_core.specs.Blocks.{block_bytes};
ghost use Rattle.class_expect.specs.BlkExpect.BlkKit.Pages.{has_room, carried_blocks, filled_body};

use cargo_core::{BLOCK_BYTES, Body};

/// Whether a body is a page that has room for so many blocks.
pub fn has_room(count: u16, body: &Body) -> bool
    ensures { result ≡ has_room count body.now }
{
    match body {
        Body::Page(page) => count as usize * BLOCK_BYTES <= page.bytes().len(),
        _ => false,
    }
}

/// The blocks that a body carries in the first bytes of its page.
pub fn carried_blocks(count: u16, body: &Body) -> &[u8]
    requires { has_room count body.now ≡ true }
    ensures bytes { result.now ≡ carried_blocks count body.now }
    ensures size { length result.now ≡ count * block_bytes }
{
    match body {
        Body::Page(page) => &page.bytes()[..count as usize * BLOCK_BYTES],
        _ => &[],
    }
}

/// Puts bytes at the front of a page that is long enough. Any other body goes on as it is. It takes
/// no memory.
pub fn fill(body: Body, bytes: &[u8]) -> Body
    ensures { result ≡ filled_body bytes.now body }
{
    match body {
        Body::Page(mut page) => {
            if bytes.len() <= page.bytes().len() {
                page.fill(0, bytes);
            }
            Body::Page(page)
        }
        other => other,
    }
}
