//! The blocks of an image.
ghost use Rattle.std.specs.Prelude.{◌≡◌, ◌*◌, true, length};
ghost use Rattle.cargo_core.specs.Blocks.{block_bytes};
ghost use Rattle.class_expect.specs.BlkExpect.BlkKit.Blocks.{has_blocks, blocks_at, moved_blocks};

use cargo_core::{BLOCK_BYTES, Code};

/// Whether some blocks, from one on, are all in an image.
pub fn has_blocks(image: &[u8], block: u32, count: u32) -> bool
    ensures { result ≡ has_blocks image.now block count }
{
    (block as usize + count as usize) * BLOCK_BYTES <= image.len()
}

/// The bytes of some blocks of an image, from one on.
pub fn blocks_at(image: &[u8], block: u32, count: u32) -> &[u8]
    requires { has_blocks image.now block count ≡ true }
    ensures bytes { result.now ≡ blocks_at image.now block count }
    ensures size { length result.now ≡ count * block_bytes }
{
    let from = block as usize * BLOCK_BYTES;
    &image[from..from + count as usize * BLOCK_BYTES]
}

/// How many blocks a request moves: a read or a write those that it names, a flush or a barrier
/// none.
pub fn moved_blocks(code: Code, count: u16) -> u16
    ensures { result ≡ moved_blocks code count }
{
    match code {
        Code::Read | Code::Write => count,
        Code::Flush | Code::Barrier => 0,
    }
}
