//! A run of blocks is read and written as a disk of its own.
ghost use Rattle.std.specs.Prelude.{◌≡◌, ◌+◌, ◌*◌, ◌≤◌, ℕ, List, true, length};
ghost use Rattle.cargo_core.specs.Blocks.{block_bytes};
ghost use Rattle.class_expect.specs.BlkExpect.BlkKit.Blocks.{has_blocks, blocks_at, with_blocks};

/// A read and a write inside a run of blocks are those of the run alone, by their places in it, and
/// a write beside it leaves it.
pub fn run_law()
    ensures read { (image : List ℕ) (first count block n : ℕ) → block + n ≤ count
        → blocks_at image (first + block) n ≡ blocks_at (blocks_at image first count) block n }
    ensures write { (image bytes : List ℕ) (first count block : ℕ)
        → block * block_bytes + length bytes ≤ count * block_bytes
        → has_blocks image first count ≡ true
        → blocks_at (with_blocks image (first + block) bytes) first count
        ≡ with_blocks (blocks_at image first count) block bytes }
    ensures above { (image bytes : List ℕ) (first count block : ℕ) → first + count ≤ block
        → has_blocks image first count ≡ true
        → blocks_at (with_blocks image block bytes) first count ≡ blocks_at image first count }
    ensures below { (image bytes : List ℕ) (first count block : ℕ)
        → block * block_bytes + length bytes ≤ first * block_bytes
        → has_blocks image first count ≡ true
        → blocks_at (with_blocks image block bytes) first count ≡ blocks_at image first count }
{}
