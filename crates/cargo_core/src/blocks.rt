//! The units of the block class. A block is what requests count in (from sDDF's block queue
//! header), a sector what a partition table counts in, and a buffer takes eight blocks.

/// How many bytes a block has.
pub const BLOCK_BYTES: usize = 4096;

/// How many bytes a sector has: a block has eight.
pub const SECTOR_BYTES: usize = 512;

/// How many bytes a buffer of the block class has: room for eight blocks.
pub const BLK_BUFFER_BYTES: u32 = 32_768;
