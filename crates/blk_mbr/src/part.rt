//! A partition in blocks.

/// A partition: the block of the disk at which it begins, and how many blocks it has. A block has
/// 4,096 bytes, which are eight sectors.
#[derive(Clone, Copy, Debug, PartialEq, Eq)]
pub struct Part {
    pub first_block: u32,
    pub blocks: u32,
}
