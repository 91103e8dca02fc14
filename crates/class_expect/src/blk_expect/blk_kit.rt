//! What the actors of the block class share: the blocks of an image, and the pages that carry them.

mod blocks;
mod laws;
mod pages;

pub use blocks::{blocks_at, has_blocks, moved_blocks};
pub use laws::run_law;
pub use pages::{carried_blocks, fill, has_room};
