//! How the requests of block clients are judged, and what a client must get for its requests. That
//! a client reaches its own partition alone, and which requests are refused, is from sDDF's block
//! virtualiser.

pub mod blk_kit;
mod judging;
mod replies;

pub use blk_kit::{blocks_at, carried_blocks, fill, has_blocks, has_room, moved_blocks};
pub use judging::judge;
pub use replies::replies_of;
