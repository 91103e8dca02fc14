//! What queues carry, the acts of hostile clients, and the lists and texts in which reports and
//! descriptions are kept.
#![tactic(auto)]

mod act;
mod blocks;
mod bytes;
mod census;
mod frame_log;
mod frame_tape;
mod item;
mod lent;
mod memory;
mod page;
mod ranges;
mod series;
mod slot;
mod tape;
mod text;

pub use act::{Act, Word};
pub use blocks::{BLK_BUFFER_BYTES, BLOCK_BYTES, SECTOR_BYTES};
pub use bytes::Bytes;
pub use census::Census;
pub use frame_log::FrameLog;
pub use frame_tape::FrameTape;
pub use item::{
    Ask, BlkReq, BlkResp, BlkStatus, Body, Code, Item, NetDesc, PoolId, QueueKind, Reply,
};
pub use lent::Lent;
pub use memory::Memory;
pub use page::{Lease, Page};
pub use ranges::{Range, Ranges};
pub use series::Series;
pub use slot::slot_of;
pub use tape::Tape;
pub use text::Text;
