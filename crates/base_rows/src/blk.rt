//! Rows of the block class, with values from the standard of the partition table and from runs
//! that were worked by hand: which partitions a sector gives, which requests go on to the disk, and
//! what clients get for their requests.

mod partition_tests;
mod reply_tests;
mod request_tests;
mod sectors;

pub use sectors::{ENTRY_BYTES, SECTOR_BYTES, entry, sector};
