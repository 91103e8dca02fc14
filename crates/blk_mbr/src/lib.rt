//! The partition table in the first sector of a disk, as a master boot record has it, and the
//! partitions that it gives in blocks of 4,096 bytes. The block and which tables aren't trusted are
//! from sDDF's block virtualiser.
#![tactic(auto)]

mod entry;
mod part;
mod partitions;

pub use entry::Entry;
pub use part::Part;
pub use partitions::{Partitions, partition_law, read_mbr};
