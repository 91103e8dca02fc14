//! Laws of the block class, over the definitions of its actors and apart from any system: a
//! partition is a disk of its own to its client; at any moment each client recorded a beginning of
//! what it must get; the table of the actors, and when each is at rest; who has which buffer; and
//! how often entries are moved.
#![tactic(auto)]

ghost use Rattle.std.specs.Prelude.{◌≡◌, ℕ, Bool, true, List};
ghost use Rattle.wire_core.specs.Deeds.{Cargo};
ghost use Rattle.class_expect.specs.BlkExpect.BlkKit.Blocks.{has_blocks};
ghost use Rattle.class_expect.specs.BlkExpect.Replies.{has_partition, partition_in};
ghost use Rattle.blk_law.specs.Replying.{AreSized, RecordsReplies};
ghost use Rattle.blk_law.specs.Runs.{ArePartsApart, IsItsOwnDisk};
ghost use Rattle.cargo_core.specs.declared.item.Ask.{Ask};

pub mod hops;
pub mod owners;
pub mod records;
pub mod rests;
pub mod sheets;
pub mod virt_scene;

/// A run of blocks that a disk has is a disk of its own to those whose requests alone touch it.
pub fn own_disk_law()
    ensures { (own : Cargo → Bool) (first count : ℕ) (image : List ℕ)
        → has_blocks image first count ≡ true → IsItsOwnDisk own first count image }
{}

/// What stays in one partition of a disk leaves each other one as it is.
pub fn parts_law()
    ensures { (sector : List ℕ) (disk_sectors : ℕ) → ArePartsApart sector disk_sectors }
{}

/// A client records a beginning of what it must get, where its requests are answered by a disk that
/// has the bytes of its partition alone.
pub fn record_law()
    ensures { (image : List ℕ) (entry : ℕ) (asks : List Ask)
        → has_partition (partition_in image entry) image ≡ true → AreSized asks
        → RecordsReplies image entry asks }
{}
