//! What a client of the block class recorded at any moment, from the rows of client, virtualiser
//! and disk, apart from any system.

ghost use Rattle.std.specs.Prelude.{◌≡◌, ℕ, true, List};
ghost use Rattle.cargo_core.specs.declared.item.Ask.{Ask};
ghost use Rattle.class_expect.specs.BlkExpect.Replies.{has_partition, partition_in};
ghost use Rattle.blk_virt.specs.declared.requests.Holder.{Holder};
ghost use Rattle.blk_law.specs.Replying.{AreSized};
ghost use Rattle.blk_law.specs.Records.Served.{RecordsAtAnyMoment};

/// At any moment a client recorded a beginning of what it must get, whatever the others ask for.
pub fn client_law()
    ensures { (image : List ℕ) (entry : ℕ) (asks : List Ask) (holder : Holder)
        → has_partition (partition_in image entry) image ≡ true → AreSized asks
        → RecordsAtAnyMoment image entry asks holder }
{}
