//! What the disk takes is in turn by the lengths of the pages that it has in hand alone.

ghost use Rattle.std.specs.Prelude.{◌≡◌, ℕ, Some, [], All, slice_get};
ghost use Rattle.wire_core.specs.Deeds.{Cargo};
ghost use Rattle.wire_core.specs.Lists.{Passed};
ghost use Rattle.device_model.specs.Disk.Disks.{DiskRow};
ghost use Rattle.blk_virt.specs.Desks.{holders};
ghost use Rattle.blk_virt.specs.declared.requests.Holder.{Holder};
ghost use Rattle.blk_law.specs.Sheets.Numbers.{BlkPlace};
ghost use Rattle.blk_quiet.specs.Cast.Casting.{IsBlkCast};
ghost use Rattle.blk_quiet.specs.Cast.Lengths.{IsLongFor};

/// The disk takes nothing out of turn, whatever the clients put, where a page of what came last takes
/// eight blocks if it is of a client's pool: the virtualiser sends on what is within the client's
/// partition and at a buffer of its own.
pub fn length_law()
    ensures { (place : BlkPlace) (passed : Passed) → (h : IsBlkCast place passed)
        → (row : DiskRow place.image h.disk passed)
        → ((k : ℕ) (g : Holder) → slice_get (holders h.virt.work.desk) k ≡ Some g
        → All (λ (x : Cargo). IsLongFor g x.1) row.stray) → row.stray ≡ [] }
{}
