//! The table of the block class, apart from any system: what is said of each kind of its actors,
//! that their needs follow from it, and that their own rows say it of items, where nothing comes
//! out of turn.

ghost use Rattle.std.specs.Prelude.{ℕ, List};
ghost use Rattle.wire_core.specs.Lists.{Passed};
ghost use Rattle.play_core.specs.Moved.{Moved};
ghost use Rattle.play_core.specs.Sheets.{Scene, IsOwn, NeedsFollow};
ghost use Rattle.turn_kit.specs.declared.pipe.Pipe.{Pipe};
ghost use Rattle.pipe_driver.specs.Drivers.{PipesRow};
ghost use Rattle.device_model.specs.Disk.Disks.{DiskRow};
ghost use Rattle.device_model.specs.declared.disk.DiskDevice.{DiskDevice};
ghost use Rattle.client_programs.specs.Blk.Clients.{BlkClientRow};
ghost use Rattle.client_programs.specs.declared.blk.BlkClient.{BlkClient};
ghost use Rattle.blk_virt.specs.Virtualising.{BlkVirtRow};
ghost use Rattle.blk_virt.specs.declared.virtualiser.BlkVirt.{BlkVirt};
ghost use Rattle.net_law.specs.Owners.Ends.{AreItemsOf};
ghost use Rattle.blk_law.specs.Sheets.Parts.{BlkPart};
ghost use Rattle.blk_law.specs.Sheets.Table.{blk_sheet};
ghost use Rattle.blk_law.specs.Sheets.Playing.{disk_part, blk_driver_part, virt_part};
ghost use Rattle.blk_law.specs.Sheets.Playing.{blk_client_part, DiskInTurn, VirtInTurn};
ghost use Rattle.blk_law.specs.Sheets.Playing.{ClientInTurn};

/// What is said of an actor speaks of its own ends alone, and an output is owed exactly where the
/// actor's row would still hold after one more put there.
pub fn table_law()
    ensures own { (scene : Scene) (p : BlkPart) → IsOwn (blk_sheet scene p) }
    ensures follow { (scene : Scene) (p : BlkPart) → NeedsFollow (blk_sheet scene p) }
{}

/// The rows of the actors, of entries with their bodies, say of the items what the table says,
/// where nothing came out of turn: a client's where each response brought the buffer of its
/// request, and the virtualiser's where its clients' buffers are their own and the first response
/// brought the first sector of the scene's image.
pub fn row_law()
    ensures disk { (scene : Scene) (start : List ℕ) (d : DiskDevice) (passed : Passed) (m : Moved)
        → DiskInTurn start d passed → AreItemsOf (blk_sheet scene (disk_part start d)).ends passed m
        → DiskRow start d passed → (blk_sheet scene (disk_part start d)).row m }
    ensures driver { (scene : Scene) (ps : List Pipe) (passed : Passed) (m : Moved)
        → AreItemsOf (blk_sheet scene (blk_driver_part ps)).ends passed m → PipesRow ps passed
        → (blk_sheet scene (blk_driver_part ps)).row m }
    ensures virtualiser { (scene : Scene) (v : BlkVirt) (passed : Passed) (m : Moved)
        → VirtInTurn scene.image v passed
        → AreItemsOf (blk_sheet scene (virt_part v)).ends passed m → BlkVirtRow v passed
        → (blk_sheet scene (virt_part v)).row m }
    ensures client { (scene : Scene) (c : BlkClient) (passed : Passed) (m : Moved)
        → ClientInTurn c passed
        → AreItemsOf (blk_sheet scene (blk_client_part c)).ends passed m → BlkClientRow c passed
        → (blk_sheet scene (blk_client_part c)).row m }
{}
