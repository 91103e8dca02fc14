//! When an actor of the block class is at rest, by the journal: exactly where all that its sheet
//! wants is settled.

ghost use Rattle.std.specs.Prelude.{◌≡◌, ℕ, List};
ghost use Rattle.wire_core.specs.declared.names.Entry.{Entry};
ghost use Rattle.wire_core.specs.Lists.{Passed};
ghost use Rattle.wire_core.specs.Queues.{Queue, end_at};
ghost use Rattle.wire_core.specs.Journal.{History};
ghost use Rattle.turn_kit.specs.Turns.{is_at_rest};
ghost use Rattle.turn_kit.specs.declared.pipe.Pipe.{Pipe};
ghost use Rattle.play_core.specs.Moved.{moved};
ghost use Rattle.play_core.specs.Wants.{all_settled};
ghost use Rattle.play_core.specs.Sheets.{Scene};
ghost use Rattle.pipe_driver.specs.Drivers.{FitsPipes, PipesStandFor, pipes_round};
ghost use Rattle.device_model.specs.Disk.Disks.{FitsDisk, DiskStandsFor, disk_round};
ghost use Rattle.device_model.specs.declared.disk.DiskDevice.{DiskDevice};
ghost use Rattle.client_programs.specs.Blk.Clients.{FitsBlkClient, BlkClientStandsFor};
ghost use Rattle.client_programs.specs.Blk.Clients.{blk_client_round};
ghost use Rattle.client_programs.specs.declared.blk.BlkClient.{BlkClient};
ghost use Rattle.blk_virt.specs.Virtualising.{FitsBlkVirt, BlkVirtStandsFor, blk_virt_round};
ghost use Rattle.blk_virt.specs.declared.virtualiser.BlkVirt.{BlkVirt};
ghost use Rattle.blk_law.specs.Sheets.Table.{blk_sheet};
ghost use Rattle.blk_law.specs.Sheets.Playing.{disk_part, blk_driver_part, virt_part};
ghost use Rattle.blk_law.specs.Sheets.Playing.{blk_client_part, DiskInTurn, ClientInTurn};
ghost use Rattle.blk_law.specs.Sheets.Playing.{VirtInTurn};
ghost use Rattle.play_core.specs.Rests.Showing.{HaveItems, HaveBells};

/// An actor that fits the queues as history and journal show them, and stands for the entries that
/// passed, of which none came out of turn, is at rest exactly where all that its sheet wants
/// is settled.
pub fn blk_rests_law()
    ensures disk { (scene : Scene) (history : History) (journal : List Entry) (world : List Queue)
        (passed : Passed) → HaveItems passed (moved history journal)
        → HaveBells world history journal
        → (image : List ℕ) (d : DiskDevice) → DiskInTurn image d passed
        → FitsDisk (end_at world) d → DiskStandsFor image d passed
        → is_at_rest (disk_round d) ≡ all_settled history journal
        ((blk_sheet scene (disk_part image d)).wants (moved history journal)) }
    ensures driver { (scene : Scene) (history : History) (journal : List Entry)
        (world : List Queue) (passed : Passed) → HaveItems passed (moved history journal)
        → HaveBells world history journal
        → (ps : List Pipe) (last : ℕ) → FitsPipes (end_at world) ps → PipesStandFor ps passed
        → is_at_rest (pipes_round ps last) ≡ all_settled history journal
        ((blk_sheet scene (blk_driver_part ps)).wants (moved history journal)) }
    ensures client { (scene : Scene) (history : History) (journal : List Entry)
        (world : List Queue) (passed : Passed) → HaveItems passed (moved history journal)
        → HaveBells world history journal
        → (c : BlkClient) → ClientInTurn c passed → FitsBlkClient (end_at world) c
        → BlkClientStandsFor c passed
        → is_at_rest (blk_client_round c) ≡ all_settled history journal
        ((blk_sheet scene (blk_client_part c)).wants (moved history journal)) }
    ensures virtualiser { (scene : Scene) (history : History) (journal : List Entry)
        (world : List Queue) (passed : Passed) → HaveItems passed (moved history journal)
        → HaveBells world history journal
        → (v : BlkVirt) → VirtInTurn scene.image v passed → FitsBlkVirt (end_at world) v
        → BlkVirtStandsFor v passed
        → is_at_rest (blk_virt_round v) ≡ all_settled history journal
        ((blk_sheet scene (virt_part v)).wants (moved history journal)) }
{}
