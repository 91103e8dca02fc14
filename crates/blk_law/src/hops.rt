//! How often the entries of the block class are moved from queue to queue, apart from any system:
//! what the bound on the steps of a play asks of the class.

ghost use Rattle.std.specs.Prelude.{◌≤◌, List, length};
ghost use Rattle.wire_core.specs.declared.names.QueueRow.{QueueRow};
ghost use Rattle.wire_core.specs.declared.names.Entry.{Entry};
ghost use Rattle.wire_core.specs.Journal.{History, Hostiles, QueuesFlow};
ghost use Rattle.play_core.specs.Moved.{moved};
ghost use Rattle.play_core.specs.Sheets.{Scene};
ghost use Rattle.blk_law.specs.Sheets.Numbers.{BlkPlace};
ghost use Rattle.blk_law.specs.Hops.Hops.{blk_put, blk_moves, IsBlock};

/// Where the queues hand over in order and the rows of the class's actors hold, no more was put to
/// its queues than six entries for each request, and four for the read of the first block.
pub fn hop_law()
    ensures { (scene : Scene) (hostile : Hostiles) (history : History) (rows : List QueueRow)
        (journal : List Entry) (place : BlkPlace)
        → QueuesFlow history rows journal
        → IsBlock scene hostile rows (moved history journal) place
        → blk_put place.first (length place.entries) (moved history journal)
        ≤ blk_moves place.asks }
{}
