//! How often the entries of the network are moved from queue to queue, apart from any system: what
//! the bound on the steps of a play asks of the class.

ghost use Rattle.std.specs.Prelude.{◌+◌, ◌≤◌, ℕ, List, length};
ghost use Rattle.wire_core.specs.declared.names.QueueRow.{QueueRow};
ghost use Rattle.wire_core.specs.declared.names.Entry.{Entry};
ghost use Rattle.wire_core.specs.Journal.{History, Hostiles, QueuesFlow};
ghost use Rattle.play_core.specs.Moved.{moved};
ghost use Rattle.play_core.specs.Sheets.{Scene};
ghost use Rattle.net_law.specs.TxParts.Numbers.{NetPlace};
ghost use Rattle.net_law.specs.Hops.Hops.{net_put, net_gone, net_moves, IsNetwork};

/// Where the queues hand over in order and the rows of the class's actors hold, no more was put to
/// its queues, and dropped by its device and its copiers, than the moves that are counted for it:
/// of each frame that the device receives, four and ten for each client; of each frame of a script,
/// six; two for each buffer in which the device receives, and one for each in which a client does.
pub fn hop_law()
    ensures { (scene : Scene) (frames : List (List ℕ)) (hostile : Hostiles) (history : History)
        (rows : List QueueRow) (journal : List Entry) (net : NetPlace)
        → QueuesFlow history rows journal
        → IsNetwork scene frames hostile rows (moved history journal) net
        → net_put net.first (length net.macs) (moved history journal)
        + net_gone net (moved history journal) ≤ net_moves net frames }
{}
