//! How often the entries of the serial class are moved from queue to queue, apart from any system:
//! what the bound on the steps of a play asks of the class.

ghost use Rattle.std.specs.Prelude.{◌+◌, ◌*◌, ◌≤◌, List};
ghost use Rattle.wire_core.specs.declared.names.QueueRow.{QueueRow};
ghost use Rattle.wire_core.specs.declared.names.Entry.{Entry};
ghost use Rattle.wire_core.specs.Journal.{History, Hostiles, QueuesFlow};
ghost use Rattle.play_core.specs.Moved.{moved};
ghost use Rattle.serial_law.specs.Table.{serial_sheet};
ghost use Rattle.serial_law.specs.Serial.{SerialClass, IsSerial};
ghost use Rattle.serial_law.specs.Hops.Hops.{serial_put, serial_gone, serial_bytes};

/// Where the queues hand over in order and the rows of the class's actors hold, no more was put to
/// its queues, and dropped for its clients, than three entries for each byte that comes in or is
/// said.
pub fn hop_law()
    ensures { (hostile : Hostiles) (history : History) (rows : List QueueRow)
        (journal : List Entry) (class : SerialClass)
        → QueuesFlow history rows journal
        → IsSerial (λ p. (serial_sheet p).row (moved history journal)) hostile rows class
        → serial_put class (moved history journal) + serial_gone class (moved history journal)
        ≤ 3 * serial_bytes class }
{}
