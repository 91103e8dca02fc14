//! The serial class as a law of its own, apart from any system: what is said of each kind of its
//! actors, that their needs follow from it, and what the class brings at any moment and where
//! nobody may make a call; what its receiver drops; how often its entries are moved; and that its
//! actors hand on entries without pages.
#![tactic(auto)]

ghost use Rattle.std.specs.Prelude.{◌≡◌, ℕ, false, List, length};
ghost use Rattle.wire_core.specs.declared.names.QueueRow.{QueueRow};
ghost use Rattle.wire_core.specs.declared.names.Entry.{Entry};
ghost use Rattle.wire_core.specs.Journal.{History, Hostiles, QueuesFlow};
ghost use Rattle.play_core.specs.Moved.{Moved, moved};
ghost use Rattle.play_core.specs.Wants.{Needful};
ghost use Rattle.play_core.specs.Sheets.{IsOwn, NeedsFollow};
ghost use Rattle.play_core.specs.Still.{IsStill, Plays};
ghost use Rattle.serial_law.specs.Parts.{SerialPart};
ghost use Rattle.serial_law.specs.Table.{Marks, SharesOut, serial_sheet};
ghost use Rattle.serial_law.specs.Serial.{SerialClass, IsSerial, ArrivesInPart, ArrivesWhole};
ghost use Rattle.serial_law.specs.Beside.{Rogues, IsSerialBeside, ArrivesBeside, said_beside};

pub mod drops;
pub mod hops;
pub mod pools;

/// The table of the serial class: what is said of an actor speaks of its own ends alone, and an
/// output is owed exactly where the actor's row would still hold after one more put there.
pub fn table_law()
    ensures own { (p : SerialPart) → IsOwn (serial_sheet p) }
    ensures follow { (p : SerialPart) → NeedsFollow (serial_sheet p) }
{}

/// Where the queues hand over in order and the rows of the class's actors hold, each client's
/// record is a beginning of its part of the input, but for what is marked as dropped of it, by any
/// marks with which the receiver shares out; and the line is a merge of beginnings of the scripts.
/// Where in addition nobody is runnable, each record is whole but for these, and the line is a
/// merge of the whole scripts. Beside hostile clients of the class, of whose rows nothing is asked,
/// each client's record is such a beginning all the same, and the line is a merge of beginnings of
/// the others' scripts and of what was taken of the hostile ones; where none is, of the scripts.
pub fn serial_law()
    ensures part { (hostile : Hostiles) (history : History) (rows : List QueueRow)
        (journal : List Entry) (class : SerialClass) (marks : Marks)
        → QueuesFlow history rows journal
        → SharesOut marks class.drops class.rx class.client_rx (moved history journal)
        → IsSerial (λ p. (serial_sheet p).row (moved history journal)) hostile rows class
        → ArrivesInPart marks class (moved history journal) }
    ensures whole { (hostile : Hostiles) (history : History) (rows : List QueueRow)
        (actors : Needful) (journal : List Entry) (class : SerialClass) (marks : Marks)
        → IsStill hostile history rows actors journal
        → SharesOut marks class.drops class.rx class.client_rx (moved history journal)
        → IsSerial (λ p. Plays hostile actors (moved history journal)
        (serial_sheet p)) hostile rows class
        → ArrivesWhole marks class (moved history journal) }
    ensures beside { (history : History) (rows : List QueueRow) (journal : List Entry)
        (rogues : Rogues) (class : SerialClass) (marks : Marks)
        → QueuesFlow history rows journal
        → SharesOut marks class.drops class.rx class.client_rx (moved history journal)
        → IsSerialBeside (λ p. (serial_sheet p).row (moved history journal)) rogues rows class
        → ArrivesBeside marks rogues class (moved history journal) }
    ensures all_say { (rogues : Rogues) (class : SerialClass) (m : Moved)
        → ((k : ℕ) → rogues k ≡ false) → length class.client_tx ≡ length class.scripts
        → said_beside rogues class m ≡ class.scripts }
{}
