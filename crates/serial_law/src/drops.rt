//! Bytes that the receiving virtualiser drops: which ones its calls tell, and the class where it
//! drops none.

ghost use Rattle.std.specs.Prelude.{◌≡◌, ℕ, Bool, List, length};
ghost use Rattle.wire_core.specs.Lists.{Passed};
ghost use Rattle.class_expect.specs.SerialSwitch.Switching.{input_of};
ghost use Rattle.serial_virt.specs.Shares.{AllHold};
ghost use Rattle.serial_virt.specs.Receiving.{RxRow};
ghost use Rattle.serial_virt.specs.declared.rx.SerialVirtRx.{SerialVirtRx};
ghost use Rattle.play_core.specs.Moved.{Moved};
ghost use Rattle.serial_law.specs.Table.{Marks, SharesOut, SharesSome, due_to};
ghost use Rattle.serial_law.specs.Serial.{SerialClass, ArrivesInPart, ArrivesWhole};
ghost use Rattle.serial_law.specs.Beside.{Rogues, ArrivesBeside};
ghost use Rattle.serial_law.specs.Holding.{HoldingShares, HoldingInPart, HoldingWhole};
ghost use Rattle.serial_law.specs.Holding.{HoldingBeside};
ghost use Rattle.serial_law.specs.Dropped.{told_marks, client_queues, TellsReceiver};

/// By its own row the receiver shares out with those bytes dropped that its calls tell.
pub fn told_law()
    ensures { (v : SerialVirtRx) (passed : Passed) (m : Moved) → TellsReceiver v passed m
        → RxRow v passed
        → SharesOut (told_marks v.input.queue.0 (client_queues v) v.drops.items passed.calls)
        v.drops.items v.input.queue.0 (client_queues v) m }
{}

/// Where no client's bytes may be dropped, all that is said is said of the whole input: of the
/// receiver's row both ways, of what is due to a client, and of what the class brings.
pub fn hold_law()
    ensures holds { (drops : List Bool) (rx : ℕ) (clients : List ℕ) (m : Moved) → AllHold drops
        → SharesSome drops rx clients m → HoldingShares rx clients m }
    ensures held { (drops : List Bool) (rx : ℕ) (clients : List ℕ) (m : Moved) → AllHold drops
        → HoldingShares rx clients m → SharesSome drops rx clients m }
    ensures due { (all : ℕ) (bytes : List ℕ) (drops : List Bool) (c q : ℕ) (m : Moved)
        → AllHold drops → due_to all bytes drops c q m ≡ length (input_of all c bytes) }
    ensures part { (class : SerialClass) (marks : Marks) (m : Moved) → AllHold class.drops
        → SharesOut marks class.drops class.rx class.client_rx m
        → ArrivesInPart marks class m → HoldingInPart class m }
    ensures whole { (class : SerialClass) (marks : Marks) (m : Moved) → AllHold class.drops
        → SharesOut marks class.drops class.rx class.client_rx m
        → ArrivesWhole marks class m → HoldingWhole class m }
    ensures beside { (rogues : Rogues) (class : SerialClass) (marks : Marks) (m : Moved)
        → AllHold class.drops → SharesOut marks class.drops class.rx class.client_rx m
        → ArrivesBeside marks rogues class m → HoldingBeside rogues class m }
{}
