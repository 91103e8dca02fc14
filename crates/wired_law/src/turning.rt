//! What comes in turn in a cast whatever its clients put, where each buffer is there once and has
//! its pool's length: all that the sending virtualiser of the network takes, and all that the disk
//! takes. What comes back to that virtualiser is good, as it was sent.

ghost use Rattle.std.specs.Prelude.{◌≡◌, ℕ, None, Some, List, [], map, slice_get};
ghost use Rattle.wire_core.specs.declared.names.QueueRow.{QueueRow};
ghost use Rattle.wire_core.specs.Ends.{Role, End};
ghost use Rattle.wire_core.specs.Lists.{Passed};
ghost use Rattle.play_core.specs.Names.{Wild};
ghost use Rattle.play_core.specs.Sheets.{Scene};
ghost use Rattle.net_virt_tx.specs.Sending.{TxRow};
ghost use Rattle.net_virt_tx.specs.declared.NetVirtTx.{NetVirtTx};
ghost use Rattle.net_law.specs.TxParts.Numbers.{NetPlace};
ghost use Rattle.net_law.specs.TxScene.Playing.{ReturnsGood};
ghost use Rattle.blk_law.specs.Sheets.Numbers.{BlkPlace};
ghost use Rattle.blk_law.specs.Sheets.Playing.{DiskInTurn};
ghost use Rattle.actor_set.specs.Actors.{part_of};
ghost use Rattle.actor_set.specs.declared.actor.Actor.{Actor};
ghost use Rattle.actor_set.specs.declared.actor.Actor.TheVariants as Kinds;
ghost use Rattle.actor_set.specs.declared.disk.Disk.{Disk};
ghost use Rattle.wired_law.specs.Buffers.{HasEachOnce};
ghost use Rattle.wired_law.specs.Wiring.{HasWholeIn, HasBlkIn, IsWiredIn, AreAtWork, AreInTurn};

/// Nothing is asked of what the clients put, by whom they are played or what they do. So in a wired
/// cast nothing is out of turn, whichever clients may be hostile.
pub fn turning_law()
    ensures sends { (scene : Scene) (ends : Role → ℕ → End) (rows : List QueueRow)
        (actors : List Actor) (passed : Passed) (net : NetPlace)
        → HasWholeIn scene rows net (map part_of actors) → AreAtWork ends rows actors passed
        → HasEachOnce rows actors passed → (k : ℕ) (v : NetVirtTx)
        → slice_get actors k ≡ Some (Kinds.NetVirtTx v)
        → (v.work.stray ≡ None) × ((row : TxRow v passed) → row.stray ≡ []) }
    ensures returns { (scene : Scene) (ends : Role → ℕ → End) (rows : List QueueRow)
        (actors : List Actor) (passed : Passed) (net : NetPlace)
        → HasWholeIn scene rows net (map part_of actors) → AreAtWork ends rows actors passed
        → (k : ℕ) (v : NetVirtTx) → slice_get actors k ≡ Some (Kinds.NetVirtTx v)
        → (wild : Wild) → ReturnsGood wild v passed }
    ensures disk { (scene : Scene) (ends : Role → ℕ → End) (rows : List QueueRow)
        (actors : List Actor) (passed : Passed) (place : BlkPlace)
        → HasBlkIn scene rows place (map part_of actors) → AreAtWork ends rows actors passed
        → HasEachOnce rows actors passed → (k : ℕ) (d : Disk)
        → slice_get actors k ≡ Some (Kinds.DiskDevice d)
        → DiskInTurn d.start.value d.device passed }
    ensures beside { (scene : Scene) (ends : Role → ℕ → End) (rows : List QueueRow)
        (actors : List Actor) (passed : Passed) → IsWiredIn scene rows (map part_of actors)
        → AreAtWork ends rows actors passed → HasEachOnce rows actors passed
        → (wild : Wild) → AreInTurn wild actors passed }
{}
