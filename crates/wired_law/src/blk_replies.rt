//! What the clients of the block class recorded at any moment, in a cast that has the whole class
//! at the layout's queues.

ghost use Rattle.std.specs.Prelude.{◌≡◌, ℕ, Some, List, map, slice_get};
ghost use Rattle.cargo_core.specs.Lists.{IsPrefix};
ghost use Rattle.cargo_core.specs.declared.item.Ask.{Ask};
ghost use Rattle.wire_core.specs.declared.names.QueueRow.{QueueRow};
ghost use Rattle.wire_core.specs.Ends.{Role, End};
ghost use Rattle.wire_core.specs.Lists.{Passed};
ghost use Rattle.play_core.specs.Sheets.{Scene};
ghost use Rattle.owner_law.specs.Pools.Places.{PoolAt};
ghost use Rattle.class_expect.specs.BlkExpect.Replies.{replies_of};
ghost use Rattle.blk_law.specs.Sheets.Numbers.{BlkPlace, blk_client_at};
ghost use Rattle.actor_set.specs.Parts.{Part, BlockPart};
ghost use Rattle.actor_set.specs.Actors.{part_of};
ghost use Rattle.actor_set.specs.declared.actor.Actor.{Actor};
ghost use Rattle.actor_set.specs.Laws.Records.{replies_got};
ghost use Rattle.wired_law.specs.Wiring.{HasBlkIn, ClientsSendIn, AreAtWork};

/// In a cast with the whole block class, whose clients put good requests alone, what a client
/// recorded at any moment is a beginning of the replies to what it asks: those of a disk that has
/// the bytes of the client's partition alone, whatever the other clients ask for.
pub fn replied_law()
    ensures { (scene : Scene) (ends : Role → ℕ → End) (rows : List QueueRow) (actors : List Actor)
        (passed : Passed) (place : BlkPlace) → HasBlkIn scene rows place (map part_of actors)
        → AreAtWork ends rows actors passed → ClientsSendIn scene rows (map part_of actors) passed
        → (k c : ℕ) (x : Actor) (asks : List Ask) (pool : PoolAt) (entry : ℕ)
        → slice_get actors k ≡ Some x
        → part_of x ≡ BlockPart (blk_client_at place.first c asks pool)
        → slice_get place.entries c ≡ Some entry → slice_get place.asks c ≡ Some asks
        → IsPrefix (replies_got x) (replies_of place.image entry asks) }
{}
