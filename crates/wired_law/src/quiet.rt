//! The whole network and the whole block class in a cast where nobody is runnable, but perhaps
//! hostile actors that have no end of the class's queues: what the network's device and clients
//! recorded, and the clients of the block class.

ghost use Rattle.std.specs.Prelude.{◌≡◌, ℕ, Some, List, [], map, slice_get};
ghost use Rattle.cargo_core.specs.Lists.{Merge};
ghost use Rattle.cargo_core.specs.declared.item.Ask.{Ask};
ghost use Rattle.frame_core.specs.declared.mac.Mac.{Mac};
ghost use Rattle.wire_core.specs.declared.names.QueueRow.{QueueRow};
ghost use Rattle.wire_core.specs.declared.names.Entry.{Entry};
ghost use Rattle.wire_core.specs.Ends.{Role, End};
ghost use Rattle.wire_core.specs.Journal.{History};
ghost use Rattle.wire_core.specs.Lists.{Passed};
ghost use Rattle.play_core.specs.Moved.{Moved, moved};
ghost use Rattle.play_core.specs.Names.{Names};
ghost use Rattle.play_core.specs.Sheets.{RowsHold, Scene, needful};
ghost use Rattle.play_core.specs.Still.{IsStill};
ghost use Rattle.play_core.specs.Rests.Showing.{HaveItems};
ghost use Rattle.class_expect.specs.NetExpect.Expecting.{Program};
ghost use Rattle.net_law.specs.Dropped.{left_for};
ghost use Rattle.net_law.specs.Owners.Names.{ClientPools};
ghost use Rattle.owner_law.specs.Pools.Places.{PoolAt};
ghost use Rattle.net_law.specs.Parts.Numbers.{device_at, client_at};
ghost use Rattle.net_law.specs.TxParts.Numbers.{NetPlace, own_pools};
ghost use Rattle.net_quiet.specs.TxCast.Casting.{IsClientOf, net_marks, sends_at};
ghost use Rattle.net_quiet.specs.Still.{HasPools, HasRooms, IsNetwork};
ghost use Rattle.class_expect.specs.BlkExpect.Replies.{replies_of};
ghost use Rattle.blk_law.specs.Sheets.Numbers.{BlkPlace, IsBlkClientOf, blk_client_at};
ghost use Rattle.blk_quiet.specs.Still.{HasClientPools, HasBlkRooms, IsBlock};
ghost use Rattle.actor_set.specs.Parts.{Part, NetworkPart, BlockPart};
ghost use Rattle.actor_set.specs.Actors.{part_of};
ghost use Rattle.actor_set.specs.declared.actor.Actor.{Actor};
ghost use Rattle.actor_set.specs.Laws.Kinds.{hostiles};
ghost use Rattle.actor_set.specs.Laws.Records.{frames_got, replies_got};
ghost use Rattle.wired_law.specs.Wiring.{HasWholeIn, HasBlkIn, ClientsSendIn, AreAtWork, told_in};

/// Of a cast that has the whole network, of whose queues none has a hostile end, whoever is hostile
/// at others: where its rows hold, this network is among its actors. Where actors stand for what
/// passed, and nobody is runnable but perhaps hostile ones, each network client recorded all frames
/// that are for its address but those that its copier dropped, and the device a merge of all that
/// the clients send by their programs, an echo the answers to those.
/// So it is of the whole block class, where none of its queues has a hostile end: each client
/// recorded all replies to what it asks, those of a disk that has the bytes of its partition alone.
pub fn quiet_law()
    ensures there { (scene : Scene) (rows : List QueueRow) (cast : List Part) (names : Names)
        (m : Moved) (net : NetPlace) → HasWholeIn scene rows net cast → HasPools net
        → HasRooms (hostiles cast) rows net
        → RowsHold (told_in scene rows cast names) (hostiles cast) cast m
        → IsNetwork (hostiles cast) scene scene.frames [] rows
        (needful (told_in scene rows cast names) cast m) net m }
    ensures records { (scene : Scene) (ends : Role → ℕ → End) (history : History)
        (rows : List QueueRow) (actors : List Actor) (journal : List Entry)
        (passed : Passed) (names : Names) (net : NetPlace)
        → HasWholeIn scene rows net (map part_of actors) → HasPools net
        → HasRooms (hostiles (map part_of actors)) rows net
        → AreAtWork ends rows actors passed → ClientsSendIn scene rows (map part_of actors) passed
        → HaveItems passed (moved history journal)
        → IsStill (hostiles (map part_of actors)) history rows
        (needful (told_in scene rows (map part_of actors) names) (map part_of actors)
        (moved history journal)) journal
        → (k c : ℕ) (x : Actor) (program : Program) (mac : Mac) (q : ClientPools)
        → slice_get actors k ≡ Some x → IsClientOf net c program mac q
        → part_of x ≡ NetworkPart (client_at net.first c program mac (own_pools q))
        → frames_got x ≡ left_for (net_marks net passed.calls c) mac scene.frames }
    ensures wire { (scene : Scene) (ends : Role → ℕ → End) (history : History)
        (rows : List QueueRow) (actors : List Actor) (journal : List Entry)
        (passed : Passed) (names : Names) (net : NetPlace)
        → HasWholeIn scene rows net (map part_of actors) → HasPools net
        → HasRooms (hostiles (map part_of actors)) rows net
        → AreAtWork ends rows actors passed → ClientsSendIn scene rows (map part_of actors) passed
        → HaveItems passed (moved history journal)
        → IsStill (hostiles (map part_of actors)) history rows
        (needful (told_in scene rows (map part_of actors) names) (map part_of actors)
        (moved history journal)) journal
        → (k : ℕ) (x : Actor) → slice_get actors k ≡ Some x
        → part_of x ≡ NetworkPart (device_at net.first scene.frames net.device_drops)
        → Merge (sends_at (net_marks net passed.calls) 0 net.programs net.macs scene.frames)
        (frames_got x) }
    ensures block { (scene : Scene) (rows : List QueueRow) (cast : List Part) (names : Names)
        (m : Moved) (place : BlkPlace) → HasBlkIn scene rows place cast → HasClientPools place
        → HasBlkRooms (hostiles cast) rows place
        → RowsHold (told_in scene rows cast names) (hostiles cast) cast m
        → IsBlock (hostiles cast) scene rows (needful (told_in scene rows cast names) cast m) place
        m }
    ensures replies { (scene : Scene) (ends : Role → ℕ → End) (history : History)
        (rows : List QueueRow) (actors : List Actor) (journal : List Entry)
        (passed : Passed) (names : Names) (place : BlkPlace)
        → HasBlkIn scene rows place (map part_of actors) → HasClientPools place
        → HasBlkRooms (hostiles (map part_of actors)) rows place
        → AreAtWork ends rows actors passed → ClientsSendIn scene rows (map part_of actors) passed
        → HaveItems passed (moved history journal)
        → IsStill (hostiles (map part_of actors)) history rows
        (needful (told_in scene rows (map part_of actors) names) (map part_of actors)
        (moved history journal)) journal
        → (k c : ℕ) (x : Actor) (entry : ℕ) (asks : List Ask) (pool : PoolAt)
        → slice_get actors k ≡ Some x → IsBlkClientOf place c entry asks pool
        → part_of x ≡ BlockPart (blk_client_at place.first c asks pool)
        → replies_got x ≡ replies_of place.image entry asks }
{}
