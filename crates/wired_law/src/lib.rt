//! The actors of a cast, of all classes, where the network's are the whole network at the layout's
//! queues, and the block class's the whole class. Nothing comes out of turn at any actor, so what
//! passed at each is as its sheet says; and what the network's device and clients, and the clients
//! of the block class, recorded at any moment and where nobody is runnable.
#![tactic(auto)]

ghost use Rattle.std.specs.Prelude.{◌≡◌, ◌+◌, ◌≤◌, ℕ, Some, List, map, slice_get};
ghost use Rattle.cargo_core.specs.Lists.{IsPrefix, PrefixMerge};
ghost use Rattle.frame_core.specs.declared.mac.Mac.{Mac};
ghost use Rattle.wire_core.specs.declared.names.QueueRow.{QueueRow};
ghost use Rattle.wire_core.specs.Deeds.{Deed};
ghost use Rattle.wire_core.specs.Ends.{Role, End};
ghost use Rattle.wire_core.specs.Lists.{Passed, nothing_passed, with_deed};
ghost use Rattle.wire_core.specs.Queues.{items_of};
ghost use Rattle.class_expect.specs.NetExpect.Expecting.{Program};
ghost use Rattle.net_law.specs.Dropped.{left_for};
ghost use Rattle.play_core.specs.Names.{Names, wild_in};
ghost use Rattle.play_core.specs.Sheets.{Scene};
ghost use Rattle.net_law.specs.Owners.Names.{ClientPools};
ghost use Rattle.net_law.specs.Parts.Numbers.{device_at, client_at};
ghost use Rattle.net_law.specs.TxParts.Numbers.{NetPlace};
ghost use Rattle.net_quiet.specs.TxCast.Casting.{sends_at, sends_beside, wire_at, wire_beside};
ghost use Rattle.net_quiet.specs.TxCast.Casting.{net_marks, net_kept};
ghost use Rattle.actor_set.specs.Parts.{Part, NetworkPart};
ghost use Rattle.actor_set.specs.Actors.{part_of};
ghost use Rattle.actor_set.specs.declared.actor.Actor.{Actor};
ghost use Rattle.actor_set.specs.Laws.Kinds.{AllCalm, hostiles};
ghost use Rattle.actor_set.specs.Laws.Records.{frames_got};
ghost use Rattle.actor_set.specs.Laws.Scenes.{ToldInTurn};
ghost use Rattle.actor_set.specs.Laws.Turning.{InTurn};
ghost use Rattle.wired_law.specs.Wiring.{HasWholeIn, IsWiredIn, ClientsSendIn, AreAtWork};
ghost use Rattle.wired_law.specs.Wiring.{AreInTurn, TellsKept};

pub mod blk_replies;
pub mod page_law;
pub mod quiet;
pub mod turning;

/// Nothing comes out of turn at any actor of a cast that is wired in a scene, where nobody is
/// hostile and its clients put good descriptors and requests alone: so those that aren't hostile
/// did when nothing had passed yet, and whatever hostile ones put, after one more call they still
/// have. Beside hostile clients nothing does by the names that are told, those of all that
/// was put to the queues with a hostile end, where what those put isn't out of turn. A network
/// client with buffers of its own recorded a beginning of the accepted frames that are for its address
/// without those that its copier dropped; and the device a merge of beginnings of what the clients send, each by its program, a hostile one
/// the frames of its good descriptors: which is what the items tell that it took.
pub fn wired_law()
    ensures turns { (scene : Scene) (ends : Role → ℕ → End) (rows : List QueueRow)
        (actors : List Actor) (passed : Passed) → AllCalm (map part_of actors)
        → IsWiredIn scene rows (map part_of actors) → AreAtWork ends rows actors passed
        → ClientsSendIn scene rows (map part_of actors) passed → (k : ℕ) (x : Actor)
        → slice_get actors k ≡ Some x → InTurn scene x passed }
    ensures turns_beside { (scene : Scene) (ends : Role → ℕ → End) (rows : List QueueRow)
        (actors : List Actor) (passed : Passed) (names : Names)
        → IsWiredIn scene rows (map part_of actors) → AreAtWork ends rows actors passed
        → ClientsSendIn scene rows (map part_of actors) passed
        → TellsKept (wild_in (hostiles (map part_of actors)) rows) names passed
        → AreInTurn (wild_in (hostiles (map part_of actors)) rows) actors passed
        → (k : ℕ) (x : Actor) → slice_get actors k ≡ Some x
        → ToldInTurn scene (wild_in (hostiles (map part_of actors)) rows) names x passed }
    ensures starts { (scene : Scene) (rows : List QueueRow) (cast : List Part)
        → ClientsSendIn scene rows cast nothing_passed }
    ensures goes_on { (scene : Scene) (ends later : Role → ℕ → End) (rows : List QueueRow)
        (actors moved : List Actor) (passed : Passed) (deed : Deed)
        → IsWiredIn scene rows (map part_of actors) → map part_of moved ≡ map part_of actors
        → AreAtWork ends rows actors passed → ClientsSendIn scene rows (map part_of actors) passed
        → AreAtWork later rows moved (with_deed passed deed)
        → ClientsSendIn scene rows (map part_of moved) (with_deed passed deed) }
    ensures records { (scene : Scene) (ends : Role → ℕ → End) (rows : List QueueRow)
        (actors : List Actor) (passed : Passed) (net : NetPlace)
        → HasWholeIn scene rows net (map part_of actors)
        → AreAtWork ends rows actors passed
        → (k c : ℕ) (x : Actor) (program : Program) (mac : Mac) (pools : ClientPools)
        → slice_get actors k ≡ Some x
        → part_of x ≡ NetworkPart (client_at net.first c program mac pools)
        → 1 ≤ pools.rx.buffers → net.most ≤ pools.rx.size
        → slice_get net.macs c ≡ Some mac
        → IsPrefix (frames_got x) (left_for (net_marks net passed.calls c) mac
        (net_kept net scene.frames passed.calls)) }
    ensures wire { (scene : Scene) (ends : Role → ℕ → End) (rows : List QueueRow)
        (actors : List Actor) (passed : Passed) (net : NetPlace) → AllCalm (map part_of actors)
        → HasWholeIn scene rows net (map part_of actors)
        → AreAtWork ends rows actors passed → ClientsSendIn scene rows (map part_of actors) passed
        → (k : ℕ) (x : Actor) → slice_get actors k ≡ Some x
        → part_of x ≡ NetworkPart (device_at net.first scene.frames net.device_drops)
        → PrefixMerge (sends_at (net_marks net passed.calls) 0 net.programs net.macs
        (net_kept net scene.frames passed.calls)) (frames_got x) }
    ensures wire_beside { (scene : Scene) (ends : Role → ℕ → End) (rows : List QueueRow)
        (actors : List Actor) (passed : Passed) (net : NetPlace)
        → HasWholeIn scene rows net (map part_of actors)
        → AreAtWork ends rows actors passed → ClientsSendIn scene rows (map part_of actors) passed
        → (k : ℕ) (x : Actor) → slice_get actors k ≡ Some x
        → part_of x ≡ NetworkPart (device_at net.first scene.frames net.device_drops)
        → PrefixMerge (sends_beside (wild_in (hostiles (map part_of actors)) rows) net scene.frames
        passed) (frames_got x) }
    ensures told_beside { (scene : Scene) (ends : Role → ℕ → End) (rows : List QueueRow)
        (actors : List Actor) (passed : Passed) (net : NetPlace)
        → HasWholeIn scene rows net (map part_of actors)
        → AreAtWork ends rows actors passed → ClientsSendIn scene rows (map part_of actors) passed
        → (k : ℕ) (x : Actor) → slice_get actors k ≡ Some x
        → part_of x ≡ NetworkPart (device_at net.first scene.frames net.device_drops)
        → frames_got x ≡ wire_beside (wild_in (hostiles (map part_of actors)) rows) net
        scene.frames passed }
    ensures told { (scene : Scene) (ends : Role → ℕ → End) (rows : List QueueRow)
        (actors : List Actor) (passed : Passed) (net : NetPlace) → AllCalm (map part_of actors)
        → HasWholeIn scene rows net (map part_of actors)
        → AreAtWork ends rows actors passed → ClientsSendIn scene rows (map part_of actors) passed
        → (k : ℕ) (x : Actor) → slice_get actors k ≡ Some x
        → part_of x ≡ NetworkPart (device_at net.first scene.frames net.device_drops)
        → frames_got x ≡ wire_at net (net_marks net passed.calls)
        (net_kept net scene.frames passed.calls) (items_of (passed.taken (net.first + 2))) }
{}
