//! The whole network at the layout's queues. At any moment nothing comes out of turn there, each
//! client's record is a beginning of the frames for it without those that the device or its copier
//! dropped, the wire is a merge of beginnings of what the clients send, and its actors have of each
//! pool what the table of owners says. Where nobody is runnable, every frame came to each client
//! that it is for or was dropped, and all that the clients send is on the wire.
#![tactic(auto)]

ghost use Rattle.std.specs.Prelude.{◌≡◌, ℕ, Bool, List};
ghost use Rattle.cargo_core.specs.Lists.{Merge};
ghost use Rattle.frame_core.specs.declared.mac.Mac.{Mac};
ghost use Rattle.wire_core.specs.declared.names.QueueRow.{QueueRow};
ghost use Rattle.wire_core.specs.declared.names.Entry.{Entry};
ghost use Rattle.wire_core.specs.Journal.{History, Hostiles};
ghost use Rattle.wire_core.specs.Lists.{Passed};
ghost use Rattle.play_core.specs.Moved.{moved};
ghost use Rattle.play_core.specs.Names.{Wild};
ghost use Rattle.play_core.specs.Sheets.{Scene};
ghost use Rattle.play_core.specs.Still.{IsStill};
ghost use Rattle.play_core.specs.Wants.{Needful};
ghost use Rattle.play_core.specs.Rests.Showing.{HaveItems};
ghost use Rattle.class_expect.specs.NetExpect.Expecting.{Program};
ghost use Rattle.client_programs.specs.declared.net.NetClient.{NetClient};
ghost use Rattle.net_law.specs.Owners.Names.{ClientPools};
ghost use Rattle.net_law.specs.Dropped.{left_for};
ghost use Rattle.net_law.specs.TxParts.Numbers.{NetPlace};
ghost use Rattle.net_quiet.specs.TxCast.Casting.{AreClients, CalmSend, IsClientOf};
ghost use Rattle.net_quiet.specs.TxCast.Casting.{IsSendingClient, IsWholeCast, NoneHostile};
ghost use Rattle.net_quiet.specs.TxCast.Casting.{net_marks, net_used, sends_at};
ghost use Rattle.net_quiet.specs.Still.{IsNetwork, ArrivesAll, SendsAll};

pub mod cast;
pub mod drops;
pub mod pools;
pub mod tx_cast;
pub mod tx_owners;
pub mod tx_turns;

/// Where nobody is runnable, all frames are used up, and those that the device accepted went
/// through to the clients that they are for, but for those that a client's copier dropped; and all
/// that the clients send by their programs, where these came to them, went through to the device.
pub fn still_law()
    ensures arrives { (hostile : Hostiles) (history : History) (rows : List QueueRow)
        (actors : Needful) (journal : List Entry) (scene : Scene) (frames : List (List ℕ))
        (used : List Bool) (net : NetPlace) → IsStill hostile history rows actors journal
        → IsNetwork hostile scene frames used rows actors net (moved history journal)
        → ArrivesAll scene frames net (moved history journal) }
    ensures sends { (hostile : Hostiles) (history : History) (rows : List QueueRow)
        (actors : Needful) (journal : List Entry) (scene : Scene) (frames : List (List ℕ))
        (used : List Bool) (net : NetPlace) → IsStill hostile history rows actors journal
        → IsNetwork hostile scene frames used rows actors net (moved history journal)
        → SendsAll net (moved history journal) }
{}

/// So the actors, of whose entries these are the items, recorded all, with those frames dropped
/// that their calls tell: each client the frames that the device accepted and that are for its
/// address, without those that its copier dropped, and the device a merge of all that the clients
/// send by their programs where they get these, where no client is hostile and each put good
/// descriptors alone.
pub fn whole_law()
    ensures records { (hostile : Hostiles) (history : History) (rows : List QueueRow)
        (actors : Needful) (journal : List Entry) (scene : Scene) (frames : List (List ℕ))
        (net : NetPlace) (passed : Passed) → IsStill hostile history rows actors journal
        → IsNetwork hostile scene frames (net_used net passed.calls) rows actors net
        (moved history journal)
        → HaveItems passed (moved history journal) → IsWholeCast net frames passed
        → (k : ℕ) (program : Program) (mac : Mac) (q : ClientPools)
        → IsClientOf net k program mac q → (c : NetClient)
        → IsSendingClient net k program mac q c passed
        → c.frames.tape.shown ≡ left_for (net_marks net passed.calls k) mac scene.frames }
    ensures wire { (wild : Wild) (hostile : Hostiles) (history : History) (rows : List QueueRow)
        (actors : Needful) (journal : List Entry) (scene : Scene) (frames : List (List ℕ))
        (net : NetPlace) (passed : Passed) → IsStill hostile history rows actors journal
        → IsNetwork hostile scene frames (net_used net passed.calls) rows actors net
        (moved history journal)
        → HaveItems passed (moved history journal)
        → (whole : IsWholeCast net frames passed) → NoneHostile wild net
        → AreClients wild net passed → CalmSend wild net passed
        → Merge (sends_at (net_marks net passed.calls) 0 net.programs net.macs scene.frames)
        whole.half.device.wire.tape.shown }
{}
