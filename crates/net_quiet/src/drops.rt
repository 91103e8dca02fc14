//! The network at its queues where its device and its copiers wait: what it says of frames that are
//! dropped is then what it says where none is.

ghost use Rattle.std.specs.Prelude.{◌≡◌, ℕ, List};
ghost use Rattle.frame_core.specs.declared.mac.Mac.{Mac};
ghost use Rattle.wire_core.specs.declared.names.Event.{Event};
ghost use Rattle.play_core.specs.Moved.{Moved};
ghost use Rattle.play_core.specs.Sheets.{Scene};
ghost use Rattle.class_expect.specs.NetExpect.Expecting.{frames_for};
ghost use Rattle.net_law.specs.Dropped.{left_for};
ghost use Rattle.net_law.specs.TxParts.Numbers.{NetPlace};
ghost use Rattle.net_quiet.specs.TxCast.Casting.{net_kept, net_marks, sends_at};
ghost use Rattle.net_quiet.specs.Still.{ArrivesAll, SendsAll};
ghost use Rattle.net_quiet.specs.Holding.{NetHolds, HoldingArrives, HoldingSends, holding_sends};

/// Where no frame may be dropped, all frames are accepted and a client gets all that are for it,
/// whatever calls were made; each client sends what it sends by its program of all that the device
/// receives; and where nobody is runnable, all frames came, and all that is sent.
pub fn waits_law()
    ensures kept { (net : NetPlace) (frames : List (List ℕ)) (calls : List Event) → NetHolds net
        → net_kept net frames calls ≡ frames }
    ensures left { (net : NetPlace) (k : ℕ) (mac : Mac) (frames : List (List ℕ))
        (calls : List Event) → NetHolds net
        → left_for (net_marks net calls k) mac frames ≡ frames_for mac frames }
    ensures sends { (net : NetPlace) (frames : List (List ℕ)) (calls : List Event) → NetHolds net
        → sends_at (net_marks net calls) 0 net.programs net.macs frames
        ≡ holding_sends net.programs net.macs frames }
    ensures arrives { (scene : Scene) (frames : List (List ℕ)) (net : NetPlace) (m : Moved)
        → NetHolds net → ArrivesAll scene frames net m → HoldingArrives scene net m }
    ensures all { (scene : Scene) (frames : List (List ℕ)) (net : NetPlace) (m : Moved)
        → NetHolds net → ArrivesAll scene frames net m → SendsAll net m
        → HoldingSends scene net m }
{}
