//! What the ports of a switch get, of what each of them sends: a law on the order in which the
//! switch took their frames, which knows no queues.

ghost use Rattle.std.specs.Prelude.{◌≡◌, ℕ, true, false, Some, List, length, slice_get};
ghost use Rattle.cargo_core.specs.Lists.{Merge, PrefixMerge};
ghost use Rattle.frame_core.specs.declared.mac.Mac.{Mac};
ghost use Rattle.net_switch.specs.SwitchDesk.Frames.{Sent, goes_to, is_lost, frames_to};
ghost use Rattle.switched_law.specs.SwitchLaw.Ports.{AreFirst, AreAll, all_to};

/// Where the frames that a switch took of each port are the first that the port sends, what goes to
/// a port is a merge of beginnings of what each other port sends to it, so each sender's frames
/// come once, first in first out; and where all was taken that is sent, it is a merge of the whole
/// lists. And the frames that are lost are just those that go to no port.
pub fn ports_law()
    ensures merges { (macs : List Mac) (receiver : ℕ) (mac : Mac)
        (sends : List (List (List ℕ))) (sent : List Sent) → length macs ≡ length sends
        → slice_get macs receiver ≡ Some mac → AreFirst sends sent
        → PrefixMerge (all_to 0 receiver mac sends) (frames_to macs receiver sent) }
    ensures whole { (macs : List Mac) (receiver : ℕ) (mac : Mac)
        (sends : List (List (List ℕ))) (sent : List Sent) → length macs ≡ length sends
        → slice_get macs receiver ≡ Some mac → AreAll sends sent
        → Merge (all_to 0 receiver mac sends) (frames_to macs receiver sent) }
    ensures lost { (macs : List Mac) (x : Sent) → is_lost macs x ≡ true → (port : ℕ)
        → goes_to macs port x ≡ false }
    ensures kept { (macs : List Mac) (x : Sent) → is_lost macs x ≡ false
        → (port : ℕ) × (goes_to macs port x ≡ true) }
{}
