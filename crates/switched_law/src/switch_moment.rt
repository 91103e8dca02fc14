//! What a switch and the clients at its ports say of one moment of their system, in the words of
//! its ports: laws on what passed at their queues, which know no player.

ghost use Rattle.std.specs.Prelude.{◌≡◌, ◌≤◌, ℕ, true, false, Some, List, [], ◌∷◌, length, map};
ghost use Rattle.std.specs.Prelude.{slice_get, count_by};
ghost use Rattle.std.specs.Prelude.{sum_by};
ghost use Rattle.cargo_core.specs.Lists.{IsPrefix, Merge, PrefixMerge};
ghost use Rattle.frame_core.specs.declared.mac.Mac.{Mac};
ghost use Rattle.line_text.specs.declared.ports_text.ports.Ports.{Ports};
ghost use Rattle.wire_core.specs.Ends.{Role, End};
ghost use Rattle.wire_core.specs.Lists.{Passed};
ghost use Rattle.wire_core.specs.Queues.{Queue, end_at};
ghost use Rattle.play_core.specs.Moved.{Moved};
ghost use Rattle.play_core.specs.Rests.Meeting.{Meet};
ghost use Rattle.play_core.specs.Rests.Showing.{HaveItems};
ghost use Rattle.client_programs.specs.declared.net.NetClient.{NetClient};
ghost use Rattle.client_programs.specs.Net.Clients.{FitsClient, ClientStandsFor, client_round};
ghost use Rattle.net_switch.specs.declared.switch.NetSwitch.{NetSwitch};
ghost use Rattle.net_switch.specs.Switching.{all_sent, switch_round};
ghost use Rattle.switched_law.specs.SwitchLaw.Ports.{all_to, to_from};
ghost use Rattle.switched_law.specs.SwitchMoment.Scene.{IsSwitched, IsClientOf};
ghost use Rattle.switched_law.specs.SwitchMoment.Takes.{FromPort, told, frames_taken, reaches_none};
ghost use Rattle.switched_law.specs.SwitchMoment.Takes.{reaching, frames_in, sent_by};
ghost use Rattle.switched_law.specs.SwitchMoment.Puts.{all_put, puts_most};
ghost use Rattle.switched_law.specs.SwitchMoment.Quiet.{AllRest};
ghost use Rattle.switched_law.specs.SwitchMoment.Wants.{client_wants, switch_wants};

use crate::switch_law::ports_law;

/// What the switch took, in the order of its takes, is told by the calls on the queues of the
/// ports' frames and by what the ports send: of each port the first of its frames. Those that go to
/// no port are counted as lost, each once.
pub fn take_law()
    ensures log { (ports : Ports) (ends : Role → ℕ → End) (v : NetSwitch) (passed : Passed)
        → IsSwitched ports ends v passed
        → map told (all_sent v passed) ≡ frames_taken ports.sends passed.calls }
    ensures first { (ports : Ports) (ends : Role → ℕ → End) (v : NetSwitch) (passed : Passed)
        → IsSwitched ports ends v passed → (port : ℕ) (frames : List (List ℕ))
        → slice_get ports.sends port ≡ Some frames
        → IsPrefix (sent_by port (frames_taken ports.sends passed.calls)) frames }
    ensures few { (ports : Ports) (ends : Role → ℕ → End) (v : NetSwitch) (passed : Passed)
        → IsSwitched ports ends v passed
        → length (frames_taken ports.sends passed.calls) ≤ sum_by length ports.sends }
    ensures lost { (ports : Ports) (ends : Role → ℕ → End) (v : NetSwitch) (passed : Passed)
        → IsSwitched ports ends v passed
        → v.desk.lost
        ≡ count_by (reaches_none ports.macs) (frames_taken ports.sends passed.calls) }
{}

/// A frame reaches no port where each port's share of what its sender sends leaves it out.
pub fn lost_law()
    ensures left_out { (macs : List Mac) (x : FromPort) → reaches_none macs x ≡ true
        → (port : ℕ) (mac : Mac) → slice_get macs port ≡ Some mac
        → to_from x.0 port mac (x.1 ∷ []) ≡ [] }
    ensures kept { (macs : List Mac) (x : FromPort) → reaches_none macs x ≡ false
        → (port : ℕ) × (mac : Mac) × (slice_get macs port ≡ Some mac)
        × (to_from x.0 port mac (x.1 ∷ []) ≡ x.1 ∷ []) }
{}

/// What a port's client recorded are the first of those frames that go there, in the order in which
/// the switch took them; and that is a merge of beginnings of what each other port sends to it.
pub fn record_law()
    ensures first { (ports : Ports) (ends : Role → ℕ → End) (v : NetSwitch) (passed : Passed)
        → IsSwitched ports ends v passed → (port : ℕ) (c : NetClient) → IsClientOf ports port c
        → ClientStandsFor c passed → IsPrefix c.frames.tape.shown
        (frames_in (reaching ports.macs port (frames_taken ports.sends passed.calls))) }
    ensures merges { (ports : Ports) (ends : Role → ℕ → End) (v : NetSwitch) (passed : Passed)
        → IsSwitched ports ends v passed → (port : ℕ) (mac : Mac)
        → slice_get ports.macs port ≡ Some mac → (c : NetClient) → IsClientOf ports port c
        → ClientStandsFor c passed
        → PrefixMerge (all_to 0 port mac ports.sends) c.frames.tape.shown }
{
    ports_law();
}

/// No more is put to the queues than the moves that are counted: of each frame its sender's buffer
/// and one of each other port, there and back, and once each buffer in which a port receives.
pub fn put_law()
    ensures { (ports : Ports) (ends : Role → ℕ → End) (v : NetSwitch) (passed : Passed)
        → IsSwitched ports ends v passed
        → all_put (length ports.macs) passed ≤ puts_most ports }
{}

/// Where all queues rest, the switch took every frame of every port, and each port's client
/// recorded all that go there: a merge of the whole of what each other port sends to it.
pub fn whole_law()
    ensures taken { (ports : Ports) (ends : Role → ℕ → End) (v : NetSwitch) (passed : Passed)
        → (h : IsSwitched ports ends v passed) → AllRest ports ends v passed h
        → (port : ℕ) (frames : List (List ℕ)) → slice_get ports.sends port ≡ Some frames
        → sent_by port (frames_taken ports.sends passed.calls) ≡ frames }
    ensures records { (ports : Ports) (ends : Role → ℕ → End) (v : NetSwitch) (passed : Passed)
        → (h : IsSwitched ports ends v passed) → AllRest ports ends v passed h
        → (port : ℕ) (c : NetClient) → IsClientOf ports port c → ClientStandsFor c passed
        → c.frames.tape.shown
        ≡ frames_in (reaching ports.macs port (frames_taken ports.sends passed.calls)) }
    ensures merges { (ports : Ports) (ends : Role → ℕ → End) (v : NetSwitch) (passed : Passed)
        → (h : IsSwitched ports ends v passed) → AllRest ports ends v passed h
        → (port : ℕ) (mac : Mac) → slice_get ports.macs port ≡ Some mac → (c : NetClient)
        → IsClientOf ports port c → ClientStandsFor c passed
        → Merge (all_to 0 port mac ports.sends) c.frames.tape.shown }
{
    ports_law();
}

/// The ends of a port's client, and those of the switch, as they keep them, are those that are
/// wanted of them by what went through the queues and by the calls.
pub fn wants_law()
    ensures client { (ports : Ports) (world : List Queue) (passed : Passed) (m : Moved)
        → HaveItems passed m → (port : ℕ) (c : NetClient) → IsClientOf ports port c
        → FitsClient (end_at world) c → ClientStandsFor c passed
        → Meet (end_at world) (client_round c).posts (client_round c).needs
        (client_wants port (slice_get ports.macs port) (slice_get ports.sends port) m) }
    ensures switch { (ports : Ports) (ends : Role → ℕ → End) (v : NetSwitch) (passed : Passed)
        → IsSwitched ports ends v passed → (m : Moved) → HaveItems passed m
        → Meet ends (switch_round v).posts (switch_round v).needs
        (switch_wants ports m (frames_taken ports.sends passed.calls)) }
{}
