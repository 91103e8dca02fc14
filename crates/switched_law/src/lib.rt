//! What holds of a switch between clients, however it is played: what each port records of what
//! each other port sends, what is lost, how many steps it takes at most, and what is done where
//! nobody is runnable; the laws on the order of the frames and on one moment that this follows from;
//! and who owns each buffer.
#![tactic(auto)]

ghost use Rattle.std.specs.Prelude.{◌≡◌, ◌+◌, ◌*◌, ◌<◌, ◌≤◌, ℕ, Some, List, [], length, slice_get};
ghost use Rattle.std.specs.Prelude.{count_by};
ghost use Rattle.cargo_core.specs.Lists.{IsPrefix, Merge, PrefixMerge};
ghost use Rattle.frame_core.specs.declared.mac.Mac.{Mac};
ghost use Rattle.line_text.specs.declared.ports_text.ports.Ports.{Ports};
ghost use Rattle.line_text.specs.PortsText.Given.{ArePorts};
ghost use Rattle.wire_core.specs.declared.names.QueueRow.{QueueRow};
ghost use Rattle.wire_core.specs.Journal.{start_history};
ghost use Rattle.wire_core.specs.Marks.{ends_of, all_sent};
ghost use Rattle.wire_core.specs.Picks.{PickedFrom};
ghost use Rattle.play_core.specs.Still.{IsQuiet};
ghost use Rattle.client_programs.specs.declared.net.NetClient.{NetClient};
ghost use Rattle.net_switch.specs.declared.switch.NetSwitch.{NetSwitch};
ghost use Rattle.small_system.specs.Tales.{Turn, start_of, after_tale, journal_of, running_in};
ghost use Rattle.small_system.specs.Tales.{PickedBy};
ghost use Rattle.small_system.specs.Wants.{RestsBy, runs_by, wanted_by, calm};
ghost use Rattle.switched_law.specs.declared.switch_class.member.Member.{Member};
ghost use Rattle.switched_law.specs.declared.switch_class.member.Member.TheVariants as Members;
ghost use Rattle.switched_law.specs.SwitchClass.Members.{member_means};
ghost use Rattle.switched_law.specs.SwitchClass.Queues.{AreQueues};
ghost use Rattle.switched_law.specs.SwitchLaw.Ports.{all_to};
ghost use Rattle.switched_law.specs.SwitchMoment.Scene.{ArePlayable};
ghost use Rattle.switched_law.specs.SwitchMoment.Takes.{reaches_none, reaching, frames_in, sent_by};
ghost use Rattle.switched_law.specs.SwitchMoment.Puts.{puts_most};
ghost use Rattle.switched_law.specs.SwitchMoment.Wants.{port_wants};
ghost use Rattle.switched_law.specs.Playing.{IsPlayed, actors_after, taken_by};

pub mod switch_class;
pub mod switch_law;
pub mod switch_moment;
pub mod switch_owners;

use crate::switch_class::Member;
use crate::switch_moment::{
    put_law, record_law, take_law, wants_law as moment_wants_law, whole_law as moment_whole_law,
};
use play_core::quiet_law;
use play_core::rests::rest_law;
use small_system::small_law::{bound_law, still_law};
use small_system::tale_law;
pub use switch_class::{BUFFERS, switch_actors, switch_queues};
pub use switch_owners::switch_owner_law;
use text_limits::{ports_frames_law, ports_limits_law};

/// Ports that were read can be played.
pub fn playable_law()
    ensures { (ports : Ports) → ArePorts ports → ArePlayable ports }
{
    ports_limits_law();
    ports_frames_law();
}

/// After any turns the client of each port and the switch are where they were.
pub fn place_law()
    ensures clients { (ports : Ports) (rows : List QueueRow) (start : List Member)
        (turns : List (Turn Member)) → IsPlayed ports rows start turns → (port : ℕ)
        → port < length ports.macs → (c : NetClient)
        × (slice_get (actors_after rows start turns) port ≡ Some (Members.Client c)) }
    ensures switch { (ports : Ports) (rows : List QueueRow) (start : List Member)
        (turns : List (Turn Member)) → IsPlayed ports rows start turns → (v : NetSwitch)
        × (slice_get (actors_after rows start turns) (length ports.macs)
        ≡ Some (Members.Switch v)) }
{
    tale_law::<Member>();
}

/// What the switch took of each port are the first of its frames. What a port recorded are the
/// first of those that go there, in the order in which the switch took them: a merge of beginnings
/// of what each other port sends to it. And the switch lost those that go to no port.
pub fn records_law()
    ensures taken { (ports : Ports) (rows : List QueueRow) (start : List Member)
        (turns : List (Turn Member)) → IsPlayed ports rows start turns
        → (port : ℕ) (frames : List (List ℕ)) → slice_get ports.sends port ≡ Some frames
        → IsPrefix (sent_by port (taken_by ports (journal_of turns))) frames }
    ensures records { (ports : Ports) (rows : List QueueRow) (start : List Member)
        (turns : List (Turn Member)) → IsPlayed ports rows start turns
        → (port : ℕ) (c : NetClient)
        → slice_get (actors_after rows start turns) port ≡ Some (Members.Client c)
        → IsPrefix c.frames.tape.shown
        (frames_in (reaching ports.macs port (taken_by ports (journal_of turns)))) }
    ensures merges { (ports : Ports) (rows : List QueueRow) (start : List Member)
        (turns : List (Turn Member)) → IsPlayed ports rows start turns
        → (port : ℕ) (mac : Mac) → slice_get ports.macs port ≡ Some mac → (c : NetClient)
        → slice_get (actors_after rows start turns) port ≡ Some (Members.Client c)
        → PrefixMerge (all_to 0 port mac ports.sends) c.frames.tape.shown }
    ensures lost { (ports : Ports) (rows : List QueueRow) (start : List Member)
        (turns : List (Turn Member)) → IsPlayed ports rows start turns → (v : NetSwitch)
        → slice_get (actors_after rows start turns) (length ports.macs) ≡ Some (Members.Switch v)
        → v.desk.lost
        ≡ count_by (reaches_none ports.macs) (taken_by ports (journal_of turns)) }
{
    tale_law::<Member>();
    take_law();
    record_law();
}

/// No more is put to the queues than is counted, no actor has more ends than there are queues, and
/// so a play has fewer steps than this.
pub fn hops_law()
    ensures put { (ports : Ports) (rows : List QueueRow) (start : List Member)
        (turns : List (Turn Member)) → IsPlayed ports rows start turns
        → all_sent (start_history rows) rows (journal_of turns) ≤ puts_most ports }
    ensures ends { (ports : Ports) (rows : List QueueRow) → AreQueues (length ports.macs) rows
        → (a : ℕ) → ends_of a rows ≤ 4 * length ports.macs }
    ensures bound { (ports : Ports) (rows : List QueueRow) (start : List Member)
        (turns : List (Turn Member)) → IsPlayed ports rows start turns
        → length (journal_of turns) < 32 * (puts_most ports + (length ports.macs + 1) + 1)
        * (4 * length ports.macs + 1) }
{
    tale_law::<Member>();
    put_law();
    bound_law::<Member>();
}

/// Where nobody is runnable, the switch took every frame of every port, and each port recorded all
/// that go there: a merge of the whole of what each other port sends to it.
pub fn whole_law()
    ensures taken { (ports : Ports) (rows : List QueueRow) (start : List Member)
        (turns : List (Turn Member)) → IsPlayed ports rows start turns
        → running_in member_means (after_tale (start_of rows start) turns) ≡ []
        → (port : ℕ) (frames : List (List ℕ)) → slice_get ports.sends port ≡ Some frames
        → sent_by port (taken_by ports (journal_of turns)) ≡ frames }
    ensures records { (ports : Ports) (rows : List QueueRow) (start : List Member)
        (turns : List (Turn Member)) → IsPlayed ports rows start turns
        → running_in member_means (after_tale (start_of rows start) turns) ≡ []
        → (port : ℕ) (c : NetClient)
        → slice_get (actors_after rows start turns) port ≡ Some (Members.Client c)
        → c.frames.tape.shown
        ≡ frames_in (reaching ports.macs port (taken_by ports (journal_of turns))) }
    ensures merges { (ports : Ports) (rows : List QueueRow) (start : List Member)
        (turns : List (Turn Member)) → IsPlayed ports rows start turns
        → running_in member_means (after_tale (start_of rows start) turns) ≡ []
        → (port : ℕ) (mac : Mac) → slice_get ports.macs port ≡ Some mac → (c : NetClient)
        → slice_get (actors_after rows start turns) port ≡ Some (Members.Client c)
        → Merge (all_to 0 port mac ports.sends) c.frames.tape.shown }
{
    tale_law::<Member>();
    still_law::<Member>();
    quiet_law();
    moment_whole_law();
}

/// Each actor rests exactly where all is settled that it wants by what went through the queues and
/// by the order of the calls. So those that are runnable by their own states are so by their wants,
/// the seed picks among them, and where nobody is runnable nobody is so by wants.
pub fn wants_law()
    ensures rests { (ports : Ports) (rows : List QueueRow) (start : List Member)
        (turns : List (Turn Member)) → IsPlayed ports rows start turns
        → RestsBy member_means (port_wants ports) rows (after_tale (start_of rows start) turns)
        (journal_of turns) }
    ensures runs { (ports : Ports) (rows : List QueueRow) (start : List Member)
        (turns : List (Turn Member)) → IsPlayed ports rows start turns
        → running_in member_means (after_tale (start_of rows start) turns)
        ≡ runs_by (port_wants ports) rows (length ports.macs + 1) (journal_of turns) }
    ensures picks { (ports : Ports) (rows : List QueueRow) (start : List Member)
        (turns : List (Turn Member)) (seed : ℕ) → IsPlayed ports rows start turns
        → PickedBy member_means (start_of rows start) seed turns
        → PickedFrom (runs_by (port_wants ports) rows (length ports.macs + 1)) seed []
        (journal_of turns) }
    ensures quiet { (ports : Ports) (rows : List QueueRow) (start : List Member)
        (turns : List (Turn Member)) → IsPlayed ports rows start turns
        → running_in member_means (after_tale (start_of rows start) turns) ≡ []
        → IsQuiet calm (start_history rows) rows
        (wanted_by (port_wants ports) rows (length ports.macs + 1) (journal_of turns))
        (journal_of turns) }
{
    tale_law::<Member>();
    rest_law();
    moment_wants_law();
}
