//! The owners of the buffers in a switch's system: each buffer has one at each moment, and after a
//! journal those that the table of owners has in queues are the pages that stand there.

ghost use Rattle.std.specs.Prelude.{◌≡◌, ◌+◌, ◌*◌, ◌<◌, ℕ, List, length};
ghost use Rattle.wire_core.specs.declared.names.QueueRow.{QueueRow};
ghost use Rattle.wire_core.specs.Journal.{start_history, EachMoment};
ghost use Rattle.owner_law.specs.Owners.{OneOwner};
ghost use Rattle.owner_law.specs.Keeping.{start_table};
ghost use Rattle.owner_law.specs.Census.{census};
ghost use Rattle.line_text.specs.declared.ports_text.ports.Ports.{Ports};
ghost use Rattle.small_system.specs.Tales.{Turn, start_of, IsTale, after_tale, journal_of};
ghost use Rattle.small_system.specs.Standing.{Begins};
ghost use Rattle.small_system.specs.SmallLaw.Keepers.{HaveKeepers};
ghost use Rattle.switched_law.specs.declared.switch_class.member.Member.{Member};
ghost use Rattle.switched_law.specs.declared.switch_class.actors.TheConstants.{BUFFERS};
ghost use Rattle.switched_law.specs.SwitchClass.Members.{member_means};
ghost use Rattle.switched_law.specs.SwitchClass.Queues.{AreQueues};
ghost use Rattle.switched_law.specs.SwitchClass.Casting.{CanBeMade, AreMade};
ghost use Rattle.switched_law.specs.SwitchOwners.Owning.{switch_naming, switch_keepers};
ghost use Rattle.switched_law.specs.SwitchOwners.Lines.{table_after, queued, IsLine};

use crate::switch_class::Member;
use owner_law::census_law;
use owner_law::pools::{line_law, spread_law};
use small_system::small_law::keeper_law;

/// Each client puts only buffers of its own and those that came to it, and the switch puts those
/// that came, each port's in their order.
pub fn keepers_law()
    ensures { (ports : Ports) (rows : List QueueRow) (start : List Member) → CanBeMade ports
        → AreQueues (length ports.macs) rows → AreMade ports start
        → Begins member_means rows start
        → HaveKeepers member_means (switch_naming (length ports.macs)) (length ports.macs) rows
        start (switch_keepers (length ports.macs)) }
{
    spread_law();
}

/// So each buffer has one owner at each moment, and of each pool the buffers that the table of
/// owners has in queues are the pages that stand there; the others are in hands.
pub fn switch_owner_law()
    ensures owners { (ports : Ports) (rows : List QueueRow) (start : List Member)
        (turns : List (Turn Member)) → CanBeMade ports → AreQueues (length ports.macs) rows
        → AreMade ports start → Begins member_means rows start
        → IsTale member_means (start_of rows start) turns
        → EachMoment (OneOwner (switch_naming (length ports.macs)) (start_history rows)
        (start_table (switch_keepers (length ports.macs)))) (journal_of turns) }
    ensures lines { (ports : Ports) (rows : List QueueRow) (start : List Member)
        (turns : List (Turn Member)) → CanBeMade ports → AreQueues (length ports.macs) rows
        → AreMade ports start → Begins member_means rows start
        → IsTale member_means (start_of rows start) turns
        → (pool : ℕ) → pool < 2 * length ports.macs
        → IsLine (queued (after_tale (start_of rows start) turns).world pool)
        (census (table_after (length ports.macs) rows (journal_of turns)) pool BUFFERS) }
{
    keepers_law();
    keeper_law::<Member>();
    census_law();
    line_law();
    spread_law();
}
