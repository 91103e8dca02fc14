//! What any class of actors has from the player alone, once it says what each of its actors keeps
//! in hand and wants of its ends: one owner for each buffer at each moment, a bound on the steps,
//! and what stands in no queue where nobody is runnable.

ghost use Rattle.std.specs.Prelude.{◌≡◌, ◌+◌, ◌*◌, ◌<◌, ◌≤◌, ℕ, List, [], length, map};
ghost use Rattle.wire_core.specs.declared.names.QueueRow.{QueueRow};
ghost use Rattle.wire_core.specs.Ends.{Role, End};
ghost use Rattle.wire_core.specs.Journal.{start_history, nobody, EachMoment};
ghost use Rattle.wire_core.specs.Marks.{ends_of, all_sent};
ghost use Rattle.play_core.specs.Moved.{moved};
ghost use Rattle.play_core.specs.Wants.{Want};
ghost use Rattle.play_core.specs.Still.{IsStill};
ghost use Rattle.owner_law.specs.Things.{Naming};
ghost use Rattle.owner_law.specs.Owners.{OneOwner, replay};
ghost use Rattle.owner_law.specs.Keeping.{Keeper, IsShownBy, start_table};
ghost use Rattle.small_system.specs.Tales.{Turn, start_of, IsTale, after_tale, journal_of};
ghost use Rattle.small_system.specs.Tales.{running_in};
ghost use Rattle.small_system.specs.Standing.{Begins};
ghost use Rattle.small_system.specs.SmallLaw.Keepers.{HaveKeepers};
ghost use Rattle.small_system.specs.SmallLaw.Wants.{WantsAre};

use crate::{SmallActor, tale_law};
use owner_law::{owner_law, start_law};
use play_core::quiet_law;
use play_core::rests::rest_law;
use step_bound::brisk_law;

/// Where each actor of a class puts only what was in its hand, each move finds its buffer in the
/// place that it leaves, at each moment; and the table after the journal is the one that the lists
/// of the actors show.
pub fn keeper_law<A: SmallActor>()
    ensures owners { (naming : Naming) (lender : ℕ) (rows : List QueueRow) (start : List A)
        (turns : List (Turn A)) (keepers : List Keeper) → Begins A.means rows start
        → IsTale A.means (start_of rows start) turns
        → HaveKeepers A.means naming lender rows start keepers
        → EachMoment (OneOwner naming (start_history rows) (start_table keepers))
        (journal_of turns) }
    ensures shown { (naming : Naming) (lender : ℕ) (rows : List QueueRow) (start : List A)
        (turns : List (Turn A)) (keepers : List Keeper) → Begins A.means rows start
        → IsTale A.means (start_of rows start) turns
        → HaveKeepers A.means naming lender rows start keepers
        → IsShownBy naming lender keepers (moved (start_history rows) (journal_of turns))
        (replay naming (start_history rows) (start_table keepers) (journal_of turns)) }
{
    owner_law();
    start_law();
}

/// Where so many entries at most are put, and each actor has at most so many ends, a play has fewer
/// steps than this.
pub fn bound_law<A: SmallActor>()
    ensures { (rows : List QueueRow) (start : List A) (turns : List (Turn A)) (hops ends : ℕ)
        → Begins A.means rows start → IsTale A.means (start_of rows start) turns
        → ((a : ℕ) → ends_of a rows ≤ ends)
        → all_sent (start_history rows) rows (journal_of turns) ≤ hops
        → length (journal_of turns) < 32 * (hops + length start + 1) * (ends + 1) }
{
    tale_law::<A>();
    brisk_law();
}

/// Where nobody is runnable, all ends are settled by what the actors want of them then, and nobody
/// is called; so what holds of queues where all is still holds of theirs.
pub fn still_law<A: SmallActor>()
    ensures { (rows : List QueueRow) (start : List A) (turns : List (Turn A))
        (wants : A → List Want) → Begins A.means rows start
        → IsTale A.means (start_of rows start) turns → WantsAre A.means wants
        → running_in A.means (after_tale (start_of rows start) turns) ≡ []
        → IsStill nobody (start_history rows) rows
        (map wants (after_tale (start_of rows start) turns).actors) (journal_of turns) }
{
    tale_law::<A>();
    rest_law();
    quiet_law();
}
