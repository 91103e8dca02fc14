//! What follows from the tale of a play's turns, for any kind of actor.
ghost use Rattle.std.specs.Prelude.{◌≡◌, ◌++◌, ℕ, List, [], Some, length, slice_get};
ghost use Rattle.wire_core.specs.declared.names.QueueRow.{QueueRow};
ghost use Rattle.wire_core.specs.declared.names.Entry.{Entry};
ghost use Rattle.wire_core.specs.Journal.{start_history};
ghost use Rattle.wire_core.specs.Lists.{Passed};
ghost use Rattle.wire_core.specs.Picks.{PickedFrom};
ghost use Rattle.play_core.specs.Moved.{moved};
ghost use Rattle.play_core.specs.Still.{IsQuiet};
ghost use Rattle.play_core.specs.Rests.Showing.{HaveItems, HaveBells};
ghost use Rattle.small_system.specs.Tales.{Moment, Turn, start_of, IsTale, after_tale, journal_of};
ghost use Rattle.small_system.specs.Tales.{passed_by, running_in, PickedBy, Along};
ghost use Rattle.small_system.specs.Standing.{Begins, Holds, IsLawful};
ghost use Rattle.small_system.specs.Wants.{Wanting, RestsBy, runs_by, wanted_by, calm};

use crate::SmallActor;

/// What a class's own theorem begins with. At each moment of a tale all actors fit and stand for
/// what passed, and queues, journal and what passed belong together; each actor is made of what it
/// was made of at the start; the journal is lawful. Where each actor rests exactly where all that
/// it wants is settled, those that are runnable by their own states are runnable by their wants, a
/// seed picks among them, and where nobody is runnable nobody is so by wants.
pub fn tale_law<A: SmallActor>()
    ensures joins { (moment : Moment A) (before more : List (Turn A))
        → IsTale A.means moment before → IsTale A.means (after_tale moment before) more
        → IsTale A.means moment (before ++ more) }
    ensures moments { (rows : List QueueRow) (start : List A) (turns : List (Turn A))
        → Begins A.means rows start → IsTale A.means (start_of rows start) turns
        → Along (λ moment before. Holds A.means rows moment (passed_by before)
        (journal_of before)) (start_of rows start) [] turns }
    ensures last { (rows : List QueueRow) (start : List A) (turns : List (Turn A))
        → Begins A.means rows start → IsTale A.means (start_of rows start) turns
        → Holds A.means rows (after_tale (start_of rows start) turns) (passed_by turns)
        (journal_of turns) }
    ensures lawful { (rows : List QueueRow) (start : List A) (turns : List (Turn A))
        → Begins A.means rows start → IsTale A.means (start_of rows start) turns
        → IsLawful rows (journal_of turns) }
    ensures count { (moment : Moment A) (turns : List (Turn A)) → IsTale A.means moment turns
        → length (after_tale moment turns).actors ≡ length moment.actors }
    ensures parts { (moment : Moment A) (turns : List (Turn A)) → IsTale A.means moment turns
        → (k : ℕ) (x y : A) → slice_get moment.actors k ≡ Some x
        → slice_get (after_tale moment turns).actors k ≡ Some y
        → A.means.part y ≡ A.means.part x }
    // The journal shows the items of what passed, and the bells of the queues.
    ensures items { (rows : List QueueRow) (moment : Moment A) (passed : Passed)
        (journal : List Entry) → Holds A.means rows moment passed journal
        → HaveItems passed (moved (start_history rows) journal) }
    ensures bells { (rows : List QueueRow) (moment : Moment A) (passed : Passed)
        (journal : List Entry) → Holds A.means rows moment passed journal
        → HaveBells moment.world (start_history rows) journal }
    ensures runs { (wants : Wanting) (rows : List QueueRow) (moment : Moment A) (passed : Passed)
        (journal : List Entry) → Holds A.means rows moment passed journal
        → RestsBy A.means wants rows moment journal
        → running_in A.means moment ≡ runs_by wants rows (length moment.actors) journal }
    ensures quiet { (wants : Wanting) (rows : List QueueRow) (start : List A)
        (turns : List (Turn A)) → Begins A.means rows start
        → IsTale A.means (start_of rows start) turns
        → RestsBy A.means wants rows (after_tale (start_of rows start) turns) (journal_of turns)
        → running_in A.means (after_tale (start_of rows start) turns) ≡ []
        → IsQuiet calm (start_history rows) rows
        (wanted_by wants rows (length start) (journal_of turns)) (journal_of turns) }
    ensures picks { (wants : Wanting) (rows : List QueueRow) (moment : Moment A)
        (before more : List (Turn A)) (seed : ℕ)
        → Holds A.means rows moment (passed_by before) (journal_of before)
        → IsTale A.means moment more
        → Along (λ moment before. RestsBy A.means wants rows moment (journal_of before)) moment
        before more → PickedBy A.means moment seed more
        → PickedFrom (runs_by wants rows (length moment.actors)) seed (journal_of before)
        (journal_of more) }
{}
