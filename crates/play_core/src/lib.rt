//! The definitions of a played system, low, and what holds of any class of actors: whose turn it
//! may be after a call, that the picks of seeds leave nobody out, when an actor is at rest, and
//! what rests where nobody may make a call. They stand just above the calls, so that a law on a
//! class waits for no description.
#![tactic(auto)]

ghost use Rattle.std.specs.Prelude.{◌≡◌, ◌≢◌, ◌≤◌, ◌++◌, ℕ, Bool, true, false, List, [], ◌∷◌, Some};
ghost use Rattle.std.specs.Prelude.{length, slice_get};
ghost use Rattle.cargo_core.specs.Lists.{Merge, PrefixMerge};
ghost use Rattle.wire_core.specs.declared.names.QueueRow.{QueueRow};
ghost use Rattle.wire_core.specs.declared.names.Entry.{Entry};
ghost use Rattle.wire_core.specs.declared.names.Event.{Event};
ghost use Rattle.wire_core.specs.declared.names.Op.{Op};
ghost use Rattle.wire_core.specs.Ends.{Role, role_of};
ghost use Rattle.wire_core.specs.Journal.{History, Hostiles, MayCall, is_calm, track, owner_of};
ghost use Rattle.play_core.specs.Wants.{Want, Needful};
ghost use Rattle.play_core.specs.Manners.{Manners, hostile_by};
ghost use Rattle.play_core.specs.Runs.{is_runnable, rung_at, reach_of};
ghost use Rattle.play_core.specs.Resting.{QueueRests, QueuePays, is_due};
ghost use Rattle.play_core.specs.Totals.{total};
ghost use Rattle.play_core.specs.Still.{IsQuiet, IsStill, Needs, Owes};

pub mod growing;
pub mod looks;
pub mod picks;
pub mod rests;

/// Where no actor is runnable, all ends are settled and nobody is called; and then of each queue
/// with no hostile end: no entry stands in it where its consumer needs one, and an entry is owed to
/// it only where it is full.
pub fn quiet_law()
    ensures still { (manner : Manners) (history : History) (rows : List QueueRow)
        (actors : Needful) (journal : List Entry)
        → IsQuiet manner history rows actors journal
        → IsStill (hostile_by manner) history rows actors journal }
    ensures rests { (hostile : Hostiles) (history : History) (rows : List QueueRow)
        (actors : Needful) (journal : List Entry)
        → IsStill hostile history rows actors journal
        → (n : ℕ) (row : QueueRow) (needed owed : Bool) → slice_get rows n ≡ Some row
        → is_calm hostile row ≡ true → Needs hostile actors n needed → Owes hostile actors n owed
        → QueueRests row (track history n journal) needed owed }
    ensures pays { (hostile : Hostiles) (history : History) (rows : List QueueRow)
        (actors : Needful) (journal : List Entry)
        → IsStill hostile history rows actors journal
        → (n : ℕ) (row : QueueRow) (needed : Bool) (due : ℕ) → slice_get rows n ≡ Some row
        → is_calm hostile row ≡ true → Needs hostile actors n needed
        → Owes hostile actors n (is_due (track history n journal) due)
        → QueuePays row (track history n journal) needed due }
{}

/// A call on a queue, whoever may make it, changes who is runnable only for its caller and for whom
/// it reaches: any other actor, of whose ends none is the one at which it is made, stays runnable
/// or not; one that is rung is runnable, unless it is hostile.
pub fn step_law()
    ensures apart { (manner : Manners) (history : History) (rows : List QueueRow)
        (journal : List Entry) (k : ℕ) (e : Event) (row : QueueRow)
        → slice_get rows e.queue.0 ≡ Some row → MayCall (hostile_by manner) row (role_of e.op) k
        → (i : ℕ) (wants : List Want) → i ≢ k → (reach_of e.op row k ≡ Some i → ⊥)
        → ((p : ℕ) (w : Want) → slice_get wants p ≡ Some w → w.queue ≡ e.queue.0
        → w.role ≡ role_of e.op → ⊥)
        → is_runnable (manner i) i wants history rows
        (journal ++ record { actor = record { 0 = k }; event = e } ∷ [])
        ≡ is_runnable (manner i) i wants history rows journal }
    ensures reach { (op : Op) (row : QueueRow) (k i : ℕ) → reach_of op row k ≡ Some i
        → (r : Role) × (owner_of row r ≡ i) }
    ensures rung { (manner : Manners) (history : History) (rows : List QueueRow)
        (journal : List Entry) (k : ℕ) (e : Event) (row : QueueRow)
        → slice_get rows e.queue.0 ≡ Some row → MayCall (hostile_by manner) row (role_of e.op) k
        → (i : ℕ) (wants : List Want) → hostile_by manner i ≡ false → rung_at e.op row ≡ Some i
        → is_runnable (manner i) i wants history rows
        (journal ++ record { actor = record { 0 = k }; event = e } ∷ []) ≡ true }
{}

/// A merge of beginnings that has as many elements as the lists have together is a merge of the
/// whole lists.
pub fn merge_law()
    ensures { (lists : List (List ℕ)) (all : List ℕ) → PrefixMerge lists all
        → total lists ≤ length all
        → Merge lists all }
{}
