//! Counting over all actors and all queues: what the actors' ends show of each buffer is what the
//! queues show, so that no order of events is needed to tell that a buffer has one place.

ghost use Rattle.std.specs.Prelude.{◌≡◌, ◌+◌, ◌<◌, ℕ, List, [], length, sum_by};
ghost use Rattle.wire_core.specs.declared.names.QueueRow.{QueueRow};
ghost use Rattle.wire_core.specs.declared.names.Entry.{Entry};
ghost use Rattle.wire_core.specs.Journal.{History, Hostiles};
ghost use Rattle.wire_core.specs.Marks.{sum_below};
ghost use Rattle.play_core.specs.Moved.{Moved, moved};
ghost use Rattle.owner_law.specs.Things.{Buffer, Naming, Thing, things_sent, things_taken};
ghost use Rattle.owner_law.specs.Owners.{AreCounted};
ghost use Rattle.owner_law.specs.Keeping.{Keeper, at_start, all_taken, all_put, start_table};
ghost use Rattle.owner_law.specs.Keeping.{AreDealt, AreKeepers, IsShownBy};
ghost use Rattle.owner_law.specs.Shown.{buffers_left, buffers_with, of_actor, shown_table};
ghost use Rattle.owner_law.specs.Shown.{HaveOnePlace};
ghost use Rattle.owner_law.specs.Census.{IsPool};
ghost use Rattle.owner_law.specs.Counts.Keeping.{KeepTheirs};

/// All that the actors put and took together is all that was put to the queues and taken there,
/// whatever is counted of it. So where each actor put only what was in its hand, and queues hand
/// over, a buffer is as often in queues and with actors as it was in hands at the start; and where
/// it was in no two of them, it has at most one place, and as many leases as receivers. A pool that
/// was in hands at the start has a place for each of its buffers; and where a history is taken
/// over, its lists show the table.
pub fn count_law()
    ensures put { (naming : Naming) (rows : List QueueRow) (keepers : List Keeper) (m : Moved)
        (f : Thing → ℕ) → AreKeepers rows keepers
        → sum_by (λ p. sum_by f (all_put naming m p.ends)) keepers
        ≡ sum_below (λ n. sum_by f (things_sent naming m n)) (length rows) }
    ensures taken { (naming : Naming) (rows : List QueueRow) (keepers : List Keeper) (m : Moved)
        (f : Thing → ℕ) → AreKeepers rows keepers
        → sum_by (λ p. sum_by f (all_taken naming m p.ends)) keepers
        ≡ sum_below (λ n. sum_by f (things_taken naming m n)) (length rows) }
    ensures whole { (naming : Naming) (lender : ℕ) (hostile : Hostiles) (history : History)
        (rows : List QueueRow) (keepers : List Keeper) (journal : List Entry)
        → KeepTheirs naming lender hostile history rows keepers journal
        → (b : Buffer) → sum_below (buffers_left naming (moved history journal) b) (length rows)
        + sum_below (of_actor keepers (buffers_with naming (moved history journal) b))
        (length keepers) ≡ sum_by (λ p. at_start p.hand b) keepers }
    ensures one_place { (naming : Naming) (lender : ℕ) (hostile : Hostiles) (history : History)
        (rows : List QueueRow) (keepers : List Keeper) (journal : List Entry)
        → KeepTheirs naming lender hostile history rows keepers journal
        → AreDealt keepers
        → HaveOnePlace naming lender keepers (length rows) (moved history journal) }
    ensures pools { (naming : Naming) (lender : ℕ) (hostile : Hostiles) (history : History)
        (rows : List QueueRow) (keepers : List Keeper) (journal : List Entry)
        → KeepTheirs naming lender hostile history rows keepers journal
        → (pool buffers : ℕ) → IsPool (start_table keepers) pool buffers
        → IsPool (shown_table naming lender keepers (length rows) (moved history journal))
        pool buffers }
    ensures table { (naming : Naming) (lender : ℕ) (hostile : Hostiles) (history : History)
        (rows : List QueueRow) (keepers : List Keeper)
        → KeepTheirs naming lender hostile history rows keepers []
        → AreDealt keepers → lender < length keepers
        → IsShownBy naming lender keepers (moved history [])
        (shown_table naming lender keepers (length rows) (moved history []))
        × AreCounted (shown_table naming lender keepers (length rows) (moved history [])) }
{}
