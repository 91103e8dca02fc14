//! The owners of buffers, of whatever class: a journal is replayed on one table, in which each
//! buffer has its place. What holds of the table at any moment follows from the rows of the actors
//! and the law of the queues, or from counts over all actors and queues; and the lines of pools in
//! a report are what the table says.
#![tactic(auto)]

ghost use Rattle.std.specs.Prelude.{◌≡◌, ◌+◌, ◌<◌, ◌≤◌, ◌++◌, ℕ, Some, List, [], length, slice_get};
ghost use Rattle.std.specs.Prelude.{sum_by};
ghost use Rattle.wire_core.specs.declared.names.QueueRow.{QueueRow};
ghost use Rattle.wire_core.specs.declared.names.Entry.{Entry};
ghost use Rattle.wire_core.specs.Journal.{History, Hostiles, EachMoment, QueuesFlow, start_history};
ghost use Rattle.wire_core.specs.Deeds.{Cargo};
ghost use Rattle.wire_core.specs.Lists.{Passed};
ghost use Rattle.wire_core.specs.Marks.{sum_below};
ghost use Rattle.play_core.specs.Moved.{Moved, moved};
ghost use Rattle.owner_law.specs.Things.{Buffer, Naming, things_sent, things_taken};
ghost use Rattle.owner_law.specs.Owners.{Table, AreCounted, OneOwner, replay, replay_from};
ghost use Rattle.owner_law.specs.Keeping.{Keeper, at_start, Keeps, all_taken, all_put, stands_in};
ghost use Rattle.owner_law.specs.Keeping.{is_with, IsShownBy, start_table, AreDealt, IsNaming};
ghost use Rattle.owner_law.specs.Keeping.{IsOwned};
ghost use Rattle.owner_law.specs.Shown.{buffers_left, buffers_with, of_actor, shown_table};
ghost use Rattle.owner_law.specs.Shown.{HaveOnePlace};
ghost use Rattle.owner_law.specs.Pages.{as_page, CarryPages};
ghost use Rattle.owner_law.specs.Census.{census, IsPool, buffers_among, buffers_at_start};

pub mod counts;
pub mod pools;

/// The replay of a journal is that of its beginning and then of its rest.
pub fn replay_law()
    ensures { (naming : Naming) (history : History) (before : List Entry) (t : Table)
        (es fs : List Entry)
        → replay_from naming history before t (es ++ fs)
        ≡ replay_from naming history (before ++ es) (replay_from naming history before t es) fs }
{}

/// Where the queues hand over in order and each actor puts only what it had at the start and took,
/// each move finds its buffer or lease in the place that it leaves, at each moment, and each lent
/// buffer has as many receivers as there are leases of it. The table stays the one that the lists
/// of the actors show.
pub fn owner_law()
    ensures owners { (naming : Naming) (lender : ℕ) (hostile : Hostiles) (history : History)
        (rows : List QueueRow) (keepers : List Keeper) (start : Table) (journal : List Entry)
        → IsOwned naming lender hostile history rows keepers start journal
        → EachMoment (OneOwner naming history start) journal }
    ensures shown { (naming : Naming) (lender : ℕ) (hostile : Hostiles) (history : History)
        (rows : List QueueRow) (keepers : List Keeper) (start : Table) (journal : List Entry)
        → IsOwned naming lender hostile history rows keepers start journal
        → EachMoment (λ j. IsShownBy naming lender keepers (moved history j)
        (replay naming history start j)) journal }
{}

/// A system that was built starts with a table that its lists show, and in which nothing is lent.
pub fn start_law()
    ensures shown { (naming : Naming) (lender : ℕ) (rows : List QueueRow) (keepers : List Keeper)
        → AreDealt keepers
        → IsShownBy naming lender keepers (moved (start_history rows) []) (start_table keepers) }
    ensures counted { (keepers : List Keeper) → AreCounted (start_table keepers) }
    ensures pools { (keepers : List Keeper) (pool buffers : ℕ)
        → ((no : ℕ) → no < buffers
        → 1 ≤ sum_by (λ p. at_start p.hand (record { pool = pool; no = no })) keepers)
        → IsPool (start_table keepers) pool buffers }
{}

/// A system that takes a history over begins with the table that its lists show, where each buffer
/// has at most one place by them and as many leases as receivers; a buffer that they have somewhere
/// has a place there.
pub fn shown_law()
    ensures pools { (naming : Naming) (lender : ℕ) (keepers : List Keeper) (queues : ℕ) (m : Moved)
        (pool buffers : ℕ) → ((no : ℕ) → no < buffers
        → 1 ≤ sum_below (buffers_left naming m (record { pool = pool; no = no })) queues
        + sum_below (of_actor keepers (buffers_with naming m (record { pool = pool; no = no })))
        (length keepers))
        → IsPool (shown_table naming lender keepers queues m) pool buffers }
    ensures shown { (naming : Naming) (lender : ℕ) (hostile : Hostiles) (history : History)
        (rows : List QueueRow) (keepers : List Keeper)
        → IsNaming naming lender hostile rows → QueuesFlow history rows []
        → ((k : ℕ) (p : Keeper) → slice_get keepers k ≡ Some p → Keeps p.hand
        (all_taken naming (moved history []) p.ends) (all_put naming (moved history []) p.ends))
        → lender < length keepers
        → HaveOnePlace naming lender keepers (length rows) (moved history [])
        → IsShownBy naming lender keepers (moved history [])
        (shown_table naming lender keepers (length rows) (moved history []))
        × AreCounted (shown_table naming lender keepers (length rows) (moved history [])) }
{}

/// The pool lines. The three numbers add up to the pool's size at each moment of any journal, where
/// each buffer had a place at its start. Those of the queues are what was put there and not taken;
/// those of hands and lent buffers together are what the actors had at the start and took, and
/// didn't put. So it is of each queue and each actor alone.
pub fn census_law()
    ensures whole { (naming : Naming) (history : History) (start : Table) (pool buffers : ℕ)
        → IsPool start pool buffers → (journal : List Entry)
        → (census (replay naming history start journal) pool buffers).queues
        + (census (replay naming history start journal) pool buffers).hands
        + (census (replay naming history start journal) pool buffers).lent ≡ buffers }
    ensures queues { (naming : Naming) (lender : ℕ) (hostile : Hostiles) (rows : List QueueRow)
        (keepers : List Keeper) (m : Moved) (t : Table) (pool buffers : ℕ)
        → IsNaming naming lender hostile rows → IsShownBy naming lender keepers m t
        → (census t pool buffers).queues
        + sum_below (λ n. buffers_among pool buffers (things_taken naming m n)) (length rows)
        ≡ sum_below (λ n. buffers_among pool buffers (things_sent naming m n)) (length rows) }
    ensures queue { (naming : Naming) (lender : ℕ) (keepers : List Keeper) (m : Moved) (t : Table)
        (pool buffers n : ℕ) → IsShownBy naming lender keepers m t
        → sum_below (λ no. stands_in n (t.place (record { pool = pool; no = no }))) buffers
        + buffers_among pool buffers (things_taken naming m n)
        ≡ buffers_among pool buffers (things_sent naming m n) }
    ensures actor { (naming : Naming) (lender : ℕ) (keepers : List Keeper) (m : Moved) (t : Table)
        (pool buffers k : ℕ) (p : Keeper) → IsShownBy naming lender keepers m t
        → slice_get keepers k ≡ Some p
        → sum_below (λ no. is_with lender k (t.place (record { pool = pool; no = no }))) buffers
        + buffers_among pool buffers (all_put naming m p.ends)
        ≡ buffers_at_start pool buffers p.hand
        + buffers_among pool buffers (all_taken naming m p.ends) }
    ensures hands { (naming : Naming) (lender : ℕ) (keepers : List Keeper) (m : Moved) (t : Table)
        (pool buffers : ℕ)
        → IsShownBy naming lender keepers m t
        → (census t pool buffers).hands + (census t pool buffers).lent
        + sum_by (λ p. buffers_among pool buffers (all_put naming m p.ends)) keepers
        ≡ sum_by (λ p. buffers_at_start pool buffers p.hand
        + buffers_among pool buffers (all_taken naming m p.ends)) keepers }
{}

/// Where entries carry the pages of the buffers that their items name, each page that stands in a
/// queue is where the table says, and no other one.
pub fn pages_law()
    ensures { (naming : Naming) (lender : ℕ) (keepers : List Keeper) (m : Moved) (t : Table)
        (passed : Passed) → IsShownBy naming lender keepers m t → CarryPages naming m passed
        → (n : ℕ) (entries : List Cargo) → passed.sent n ≡ passed.taken n ++ entries
        → (b : Buffer) → sum_by (λ c. as_page b c.1) entries ≡ stands_in n (t.place b) }
{}
