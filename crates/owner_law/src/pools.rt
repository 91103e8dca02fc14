//! Pools and their lines in a report, of whatever class: what a program counts in its queues, in
//! the hands of its actors and as lent is what the table of owners says after the journal; and with
//! whom the buffers of pools are at the start.

ghost use Rattle.std.specs.Prelude.{◌≡◌, ◌⊎◌, ◌<◌, ◌+◌, ◌++◌, ℕ, Some, List, [], length};
ghost use Rattle.std.specs.Prelude.{slice_get, sum_by};
ghost use Rattle.cargo_core.specs.Bodies.{buffers_of};
ghost use Rattle.cargo_core.specs.Lists.{IsPrefix};
ghost use Rattle.cargo_core.specs.declared.item.Body.{Body};
ghost use Rattle.cargo_core.specs.declared.item.PoolId.{PoolId};
ghost use Rattle.wire_core.specs.declared.names.QueueRow.{QueueRow};
ghost use Rattle.wire_core.specs.declared.names.Entry.{Entry};
ghost use Rattle.wire_core.specs.Deeds.{Deed};
ghost use Rattle.wire_core.specs.Journal.{History, Hostiles, start_history};
ghost use Rattle.wire_core.specs.Lists.{Passed, nothing_passed, with_deed};
ghost use Rattle.wire_core.specs.Queues.{Queue};
ghost use Rattle.turn_kit.specs.Hands.{Balances, bodies_of};
ghost use Rattle.play_core.specs.Moved.{Moved, Seat, moved};
ghost use Rattle.owner_law.specs.Things.{Naming};
ghost use Rattle.owner_law.specs.Owners.{Table, replay};
ghost use Rattle.owner_law.specs.Keeping.{Keeper, Keeps, AreDealt, all_taken, all_put, start_table};
ghost use Rattle.owner_law.specs.Pages.{CarryPages};
ghost use Rattle.owner_law.specs.Census.{census, IsPool};
ghost use Rattle.owner_law.specs.Pools.Handing.{IsOnward, NameNothing, TakesPages};
ghost use Rattle.owner_law.specs.Pools.Lines.{Holder, AreLines, HoldsIts, HandWithin, came, went};
ghost use Rattle.owner_law.specs.Pools.Places.{PoolAt, pool_hand};
ghost use Rattle.owner_law.specs.Pools.Spread.{share_of, AreSpread};

/// Entries carry the pages that their items name at the start, where there are none, and after each
/// call of an actor that hands pages on. So do those that were taken.
pub fn carry_law()
    ensures start { (naming : Naming) (rows : List QueueRow)
        → CarryPages naming (moved (start_history rows) []) nothing_passed }
    ensures step { (naming : Naming) (old new : Moved) (passed : Passed) (d : Deed)
        (ends : List Seat) → IsOnward naming old new passed d ends
        → CarryPages naming new (with_deed passed d) }
    ensures takes { (naming : Naming) (m : Moved) (passed : Passed) (seats : List Seat)
        → CarryPages naming m passed
        → ((n : ℕ) → IsPrefix (passed.taken n) (passed.sent n))
        → TakesPages naming m passed seats }
{}

/// The line of each pool after a journal: the buffers that the table has in queues are the pages
/// that stand there, those that it has in hands are the bodies in the actors' hands, and those that
/// it has lent are the ones that the actors have lent. Together they are the whole pool, where each
/// of its buffers had a place at the start.
pub fn line_law()
    ensures queues { (naming : Naming) (lender : ℕ) (hostile : Hostiles) (history : History)
        (rows : List QueueRow) (sizes : ℕ → ℕ) (holders : List Holder) (start : Table)
        (journal : List Entry) (passed : Passed) (world : List Queue)
        → AreLines naming lender hostile history rows sizes holders start journal passed world
        → (pool : PoolId)
        → (census (replay naming history start journal) pool.0 (sizes pool.0)).queues
        ≡ sum_by (λ (q : Queue). buffers_of pool (bodies_of q.entries)) world }
    ensures hands { (naming : Naming) (lender : ℕ) (hostile : Hostiles) (history : History)
        (rows : List QueueRow) (sizes : ℕ → ℕ) (holders : List Holder) (start : Table)
        (journal : List Entry) (passed : Passed) (world : List Queue)
        → AreLines naming lender hostile history rows sizes holders start journal passed world
        → (pool : PoolId)
        → (census (replay naming history start journal) pool.0 (sizes pool.0)).hands
        ≡ sum_by (λ (h : Holder). buffers_of pool h.hand) holders }
    ensures lent { (naming : Naming) (lender : ℕ) (hostile : Hostiles) (history : History)
        (rows : List QueueRow) (sizes : ℕ → ℕ) (holders : List Holder) (start : Table)
        (journal : List Entry) (passed : Passed) (world : List Queue)
        → AreLines naming lender hostile history rows sizes holders start journal passed world
        → (pool : PoolId)
        → (census (replay naming history start journal) pool.0 (sizes pool.0)).lent
        ≡ sum_by (λ (h : Holder). h.lent pool.0) holders }
    ensures whole { (naming : Naming) (lender : ℕ) (hostile : Hostiles) (history : History)
        (rows : List QueueRow) (sizes : ℕ → ℕ) (holders : List Holder) (start : Table)
        (journal : List Entry) (passed : Passed) (world : List Queue)
        → AreLines naming lender hostile history rows sizes holders start journal passed world
        → (pool : PoolId)
        → IsPool start pool.0 (sizes pool.0)
        → sum_by (λ (q : Queue). buffers_of pool (bodies_of q.entries)) world
        + sum_by (λ (h : Holder). buffers_of pool h.hand) holders
        + sum_by (λ (h : Holder). h.lent pool.0) holders ≡ sizes pool.0 }
{}

/// An actor at whose queues items name nothing puts only what was in its hand; and where what it
/// took has no pages, and it has what came to it or put it, it has no buffers in its hand.
pub fn nothing_law()
    ensures keeps { (naming : Naming) (hand : ℕ → List ℕ) (ends : List Seat) (m : Moved)
        → NameNothing naming ends
        → Keeps hand (all_taken naming m ends) (all_put naming m ends) }
    ensures holds { (naming : Naming) (sizes : ℕ → ℕ) (ends : List Seat) (passed : Passed)
        (m : Moved) (hand kept : List Body) → NameNothing naming ends
        → TakesPages naming m passed ends
        → Balances [] (came passed ends) (went passed ends) hand kept
        → HoldsIts naming sizes m passed (record {
          keeper = record { ends = ends; hand = λ pool. [] };
          hand = hand;
          lent = λ pool. 0;
        }) }
{}

/// Where each pool's buffers are with one actor at the start, no buffer is in two hands then, each
/// one that its pool has is in one, and each hand has its pools' own.
pub fn spread_law()
    ensures dealt { (sizes owner : ℕ → ℕ) (keepers : List Keeper) → AreSpread sizes owner keepers
        → AreDealt keepers }
    ensures pools { (sizes owner : ℕ → ℕ) (keepers : List Keeper) → AreSpread sizes owner keepers
        → (pool : ℕ) → owner pool < length keepers
        → IsPool (start_table keepers) pool (sizes pool) }
    ensures within { (sizes owner : ℕ → ℕ) (keepers : List Keeper) → AreSpread sizes owner keepers
        → (k : ℕ) (p : Keeper) → slice_get keepers k ≡ Some p → HandWithin sizes p }
{}

/// A hand at the start is one of pools that are spread: of an actor with one pool, of one with two,
/// and of one with none.
pub fn share_law()
    ensures none { (sizes owner : ℕ → ℕ) (k pool : ℕ) → (owner pool ≡ k → ⊥)
        → [] ≡ share_of sizes owner k pool }
    ensures one { (sizes owner : ℕ → ℕ) (k : ℕ) (p : PoolAt) → sizes p.number ≡ p.buffers
        → owner p.number ≡ k → ((n : ℕ) → owner n ≡ k → n ≡ p.number) → (pool : ℕ)
        → pool_hand p pool ≡ share_of sizes owner k pool }
    ensures two { (sizes owner : ℕ → ℕ) (k : ℕ) (p q : PoolAt) → sizes p.number ≡ p.buffers
        → sizes q.number ≡ q.buffers → (p.number ≡ q.number → ⊥) → owner p.number ≡ k
        → owner q.number ≡ k
        → ((n : ℕ) → owner n ≡ k → (n ≡ p.number) ⊎ (n ≡ q.number)) → (pool : ℕ)
        → pool_hand p pool ++ pool_hand q pool ≡ share_of sizes owner k pool }
{}
