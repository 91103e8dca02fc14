//! Where the buffers of a cast are at a moment, of that moment's lists alone, whoever the actors
//! are and whatever they put.
ghost use Rattle.std.specs.Prelude.{◌≡◌, ◌+◌, ◌<◌, ◌≤◌, ℕ, List, [], Some, length, map, slice_get};
ghost use Rattle.wire_core.specs.declared.names.QueueRow.{QueueRow};
ghost use Rattle.wire_core.specs.Lists.{Passed, nothing_passed};
ghost use Rattle.owner_law.specs.Keeping.{AreKeepers};
ghost use Rattle.buffer_kit.specs.Conserving.{Count, of_other_length};
ghost use Rattle.cargo_core.specs.declared.item.PoolId.{PoolId};
ghost use Rattle.turn_kit.specs.Hands.{bodies_of};
ghost use Rattle.wired_law.specs.PageLaw.Holders.{PageHolder, AreHeld, HaveLength, keeper, has, queue_has};
ghost use Rattle.wired_law.specs.PageLaw.Holders.{standing, now_counted, start_counted};

/// In queues and with actors is what was with actors at the start, whatever is counted. So what is
/// counted once is in no two places, and what isn't there at the start is nowhere.
pub fn page_law()
    ensures whole { (f : Count) (passed : Passed) (rows : List QueueRow) (holders : List PageHolder)
        → AreHeld rows holders passed
        → now_counted f rows holders passed ≡ start_counted f holders }
    ensures queues { (f : Count) (passed : Passed) (rows : List QueueRow)
        (holders : List PageHolder) → AreHeld rows holders passed
        → (m n : ℕ) → m < length rows → n < length rows → (m ≡ n → ⊥)
        → queue_has f passed m + queue_has f passed n ≤ start_counted f holders }
    ensures queue { (f : Count) (passed : Passed) (rows : List QueueRow) (holders : List PageHolder)
        → AreHeld rows holders passed
        → (n k : ℕ) (h : PageHolder) → n < length rows → slice_get holders k ≡ Some h
        → queue_has f passed n + has f h ≤ start_counted f holders }
    ensures hands { (f : Count) (passed : Passed) (rows : List QueueRow) (holders : List PageHolder)
        → AreHeld rows holders passed
        → (j k : ℕ) (a b : PageHolder) → slice_get holders j ≡ Some a → slice_get holders k ≡ Some b
        → (j ≡ k → ⊥) → has f a + has f b ≤ start_counted f holders }
    ensures lengths { (pool : PoolId) (size : ℕ) (passed : Passed) (rows : List QueueRow)
        (holders : List PageHolder) → AreHeld rows holders passed
        → start_counted (of_other_length pool size) holders ≡ 0
        → ((n : ℕ) → n < length rows → HaveLength pool size (bodies_of (standing passed n)))
        × ((k : ℕ) (h : PageHolder) → slice_get holders k ≡ Some h
        → HaveLength pool size h.hand × HaveLength pool size h.kept) }
{}

/// Where nothing passed yet and each actor has what it had, the moment is one of these.
pub fn start_law()
    ensures { (rows : List QueueRow) (holders : List PageHolder)
        → AreKeepers rows (map keeper holders)
        → ((k : ℕ) (h : PageHolder) → slice_get holders k ≡ Some h → h.hand ≡ h.start)
        → ((k : ℕ) (h : PageHolder) → slice_get holders k ≡ Some h → h.kept ≡ [])
        → AreHeld rows holders nothing_passed }
{}
