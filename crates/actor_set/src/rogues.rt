//! A hostile client at play: what a journal tells of it, and what is said of its part.
ghost use Rattle.std.specs.Prelude.{◌≡◌, ◌++◌, ◌≤◌, ℕ, not, List, [], ◌∷◌, length};
ghost use Rattle.cargo_core.specs.Pages.{Paged};
ghost use Rattle.buffer_kit.specs.Conserving.{Count, counted};
ghost use Rattle.buffer_kit.specs.Pools.{page_bodies};
ghost use Rattle.wire_core.specs.declared.names.Entry.{Entry};
ghost use Rattle.wire_core.specs.declared.names.Event.{Event};
ghost use Rattle.wire_core.specs.declared.names.QueueRow.{QueueRow};
ghost use Rattle.wire_core.specs.Journal.{History};
ghost use Rattle.play_core.specs.Wants.{Want};
ghost use Rattle.play_core.specs.Manners.{calls_of};
ghost use Rattle.play_core.specs.Runs.{is_runnable};
ghost use Rattle.play_core.specs.Sheets.{IsOwn, NeedsFollow};
ghost use Rattle.client_programs.specs.declared.rogue.Rogue.{Rogue};
ghost use Rattle.client_programs.specs.Rogue.Acts.{is_done, calls_left};
ghost use Rattle.client_programs.specs.Rogue.Clients.{Acted, SameRogue, left_of, left_at_start};
ghost use Rattle.actor_set.specs.Actors.{pages_at};
ghost use Rattle.actor_set.specs.Rogues.{KeepsActs, rogue_manner, rogue_sheet, pages_weigh};

/// Where a journal begins, and after each call of its own and of others, what a hostile client did
/// is told by its acts; so it is runnable exactly where an act that makes a call is left, whatever
/// is pending; and it makes at most two calls an act.
pub fn play_law()
    ensures begins { (k : ℕ) (r : Rogue) → left_at_start r ≡ left_of r → KeepsActs k r [] }
    ensures own { (k : ℕ) (old new : Rogue) (journal : List Entry) (e : Event)
        → SameRogue old new → Acted old e new → KeepsActs k old journal
        → KeepsActs k new (journal ++ record { actor = record { 0 = k }; event = e } ∷ []) }
    ensures beside { (k : ℕ) (r : Rogue) (journal : List Entry) (e : Entry)
        → (e.actor.0 ≡ k → ⊥) → KeepsActs k r journal → KeepsActs k r (journal ++ e ∷ []) }
    ensures runs { (k : ℕ) (r : Rogue) (journal : List Entry) (wants : List Want)
        (history : History) (rows : List QueueRow) → KeepsActs k r journal
        → is_runnable (rogue_manner (left_at_start r)) k wants history rows journal
        ≡ not (is_done (left_of r)) }
    ensures few { (k : ℕ) (r : Rogue) (journal : List Entry) → KeepsActs k r journal
        → length (calls_of k journal) ≤ calls_left (left_at_start r) }
{}

/// What is said of the part of a hostile client speaks of its own ends, and its needs follow; and
/// its part tells what the pages weigh that it had at the start.
pub fn sheet_law()
    ensures own { (inputs outputs : List ℕ) (hand : ℕ → List ℕ)
        → IsOwn (rogue_sheet inputs outputs hand) }
    ensures needs { (inputs outputs : List ℕ) (hand : ℕ → List ℕ)
        → NeedsFollow (rogue_sheet inputs outputs hand) }
    ensures pages { (f : Count) (pages : List Paged)
        → counted f (page_bodies pages) ≡ pages_weigh f (pages_at pages) }
{}
