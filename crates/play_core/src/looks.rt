//! Looks in vain: a journal tells how many each end made, and no more was dropped than they are.

ghost use Rattle.std.specs.Prelude.{◌≡◌, ◌≤◌, ◌+◌, ◌++◌, ℕ, List, [], ◌∷◌};
ghost use Rattle.wire_core.specs.declared.names.Entry.{Entry};
ghost use Rattle.wire_core.specs.declared.names.Event.{Event};
ghost use Rattle.wire_core.specs.Bells.{bit};
ghost use Rattle.wire_core.specs.Ends.{Role};
ghost use Rattle.wire_core.specs.Fates.{is_vain_at, noes_at};
ghost use Rattle.wire_core.specs.Journal.{History, history_at, track};
ghost use Rattle.wire_core.specs.Marks.{dropped};
ghost use Rattle.play_core.specs.Looks.{drops_at, events_of, noes_together};
ghost use Rattle.play_core.specs.Moved.{Seat, moved, noes_of};

/// A track counts the looks in vain that history and journal have, one call at a time; so an
/// account of all calls goes on to agree with it; and the drops of a journal are no more than the
/// looks in vain at the ends where actors drop.
pub fn look_law()
    ensures tracks { (r : Role) (n : ℕ) (history : History) (journal : List Entry)
        → noes_of r (track history n journal)
        ≡ noes_of r (history_at history n) + noes_at r n (events_of journal) }
    ensures more { (r : Role) (n : ℕ) (history : History) (journal : List Entry) (e : Entry)
        → noes_of r (track history n (journal ++ e ∷ []))
        ≡ noes_of r (track history n journal) + bit (is_vain_at r n e.event) }
    ensures keeps { (r : Role) (n : ℕ) (history : History) (journal : List Entry) (e : Entry)
        (calls : List Event) → noes_at r n calls ≡ noes_of r (track history n journal)
        → noes_at r n (calls ++ e.event ∷ []) ≡ noes_of r (track history n (journal ++ e ∷ [])) }
    ensures drops { (seats : List Seat) (history : History) (journal : List Entry)
        → dropped (drops_at seats) journal ≤ noes_together seats (moved history journal) }
{}
