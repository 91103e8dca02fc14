//! What is told of the pages that entries carry, and grows: the names of a moment tell of all that
//! passed by then, also where they are kept as one list; and picks are the same by two accounts of
//! who is runnable that agree.

ghost use Rattle.std.specs.Prelude.{◌≡◌, ◌≤◌, ◌++◌, ℕ, false, List, [], length, map};
ghost use Rattle.cargo_core.specs.Lists.{IsPrefix};
ghost use Rattle.wire_core.specs.declared.names.Entry.{Entry};
ghost use Rattle.wire_core.specs.Deeds.{Cargo, Deed};
ghost use Rattle.wire_core.specs.Lists.{Passed, nothing_passed, with_deed};
ghost use Rattle.wire_core.specs.Picks.{PickedFrom};
ghost use Rattle.wire_core.specs.Queues.{items_of};
ghost use Rattle.play_core.specs.Names.{AreNoted, GrowsTo, Names, Noted, Wild, named, names_at};
ghost use Rattle.play_core.specs.Names.{names_of, notes_of, told, told_by};

/// Entries are told by their items and their names, also where more names are told; the names of a
/// moment tell of all that was taken from a queue that hands over in order; and they grow with each
/// call.
pub fn name_law()
    ensures told { (entries : List Cargo) (names : Names) (n : ℕ)
        → IsPrefix (names_of entries) (names n)
        → named (items_of entries) (names n) ≡ map told entries }
    ensures taken { (passed : Passed) (n : ℕ) → IsPrefix (passed.taken n) (passed.sent n)
        → IsPrefix (names_of (passed.taken n)) (names_at passed n) }
    ensures grows { (passed : Passed) (d : Deed)
        → GrowsTo (names_at passed) (names_at (with_deed passed d)) }
{}

/// Names that are kept in the order of the puts: the list of them grows with each call by at most
/// one, so that each queue's names grow, and goes on to have those of all that was put; and where
/// no queue has a hostile end, it stays empty.
pub fn note_law()
    ensures starts { (wild : Wild) → AreNoted wild [] nothing_passed }
    ensures keeps { (wild : Wild) (notes : List Noted) (passed : Passed) (d : Deed)
        → AreNoted wild notes passed
        → AreNoted wild (notes ++ notes_of wild d) (with_deed passed d) }
    ensures grows { (old new : List Noted) → IsPrefix old new
        → GrowsTo (told_by old) (told_by new) }
    ensures few { (wild : Wild) (d : Deed) → length (notes_of wild d) ≤ 1 }
    ensures none { (wild : Wild) (d : Deed) → ((n : ℕ) → wild n ≡ false)
        → notes_of wild d ≡ [] }
{}

/// Picks by one account of who is runnable are picks by another that agrees with it at each
/// beginning of the journal.
pub fn same_picks_law()
    ensures { (runs others : List Entry → List ℕ) (seed : ℕ) (before es : List Entry)
        → ((some rest : List Entry) → some ++ rest ≡ before ++ es → runs some ≡ others some)
        → PickedFrom runs seed before es → PickedFrom others seed before es }
{}
