//! What becomes of things that come to an actor one after another, as laws of definitions alone.
ghost use Rattle.std.specs.Prelude.{◌≡◌, ◌≤◌, ℕ, Bool, true, false, Some, filter, slice_get, List};
ghost use Rattle.std.specs.Prelude.{[], ◌∷◌, ◌++◌};
ghost use Rattle.wire_core.specs.Ends.{Role};
ghost use Rattle.wire_core.specs.Fates.{Reading, Other, fate_after, fate_of, marked, noes_at};
ghost use Rattle.wire_core.specs.Fates.{is_vain_at, IsRefused, IsDroppedAt, AreOther};

use crate::Event;

/// What was dropped is a function of the order of an actor's calls.
pub fn fate_law()
    // One call more.
    ensures more { (word : Reading) (calls : List Event) (e : Event)
        → fate_of word (calls ++ e ∷ []) ≡ fate_after (fate_of word calls) (word calls e) }
    // What was dropped is told apart by its place, also among equal things: it waited when a look
    // in vain refused it.
    ensures why { (word : Reading) (calls : List Event) (place : ℕ)
        → slice_get (fate_of word calls).dropped place ≡ Some true
        → IsDroppedAt word calls place }
    // Calls that are nothing to the things that come change nothing, as those of other actors.
    ensures others { (word : Reading) (calls more : List Event) → AreOther word calls more
        → fate_of word (calls ++ more) ≡ fate_of word calls }
    // Only an actor's own calls matter: those that a reading passes over may be left out.
    ensures own { (word : Reading) (own : Event → Bool)
        → ((before : List Event) (e : Event) → own e ≡ false → word before e ≡ Other)
        → ((before : List Event) (e : Event) → word before e ≡ word (filter own before) e)
        → (calls : List Event) → fate_of word calls ≡ fate_of word (filter own calls) }
    // No more is dropped than looks were in vain where things are refused.
    ensures few { (word : Reading) (r : Role) (n : ℕ)
        → ((before : List Event) (e : Event) → IsRefused (word before e) → is_vain_at r n e ≡ true)
        → (calls : List Event) → marked (fate_of word calls).dropped ≤ noes_at r n calls }
    // Where nothing is refused nothing is dropped.
    ensures none { (word : Reading)
        → ((before : List Event) (e : Event) → IsRefused (word before e) → ⊥)
        → (calls : List Event) → marked (fate_of word calls).dropped ≡ 0 }
{}
