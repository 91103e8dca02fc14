//! What a step on a ring means for the queue that the ring shows.
ghost use Rattle.std.specs.Prelude.{◌≡◌, ◌≤◌, ◌+◌, ℕ, [], ◌++◌, Bool, true, false, not, List};
ghost use Rattle.std.specs.Prelude.{length, slice_index};
ghost use mathlib.Core.Option as maybe;
ghost use Rattle.wire_core.specs.Bells.{bit};
ghost use Rattle.wire_core.specs.Deeds.{Cargo};
ghost use Rattle.wire_core.specs.Ends.{Condition, role_of, end_after};
ghost use Rattle.wire_core.specs.Queues.{start_bells, start_indices, is_filled, has_room};
ghost use Rattle.spsc_queue.specs.Rule.{Slot, EndsHold, laid, words_of, guard_word};
ghost use Rattle.spsc_queue.specs.Rule.{first_producer, first_consumer};
ghost use Rattle.spsc_queue.specs.Steps.{CallDid, EndDid, known_end, steps_made};
ghost use Rattle.spsc_queue.specs.Shown.{ring_queue, half_of, read_by, IsEvent, IsWildEvent};
ghost use Rattle.spsc_queue.specs.Shown.{WasRead, more_noes, fewest_steps, most_steps};

use crate::view::Half;
use cargo_core::QueueKind;
use wire_core::{Answer, Op};

/// A new ring shows the queue law's start state. On a ring that isn't wild, at any moment at which
/// the ring rule holds, a call that meets its condition and does what its contract says, where it
/// read the word that it looks at, is the queue law's next event on the queue that the ring shows:
/// its answer and its entry are the law's, and the queue that is shown after it is too. What the
/// words are is told by what the two ends know, so no other words fit a new ring.
pub fn ring_law()
    ensures start { (kind : QueueKind) (n : ℕ)
        → ring_queue kind n (laid 0 0 0 0 1 0) (first_producer kind)
        (first_consumer kind) ≡ record {
          kind = kind;
          capacity = n;
          producer = 0;
          consumer = 0;
          entries = [];
          bells = start_bells;
          indices = start_indices;
        } }
    ensures event { (kind : QueueKind) (n : ℕ) (words : List ℕ) (homes : List (maybe.Option Slot))
        (p c : Half) (o : Op) (a : Answer) (cargo : List Cargo) (h : Half)
        → EndsHold false kind n words homes p c
        → Condition (known_end (half_of (role_of o) p c)) o
        → CallDid n (half_of (role_of o) p c) o (read_by words (half_of (role_of o) p c) o)
        a cargo h
        → IsEvent kind n words p c o a cargo h }
    ensures words { (kind : QueueKind) (n : ℕ) (words : List ℕ) (homes : List (maybe.Option Slot))
        (p c : Half) → EndsHold false kind n words homes p c → words ≡ words_of p c }
    ensures opened { (kind : QueueKind) → words_of (first_producer kind) (first_consumer kind)
        ≡ laid 0 0 0 0 1 0 }
{}

/// On a ring of either sort sent is taken with a list behind it, at most as long as the capacity.
/// On a wild ring, whatever stands in its six words, at any moment at which the ring rule holds:
/// the guard at the consumer's place tells whether an entry stands, the one at the producer's
/// whether there is no room. A call that meets its condition and does what its contract says, where
/// the last step of a look read what stands there, moves what the queue law moves, and looks, takes
/// and puts find there what the law asks: an entry where `see` answers yes or `take` comes, and
/// room where `room` answers yes or `put` comes.
pub fn wild_law()
    ensures beginning { (wild : Bool) (kind : QueueKind) (n : ℕ) (words : List ℕ)
        (homes : List (maybe.Option Slot)) (p c : Half) → EndsHold wild kind n words homes p c
        → (left : List Cargo) × (p.entries ≡ c.entries ++ left) × (length left ≤ n) }
    ensures guards { (kind : QueueKind) (n : ℕ) (words : List ℕ) (homes : List (maybe.Option Slot))
        (p c : Half) → EndsHold true kind n words homes p c
        → (slice_index words (guard_word n (length c.entries))
        ≡ bit (is_filled (ring_queue kind n words p c)))
        × (slice_index words (guard_word n (length p.entries))
        ≡ bit (not (has_room (ring_queue kind n words p c)))) }
    ensures event { (kind : QueueKind) (n : ℕ) (words : List ℕ) (homes : List (maybe.Option Slot))
        (p c : Half) (o : Op) (a : Answer) (cargo : List Cargo) (h : Half)
        → EndsHold true kind n words homes p c
        → Condition (known_end (half_of (role_of o) p c)) o
        → EndDid n (half_of (role_of o) p c) o a cargo h → WasRead words o h
        → IsWildEvent kind n words p c o a cargo h }
{}

/// What each call that does what its contract says makes of its end, on either sort of ring: the
/// waiter, the ringer and the look are those of the table of calls, a no of a look is counted and
/// nothing else is, and each call is one step on a word, but on a wild ring two at a `take` and a
/// `put`, and one or two at a look.
pub fn call_law()
    ensures end { (n : ℕ) (h : Half) (o : Op) (a : Answer) (cargo : List Cargo) (h' : Half)
        → EndDid n h o a cargo h' → known_end h' ≡ end_after (known_end h) o a }
    ensures sort { (n : ℕ) (h : Half) (o : Op) (a : Answer) (cargo : List Cargo) (h' : Half)
        → EndDid n h o a cargo h' → h'.wild ≡ h.wild }
    ensures noes { (n : ℕ) (h : Half) (o : Op) (a : Answer) (cargo : List Cargo) (h' : Half)
        → EndDid n h o a cargo h' → h'.noes ≡ h.noes + more_noes o a }
    ensures steps { (n : ℕ) (h : Half) (o : Op) (a : Answer) (cargo : List Cargo) (h' : Half)
        → EndDid n h o a cargo h' → (steps_made h + fewest_steps h.wild o ≤ steps_made h')
        × (steps_made h' ≤ steps_made h + most_steps h.wild o) }
{}
