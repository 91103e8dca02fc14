//! What the calls of an actor make of its ends, over any number of steps.
ghost use Rattle.std.specs.Prelude.{◌≡◌, ◌+◌, ℕ};
ghost use Rattle.wire_core.specs.Deeds.{Deed};
ghost use Rattle.wire_core.specs.Lists.{with, taken_by, put_by};
ghost use Rattle.seat_wires.specs.Places.{SeatDid, seats_taken, seats_sent};
ghost use Rattle.seat_wires.specs.Places.Are.{SeatsAre};
ghost use Rattle.seat_wires.specs.Times.{TimesGo};
ghost use Rattle.seat_wires.specs.Went.{Went};

/// One call of an actor on its ends is one step on a word, but on a wild ring maybe two, and adds
/// to the lists of its ends what the call took or put and nothing else, so an actor stands for the
/// lists of its own ends after each step where it did before. What it puts it puts after all that
/// passed at its ends before. Steps add up.
pub fn seats_law()
    ensures taken { (s t : SeatsAre) (d : Deed) → SeatDid s d t
        → seats_taken t ≡ with (seats_taken s) (taken_by d) }
    ensures sent { (s t : SeatsAre) (d : Deed) → SeatDid s d t
        → seats_sent t ≡ with (seats_sent s) (put_by d) }
    ensures times { (s t : SeatsAre) (d : Deed) → SeatDid s d t → TimesGo s d t }
    ensures one { (s t : SeatsAre) (d : Deed) → SeatDid s d t → Went s 1 t }
    ensures none { (s : SeatsAre) → Went s 0 s }
    ensures then { (s : SeatsAre) (n : ℕ) (t : SeatsAre) (m : ℕ) (u : SeatsAre) → Went s n t
        → Went t m u → Went s (n + m) u }
{}
