//! Laws on the ends of an actor and their order, which no call has to show: they follow from the
//! definitions alone.

ghost use Rattle.std.specs.Prelude.{◌≡◌, ◌+◌, ◌<◌, ◌≤◌, ℕ, Bool, true, false, Some, List, [], ◌∷◌};
ghost use Rattle.std.specs.Prelude.{◌++◌, length, slice_get};
ghost use Rattle.turn_kit.specs.Table.{is_settled};
ghost use Rattle.turn_kit.specs.Calls.{calls_left, settling_left, is_moving};
ghost use Rattle.turn_kit.specs.Turns.{Post, Posted, is_drop, is_mark_at, Round, Turned, IsRound};
ghost use Rattle.turn_kit.specs.Turns.{IsNext, is_at_rest, Unmarked, Unsettled, calls_on};
ghost use Rattle.turn_kit.specs.Turns.{WokenInVain};
ghost use Rattle.turn_kit.specs.Marks.{StandsSince, SinceClaims};
ghost use Rattle.turn_kit.specs.Pace.{Pendings, pendings, IsCalled, Paced, AreOwnPosts};
ghost use Rattle.wire_core.specs.Ends.{Role};
ghost use Rattle.wire_core.specs.Journal.{History, Hostiles, LegalEntry};
ghost use Rattle.wire_core.specs.Marks.{Drops, HasCalmQueues, since, calls_after, calls_at};

use crate::EndState;
use wire_core::{Entry, Event, QueueRow};

/// One end: while it isn't settled, each of its calls that is no mark brings it nearer, so it makes
/// at most 7 before it is settled or a mark comes, and at most 6 until it is settled.
pub fn end_law()
    ensures seven { (k : EndState) (need : Bool) → calls_left k need ≤ 7 }
    ensures six { (k : EndState) (need : Bool) → settling_left k need ≤ 6 }
    ensures nearer { (p q : Post) (need : Bool) (e : Event) → Posted p need e q
        → is_mark_at p e ≡ false → is_settled p.state need ≡ false
        → calls_left q.state need + 1 ≤ calls_left p.state need }
    ensures settles { (p q : Post) (need : Bool) (e : Event) → Posted p need e q
        → is_mark_at p e ≡ false → is_settled p.state need ≡ false → is_moving q.state need ≡ false
        → settling_left q.state need + 1 ≤ settling_left p.state need }
    ensures moves { (p q : Post) (need : Bool) (e : Event) → Posted p need e q
        → is_mark_at p e ≡ false → is_moving p.state need ≡ true → is_moving q.state need ≡ true }
    ensures stays { (p q : Post) (need : Bool) (e : Event) → Posted p need e q
        → is_mark_at p e ≡ false → is_settled p.state need ≡ true → is_settled q.state need ≡ true }
{}

/// Which end an actor steps: while some end isn't settled, one that isn't, with the lowest queue
/// number of these; where all are settled, the next in rising queue number after the one that it
/// stepped last in this way.
pub fn turn_law()
    ensures unsettled { (r m : Round) (e : Event) → IsRound r → (t : Turned r e m)
        → is_at_rest r ≡ false → (is_settled t.posted.post.state t.need ≡ false)
        × ((k : ℕ) (p : Post) (n : Bool) → slice_get r.posts k ≡ Some p
        → slice_get r.needs k ≡ Some n → is_settled p.state n ≡ false
        → t.posted.post.queue ≤ p.queue) × (m.last ≡ r.last) }
    ensures settled { (r m : Round) (e : Event) → IsRound r → (t : Turned r e m)
        → is_at_rest r ≡ true → (m.last ≡ t.posted.post.queue)
        × IsNext r.last r.posts t.posted.post.queue }
{}

/// Each actor whose steps are turns keeps these. A mark is a take, a put, a wake that answers yes,
/// or a look that answers no at an end where the actor drops. Between two marks, while some end
/// isn't settled, it makes at most 7 calls on each end; where at last all are settled, it has made
/// at most 6 on each; then they stay settled until a mark; and within two rounds from there each
/// end makes a wake, which is a mark where a notification is pending.
pub fn mark_law()
    ensures seven { (r new : Round) (es : List Event) → IsRound r → Unsettled r es new
        → (k : ℕ) (p : Post) → slice_get r.posts k ≡ Some p → calls_on p.queue es ≤ 7 }
    ensures six { (r new : Round) (es : List Event) → IsRound r → Unsettled r es new
        → is_at_rest new ≡ true → (k : ℕ) (p : Post) → slice_get r.posts k ≡ Some p
        → calls_on p.queue es ≤ 6 }
    ensures rest { (r new : Round) (es : List Event) → Unmarked r es new → is_at_rest r ≡ true
        → is_at_rest new ≡ true }
    ensures wake { (r new : Round) (es : List Event) → IsRound r → is_at_rest r ≡ true
        → Unmarked r es new → length r.posts + length r.posts ≤ length es → (k : ℕ) (p : Post)
        → slice_get r.posts k ≡ Some p → WokenInVain p.queue p.side es }
    ensures next { (r m : Round) (e : Event) → IsRound r → Turned r e m → IsRound m }
    // What an actor did since its last mark is kept up by each turn, and the claims hold of it.
    ensures since { (r m : Round) (e : Event) (calls : List Event) → (t : Turned r e m)
        → StandsSince r calls → StandsSince m (calls_after (is_mark_at t.posted.post e) calls e) }
    ensures claims { (now : Round) (calls : List Event) → (s : StandsSince now calls)
        → SinceClaims s.start calls now }
{}

/// Where each entry of a legal journal is a turn of an actor that wasn't at rest, or was called,
/// the pace of all actors is kept: an actor begins, and goes on after each mark, with no calls
/// since; where it isn't hostile and no queue of its own has a hostile end, its own turns and the
/// entries of the others, on whatever queue, keep what is known of it; and from this it follows
/// that it made at most 8 calls on each end since its last mark.
pub fn pace_law()
    ensures begins { (pending : Pendings) (now : Round) → IsRound now → Paced pending [] now }
    ensures own { (hostile : Hostiles) (drops : Drops) (history : History) (rows : List QueueRow)
        (before : List Entry) (e : Entry) → (legal : LegalEntry hostile history rows before e)
        → HasCalmQueues hostile rows e.actor.0 → (old new : Round) → Paced
        (pendings history before) (since drops e.actor.0 before) old
        → (t : Turned old e.event new) → drops e ≡ is_drop t.posted.post e.event
        → (is_at_rest old ≡ true → IsCalled (pendings history before) old.posts)
        → Paced (pendings history (before ++ e ∷ []))
        (since drops e.actor.0 (before ++ e ∷ [])) new }
    ensures beside { (hostile : Hostiles) (drops : Drops) (history : History)
        (rows : List QueueRow) (before : List Entry) (e : Entry) →
        (legal : LegalEntry hostile history rows before e) →
        (a : ℕ) → HasCalmQueues hostile rows a → (now : Round) → (e.actor.0 ≡ a → ⊥)
        → AreOwnPosts rows a now.posts → Paced (pendings history before) (since drops a before) now
        → Paced (pendings history (before ++ e ∷ [])) (since drops a (before ++ e ∷ [])) now }
    ensures few { (pending : Pendings) (calls : List Event) (now : Round)
        → Paced pending calls now → (r : Role) (n : ℕ) → calls_at r n calls ≤ 8 }
{}
