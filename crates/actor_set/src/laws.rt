//! The actors of all kinds and what is said of their parts, tied to one another apart from any
//! system: what an actor keeps and does is what its sheet says of it.

ghost use Rattle.std.specs.Prelude.{◌≡◌, ◌⊎◌, ℕ, true, Some, List, length, slice_get};
ghost use Rattle.cargo_core.specs.declared.item.PoolId.{PoolId};
ghost use Rattle.cargo_core.specs.Bodies.{buffers_of};
ghost use Rattle.wire_core.specs.declared.names.QueueRow.{QueueRow};
ghost use Rattle.wire_core.specs.declared.names.Event.{Event};
ghost use Rattle.wire_core.specs.declared.names.Entry.{Entry};
ghost use Rattle.wire_core.specs.Ends.{Role, Consumer, Producer, End, role_of, waiting_role};
ghost use Rattle.wire_core.specs.Lists.{Passed, nothing_passed};
ghost use Rattle.wire_core.specs.Queues.{Queue, starts, end_at};
ghost use Rattle.wire_core.specs.Journal.{History, owner_of};
ghost use Rattle.turn_kit.specs.Turns.{Post, IsRound, Turned, is_at_rest};
ghost use Rattle.turn_kit.specs.Pace.{pendings, IsCalled};
ghost use Rattle.play_core.specs.Manners.{Calm};
ghost use Rattle.play_core.specs.Moved.{Moved, Seat, moved};
ghost use Rattle.play_core.specs.Wants.{all_settled};
ghost use Rattle.play_core.specs.Runs.{called_from};
ghost use Rattle.play_core.specs.Sheets.{Scene, IsOwn, AreApart};
ghost use Rattle.actor_set.specs.Parts.{Part};
ghost use Rattle.actor_set.specs.Actors.{FitsActor, ActorStandsFor, ActorEnd, ActorTurned, IsWhole};
ghost use Rattle.actor_set.specs.Actors.{actor_round, actor_rests, actor_hand, part_of};
ghost use Rattle.actor_set.specs.Actors.{part_anew, ActsAlike, IsActorCall};
ghost use Rattle.actor_set.specs.declared.actor.Actor.{Actor};
ghost use Rattle.actor_set.specs.declared.actor.Actor.TheVariants as Kinds;
ghost use Rattle.client_programs.specs.declared.rogue.Rogue.{Rogue};
ghost use Rattle.client_programs.specs.Rogue.Clients.{Acted, SameRogue};
ghost use Rattle.actor_set.specs.Laws.Kinds.{part_kind, sheet, manner_of, drop_seats, has_seat};
ghost use Rattle.actor_set.specs.Laws.Records.{record_of, record_by, frames_got, frames_by};
ghost use Rattle.actor_set.specs.Laws.Records.{replies_got, replies_by};
ghost use Rattle.actor_set.specs.Laws.Turning.{InTurn};
ghost use Rattle.actor_set.specs.StartStates.{IsNew, HasApartEnds, HasNoLoop, HasSeat, kind_at};
ghost use Rattle.play_core.specs.Rests.Showing.{HaveItems, HaveBells};

/// An actor of any kind, beside its sheet. Where it stands for its lists and nothing came out of
/// turn, its sheet's row holds of their items, and, where it isn't hostile, it is at rest exactly
/// where all that its sheet wants is settled; whatever came, it recorded what its lists say. Its
/// ends are its sheet's, which speaks of no others; where nothing changes at them, it fits them as
/// before, and where it did the same by its calls, it stands for the same lists.
pub fn actor_law()
    ensures row { (scene : Scene) (a : Actor) (passed : Passed) (m : Moved)
        → InTurn scene a passed → ActorStandsFor a passed → HaveItems passed m
        → (sheet scene (part_of a)).row m }
    ensures record { (a : Actor) (passed : Passed) (m : Moved)
        → ActorStandsFor a passed → HaveItems passed m → record_of a ≡ record_by m (part_of a) }
    ensures frames { (a : Actor) (passed : Passed) → ActorStandsFor a passed
        → frames_got a ≡ frames_by passed (part_of a) }
    ensures replies { (scene : Scene) (a : Actor) (passed : Passed) → InTurn scene a passed
        → ActorStandsFor a passed → replies_got a ≡ replies_by passed (part_of a) }
    ensures rests { (scene : Scene) (history : History) (journal : List Entry) (world : List Queue)
        (a : Actor) (passed : Passed) → manner_of (part_of a) ≡ Calm → InTurn scene a passed
        → FitsActor (end_at world) a → ActorStandsFor a passed
        → HaveItems passed (moved history journal) → HaveBells world history journal
        → actor_rests a
        ≡ all_settled history journal ((sheet scene (part_of a)).wants (moved history journal)) }
    ensures whole { (ends : Role → ℕ → End) (a : Actor) → FitsActor ends a → IsWhole a }
    ensures ends { (scene : Scene) (a : Actor) (r : Role) (n : ℕ) → IsWhole a → ActorEnd a r n
        → (i : ℕ) × (slice_get (sheet scene (part_of a)).ends i
        ≡ Some (record { queue = n; role = r })) }
    ensures no_others { (scene : Scene) (a : Actor) (i : ℕ) (s : Seat)
        → slice_get (sheet scene (part_of a)).ends i ≡ Some s → ActorEnd a s.role s.queue }
    ensures own { (scene : Scene) (p : Part) → IsOwn (sheet scene p) }
    ensures fits_on { (old new : Role → ℕ → End) (a : Actor)
        → ((r : Role) (n : ℕ) → ActorEnd a r n → new r n ≡ old r n)
        → FitsActor old a → FitsActor new a }
    ensures stands_on { (old new : Passed) (a : Actor) → IsWhole a
        → ActsAlike a old.calls new.calls
        → ((n : ℕ) → ActorEnd a Consumer n → new.taken n ≡ old.taken n)
        → ((n : ℕ) → ActorEnd a Producer n → new.sent n ≡ old.sent n)
        → ActorStandsFor a old → ActorStandsFor a new }
{}

/// An actor of any kind that isn't hostile takes its ends in turn, and drops at those alone at which
/// its part does; each of its calls is at one of them; and where one of the notifications that the
/// rows give it is pending, it is so at one of these ends. All others are hostile clients, which
/// take their acts in turn.
pub fn turn_law()
    ensures turned { (old : Actor) (e : Event) (new : Actor) → manner_of (part_of old) ≡ Calm
        → ActorTurned old e new → Turned (actor_round old) e (actor_round new) }
    ensures acted { (old : Rogue) (e : Event) (new : Actor) → ActorTurned (Kinds.Rogue old) e new
        → (after : Rogue) × (new ≡ Kinds.Rogue after) × Acted old e after × SameRogue old after }
    ensures rests { (a : Actor) → manner_of (part_of a) ≡ Calm
        → actor_rests a ≡ is_at_rest (actor_round a) }
    ensures own { (a : Actor) (e : Event) → manner_of (part_of a) ≡ Calm → IsActorCall a e
        → ActorEnd a (role_of e.op) e.queue.0 }
    ensures sorts { (a : Actor) → (manner_of (part_of a) ≡ Calm)
        ⊎ ((r : Rogue) × (a ≡ Kinds.Rogue r)) }
    ensures anew { (a : Actor) → manner_of (part_of a) ≡ Calm → part_anew a ≡ part_of a }
    ensures ends { (a : Actor) (k : ℕ) (p : Post) → slice_get (actor_round a).posts k ≡ Some p
        → ActorEnd a (waiting_role p.side) p.queue }
    ensures drops { (a : Actor) (k : ℕ) (p : Post) → HasApartEnds a
        → slice_get (actor_round a).posts k ≡ Some p
        → p.drops ≡ has_seat (drop_seats (part_of a)) (waiting_role p.side) p.queue }
    ensures drop_ends { (p : Part) (r : Role) (n : ℕ) → has_seat (drop_seats p) r n ≡ true
        → (scene : Scene) → (i : ℕ) × (slice_get (sheet scene p).ends i
        ≡ Some (record { queue = n; role = r })) }
    ensures called { (k : ℕ) (a : Actor) (history : History) (rows : List QueueRow)
        (journal : List Entry) → manner_of (part_of a) ≡ Calm
        → ((n : ℕ) (row : QueueRow) → slice_get rows n ≡ Some row
        → (r : Role) → owner_of row r ≡ k → ActorEnd a r n)
        → called_from k 0 history rows journal ≡ true
        → IsCalled (pendings history journal) (actor_round a).posts }
{}

/// An actor of any kind in its start state stands for nothing, has its sheet's start hand, and has
/// nothing to forget.
/// Where rows give it ends of its own, it fits them in their start state; and its ends are a round
/// where no queue is twice among them. Where no end of its sheet stands twice, its ends on each
/// side are of queues of their own; and its part tells what these carry.
pub fn start_law()
    ensures stands { (a : Actor) → IsNew a → ActorStandsFor a nothing_passed }
    ensures whole { (a : Actor) → IsNew a → IsWhole a }
    ensures anew { (a : Actor) → IsNew a → part_anew a ≡ part_of a }
    ensures hand { (scene : Scene) (a : Actor) → IsNew a → (pool : PoolId)
        → buffers_of pool (actor_hand a) ≡ length ((sheet scene (part_of a)).hand pool.0) }
    ensures fits { (rows : List QueueRow) (k : ℕ) (a : Actor) → IsNew a → HasApartEnds a
        → ((r : Role) (n : ℕ) → ActorEnd a r n → HasSeat rows (kind_at a r n) k r n)
        → FitsActor (end_at (starts rows)) a }
    ensures round { (a : Actor) → manner_of (part_of a) ≡ Calm → HasApartEnds a → HasNoLoop a
        → IsRound (actor_round a) }
    ensures apart { (scene : Scene) (a : Actor) → IsWhole a
        → AreApart (sheet scene (part_of a)).ends → HasApartEnds a }
    ensures kind { (a : Actor) (r : Role) (n : ℕ) → kind_at a r n ≡ part_kind (part_of a) r n }
{}
