//! Ends where an actor may drop: a look that answers no is a drop there, and is forgotten.

ghost use Rattle.std.specs.Prelude.{◌≡◌, ◌==◌, ◌↔◌, ◌&&◌, ◌<◌, ℕ, Bool, List, true, false, length};
ghost use Rattle.std.specs.Prelude.{slice_get, Some, None, IsSome, IfSome, is_some, [], ◌++◌};
ghost use Rattle.std.specs.Option.{ForSome, option_map, option_to_list};
ghost use Rattle.cargo_core.specs.Items.{kind_of};
ghost use Rattle.wire_core.specs.Deeds.{deed_of, put_of};
ghost use Rattle.wire_core.specs.Lists.{taken_by, put_by, if_there};
ghost use Rattle.wire_core.specs.Ends.{Consumer, Producer, Moves, role_of};
ghost use Rattle.wire_core.specs.Marks.{is_vain_look};
ghost use Rattle.turn_kit.specs.Turns.{Post, Posted, PostedAt, is_drop, is_mark_at};
ghost use Rattle.turn_kit.specs.Posts.{intake_post, outlet_post};
ghost use Rattle.turn_kit.specs.Table.{Agrees, start_state, is_settled};
ghost use Rattle.turn_kit.specs.ManyEnds.{FitsOutlets, outlet_queues, outlet_posts};
ghost use Rattle.turn_kit.specs.Dropping.{dropping, with_drops, IsEager};

use crate::{EndState, Intake, Outlet, Outlets, push};
use cargo_core::{Body, Item};
use wire_core::{Answer, Event, Op, QueueId, Side, Wires};

// Whether it is a look that answered no.
fn is_vain(event: &Event) -> bool
    ensures { result ≡ is_vain_look event.now.op event.now.answer }
{
    matches!((event.op, event.answer), (Op::See | Op::Room, Answer::No))
}

/// Makes the next call of the table at an end that takes. Where `drops` says so, a look that
/// answers no is a drop, and is forgotten, so that the end looks again; the last answer tells
/// whether it was.
#[inline(always)]
pub fn take_or_drop<W: Wires>(
    end: &mut Intake,
    wires: &mut W,
    need: bool,
    drops: bool,
) -> (Event, Option<(Item, Body)>, bool)
    requires { Agrees (W.ends wires.old Consumer end.old.queue.0) end.old.state }
    ensures queue { end.new.queue ≡ end.old.queue }
    ensures on { result.0.queue ≡ end.old.queue }
    ensures role { role_of result.0.op ≡ Consumer }
    ensures did { W.did wires.old (deed_of result.0 result.1) wires.new }
    ensures moves { Moves (W.ends wires.old) result.0 (W.ends wires.new) }
    ensures agrees { Agrees (W.ends wires.new Consumer end.old.queue.0) end.new.state }
    ensures taken { IsSome result.1 ↔ (result.0.op ≡ Op.Take) }
    ensures needed { IsSome result.1 → need ≡ true }
    ensures dropped { result.2 ≡ is_drop (dropping drops (intake_post end.old)) result.0 }
    ensures drop_needed { result.2 ≡ true → need ≡ true }
    ensures takes { (n : ℕ) → taken_by (deed_of result.0 result.1) n
        ≡ if_there (end.old.queue.0 == n) (option_to_list result.1) }
    ensures puts { (n : ℕ) → put_by (deed_of result.0 result.1) n ≡ [] }
    ensures kind { IfSome result.1 (λ c. kind_of c.0
        ≡ (W.ends wires.old Consumer end.old.queue.0).kind) }
    ensures posted { Posted (dropping drops (intake_post end.old)) need result.0
        (dropping drops (intake_post end.new)) }
    ensures still { is_mark_at (dropping drops (intake_post end.old)) result.0 ≡ false
        → result.1 ≡ None }
{
    let (event, taken) = end.step(wires, need);
    let dropped = drops && is_vain(&event);
    if dropped {
        end.forget();
    }
    (event, taken, dropped)
}

/// Makes the next call of the table at an end that puts its load. Where `drops` says so, a look
/// that answers no is a drop, and is forgotten; the answer tells whether it was. The load is left.
#[inline(always)]
pub fn put_or_drop<W: Wires>(
    end: &mut Outlet,
    wires: &mut W,
    load: &mut Option<(Item, Body)>,
    drops: bool,
    event: &mut Event,
) -> bool
    requires agrees { Agrees (W.ends wires.old Producer end.old.queue.0) end.old.state }
    requires kind { ForSome load.old (λ c. kind_of c.0
        ≡ (W.ends wires.old Producer end.old.queue.0).kind) }
    ensures queue { end.new.queue ≡ end.old.queue }
    ensures on { event.new.queue ≡ end.old.queue }
    ensures role { role_of event.new.op ≡ Producer }
    ensures did { W.did wires.old (deed_of event.new (put_of event.new load.old)) wires.new }
    ensures moves { Moves (W.ends wires.old) event.new (W.ends wires.new) }
    ensures agrees { Agrees (W.ends wires.new Producer end.old.queue.0) end.new.state }
    ensures load { option_to_list load.old ≡ option_to_list (put_of event.new load.old)
        ++ option_to_list load.new }
    ensures takes { (n : ℕ) → taken_by (deed_of event.new (put_of event.new load.old)) n ≡ [] }
    ensures puts { (n : ℕ) → put_by (deed_of event.new (put_of event.new load.old)) n
        ≡ if_there (end.old.queue.0 == n) (option_to_list (put_of event.new load.old)) }
    ensures item { event.new.item ≡ option_map (λ c. c.0) (put_of event.new load.old) }
    ensures put { IsSome event.new.item ↔ (event.new.op ≡ Op.Put) }
    ensures dropped { result ≡ is_drop (dropping drops (outlet_post end.old)) event.new }
    ensures drop_loaded { result ≡ true → is_some load.old ≡ true }
    ensures posted { Posted (dropping drops (outlet_post end.old)) (is_some load.old) event.new
        (dropping drops (outlet_post end.new)) }
    ensures still { is_mark_at (dropping drops (outlet_post end.old)) event.new ≡ false
        → load.new ≡ load.old }
{
    push(end, wires, load, event);
    let lost = drops && is_vain(event);
    if lost {
        end.forget();
    }
    lost
}

/// The same at the end of a place among several.
#[inline(always)]
pub fn put_or_drop_at<W: Wires>(
    ends: &mut Outlets,
    wires: &mut W,
    k: usize,
    load: &mut Option<(Item, Body)>,
    drops: bool,
    event: &mut Event,
) -> bool
    requires fits { FitsOutlets (W.ends wires.old) ends.old }
    requires there { k < length (outlet_queues ends.old) }
    requires kind { ForSome load.old (λ c. (q : QueueId)
        → slice_get (outlet_queues ends.old) k ≡ Some q
        → kind_of c.0 ≡ (W.ends wires.old Producer q.0).kind) }
    ensures queues { outlet_queues ends.new ≡ outlet_queues ends.old }
    ensures on { slice_get (outlet_queues ends.old) k ≡ Some event.new.queue }
    ensures role { role_of event.new.op ≡ Producer }
    ensures did { W.did wires.old (deed_of event.new (put_of event.new load.old)) wires.new }
    ensures moves { Moves (W.ends wires.old) event.new (W.ends wires.new) }
    ensures fits { FitsOutlets (W.ends wires.new) ends.new }
    ensures load { option_to_list load.old ≡ option_to_list (put_of event.new load.old)
        ++ option_to_list load.new }
    ensures takes { (n : ℕ) → taken_by (deed_of event.new (put_of event.new load.old)) n ≡ [] }
    ensures puts { (n : ℕ) → put_by (deed_of event.new (put_of event.new load.old)) n
        ≡ if_there (event.new.queue.0 == n) (option_to_list (put_of event.new load.old)) }
    ensures item { event.new.item ≡ option_map (λ c. c.0) (put_of event.new load.old) }
    ensures put { IsSome event.new.item ↔ (event.new.op ≡ Op.Put) }
    ensures dropped { result ≡ (drops && is_vain_look event.new.op event.new.answer) }
    ensures drop_loaded { result ≡ true → is_some load.old ≡ true }
    ensures posted { (ds : List Bool) → slice_get ds k ≡ Some drops → PostedAt
        (with_drops ds (outlet_posts ends.old)) k (is_some load.old) event.new
        (with_drops ds (outlet_posts ends.new)) }
    ensures still { (ds : List Bool) → slice_get ds k ≡ Some drops → (p : Post)
        → slice_get (with_drops ds (outlet_posts ends.old)) k ≡ Some p
        → is_mark_at p event.new ≡ false → load.new ≡ load.old }
{
    let end = &mut ends.ends[k];
    put_or_drop(end, wires, load, drops, event)
}

/// An end where its actor drops never asks for a notification: from its start state on each call of
/// the table keeps it eager, and so it is never settled while it is needed.
pub fn eager_law()
    ensures begins { (side : Side) → IsEager (start_state side) }
    ensures keeps { (p q : Post) (need : Bool) (e : Event) → Posted (dropping true p) need e
        (dropping true q) → IsEager p.state → IsEager q.state }
    ensures restless { (k : EndState) → IsEager k → is_settled k true ≡ false }
    ensures forgets { (k : EndState) → IsEager k → IsEager (record k { look = None }) }
{}
