//! The next call of an end by the table, as the ends' own steps make it. Each way of it is a
//! function of its own that writes an entry just where it stays, so that a call that moves none
//! handles none.
ghost use Rattle.std.specs.Prelude.{◌≡◌, ◌==◌, ◌↔◌, ◌<◌, ◌++◌, ℕ, true, false, Some, None, []};
ghost use Rattle.std.specs.Prelude.{IsSome, IfSome, is_some, length, slice_get};
ghost use Rattle.std.specs.Option.{ForSome, option_map, option_to_list};
ghost use Rattle.cargo_core.specs.Items.{kind_of};
ghost use Rattle.wire_core.specs.Deeds.{deed_of, put_of};
ghost use Rattle.wire_core.specs.Lists.{taken_by, put_by, if_there};
ghost use Rattle.wire_core.specs.Ends.{Consumer, Producer, Allows, Moves, role_of};
ghost use Rattle.wire_core.specs.Marks.{is_mark};
ghost use Rattle.turn_kit.specs.ManyEnds.{FitsIntakes, FitsOutlets, intake_queues, outlet_queues};
ghost use Rattle.turn_kit.specs.ManyEnds.{intake_posts, outlet_posts};
ghost use Rattle.turn_kit.specs.Turns.{Posted, PostedAt};
ghost use Rattle.turn_kit.specs.Posts.{intake_post, outlet_post};
ghost use Rattle.turn_kit.specs.Table.{next_op, state_after, Agrees};

use crate::ends::call;
use crate::{EndState, Intake, Intakes, Outlet, Outlets};
use cargo_core::{Body, Item};
use wire_core::{Answer, Event, Op, QueueId, Side, Wires};

/// A place for an event: what it tells is written over by the call that it is given to.
#[inline(always)]
pub fn event_place() -> Event
    ensures op { result.op ≡ Op.See }
    ensures item { result.item ≡ None }
{
    Event {
        op: Op::See,
        queue: QueueId(0),
        answer: Answer::No,
        item: None,
    }
}

// Takes an entry, and keeps it in `got`.
#[inline(never)]
fn take_in<W: Wires>(
    queue: QueueId,
    state: &mut EndState,
    wires: &mut W,
    got: &mut Option<(Item, Body)>,
    event: &mut Event,
)
    requires { Allows (W.ends wires.old Consumer queue.0) Op.Take }
    ensures on { event.new.queue ≡ queue }
    ensures op { event.new.op ≡ Op.Take }
    ensures answer { event.new.answer ≡ Answer.Done }
    ensures did { W.did wires.old (deed_of event.new got.new) wires.new }
    ensures moves { Moves (W.ends wires.old) event.new (W.ends wires.new) }
    ensures state { state.new ≡ state_after state.old Op.Take Answer.Done }
    ensures taken { IsSome got.new }
    ensures item { event.new.item ≡ option_map (λ c. c.0) got.new }
    ensures kind { IfSome got.new (λ c. kind_of c.0 ≡ (W.ends wires.old Consumer queue.0).kind) }
{
    let entry = wires.take(queue);
    state.note(Op::Take, Answer::Done);
    let item = entry.0;
    *got = Some(entry);
    *event = Event {
        queue,
        op: Op::Take,
        answer: Answer::Done,
        item: Some(item),
    };
}

/// Makes the next call of a consuming end, where `need` says whether an entry is needed. An entry
/// is kept in `got` exactly for a take, and a take comes only where one is needed.
#[inline(always)]
pub fn pull<W: Wires>(
    input: &mut Intake,
    wires: &mut W,
    need: bool,
    got: &mut Option<(Item, Body)>,
    event: &mut Event,
)
    requires agrees { Agrees (W.ends wires.old Consumer input.old.queue.0) input.old.state }
    requires none { got.old ≡ None }
    ensures queue { input.new.queue ≡ input.old.queue }
    ensures on { event.new.queue ≡ input.old.queue }
    ensures op { event.new.op ≡ next_op input.old.state Side.Forward need }
    ensures role { role_of event.new.op ≡ Consumer }
    ensures did { W.did wires.old (deed_of event.new got.new) wires.new }
    ensures moves { Moves (W.ends wires.old) event.new (W.ends wires.new) }
    ensures state { input.new.state ≡ state_after input.old.state event.new.op event.new.answer }
    ensures agrees { Agrees (W.ends wires.new Consumer input.old.queue.0) input.new.state }
    // An entry comes exactly at a take, and only where it is needed.
    ensures taken { IsSome got.new ↔ (event.new.op ≡ Op.Take) }
    ensures needed { IsSome got.new → need ≡ true }
    ensures item { event.new.item ≡ option_map (λ c. c.0) got.new }
    ensures takes { (n : ℕ) → taken_by (deed_of event.new got.new) n
        ≡ if_there (input.old.queue.0 == n) (option_to_list got.new) }
    ensures puts { (n : ℕ) → put_by (deed_of event.new got.new) n ≡ [] }
    ensures kind { IfSome got.new (λ c. kind_of c.0
        ≡ (W.ends wires.old Consumer input.old.queue.0).kind) }
    ensures posted { Posted (intake_post input.old) need event.new (intake_post input.new) }
    ensures still { is_mark event.new.op event.new.answer ≡ false → got.new ≡ None }
    ensures kept { event.new.item ≡ None → got.new ≡ None }
{
    let op = input.state.next(Side::Forward, need);
    if op == Op::Take {
        take_in(input.queue, &mut input.state, wires, got, event);
        return;
    }
    let answer = call(wires, input.queue, op);
    input.state.note(op, answer);
    *event = Event {
        queue: input.queue,
        op,
        answer,
        item: None,
    };
}

// Puts an entry.
#[inline(never)]
fn put_out<W: Wires>(
    queue: QueueId,
    state: &mut EndState,
    wires: &mut W,
    entry: (Item, Body),
    event: &mut Event,
)
    requires may { Allows (W.ends wires.old Producer queue.0) Op.Put }
    requires kind { kind_of entry.0 ≡ (W.ends wires.old Producer queue.0).kind }
    ensures on { event.new.queue ≡ queue }
    ensures op { event.new.op ≡ Op.Put }
    ensures answer { event.new.answer ≡ Answer.Done }
    ensures item { event.new.item ≡ Some entry.0 }
    ensures did { W.did wires.old (deed_of event.new (Some entry)) wires.new }
    ensures moves { Moves (W.ends wires.old) event.new (W.ends wires.new) }
    ensures state { state.new ≡ state_after state.old Op.Put Answer.Done }
{
    let (item, body) = entry;
    wires.put(queue, item, body);
    state.note(Op::Put, Answer::Done);
    *event = Event {
        queue,
        op: Op::Put,
        answer: Answer::Done,
        item: Some(item),
    };
}

/// Makes the next call of a producing end. The load goes exactly at a put.
#[inline(always)]
pub fn push<W: Wires>(
    output: &mut Outlet,
    wires: &mut W,
    load: &mut Option<(Item, Body)>,
    event: &mut Event,
)
    requires agrees { Agrees (W.ends wires.old Producer output.old.queue.0) output.old.state }
    requires kind { ForSome load.old (λ c. kind_of c.0
        ≡ (W.ends wires.old Producer output.old.queue.0).kind) }
    ensures queue { output.new.queue ≡ output.old.queue }
    ensures on { event.new.queue ≡ output.old.queue }
    ensures op { event.new.op ≡ next_op output.old.state Side.Backward (is_some load.old) }
    ensures role { role_of event.new.op ≡ Producer }
    ensures did { W.did wires.old (deed_of event.new (put_of event.new load.old)) wires.new }
    ensures moves { Moves (W.ends wires.old) event.new (W.ends wires.new) }
    ensures state { output.new.state ≡ state_after output.old.state event.new.op event.new.answer }
    ensures agrees { Agrees (W.ends wires.new Producer output.old.queue.0) output.new.state }
    // The load is what was put and what is left.
    ensures load { option_to_list load.old ≡ option_to_list (put_of event.new load.old)
        ++ option_to_list load.new }
    ensures takes { (n : ℕ) → taken_by (deed_of event.new (put_of event.new load.old)) n ≡ [] }
    ensures puts { (n : ℕ) → put_by (deed_of event.new (put_of event.new load.old)) n
        ≡ if_there (output.old.queue.0 == n) (option_to_list (put_of event.new load.old)) }
    ensures item { event.new.item ≡ option_map (λ c. c.0) (put_of event.new load.old) }
    ensures put { IsSome event.new.item ↔ (event.new.op ≡ Op.Put) }
    ensures posted { Posted (outlet_post output.old) (is_some load.old) event.new
        (outlet_post output.new) }
    ensures still { is_mark event.new.op event.new.answer ≡ false → load.new ≡ load.old }
    ensures kept { event.new.item ≡ None → load.new ≡ load.old }
{
    let op = output.state.next(Side::Backward, load.is_some());
    if op == Op::Put {
        if let Some(entry) = load.take() {
            put_out(output.queue, &mut output.state, wires, entry, event);
            return;
        }
    }
    let answer = call(wires, output.queue, op);
    output.state.note(op, answer);
    *event = Event {
        queue: output.queue,
        op,
        answer,
        item: None,
    };
}

/// Makes the next call of the consuming end at place `k`.
#[inline(always)]
pub fn pull_at<W: Wires>(
    inputs: &mut Intakes,
    wires: &mut W,
    k: usize,
    need: bool,
    got: &mut Option<(Item, Body)>,
    event: &mut Event,
)
    requires fits { FitsIntakes (W.ends wires.old) inputs.old }
    requires there { k < length (intake_queues inputs.old) }
    requires none { got.old ≡ None }
    ensures queues { intake_queues inputs.new ≡ intake_queues inputs.old }
    ensures on { slice_get (intake_queues inputs.old) k ≡ Some event.new.queue }
    ensures role { role_of event.new.op ≡ Consumer }
    ensures did { W.did wires.old (deed_of event.new got.new) wires.new }
    ensures moves { Moves (W.ends wires.old) event.new (W.ends wires.new) }
    ensures fits { FitsIntakes (W.ends wires.new) inputs.new }
    ensures taken { IsSome got.new ↔ (event.new.op ≡ Op.Take) }
    ensures needed { IsSome got.new → need ≡ true }
    ensures takes { (n : ℕ) → taken_by (deed_of event.new got.new) n
        ≡ if_there (event.new.queue.0 == n) (option_to_list got.new) }
    ensures puts { (n : ℕ) → put_by (deed_of event.new got.new) n ≡ [] }
    ensures posted { PostedAt (intake_posts inputs.old) k need event.new (intake_posts inputs.new) }
    ensures still { is_mark event.new.op event.new.answer ≡ false → got.new ≡ None }
    ensures kept { event.new.item ≡ None → got.new ≡ None }
{
    let end = &mut inputs.ends[k];
    pull(end, wires, need, got, event);
}

/// Makes the next call of the producing end at place `k`, which puts its load.
#[inline(always)]
pub fn push_at<W: Wires>(
    outputs: &mut Outlets,
    wires: &mut W,
    k: usize,
    load: &mut Option<(Item, Body)>,
    event: &mut Event,
)
    requires fits { FitsOutlets (W.ends wires.old) outputs.old }
    requires there { k < length (outlet_queues outputs.old) }
    requires kind { ForSome load.old (λ c. (q : QueueId)
        → slice_get (outlet_queues outputs.old) k ≡ Some q
        → kind_of c.0 ≡ (W.ends wires.old Producer q.0).kind) }
    ensures queues { outlet_queues outputs.new ≡ outlet_queues outputs.old }
    ensures on { slice_get (outlet_queues outputs.old) k ≡ Some event.new.queue }
    ensures role { role_of event.new.op ≡ Producer }
    ensures did { W.did wires.old (deed_of event.new (put_of event.new load.old)) wires.new }
    ensures moves { Moves (W.ends wires.old) event.new (W.ends wires.new) }
    ensures fits { FitsOutlets (W.ends wires.new) outputs.new }
    ensures load { option_to_list load.old ≡ option_to_list (put_of event.new load.old)
        ++ option_to_list load.new }
    ensures takes { (n : ℕ) → taken_by (deed_of event.new (put_of event.new load.old)) n ≡ [] }
    ensures puts { (n : ℕ) → put_by (deed_of event.new (put_of event.new load.old)) n
        ≡ if_there (event.new.queue.0 == n) (option_to_list (put_of event.new load.old)) }
    ensures posted { PostedAt (outlet_posts outputs.old) k (is_some load.old) event.new
        (outlet_posts outputs.new) }
    ensures still { is_mark event.new.op event.new.answer ≡ false → load.new ≡ load.old }
    ensures kept { event.new.item ≡ None → load.new ≡ load.old }
{
    let end = &mut outputs.ends[k];
    push(end, wires, load, event);
}
