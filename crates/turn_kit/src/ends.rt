//! The discipline of one end of a queue, consuming or producing: it makes the next call of the
//! table.

ghost use Rattle.std.specs.Prelude.{◌≡◌, ◌==◌, ◌↔◌, ℕ, true, false, Some, None, IsSome, IfSome};
ghost use Rattle.std.specs.Prelude.{option_to_list, is_some, [], ◌++◌};
ghost use Rattle.std.specs.Option.{ForSome, option_map};
ghost use Rattle.cargo_core.specs.Items.{kind_of};
ghost use Rattle.wire_core.specs.Deeds.{Deed, answer_of, cargo_of, deed_of, put_of};
ghost use Rattle.wire_core.specs.Lists.{taken_by, put_by, if_there};
ghost use Rattle.wire_core.specs.Ends.{Role, Consumer, Producer, Allows, Moves, role_of};
ghost use Rattle.wire_core.specs.Marks.{is_mark};
ghost use Rattle.turn_kit.specs.Calls.{bare_event, may_answer};
ghost use Rattle.turn_kit.specs.Turns.{Posted};
ghost use Rattle.turn_kit.specs.Posts.{intake_post, outlet_post};
ghost use Rattle.turn_kit.specs.Table.{next_op, state_after, start_state, is_settled, Agrees};
ghost use Rattle.turn_kit.specs.Table.{is_plain_call};

use crate::EndState;
use crate::each::Listed;
use cargo_core::{Body, Item};
use wire_core::{Answer, Event, Op, QueueId, Ringer, Side, Waiter, Wires};

#[inline(always)]
fn yes_or_no(yes: bool) -> Answer
    ensures { result ≡ answer_of yes }
{
    if yes { Answer::Yes } else { Answer::No }
}

// Makes a call that moves no entry, and gives what it answered.
#[inline(always)]
pub(crate) fn call<W: Wires>(wires: &mut W, queue: QueueId, op: Op) -> Answer
    requires may { Allows (W.ends wires.old (role_of op) queue.0) op }
    requires plain { is_plain_call op ≡ true }
    ensures answer { may_answer op result ≡ true }
    ensures did { W.did wires.old (deed_of (bare_event queue op result) None) wires.new }
    ensures moves { Moves (W.ends wires.old) (bare_event queue op result) (W.ends wires.new) }
{
    match op {
        Op::See => yes_or_no(wires.see(queue)),
        Op::Room => yes_or_no(wires.room(queue)),
        Op::Wake(side) => yes_or_no(wires.wake(queue, side)),
        Op::Wanted(side) => yes_or_no(wires.wanted(queue, side)),
        Op::Ask(side) => {
            wires.ask(queue, side);
            Answer::Done
        }
        Op::Waive(side) => {
            wires.waive(queue, side);
            Answer::Done
        }
        Op::Settle(side) => {
            wires.settle(queue, side);
            Answer::Done
        }
        Op::Ring(side) => {
            wires.ring(queue, side);
            Answer::Done
        }
        Op::Take | Op::Put | Op::Store(_, _) => unreachable!(),
    }
}

/// The discipline of a consuming end. `queue` is the end's queue, `state` how it stands.
#[derive(Debug, Drop)]
pub struct Intake {
    pub queue: QueueId,
    pub state: EndState,
}

impl Intake {
    /// An end in its start state.
    pub fn new(queue: QueueId) -> Intake
        ensures queue { result.queue ≡ queue }
        ensures state { result.state ≡ start_state Side.Forward }
    {
        Intake {
            queue,
            state: EndState {
                waiter: Waiter::Busy,
                ringer: Ringer::Free,
                look: None,
            },
        }
    }

    /// Makes the next call of the table, where `need` says whether an entry is needed. An entry is
    /// answered exactly for a take, and a take comes only where one is needed.
    #[inline(always)]
    pub fn step<W: Wires>(&mut self, wires: &mut W, need: bool) -> (Event, Option<(Item, Body)>)
        requires { Agrees (W.ends wires.old Consumer self.old.queue.0) self.old.state }
        ensures queue { self.new.queue ≡ self.old.queue }
        ensures on { result.0.queue ≡ self.old.queue }
        ensures op { result.0.op ≡ next_op self.old.state Side.Forward need }
        ensures role { role_of result.0.op ≡ Consumer }
        ensures did { W.did wires.old (deed_of result.0 result.1) wires.new }
        ensures moves { Moves (W.ends wires.old) result.0 (W.ends wires.new) }
        ensures state { self.new.state ≡ state_after self.old.state result.0.op result.0.answer }
        ensures agrees { Agrees (W.ends wires.new Consumer self.old.queue.0) self.new.state }
        // An entry comes exactly at a take, and only where it is needed.
        ensures taken { IsSome result.1 ↔ (result.0.op ≡ Op.Take) }
        ensures needed { IsSome result.1 → need ≡ true }
        ensures item { result.0.item ≡ option_map (λ c. c.0) result.1 }
        ensures cargo { cargo_of (deed_of result.0 result.1) ≡ option_to_list result.1 }
        ensures takes { (n : ℕ) → taken_by (deed_of result.0 result.1) n
            ≡ if_there (self.old.queue.0 == n) (option_to_list result.1) }
        ensures puts { (n : ℕ) → put_by (deed_of result.0 result.1) n ≡ [] }
        ensures kind { IfSome result.1 (λ c. kind_of c.0
            ≡ (W.ends wires.old Consumer self.old.queue.0).kind) }
        ensures posted { Posted (intake_post self.old) need result.0 (intake_post self.new) }
        ensures still { is_mark result.0.op result.0.answer ≡ false → result.1 ≡ None }
    {
        let op = self.state.next(Side::Forward, need);
        if op == Op::Take {
            let entry = wires.take(self.queue);
            self.state.note(op, Answer::Done);
            let event = Event {
                queue: self.queue,
                op,
                answer: Answer::Done,
                item: Some(entry.0),
            };
            return (event, Some(entry));
        }
        let answer = call(wires, self.queue, op);
        self.state.note(op, answer);
        let event = Event {
            queue: self.queue,
            op,
            answer,
            item: None,
        };
        (event, None)
    }

    /// Whether the ringer is free and, where an entry is needed, the waiter is clear.
    pub fn settled(&self, need: bool) -> bool
        ensures { result ≡ is_settled self.now.state need }
    {
        self.state.is_settled(need)
    }

    /// Discards the last look, and nothing else.
    pub fn forget(&mut self)
        ensures { self.new ≡ record self.old { state = record self.old.state { look = None } } }
    {
        self.state.look = None;
    }
}

impl Listed for Intake {
    ghost post = { intake_post };

    ghost queue = { λ end. end.queue };

    fn queue(&self) -> QueueId {
        self.queue
    }

    fn is_settled(&self, need: bool) -> bool {
        self.settled(need)
    }
}

/// The discipline of a producing end. `queue` is the end's queue, `state` how it stands.
#[derive(Debug, Drop)]
pub struct Outlet {
    pub queue: QueueId,
    pub state: EndState,
}

impl Outlet {
    /// An end in its start state.
    pub fn new(queue: QueueId) -> Outlet
        ensures queue { result.queue ≡ queue }
        ensures state { result.state ≡ start_state Side.Backward }
    {
        Outlet {
            queue,
            state: EndState {
                waiter: Waiter::Off,
                ringer: Ringer::Free,
                look: None,
            },
        }
    }

    /// Makes the next call of the table. The load goes exactly at a put.
    #[inline(always)]
    pub fn step<W: Wires>(&mut self, wires: &mut W, load: &mut Option<(Item, Body)>) -> Event
        requires agrees { Agrees (W.ends wires.old Producer self.old.queue.0) self.old.state }
        requires kind { ForSome load.old (λ c. kind_of c.0
            ≡ (W.ends wires.old Producer self.old.queue.0).kind) }
        ensures queue { self.new.queue ≡ self.old.queue }
        ensures on { result.queue ≡ self.old.queue }
        ensures op { result.op ≡ next_op self.old.state Side.Backward (is_some load.old) }
        ensures role { role_of result.op ≡ Producer }
        ensures did { W.did wires.old (deed_of result (put_of result load.old)) wires.new }
        ensures moves { Moves (W.ends wires.old) result (W.ends wires.new) }
        ensures state { self.new.state ≡ state_after self.old.state result.op result.answer }
        ensures agrees { Agrees (W.ends wires.new Producer self.old.queue.0) self.new.state }
        // The load is what was put and what is left.
        ensures load { option_to_list load.old ≡ option_to_list (put_of result load.old)
            ++ option_to_list load.new }
        ensures takes { (n : ℕ) → taken_by (deed_of result (put_of result load.old)) n ≡ [] }
        ensures puts { (n : ℕ) → put_by (deed_of result (put_of result load.old)) n
            ≡ if_there (self.old.queue.0 == n) (option_to_list (put_of result load.old)) }
        ensures item { result.item ≡ option_map (λ c. c.0) (put_of result load.old) }
        ensures put { IsSome result.item ↔ (result.op ≡ Op.Put) }
        ensures posted { Posted (outlet_post self.old) (is_some load.old) result
            (outlet_post self.new) }
        ensures still { is_mark result.op result.answer ≡ false → load.new ≡ load.old }
    {
        let op = self.state.next(Side::Backward, load.is_some());
        if op == Op::Put {
            if let Some((item, body)) = load.take() {
                wires.put(self.queue, item, body);
                self.state.note(op, Answer::Done);
                return Event {
                    queue: self.queue,
                    op,
                    answer: Answer::Done,
                    item: Some(item),
                };
            }
        }
        let answer = call(wires, self.queue, op);
        self.state.note(op, answer);
        Event {
            queue: self.queue,
            op,
            answer,
            item: None,
        }
    }

    /// Whether the ringer is free and, where an entry is loaded, the waiter is clear.
    pub fn settled(&self, loaded: bool) -> bool
        ensures { result ≡ is_settled self.now.state loaded }
    {
        self.state.is_settled(loaded)
    }

    /// Discards the last look, and nothing else.
    pub fn forget(&mut self)
        ensures { self.new ≡ record self.old { state = record self.old.state { look = None } } }
    {
        self.state.look = None;
    }
}

impl Listed for Outlet {
    ghost post = { outlet_post };

    ghost queue = { λ end. end.queue };

    fn queue(&self) -> QueueId {
        self.queue
    }

    fn is_settled(&self, need: bool) -> bool {
        self.settled(need)
    }
}
