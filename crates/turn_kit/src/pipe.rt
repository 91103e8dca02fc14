//! One input, one output and what is under way between them: what drivers are made of.

ghost use Rattle.std.specs.Prelude.{◌≡◌, ℕ, [], None, IsSome, is_some, is_none, false};
ghost use Rattle.wire_core.specs.Deeds.{deed_of, put_of};
ghost use Rattle.wire_core.specs.Lists.{Passed, taken_by, put_by, with_deed};
ghost use Rattle.wire_core.specs.Ends.{Moves, Consumer, Producer, role_of};
ghost use Rattle.wire_core.specs.Marks.{is_mark};
ghost use Rattle.turn_kit.specs.Turns.{Posted};
ghost use Rattle.turn_kit.specs.Posts.{intake_post, outlet_post};
ghost use Rattle.turn_kit.specs.Table.{is_settled, start_state};
ghost use Rattle.turn_kit.specs.Pipes.{FitsPipe, PipeStandsFor, arrival};

use crate::{Intake, Outlet, pull, push};
use cargo_core::{Body, Item};
use wire_core::{Event, QueueId, Side, Wires};

/// Moves entries unchanged from one queue to another, one at a time.
#[derive(Drop)]
pub struct Pipe {
    pub input: Intake,
    pub output: Outlet,
    pub load: Option<(Item, Body)>,
}

impl Pipe {
    /// A pipe between two queues, with its ends in their start state and nothing loaded.
    pub fn new(from: QueueId, to: QueueId) -> Pipe
        ensures from { result.input.queue ≡ from }
        ensures to { result.output.queue ≡ to }
        ensures input { result.input.state ≡ start_state Side.Forward }
        ensures output { result.output.state ≡ start_state Side.Backward }
        ensures load { result.load ≡ None }
    {
        Pipe {
            input: Intake::new(from),
            output: Outlet::new(to),
            load: None,
        }
    }

    /// The next call of the input, which `event` tells then. What it takes is loaded.
    #[inline(always)]
    pub fn step_input<W: Wires>(&mut self, wires: &mut W, event: &mut Event)
        requires { FitsPipe (W.ends wires.old) self.old }
        ensures input { self.new.input.queue ≡ self.old.input.queue }
        ensures output { self.new.output ≡ self.old.output }
        ensures on { event.new.queue ≡ self.old.input.queue }
        ensures role { role_of event.new.op ≡ Consumer }
        ensures did { W.did wires.old (deed_of event.new
            (arrival self.old.load self.new.load)) wires.new }
        ensures moves { Moves (W.ends wires.old) event.new (W.ends wires.new) }
        ensures fits { FitsPipe (W.ends wires.new) self.new }
        ensures kept { (passed : Passed) → PipeStandsFor self.old passed
            → PipeStandsFor self.new (with_deed passed
            (deed_of event.new (arrival self.old.load self.new.load))) }
        ensures takes { (n : ℕ) → (n ≡ self.old.input.queue.0 → ⊥)
            → taken_by (deed_of event.new (arrival self.old.load self.new.load)) n ≡ [] }
        ensures puts { (n : ℕ) → put_by (deed_of event.new (arrival self.old.load self.new.load)) n
            ≡ [] }
        ensures posted { Posted (intake_post self.old.input) (is_none self.old.load) event.new
            (intake_post self.new.input) }
        ensures still { is_mark event.new.op event.new.answer ≡ false
            → self.new.load ≡ self.old.load }
    {
        let need = self.load.is_none();
        let mut taken = None;
        pull(&mut self.input, wires, need, &mut taken, event);
        if taken.is_some() {
            self.load = taken;
        }
    }

    /// The next call of the output, which puts the load; `event` tells it then.
    #[inline(always)]
    pub fn step_output<W: Wires>(&mut self, wires: &mut W, event: &mut Event)
        requires { FitsPipe (W.ends wires.old) self.old }
        ensures input { self.new.input ≡ self.old.input }
        ensures output { self.new.output.queue ≡ self.old.output.queue }
        ensures on { event.new.queue ≡ self.old.output.queue }
        ensures role { role_of event.new.op ≡ Producer }
        ensures did { W.did wires.old (deed_of event.new (put_of event.new
            self.old.load)) wires.new }
        ensures moves { Moves (W.ends wires.old) event.new (W.ends wires.new) }
        ensures fits { FitsPipe (W.ends wires.new) self.new }
        ensures kept { (passed : Passed) → PipeStandsFor self.old passed
            → PipeStandsFor self.new (with_deed passed
            (deed_of event.new (put_of event.new self.old.load))) }
        ensures takes { (n : ℕ)
            → taken_by (deed_of event.new (put_of event.new self.old.load)) n ≡ [] }
        ensures puts { (n : ℕ) → (n ≡ self.old.output.queue.0 → ⊥)
            → put_by (deed_of event.new (put_of event.new self.old.load)) n ≡ [] }
        ensures posted { Posted (outlet_post self.old.output) (is_some self.old.load) event.new
            (outlet_post self.new.output) }
        ensures still { is_mark event.new.op event.new.answer ≡ false
            → self.new.load ≡ self.old.load }
    {
        push(&mut self.output, wires, &mut self.load, event);
    }

    /// Whether the input is settled; it is needed where nothing is loaded.
    pub fn input_settled(&self) -> bool
        ensures { result ≡ is_settled self.now.input.state (is_none self.now.load) }
    {
        self.input.settled(self.load.is_none())
    }

    /// Whether the output is settled.
    pub fn output_settled(&self) -> bool
        ensures { result ≡ is_settled self.now.output.state (is_some self.now.load) }
    {
        self.output.settled(self.load.is_some())
    }

    /// Discards the last look of both ends, and nothing else.
    pub fn forget(&mut self)
        ensures { self.new ≡ record self.old {
          input =
              record self.old.input { state = record self.old.input.state { look = None } };
          output = record self.old.output {
            state =
                record self.old.output.state { look = None };
          };
        } }
    {
        self.input.forget();
        self.output.forget();
    }
}
