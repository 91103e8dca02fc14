//! The driver of the bus: one pipe for requests to the bus, and one for its answers. It copies
//! whatever comes.
ghost use Rattle.std.specs.Prelude.{◌≡◌, ◌<◌, ◌∷◌, ℕ, [], is_none, is_some, false};
ghost use Rattle.wire_core.specs.Deeds.{deed_of, put_of};
ghost use Rattle.wire_core.specs.Ends.{Moves, Consumer, Producer, role_of};
ghost use Rattle.wire_core.specs.Lists.{Passed, Stepped, nothing_passed, taken_by, put_by};
ghost use Rattle.wire_core.specs.Lists.{with_deed};
ghost use Rattle.wire_core.specs.Marks.{is_mark};
ghost use Rattle.turn_kit.specs.Pipes.{IsNewPipe, FitsPipe, PipeStandsFor, arrival};
ghost use Rattle.turn_kit.specs.Posts.{intake_post, outlet_post};
ghost use Rattle.turn_kit.specs.Turns.{Posted, Turned, choice_of, chosen_place, last_after};
ghost use Rattle.turn_kit.specs.Turns.{is_at_rest};
ghost use Rattle.pipe_driver.specs.Drivers.{FitsPipes, PipesEnd, PipesPosted, PipesStandFor};
ghost use Rattle.pipe_driver.specs.Drivers.{inputs_of, outputs_of, pipe_needs};
ghost use Rattle.pipe_driver.specs.Lengths.{two_pipes};
ghost use Rattle.i2c_virt.specs.Drivers.{pipes_of, driver_round, DriverStandsFor, DriverRow};
ghost use Rattle.i2c_virt.specs.declared.driver.BusDriver.{BusDriver};

use pipe_driver::{PipeDriver, PipeList, Pipes};
use turn_kit::{Lowest, Pipe, pull, push};
use wire_core::{Event, QueueId, Wires};

/// The driver of the bus: its first pipe moves requests to the bus, its second the answers.
#[derive(Drop)]
pub struct BusDriver {
    pub driver: PipeDriver<Pipes<Pipe>>,
}

// The next call of the input of a pipe. What it takes is loaded.
#[inline(always)]
fn step_in<W: Wires>(pipe: &mut Pipe, wires: &mut W, event: &mut Event)
    requires { FitsPipe (W.ends wires.old) pipe.old }
    ensures input { pipe.new.input.queue ≡ pipe.old.input.queue }
    ensures output { pipe.new.output ≡ pipe.old.output }
    ensures on { event.new.queue ≡ pipe.old.input.queue }
    ensures role { role_of event.new.op ≡ Consumer }
    ensures did { W.did wires.old (deed_of event.new
        (arrival pipe.old.load pipe.new.load)) wires.new }
    ensures moves { Moves (W.ends wires.old) event.new (W.ends wires.new) }
    ensures fits { FitsPipe (W.ends wires.new) pipe.new }
    ensures kept { (passed : Passed) → PipeStandsFor pipe.old passed
        → PipeStandsFor pipe.new (with_deed passed
        (deed_of event.new (arrival pipe.old.load pipe.new.load))) }
    ensures takes { (n : ℕ) → (n ≡ pipe.old.input.queue.0 → ⊥)
        → taken_by (deed_of event.new (arrival pipe.old.load pipe.new.load)) n ≡ [] }
    ensures puts { (n : ℕ) → put_by (deed_of event.new (arrival pipe.old.load pipe.new.load)) n
        ≡ [] }
    ensures posted { Posted (intake_post pipe.old.input) (is_none pipe.old.load) event.new
        (intake_post pipe.new.input) }
    ensures still { is_mark event.new.op event.new.answer ≡ false
        → pipe.new.load ≡ pipe.old.load }
{
    let need = pipe.load.is_none();
    let mut taken = None;
    pull(&mut pipe.input, wires, need, &mut taken, event);
    if taken.is_some() {
        pipe.load = taken;
    }
}

// The next call of the output of a pipe, which puts the load.
#[inline(always)]
fn step_out<W: Wires>(pipe: &mut Pipe, wires: &mut W, event: &mut Event)
    requires { FitsPipe (W.ends wires.old) pipe.old }
    ensures input { pipe.new.input ≡ pipe.old.input }
    ensures output { pipe.new.output.queue ≡ pipe.old.output.queue }
    ensures on { event.new.queue ≡ pipe.old.output.queue }
    ensures role { role_of event.new.op ≡ Producer }
    ensures did { W.did wires.old (deed_of event.new (put_of event.new pipe.old.load)) wires.new }
    ensures moves { Moves (W.ends wires.old) event.new (W.ends wires.new) }
    ensures fits { FitsPipe (W.ends wires.new) pipe.new }
    ensures kept { (passed : Passed) → PipeStandsFor pipe.old passed
        → PipeStandsFor pipe.new (with_deed passed
        (deed_of event.new (put_of event.new pipe.old.load))) }
    ensures takes { (n : ℕ) → taken_by (deed_of event.new (put_of event.new pipe.old.load)) n
        ≡ [] }
    ensures puts { (n : ℕ) → (n ≡ pipe.old.output.queue.0 → ⊥)
        → put_by (deed_of event.new (put_of event.new pipe.old.load)) n ≡ [] }
    ensures posted { Posted (outlet_post pipe.old.output) (is_some pipe.old.load) event.new
        (outlet_post pipe.new.output) }
    ensures still { is_mark event.new.op event.new.answer ≡ false
        → pipe.new.load ≡ pipe.old.load }
{
    push(&mut pipe.output, wires, &mut pipe.load, event);
}

// The next call of the end of one pipe at a place.
#[inline(always)]
fn step_one<W: Wires>(pipe: &mut Pipe, wires: &mut W, place: usize, event: &mut Event)
    requires fits { FitsPipes (W.ends wires.old) (pipe.old ∷ []) }
    requires there { place < 2 }
    ensures fits { FitsPipes (W.ends wires.new) (pipe.new ∷ []) }
    ensures moves { Moves (W.ends wires.old) event.new (W.ends wires.new) }
    ensures own { PipesEnd (pipe.old ∷ []) (role_of event.new.op) event.new.queue.0 }
    ensures inputs { inputs_of (pipe.new ∷ []) ≡ inputs_of (pipe.old ∷ []) }
    ensures outputs { outputs_of (pipe.new ∷ []) ≡ outputs_of (pipe.old ∷ []) }
    ensures stepped { Stepped PipesStandFor W.did wires.old wires.new (pipe.old ∷ [])
        (pipe.new ∷ []) event.new }
    ensures posted { PipesPosted (pipe.old ∷ []) place event.new (pipe.new ∷ []) }
    ensures still { is_mark event.new.op event.new.answer ≡ false
        → pipe_needs (pipe.new ∷ []) ≡ pipe_needs (pipe.old ∷ []) }
{
    if place == 0 {
        step_in(pipe, wires, event);
    } else {
        step_out(pipe, wires, event);
    }
}

// The next call of the end of two pipes at a place.
#[inline(always)]
fn step_two<W: Wires>(pipes: &mut Pipes<Pipe>, wires: &mut W, place: usize, event: &mut Event)
    requires fits { FitsPipes (W.ends wires.old) (two_pipes pipes.old) }
    requires there { place < 4 }
    ensures fits { FitsPipes (W.ends wires.new) (two_pipes pipes.new) }
    ensures inputs { inputs_of (two_pipes pipes.new) ≡ inputs_of (two_pipes pipes.old) }
    ensures outputs { outputs_of (two_pipes pipes.new) ≡ outputs_of (two_pipes pipes.old) }
    ensures stepped { Stepped PipesStandFor W.did wires.old wires.new (two_pipes pipes.old)
        (two_pipes pipes.new) event.new }
    ensures posted { PipesPosted (two_pipes pipes.old) place event.new (two_pipes pipes.new) }
    ensures still { is_mark event.new.op event.new.answer ≡ false
        → pipe_needs (two_pipes pipes.new) ≡ pipe_needs (two_pipes pipes.old) }
{
    if place == 0 {
        step_in(&mut pipes.first, wires, event);
        return;
    }
    if place == 1 {
        step_out(&mut pipes.first, wires, event);
        return;
    }
    step_one(&mut pipes.rest, wires, place - 2, event);
}

impl BusDriver {
    /// A driver in its start state, which moves `req` to `bus_req` and `bus_resp` to `resp`.
    pub fn new(bus_req: QueueId, bus_resp: QueueId, req: QueueId, resp: QueueId) -> BusDriver
        ensures req { IsNewPipe req bus_req result.driver.pipes.first }
        ensures resp { IsNewPipe bus_resp resp result.driver.pipes.rest }
        ensures stands { DriverStandsFor result nothing_passed }
    {
        BusDriver {
            driver: PipeDriver::new(Pipes {
                first: Pipe::new(req, bus_req),
                rest: Pipe::new(bus_resp, resp),
            }),
        }
    }

    /// Whether nothing is to be done before a notification comes.
    pub fn at_rest(&self) -> bool
        ensures { result ≡ is_at_rest (driver_round self.now) }
    {
        self.driver.at_rest()
    }

    // The end that is stepped now: those of the first pipe come first, each input before its
    // output. The rotation is asked only where all are settled.
    fn choose(&mut self) -> usize
        ensures place { result ≡ chosen_place (choice_of (driver_round self.old)) }
        ensures within { result < 4 }
        ensures pipes { self.new.driver.pipes ≡ self.old.driver.pipes }
        ensures last { self.new.driver.turn.last ≡ last_after
            (choice_of (driver_round self.old)) }
    {
        let driver = &mut self.driver;
        let lowest = driver.pipes.unsettled(Lowest::none(), 0);
        if let Some(end) = lowest.stand() {
            return end.place;
        }
        let choice = driver.turn.begin(driver.pipes.ends());
        let choice = driver.pipes.offer(choice, 0);
        driver.turn.pass(choice)
    }

    /// Makes one call on one of its ends, which `event` tells then.
    pub fn step<W: Wires>(&mut self, wires: &mut W, event: &mut Event)
        requires { FitsPipes (W.ends wires.old) (pipes_of self.old) }
        ensures fits { FitsPipes (W.ends wires.new) (pipes_of self.new) }
        ensures inputs { inputs_of (pipes_of self.new) ≡ inputs_of (pipes_of self.old) }
        ensures outputs { outputs_of (pipes_of self.new) ≡ outputs_of (pipes_of self.old) }
        ensures stepped { Stepped DriverStandsFor W.did wires.old wires.new self.old self.new
            event.new }
        ensures turned { Turned (driver_round self.old) event.new (driver_round self.new) }
    {
        let place = self.choose();
        step_two(&mut self.driver.pipes, wires, place, event);
    }
}

/// Whatever it stands for meets its row.
pub fn driver_law()
    ensures { (d : BusDriver) (passed : Passed) → DriverStandsFor d passed → DriverRow d passed }
{
    pipe_driver::row_law();
}
