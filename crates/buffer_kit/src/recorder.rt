//! A pipe that records the frames which pass through it.
ghost use Rattle.std.specs.Prelude.{◌≡◌, ◌==◌, ◌≤◌, ◌<◌, ◌++◌, ℕ, [], map, IfOk, OnOk, OnErr};
ghost use Rattle.std.specs.Prelude.{is_none, is_some, false};
ghost use Rattle.std.specs.Option.{option_to_list};
ghost use Rattle.wire_core.specs.Deeds.{deed_of, put_of};
ghost use Rattle.wire_core.specs.Lists.{Passed, with_deed, taken_by, put_by, if_there};
ghost use Rattle.wire_core.specs.Ends.{Moves, Consumer, Producer, role_of};
ghost use Rattle.wire_core.specs.Marks.{is_mark};
ghost use Rattle.turn_kit.specs.Turns.{Posted};
ghost use Rattle.turn_kit.specs.Posts.{intake_post, outlet_post};
ghost use Rattle.turn_kit.specs.Pipes.{FitsPipe, IsNewPipe, arrival};
ghost use Rattle.buffer_kit.specs.Entries.{frame_of};
ghost use Rattle.buffer_kit.specs.Recorders.{RecorderStandsFor};

use crate::frame;
use cargo_core::{FrameTape, Memory};
use std::alloc::Global;
use turn_kit::Pipe;
use wire_core::{Event, QueueId, Wires};

/// The most bytes that a frame can have, since its length has 16 bits.
const LONGEST: usize = 65_535;

/// Moves entries unchanged from one queue to another, one at a time, and records their frames.
#[derive(Drop)]
pub struct Recorder {
    pub pipe: Pipe,
    pub tape: FrameTape,
}

impl Recorder {
    /// A recorder between two queues, with its ends in their start state and nothing recorded. It
    /// takes no memory.
    pub fn new(alloc: Global, from: QueueId, to: QueueId) -> Recorder
        ensures pipe { IsNewPipe from to result.pipe }
        ensures tape { result.tape.shown ≡ [] }
    {
        Recorder {
            pipe: Pipe::new(from, to),
            tape: FrameTape::new(alloc),
        }
    }

    /// Takes the memory of one frame more. After want of memory nothing changed.
    pub fn reserve(&mut self) -> Result<(), Memory>
        ensures pipe { self.new.pipe ≡ self.old.pipe }
        ensures ok { OnOk result (self.new.tape.shown ≡ self.old.tape.shown) }
        ensures place { OnOk result (0 < self.new.tape.places) }
        ensures bytes { OnOk result (65535 ≤ self.new.tape.bytes) }
        ensures err { OnErr result (self.new ≡ self.old) }
    {
        self.tape.reserve(LONGEST)
    }

    /// The next call of the input. The frame of what it takes is recorded, into memory that was
    /// taken before.
    pub fn step_input<W: Wires>(&mut self, wires: &mut W) -> Event
        requires fits { FitsPipe (W.ends wires.old) self.old.pipe }
        requires place { 0 < self.old.tape.places }
        requires bytes { 65535 ≤ self.old.tape.bytes }
        ensures input { self.new.pipe.input.queue ≡ self.old.pipe.input.queue }
        ensures output { self.new.pipe.output ≡ self.old.pipe.output }
        ensures on { result.queue ≡ self.old.pipe.input.queue }
        ensures role { role_of result.op ≡ Consumer }
        ensures did { W.did wires.old (deed_of result
            (arrival self.old.pipe.load self.new.pipe.load)) wires.new }
        ensures moves { Moves (W.ends wires.old) result (W.ends wires.new) }
        ensures fits { FitsPipe (W.ends wires.new) self.new.pipe }
        ensures kept { (passed : Passed) → RecorderStandsFor self.old passed
            → RecorderStandsFor self.new (with_deed passed (deed_of result
            (arrival self.old.pipe.load self.new.pipe.load))) }
        ensures load { option_to_list self.new.pipe.load
            ≡ option_to_list self.old.pipe.load ++ option_to_list
            (arrival self.old.pipe.load self.new.pipe.load) }
        ensures tape { self.new.tape.shown ≡ self.old.tape.shown ++ map frame_of (option_to_list
            (arrival self.old.pipe.load self.new.pipe.load)) }
        ensures takes { (n : ℕ) → taken_by (deed_of result
            (arrival self.old.pipe.load self.new.pipe.load)) n ≡ if_there
            (self.old.pipe.input.queue.0 == n) (option_to_list
            (arrival self.old.pipe.load self.new.pipe.load)) }
        ensures puts { (n : ℕ) → put_by (deed_of result
            (arrival self.old.pipe.load self.new.pipe.load)) n ≡ [] }
        ensures posted { Posted (intake_post self.old.pipe.input)
            (is_none self.old.pipe.load) result (intake_post self.new.pipe.input) }
        ensures still { is_mark result.op result.answer ≡ false → self.new.pipe.load
            ≡ self.old.pipe.load }
    {
        let (event, got) = self.pipe.input.step(wires, self.pipe.load.is_none());
        if let Some(entry) = got {
            self.tape.push(frame(&entry));
            self.pipe.load = Some(entry);
        }
        event
    }

    /// The next call of the output, which puts the load.
    pub fn step_output<W: Wires>(&mut self, wires: &mut W) -> Event
        requires { FitsPipe (W.ends wires.old) self.old.pipe }
        ensures input { self.new.pipe.input ≡ self.old.pipe.input }
        ensures output { self.new.pipe.output.queue ≡ self.old.pipe.output.queue }
        ensures tape { self.new.tape ≡ self.old.tape }
        ensures on { result.queue ≡ self.old.pipe.output.queue }
        ensures role { role_of result.op ≡ Producer }
        ensures did { W.did wires.old (deed_of result
            (put_of result self.old.pipe.load)) wires.new }
        ensures moves { Moves (W.ends wires.old) result (W.ends wires.new) }
        ensures fits { FitsPipe (W.ends wires.new) self.new.pipe }
        ensures kept { (passed : Passed) → RecorderStandsFor self.old passed
            → RecorderStandsFor self.new (with_deed passed (deed_of result
            (put_of result self.old.pipe.load))) }
        ensures load { option_to_list self.old.pipe.load ≡ option_to_list
            (put_of result self.old.pipe.load) ++ option_to_list self.new.pipe.load }
        ensures takes { (n : ℕ) → taken_by (deed_of result (put_of result self.old.pipe.load)) n
            ≡ [] }
        ensures puts { (n : ℕ) → put_by (deed_of result (put_of result self.old.pipe.load)) n
            ≡ if_there (self.old.pipe.output.queue.0 == n) (option_to_list
            (put_of result self.old.pipe.load)) }
        ensures posted { Posted (outlet_post self.old.pipe.output)
            (is_some self.old.pipe.load) result (outlet_post self.new.pipe.output) }
        ensures still { is_mark result.op result.answer ≡ false → self.new.pipe.load
            ≡ self.old.pipe.load }
    {
        self.pipe.output.step(wires, &mut self.pipe.load)
    }
}
