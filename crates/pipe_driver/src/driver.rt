//! A driver: some pipes, and whose turn it is among their ends.

ghost use Rattle.std.specs.Prelude.{◌≡◌, ◌<◌, ◌*◌, ◌^◌, ℕ, List, map, length};
ghost use Rattle.cargo_core.specs.Bodies.{buffers_of};
ghost use Rattle.wire_core.specs.Ends.{role_of, Role, End};
ghost use Rattle.wire_core.specs.Lists.{Passed, Stepped};
ghost use Rattle.turn_kit.specs.Turns.{Turned, choice_of, chosen_place, last_after, is_at_rest};
ghost use Rattle.turn_kit.specs.declared.pipe.Pipe.{Pipe};
ghost use Rattle.pipe_driver.specs.Drivers.{FitsPipes, PipesStandFor, PipesRow, PipesBalance};
ghost use Rattle.pipe_driver.specs.Drivers.{PipesEnd, inputs_of, outputs_of, pipes_round};
ghost use Rattle.pipe_driver.specs.Drivers.{pipes_hand, pipe_forgotten};

use crate::PipeList;
use cargo_core::PoolId;
use turn_kit::{Lowest, Turn};
use wire_core::{Event, Wires};

/// A driver of these pipes.
#[derive(Drop)]
pub struct PipeDriver<P> {
    pub pipes: P,
    pub turn: Turn,
}

impl<P: PipeList> PipeDriver<P> {
    /// A driver that has stepped no end yet.
    pub fn new(pipes: P) -> PipeDriver<P>
        ensures pipes { result.pipes ≡ pipes }
        ensures turn { result.turn.last ≡ 65535 }
    {
        PipeDriver {
            pipes,
            turn: Turn::new(),
        }
    }

    /// Whether nothing is to be done before a notification comes.
    pub fn at_rest(&self) -> bool
        ensures { result ≡ is_at_rest (pipes_round (P.list self.now.pipes) self.now.turn.last) }
    {
        self.pipes.settled()
    }

    /// How many buffers of a pool are in its hand.
    pub fn held(&self, pool: PoolId) -> u32
        requires { length (P.list self.now.pipes) < 2 ^ 16 }
        ensures { result ≡ buffers_of pool (pipes_hand (P.list self.now.pipes)) }
    {
        self.pipes.held(pool)
    }

    // The end that is stepped now: those of the first pipe come first, each input before its
    // output. The rotation is asked only where all are settled.
    #[inline(always)]
    fn choose(&mut self) -> usize
        requires { length (P.list self.old.pipes) < 2 ^ 16 }
        ensures place { result ≡ chosen_place (choice_of
            (pipes_round (P.list self.old.pipes) self.old.turn.last)) }
        ensures within { result < 2 * length (P.list self.old.pipes) }
        ensures pipes { self.new.pipes ≡ self.old.pipes }
        ensures last { self.new.turn.last ≡ last_after
            (choice_of (pipes_round (P.list self.old.pipes) self.old.turn.last)) }
    {
        let lowest = self.pipes.unsettled(Lowest::none(), 0);
        if let Some(end) = lowest.stand() {
            return end.place;
        }
        let choice = self.turn.begin(self.pipes.ends());
        let choice = self.pipes.offer(choice, 0);
        self.turn.pass(choice)
    }

    /// Makes one call on one of its ends, which `event` tells then.
    #[inline(never)]
    pub fn step<W: Wires>(&mut self, wires: &mut W, event: &mut Event)
        requires fits { FitsPipes (W.ends wires.old) (P.list self.old.pipes) }
        requires few { length (P.list self.old.pipes) < 2 ^ 16 }
        ensures fits { FitsPipes (W.ends wires.new) (P.list self.new.pipes) }
        ensures own { PipesEnd (P.list self.old.pipes) (role_of event.new.op) event.new.queue.0 }
        ensures inputs { inputs_of (P.list self.new.pipes) ≡ inputs_of (P.list self.old.pipes) }
        ensures outputs { outputs_of (P.list self.new.pipes) ≡ outputs_of (P.list self.old.pipes) }
        ensures stepped { Stepped PipesStandFor W.did wires.old wires.new (P.list self.old.pipes)
            (P.list self.new.pipes) event.new }
        ensures turned { Turned (pipes_round (P.list self.old.pipes) self.old.turn.last) event.new
            (pipes_round (P.list self.new.pipes) self.new.turn.last) }
    {
        let place = self.choose();
        self.pipes.step(wires, place, event);
    }

    /// Discards the last look of each end, and nothing else.
    pub fn forget(&mut self)
        ensures pipes { P.list self.new.pipes ≡ map pipe_forgotten (P.list self.old.pipes) }
        ensures turn { self.new.turn ≡ self.old.turn }
        ensures fits { (ends : Role → ℕ → End) → FitsPipes ends (P.list self.old.pipes)
            → FitsPipes ends (P.list self.new.pipes) }
        ensures lists { (passed : Passed) → PipesStandFor (P.list self.old.pipes) passed
            → PipesStandFor (P.list self.new.pipes) passed }
    {
        self.pipes.forget();
    }
}

/// Whatever it stands for meets its row.
pub fn row_law()
    ensures { (pipes : List Pipe) (passed : Passed) → PipesStandFor pipes passed
        → PipesRow pipes passed }
{}

/// What came and did not go out is in its hand.
pub fn hand_law()
    ensures { (pipes : List Pipe) (passed : Passed) → PipesStandFor pipes passed
        → PipesBalance pipes passed }
{}
