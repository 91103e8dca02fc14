//! A list of pipes whose length its type tells: a pipe is one, and `Pipes` has one more.

ghost use Rattle.std.specs.Prelude.{◌≡◌, ◌<◌, ◌≤◌, ◌+◌, ◌*◌, ◌^◌, ℕ, List, [], ◌∷◌, map, length};
ghost use Rattle.std.specs.Prelude.{false};
ghost use Rattle.cargo_core.specs.Bodies.{buffers_of};
ghost use Rattle.wire_core.specs.Ends.{role_of, Moves};
ghost use Rattle.wire_core.specs.Lists.{Passed, Stepped};
ghost use Rattle.wire_core.specs.Marks.{is_mark};
ghost use Rattle.turn_kit.specs.Lowests.{found};
ghost use Rattle.turn_kit.specs.Turns.{offered_from, settled_all, unsettled_from};
ghost use Rattle.turn_kit.specs.declared.pipe.Pipe.{Pipe};
ghost use Rattle.pipe_driver.specs.Drivers.{FitsPipes, PipesStandFor, PipesEnd, PipesPosted};
ghost use Rattle.pipe_driver.specs.Drivers.{inputs_of, outputs_of, pipe_posts, pipe_needs};
ghost use Rattle.pipe_driver.specs.Drivers.{pipes_hand, pipe_forgotten};

use cargo_core::PoolId;
use turn_kit::{Choice, Lowest, Pipe, count_held};
use wire_core::{Event, Wires};

/// Some pipes, one at least.
pub trait PipeList {
    /// The pipes, in their order.
    ghost list: { Self → List Pipe };

    /// How many ends they have: two for each pipe.
    fn ends(&self) -> usize
        requires { length (list self.now) < 2 ^ 16 }
        ensures two { result ≡ 2 * length (list self.now) }
        ensures some { 0 < result };

    /// Whether all ends are settled.
    fn settled(&self) -> bool
        ensures { result ≡ settled_all (pipe_posts (list self.now)) (pipe_needs (list self.now)) };

    /// How many buffers of a pool are loaded: one for each pipe at most.
    fn held(&self, pool: PoolId) -> u32
        requires { length (list self.now) < 2 ^ 16 }
        ensures held { result ≡ buffers_of pool (pipes_hand (list self.now)) }
        ensures few { result ≤ length (list self.now) };

    /// Offers each end, the first of them at the place `base`.
    fn offer(&self, choice: Choice, base: usize) -> Choice
        requires { base + 2 * length (list self.now) ≤ choice.count }
        ensures { result ≡ offered_from choice base (pipe_posts (list self.now))
            (pipe_needs (list self.now)) };

    /// Counts each end that isn't settled, the first of them at the place `base`.
    fn unsettled(&self, lowest: Lowest, base: usize) -> Lowest
        requires { base + 2 * length (list self.now) < 2 ^ 64 }
        ensures { found result ≡ unsettled_from (found lowest) base (pipe_posts (list self.now))
            (pipe_needs (list self.now)) };

    /// Makes the next call of the end at a place, which `event` tells then.
    fn step<W: Wires>(&mut self, wires: &mut W, place: usize, event: &mut Event)
        requires fits { FitsPipes (W.ends wires.old) (list self.old) }
        requires there { place < 2 * length (list self.old) }
        ensures fits { FitsPipes (W.ends wires.new) (list self.new) }
        ensures moves { Moves (W.ends wires.old) event.new (W.ends wires.new) }
        ensures own { PipesEnd (list self.old) (role_of event.new.op) event.new.queue.0 }
        ensures inputs { inputs_of (list self.new) ≡ inputs_of (list self.old) }
        ensures outputs { outputs_of (list self.new) ≡ outputs_of (list self.old) }
        ensures stepped { Stepped PipesStandFor W.did wires.old wires.new (list self.old)
            (list self.new) event.new }
        ensures posted { PipesPosted (list self.old) place event.new (list self.new) }
        ensures still { is_mark event.new.op event.new.answer ≡ false
            → pipe_needs (list self.new) ≡ pipe_needs (list self.old) };

    /// Discards the last look of each end, and nothing else.
    fn forget(&mut self)
        ensures { list self.new ≡ map pipe_forgotten (list self.old) };
}

/// One pipe more.
#[derive(Drop)]
pub struct Pipes<R> {
    pub first: Pipe,
    pub rest: R,
}

/// The end of a list.
impl PipeList for Pipe {
    ghost list = { λ p. p ∷ [] };

    #[inline(always)]
    fn ends(&self) -> usize {
        2
    }

    #[inline(always)]
    fn settled(&self) -> bool {
        self.input_settled() && self.output_settled()
    }

    fn held(&self, pool: PoolId) -> u32 {
        count_held(pool, &self.load)
    }

    #[inline(always)]
    fn offer(&self, choice: Choice, base: usize) -> Choice {
        choice
            .offer(base, self.input.queue, self.input_settled())
            .offer(base + 1, self.output.queue, self.output_settled())
    }

    #[inline(always)]
    fn unsettled(&self, lowest: Lowest, base: usize) -> Lowest {
        lowest
            .unless_settled(base, self.input.queue, self.input_settled())
            .unless_settled(base + 1, self.output.queue, self.output_settled())
    }

    #[inline(always)]
    fn step<W: Wires>(&mut self, wires: &mut W, place: usize, event: &mut Event) {
        if place == 0 {
            self.step_input(wires, event);
            return;
        }
        self.step_output(wires, event);
    }

    fn forget(&mut self) {
        self.forget();
    }
}

impl<R: PipeList> PipeList for Pipes<R> {
    ghost list = { λ ps. ps.first ∷ R.list ps.rest };

    #[inline(always)]
    fn ends(&self) -> usize {
        2 + self.rest.ends()
    }

    #[inline(always)]
    fn settled(&self) -> bool {
        self.first.input_settled() && self.first.output_settled() && self.rest.settled()
    }

    fn held(&self, pool: PoolId) -> u32 {
        count_held(pool, &self.first.load) + self.rest.held(pool)
    }

    #[inline(always)]
    fn offer(&self, choice: Choice, base: usize) -> Choice {
        let pipe = &self.first;
        let choice = choice
            .offer(base, pipe.input.queue, pipe.input_settled())
            .offer(base + 1, pipe.output.queue, pipe.output_settled());
        self.rest.offer(choice, base + 2)
    }

    #[inline(always)]
    fn unsettled(&self, lowest: Lowest, base: usize) -> Lowest {
        let pipe = &self.first;
        let lowest = lowest
            .unless_settled(base, pipe.input.queue, pipe.input_settled())
            .unless_settled(base + 1, pipe.output.queue, pipe.output_settled());
        self.rest.unsettled(lowest, base + 2)
    }

    #[inline(always)]
    fn step<W: Wires>(&mut self, wires: &mut W, place: usize, event: &mut Event) {
        if place == 0 {
            self.first.step_input(wires, event);
            return;
        }
        if place == 1 {
            self.first.step_output(wires, event);
            return;
        }
        self.rest.step(wires, place - 2, event);
    }

    fn forget(&mut self) {
        self.first.forget();
        self.rest.forget();
    }
}
