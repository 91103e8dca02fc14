//! Several consuming ends of one actor.

ghost use Rattle.std.specs.Prelude.{◌≡◌, ◌==◌, ◌↔◌, ◌<◌, ◌≤◌, ◌+◌, ◌^◌, ℕ, [], Some, None, true};
ghost use Rattle.std.specs.Prelude.{false, IsSome, IfSome, IfNone, length, map, slice_get};
ghost use Rattle.std.specs.Option.{option_map, option_to_list};
ghost use Rattle.cargo_core.specs.Items.{kind_of};
ghost use Rattle.wire_core.specs.Deeds.{deed_of};
ghost use Rattle.wire_core.specs.Lists.{taken_by, put_by, if_there};
ghost use Rattle.wire_core.specs.Ends.{Moves, Consumer, role_of};
ghost use Rattle.turn_kit.specs.ManyEnds.{FitsIntakes, intake_queues, intake_posts, needs_from};
ghost use Rattle.wire_core.specs.Marks.{is_mark};
ghost use Rattle.turn_kit.specs.Lowests.{found};
ghost use Rattle.turn_kit.specs.Turns.{PostedAt, offered_from, settled_all, unsettled_from};

use crate::each::{is_each_settled, offer_each, unsettled_each};
use crate::{Choice, Intake, Lowest, Needs};
use cargo_core::{Body, Item};
use wire_core::{Event, Op, Wires};

/// Consuming ends of different queues, of which some are needed.
#[derive(Drop)]
pub struct Intakes {
    pub ends: Vec<Intake>,
}

impl Intakes {
    /// How many ends there are.
    pub fn len(&self) -> usize
        ensures len { result ≡ length (intake_queues self.now) }
        ensures small { result < 2 ^ 63 }
    {
        self.ends.len()
    }

    /// Makes the next call of the end at place `k`.
    #[inline(always)]
    pub fn step<W: Wires>(
        &mut self,
        wires: &mut W,
        k: usize,
        need: bool,
    ) -> (Event, Option<(Item, Body)>)
        requires fits { FitsIntakes (W.ends wires.old) self.old }
        requires there { k < length (intake_queues self.old) }
        ensures queues { intake_queues self.new ≡ intake_queues self.old }
        ensures on { slice_get (intake_queues self.old) k ≡ Some result.0.queue }
        ensures role { role_of result.0.op ≡ Consumer }
        ensures did { W.did wires.old (deed_of result.0 result.1) wires.new }
        ensures moves { Moves (W.ends wires.old) result.0 (W.ends wires.new) }
        ensures fits { FitsIntakes (W.ends wires.new) self.new }
        ensures taken { IsSome result.1 ↔ (result.0.op ≡ Op.Take) }
        ensures needed { IsSome result.1 → need ≡ true }
        ensures item { result.0.item ≡ option_map (λ c. c.0) result.1 }
        ensures takes { (n : ℕ) → taken_by (deed_of result.0 result.1) n
            ≡ if_there (result.0.queue.0 == n) (option_to_list result.1) }
        ensures puts { (n : ℕ) → put_by (deed_of result.0 result.1) n ≡ [] }
        ensures kind { IfSome result.1 (λ c. kind_of c.0
            ≡ (W.ends wires.old Consumer result.0.queue.0).kind) }
        ensures posted { PostedAt (intake_posts self.old) k need result.0 (intake_posts self.new) }
        ensures still { is_mark result.0.op result.0.answer ≡ false → result.1 ≡ None }
    {
        let end = &mut self.ends[k];
        end.step(wires, need)
    }

    /// Offers each end, the first of them at the place `base`; `needs` tells which are needed, by
    /// their places among these ends.
    #[inline(always)]
    pub fn offer<N: Needs>(&self, choice: Choice, base: usize, needs: &N) -> Choice
        requires { base + length (intake_queues self.now) ≤ choice.count }
        ensures { result ≡ offered_from choice base (intake_posts self.now)
            (needs_from (N.need needs.now) 0 (intake_queues self.now)) }
    {
        offer_each(&self.ends, choice, base, needs)
    }

    /// Counts each end that isn't settled, the first of them at the place `base`; `needs` tells
    /// which are needed, by their places among these ends.
    #[inline(always)]
    pub fn unsettled<N: Needs>(&self, lowest: Lowest, base: usize, needs: &N) -> Lowest
        requires { base + length (intake_queues self.now) < 2 ^ 64 }
        ensures { found result ≡ unsettled_from (found lowest) base (intake_posts self.now)
            (needs_from (N.need needs.now) 0 (intake_queues self.now)) }
    {
        unsettled_each(&self.ends, lowest, base, needs)
    }

    /// Whether all ends are settled.
    pub fn settled<N: Needs>(&self, needs: &N) -> bool
        ensures { result ≡ settled_all (intake_posts self.now)
            (needs_from (N.need needs.now) 0 (intake_queues self.now)) }
    {
        is_each_settled(&self.ends, needs)
    }
}
