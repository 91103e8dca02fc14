//! Several producing ends of one actor.

ghost use Rattle.std.specs.Prelude.{◌≡◌, ◌==◌, ◌↔◌, ◌<◌, ◌≤◌, ◌+◌, ◌++◌, ◌^◌, ℕ, [], Some, None};
ghost use Rattle.std.specs.Prelude.{true, false, IsSome, length, is_some, slice_get};
ghost use Rattle.std.specs.Option.{ForSome, option_map, option_to_list};
ghost use Rattle.cargo_core.specs.Items.{kind_of};
ghost use Rattle.wire_core.specs.Deeds.{deed_of, put_of};
ghost use Rattle.wire_core.specs.Lists.{taken_by, put_by, if_there};
ghost use Rattle.wire_core.specs.Ends.{Moves, Producer, role_of};
ghost use Rattle.turn_kit.specs.ManyEnds.{FitsOutlets, outlet_queues, outlet_posts, needs_from};
ghost use Rattle.wire_core.specs.Marks.{is_mark};
ghost use Rattle.turn_kit.specs.Lowests.{found};
ghost use Rattle.turn_kit.specs.Turns.{PostedAt, offered_from, settled_all, unsettled_from};

use crate::each::{is_each_settled, offer_each, unsettled_each};
use crate::{Choice, Lowest, Needs, Outlet};
use cargo_core::{Body, Item};
use wire_core::{Event, Op, QueueId, Wires};

/// Producing ends of different queues, of which some are loaded.
#[derive(Drop)]
pub struct Outlets {
    pub ends: Vec<Outlet>,
}

impl Outlets {
    /// How many ends there are.
    pub fn len(&self) -> usize
        ensures len { result ≡ length (outlet_queues self.now) }
        ensures small { result < 2 ^ 63 }
    {
        self.ends.len()
    }

    /// Makes the next call of the end at place `k`, which puts its load.
    #[inline(always)]
    pub fn step<W: Wires>(
        &mut self,
        wires: &mut W,
        k: usize,
        load: &mut Option<(Item, Body)>,
    ) -> Event
        requires fits { FitsOutlets (W.ends wires.old) self.old }
        requires there { k < length (outlet_queues self.old) }
        requires kind { ForSome load.old (λ c. (q : QueueId)
            → slice_get (outlet_queues self.old) k ≡ Some q
            → kind_of c.0 ≡ (W.ends wires.old Producer q.0).kind) }
        ensures queues { outlet_queues self.new ≡ outlet_queues self.old }
        ensures on { slice_get (outlet_queues self.old) k ≡ Some result.queue }
        ensures role { role_of result.op ≡ Producer }
        ensures did { W.did wires.old (deed_of result (put_of result load.old)) wires.new }
        ensures moves { Moves (W.ends wires.old) result (W.ends wires.new) }
        ensures fits { FitsOutlets (W.ends wires.new) self.new }
        ensures load { option_to_list load.old ≡ option_to_list (put_of result load.old)
            ++ option_to_list load.new }
        ensures takes { (n : ℕ) → taken_by (deed_of result (put_of result load.old)) n ≡ [] }
        ensures puts { (n : ℕ) → put_by (deed_of result (put_of result load.old)) n
            ≡ if_there (result.queue.0 == n) (option_to_list (put_of result load.old)) }
        ensures item { result.item ≡ option_map (λ c. c.0) (put_of result load.old) }
        ensures put { IsSome result.item ↔ (result.op ≡ Op.Put) }
        ensures posted { PostedAt (outlet_posts self.old) k (is_some load.old) result
            (outlet_posts self.new) }
        ensures still { is_mark result.op result.answer ≡ false → load.new ≡ load.old }
    {
        let end = &mut self.ends[k];
        end.step(wires, load)
    }

    /// Offers each end, the first of them at the place `base`; `loads` tells which are loaded, by
    /// their places among these ends.
    #[inline(always)]
    pub fn offer<N: Needs>(&self, choice: Choice, base: usize, loads: &N) -> Choice
        requires { base + length (outlet_queues self.now) ≤ choice.count }
        ensures { result ≡ offered_from choice base (outlet_posts self.now)
            (needs_from (N.need loads.now) 0 (outlet_queues self.now)) }
    {
        offer_each(&self.ends, choice, base, loads)
    }

    /// Counts each end that isn't settled, the first of them at the place `base`; `loads` tells
    /// which are loaded, by their places among these ends.
    #[inline(always)]
    pub fn unsettled<N: Needs>(&self, lowest: Lowest, base: usize, loads: &N) -> Lowest
        requires { base + length (outlet_queues self.now) < 2 ^ 64 }
        ensures { found result ≡ unsettled_from (found lowest) base (outlet_posts self.now)
            (needs_from (N.need loads.now) 0 (outlet_queues self.now)) }
    {
        unsettled_each(&self.ends, lowest, base, loads)
    }

    /// Whether all ends are settled.
    pub fn settled<N: Needs>(&self, loads: &N) -> bool
        ensures { result ≡ settled_all (outlet_posts self.now)
            (needs_from (N.need loads.now) 0 (outlet_queues self.now)) }
    {
        is_each_settled(&self.ends, loads)
    }
}
