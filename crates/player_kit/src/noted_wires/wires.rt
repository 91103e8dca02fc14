//! Queues as they are, with the name of what was put last where names are kept.
ghost use Rattle.std.specs.Prelude.{◌≡◌, ◌<◌, ℕ, Bool, None, Option, length};
ghost use Rattle.std.specs.Option.{option_to_list};
ghost use Rattle.wire_core.specs.Deeds.{Deed, cargo_of};
ghost use Rattle.wire_core.specs.Lists.{if_put};
ghost use Rattle.wire_core.specs.Queues.{end_at};
ghost use Rattle.play_core.specs.Names.{Name, Wild, notes_of};
ghost use Rattle.player_kit.specs.Calls.Noting.{NotedHappens, kept_at, last_put, notes_in};
ghost use Rattle.player_kit.specs.Calls.Wildness.{stays};

use crate::noted_wires::names::{Tag, name_of};
use cargo_core::{Body, Item, Word};
use plain_wires::World;
use wire_core::{QueueId, Side, WildWires, Wires};

/// All queues of a system. `kept` says of each whether names of its entries are kept, and of those
/// behind its end that none are; `last` is the name of what was put last to one of which they are.
/// Each call is that of the queues: where no names are kept a put costs one comparison more.
#[derive(Drop)]
pub struct NotedWires {
    pub world: World,
    pub kept: Vec<bool>,
    pub last: Option<Option<Tag>>,
}

// Whether names of a queue's entries are kept.
#[inline(always)]
fn is_kept(kept: &[bool], q: QueueId) -> bool
    ensures { result ≡ kept_at kept.now q.0 }
{
    let place = q.0 as usize;
    place < kept.len() && kept[place]
}

impl Wires for NotedWires {
    ghost ends = { λ w. end_at w.world };

    ghost did = { λ old d new. NotedHappens old d new };

    #[inline(always)]
    fn see(&mut self, q: QueueId) -> bool {
        self.world.see(q)
    }

    #[inline(always)]
    fn room(&mut self, q: QueueId) -> bool {
        self.world.room(q)
    }

    #[inline(always)]
    fn take(&mut self, q: QueueId) -> (Item, Body) {
        self.world.take(q)
    }

    #[inline(always)]
    fn put(&mut self, q: QueueId, item: Item, body: Body) {
        if is_kept(&self.kept, q) {
            self.last = Some(name_of(&body));
        }
        self.world.put(q, item, body);
    }

    #[inline(always)]
    fn ask(&mut self, q: QueueId, side: Side) {
        self.world.ask(q, side);
    }

    #[inline(always)]
    fn waive(&mut self, q: QueueId, side: Side) {
        self.world.waive(q, side);
    }

    #[inline(always)]
    fn wake(&mut self, q: QueueId, side: Side) -> bool {
        self.world.wake(q, side)
    }

    #[inline(always)]
    fn wanted(&mut self, q: QueueId, side: Side) -> bool {
        self.world.wanted(q, side)
    }

    #[inline(always)]
    fn settle(&mut self, q: QueueId, side: Side) {
        self.world.settle(q, side);
    }

    #[inline(always)]
    fn ring(&mut self, q: QueueId, side: Side) {
        self.world.ring(q, side);
    }
}

impl WildWires for NotedWires {
    ghost wild = { λ w n. n < length w.world };

    #[inline(always)]
    fn store(&mut self, q: QueueId, word: Word, value: u64) {
        self.world.store(q, word, value);
    }

    ghost stays = { stays };
}

/// What a call leaves as the last name, where none was there before, is the name that it adds to
/// those that are kept.
pub fn last_law()
    ensures { (wild : Wild) (d : Deed) (last : Option Name)
        → last ≡ last_put (wild d.event.queue.0) (if_put d.event.op (cargo_of d)) None
        → notes_in d.event.queue.0 last ≡ notes_of wild d }
{}
