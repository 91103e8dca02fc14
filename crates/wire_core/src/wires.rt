//! The ten calls on the ends of queues, over which every actor is written.
ghost use Rattle.std.specs.Prelude.{◌≡◌, ℕ};
ghost use Rattle.cargo_core.specs.Items.{kind_of};
ghost use Rattle.wire_core.specs.Ends.{Role, Consumer, Producer, End, Allows, Moves, waiting_role};
ghost use Rattle.wire_core.specs.Ends.{ringing_role};
ghost use Rattle.wire_core.specs.Deeds.{Deed, look_deed, plain_deed, move_deed};

use crate::{Op, QueueId, Side};
use cargo_core::{Body, Item};

/// The calls on the ends of queues. Each is exactly one step, takes no memory and waits for nobody.
///
/// Of the signalling calls in sDDF's net queue header, `ask` stands for `net_request_signal_*` (a
/// notification is wanted), `waive` for `net_cancel_signal_*` (none is wanted) and `wanted` for
/// `net_require_signal_*` (is one wanted?). `ring` and `wake` are the Microkit's notify and the
/// notification that comes. `settle` is this project's own step, as are the flag's values, the
/// conditions and the effects of all ten.
pub trait Wires {
    /// What the owner of an end knows of it, by its role and the queue's place.
    ghost ends: { Self → Role → ℕ → End };

    /// This one call happened between the two, and no other of the caller's.
    ghost did: { Self → Deed → Self → Type 0 };

    /// Whether an entry stands in the queue. A no makes a waiter that asked clear.
    fn see(&mut self, q: QueueId) -> bool
        requires { Allows (ends self.old Consumer q.0) Op.See }
        ensures did { did self.old (look_deed q Op.See result) self.new }
        ensures ends { Moves (ends self.old) (look_deed q Op.See result).event (ends self.new) };

    /// Whether the queue has room. A no makes a waiter that asked clear.
    fn room(&mut self, q: QueueId) -> bool
        requires { Allows (ends self.old Producer q.0) Op.Room }
        ensures did { did self.old (look_deed q Op.Room result) self.new }
        ensures ends { Moves (ends self.old) (look_deed q Op.Room result).event (ends self.new) };

    /// Takes the first entry; its item has the queue's kind. The last look must have answered yes,
    /// and is then used.
    fn take(&mut self, q: QueueId) -> (Item, Body)
        requires { Allows (ends self.old Consumer q.0) Op.Take }
        ensures did { did self.old (move_deed q Op.Take result) self.new }
        ensures ends { Moves (ends self.old) (move_deed q Op.Take result).event (ends self.new) }
        ensures kind { kind_of result.0 ≡ (ends self.old Consumer q.0).kind };

    /// Puts an entry of the queue's kind behind the others. The last look must have answered yes,
    /// and is then used.
    fn put(&mut self, q: QueueId, item: Item, body: Body)
        requires may { Allows (ends self.old Producer q.0) Op.Put }
        requires kind { kind_of item ≡ (ends self.old Producer q.0).kind }
        ensures did { did self.old (move_deed q Op.Put (item, body)) self.new }
        ensures ends { Moves (ends self.old) (move_deed q Op.Put (item, body)).event
            (ends self.new) };

    /// Asks for a notification: the flag is 0.
    fn ask(&mut self, q: QueueId, side: Side)
        requires { Allows (ends self.old (waiting_role side) q.0) (Op.Ask side) }
        ensures did { did self.old (plain_deed q (Op.Ask side)) self.new }
        ensures ends { Moves (ends self.old) (plain_deed q (Op.Ask side)).event (ends self.new) };

    /// Wants no notification: the flag is 1.
    fn waive(&mut self, q: QueueId, side: Side)
        requires { Allows (ends self.old (waiting_role side) q.0) (Op.Waive side) }
        ensures did { did self.old (plain_deed q (Op.Waive side)) self.new }
        ensures ends { Moves (ends self.old) (plain_deed q (Op.Waive side)).event (ends self.new) };

    /// Whether a notification was pending; it is taken, and the waiter is busy.
    fn wake(&mut self, q: QueueId, side: Side) -> bool
        requires { Allows (ends self.old (waiting_role side) q.0) (Op.Wake side) }
        ensures did { did self.old (look_deed q (Op.Wake side) result) self.new }
        ensures ends { Moves (ends self.old) (look_deed q (Op.Wake side) result).event
            (ends self.new) };

    /// Whether the waiter wants a notification, by the flag.
    fn wanted(&mut self, q: QueueId, side: Side) -> bool
        requires { Allows (ends self.old (ringing_role side) q.0) (Op.Wanted side) }
        ensures did { did self.old (look_deed q (Op.Wanted side) result) self.new }
        ensures ends { Moves (ends self.old) (look_deed q (Op.Wanted side) result).event
            (ends self.new) };

    /// Takes the wish back before it is met, so that it is met once: the flag is 1.
    fn settle(&mut self, q: QueueId, side: Side)
        requires { Allows (ends self.old (ringing_role side) q.0) (Op.Settle side) }
        ensures did { did self.old (plain_deed q (Op.Settle side)) self.new }
        ensures ends { Moves (ends self.old) (plain_deed q (Op.Settle side)).event
            (ends self.new) };

    /// Notifies the waiter: a notification is pending.
    fn ring(&mut self, q: QueueId, side: Side)
        requires { Allows (ends self.old (ringing_role side) q.0) (Op.Ring side) }
        ensures did { did self.old (plain_deed q (Op.Ring side)) self.new }
        ensures ends { Moves (ends self.old) (plain_deed q (Op.Ring side)).event (ends self.new) };
}
