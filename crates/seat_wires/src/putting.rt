//! A put at a time that is picked by what is known of all ends of an actor.
ghost use Rattle.std.specs.Prelude.{◌≡◌, [], ◌∷◌, ◌++◌};
ghost use Rattle.cargo_core.specs.Items.{kind_of};
ghost use Rattle.wire_core.specs.Ends.{Condition};
ghost use Rattle.spsc_queue.specs.Steps.{EndDid, known_end};

use crate::seats::Seats;
use cargo_core::{Body, Item};
use spsc_queue::{Clock, Producer, Ring};
use std::snapshot::Snapshot;
use wire_core::{Answer, Op};

// Puts an entry at the time that the caller picks, who may go by what the ends know.
pub(crate) fn put_at<C: Clock>(
    end: &mut Producer,
    ring: &Ring,
    item: Item,
    body: Body,
    known: Snapshot<Seats<'_>>,
)
    requires own { end.old.ring ≡ ring.now.id }
    requires condition { Condition (known_end end.old.knows) Op.Put }
    requires kind { kind_of item ≡ end.old.knows.kind }
    ensures own { end.new.ring ≡ end.old.ring }
    ensures did { EndDid end.old.ring.slots end.old.knows Op.Put Answer.Done
        ((item, body) ∷ []) end.new.knows }
    ensures time { end.new.knows.times ≡ end.old.knows.times ++ C.time ∷ [] }
{
    drop(known);
    end.put::<C>(ring, item, body);
}
