//! Buffers of others stay away from a hostile client: what goes round between it and those that
//! serve it are buffers of its own alone, in whatever order it gives them.

ghost use Rattle.std.specs.Prelude.{◌≡◌, ℕ, Some, List, slice_get};
ghost use Rattle.cargo_core.specs.declared.item.QueueKind.TheVariants as Kind;
ghost use Rattle.cargo_core.specs.Lists.{IsPrefix};
ghost use Rattle.wire_core.specs.declared.names.Event.{Event};
ghost use Rattle.wire_core.specs.declared.names.Op.TheVariants as Do;
ghost use Rattle.wire_core.specs.declared.names.QueueId.{QueueId};
ghost use Rattle.wire_core.specs.Deeds.{Deed};
ghost use Rattle.wire_core.specs.Lists.{Passed, nothing_passed, with_deed};
ghost use Rattle.turn_kit.specs.declared.pipe.Pipe.{Pipe};
ghost use Rattle.buffer_kit.specs.Conserving.{Count, counted, weighed};
ghost use Rattle.buffer_kit.specs.Pools.{page_bodies};
ghost use Rattle.net_copier.specs.declared.NetCopier.{NetCopier};
ghost use Rattle.net_virt_tx.specs.declared.NetVirtTx.{NetVirtTx};
ghost use Rattle.net_virt_tx.specs.declared.client.Client.{Client};
ghost use Rattle.blk_virt.specs.declared.client.Client.{Client as Asker};
ghost use Rattle.blk_virt.specs.declared.virtualiser.BlkVirt.{BlkVirt};
ghost use Rattle.client_programs.specs.declared.rogue.Rogue.{Rogue};
ghost use Rattle.client_programs.specs.Rogue.Acts.{Follows, Left};
ghost use Rattle.client_programs.specs.Rogue.Clients.{RogueStandsFor, numbers};
ghost use Rattle.wired_law.specs.PageLaw.Paths.{IsWay};
ghost use Rattle.wired_law.specs.PageLaw.WildPages.Rounds.{IsAnswered, IsClosed, IsServed, Spares, blk_queues};
ghost use Rattle.wired_law.specs.PageLaw.WildPages.Rounds.{IsMove, put_there, queues_of};

/// Where nobody puts to some queues what he has from elsewhere, nothing comes there from elsewhere:
/// of what none was put there, none is after a call more. Then a hostile client that takes from
/// such queues alone, and had none at the start, keeps none.
pub fn round_law()
    ensures starts { (f : Count) (queues : List ℕ) → put_there f nothing_passed queues ≡ 0 }
    ensures goes_on { (f : Count) (queues : List ℕ) (passed : Passed) (d : Deed)
        → ((n : ℕ) → IsPrefix (passed.taken n) (passed.sent n))
        → IsClosed f queues (with_deed passed d) → put_there f passed queues ≡ 0
        → put_there f (with_deed passed d) queues ≡ 0 }
    ensures keeps { (f : Count) (r : Rogue) (passed : Passed) → RogueStandsFor r passed
        → ((n : ℕ) → IsPrefix (passed.taken n) (passed.sent n))
        → counted f (page_bodies r.start.value.items) ≡ 0
        → put_there f passed (numbers r.inputs.items) ≡ 0 → counted f r.kept.items ≡ 0 }
{}

/// The queues between a hostile client of the network, its copier and the sending virtualiser are
/// closed for all that its own buffers don't weigh, whatever it puts there: the copier fills the
/// buffers that it gave, and the virtualiser gives back its bad entries as they came, and else what
/// came back from the driver for it, which are its own. Of the copier it is asked that leases are
/// no buffers.
pub fn network_law()
    ensures { (f : Count) (r : Rogue) (c : NetCopier) (v : NetVirtTx) (k : ℕ) (s : Client)
        (sends returns : QueueId) (down device up : Pipe) (passed : Passed)
        → IsServed r c v k s sends returns passed
        → IsWay down device up v.ends.input.queue.0 v.ends.output.queue.0 passed
        → weighed f (passed.taken c.lease_input.queue.0) ≡ 0
        → counted f (page_bodies r.start.value.items) ≡ 0 → Spares f s.sender.pool
        → IsClosed f (queues_of c sends returns) passed }
{
    crate::page_law::actors::network_law();
    crate::page_law::turns::turn_law();
}

/// So are the queues between a hostile client of the block class and its virtualiser, where it asks
/// for reads and writes alone: an answer brings the buffer of its request, and one that is sent on
/// has the client's own.
pub fn block_law()
    ensures { (f : Count) (r : Rogue) (v : BlkVirt) (k : ℕ) (c : Asker)
        (asks answers : QueueId) (passed : Passed) → IsAnswered r v k c asks answers passed
        → counted f (page_bodies r.start.value.items) ≡ 0 → Spares f c.holder.pool
        → IsClosed f (blk_queues asks answers) passed }
{}

/// A hostile client of the block class asks for writes alone.
pub fn ask_law()
    ensures { (ends : List QueueId) (left : Left) (calls : List Event) (k : ℕ) (e : Event)
        → Follows Kind.Req ends left calls → slice_get calls k ≡ Some e → e.op ≡ Do.Put
        → IsMove e.item }
{}
