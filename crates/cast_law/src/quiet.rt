//! The network and the block class of a valid plan where nobody is runnable: their pools are as the
//! laws of a quiet network and a quiet block class ask, and so are the queues of a class that has
//! no hostile client.

ghost use Rattle.std.specs.Prelude.{◌≡◌, ℕ, false, Some, List};
ghost use Rattle.sdf_plan.specs.declared.plan.Plan.{Plan};
ghost use Rattle.sdf_plan.specs.declared.plan.Net.{Net};
ghost use Rattle.sdf_plan.specs.declared.plan.Blk.{Blk};
ghost use Rattle.sdf_check.specs.Valid.{Valid};
ghost use Rattle.trace_text.specs.declared.trace.Trace.{Trace};
ghost use Rattle.trace_text.specs.Events.{is_blk_rogue, is_net_rogue};
ghost use Rattle.region_layout.specs.Rows.{queues_of};
ghost use Rattle.net_quiet.specs.Still.{HasPools, HasRooms};
ghost use Rattle.blk_quiet.specs.Still.{HasClientPools, HasBlkRooms};
ghost use Rattle.actor_set.specs.Parts.{Part};
ghost use Rattle.actor_set.specs.Laws.Kinds.{hostiles};
ghost use Rattle.cast_core.specs.Casts.{net_place, blk_place};
ghost use Rattle.cast_law.specs.Jobs.{PlayJobs};

/// In a valid plan with a network class each of the network's pools has a buffer, no two clients
/// send in buffers at one address, and each queue can hold an entry, those on which buffers go back
/// all the buffers that may come to stand there. With a block class each of its clients has a pool
/// with a buffer, no two have buffers at one address, and each of its queues can hold an entry.
/// Where no client of a class is hostile, no queue of that class has a hostile end, whoever is
/// hostile in the others.
pub fn quiet_law()
    ensures pools { (plan : Plan) (trace : Trace) → Valid plan → (net : Net)
        → plan.net ≡ Some net → HasPools (net_place plan trace) }
    ensures rooms { (plan : Plan) (trace : Trace) (cast : List Part) → Valid plan → (net : Net)
        → plan.net ≡ Some net → PlayJobs plan trace cast → ((c : ℕ) → is_net_rogue plan c ≡ false)
        → HasRooms (hostiles cast) (queues_of plan) (net_place plan trace) }
    ensures blk_pools { (plan : Plan) (trace : Trace) → Valid plan → (blk : Blk)
        → plan.blk ≡ Some blk → HasClientPools (blk_place plan trace) }
    ensures blk_rooms { (plan : Plan) (trace : Trace) → Valid plan → (blk : Blk)
        → plan.blk ≡ Some blk → (cast : List Part) → PlayJobs plan trace cast
        → ((c : ℕ) → is_blk_rogue plan c ≡ false)
        → HasBlkRooms (hostiles cast) (queues_of plan) (blk_place plan trace) }
{}
