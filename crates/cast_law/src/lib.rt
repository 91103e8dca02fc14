//! The actors of a plan, made as the plan and a trace say. They stand where the layout seats them,
//! so a system can start with them. What holds of them then: of the network and the block class
//! where nobody is runnable, of their pools, of the lines that a report has of these and of each
//! buffer of these, of what comes in turn, and of what they leave after they were at work over
//! rings, each in a thread of its own.
#![tactic(auto)]

ghost use Rattle.std.specs.Prelude.{◌≡◌, ℕ, Some, None, List, map, slice_get};
ghost use Rattle.sdf_plan.specs.declared.plan.Plan.{Plan};
ghost use Rattle.sdf_plan.specs.declared.plan.Net.{Net};
ghost use Rattle.sdf_plan.specs.declared.plan.Blk.{Blk};
ghost use Rattle.sdf_check.specs.Valid.{Valid};
ghost use Rattle.trace_text.specs.declared.trace.Trace.{Trace};
ghost use Rattle.trace_text.specs.Traces.{IsReadFor};
ghost use Rattle.region_layout.specs.Rows.{pools_of, queues_of};
ghost use Rattle.actor_set.specs.Actors.{part_of};
ghost use Rattle.actor_set.specs.declared.actor.Actor.{Actor};
ghost use Rattle.actor_set.specs.Laws.Kinds.{AllCalm, scene_of};
ghost use Rattle.layout_laws.specs.Jobs.Jobs.{Job, HasJob};
ghost use Rattle.cast_core.specs.Casts.{blk_place, net_place, job_part, scene_for, AreCast};
ghost use Rattle.cast_core.specs.Hostile.{HasNoRogue};
ghost use Rattle.wired_law.specs.Wiring.{HasBlk, HasNoBlock, HasNoNetwork, HasWhole};
ghost use Rattle.cast_law.specs.Pools.Places.{IsPlaced, HasPools};
ghost use Rattle.cast_law.specs.Places.{pool_place};
ghost use Rattle.cast_law.specs.Seats.{AreSeated};

pub mod beside;
pub mod gone;
pub mod owners;
pub mod pages;
pub mod past_owners;
pub mod pool_lines;
pub mod pools;
pub mod quiet;
pub mod runs;
pub mod turns;

/// The actors of a valid plan have each the part of their jobs, and are seated at the layout's
/// queues. With a network class or a block class the cast has the whole class where the layout
/// places it, but for clients at whose queues a hostile actor stands. The scene is what the trace
/// gives the plan's classes. The classes with pools stand where the plan has them, no two pools of
/// the block class have an address in common, and their pools are those of the layout, by their
/// numbers and with their sizes. Where no client is hostile, no actor is.
pub fn cast_law()
    ensures seated { (plan : Plan) (trace : Trace) (actors : List Actor) → Valid plan
        → IsReadFor plan trace → AreCast plan trace actors → AreSeated (queues_of plan) actors }
    ensures calm { (plan : Plan) (trace : Trace) (actors : List Actor) → HasNoRogue plan
        → AreCast plan trace actors → AllCalm (map part_of actors) }
    ensures parts { (plan : Plan) (trace : Trace) (actors : List Actor) → Valid plan
        → AreCast plan trace actors → (job : Job) (k : ℕ) → HasJob plan job k
        → slice_get (map part_of actors) k ≡ job_part plan trace job }
    ensures whole { (plan : Plan) (trace : Trace) (actors : List Actor) → Valid plan
        → IsReadFor plan trace → AreCast plan trace actors → (net : Net) → plan.net ≡ Some net
        → HasWhole (queues_of plan) (net_place plan trace) (map part_of actors) }
    ensures scene { (plan : Plan) (trace : Trace) (actors : List Actor) → Valid plan
        → AreCast plan trace actors → scene_of (map part_of actors) ≡ scene_for plan trace }
    ensures pooled { (plan : Plan) (trace : Trace)
        → HasPools (pools_of plan) (pool_place plan trace) }
    ensures placed { (plan : Plan) (trace : Trace) (actors : List Actor) → Valid plan
        → IsReadFor plan trace → AreCast plan trace actors
        → IsPlaced (queues_of plan) (pool_place plan trace) (map part_of actors) }
    ensures no_network { (plan : Plan) (trace : Trace) (actors : List Actor) → Valid plan
        → AreCast plan trace actors → plan.net ≡ None → HasNoNetwork (map part_of actors) }
    ensures block { (plan : Plan) (trace : Trace) (actors : List Actor) → Valid plan
        → IsReadFor plan trace → AreCast plan trace actors → (blk : Blk) → plan.blk ≡ Some blk
        → HasBlk (queues_of plan) (blk_place plan trace) (map part_of actors) }
    ensures no_block { (plan : Plan) (trace : Trace) (actors : List Actor) → Valid plan
        → AreCast plan trace actors → plan.blk ≡ None → HasNoBlock (map part_of actors) }
{
    cast_core::calm_law();
}
