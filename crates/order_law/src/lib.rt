//! What actors do over rings, each in a thread of its own: how they are set apart and brought
//! together again, and what the rings leave. All that they did could have been done one call after
//! another: so all that single calls keep holds of what threads leave.
#![tactic(auto)]

ghost use Rattle.std.specs.Prelude.{◌≡◌, ℕ, List, map};
ghost use Rattle.cargo_core.specs.Lists.{IsPrefix};
ghost use Rattle.wire_core.specs.declared.names.Event.{Event};
ghost use Rattle.wire_core.specs.declared.names.QueueRow.{QueueRow};
ghost use Rattle.wire_core.specs.Lists.{Passed, nothing_passed};
ghost use Rattle.actor_set.specs.declared.actor.Actor.{Actor};
ghost use Rattle.order_law.specs.Orders.{Seated, Turn, HaveLooked, HaveRun, InOrder, actors_of};
ghost use Rattle.order_law.specs.Orders.{passed_by};

pub mod actor_parts;
pub mod ended;

pub use actor_parts::{
    Part, Parts, Worker, by_number, by_place, finish_apart, open_apart, opened_law,
};

/// Where actors began with nothing, each made its calls at its own ends, each put after all that
/// had passed at its ends, and rings handed over entries with the times at which they were put, the
/// calls stand in one order: each actor makes its own in turn, and after each call what was taken
/// at a queue is a beginning of what was put there. By these calls each end looked in vain as often
/// as it did since the actors began. What was put stays there.
pub fn order_law()
    ensures ordered { (rows : List QueueRow) (olds news : List Seated) → HaveRun rows olds news
        → (turns : List Turn) × (calls : List Event)
        × InOrder (actors_of olds) nothing_passed turns (actors_of news)
        (passed_by rows news calls) × HaveLooked rows olds news calls }
    ensures grows { (actors after : List Actor) (passed end : Passed) (turns : List Turn)
        → InOrder actors passed turns after end → (n : ℕ) → IsPrefix (passed.sent n) (end.sent n) }
{}
