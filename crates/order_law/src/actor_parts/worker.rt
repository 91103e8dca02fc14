//! An actor at work apart from its system.

ghost use Rattle.std.specs.Prelude.{◌≡◌, IfOk, IfErr, OnErr, Some, None, true};
ghost use Rattle.wire_core.specs.Lists.{Stepped};
ghost use Rattle.actor_set.specs.Actors.{FitsActor, ActorStandsFor, ActorTurned, IsActorCall};
ghost use Rattle.actor_set.specs.Actors.{MayStep};
ghost use Rattle.actor_set.specs.Actors.{actor_rests, part_of, record_length};
ghost use Rattle.actor_set.specs.Laws.Kinds.{manner_of};
ghost use Rattle.play_core.specs.Manners.{is_hostile};
ghost use Rattle.order_law.specs.Tales.{is_waiting};

use actor_set::Actor;
use actor_set::laws::turn_law;
use cargo_core::Memory;
use turn_kit::event_place;
use wire_core::{Event, WildWires};

/// An actor at work apart from its system. It is stepped by its own call alone, which keeps the
/// want of memory that a step met; nothing takes that back. It is made where a system is taken
/// apart, and lets its actor go where the rings come to their end.
#[derive(Drop)]
pub struct Worker {
    pub(crate) actor: Actor,
    pub(crate) wanted: Option<Memory>,
}

impl Worker {
    // None of its steps was made yet.
    pub(crate) fn alone(actor: Actor) -> Worker
        ensures actor { result.actor ≡ actor }
        ensures wanted { result.wanted ≡ None }
    {
        Worker {
            actor,
            wanted: None,
        }
    }

    /// Whether its actor is hostile.
    pub fn is_hostile(&self) -> bool
        ensures { result ≡ is_hostile (manner_of (part_of self.now.actor)) }
    {
        self.actor.is_hostile()
    }

    // The actor goes back to a system.
    pub(crate) fn into_actor(self) -> Actor
        ensures { result ≡ self.actor }
    {
        let Worker { actor, wanted: _ } = self;
        actor
    }

    /// Whether nothing is to be done before a notification comes.
    pub fn at_rest(&self) -> bool
        ensures { result ≡ actor_rests self.now.actor }
    {
        self.actor.at_rest()
    }

    /// The length of a client's record, and 0 for an actor of another kind.
    pub fn recorded(&self) -> u64
        ensures { result ≡ record_length self.now.actor }
    {
        self.actor.recorded()
    }

    /// The want of memory that a step met, if one did.
    pub fn wanted(&self) -> Option<Memory>
        ensures { result ≡ self.now.wanted }
    {
        self.wanted
    }

    /// Makes one call on one of its ends; a hostile client, which makes none at rest, may store a
    /// word of one of its queues. At rest it only looks whether a notification is pending there, or
    /// waives one. After want of memory no call was made, the actor is as it was, and no
    /// further step may be made.
    pub fn step<W: WildWires>(&mut self, wires: &mut W) -> Result<Event, Memory>
        requires fits { FitsActor (W.ends wires.old) self.old.actor }
        requires may { MayStep (W.wild wires.old) self.old.actor }
        requires fine { self.old.wanted ≡ None }
        ensures fits { FitsActor (W.ends wires.new) self.new.actor }
        ensures own { IfOk result (λ e. IsActorCall self.old.actor e) }
        ensures part { part_of self.new.actor ≡ part_of self.old.actor }
        ensures turned { IfOk result (λ e. ActorTurned self.old.actor e self.new.actor) }
        ensures stepped { IfOk result (λ e. Stepped ActorStandsFor W.did wires.old wires.new
            self.old.actor self.new.actor e) }
        ensures due { IfOk result
            (λ e. actor_rests self.old.actor ≡ true → is_waiting e.op ≡ true) }
        ensures fine { IfOk result (λ e. self.new.wanted ≡ None) }
        ensures wanted { IfErr result (λ m. self.new.wanted ≡ Some m) }
        ensures no_call { OnErr result (wires.new ≡ wires.old) }
        ensures unchanged { OnErr result (self.new.actor ≡ self.old.actor) }
    {
        turn_law();
        let mut event = event_place();
        match self.actor.step(wires, &mut event) {
            Ok(()) => Ok(event),
            Err(memory) => {
                self.wanted = Some(memory);
                Err(memory)
            }
        }
    }
}
