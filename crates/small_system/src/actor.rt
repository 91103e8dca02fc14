//! An actor of any kind.
ghost use Rattle.std.specs.Prelude.{◌≡◌, ℕ, OnOk, OnErr};
ghost use Rattle.wire_core.specs.Queues.{end_at};
ghost use Rattle.turn_kit.specs.Turns.{is_at_rest};
ghost use Rattle.small_system.specs.Meanings.{Means, IsFit, Acts, Lawful};

use cargo_core::Memory;
use plain_wires::World;
use wire_core::Event;

/// An actor of any kind, which takes its ends in turn. Its meanings are in one record: what it is
/// made of, its ends, what it stands for, and how its ends stand.
pub trait SmallActor: Drop {
    /// What the actor means.
    ghost means: { Means Self };

    /// One call on one of its ends, which is its next turn, and which `event` tells then. After
    /// want of memory no call was made, and nothing else changed.
    fn step(&mut self, world: &mut World, event: &mut Event) -> Result<(), Memory>
        requires { means.Fits (end_at world.old) self.old }
        ensures fits { means.Fits (end_at world.new) self.new }
        ensures acts { OnOk result (Acts means world.old world.new self.old self.new event.new) }
        ensures no_call { OnErr result (world.new ≡ world.old) }
        ensures unchanged { OnErr result (self.new ≡ self.old) };

    /// Whether nothing is to be done before a notification comes.
    fn at_rest(&self) -> bool
        requires { IsFit means self.now }
        ensures { result ≡ is_at_rest (means.round self.now) };

    /// The laws of these meanings.
    ghost lawful: { Lawful means };
}
