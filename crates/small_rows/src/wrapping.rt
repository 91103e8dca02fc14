//! The actors of the plans behind the trait of the player.
ghost use Rattle.std.specs.Prelude.{◌≡◌, true, IfOk};
ghost use Rattle.small_rows.specs.Wrappings.{wrapped_means, AreWrapped, AreWaiting, IsWaiting};
ghost use Rattle.small_rows.specs.WrappingLaws.{wrapped_lawful};

use actor_set::Actor;
use cargo_core::Memory;
use plain_wires::World;
use small_system::SmallActor;
use std::alloc::Global;
use wire_core::Event;

/// An actor in its wrapping.
#[derive(Drop)]
pub struct Wrapped {
    pub actor: Actor,
}

impl SmallActor for Wrapped {
    ghost means = { wrapped_means };

    #[inline(always)]
    fn step(&mut self, world: &mut World, event: &mut Event) -> Result<(), Memory> {
        self.actor.step(world, event)
    }

    #[inline(always)]
    fn at_rest(&self) -> bool {
        self.actor.at_rest()
    }

    ghost lawful = { wrapped_lawful };
}

/// Whether an actor drops nothing.
fn waits(actor: &Actor) -> bool
    ensures { result ≡ true → IsWaiting actor.now }
{
    match actor {
        Actor::SerialVirtRx(virt) => !virt.drops.contains(&true),
        Actor::EthDevice(device) => !device.drops,
        Actor::NetCopier(copier) => !copier.drops,
        _ => true,
    }
}

/// Whether none of these actors drops anything.
pub fn all_wait(actors: &[Actor]) -> bool
    ensures { result ≡ true → AreWaiting actors.now }
{
    for actor in actors {
        if !waits(actor) {
            return false;
        }
    }
    true
}

/// Puts each actor into its wrapping.
pub fn wrap(alloc: Global, actors: Vec<Actor>) -> Result<Vec<Wrapped>, Memory>
    ensures { IfOk result (λ wrapped. AreWrapped actors.items wrapped.items) }
{
    let mut wrapped = Vec::with_capacity(alloc, actors.len())?;
    for actor in actors {
        wrapped.push(Wrapped { actor })?;
    }
    Ok(wrapped)
}
