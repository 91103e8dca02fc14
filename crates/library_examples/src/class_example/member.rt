//! The actors of the class, of both kinds.
ghost use Rattle.library_examples.specs.ClassExample.Members.{member_means};
ghost use Rattle.library_examples.specs.ClassExample.MemberLaws.{member_lawful};

use crate::class_example::joiner::Joiner;
use crate::class_example::source::Source;
use cargo_core::Memory;
use plain_wires::World;
use small_system::SmallActor;
use wire_core::Event;

/// An actor of the class.
#[derive(Drop)]
pub enum Member {
    Source(Source),
    Joiner(Joiner),
}

impl SmallActor for Member {
    ghost means = { member_means };

    fn step(&mut self, world: &mut World, event: &mut Event) -> Result<(), Memory> {
        match self {
            Member::Source(source) => *event = source.step(world),
            Member::Joiner(joiner) => *event = joiner.step(world)?,
        }
        Ok(())
    }

    fn at_rest(&self) -> bool {
        match self {
            Member::Source(source) => source.at_rest(),
            Member::Joiner(joiner) => joiner.at_rest(),
        }
    }

    ghost lawful = { member_lawful };
}
