//! One player for actors of any kind: queues between actors that stand behind one trait, a play by
//! a seed, the one journal, and the tale of turns from which a class's own claims follow; and what
//! each class has of it that says what its actors keep in hand and want: owners, a bound, stillness.
#![tactic(auto)]

mod actor;
mod laws;
mod small;
pub mod small_law;

pub use actor::SmallActor;
pub use laws::tale_law;
pub use small::Small;
pub use small_law::{bound_law, keeper_law, still_law};
