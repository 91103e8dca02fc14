//! The system at play: the actors of a plan with the queues between them, and the one journal. How
//! it is built, stepped, taken apart and taken over, and what is seen of it, its pools among it.
//!
//! An example of its calls: `crates/system_rows/src/playing.rt`.
#![tactic(auto)]

mod crew;
mod crews;
mod isolation;
mod lines;
mod names;
mod records;
mod system;

pub use actor_set::Actor;
pub use crew::Crew;
pub use isolation::isolation_law;
pub use order_law::actor_parts::Parts;
pub use system::{Ending, System};
