//! The queues of a system, which tell the name of what was put last to one of those of which names
//! are kept: the page that the entry carries, by its pool and its number there.

mod names;
mod wires;

pub use names::{Noted, Tag};
pub use wires::{NotedWires, last_law};
