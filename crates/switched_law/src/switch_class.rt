//! The actors of a switch's system as one type: the network clients and the switch between them,
//! as one player plays them; and the queues between them. The class is this project's own.

mod actors;
mod member;
mod queues;

pub use actors::{BUFFERS, SIZE, switch_actors};
pub use member::Member;
pub use queues::{CAPACITY, switch_queues};
