//! The actors of a bus that clients share by claims, as one type: the clients, the virtualiser, the
//! driver and the bus itself; the queues between them; and how all of them are made.

mod cast;
mod member;
mod queues;

pub use cast::bus_members;
pub use member::Member;
pub use queues::{CLIENT_CAPACITY, SHARED_CAPACITY, bus_queues};
