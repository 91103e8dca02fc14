//! What a switch holds of its ports: of each port one frame at most, to which ports a copy of it is
//! still owed, and the copy that is to be put next. That a frame goes to the station of its
//! destination, and to all where that is the address of all stations, is Ethernet's; in what order
//! copies are made is this project's own.

mod desk;
mod order;
mod slot;

pub use desk::{Desk, Loaded, Returning, Taking, Wanting, back_law};
pub use order::Order;
pub use slot::Slot;
