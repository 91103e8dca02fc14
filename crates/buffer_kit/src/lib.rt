//! What the actors that hand on buffers share: what an entry of a network queue says and how its
//! buffer is filled, buffers that are given at the start and how many of some are of a pool, pipes
//! that record, the ends of virtualisers, and what virtualisers keep of their clients.
#![tactic(auto)]

mod clients;
mod entries;
mod pages;
mod recorder;
mod stock;
mod virt_ends;

pub use clients::{Served, bad_of_all, leaver};
pub use entries::{address, fill, frame, told_length};
pub use pages::pages_of;
pub use recorder::Recorder;
pub use stock::Stock;
pub use virt_ends::{BlkCargo, Carry, NetCargo, VirtEnd, VirtEnds};
