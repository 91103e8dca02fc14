//! The text of a bus that clients share: its clients, its devices and what each client asks for,
//! one line each, and how such a text is read. And what a play of it reports.
#![tactic(auto)]

mod bus;
mod hexadecimal;
mod line;
mod read;
mod reader;
mod report;

pub use bus::{Bus, BusAsk};
pub use read::{BusFault, read_bus};
pub use report::{BusReply, BusReport, BusStatus};
