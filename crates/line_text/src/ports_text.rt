//! The text of the ports of a switch: their addresses and the frames that each of them sends, one
//! line each, and how such a text is read. And what a play of the switch reports.

mod address;
mod line;
#[cfg(test)]
mod port_tests;
mod ports;
mod read;
mod reader;
mod report;

pub use ports::Ports;
pub use read::{PortFault, read_ports};
pub use report::PortReport;
