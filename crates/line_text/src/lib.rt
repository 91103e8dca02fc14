//! The words of a line of a text: where a text is cut, numbers in decimal digits, DATA in
//! hexadecimal ones, and lists that have one entry for each client. The readers of traces and of
//! other texts stand on it; that of a switch's ports is here.
#![tactic(auto)]

mod data;
mod lists;
mod number;
pub mod ports_text;
mod text;

pub use data::read_data;
pub use lists::{add_bytes, add_frame, add_item, no_bytes, no_frames, no_items};
pub use number::{read_below, read_between, read_number};
pub use ports_text::{PortFault, PortReport, Ports, read_ports};
pub use text::{is_skipped, next_line, same_text, split_once};
