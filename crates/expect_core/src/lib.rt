//! What a play shows, how many steps are enough for it, and what its clients must get, as plain
//! functions.
#![tactic(auto)]

mod counts;
mod expected;
mod isolation;
mod report;

pub use cargo_core::Census;
pub use counts::{ClassCounts, budget};
pub use expected::{client_entry, frames_for, input_of, replies_of};
pub use isolation::isolation_law;
pub use report::Report;
