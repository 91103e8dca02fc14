//! The texts that the program prints.
//!
//! An example of its calls: `crates/plan_rows/src/examples/report.rt`.
#![tactic(auto)]

mod answers;
mod journal;
mod layout;
mod place;
mod report;
mod summary;

pub use answers::{write_accepted, write_bad_trace, write_refused, write_too_long, write_usage};
pub use journal::write_journal;
pub use layout::write_layout;
pub use place::write_place;
pub use report::{add_frames, add_head, add_pools, write_report};
pub use summary::write_summary;
