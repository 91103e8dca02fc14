//! The workload that `gen` plays: a description, a trace for it that a number generates, and the law
//! that both are accepted, as a user's own would be. Both are this project's own.
#![tactic(auto)]

mod description;
mod draws;
mod frames;
mod generated;
mod requests;
mod streams;
pub mod workload_law;

pub use description::FULL_EXAMPLE;
pub use generated::generate;
