//! Judging a description that was read: the rules on its names, numbers, ranges and ids.
//!
//! An example of its calls: `crates/plan_rows/src/examples/description.rt`.
#![tactic(auto)]

mod class;
mod class_ids;
mod counts;
mod frames;
mod judge;
mod judging;
mod keys;
mod names;
mod numbers;
mod repeats;
mod rows;
mod sizes;
mod sought;
mod sweep;
mod tables;
mod uses;

pub use judging::check;
