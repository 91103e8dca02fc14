//! System descriptions: how a text is read into a plan.
//!
//! An example of its calls: `crates/plan_rows/src/examples/description.rt`.
#![tactic(auto)]

mod element;
mod field;
mod key;
mod kind;
mod part;
mod read;
mod rules;
mod tree;

pub use read::{TEXT_MOST, read_description};
