//! An answer as a whole, before any of it is written.
use crate::view_core::ended::Ended;
use cargo_core::Bytes;

/// What the program answers.
#[derive(Drop)]
pub enum Answer {
    /// What was asked for, which goes to standard output.
    Show(Bytes),
    /// A status other than `Ok`, and its line, which goes to standard error.
    Refuse(Ended, String),
}
