//! A picture of how full the queues are over the steps of a journal.

mod fills;
mod picture;
mod queue;

pub use picture::fill_picture;
