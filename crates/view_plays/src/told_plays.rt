//! Plays that tell how far they are: a play is made in slices, and a line of progress is written
//! between two of them.

mod progress;

pub use progress::played_told;
