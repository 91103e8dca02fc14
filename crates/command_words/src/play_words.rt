//! The words by which a play is drawn: `play` or `html`, two names, and options, each at most once,
//! in any order. What they play is what the main program plays for the same words.

mod ask;
mod options;

pub use ask::{Drawing, main_words, read_drawing};
pub use options::{Name, Setting, number_of};
