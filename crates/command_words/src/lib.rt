//! The words of the two programs: which commands they spell, which drawing of a play, and which
//! word is the first bad one.
#![tactic(auto)]

mod chosen;
mod command;
mod name;
mod number;
pub mod play_words;
mod words;

pub use chosen::number_at;
pub use command::{Command, MOST_STEPS, Options, Schedule};
pub use name::{is_word, word_at};
pub use play_words::{Drawing, Setting, main_words, number_of, read_drawing};
pub use words::{begins_run, read_names, read_words};
