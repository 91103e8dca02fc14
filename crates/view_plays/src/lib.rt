//! The viewing program: what its words decide, which texts they lead to, and plays, drawn. What is
//! played is what the main program plays for the same words.
#![tactic(auto)]

mod hosting;
pub mod play_view;
mod playing;
pub mod told_plays;
pub mod view_core;
mod viewing;

pub use hosting::plays_host;
pub use playing::{Reply, decide_play};
pub use viewing::{view_any, view_play};
