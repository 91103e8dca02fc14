//! Pictures of a journal: a sequence chart, with a lane for each actor, an arrow from each put to its
//! take and marks for what is done to bells; how full each queue was; and where the buffers are.

mod arrows;
mod chart;
pub mod fill_picture;
mod lanes;
mod law;
mod legend;
mod pairs;
mod picture;
pub mod pool_picture;
mod words;

pub use law::pair_law;
pub use pairs::{Way, count, moves, place_of_nth};
pub use picture::{Cast, is_drawable, play_picture};
