//! The pictures of a plan and of a play: the layout as a picture or a graph, a chart of a play's
//! steps, how full each queue was, and where the buffers are.
#![tactic(auto)]

pub mod layout_view;
pub mod play_picture;

pub use layout_view::{draw_graph, draw_layout, picture};
pub use play_picture::Cast;
