//! The layout of a valid plan, as a picture in SVG and as a graph in DOT: what each box, arrow, bar
//! and label is, and how they look.

mod drawing;
pub mod layout_picture;
pub mod picture_style;

pub use drawing::{draw_graph, draw_layout, picture};
pub use picture_style::{PAGE_END, PAGE_FRONT};
