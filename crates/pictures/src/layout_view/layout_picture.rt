//! The picture of a layout: who there is, the queues and channels between them, and the memory; as
//! shapes, and as a graph in DOT.

mod cards;
mod channels;
mod graph;
mod grid;
mod memory;
mod names;
mod owners;
mod picture;
mod queues;

pub use graph::write_graph;
pub use names::LayoutRows;
pub use picture::layout_picture;
