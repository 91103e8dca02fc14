//! A picture of where the buffers of pools are: a bar for each pool.

mod picture;
mod rows;

pub use picture::pool_picture;
