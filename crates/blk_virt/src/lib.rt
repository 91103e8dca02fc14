//! The block virtualiser. It reads the disk's partitions with its own buffer, and then serves its
//! clients: it judges each request, answers those that it refuses, sends the others on to the disk,
//! and gives each response to the client whose request it answers. That the class has such a
//! virtualiser is sDDF's; its turns are this project's own.
#![tactic(auto)]

mod client;
mod desk;
mod line;
mod opening;
mod requests;
mod virtualiser;
mod work;

pub use client::{Client, Current};
pub use desk::{Desk, serve_law};
pub use line::Line;
pub use opening::{Block, Opening};
pub use requests::{
    Holder, PageName, brings, moves_blocks, numbered, page_named, passed_on, request_of,
    response_of,
};
pub use virtualiser::{BlkEnds, BlkVirt, hand_law, row_law};
pub use work::{Giving, Wanting, Work};
