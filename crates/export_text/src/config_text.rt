//! What a system has that the Microkit's system file has no place for, as a header of C: classes,
//! queues, pools and buffers, and the ids of regions and channels by domain, one constant each.

mod class;
mod code;
mod config;
mod domain;
mod law;
mod line;
mod row;

pub use code::push_code;
pub use config::{Rows, write_config};
pub use law::code_law;
