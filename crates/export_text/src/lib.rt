//! A plan in the words of others: the Microkit's own system file, its elements by the names and
//! defaults of the manual, with a law by which the file gives back what the plan has of them; and a
//! header in C with the numbers of queues and buffers.
#![tactic(auto)]

mod attribute;
pub mod config_text;
mod domain;
mod law;
mod number;
mod part;
mod symbol;
mod system;

pub use config_text::{Rows, write_config};
pub use law::file_law;
pub use symbol::first_bad_symbol;
pub use system::write_system;
