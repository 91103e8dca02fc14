//! What the elements of the classes use: roles, queues and pools, one row each, as the tables of
//! queues and pools say. The rules on classes and the layout are read off these rows.

mod blk;
mod classes;
mod law;
mod net;
mod role;
mod rows;
mod serial;
mod sizes;
mod table;
mod uses;

pub use classes::{Classes, nth};
pub use law::table_law;
pub use role::{Role, is_program_of};
pub use sizes::{pool_bytes, queue_end, queue_offset};
pub use table::{classes_of, classes_of_few};
pub use uses::{ClassElement, Ends, Grant, Link, PoolUse, QueueUse, RoleUse, UseName};
