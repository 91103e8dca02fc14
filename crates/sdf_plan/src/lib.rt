//! System descriptions as values: plans and their parts, the places of elements, the walk over
//! all of them, and the table of what the elements of each class use.
#![tactic(auto)]

pub mod class_table;
mod place;
mod places;
mod plan;

pub use class_table::{
    ClassElement, Classes, Ends, Grant, PoolUse, QueueUse, Role, RoleUse, UseName, classes_of,
    classes_of_few, is_program_of, nth, pool_bytes, queue_end, queue_offset,
};
pub use place::{Place, Refusal, SdfFault};
pub use places::places_of;
pub use plan::{
    Blk, BlkClient, Channel, Domain, End, Irq, Map, Net, NetClient, Plan, Policy, Region, Serial,
    SerialClient,
};
