//! Where the buffers of a pool are.

use crate::Text;

/// Where the buffers of a pool are. Each is counted once, and a lent one once, however many
/// receivers it has.
#[derive(Debug, Drop)]
pub struct Census {
    pub name: Text,
    pub buffers: u32,
    pub queues: u32,
    pub hands: u32,
    pub lent: u32,
}
