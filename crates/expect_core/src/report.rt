//! What a play shows, as a value: the system fills it, and the printer reads it.

use cargo_core::{Bytes, Census, FrameLog, Reply, Series};

/// What a play shows: how it ended, what the wire, the serial line and each client got, and where
/// the buffers are. The lists of clients are empty, and `wire` and `line` are `None`, where the
/// description lacks the class.
#[derive(Debug, Drop)]
pub struct Report {
    /// Whether no actor is runnable.
    pub quiet: bool,
    /// How many steps the journal has.
    pub steps: u64,
    /// The frames that the Ethernet device sent.
    pub wire: Option<FrameLog>,
    /// The frames that each network client recorded.
    pub net: Series<FrameLog>,
    /// The bytes that the UART sent.
    pub line: Option<Bytes>,
    /// The bytes that each serial client recorded.
    pub serial: Series<Bytes>,
    /// The responses that each block client recorded.
    pub blk: Series<Series<Reply>>,
    /// The places of the buffers, pool by pool.
    pub pools: Series<Census>,
    /// The descriptors and requests that the virtualisers counted as bad.
    pub bad: u64,
}
