//! What a play of a bus reports.

use cargo_core::{Bytes, Census, Series};
use wire_core::Entry;

/// How a request ended.
#[derive(Clone, Copy, Debug, PartialEq, Eq)]
pub enum BusStatus {
    Ok,
    /// The address that was to be claimed is another client's.
    Taken,
    /// The address isn't the client's.
    Unclaimed,
    /// No device has the address.
    NoAck,
}

/// The answer to a request. `bytes` is empty but for a read that went well.
#[derive(Debug, Drop)]
pub struct BusReply {
    pub status: BusStatus,
    pub bytes: Bytes,
}

/// What a play comes to: whether it is quiet, how many steps it took, the replies of each client,
/// where the buffers of each client's pool are, and the journal.
#[derive(Debug, Drop)]
pub struct BusReport {
    pub quiet: bool,
    pub steps: u64,
    pub replies: Series<Series<BusReply>>,
    pub pools: Series<Census>,
    pub journal: Series<Entry>,
}
