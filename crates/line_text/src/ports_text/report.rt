//! What a play of a switch reports.

use cargo_core::{Census, FrameLog, Series};
use wire_core::Entry;

/// What a play comes to: whether it is quiet, how many steps it took, the frames that each port
/// recorded, where the buffers of each pool are, how many frames no port got, and the journal.
#[derive(Debug, Drop)]
pub struct PortReport {
    pub quiet: bool,
    pub steps: u64,
    pub records: Series<FrameLog>,
    pub pools: Series<Census>,
    pub lost: u64,
    pub journal: Series<Entry>,
}
