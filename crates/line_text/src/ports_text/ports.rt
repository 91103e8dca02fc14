//! The ports of a switch, and what they send.

use cargo_core::{FrameLog, Series};
use frame_core::Mac;

/// The ports of a switch, each list in the order of the lines.
#[derive(Debug, Drop)]
pub struct Ports {
    /// The address of each port.
    pub macs: Series<Mac>,
    /// The frames that each port sends.
    pub sends: Series<FrameLog>,
}
