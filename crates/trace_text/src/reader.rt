//! What the lines of a trace gave so far. Each sort of line has a file of its own, which adds to
//! it.
ghost use Rattle.std.specs.Prelude.{◌≡◌, ◌==◌, ◌&&◌, [], is_some, IfOk};
ghost use Rattle.trace_text.specs.Reading.{reader_after};

use crate::clients::{blk_client_count, net_client_count, serial_client_count};
use crate::trace::Trace;
use cargo_core::{Bytes, FrameLog, Memory};
use line_text::{no_bytes, no_frames, no_items};
use sdf_plan::Plan;
use std::alloc::Global;

/// The most `rx` and `send` lines together, the most `blk` lines, and the most `rogue` lines.
pub const LINES: u64 = 1024;

// What the lines so far gave, and how much of each limit they used.
#[derive(Drop)]
pub struct Reader {
    pub trace: Trace,
    pub frame_lines: u64,
    pub stream_bytes: u64,
    pub request_lines: u64,
    pub rogue_lines: u64,
    pub disk_lines: u64,
}

impl Reader {
    // The reader before the first line.
    #[tactic(auto, unfolding(crate::specs::Traces::trace_from))]
    pub fn new(alloc: Global, plan: &Plan) -> Result<Reader, Memory>
        ensures { IfOk result (λ r. r ≡ reader_after plan.now []) }
    {
        Ok(Reader {
            trace: Trace {
                frames: FrameLog::new(alloc),
                input: Bytes::new(alloc),
                sends: no_frames(alloc, net_client_count(plan))?,
                says: no_bytes(alloc, serial_client_count(plan))?,
                asks: no_items(alloc, blk_client_count(plan))?,
                image: Bytes::new(alloc),
                net_acts: no_items(alloc, net_client_count(plan))?,
                serial_acts: no_items(alloc, serial_client_count(plan))?,
                blk_acts: no_items(alloc, blk_client_count(plan))?,
            },
            frame_lines: 0,
            stream_bytes: 0,
            request_lines: 0,
            rogue_lines: 0,
            disk_lines: 0,
        })
    }

    // Whether a disk is wanted, and no line gave it.
    pub fn lacks_disk(&self, plan: &Plan) -> bool
        ensures { result ≡ (is_some plan.now.blk && self.now.disk_lines == 0) }
    {
        plan.blk.is_some() && self.disk_lines == 0
    }
}
