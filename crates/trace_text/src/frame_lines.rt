//! The lines of frames: `rx` at the Ethernet device, `send` of a network client.
ghost use Rattle.std.specs.Prelude.{◌≡◌, IfOk};
ghost use Rattle.frame_core.specs.Frames.{is_frame_of};
ghost use Rattle.trace_text.specs.Events.{rx_line, send_line};
ghost use Rattle.trace_text.specs.Limits.{frame_most};
ghost use Rattle.trace_text.specs.Reading.{IsRead, HasLists};

use crate::clients::{is_source, net_client_count};
use crate::reader::{LINES, Reader};
use cargo_core::Memory;
use line_text::{add_frame, read_below, read_data};
use sdf_plan::Plan;
use std::alloc::Global;

/// How many bytes a frame has at most: what the network class of the plan says, and 0 where it has
/// none. The 1,514 that stand for an absent key are a header of 14 and 1,500 after it (IEEE 802.3,
/// without its checksum).
#[tactic(auto, unfolding(crate::specs::Limits::frame_most))]
pub fn frame_most(plan: &Plan) -> u64
    ensures { result ≡ frame_most plan.now }
{
    match &plan.net {
        Some(net) => net.max_frame,
        None => 0,
    }
}

// Whether these bytes can be a frame, where one has at most so many.
fn is_frame(bytes: &[u8], most: u64) -> bool
    ensures { result ≡ is_frame_of bytes.now most }
{
    14 <= bytes.len() && bytes.len() as u64 <= most
}

impl Reader {
    // `rx DATA`
    pub fn read_rx(&mut self, alloc: Global, plan: &Plan, word: &[u8]) -> Result<bool, Memory>
        ensures { IfOk result (λ good. IsRead self.old self.new good (rx_line plan.now word.now)) }
    {
        if plan.net.is_none() {
            return Ok(false);
        }
        if self.frame_lines >= LINES {
            return Ok(false);
        }
        let most = frame_most(plan);
        let frame = match read_data(alloc, word, most as usize)? {
            Some(frame) => frame,
            None => return Ok(false),
        };
        if !is_frame(frame.as_slice(), most) {
            return Ok(false);
        }
        self.trace.frames.push(frame.as_slice())?;
        self.frame_lines += 1;
        Ok(true)
    }

    // `send C DATA`
    pub fn read_send(
        &mut self,
        alloc: Global,
        plan: &Plan,
        client: &[u8],
        word: &[u8],
    ) -> Result<bool, Memory>
        requires { HasLists plan.now self.old }
        ensures { IfOk result (λ good. IsRead self.old self.new good
            (send_line plan.now client.now word.now)) }
    {
        let client = match read_below(client, net_client_count(plan) as u64) {
            Some(client) => client,
            None => return Ok(false),
        };
        if !is_source(plan, client) {
            return Ok(false);
        }
        if self.frame_lines >= LINES {
            return Ok(false);
        }
        let most = frame_most(plan);
        let frame = match read_data(alloc, word, most as usize)? {
            Some(frame) => frame,
            None => return Ok(false),
        };
        if !is_frame(frame.as_slice(), most) {
            return Ok(false);
        }
        add_frame(
            alloc,
            &mut self.trace.sends,
            client as usize,
            frame.as_slice(),
        )?;
        self.frame_lines += 1;
        Ok(true)
    }
}
