//! The lines of bytes without bounds: `in` at the UART, `say` of a serial client.
ghost use Rattle.std.specs.Prelude.{IfOk};
ghost use Rattle.trace_text.specs.Events.{in_line, say_line};
ghost use Rattle.trace_text.specs.Reading.{IsRead, HasLists};

use crate::clients::{is_speaker, serial_client_count};
use crate::reader::Reader;
use cargo_core::Memory;
use line_text::{add_bytes, read_below, read_data};
use sdf_plan::Plan;
use std::alloc::Global;

/// The most bytes of all `in` and `say` lines together.
const STREAM_BYTES: u64 = 81920;

impl Reader {
    // `in DATA`
    pub fn read_in(&mut self, alloc: Global, plan: &Plan, word: &[u8]) -> Result<bool, Memory>
        ensures { IfOk result (λ good. IsRead self.old self.new good (in_line plan.now word.now)) }
    {
        if plan.serial.is_none() {
            return Ok(false);
        }
        if self.stream_bytes > STREAM_BYTES {
            return Ok(false);
        }
        let room = STREAM_BYTES - self.stream_bytes;
        let bytes = match read_data(alloc, word, room as usize)? {
            Some(bytes) => bytes,
            None => return Ok(false),
        };
        self.trace.input.extend_from_slice(bytes.as_slice())?;
        self.stream_bytes += bytes.len() as u64;
        Ok(true)
    }

    // `say C DATA`
    pub fn read_say(
        &mut self,
        alloc: Global,
        plan: &Plan,
        client: &[u8],
        word: &[u8],
    ) -> Result<bool, Memory>
        requires { HasLists plan.now self.old }
        ensures { IfOk result (λ good. IsRead self.old self.new good
            (say_line plan.now client.now word.now)) }
    {
        let client = match read_below(client, serial_client_count(plan) as u64) {
            Some(client) => client,
            None => return Ok(false),
        };
        if !is_speaker(plan, client) {
            return Ok(false);
        }
        if self.stream_bytes > STREAM_BYTES {
            return Ok(false);
        }
        let room = STREAM_BYTES - self.stream_bytes;
        let bytes = match read_data(alloc, word, room as usize)? {
            Some(bytes) => bytes,
            None => return Ok(false),
        };
        add_bytes(
            alloc,
            &mut self.trace.says,
            client as usize,
            bytes.as_slice(),
        )?;
        self.stream_bytes += bytes.len() as u64;
        Ok(true)
    }
}
