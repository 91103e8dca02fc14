//! The lines of requests: `blk`, of a block client.
ghost use Rattle.std.specs.Prelude.{◌≡◌, IfOk};
ghost use Rattle.trace_text.specs.Events.{order_code, blk_order_line, blk_read_line};
ghost use Rattle.trace_text.specs.Events.{blk_write_line};
ghost use Rattle.trace_text.specs.Reading.{IsRead, HasLists};

use crate::clients::{blk_client_count, is_script};
use crate::reader::{LINES, Reader};
use cargo_core::{Ask, BLOCK_BYTES, Bytes, Code, Memory};
use line_text::{add_item, read_below, read_data, same_text};
use sdf_plan::Plan;
use std::alloc::Global;

/// How many numbers of blocks there are.
const BLOCK_NUMBERS: u64 = 4294967296;

/// The most blocks of one request.
const MOST_BLOCKS: u64 = 8;

impl Reader {
    // `blk C flush`, `blk C barrier`
    pub fn read_order(
        &mut self,
        alloc: Global,
        plan: &Plan,
        client: &[u8],
        order: &[u8],
    ) -> Result<bool, Memory>
        requires { HasLists plan.now self.old }
        ensures { IfOk result (λ good. IsRead self.old self.new good
            (blk_order_line plan.now client.now order.now)) }
    {
        let client = match read_below(client, blk_client_count(plan) as u64) {
            Some(client) => client,
            None => return Ok(false),
        };
        let code = match order_code(order) {
            Some(code) => code,
            None => return Ok(false),
        };
        if !is_script(plan, client) {
            return Ok(false);
        }
        if self.request_lines >= LINES {
            return Ok(false);
        }
        let ask = Ask {
            code,
            block: 0,
            count: 0,
            fill: Bytes::new(alloc),
        };
        add_item(alloc, &mut self.trace.asks, client as usize, ask)?;
        self.request_lines += 1;
        Ok(true)
    }

    // `blk C read B N`
    pub fn read_read(
        &mut self,
        alloc: Global,
        plan: &Plan,
        client: &[u8],
        first: &[u8],
        many: &[u8],
    ) -> Result<bool, Memory>
        requires { HasLists plan.now self.old }
        ensures { IfOk result (λ good. IsRead self.old self.new good
            (blk_read_line plan.now client.now first.now many.now)) }
    {
        let client = match read_below(client, blk_client_count(plan) as u64) {
            Some(client) => client,
            None => return Ok(false),
        };
        let block = match read_below(first, BLOCK_NUMBERS) {
            Some(block) => block,
            None => return Ok(false),
        };
        let count = match read_below(many, MOST_BLOCKS + 1) {
            Some(count) => count,
            None => return Ok(false),
        };
        if count == 0 {
            return Ok(false);
        }
        if !is_script(plan, client) {
            return Ok(false);
        }
        if self.request_lines >= LINES {
            return Ok(false);
        }
        let ask = Ask {
            code: Code::Read,
            block: block as u32,
            count: count as u16,
            fill: Bytes::new(alloc),
        };
        add_item(alloc, &mut self.trace.asks, client as usize, ask)?;
        self.request_lines += 1;
        Ok(true)
    }

    // `blk C write B N DATA`
    pub fn read_write(
        &mut self,
        alloc: Global,
        plan: &Plan,
        client: &[u8],
        first: &[u8],
        many: &[u8],
        word: &[u8],
    ) -> Result<bool, Memory>
        requires { HasLists plan.now self.old }
        ensures { IfOk result (λ good. IsRead self.old self.new good
            (blk_write_line plan.now client.now first.now many.now word.now)) }
    {
        let client = match read_below(client, blk_client_count(plan) as u64) {
            Some(client) => client,
            None => return Ok(false),
        };
        let block = match read_below(first, BLOCK_NUMBERS) {
            Some(block) => block,
            None => return Ok(false),
        };
        let count = match read_below(many, MOST_BLOCKS + 1) {
            Some(count) => count,
            None => return Ok(false),
        };
        if count == 0 {
            return Ok(false);
        }
        if !is_script(plan, client) {
            return Ok(false);
        }
        if self.request_lines >= LINES {
            return Ok(false);
        }
        let fill = match read_data(alloc, word, count as usize * BLOCK_BYTES)? {
            Some(fill) => fill,
            None => return Ok(false),
        };
        if fill.len() != count as usize * BLOCK_BYTES {
            return Ok(false);
        }
        let ask = Ask {
            code: Code::Write,
            block: block as u32,
            count: count as u16,
            fill,
        };
        add_item(alloc, &mut self.trace.asks, client as usize, ask)?;
        self.request_lines += 1;
        Ok(true)
    }
}

// The code of a request that names no blocks.
fn order_code(order: &[u8]) -> Option<Code>
    ensures { result ≡ order_code order.now }
{
    if same_text(order, "flush") {
        Some(Code::Flush)
    } else if same_text(order, "barrier") {
        Some(Code::Barrier)
    } else {
        None
    }
}
