//! The walk over the lines of a trace.
ghost use Rattle.std.specs.Prelude.{◌≡◌, ℕ, IfOk, Err};
ghost use Rattle.trace_text.specs.Traces.{HasNoBadLine, IsLeastBadLine, trace_of};

use crate::reader::Reader;
use crate::trace::Trace;
use cargo_core::Memory;
use line_text::next_line;
use sdf_plan::Plan;
use std::alloc::Global;

/// What the reader of traces answers in place of a trace.
#[derive(Clone, Copy, Debug, PartialEq, Eq)]
pub enum TraceFault {
    /// The first line that is bad, counted from 1; where only the disk is missing, the line after
    /// the last.
    BadLine(u64),
    /// Want of memory.
    Memory(Memory),
}

impl From<Memory> for TraceFault {
    ghost use Rattle.trace_text.specs.declared.read.TraceFault.TheVariants as Fault;

    ghost from_gives = { λ memory fault. fault ≡ Fault.Memory memory };

    fn from(memory: Memory) -> Self {
        TraceFault::Memory(memory)
    }
}

/// Reads a trace for the clients of a plan. Ok gives what the lines spell, in their order;
/// `BadLine` comes exactly where a line is bad, with the first such line. The forms of the lines
/// are this project's own.
pub fn read_trace(alloc: Global, bytes: &[u8], plan: &Plan) -> Result<Trace, TraceFault>
    ensures good { IfOk result (λ t. HasNoBadLine plan.now bytes.now) }
    ensures trace { IfOk result (λ t. t ≡ trace_of plan.now bytes.now) }
    ensures bad { (number : ℕ) → result ≡ Err (TraceFault.BadLine number)
        → IsLeastBadLine plan.now bytes.now number }
{
    let mut reader = Reader::new(alloc, plan)?;
    let mut rest = bytes;
    let mut number: u64 = 0;
    while !rest.is_empty() {
        let (line, after) = next_line(rest);
        number += 1;
        if !reader.read_line(alloc, plan, line)? {
            return Err(TraceFault::BadLine(number));
        }
        rest = after;
    }
    if reader.lacks_disk(plan) {
        return Err(TraceFault::BadLine(number + 1));
    }
    Ok(reader.trace)
}
