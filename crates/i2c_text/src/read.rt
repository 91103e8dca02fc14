//! The walk over the lines of a text.
ghost use Rattle.std.specs.Prelude.{◌≡◌, ℕ, IfOk, Err};
ghost use Rattle.i2c_text.specs.Buses.{HasNoBadLine, IsLeastBadLine, bus_of};

use crate::bus::Bus;
use crate::reader::Reader;
use cargo_core::Memory;
use line_text::next_line;
use std::alloc::Global;

/// What the reader of buses answers in place of a bus.
#[derive(Clone, Copy, Debug, PartialEq, Eq)]
pub enum BusFault {
    /// The first line that is bad, counted from 1; where only the clients are missing, the line
    /// after the last.
    BadLine(u64),
    /// Want of memory.
    Memory(Memory),
}

impl From<Memory> for BusFault {
    ghost use Rattle.i2c_text.specs.declared.read.BusFault.TheVariants as Fault;

    ghost from_gives = { λ memory fault. fault ≡ Fault.Memory memory };

    fn from(memory: Memory) -> Self {
        BusFault::Memory(memory)
    }
}

/// Reads a bus. Ok gives what the lines spell, in their order; `BadLine` comes exactly where a line
/// is bad, with the first such line. The forms of the lines are this project's own.
pub fn read_bus(alloc: Global, bytes: &[u8]) -> Result<Bus, BusFault>
    ensures good { IfOk result (λ bus. HasNoBadLine bytes.now) }
    ensures bus { IfOk result (λ bus. bus ≡ bus_of bytes.now) }
    ensures bad { (number : ℕ) → result ≡ Err (BusFault.BadLine number)
        → IsLeastBadLine bytes.now number }
{
    let mut reader = Reader::new(alloc);
    let mut rest = bytes;
    let mut number: u64 = 0;
    while !rest.is_empty() {
        let (line, after) = next_line(rest);
        number += 1;
        if !reader.read_line(alloc, line)? {
            return Err(BusFault::BadLine(number));
        }
        rest = after;
    }
    if reader.lacks_clients() {
        return Err(BusFault::BadLine(number + 1));
    }
    Ok(reader.bus)
}
