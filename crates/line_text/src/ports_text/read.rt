//! The walk over the lines of a text.
ghost use Rattle.std.specs.Prelude.{◌≡◌, ℕ, IfOk, Err};
ghost use Rattle.line_text.specs.PortsText.Given.{HasNoBadLine, IsLeastBadLine, ports_of};

use crate::next_line;
use crate::ports_text::ports::Ports;
use crate::ports_text::reader::Reader;
use cargo_core::Memory;
use std::alloc::Global;

/// What the reader of ports answers in place of ports.
#[derive(Clone, Copy, Debug, PartialEq, Eq)]
pub enum PortFault {
    /// The first line that is bad, counted from 1; where only ports are missing, the line after the
    /// last.
    BadLine(u64),
    /// Want of memory.
    Memory(Memory),
}

impl From<Memory> for PortFault {
    ghost use Rattle.line_text.specs.declared.ports_text.read.PortFault.TheVariants as Fault;

    ghost from_gives = { λ memory fault. fault ≡ Fault.Memory memory };

    fn from(memory: Memory) -> Self {
        PortFault::Memory(memory)
    }
}

/// Reads the ports of a switch. Ok gives what the lines spell, in their order; `BadLine` comes
/// exactly where a line is bad, with the first such line. The forms of the lines are this project's
/// own.
pub fn read_ports(alloc: Global, bytes: &[u8]) -> Result<Ports, PortFault>
    ensures good { IfOk result (λ ports. HasNoBadLine bytes.now) }
    ensures ports { IfOk result (λ ports. ports ≡ ports_of bytes.now) }
    ensures bad { (number : ℕ) → result ≡ Err (PortFault.BadLine number)
        → IsLeastBadLine bytes.now number }
{
    let mut reader = Reader::new(alloc);
    let mut rest = bytes;
    let mut number: u64 = 0;
    while !rest.is_empty() {
        let (line, after) = next_line(rest);
        number += 1;
        if !reader.read_line(alloc, line)? {
            return Err(PortFault::BadLine(number));
        }
        rest = after;
    }
    if reader.lacks_ports() {
        return Err(PortFault::BadLine(number + 1));
    }
    Ok(reader.ports)
}
