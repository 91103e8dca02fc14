//! The places of elements in a description, and its refusal at one of them.
ghost use Rattle.std.specs.Prelude.{◌≡◌};
ghost use Rattle.sdf_plan.specs.declared.place.SdfFault.TheVariants as Fault;

use cargo_core::Memory;

/// An element of a description, by its places in file order, counted from 0.
#[derive(Clone, Copy, Debug, PartialEq, Eq)]
pub enum Place {
    System,
    Region(u32),
    Domain(u32),
    Map(u32, u32),
    Irq(u32, u32),
    Channel(u32),
    End(u32, u32),
    Net,
    NetClient(u32),
    Serial,
    SerialClient(u32),
    Blk,
    BlkClient(u32),
}

/// Why a description is refused: the least rule that is broken, and the first element at which it
/// is.
#[derive(Clone, Copy, Debug, PartialEq, Eq)]
pub struct Refusal {
    pub rule: u8,
    pub place: Place,
}

/// What a reader or a judge of descriptions answers in place of a plan.
#[derive(Clone, Copy, Debug, PartialEq, Eq)]
pub enum SdfFault {
    Refused(Refusal),
    Memory(Memory),
}

impl From<Memory> for SdfFault {
    ghost from_gives = { λ memory fault. fault ≡ Fault.Memory memory };

    fn from(memory: Memory) -> Self {
        SdfFault::Memory(memory)
    }
}
