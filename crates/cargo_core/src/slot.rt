//! Where an entry of a queue lies.
ghost use Rattle.std.specs.Prelude.{◌≡◌, ◌%◌};
ghost use Rattle.cargo_core.specs.Capacities.{IsCapacity};

/// The slot of an index that runs freely by 16 bits: its remainder by the queue's capacity. That
/// is a power of two, so the remainder is the index's lowest bits.
#[inline(always)]
pub fn slot_of(index: u16, capacity: u16) -> usize
    requires { IsCapacity capacity }
    ensures { result ≡ index % capacity }
{
    usize::from(index & (capacity - 1))
}
