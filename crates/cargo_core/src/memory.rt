//! Want of memory, which is made here alone, from what the allocator answered: so each such answer
//! comes from an allocation that was refused.

ghost use Rattle.std.specs.Prelude.{MatchOption};
ghost use Rattle.toml.specs.Errors.{IsMemory};

use std::alloc::{AllocError, AllocFailed};

/// Want of memory: an allocation was refused. It is made from an error of the allocator and of
/// nothing else.
#[derive(Clone, Copy, Debug, PartialEq, Eq)]
pub struct Memory(());

impl From<AllocError> for Memory {
    fn from(_: AllocError) -> Self {
        Memory(())
    }
}

impl<T: Drop> From<AllocFailed<T>> for Memory {
    fn from(_: AllocFailed<T>) -> Self {
        Memory(())
    }
}

impl Memory {
    /// The want of memory that a reader of TOML met. It is there exactly where an allocation of its
    /// was refused.
    pub fn of_toml(fault: &toml::de::Error) -> Option<Memory>
        ensures { MatchOption result (¬ IsMemory fault.now) (λ _. IsMemory fault.now) }
    {
        if fault.is_memory() {
            Some(Memory(()))
        } else {
            None
        }
    }
}
