//! How a call of the program ends, and the status code of each end.
ghost use Rattle.std.specs.Prelude.{◌≡◌};
ghost use Rattle.decision_core.specs.Codes.{code_of};

use cargo_core::Memory;

/// How a call of the program ended.
#[derive(Clone, Copy, Debug, PartialEq, Eq)]
pub enum Status {
    /// What was asked was done.
    Ok,
    /// The words are no command; the place of the first bad word, counted from 0.
    Usage(u32),
    /// The description is refused; the number of the broken rule.
    Refused(u8),
    /// The trace is refused; the number of the bad line, counted from 1.
    BadTrace(u64),
    /// A text couldn't be read.
    ReadFault,
    /// The answer couldn't be written to its end.
    WriteFault,
    /// The limit of steps was reached before the system was quiet; the number of steps.
    Spent(u64),
    /// A text is longer than 16,777,216 bytes.
    TooLong,
    /// Memory was refused: want of memory itself, which no allocation but a refused one gives.
    Memory(Memory),
}

impl Status {
    /// The status with which the program ends. The numbers are this project's own.
    pub fn code(&self) -> u8
        ensures { result ≡ code_of self.now }
    {
        match self {
            Status::Ok => 0,
            Status::Usage(_) => 2,
            Status::Refused(_) => 3,
            Status::BadTrace(_) => 4,
            Status::ReadFault => 5,
            Status::WriteFault => 6,
            Status::Spent(_) => 7,
            Status::TooLong => 8,
            Status::Memory(_) => 9,
        }
    }
}
