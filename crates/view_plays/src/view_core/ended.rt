//! How a call of the program ends, and the status code of each end.
ghost use Rattle.std.specs.Prelude.{◌≡◌};
ghost use Rattle.view_plays.specs.ViewCore.Codes.{code_of};

use cargo_core::Memory;

/// How a call of the program ended.
#[derive(Clone, Copy, Debug, PartialEq, Eq)]
pub enum Ended {
    /// What was asked was done.
    Ok,
    /// The words are none of the program's; the place of the first bad word, counted from 0.
    Usage(u32),
    /// The description is refused; the number of the broken rule.
    Refused(u8),
    /// A text couldn't be read.
    ReadFault,
    /// The answer couldn't be written to its end.
    WriteFault,
    /// A text is longer than 16,777,216 bytes.
    TooLong,
    /// Memory was refused.
    Memory(Memory),
    /// The description is accepted, and names a variable as no program in C can.
    NoIdentifier,
}

impl Ended {
    /// The status with which the program ends. The numbers are those of the main program, and 10 of
    /// its own.
    pub fn code(&self) -> u8
        ensures { result ≡ code_of self.now }
    {
        match self {
            Ended::Ok => 0,
            Ended::Usage(_) => 2,
            Ended::Refused(_) => 3,
            Ended::ReadFault => 5,
            Ended::WriteFault => 6,
            Ended::TooLong => 8,
            Ended::Memory(_) => 9,
            Ended::NoIdentifier => 10,
        }
    }
}
