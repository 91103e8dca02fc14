//! The devices of the modelled machine. A serial device receives given bytes in order, and sends
//! what it is given on its line: it is a terminal, as a serial client is. An Ethernet device does
//! so with frames, and a disk does requests on its image. That a device is an actor at the far ends
//! of its driver's queues is this project's own.
#![tactic(auto)]

ghost use Rattle.std.specs.Prelude.{◌≡◌};
ghost use Rattle.std.specs.Borrow.{Lends, sem};
ghost use Rattle.wire_core.specs.Lists.{nothing_passed};
ghost use Rattle.device_model.specs.SerialTerminal.Terminals.{IsNewTerminal, TerminalStandsFor};
ghost use Rattle.device_model.specs.contracts.serial_terminal.Terminal.{the_row as terminal_row};
ghost use Rattle.device_model.specs.contracts.UartDevice.{the_row};

pub mod disk;
pub mod ethernet;
pub mod serial_terminal;

pub use crate::disk::DiskDevice;
pub use crate::ethernet::EthDevice;
use crate::serial_terminal::Terminal;
use cargo_core::Bytes;
use std::alloc::Global;
use std::ops::{Deref, DerefMut};
use wire_core::QueueId;

/// The serial device: a terminal that says its input to the driver, and whose record is what was
/// sent on its line.
#[derive(Drop)]
pub struct UartDevice {
    pub terminal: Terminal,
}

impl UartDevice {
    /// A device in its start state: it puts the bytes of `input` to `rx`, and takes those of its
    /// line from `tx`.
    pub fn new(alloc: Global, rx: QueueId, tx: QueueId, input: Bytes) -> UartDevice
        ensures new { IsNewTerminal tx rx input result.terminal }
        ensures stands { TerminalStandsFor result.terminal nothing_passed }
    {
        UartDevice {
            terminal: Terminal::new(alloc, tx, rx, input),
        }
    }

    /// The bytes that were sent on the line.
    pub fn line(&self) -> &[u8]
        ensures { result.now ≡ self.now.terminal.recorded.shown }
    {
        self.terminal.got()
    }
}

/// All that a device does is what its terminal does.
impl Deref for UartDevice {
    type Target = Terminal;

    ghost deref_gives = { λ d t. t ≡ d.terminal };

    fn deref(&self) -> &Terminal
        ensures { result.now ≡ self.now.terminal }
    {
        &self.terminal
    }
}

impl DerefMut for UartDevice {
    ghost deref_mut_gives = { λ d t. t ≡ d.terminal };

    fn deref_mut(&mut self) -> &mut Terminal
        ensures* writes_back { sem 𝓛 (Lends the_row terminal_row self.entry result
            (λ t. record { terminal = t })) }
        ensures value { result.now ≡ self.old.terminal }
    {
        &mut self.terminal
    }
}
