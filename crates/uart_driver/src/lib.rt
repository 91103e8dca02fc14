//! The driver of a serial device: one pipe for what the device received, and one for what it is to
//! send.
#![tactic(auto)]

ghost use Rattle.std.specs.Prelude.{◌≡◌};
ghost use Rattle.std.specs.Borrow.{Lends, sem};
ghost use Rattle.wire_core.specs.Lists.{nothing_passed};
ghost use Rattle.turn_kit.specs.Pipes.{IsNewPipe};
ghost use Rattle.pipe_driver.specs.Drivers.{PipesStandFor};
ghost use Rattle.pipe_driver.specs.Lengths.{two_pipes};
ghost use Rattle.uart_driver.specs.Rows.{two_pipes_row};
ghost use Rattle.uart_driver.specs.contracts.UartDriver.{the_row};

use pipe_driver::{PipeDriver, Pipes};
use std::ops::{Deref, DerefMut};
use turn_kit::Pipe;
use wire_core::QueueId;

/// The driver of a serial device: its first pipe moves what the device received, its second what it
/// is to send. From sDDF's design document.
#[derive(Drop)]
pub struct UartDriver {
    pub driver: PipeDriver<Pipes<Pipe>>,
}

impl UartDriver {
    /// A driver in its start state, which moves `device_rx` to `rx` and `tx` to `device_tx`.
    pub fn new(device_rx: QueueId, device_tx: QueueId, rx: QueueId, tx: QueueId) -> UartDriver
        ensures rx { IsNewPipe device_rx rx result.driver.pipes.first }
        ensures tx { IsNewPipe tx device_tx result.driver.pipes.rest }
        ensures turn { result.driver.turn.last ≡ 65535 }
        ensures stands { PipesStandFor (two_pipes result.driver.pipes) nothing_passed }
    {
        UartDriver {
            driver: PipeDriver::new(Pipes {
                first: Pipe::new(device_rx, rx),
                rest: Pipe::new(tx, device_tx),
            }),
        }
    }
}

/// All else that it does is what a driver of two pipes does.
impl Deref for UartDriver {
    type Target = PipeDriver<Pipes<Pipe>>;

    ghost deref_gives = { λ u d. d ≡ u.driver };

    fn deref(&self) -> &PipeDriver<Pipes<Pipe>>
        ensures { result.now ≡ self.now.driver }
    {
        &self.driver
    }
}

impl DerefMut for UartDriver {
    ghost deref_mut_gives = { λ u d. d ≡ u.driver };

    fn deref_mut(&mut self) -> &mut PipeDriver<Pipes<Pipe>>
        ensures* writes_back { sem 𝓛 (Lends the_row two_pipes_row self.entry result
            (λ d. record { driver = d })) }
        ensures value { result.now ≡ self.old.driver }
    {
        &mut self.driver
    }
}
