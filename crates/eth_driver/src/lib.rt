//! The driver of an Ethernet device: one pipe for each of the four moves between the device's
//! queues and the virtualisers'.
#![tactic(auto)]

ghost use Rattle.std.specs.Prelude.{◌≡◌, Some, slice_get};
ghost use Rattle.std.specs.Borrow.{Lends, sem};
ghost use Rattle.wire_core.specs.Lists.{nothing_passed};
ghost use Rattle.turn_kit.specs.Pipes.{IsNewPipe};
ghost use Rattle.pipe_driver.specs.Drivers.{PipesStandFor};
ghost use Rattle.eth_driver.specs.Four.{four_pipes};
ghost use Rattle.eth_driver.specs.Rows.{four_pipes_row};
ghost use Rattle.eth_driver.specs.contracts.EthDriver.{the_row};

use pipe_driver::{PipeDriver, Pipes};
use std::ops::{Deref, DerefMut};
use turn_kit::Pipe;
use wire_core::QueueId;

/// The driver of an Ethernet device: its first pipe moves free buffers to the device, its second
/// received frames from it, its third frames to be sent to it, and its fourth their buffers back.
/// From sDDF's design document.
#[derive(Drop)]
pub struct EthDriver {
    pub driver: PipeDriver<Pipes<Pipes<Pipes<Pipe>>>>,
}

impl EthDriver {
    /// A driver in its start state. The queues stand in the order free and active of what is
    /// received, active and free of what is sent: it moves the first of `net` to the first of
    /// `device`, the second of `device` to the second of `net`, and so on.
    pub fn new(device: [QueueId; 4], net: [QueueId; 4]) -> EthDriver
        ensures rx_free { (from to : QueueId) → slice_get net 0 ≡ Some from
            → slice_get device 0 ≡ Some to → IsNewPipe from to result.driver.pipes.first }
        ensures rx_active { (from to : QueueId) → slice_get device 1 ≡ Some from
            → slice_get net 1 ≡ Some to → IsNewPipe from to result.driver.pipes.rest.first }
        ensures tx_active { (from to : QueueId) → slice_get net 2 ≡ Some from
            → slice_get device 2 ≡ Some to → IsNewPipe from to result.driver.pipes.rest.rest.first }
        ensures tx_free { (from to : QueueId) → slice_get device 3 ≡ Some from
            → slice_get net 3 ≡ Some to → IsNewPipe from to result.driver.pipes.rest.rest.rest }
        ensures turn { result.driver.turn.last ≡ 65535 }
        ensures stands { PipesStandFor (four_pipes result.driver.pipes) nothing_passed }
    {
        let [
            device_rx_free,
            device_rx_active,
            device_tx_active,
            device_tx_free,
        ] = device;
        let [rx_free, rx_active, tx_active, tx_free] = net;
        EthDriver {
            driver: PipeDriver::new(Pipes {
                first: Pipe::new(rx_free, device_rx_free),
                rest: Pipes {
                    first: Pipe::new(device_rx_active, rx_active),
                    rest: Pipes {
                        first: Pipe::new(tx_active, device_tx_active),
                        rest: Pipe::new(device_tx_free, tx_free),
                    },
                },
            }),
        }
    }
}

/// All else that it does is what a driver of four pipes does.
impl Deref for EthDriver {
    type Target = PipeDriver<Pipes<Pipes<Pipes<Pipe>>>>;

    ghost deref_gives = { λ u d. d ≡ u.driver };

    fn deref(&self) -> &PipeDriver<Pipes<Pipes<Pipes<Pipe>>>>
        ensures { result.now ≡ self.now.driver }
    {
        &self.driver
    }
}

impl DerefMut for EthDriver {
    ghost deref_mut_gives = { λ u d. d ≡ u.driver };

    fn deref_mut(&mut self) -> &mut PipeDriver<Pipes<Pipes<Pipes<Pipe>>>>
        ensures* writes_back { sem 𝓛 (Lends the_row four_pipes_row self.entry result
            (λ d. record { driver = d })) }
        ensures value { result.now ≡ self.old.driver }
    {
        &mut self.driver
    }
}
