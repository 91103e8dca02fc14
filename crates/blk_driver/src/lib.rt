//! The driver of a disk: one pipe for requests to the disk, and one for its responses.
#![tactic(auto)]

ghost use Rattle.std.specs.Prelude.{◌≡◌};
ghost use Rattle.std.specs.Borrow.{Lends, sem};
ghost use Rattle.wire_core.specs.Lists.{nothing_passed};
ghost use Rattle.turn_kit.specs.Pipes.{IsNewPipe};
ghost use Rattle.pipe_driver.specs.Drivers.{PipesStandFor};
ghost use Rattle.pipe_driver.specs.Lengths.{two_pipes};
ghost use Rattle.blk_driver.specs.Rows.{two_pipes_row};
ghost use Rattle.blk_driver.specs.contracts.BlkDriver.{the_row};

use pipe_driver::{PipeDriver, Pipes};
use std::ops::{Deref, DerefMut};
use turn_kit::Pipe;
use wire_core::QueueId;

/// The driver of a disk: its first pipe moves requests to the disk, its second the disk's
/// responses. From sDDF's design document.
#[derive(Drop)]
pub struct BlkDriver {
    pub driver: PipeDriver<Pipes<Pipe>>,
}

impl BlkDriver {
    /// A driver in its start state, which moves `req` to `device_req` and `device_resp` to `resp`.
    pub fn new(device_req: QueueId, device_resp: QueueId, req: QueueId, resp: QueueId) -> BlkDriver
        ensures req { IsNewPipe req device_req result.driver.pipes.first }
        ensures resp { IsNewPipe device_resp resp result.driver.pipes.rest }
        ensures turn { result.driver.turn.last ≡ 65535 }
        ensures stands { PipesStandFor (two_pipes result.driver.pipes) nothing_passed }
    {
        BlkDriver {
            driver: PipeDriver::new(Pipes {
                first: Pipe::new(req, device_req),
                rest: Pipe::new(device_resp, resp),
            }),
        }
    }
}

/// All else that it does is what a driver of two pipes does.
impl Deref for BlkDriver {
    type Target = PipeDriver<Pipes<Pipe>>;

    ghost deref_gives = { λ u d. d ≡ u.driver };

    fn deref(&self) -> &PipeDriver<Pipes<Pipe>>
        ensures { result.now ≡ self.now.driver }
    {
        &self.driver
    }
}

impl DerefMut for BlkDriver {
    ghost deref_mut_gives = { λ u d. d ≡ u.driver };

    fn deref_mut(&mut self) -> &mut PipeDriver<Pipes<Pipe>>
        ensures* writes_back { sem 𝓛 (Lends the_row two_pipes_row self.entry result
            (λ d. record { driver = d })) }
        ensures value { result.now ≡ self.old.driver }
    {
        &mut self.driver
    }
}
