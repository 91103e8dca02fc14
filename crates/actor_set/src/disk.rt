//! A disk as an actor.

ghost use Rattle.std.specs.Prelude.{◌≡◌};
ghost use Rattle.wire_core.specs.Lists.{nothing_passed};
ghost use Rattle.device_model.specs.Disk.Disks.{IsNewDisk, DiskStandsFor};

use cargo_core::Bytes;
use device_model::disk::DiskDevice;
use std::snapshot::Snapshot;
use wire_core::QueueId;

/// A disk. The image that it had at the start stands beside it in proofs alone.
#[derive(Drop)]
pub struct Disk {
    pub device: DiskDevice,
    pub start: Snapshot<Bytes>,
}

impl Disk {
    /// A disk in its start state, with this image: it does the requests of `req` and puts its
    /// responses to `resp`.
    pub fn new(req: QueueId, resp: QueueId, image: Bytes) -> Disk
        ensures new { IsNewDisk req resp image result.device }
        ensures start { result.start.value ≡ image }
        ensures stands { DiskStandsFor image result.device nothing_passed }
    {
        let start = Snapshot::of(&image);
        Disk {
            device: DiskDevice::new(req, resp, image),
            start,
        }
    }
}
