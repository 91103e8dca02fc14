//! The rules on frames: how long one may be, and the buffers that have to take it.
ghost use Rattle.std.specs.Prelude.{◌↔◌, IsTrue};
ghost use Rattle.sdf_check.specs.ClassRules.{HasBadMaxFrame, HasBadBufferSize};

use crate::judge::{Judge, at};
use crate::sizes::is_bad_buffer;
use sdf_plan::Place;

/// Whether the longest frame is below 1,514 bytes or above 9,014.
pub fn has_bad_max_frame(judge: &Judge<'_>, place: Place) -> bool
    ensures { IsTrue result ↔ HasBadMaxFrame judge.now.plan.now place }
{
    match place {
        Place::Net => match &judge.plan.net {
            Some(net) => net.max_frame < 1514 || net.max_frame > 9014,
            None => false,
        },
        _ => false,
    }
}

/// Whether a network buffer has a size that it can't have, or is too small for the longest frame.
pub fn has_bad_buffer_size(judge: &Judge<'_>, place: Place) -> bool
    ensures { IsTrue result ↔ HasBadBufferSize judge.now.plan.now place }
{
    match place {
        Place::Net => match &judge.plan.net {
            Some(net) => is_bad_buffer(net.max_frame, net.rx_buffer_size),
            None => false,
        },
        Place::NetClient(c) => match &judge.plan.net {
            Some(net) => match at(&net.client, c) {
                Some(client) => is_bad_buffer(net.max_frame, client.rx_buffer_size)
                    || is_bad_buffer(net.max_frame, client.tx_buffer_size),
                None => false,
            },
            None => false,
        },
        _ => false,
    }
}
