//! How many steps are enough for a bus.

ghost use Rattle.std.specs.Prelude.{◌≡◌, ◌<◌, ◌^◌, length, sum_by};
ghost use Rattle.i2c_text.specs.Buses.{IsReadBus};
ghost use Rattle.i2c_play.specs.Bounds.{bus_bound};

use cargo_core::Series;
use i2c_text::{Bus, BusAsk};
use step_bound::bound;
use text_limits::bus_limits_law;

// The requests of some lists together.
fn total_requests(lists: &[Series<BusAsk>]) -> u64
    requires { sum_by length lists.now < 2 ^ 64 }
    ensures { result ≡ sum_by length lists.now }
{
    lists.iter().map(|asks| asks.len() as u64).sum()
}

/// How many steps are enough for a play of this bus, by the number of its requests and of its
/// clients. This project's own.
pub fn bus_bound(bus: &Bus) -> u64
    requires { IsReadBus bus.now }
    ensures { result ≡ bus_bound bus.now }
{
    bus_limits_law();
    let clients = u64::from(bus.clients);
    let requests = total_requests(bus.asks.as_slice());
    bound(6 * requests, clients + 3, 2 * clients + 2)
}
