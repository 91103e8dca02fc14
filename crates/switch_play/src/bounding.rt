//! How many steps are enough for the ports of a switch.

ghost use Rattle.std.specs.Prelude.{◌≡◌, ◌<◌, ◌^◌, length, sum_by};
ghost use Rattle.line_text.specs.PortsText.Given.{ArePorts};
ghost use Rattle.switch_play.specs.Bounds.{ports_bound};

use cargo_core::FrameLog;
use line_text::ports_text::Ports;
use step_bound::bound;
use text_limits::ports_limits_law;

// The frames of some lists together.
fn total_sends(lists: &[FrameLog]) -> u64
    requires { sum_by length lists.now < 2 ^ 64 }
    ensures { result ≡ sum_by length lists.now }
{
    lists.iter().map(|frames| frames.len() as u64).sum()
}

/// How many steps are enough for a play of these ports, by their number and that of the frames that
/// they send. This project's own.
pub fn ports_bound(ports: &Ports) -> u64
    requires { ArePorts ports.now }
    ensures { result ≡ ports_bound ports.now }
{
    ports_limits_law();
    let count = ports.macs.len() as u64;
    let sends = total_sends(ports.sends.as_slice());
    bound(2 * count * sends + 4 * count, count + 1, 4 * count)
}
