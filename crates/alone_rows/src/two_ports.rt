//! What must come of a small text of two ports, whatever the seed.
use crate::port_plays::{is_spent_before, played};
use crate::telling::tell;
use cargo_core::{Census, Memory};
use line_text::ports_text::PortReport;
use std::alloc::Global;
use std::io;

/// Two ports. The first sends a frame to the second and one to a station that isn't there, and the
/// second sends one to all stations.
const TWO: &str = "port 02:00:00:00:00:01\nport 02:00:00:00:00:02\n\
    send 0 0200000000020200000000010800\nsend 1 ffffffffffff0200000000020800\n\
    send 0 0200000000630200000000010800\n";

// Whether a line names a pool of four buffers, so many of which stand in queues.
fn is_line(line: &Census, name: &str, queues: u32) -> bool {
    line.name.as_str() == name
        && line.buffers == 4
        && line.queues == queues
        && line.hands == 4u32.saturating_sub(queues)
        && line.lent == 0
}

// Whether each of two ports has the one frame that is for it, the third is lost, and the buffers
// are where they must be.
fn is_row(report: &PortReport) -> bool {
    let records = report.records.as_slice();
    let pools = report.pools.as_slice();
    if records.len() != 2 || pools.len() != 4 {
        return false;
    }
    records[0].len() == 1
        && records[0].get(0) == [255, 255, 255, 255, 255, 255, 2, 0, 0, 0, 0, 2, 8, 0].as_slice()
        && records[1].len() == 1
        && records[1].get(0) == [2, 0, 0, 0, 0, 2, 2, 0, 0, 0, 0, 1, 8, 0].as_slice()
        && is_line(&pools[0], "switch.0.rx", 4)
        && is_line(&pools[1], "switch.0.tx", 2)
        && is_line(&pools[2], "switch.1.rx", 4)
        && is_line(&pools[3], "switch.1.tx", 1)
        && report.lost == 1
}

// Whether a play gets quiet with what it must give.
fn is_quiet_row(alloc: Global, seed: u64) -> Result<bool, Memory> {
    let Some(report) = played(alloc, TWO, seed, None)? else {
        return Ok(false);
    };
    Ok(report.quiet && is_row(&report))
}

fn two_ports_get_what_is_for_them(alloc: Global) -> Result<bool, Memory> {
    let mut right = true;
    for seed in 0..10u64 {
        right = is_quiet_row(alloc, seed)? && right;
    }
    Ok(right)
}

/// Prints the rows of two ports.
pub fn print_two_ports(rt: &HostRuntime) -> io::Result<()> {
    let alloc = rt.alloc();
    tell(
        rt,
        "two ports get what is for them",
        two_ports_get_what_is_for_them(alloc),
    )?;
    tell(
        rt,
        "one step fewer is too few for two ports",
        is_spent_before(alloc, TWO, 7),
    )
}
