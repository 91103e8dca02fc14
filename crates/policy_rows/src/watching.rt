//! What serial clients must show that hold or drop, beside hostile ones.
ghost use Rattle.std.specs.Prelude.{◌<◌};

use crate::marks::{drops, left_of};
use crate::tally::Tally;
use cargo_core::Memory;
use expect_core::{Report, input_of};
use region_layout::Layout;
use sdf_plan::Plan;
use std::alloc::Global;
use trace_text::{Trace, is_serial_rogue};
use wire_core::Entry;

/// What is seen of a play.
#[derive(Clone, Copy)]
pub struct Seen<'a> {
    pub plan: &'a Plan,
    pub layout: &'a Layout,
    pub trace: &'a Trace,
    pub journal: &'a [Entry],
    pub report: &'a Report,
}

// Whether bytes stand among others in their order.
fn stand_in_order(bytes: &[u8], among: &[u8]) -> bool {
    let mut found = 0;
    for byte in among {
        if found < bytes.len() && *byte == bytes[found] {
            found += 1;
        }
    }
    found == bytes.len()
}

// Whether bytes are a beginning of others, or all of them where that is wanted.
fn begin(bytes: &[u8], wanted: &[u8], whole: bool) -> bool {
    wanted.starts_with(bytes) && (!whole || bytes.len() == wanted.len())
}

// Whether those bytes of a line that a client says are a beginning of what it says, or all of it
// where that is wanted.
fn are_said(line: &[u8], says: &[u8], whole: bool) -> bool {
    let mut found = 0;
    for byte in line {
        if says.contains(byte) {
            if found >= says.len() || says[found] != *byte {
                return false;
            }
            found += 1;
        }
    }
    !whole || found == says.len()
}

// Whether the record of a client is right, of which the trace gives it this input.
fn is_record_right(
    alloc: Global,
    seen: Seen<'_>,
    client: usize,
    record: &[u8],
    input: &[u8],
    whole: bool,
    tally: &mut Tally,
) -> Result<bool, Memory> {
    let left = left_of(alloc, seen.plan, seen.layout, seen.journal, client, input)?;
    tally.add_record(client, record.len(), input.len(), left.len() < input.len());
    if is_serial_rogue(seen.plan, client as u64) {
        return Ok(record.is_empty());
    }
    Ok(stand_in_order(record, input) && begin(record, &left, whole))
}

// Whether what a client recorded and said is right.
fn is_client_right(
    alloc: Global,
    seen: Seen<'_>,
    client: u32,
    clients: u32,
    whole: bool,
    tally: &mut Tally,
) -> Result<bool, Memory>
    requires { client < clients }
{
    let place = client as usize;
    let (Some(record), Some(says), Some(line)) = (
        seen.report.serial.as_slice().get(place),
        seen.trace.says.as_slice().get(place),
        &seen.report.line,
    ) else {
        return Ok(false);
    };
    if !are_said(line.as_slice(), says.as_slice(), whole) {
        return Ok(false);
    }
    let input = input_of(alloc, seen.trace, clients, client)?;
    is_record_right(
        alloc,
        seen,
        place,
        record.as_slice(),
        input.as_slice(),
        whole,
        tally,
    )
}

/// Whether what each client recorded and said is right. No byte is said by two of them, and none
/// that a hostile one puts by one that isn't.
pub fn is_right(alloc: Global, seen: Seen<'_>, tally: &mut Tally) -> Result<bool, Memory> {
    let Ok(clients) = u32::try_from(seen.report.serial.len()) else {
        return Ok(false);
    };
    let mut whole = seen.report.quiet;
    for k in 0..clients {
        let is_kept_up = is_serial_rogue(seen.plan, u64::from(k)) && !drops(seen.plan, k as usize);
        whole = whole && !is_kept_up;
    }
    let mut right = true;
    for k in 0..clients {
        right = is_client_right(alloc, seen, k, clients, whole, tally)? && right;
    }
    Ok(right)
}
