//! What serial clients record, and what stands on the line.
ghost use Rattle.std.specs.Prelude.{◌<◌};

use cargo_core::Memory;
use expect_core::{Report, input_of};
use sdf_plan::Plan;
use std::alloc::Global;
use trace_text::{Trace, is_serial_rogue};

// Whether bytes are a beginning of others, or all of them where that is wanted.
fn begin_bytes(bytes: &[u8], wanted: &[u8], whole: bool) -> bool {
    wanted.starts_with(bytes) && (!whole || bytes.len() == wanted.len())
}

// Whether those bytes of a line that a client says are a beginning of what it says, or all of it
// where that is wanted.
fn are_said(line: &[u8], says: &[u8], whole: bool) -> bool {
    let mut found = 0;
    for byte in line {
        if says.contains(byte) {
            if found >= says.len() || says[found] != *byte {
                return false;
            }
            found += 1;
        }
    }
    !whole || found == says.len()
}

/// Whether the record of a client is a beginning of what the trace gives it, of so many clients, or
/// all of it where that is wanted.
pub fn is_record_right(
    alloc: Global,
    trace: &Trace,
    record: &[u8],
    clients: usize,
    client: usize,
    whole: bool,
) -> Result<bool, Memory> {
    let (Ok(clients), Ok(client)) = (u32::try_from(clients), u32::try_from(client)) else {
        return Ok(false);
    };
    if client >= clients {
        return Ok(false);
    }
    let wanted = input_of(alloc, trace, clients, client)?;
    Ok(begin_bytes(record, wanted.as_slice(), whole))
}

/// Whether what each serial client recorded and said is right, beside hostile ones, which record
/// nothing. In a class without one it is all of it in a quiet play. No byte is said by two clients,
/// and none that a hostile one puts by one that isn't.
pub fn is_serial_right(
    alloc: Global,
    plan: &Plan,
    trace: &Trace,
    report: &Report,
) -> Result<bool, Memory> {
    let Some(line) = &report.line else {
        return Ok(true);
    };
    let clients = report.serial.len();
    let mut whole = report.quiet;
    for client in 0..clients {
        whole = whole && !is_serial_rogue(plan, client as u64);
    }
    let mut right = clients <= trace.says.len();
    for client in 0..clients {
        let record = report.serial.get(client).as_slice();
        if is_serial_rogue(plan, client as u64) {
            right = right && record.is_empty();
        } else if client < trace.says.len() {
            let said = are_said(line.as_slice(), trace.says.get(client).as_slice(), whole);
            right = is_record_right(alloc, trace, record, clients, client, whole)? && said && right;
        }
    }
    Ok(right)
}
