//! What network clients record and send.

use cargo_core::{FrameLog, Memory};
use class_expect::answers_for;
use expect_core::{Report, frames_for};
use frame_core::{Mac, read_mac};
use sdf_plan::{Net, Plan};
use std::alloc::Global;
use trace_text::{Trace, is_net_rogue, is_source, runs};

// Whether frames are a beginning of others, or all of them where that is wanted.
fn begin_frames(frames: &FrameLog, wanted: &FrameLog, whole: bool) -> bool {
    if frames.len() > wanted.len() || whole && frames.len() < wanted.len() {
        return false;
    }
    for k in 0..frames.len() {
        if k < wanted.len() && frames.get(k) != wanted.get(k) {
            return false;
        }
    }
    true
}

// Whether frames stand among others in their order.
fn stand_in_order(frames: &FrameLog, among: &FrameLog) -> bool {
    let mut found = 0;
    for k in 0..among.len() {
        if found < frames.len() && among.get(k) == frames.get(found) {
            found += 1;
        }
    }
    found == frames.len()
}

// Whether those frames of a wire that name an address as their source are a beginning of what is to
// be sent, or all of it where that is wanted.
fn are_from(wire: &FrameLog, mac: Mac, sends: &FrameLog, whole: bool) -> bool {
    let mut found = 0;
    for k in 0..wire.len() {
        let frame = wire.get(k);
        if frame.len() >= 12 && frame[6..].starts_with(&mac.0) {
            if found >= sends.len() || sends.get(found) != frame {
                return false;
            }
            found += 1;
        }
    }
    !whole || found == sends.len()
}

// The address of a client.
fn mac_of(net: &Net, client: usize) -> Option<Mac> {
    match net.client.as_slice().get(client) {
        Some(client) => read_mac(client.mac.as_str()),
        None => None,
    }
}

// The frames that a client must send which the trace doesn't say: an echo's.
fn answers_of(
    alloc: Global,
    plan: &Plan,
    net: &Net,
    trace: &Trace,
    client: usize,
) -> Result<FrameLog, Memory> {
    let domains = plan.protection_domain.as_slice();
    match (net.client.as_slice().get(client), mac_of(net, client)) {
        (Some(client), Some(mac)) if runs(domains, &client.pd, "net_echo") => {
            answers_for(alloc, trace.frames(), mac)
        }
        _ => Ok(FrameLog::new(alloc)),
    }
}

// Whether a wire has frames that are to be sent: where a source is given those of that source, and
// all of them where that is wanted, and else all of them, in their order.
fn has_sent(wire: &FrameLog, sends: &FrameLog, source: Option<Mac>, whole: bool) -> bool {
    match source {
        Some(mac) => are_from(wire, mac, sends, whole),
        None => stand_in_order(sends, wire),
    }
}

/// How many frames a client must send, and whether the wire has them.
pub fn sent(
    alloc: Global,
    plan: &Plan,
    net: &Net,
    trace: &Trace,
    wire: &FrameLog,
    client: usize,
    source: Option<Mac>,
    whole: bool,
) -> Result<(usize, bool), Memory> {
    if is_source(plan, client as u64) && client < trace.sends.len() {
        let sends = trace.sends.get(client);
        return Ok((sends.len(), has_sent(wire, sends, source, whole)));
    }
    let sends = answers_of(alloc, plan, net, trace, client)?;
    Ok((sends.len(), has_sent(wire, &sends, source, whole)))
}

/// How many frames a client must record, and whether its record is a beginning of them, or all of
/// them where that is wanted.
pub fn recorded(
    alloc: Global,
    net: &Net,
    trace: &Trace,
    record: &FrameLog,
    client: usize,
    whole: bool,
) -> Result<(usize, bool), Memory> {
    let Some(mac) = mac_of(net, client) else {
        return Ok((0, false));
    };
    let wanted = frames_for(alloc, trace, mac)?;
    Ok((wanted.len(), begin_frames(record, &wanted, whole)))
}

/// Whether what each network client recorded and sent is right, beside hostile ones, which record
/// nothing. In a class without one it is all of it in a quiet play. Frames that clients send have
/// their own address as their source; a hostile one has no such frame.
pub fn is_network_right(
    alloc: Global,
    plan: &Plan,
    trace: &Trace,
    report: &Report,
) -> Result<bool, Memory> {
    let (Some(net), Some(wire)) = (&plan.net, &report.wire) else {
        return Ok(plan.net.is_none());
    };
    let mut whole = report.quiet;
    for client in 0..net.client.len() {
        whole = whole && !is_net_rogue(plan, client as u64);
    }
    let mut right = report.net.len() == net.client.len();
    for client in 0..report.net.len() {
        let record = report.net.get(client);
        if is_net_rogue(plan, client as u64) {
            right = record.is_empty() && right;
        } else {
            let (_, begins) = recorded(alloc, net, trace, record, client, whole)?;
            let mac = mac_of(net, client);
            let (_, sends) = sent(alloc, plan, net, trace, wire, client, mac, whole)?;
            right = begins && sends && right;
        }
    }
    Ok(right)
}
