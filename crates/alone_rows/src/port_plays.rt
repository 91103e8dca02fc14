//! Plays of switches.
ghost use Rattle.line_text.specs.PortsText.Given.{ArePorts};

use crate::port_texts::{SENDS, TO_ITSELF, busy_text, target_of, two_to_one};
use cargo_core::{FrameLog, Memory};
use line_text::ports_text::{PortFault, PortReport, Ports, read_ports};
use std::alloc::Global;
use switch_play::{play_ports, ports_bound};

// What a play of ports that were read reports, with so many steps or as many as are enough.
fn play(alloc: Global, ports: &Ports, seed: u64, steps: Option<u64>) -> Result<PortReport, Memory>
    requires { ArePorts ports.now }
{
    let limit = match steps {
        Some(steps) => steps,
        None => ports_bound(ports),
    };
    Ok(play_ports(alloc, ports, seed, limit)?)
}

/// What a play of a switch reports, with so many steps or as many as are enough; none where a line
/// of its text is bad.
pub fn played(
    alloc: Global,
    text: &str,
    seed: u64,
    steps: Option<u64>,
) -> Result<Option<PortReport>, Memory> {
    match read_ports(alloc, text.as_bytes()) {
        Ok(ports) => Ok(Some(play(alloc, &ports, seed, steps)?)),
        Err(PortFault::BadLine(_)) => Ok(None),
        Err(PortFault::Memory(memory)) => Err(memory),
    }
}

// Whether a frame of eight ports is for a receiver.
fn is_for(number: u64, sender: u64, receiver: u64) -> bool {
    let target = target_of(number);
    sender != receiver && (target == receiver || target == 8)
}

// The next number, from this one on, of a sender's frames that is for a receiver; `SENDS` where
// there is none.
fn next_for(number: u64, sender: u64, receiver: u64) -> u64 {
    for next in number..SENDS {
        if is_for(next, sender, receiver) {
            return next;
        }
    }
    SENDS
}

// The port that sent a frame, and its number.
fn origin_of(frame: &[u8]) -> (u64, u64) {
    if frame.len() != 15 {
        return (u64::MAX, u64::MAX);
    }
    (u64::from(frame[11]).saturating_sub(1), u64::from(frame[14]))
}

// Whether a receiver recorded just the frames of a sender that are for it, in their order.
fn has_all(frames: &FrameLog, sender: u64, receiver: u64) -> bool {
    let mut next = next_for(0, sender, receiver);
    for k in 0..frames.len() {
        let (from, number) = origin_of(frames.get(k));
        if from == sender {
            if number != next {
                return false;
            }
            next = next_for(next.saturating_add(1), sender, receiver);
        }
    }
    next == SENDS
}

// Whether each receiver has all that each sender sends it, and as many frames are lost as go to no
// port.
fn is_whole(report: &PortReport) -> bool {
    let mut lost = 0u64;
    for sender in 0..8u64 {
        for number in 0..SENDS {
            let target = target_of(number);
            if target == 9 || target == sender {
                lost = lost.saturating_add(1);
            }
        }
    }
    let mut right = 0u64;
    let mut receiver = 0u64;
    for frames in report.records.as_slice() {
        for sender in 0..8u64 {
            if has_all(frames, sender, receiver) {
                right = right.saturating_add(1);
            }
        }
        receiver = receiver.saturating_add(1);
    }
    report.quiet && right == 64 && report.lost == lost
}

// Whether the frames of a sender come in the order of their numbers, each of so many.
fn is_in_order(frames: &FrameLog, sender: u64, count: u64) -> bool {
    let mut next = 0u64;
    for k in 0..frames.len() {
        let (from, number) = origin_of(frames.get(k));
        if from == sender {
            if number != next {
                return false;
            }
            next = next.saturating_add(1);
        }
    }
    next == count
}

// Whether the third port has all frames of the first two, each sender's in order, and none is lost.
fn has_both(alloc: Global, text: &str, seed: u64) -> Result<bool, Memory> {
    let Some(report) = played(alloc, text, seed, None)? else {
        return Ok(false);
    };
    if report.records.len() != 3 {
        return Ok(false);
    }
    let frames = report.records.get(2);
    Ok(
        report.quiet
            && report.lost == 0
            && frames.len() == 200
            && is_in_order(frames, 0, 100)
            && is_in_order(frames, 1, 100),
    )
}

/// Whether a play is quiet after just so many steps as it makes, and spent with one fewer.
pub fn is_spent_before(alloc: Global, text: &str, seed: u64) -> Result<bool, Memory> {
    let Some(whole) = played(alloc, text, seed, None)? else {
        return Ok(false);
    };
    let Some(just) = played(alloc, text, seed, Some(whole.steps))? else {
        return Ok(false);
    };
    let Some(short) = played(alloc, text, seed, Some(whole.steps.saturating_sub(1)))? else {
        return Ok(false);
    };
    Ok(whole.quiet && just.quiet && !short.quiet && short.steps.saturating_add(1) == whole.steps)
}

/// What is printed of switches.
pub fn port_lines(alloc: Global) -> Result<String, Memory> {
    let mut text = String::new(alloc);
    if let Ok(ports) = read_ports(alloc, TO_ITSELF.as_bytes()) {
        write!(
            text,
            "one frame of two ports: {} steps are enough\n",
            ports_bound(&ports)
        )?;
    }
    let two = two_to_one(alloc, 100)?;
    let mut both = 0u64;
    let mut spent = 0u64;
    let mut lost = 0u64;
    for seed in 0..10u64 {
        if has_both(alloc, two.as_str(), seed)? {
            both = both.saturating_add(1);
        }
        if is_spent_before(alloc, two.as_str(), seed)? {
            spent = spent.saturating_add(1);
        }
        if let Some(report) = played(alloc, TO_ITSELF, seed, None)?
            && report.lost == 1
        {
            lost = lost.saturating_add(1);
        }
    }
    write!(
        text,
        "100 frames of each of two ports: all in order in {both} of 10 plays\n"
    )?;
    write!(
        text,
        "one step fewer than it takes: spent in {spent} of 10 plays\n"
    )?;
    write!(text, "a frame to its sender: lost in {lost} of 10 plays\n")?;
    let busy = busy_text(alloc)?;
    let mut whole = 0u64;
    for seed in 0..100u64 {
        if let Some(report) = played(alloc, busy.as_str(), seed, None)?
            && is_whole(&report)
        {
            whole = whole.saturating_add(1);
        }
    }
    write!(
        text,
        "1024 frames of eight ports: all in order in {whole} of 100 plays\n"
    )?;
    Ok(text)
}
