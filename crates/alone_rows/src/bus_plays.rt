//! Plays of buses.
ghost use Rattle.i2c_text.specs.Buses.{IsReadBus};

use crate::bus_texts::{CLAIMS, SEVEN, busy_text};
use cargo_core::Memory;
use i2c_play::{bus_bound, play_bus};
use i2c_text::{Bus, BusFault, BusReport, BusStatus, read_bus};
use std::alloc::Global;

// What a play of a bus that was read reports, with so many steps or as many as are enough.
fn play(alloc: Global, bus: &Bus, seed: u64, steps: Option<u64>) -> Result<BusReport, Memory>
    requires { IsReadBus bus.now }
{
    let limit = match steps {
        Some(steps) => steps,
        None => bus_bound(bus),
    };
    Ok(play_bus(alloc, bus, seed, limit)?)
}

/// What a play of a bus reports, with so many steps or as many as are enough; none where a line of
/// its text is bad.
pub fn played(
    alloc: Global,
    text: &str,
    seed: u64,
    steps: Option<u64>,
) -> Result<Option<BusReport>, Memory> {
    match read_bus(alloc, text.as_bytes()) {
        Ok(bus) => Ok(Some(play(alloc, &bus, seed, steps)?)),
        Err(BusFault::BadLine(_)) => Ok(None),
        Err(BusFault::Memory(memory)) => Err(memory),
    }
}

/// How many answers ended so.
fn count_of(report: &BusReport, status: BusStatus) -> u64 {
    let mut count = 0u64;
    for replies in report.replies.as_slice() {
        for reply in replies.as_slice() {
            if reply.status == status {
                count = count.saturating_add(1);
            }
        }
    }
    count
}

// Whether a play of two claims of one device is quiet, with one that was granted and one that
// wasn't.
fn has_one_owner(alloc: Global, seed: u64) -> Result<bool, Memory> {
    match played(alloc, CLAIMS, seed, None)? {
        Some(report) => Ok(
            report.quiet
                && count_of(&report, BusStatus::Ok) == 1
                && count_of(&report, BusStatus::Taken) == 1,
        ),
        None => Ok(false),
    }
}

// Whether a play of eight busy clients is quiet, and all 1,024 requests are answered.
fn is_answered(alloc: Global, text: &str, seed: u64) -> Result<bool, Memory> {
    let Some(report) = played(alloc, text, seed, None)? else {
        return Ok(false);
    };
    let mut count = 0usize;
    for replies in report.replies.as_slice() {
        count = count.saturating_add(replies.len());
    }
    Ok(report.quiet && count == 1024)
}

// Whether a play is quiet after just so many steps as it makes, and spent with one fewer.
fn is_spent_before(alloc: Global, text: &str, seed: u64) -> Result<bool, Memory> {
    let Some(whole) = played(alloc, text, seed, None)? else {
        return Ok(false);
    };
    let Some(just) = played(alloc, text, seed, Some(whole.steps))? else {
        return Ok(false);
    };
    let Some(short) = played(alloc, text, seed, Some(whole.steps.saturating_sub(1)))? else {
        return Ok(false);
    };
    Ok(whole.quiet && just.quiet && !short.quiet && short.steps.saturating_add(1) == whole.steps)
}

/// What is printed of buses.
pub fn bus_lines(alloc: Global) -> Result<String, Memory> {
    let mut text = String::new(alloc);
    if let Ok(bus) = read_bus(alloc, SEVEN.as_bytes()) {
        write!(
            text,
            "seven requests of two clients: {} steps are enough\n",
            bus_bound(&bus)
        )?;
    }
    let mut owned = 0u64;
    let mut spent = 0u64;
    for seed in 0..10u64 {
        if has_one_owner(alloc, seed)? {
            owned = owned.saturating_add(1);
        }
        if is_spent_before(alloc, SEVEN, seed)? {
            spent = spent.saturating_add(1);
        }
    }
    write!(
        text,
        "two claims of one device: one is granted in {owned} of 10 plays\n"
    )?;
    write!(
        text,
        "one step fewer than it takes: spent in {spent} of 10 plays\n"
    )?;
    let busy = busy_text(alloc)?;
    let mut answered = 0u64;
    for seed in 0..100u64 {
        if is_answered(alloc, busy.as_str(), seed)? {
            answered = answered.saturating_add(1);
        }
    }
    write!(
        text,
        "1024 requests of eight clients: all answered in {answered} of 100 plays\n"
    )?;
    Ok(text)
}
