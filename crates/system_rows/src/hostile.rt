//! Plays beside hostile clients whose acts are drawn: the play of a number has that seed and that
//! number's script for each hostile client. Each third play has a limit that it may meet.
ghost use Rattle.sdf_check.specs.Valid.{Valid};
ghost use Rattle.trace_text.specs.Traces.{IsReadFor};

use crate::blocks::is_block_right;
use crate::network::is_network_right;
use crate::placing::{are_at_home, do_add_up, goes_right, pool_of};
use crate::scripts::{Buffers, Hostile};
use crate::serial::is_serial_right;
use cargo_core::Memory;
use expect_core::Report;
use region_layout::Layout;
use sdf_plan::Plan;
use std::alloc::Global;
use system_core::Ending;
use trace_text::{Trace, is_blk_rogue, is_net_rogue, is_serial_rogue};
use wire_core::Entry;

/// The most steps of a play that is to get quiet.
const AMPLE: u64 = 1_000_000;

/// What plays came to: how many there were, how many of them were right, how many had ample room to
/// get quiet, how many got quiet then, in how many there were bad entries, and the first that was
/// wrong.
#[derive(Clone, Copy)]
pub struct Tally {
    pub plays: u64,
    pub right: u64,
    pub ample: u64,
    pub quiet: u64,
    pub bad: u64,
    pub wrong: Option<u64>,
}

/// How many steps the play of a number makes at most.
pub fn limit_of(number: u64) -> u64 {
    if number % 3 == 2 {
        number.saturating_mul(7).saturating_add(1)
    } else {
        AMPLE
    }
}

// The buffers of a pool of a client, as the acts of its client name them.
fn buffers_of(layout: &Layout, class: &str, client: usize, last: &str) -> Buffers {
    match pool_of(layout, class, client, last) {
        Some(row) => Buffers {
            base: row.base,
            many: u64::from(row.buffers),
            size: u64::from(row.size),
        },
        None => Buffers {
            base: 0,
            many: 1,
            size: 1,
        },
    }
}

// The hostile client of a number of each class, if it is one.
fn hostile_of(plan: &Plan, layout: &Layout, client: usize) -> [Option<Hostile<'static>>; 3] {
    let number = client as u64;
    let net = Hostile {
        class: "net",
        client: number,
        inputs: 2,
        buffers: buffers_of(layout, "net", client, "tx"),
    };
    let serial = Hostile {
        class: "serial",
        inputs: 1,
        ..net
    };
    let blk = Hostile {
        class: "blk",
        buffers: buffers_of(layout, "blk", client, ""),
        ..serial
    };
    [
        is_net_rogue(plan, number).then_some(net),
        is_serial_rogue(plan, number).then_some(serial),
        is_blk_rogue(plan, number).then_some(blk),
    ]
}

/// Adds the script of a number for each hostile client.
pub fn add_scripts(
    to: &mut String,
    plan: &Plan,
    layout: &Layout,
    number: u64,
) -> Result<(), Memory> {
    for client in 0..8usize {
        for hostile in &hostile_of(plan, layout, client) {
            if let Some(hostile) = hostile {
                hostile.add_script(to, number)?;
            }
        }
    }
    Ok(())
}

/// Whether what a play came to is right.
pub fn is_right(
    alloc: Global,
    plan: &Plan,
    layout: &Layout,
    trace: &Trace,
    journal: &[Entry],
    report: &Report,
) -> Result<bool, Memory>
    requires valid { Valid plan.now }
    requires trace { IsReadFor plan.now trace.now }
{
    let adds_up = do_add_up(report)
        && goes_right(plan, layout, journal)
        && (!report.quiet || are_at_home(plan, layout, report, journal));
    Ok(
        adds_up
            && is_network_right(alloc, plan, trace, report)?
            && is_serial_right(alloc, plan, trace, report)?
            && is_block_right(alloc, plan, trace, report)?,
    )
}

impl Tally {
    /// No play yet.
    pub fn new() -> Tally {
        Tally {
            plays: 0,
            right: 0,
            ample: 0,
            quiet: 0,
            bad: 0,
            wrong: None,
        }
    }

    /// Adds the play of a number.
    pub fn add(&mut self, number: u64, right: bool, ending: Ending) {
        self.plays = self.plays.saturating_add(1);
        self.right = self.right.saturating_add(u64::from(right));
        if !right && self.wrong.is_none() {
            self.wrong = Some(number);
        }
        if limit_of(number) == AMPLE {
            self.ample = self.ample.saturating_add(1);
            let quiet = u64::from(ending == Ending::Quiet);
            self.quiet = self.quiet.saturating_add(quiet);
        }
    }

    /// Adds what the plays came to.
    pub fn add_told(&self, to: &mut String) -> Result<(), Memory> {
        write!(to, "{} of {} right, ", self.right, self.plays)?;
        write!(to, "{} of {} quiet", self.quiet, self.ample)?;
        if self.bad > 0 {
            to.push_str(", with bad entries")?;
        }
        if let Some(number) = self.wrong {
            write!(to, ", and {number} is wrong")?;
        }
        to.push_str("\n")?;
        Ok(())
    }
}

/// The classes, each with the programs of a hostile client and of one that isn't.
const CLASSES: [(&str, &str, &str); 3] = [
    ("net", "net_rogue", "net_sink"),
    ("serial", "serial_rogue", "serial_reader"),
    ("blk", "blk_rogue", "blk_script"),
];

/// The text of a description, in which the hostile clients of the classes that aren't named are
/// clients that aren't hostile.
pub fn calmed(alloc: Global, text: &str, classes: &str) -> Result<String, Memory> {
    let mut calm = String::from_str(alloc, text)?;
    for (class, hostile, other) in &CLASSES {
        if !classes.contains(*class) {
            calm = calm.replace(alloc, *hostile, *other)?;
        }
    }
    Ok(calm)
}
