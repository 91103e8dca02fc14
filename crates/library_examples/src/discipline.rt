//! `turn_kit`: an end of a queue finds its next call in a table.

use crate::world::one_queue;
use cargo_core::{Body, Item, Memory};
use std::alloc::Global;
use turn_kit::{Intake, Outlet};
use wire_core::{Event, QueueId};

// Appends a call, and what it answered.
fn add_event(to: &mut String, event: &Event) -> Result<(), Memory> {
    write!(to, "{:?} {:?}\n", event.op, event.answer)?;
    Ok(())
}

/// The producing end of a queue puts a byte, and the consuming end takes it. After so many calls
/// both are settled.
pub fn show_discipline(alloc: Global) -> Result<String, Memory> {
    let mut world = one_queue(alloc)?;
    let mut outlet = Outlet::new(QueueId(0));
    let mut intake = Intake::new(QueueId(0));
    let mut load = Some((Item::Byte(97), Body::Empty));
    let mut text = String::new(alloc);
    for _put in 0..5 {
        let event = outlet.step(&mut world, &mut load);
        add_event(&mut text, &event)?;
    }
    let mut taken = None;
    for _take in 0..3 {
        let (event, entry) = intake.step(&mut world, taken.is_none());
        if entry.is_some() {
            taken = entry;
        }
        add_event(&mut text, &event)?;
    }
    write!(
        text,
        "the outlet is settled: {}\n",
        outlet.settled(load.is_some())
    )?;
    write!(
        text,
        "the intake is settled: {}\n",
        intake.settled(taken.is_none())
    )?;
    Ok(text)
}
