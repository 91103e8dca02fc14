//! The heads of the lanes, and what is drawn of each step.
ghost use Rattle.std.specs.Prelude.{◌≡◌, ◌≤◌, ◌<◌, ◌^◌, ◌++◌, length, IfOk, OnOk};
ghost use Rattle.std.specs.Prelude.{drop, string_bytes};
ghost use Rattle.pictures.specs.PlayPicture.Lanes.{IsSmall};
ghost use Rattle.pictures.specs.PlayPicture.Chart.{step_label, tick_shapes};
ghost use Rattle.pictures.specs.PlayPicture.Chart.{drawn_shapes, step_shapes, draw_each, head_shapes};

use crate::play_picture::arrows::{add_put, add_take, queue_name};
use crate::play_picture::lanes::Lanes;
use crate::play_picture::words::{bell_ink, op_parts};
use cargo_core::{Memory, Series, Text};
use picture_kit::{Area, Form, Ink, Shape, Spot};
use std::alloc::Global;
use wire_core::{Entry, Op, QueueRow};

// The label of a step: its number, the call and the queue.
fn step_label(alloc: Global, queue: &str, k: usize, op: Op) -> Result<String, Memory>
    ensures { IfOk result (λ label. string_bytes label ≡ step_label queue.now k op) }
{
    let (call, side) = op_parts(op);
    let mut label = format!(in alloc; "{k} {call}")?;
    write!(label, "{side} {queue}")?;
    Ok(label)
}

// Appends the mark of a step at a bell, or of a look that was answered no.
fn add_tick(
    alloc: Global,
    shapes: &mut Series<Shape>,
    lanes: &Lanes,
    label: &str,
    k: usize,
    entry: &Entry,
) -> Result<(), Memory>
    requires small { IsSmall lanes.now }
    requires rows { k < 2 ^ 32 }
    ensures { OnOk result (shapes.new ≡ shapes.old
        ++ tick_shapes lanes.now label.now k entry.now) }
{
    match bell_ink(&entry.event) {
        Some(ink) => {
            let x = lanes.middle_x(entry.actor.0 as u64) - 4;
            let y = lanes.step_y(k as u64) - 4;
            let area = Area {
                x,
                y,
                width: 8,
                height: 8,
            };
            shapes.push(Shape::noted(alloc, ink, Form::Block(area), label)?)
        }
        None => Ok(()),
    }
}

// Appends what is drawn of a call.
fn add_drawn(
    alloc: Global,
    shapes: &mut Series<Shape>,
    lanes: &Lanes,
    names: (&str, &str),
    journal: &[Entry],
    k: usize,
    entry: &Entry,
) -> Result<(), Memory>
    requires small { IsSmall lanes.now }
    requires at { k ≤ length journal.now }
    requires few { length journal.now < 2 ^ 32 }
    ensures { OnOk result (shapes.new ≡ shapes.old ++ drawn_shapes lanes.now names.entry.0.now
        names.entry.1.now journal.now k entry.now) }
{
    match entry.event.op {
        Op::Put => add_put(alloc, shapes, lanes, names.0, journal, k, entry),
        Op::Take => add_take(alloc, shapes, lanes, journal, k, entry),
        _ => add_tick(alloc, shapes, lanes, names.1, k, entry),
    }
}

// Appends a step: its label, and what is drawn of its call.
fn add_step(
    alloc: Global,
    shapes: &mut Series<Shape>,
    lanes: &Lanes,
    queues: &[QueueRow],
    journal: &[Entry],
    k: usize,
    entry: &Entry,
) -> Result<(), Memory>
    requires small { IsSmall lanes.now }
    requires at { k ≤ length journal.now }
    requires few { length journal.now < 2 ^ 32 }
    ensures { OnOk result (shapes.new ≡ shapes.old
        ++ step_shapes lanes.now queues.now journal.now k entry.now) }
{
    let queue = queue_name(queues, entry.event.queue.0 as usize);
    let label = step_label(alloc, queue, k, entry.event.op)?;
    let y = lanes.step_y(k as u64) + 4;
    shapes.push(Shape::words(alloc, Ink::Label, 16, y, label.as_str())?)?;
    add_drawn(
        alloc,
        shapes,
        lanes,
        (queue, label.as_str()),
        journal,
        k,
        entry,
    )
}

/// Appends each step of a journal from a place on.
pub fn add_steps(
    alloc: Global,
    shapes: &mut Series<Shape>,
    lanes: &Lanes,
    queues: &[QueueRow],
    journal: &[Entry],
    from: usize,
) -> Result<(), Memory>
    requires small { IsSmall lanes.now }
    requires rows { length journal.now < 2 ^ 32 }
    ensures { OnOk result (shapes.new ≡ shapes.old ++ draw_each
        (step_shapes lanes.now queues.now journal.now) from (drop from journal.now)) }
{
    for k in from..journal.len() {
        add_step(alloc, shapes, lanes, queues, journal, k, &journal[k])?;
    }
    Ok(())
}

// Appends the head of a lane: its actor's name in a box, and the lane below it.
fn add_head(
    alloc: Global,
    shapes: &mut Series<Shape>,
    lanes: &Lanes,
    a: u64,
    name: &Text,
) -> Result<(), Memory>
    requires small { IsSmall lanes.now }
    requires rows { a ≤ 65536 }
    ensures { OnOk result (shapes.new ≡ shapes.old ++ head_shapes lanes.now a name.now) }
{
    let (x, middle) = (lanes.lane_x(a), lanes.middle_x(a));
    let width = lanes.lane_width() - 8;
    let area = Area {
        x,
        y: 64,
        width,
        height: 24,
    };
    let end = Spot::new(middle, lanes.height() - 8);
    shapes.push(Shape::noted(alloc, Ink::Domain, Form::Block(area), "")?)?;
    shapes.push(Shape::words(alloc, Ink::Label, x + 4, 80, name.as_str())?)?;
    shapes.push(Shape::line(alloc, Ink::Lane, Spot::new(middle, 88), end)?)
}

/// Appends the head of each lane.
pub fn add_heads(
    alloc: Global,
    shapes: &mut Series<Shape>,
    lanes: &Lanes,
    actors: &[Text],
) -> Result<(), Memory>
    requires small { IsSmall lanes.now }
    requires rows { length actors.now ≤ 65536 }
    ensures { OnOk result (shapes.new ≡ shapes.old
        ++ draw_each (head_shapes lanes.now) 0 actors.now) }
{
    for a in 0..actors.len() {
        add_head(alloc, shapes, lanes, a as u64, &actors[a])?;
    }
    Ok(())
}
