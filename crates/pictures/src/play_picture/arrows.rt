//! The arrows from puts to takes.
ghost use Rattle.std.specs.Prelude.{◌≡◌, ◌≤◌, ◌<◌, ◌^◌, ◌++◌, length, IfOk, OnOk, string_bytes};
ghost use Rattle.pictures.specs.PlayPicture.Lanes.{IsSmall};
ghost use Rattle.pictures.specs.PlayPicture.Arrows.{queue_name, shown_partner, step_spot, dot_ink};
ghost use Rattle.pictures.specs.PlayPicture.Arrows.{arrow_ink, passed_note, passed, open_end, open_start};
ghost use Rattle.pictures.specs.PlayPicture.Arrows.{put_arrow, dot, put_shapes, take_shapes};

use crate::play_picture::lanes::Lanes;
use crate::play_picture::pairs::{Way, partner_of};
use crate::play_picture::words::buffer_ink;
use cargo_core::{Item, Memory, Series};
use picture_kit::{Form, Ink, Segment, Shape, Spot, kind_ink};
use std::alloc::Global;
use wire_core::{Entry, QueueRow};

/// The name of a queue; nothing where there is none of this number.
pub fn queue_name(queues: &[QueueRow], q: usize) -> &str
    ensures { result.now ≡ queue_name queues.now q }
{
    match queues.get(q) {
        Some(queue) => queue.name.as_str(),
        None => "",
    }
}

// The partner of a put or a take, if it is in the chart.
fn shown_partner(
    lanes: &Lanes,
    journal: &[Entry],
    way: Way,
    k: usize,
    entry: &Entry,
) -> Option<usize>
    requires small { IsSmall lanes.now }
    requires rows { k ≤ length journal.now }
    ensures { result ≡ shown_partner lanes.now journal.now way k entry.now }
{
    match partner_of(way, journal, k, entry) {
        Some(j) => {
            if (j as u64) < lanes.from {
                None
            } else {
                Some(j)
            }
        }
        None => None,
    }
}

// Where a step of an actor is.
fn step_spot(lanes: &Lanes, actor: u16, step: usize) -> Spot
    requires small { IsSmall lanes.now }
    requires rows { step < 2 ^ 32 }
    ensures spot { result ≡ step_spot lanes.now actor step }
    ensures near { result.x ≤ 700000000 }
    ensures far { 32 ≤ result.x }
{
    Spot::new(lanes.middle_x(actor as u64), lanes.step_y(step as u64))
}

// The ink of the dots of a put or a take.
fn dot_ink(item: Option<Item>) -> Ink
    ensures { result ≡ dot_ink item }
{
    match item {
        Some(item) => buffer_ink(item),
        None => Ink::Loose,
    }
}

// The ink of its arrow.
fn arrow_ink(item: Option<Item>) -> Ink
    ensures { result ≡ arrow_ink item }
{
    match item {
        Some(item) => kind_ink(item.kind()),
        None => Ink::Loose,
    }
}

// What is said of an arrow.
fn passed_note(alloc: Global, queue: &str, put: usize, taken: usize) -> Result<String, Memory>
    ensures { IfOk result (λ note. string_bytes note ≡ passed_note queue.now put taken) }
{
    Ok(format!(in alloc; "{queue}: put at step {put}, taken at step {taken}")?)
}

// The arrow from a put to its take.
fn passed(
    alloc: Global,
    lanes: &Lanes,
    queue: &str,
    put: (usize, &Entry),
    taken: (usize, &Entry),
) -> Result<Shape, Memory>
    requires small { IsSmall lanes.now }
    requires put { put.0 < 2 ^ 32 }
    requires taken { taken.0 < 2 ^ 32 }
    ensures { IfOk result (λ shape. shape ≡ passed lanes.now queue.now put.entry.0
        put.entry.1.now taken.entry.0 taken.entry.1.now) }
{
    let from = step_spot(lanes, put.1.actor.0, put.0);
    let to = step_spot(lanes, taken.1.actor.0, taken.0);
    let note = passed_note(alloc, queue, put.0, taken.0)?;
    let ink = arrow_ink(put.1.event.item);
    Shape::noted(alloc, ink, Form::Line(Segment { from, to }), note.as_str())
}

// The open end of a put whose take isn't in the chart, to the right.
fn open_end(alloc: Global, lanes: &Lanes, k: usize, entry: &Entry) -> Result<Shape, Memory>
    requires small { IsSmall lanes.now }
    requires rows { k < 2 ^ 32 }
    ensures { IfOk result (λ shape. shape ≡ open_end lanes.now k entry.now) }
{
    let from = step_spot(lanes, entry.actor.0, k);
    let to = Spot::new(from.x + 24, from.y);
    let line = Form::Line(Segment { from, to });
    Shape::noted(alloc, Ink::Loose, line, "its take isn't shown")
}

// The open start of a take whose put isn't in the chart, from the left.
fn open_start(alloc: Global, lanes: &Lanes, k: usize, entry: &Entry) -> Result<Shape, Memory>
    requires small { IsSmall lanes.now }
    requires rows { k < 2 ^ 32 }
    ensures { IfOk result (λ shape. shape ≡ open_start lanes.now k entry.now) }
{
    let to = step_spot(lanes, entry.actor.0, k);
    let from = Spot::new(to.x - 24, to.y);
    let line = Form::Line(Segment { from, to });
    Shape::noted(alloc, Ink::Loose, line, "its put isn't shown")
}

// The arrow of a put: to its take, or with an open end.
fn put_arrow(
    alloc: Global,
    lanes: &Lanes,
    queue: &str,
    journal: &[Entry],
    k: usize,
    entry: &Entry,
) -> Result<Shape, Memory>
    requires small { IsSmall lanes.now }
    requires at { k ≤ length journal.now }
    requires few { length journal.now < 2 ^ 32 }
    ensures { IfOk result (λ shape. shape
        ≡ put_arrow lanes.now queue.now journal.now k entry.now) }
{
    match shown_partner(lanes, journal, Way::Put, k, entry) {
        Some(j) => match journal.get(j) {
            Some(taken) => passed(alloc, lanes, queue, (k, entry), (j, taken)),
            None => open_end(alloc, lanes, k, entry),
        },
        None => open_end(alloc, lanes, k, entry),
    }
}

// The dot of a put or a take.
fn dot(alloc: Global, lanes: &Lanes, k: usize, entry: &Entry) -> Result<Shape, Memory>
    requires small { IsSmall lanes.now }
    requires rows { k < 2 ^ 32 }
    ensures { IfOk result (λ shape. shape ≡ dot lanes.now k entry.now) }
{
    let at = step_spot(lanes, entry.actor.0, k);
    Shape::noted(alloc, dot_ink(entry.event.item), Form::Dot(at), "")
}

/// Appends what is drawn of a put: its arrow, and a dot.
pub fn add_put(
    alloc: Global,
    shapes: &mut Series<Shape>,
    lanes: &Lanes,
    queue: &str,
    journal: &[Entry],
    k: usize,
    entry: &Entry,
) -> Result<(), Memory>
    requires small { IsSmall lanes.now }
    requires at { k ≤ length journal.now }
    requires few { length journal.now < 2 ^ 32 }
    ensures { OnOk result (shapes.new ≡ shapes.old
        ++ put_shapes lanes.now queue.now journal.now k entry.now) }
{
    shapes.push(put_arrow(alloc, lanes, queue, journal, k, entry)?)?;
    shapes.push(dot(alloc, lanes, k, entry)?)
}

/// Appends what is drawn of a take: a dot, and an open start where its put isn't in the chart; else
/// the arrow is drawn with the put.
pub fn add_take(
    alloc: Global,
    shapes: &mut Series<Shape>,
    lanes: &Lanes,
    journal: &[Entry],
    k: usize,
    entry: &Entry,
) -> Result<(), Memory>
    requires small { IsSmall lanes.now }
    requires at { k ≤ length journal.now }
    requires few { length journal.now < 2 ^ 32 }
    ensures { OnOk result (shapes.new ≡ shapes.old
        ++ take_shapes lanes.now journal.now k entry.now) }
{
    if shown_partner(lanes, journal, Way::Take, k, entry).is_none() {
        shapes.push(open_start(alloc, lanes, k, entry)?)?;
    }
    shapes.push(dot(alloc, lanes, k, entry)?)
}
