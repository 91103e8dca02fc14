//! The queues: a row for each, with an arrow from its producer's column to its consumer's.
ghost use Rattle.std.specs.Prelude.{◌≡◌, ◌≤◌, ◌^◌, ◌++◌, length, IfOk, OnOk, string_bytes};
ghost use Rattle.pictures.specs.LayoutView.LayoutPicture.Grid.{IsSmall};
ghost use Rattle.pictures.specs.LayoutView.LayoutPicture.Cards.{draw_each};
ghost use Rattle.pictures.specs.LayoutView.LayoutPicture.Queues.{queue_label, queue_note, standing, middle_of};
ghost use Rattle.pictures.specs.LayoutView.LayoutPicture.Queues.{arrow_shapes, queue_shapes};

use crate::layout_view::layout_picture::cards::{Card, column_of};
use crate::layout_view::layout_picture::grid::Grid;
use crate::layout_view::layout_picture::names::{kind_name, name_at, region_name};
use cargo_core::{Memory, Series, Text};
use picture_kit::{Form, Ink, Segment, Shape, Spot, kind_ink};
use sdf_plan::Region;
use std::alloc::Global;
use wire_core::QueueRow;

/// What the rows are drawn by: the columns and rows, the boxes, the regions, and the actors by
/// their numbers.
#[derive(Clone, Copy)]
pub struct Stage<'a> {
    pub grid: &'a Grid,
    pub cards: &'a [Card],
    pub regions: &'a [Region],
    pub actors: &'a [Text],
}

// The label of a queue: its name, what it carries, and how many entries it holds.
pub fn queue_label(alloc: Global, queue: &QueueRow) -> Result<String, Memory>
    ensures { IfOk result (λ label. string_bytes label ≡ queue_label queue.now) }
{
    let (name, kind) = (queue.name.as_str(), kind_name(queue.kind));
    Ok(format!(in alloc; "{name} {kind} {}", queue.capacity)?)
}

// Its note: who puts, and who takes.
fn queue_note(alloc: Global, actors: &[Text], queue: &QueueRow) -> Result<String, Memory>
    ensures { IfOk result (λ note. string_bytes note ≡ queue_note actors.now queue.now) }
{
    let from = name_at(actors, queue.producer.0 as usize);
    let to = name_at(actors, queue.consumer.0 as usize);
    Ok(format!(in alloc; "{} from {from} to {to}", queue.name.as_str())?)
}

// Where it stands: the region, and how many bytes from its begin.
pub fn standing(alloc: Global, regions: &[Region], queue: &QueueRow) -> Result<String, Memory>
    ensures { IfOk result (λ text. string_bytes text ≡ standing regions.now queue.now) }
{
    match queue.region {
        Some(r) => {
            let name = region_name(regions, r);
            Ok(format!(in alloc; "{name} + 0x{:x}", queue.offset)?)
        }
        None => Ok(String::from_str(alloc, "at the device")?),
    }
}

// The middle of an actor's column.
fn middle_of(stage: &Stage<'_>, actor: u16) -> u64
    requires small { IsSmall stage.now.grid.now }
    requires rows { length stage.now.cards.now ≤ 2 ^ 40 }
    ensures { result ≡ middle_of stage.now.grid.now stage.now.cards.now stage.now.actors.now actor }
{
    let column = column_of(stage.cards, name_at(stage.actors, actor as usize));
    stage.grid.middle_x(column as u64)
}

// Appends the arrow of a queue, and the dot at which it begins.
fn add_arrow(
    alloc: Global,
    shapes: &mut Series<Shape>,
    stage: &Stage<'_>,
    q: u64,
    queue: &QueueRow,
) -> Result<(), Memory>
    requires small { IsSmall stage.now.grid.now }
    requires columns { length stage.now.cards.now ≤ 2 ^ 40 }
    requires rows { q ≤ 2 ^ 40 }
    ensures { OnOk result (shapes.new ≡ shapes.old ++ arrow_shapes stage.now.grid.now
        stage.now.cards.now stage.now.actors.now q queue.now) }
{
    let y = stage.grid.queue_y(q);
    let from = Spot::new(middle_of(stage, queue.producer.0), y);
    let to = Spot::new(middle_of(stage, queue.consumer.0), y);
    let note = queue_note(alloc, stage.actors, queue)?;
    let ink = kind_ink(queue.kind);
    let arrow = Form::Line(Segment { from, to });
    shapes.push(Shape::noted(alloc, ink, arrow, note.as_str())?)?;
    shapes.push(Shape::noted(alloc, ink, Form::Dot(from), "")?)
}

// Appends a queue: its label, its arrow, and where it stands.
fn add_queue(
    alloc: Global,
    shapes: &mut Series<Shape>,
    stage: &Stage<'_>,
    q: u64,
    queue: &QueueRow,
) -> Result<(), Memory>
    requires small { IsSmall stage.now.grid.now }
    requires columns { length stage.now.cards.now ≤ 2 ^ 40 }
    requires rows { q ≤ 2 ^ 40 }
    ensures { OnOk result (shapes.new ≡ shapes.old ++ queue_shapes stage.now.grid.now
        stage.now.cards.now stage.now.regions.now stage.now.actors.now q queue.now) }
{
    let y = stage.grid.queue_y(q) + 4;
    let behind = stage.grid.place_x();
    let label = queue_label(alloc, queue)?;
    let place = standing(alloc, stage.regions, queue)?;
    shapes.push(Shape::words(alloc, Ink::Label, 16, y, label.as_str())?)?;
    add_arrow(alloc, shapes, stage, q, queue)?;
    shapes.push(Shape::words(alloc, Ink::Label, behind, y, place.as_str())?)
}

/// Appends each queue.
pub fn add_queues(
    alloc: Global,
    shapes: &mut Series<Shape>,
    stage: &Stage<'_>,
    queues: &[QueueRow],
) -> Result<(), Memory>
    requires small { IsSmall stage.now.grid.now }
    requires columns { length stage.now.cards.now ≤ 2 ^ 40 }
    requires rows { length queues.now ≤ 2 ^ 40 }
    ensures { OnOk result (shapes.new ≡ shapes.old ++ draw_each (queue_shapes stage.now.grid.now
        stage.now.cards.now stage.now.regions.now stage.now.actors.now) 0 queues.now) }
{
    for q in 0..queues.len() {
        add_queue(alloc, shapes, stage, q as u64, &queues[q])?;
    }
    Ok(())
}
