//! The row of a queue: its name, its capacity and its frame, and a bar from each change of what it
//! holds up to the next.
ghost use Rattle.std.specs.Prelude.{◌≡◌, ◌≤◌, ◌<◌, ◌^◌, ◌++◌, length, drop, IfOk, OnOk};
ghost use Rattle.std.specs.Prelude.{string_bytes};
ghost use Rattle.pictures.specs.PlayPicture.Chart.{draw_each};
ghost use Rattle.pictures.specs.PlayPicture.FillPicture.Fills.{bar, bar_if, bar_at, change_shapes, fill_label};
ghost use Rattle.pictures.specs.PlayPicture.FillPicture.Fills.{fill_head, fill_shapes, IsSmallFills};

use crate::play_picture::fill_picture::fills::{
    Fills, bar_height, bar_note, changes, fill_y, level, span,
};
use cargo_core::{Memory, Series};
use picture_kit::{Area, Form, Ink, Shape, kind_ink};
use std::alloc::Global;
use wire_core::{Entry, QueueRow};

// The bar of a queue that holds so many from a step on, for so many steps.
fn bar(
    alloc: Global,
    fills: &Fills,
    q: u64,
    row: &QueueRow,
    held: usize,
    k: usize,
    steps: usize,
) -> Result<Shape, Memory>
    requires small { IsSmallFills fills.now }
    requires row { q ≤ 2 ^ 40 }
    requires held { held < 2 ^ 32 }
    requires at { k < 2 ^ 32 }
    requires steps { steps < 2 ^ 32 }
    ensures { IfOk result (λ shape. shape ≡ bar fills.now q row.now held k steps) }
{
    let height = bar_height(row.capacity, held);
    let note = bar_note(alloc, row.capacity, held, k)?;
    let area = Area {
        x: fills.step_x(k as u64),
        y: fill_y(q) + 28 - height,
        width: fills.steps_width(steps as u64),
        height,
    };
    Shape::noted(alloc, kind_ink(row.kind), Form::Block(area), note.as_str())
}

// Appends it, where the queue holds something.
fn add_bar_if(
    alloc: Global,
    shapes: &mut Series<Shape>,
    fills: &Fills,
    q: u64,
    row: &QueueRow,
    held: usize,
    k: usize,
    steps: usize,
) -> Result<(), Memory>
    requires small { IsSmallFills fills.now }
    requires row { q ≤ 2 ^ 40 }
    requires held { held < 2 ^ 32 }
    requires at { k < 2 ^ 32 }
    requires steps { steps < 2 ^ 32 }
    ensures { OnOk result (shapes.new ≡ shapes.old
        ++ bar_if fills.now q row.now held k steps) }
{
    if held == 0 {
        return Ok(());
    }
    shapes.push(bar(alloc, fills, q, row, held, k, steps)?)
}

// Appends how full a queue is from a step on, up to the next change.
#[tactic(auto, unfolding(crate::specs::PlayPicture::FillPicture::Fills::bar_at))]
fn add_bar_at(
    alloc: Global,
    shapes: &mut Series<Shape>,
    fills: &Fills,
    journal: &[Entry],
    q: usize,
    row: &QueueRow,
    k: usize,
) -> Result<(), Memory>
    requires small { IsSmallFills fills.now }
    requires row { q ≤ 2 ^ 40 }
    requires few { length journal.now < 2 ^ 32 }
    requires at { k ≤ length journal.now }
    ensures { OnOk result (shapes.new ≡ shapes.old ++ bar_at fills.now journal.now q row.now k) }
{
    let held = level(journal, q, k);
    let steps = span(journal, q, k);
    add_bar_if(alloc, shapes, fills, q as u64, row, held, k, steps)
}

// Appends what is drawn of a step in the row of a queue.
fn add_change(
    alloc: Global,
    shapes: &mut Series<Shape>,
    fills: &Fills,
    journal: &[Entry],
    q: usize,
    row: &QueueRow,
    k: usize,
    entry: &Entry,
) -> Result<(), Memory>
    requires small { IsSmallFills fills.now }
    requires row { q ≤ 2 ^ 40 }
    requires few { length journal.now < 2 ^ 32 }
    requires at { k < length journal.now }
    ensures { OnOk result (shapes.new ≡ shapes.old
        ++ change_shapes fills.now journal.now q row.now k entry.now) }
{
    if changes(q, entry) {
        add_bar_at(alloc, shapes, fills, journal, q, row, k + 1)
    } else {
        Ok(())
    }
}

// Appends each change of a queue from a step on.
fn add_changes(
    alloc: Global,
    shapes: &mut Series<Shape>,
    fills: &Fills,
    journal: &[Entry],
    q: usize,
    row: &QueueRow,
    from: usize,
) -> Result<(), Memory>
    requires small { IsSmallFills fills.now }
    requires row { q ≤ 2 ^ 40 }
    requires few { length journal.now < 2 ^ 32 }
    ensures { OnOk result (shapes.new ≡ shapes.old ++ draw_each
        (change_shapes fills.now journal.now q row.now) from (drop from journal.now)) }
{
    for k in from..journal.len() {
        add_change(alloc, shapes, fills, journal, q, row, k, &journal[k])?;
    }
    Ok(())
}

// The label of a queue.
fn fill_label(alloc: Global, row: &QueueRow) -> Result<String, Memory>
    ensures { IfOk result (λ label. string_bytes label ≡ fill_label row.now) }
{
    Ok(format!(in alloc; "{} of {}", row.name.as_str(), row.capacity)?)
}

// Appends what stands at the begin of a row.
fn add_head(
    alloc: Global,
    shapes: &mut Series<Shape>,
    fills: &Fills,
    q: u64,
    row: &QueueRow,
) -> Result<(), Memory>
    requires small { IsSmallFills fills.now }
    requires row { q ≤ 2 ^ 40 }
    ensures { OnOk result (shapes.new ≡ shapes.old ++ fill_head fills.now q row.now) }
{
    let (x, y) = (fills.fill_left(), fill_y(q));
    let width = fills.steps_width(fills.to - fills.from);
    let label = fill_label(alloc, row)?;
    let frame = Area {
        x,
        y,
        width,
        height: 28,
    };
    shapes.push(Shape::words(alloc, Ink::Label, 16, y + 18, label.as_str())?)?;
    shapes.push(Shape::noted(alloc, Ink::Region, Form::Block(frame), row.name.as_str())?)
}

/// Appends a queue: its head, how full it is at first, and each change.
#[tactic(auto, unfolding(crate::specs::PlayPicture::FillPicture::Fills::fill_shapes))]
pub fn add_queue(
    alloc: Global,
    shapes: &mut Series<Shape>,
    fills: &Fills,
    journal: &[Entry],
    q: usize,
    row: &QueueRow,
) -> Result<(), Memory>
    requires small { IsSmallFills fills.now }
    requires row { q ≤ 2 ^ 40 }
    requires few { length journal.now < 2 ^ 32 }
    requires first { fills.now.from ≤ length journal.now }
    ensures { OnOk result (shapes.new ≡ shapes.old
        ++ fill_shapes fills.now journal.now q row.now) }
{
    let from = fills.from as usize;
    add_head(alloc, shapes, fills, q as u64, row)?;
    add_bar_at(alloc, shapes, fills, journal, q, row, from)?;
    add_changes(alloc, shapes, fills, journal, q, row, from)
}
