//! What the marks of a chart are, in words.
ghost use Rattle.std.specs.Prelude.{◌≡◌, ◌≤◌, ◌++◌, OnOk};
ghost use Rattle.pictures.specs.PlayPicture.Legend.{mark_shapes, loose_shapes, bell_shapes, legend_shapes};

use cargo_core::{Memory, Series};
use picture_kit::{Area, Form, Ink, Segment, Shape, Spot};
use std::alloc::Global;

// Appends a mark, and behind it what it is.
#[tactic(auto, unfolding(crate::specs::PlayPicture::Legend::mark_shapes))]
fn add_mark(
    alloc: Global,
    shapes: &mut Series<Shape>,
    ink: Ink,
    x: u64,
    text: &str,
) -> Result<(), Memory>
    requires { x ≤ 1000 }
    ensures { OnOk result (shapes.new ≡ shapes.old ++ mark_shapes ink x text.now) }
{
    let area = Area {
        x,
        y: 39,
        width: 8,
        height: 8,
    };
    shapes.push(Shape::noted(alloc, ink, Form::Block(area), text)?)?;
    shapes.push(Shape::words(alloc, Ink::Label, x + 14, 47, text)?)
}

// Appends an end that isn't in the chart.
#[tactic(auto, unfolding(crate::specs::PlayPicture::Legend::loose_shapes))]
fn add_loose(alloc: Global, shapes: &mut Series<Shape>, x: u64, text: &str) -> Result<(), Memory>
    requires { x ≤ 1000 }
    ensures { OnOk result (shapes.new ≡ shapes.old ++ loose_shapes x text.now) }
{
    let from = Spot::new(x, 43);
    let to = Spot::new(x + 24, 43);
    let line = Form::Line(Segment { from, to });
    shapes.push(Shape::noted(alloc, Ink::Loose, line, text)?)?;
    shapes.push(Shape::words(alloc, Ink::Label, x + 30, 47, text)?)
}

// Appends the marks of bells.
#[tactic(auto, unfolding(crate::specs::PlayPicture::Legend::bell_shapes))]
fn add_bells(alloc: Global, shapes: &mut Series<Shape>) -> Result<(), Memory>
    ensures { OnOk result (shapes.new ≡ shapes.old ++ bell_shapes) }
{
    add_mark(alloc, shapes, Ink::Asked, 16, "ask")?;
    add_mark(alloc, shapes, Ink::Rung, 80, "ring")?;
    add_mark(alloc, shapes, Ink::Woken, 152, "wake")
}

/// Appends what the marks are.
#[tactic(auto, unfolding(crate::specs::PlayPicture::Legend::legend_shapes))]
pub fn add_legend(alloc: Global, shapes: &mut Series<Shape>) -> Result<(), Memory>
    ensures { OnOk result (shapes.new ≡ shapes.old ++ legend_shapes) }
{
    add_bells(alloc, shapes)?;
    add_mark(alloc, shapes, Ink::Refused, 224, "answered no")?;
    add_loose(alloc, shapes, 352, "end not shown")
}
