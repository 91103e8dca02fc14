//! The picture of how full the queues are.
ghost use Rattle.std.specs.Prelude.{◌≡◌, ◌≤◌, ◌<◌, ◌^◌, ◌++◌, length, IfOk, OnOk, string_bytes};
ghost use Rattle.pictures.specs.PlayPicture.Chart.{draw_each};
ghost use Rattle.pictures.specs.PlayPicture.FillPicture.Fills.{longest_queue, range_text, fills_of, fill_shapes};
ghost use Rattle.pictures.specs.PlayPicture.FillPicture.Fills.{all_fills, counts_of, IsSmallFills};

use crate::play_picture::fill_picture::fills::{Fills, fill_y};
use crate::play_picture::fill_picture::queue::add_queue;
use cargo_core::{Memory, Series, Text};
use picture_kit::{Ink, Picture, Shape};
use std::alloc::Global;
use wire_core::{Entry, QueueRow};

// How long the longest name of a queue is; names past 900 count as 900.
fn longest_queue(queues: &[QueueRow]) -> u64
    ensures length { result ≡ longest_queue 0 queues.now }
    ensures few { result ≤ 900 }
{
    let mut most: u64 = 0;
    for queue in queues {
        most = most.max((queue.name.as_str().len() as u64).min(900));
    }
    most
}

// The labels and steps of a picture.
fn fills_of(queues: &[QueueRow], from: usize, to: usize) -> Fills
    requires order { from ≤ to }
    requires few { to < 2 ^ 32 }
    ensures fills { result ≡ fills_of queues.now from to }
    ensures small { IsSmallFills result }
{
    Fills {
        label: longest_queue(queues) + 12,
        from: from as u64,
        to: to as u64,
    }
}

// Which steps are drawn, and of how many.
fn range_text(alloc: Global, from: u64, to: u64, steps: usize) -> Result<String, Memory>
    ensures { IfOk result (λ text. string_bytes text ≡ range_text from to steps) }
{
    let mut text = format!(in alloc; "steps {from} up to {to}")?;
    write!(text, " of {steps}")?;
    Ok(text)
}

// Appends each queue.
fn add_queues(
    alloc: Global,
    shapes: &mut Series<Shape>,
    fills: &Fills,
    queues: &[QueueRow],
    journal: &[Entry],
) -> Result<(), Memory>
    requires small { IsSmallFills fills.now }
    requires rows { length queues.now ≤ 2 ^ 40 }
    requires few { length journal.now < 2 ^ 32 }
    requires first { fills.now.from ≤ length journal.now }
    ensures { OnOk result (shapes.new ≡ shapes.old
        ++ draw_each (fill_shapes fills.now journal.now) 0 queues.now) }
{
    for q in 0..queues.len() {
        add_queue(alloc, shapes, fills, journal, q, &queues[q])?;
    }
    Ok(())
}

// The shapes of the picture.
#[tactic(auto, unfolding(crate::specs::PlayPicture::FillPicture::Fills::all_fills))]
fn shapes_of(
    alloc: Global,
    fills: &Fills,
    queues: &[QueueRow],
    journal: &[Entry],
    about: &str,
) -> Result<Series<Shape>, Memory>
    requires small { IsSmallFills fills.now }
    requires rows { length queues.now ≤ 2 ^ 40 }
    requires few { length journal.now < 2 ^ 32 }
    requires first { fills.now.from ≤ length journal.now }
    ensures { IfOk result (λ shapes. shapes
        ≡ all_fills fills.now queues.now journal.now about.now) }
{
    let mut shapes = Series::new(alloc);
    shapes.push(Shape::words(alloc, Ink::Heading, 16, 28, about)?)?;
    add_queues(alloc, &mut shapes, fills, queues, journal)?;
    Ok(shapes)
}

/// The picture of how full the queues are over the first steps of a journal, from one of them on;
/// `steps` says how many the play has. Each queue has a row, with a frame as high as its capacity,
/// and in it a bar from each put and take of it up to the next, as high as it is full. The only
/// error is want of memory. This project's own.
pub fn fill_picture(
    alloc: Global,
    queues: &[QueueRow],
    journal: &[Entry],
    from: usize,
    steps: usize,
) -> Result<Picture, Memory>
    requires rows { length queues.now ≤ 2 ^ 40 }
    requires few { length journal.now < 2 ^ 32 }
    requires within { from ≤ length journal.now }
    ensures { IfOk result (λ picture. picture ≡ counts_of queues.now journal.now from steps) }
{
    let fills = fills_of(queues, from, journal.len());
    let about = range_text(alloc, fills.from, fills.to, steps)?;
    let shapes = shapes_of(alloc, &fills, queues, journal, about.as_str())?;
    Ok(Picture {
        width: fills.fill_left() + fills.steps_width(fills.to - fills.from) + 16,
        height: fill_y(queues.len() as u64),
        title: Text::new(alloc, "How full the queues are")?,
        about: Text::new(alloc, about.as_str())?,
        shapes,
    })
}
