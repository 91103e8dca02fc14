//! The sequence chart of a journal.
ghost use Rattle.std.specs.Prelude.{◌≡◌, ◌≤◌, ◌<◌, ◌^◌, ◌++◌, ◌↔◌, length, IfOk, OnOk, IsTrue};
ghost use Rattle.std.specs.Prelude.{string_bytes};
ghost use Rattle.pictures.specs.PlayPicture.Lanes.{IsSmall};
ghost use Rattle.pictures.specs.PlayPicture.Pictures.{longest_queue, longest_actor, lanes_of, about_text};
ghost use Rattle.pictures.specs.PlayPicture.Pictures.{IsDrawable, shapes_of, picture_of};

use crate::play_picture::chart::{add_heads, add_steps};
use crate::play_picture::lanes::Lanes;
use crate::play_picture::legend::add_legend;
use cargo_core::{Memory, Series, Text};
use picture_kit::{Ink, Picture, Shape};
use std::alloc::Global;
use wire_core::{Entry, QueueRow};

/// Who plays, and the queues between them, each by their numbers.
#[derive(Clone, Copy)]
pub struct Cast<'a> {
    pub queues: &'a [QueueRow],
    pub actors: &'a [Text],
}

// How long the longest name of a queue is; names past 900 count as 900.
fn longest_queue(queues: &[QueueRow]) -> u64
    ensures length { result ≡ longest_queue 0 queues.now }
    ensures few { result ≤ 900 }
{
    let mut most: u64 = 0;
    for queue in queues {
        most = most.max((queue.name.as_str().len() as u64).min(900));
    }
    most
}

// How long the longest name of an actor is.
fn longest_actor(actors: &[Text]) -> u64
    ensures length { result ≡ longest_actor 0 actors.now }
    ensures few { result ≤ 900 }
{
    let mut most: u64 = 0;
    for actor in actors {
        most = most.max((actor.as_str().len() as u64).min(900));
    }
    most
}

// The lanes and steps of a chart.
fn lanes_of(cast: &Cast<'_>, from: usize, to: usize) -> Lanes
    requires actors { length cast.now.actors.now ≤ 65536 }
    requires steps { to < 2 ^ 32 }
    requires order { from ≤ to }
    ensures lanes { result ≡ lanes_of cast.now.queues.now cast.now.actors.now from to }
    ensures small { IsSmall result }
{
    Lanes {
        label: longest_queue(cast.queues) + 24,
        letters: longest_actor(cast.actors) + 4,
        actors: cast.actors.len() as u64,
        from: from as u64,
        to: to as u64,
    }
}

// What the chart shows, in words.
fn about_text(alloc: Global, lanes: &Lanes, steps: usize) -> Result<String, Memory>
    ensures { IfOk result (λ text. string_bytes text ≡ about_text lanes.now steps) }
{
    let mut text = format!(in alloc; "steps {} up to {}", lanes.from, lanes.to)?;
    write!(text, " of {steps}")?;
    Ok(text)
}

// The shapes of the chart.
fn shapes_of(
    alloc: Global,
    cast: &Cast<'_>,
    lanes: &Lanes,
    journal: &[Entry],
    from: usize,
    about: &str,
) -> Result<Series<Shape>, Memory>
    requires small { IsSmall lanes.now }
    requires rows { IsDrawable cast.now.actors.now journal.now }
    ensures { IfOk result (λ shapes. shapes ≡ shapes_of cast.now.queues.now cast.now.actors.now
        lanes.now journal.now from about.now) }
{
    let mut shapes = Series::new(alloc);
    shapes.push(Shape::words(alloc, Ink::Heading, 16, 28, about)?)?;
    add_legend(alloc, &mut shapes)?;
    add_heads(alloc, &mut shapes, lanes, cast.actors)?;
    add_steps(alloc, &mut shapes, lanes, cast.queues, journal, from)?;
    Ok(shapes)
}

/// Whether a chart is drawn: of at most 65,536 actors, and of fewer than 2^32 steps.
pub fn is_drawable(cast: &Cast<'_>, journal: &[Entry]) -> bool
    ensures { IsTrue result ↔ IsDrawable cast.now.actors.now journal.now }
{
    cast.actors.len() <= 65_536 && journal.len() < 4_294_967_296
}

/// The sequence chart of the first steps of a journal, from one of them on; `steps` says how many
/// the play has. There is a lane for each actor. A put has an arrow to its take, or an open end
/// where that isn't in the chart; a take whose put isn't in the chart has an open start. The first
/// put of a queue and its first take belong together, then the second of each, and so on; where a
/// hostile end stores in its words, that is only the order in which it acted. The only error is
/// want of memory. This project's own.
pub fn play_picture(
    alloc: Global,
    cast: &Cast<'_>,
    journal: &[Entry],
    from: usize,
    steps: usize,
) -> Result<Picture, Memory>
    requires drawable { IsDrawable cast.now.actors.now journal.now }
    requires within { from ≤ length journal.now }
    ensures { IfOk result (λ picture. picture ≡ picture_of cast.now.queues.now
        cast.now.actors.now journal.now from steps) }
{
    let lanes = lanes_of(cast, from, journal.len());
    let about = about_text(alloc, &lanes, steps)?;
    let shapes = shapes_of(alloc, cast, &lanes, journal, from, about.as_str())?;
    Ok(Picture {
        width: lanes.width(),
        height: lanes.height(),
        title: Text::new(alloc, "The steps of a play")?,
        about: Text::new(alloc, about.as_str())?,
        shapes,
    })
}
