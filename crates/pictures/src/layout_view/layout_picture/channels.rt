//! The channels: a row for each, with a line between the columns of its two ends.
ghost use Rattle.std.specs.Prelude.{◌≡◌, ◌≤◌, ◌^◌, ◌++◌, length, IfOk, OnOk};
ghost use Rattle.std.specs.Prelude.{string_bytes};
ghost use Rattle.std.specs.List.{flat_map};
ghost use Rattle.pictures.specs.LayoutView.LayoutPicture.Grid.{IsSmall};
ghost use Rattle.pictures.specs.LayoutView.LayoutPicture.Cards.{draw_each};
ghost use Rattle.pictures.specs.LayoutView.LayoutPicture.Channels.{end_x, end_shapes, between, line_shapes};
ghost use Rattle.pictures.specs.LayoutView.LayoutPicture.Channels.{channel_label, label_shapes, channel_shapes};

use crate::layout_view::layout_picture::cards::{Card, column_of};
use crate::layout_view::layout_picture::grid::Grid;
use cargo_core::{Memory, Series};
use picture_kit::{Form, Ink, Shape, Spot};
use sdf_plan::{Channel, End};
use std::alloc::Global;

// The middle of the column of an end's domain.
fn end_x(grid: &Grid, cards: &[Card], end: &End) -> u64
    requires small { IsSmall grid.now }
    requires rows { length cards.now ≤ 2 ^ 40 }
    ensures place { result ≡ end_x grid.now cards.now end.now }
    ensures near { result ≤ 20000000000000000 }
{
    grid.middle_x(column_of(cards, end.pd.as_str()) as u64)
}

// Appends an end: a dot in its domain's column, and its id beside it.
fn add_end(
    alloc: Global,
    shapes: &mut Series<Shape>,
    grid: &Grid,
    cards: &[Card],
    y: u64,
    end: &End,
) -> Result<(), Memory>
    requires small { IsSmall grid.now }
    requires columns { length cards.now ≤ 2 ^ 40 }
    requires rows { 2 ≤ y }
    ensures { OnOk result (shapes.new ≡ shapes.old ++ end_shapes grid.now cards.now y end.now) }
{
    let x = end_x(grid, cards, end);
    let id = format!(in alloc; "{}", end.id)?;
    shapes.push(Shape::noted(alloc, Ink::Channel, Form::Dot(Spot::new(x, y)), "")?)?;
    shapes.push(Shape::words(alloc, Ink::Label, x + 6, y - 2, id.as_str())?)
}

// Appends each end.
fn add_ends(
    alloc: Global,
    shapes: &mut Series<Shape>,
    grid: &Grid,
    cards: &[Card],
    y: u64,
    ends: &[End],
) -> Result<(), Memory>
    requires small { IsSmall grid.now }
    requires columns { length cards.now ≤ 2 ^ 40 }
    requires rows { 2 ≤ y }
    ensures { OnOk result (shapes.new ≡ shapes.old
        ++ flat_map (end_shapes grid.now cards.now y) ends.now) }
{
    for end in ends {
        add_end(alloc, shapes, grid, cards, y, end)?;
    }
    Ok(())
}

// Appends the line between the first two ends.
fn add_between(
    alloc: Global,
    shapes: &mut Series<Shape>,
    grid: &Grid,
    cards: &[Card],
    y: u64,
    ends: &[End],
) -> Result<(), Memory>
    requires small { IsSmall grid.now }
    requires rows { length cards.now ≤ 2 ^ 40 }
    ensures { OnOk result (shapes.new ≡ shapes.old ++ between grid.now cards.now y ends.now) }
{
    match ends {
        [first, second, ..] => {
            let from = Spot::new(end_x(grid, cards, first), y);
            let to = Spot::new(end_x(grid, cards, second), y);
            shapes.push(Shape::line(alloc, Ink::Channel, from, to)?)
        }
        _ => Ok(()),
    }
}

// Appends the line of a channel and its ends.
#[tactic(auto, unfolding(crate::specs::LayoutView::LayoutPicture::Channels::line_shapes))]
fn add_line(
    alloc: Global,
    shapes: &mut Series<Shape>,
    grid: &Grid,
    cards: &[Card],
    y: u64,
    ends: &[End],
) -> Result<(), Memory>
    requires small { IsSmall grid.now }
    requires columns { length cards.now ≤ 2 ^ 40 }
    requires rows { 2 ≤ y }
    ensures { OnOk result (shapes.new ≡ shapes.old
        ++ line_shapes grid.now cards.now y ends.now) }
{
    add_between(alloc, shapes, grid, cards, y, ends)?;
    add_ends(alloc, shapes, grid, cards, y, ends)
}

// The label of a channel: its number.
fn channel_label(alloc: Global, c: u64) -> Result<String, Memory>
    ensures { IfOk result (λ label. string_bytes label ≡ channel_label c) }
{
    Ok(format!(in alloc; "channel {c}")?)
}

// Appends the label of a channel.
fn add_label(alloc: Global, shapes: &mut Series<Shape>, grid: &Grid, c: u64) -> Result<(), Memory>
    requires small { IsSmall grid.now }
    requires rows { c ≤ 2 ^ 40 }
    ensures { OnOk result (shapes.new ≡ shapes.old ++ label_shapes grid.now c) }
{
    let label = channel_label(alloc, c)?;
    let y = grid.channel_y(c) + 4;
    shapes.push(Shape::words(alloc, Ink::Label, 16, y, label.as_str())?)
}

// Appends a channel: its label, its line and its ends.
#[tactic(auto, unfolding(crate::specs::LayoutView::LayoutPicture::Channels::channel_shapes))]
fn add_channel(
    alloc: Global,
    shapes: &mut Series<Shape>,
    grid: &Grid,
    cards: &[Card],
    c: u64,
    channel: &Channel,
) -> Result<(), Memory>
    requires small { IsSmall grid.now }
    requires columns { length cards.now ≤ 2 ^ 40 }
    requires rows { c ≤ 2 ^ 40 }
    ensures { OnOk result (shapes.new ≡ shapes.old
        ++ channel_shapes grid.now cards.now c channel.now) }
{
    let y = grid.channel_y(c);
    add_label(alloc, shapes, grid, c)?;
    add_line(alloc, shapes, grid, cards, y, channel.end.as_slice())
}

/// Appends each channel.
pub fn add_channels(
    alloc: Global,
    shapes: &mut Series<Shape>,
    grid: &Grid,
    cards: &[Card],
    channels: &[Channel],
) -> Result<(), Memory>
    requires small { IsSmall grid.now }
    requires columns { length cards.now ≤ 2 ^ 40 }
    requires rows { length channels.now ≤ 2 ^ 40 }
    ensures { OnOk result (shapes.new ≡ shapes.old
        ++ draw_each (channel_shapes grid.now cards.now) 0 channels.now) }
{
    for c in 0..channels.len() {
        add_channel(alloc, shapes, grid, cards, c as u64, &channels[c])?;
    }
    Ok(())
}
