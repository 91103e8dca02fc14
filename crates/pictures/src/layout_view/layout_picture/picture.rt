//! The picture of a layout.
ghost use Rattle.std.specs.Prelude.{◌≡◌, ◌≤◌, ◌^◌, ◌++◌, length, IfOk, OnOk, string_bytes};
ghost use Rattle.pictures.specs.LayoutView.LayoutPicture.Grid.{IsSmall};
ghost use Rattle.pictures.specs.LayoutView.LayoutPicture.Pictures.{longest_queue, longest_region, longest_card};
ghost use Rattle.pictures.specs.LayoutView.LayoutPicture.Pictures.{grid_of, rows_text, about_text, IsDrawable};
ghost use Rattle.pictures.specs.LayoutView.LayoutPicture.Pictures.{heading, card_part, queue_part, channel_part};
ghost use Rattle.pictures.specs.LayoutView.LayoutPicture.Pictures.{memory_part, shapes_of, picture_of};

use crate::layout_view::layout_picture::cards::{Card, add_cards, cards_of};
use crate::layout_view::layout_picture::channels::add_channels;
use crate::layout_view::layout_picture::grid::Grid;
use crate::layout_view::layout_picture::memory::{add_pools, add_regions, scale_of};
use crate::layout_view::layout_picture::names::LayoutRows;
use crate::layout_view::layout_picture::owners::owners_of;
use crate::layout_view::layout_picture::queues::{Stage, add_queues};
use cargo_core::{Memory, Series, Text};
use picture_kit::{Ink, Picture, Shape};
use sdf_plan::{Channel, Plan, Region};
use std::alloc::Global;
use wire_core::QueueRow;

// How long the longest name of a queue is; names past 900 count as 900.
fn longest_queue(queues: &[QueueRow]) -> u64
    ensures length { result ≡ longest_queue 0 queues.now }
    ensures few { result ≤ 900 }
{
    let mut most: u64 = 0;
    for queue in queues {
        most = most.max((queue.name.as_str().len() as u64).min(900));
    }
    most
}

// How long the longest name of a region is.
fn longest_region(regions: &[Region]) -> u64
    ensures length { result ≡ longest_region 0 regions.now }
    ensures few { result ≤ 900 }
{
    let mut most: u64 = 0;
    for region in regions {
        most = most.max((region.name.as_str().len() as u64).min(900));
    }
    most
}

// How long the longest name or program in a box is, or this number, if that is larger.
fn longest_card(least: u64, cards: &[Card]) -> u64
    requires { least ≤ 1000 }
    ensures length { result ≡ longest_card least cards.now }
    ensures few { result ≤ 1000 }
{
    let mut most = least;
    for card in cards {
        let name = (card.name.as_str().len() as u64).min(1000);
        let program = (card.program.as_str().len() as u64).min(1000);
        most = most.max(name).max(program);
    }
    most
}

// The columns and rows of a picture.
fn grid_of(plan: &Plan, rows: &LayoutRows<'_>, cards: &[Card]) -> Grid
    requires drawable { IsDrawable plan.now rows.now.queues.now }
    requires columns { length cards.now ≤ 2 ^ 40 }
    ensures grid { result ≡ grid_of plan.now rows.now.queues.now rows.now.pools.now cards.now }
    ensures small { IsSmall result }
{
    let regions = plan.memory_region.as_slice();
    Grid {
        label: longest_queue(rows.queues) + 15,
        place: longest_region(regions) + 13,
        letters: longest_card(12, cards),
        columns: cards.len() as u64,
        queues: rows.queues.len() as u64,
        channels: plan.channel.len() as u64,
        regions: regions.len() as u64,
        pools: rows.pools.len() as u64,
    }
}

// How many boxes, queues and channels there are, in words.
fn rows_text(alloc: Global, grid: &Grid) -> Result<String, Memory>
    ensures { IfOk result (λ text. string_bytes text ≡ rows_text grid.now) }
{
    let mut text = format!(in alloc; "{} boxes, {} queues, ", grid.columns, grid.queues)?;
    write!(text, "{} channels, ", grid.channels)?;
    Ok(text)
}

// What the picture shows, in words.
fn about_text(alloc: Global, grid: &Grid) -> Result<String, Memory>
    ensures { IfOk result (λ text. string_bytes text ≡ about_text grid.now) }
{
    let mut text = rows_text(alloc, grid)?;
    write!(text, "{} regions, {} pools", grid.regions, grid.pools)?;
    Ok(text)
}

// Appends the words above a part.
fn add_heading(alloc: Global, shapes: &mut Series<Shape>, y: u64, text: &str) -> Result<(), Memory>
    ensures { OnOk result (shapes.new ≡ shapes.old ++ heading y text.now) }
{
    shapes.push(Shape::words(alloc, Ink::Heading, 16, y, text)?)
}

// Appends the boxes, below the title.
#[tactic(auto, unfolding(crate::specs::LayoutView::LayoutPicture::Pictures::card_part))]
fn add_card_part(
    alloc: Global,
    shapes: &mut Series<Shape>,
    grid: &Grid,
    cards: &[Card],
) -> Result<(), Memory>
    requires small { IsSmall grid.now }
    requires rows { length cards.now ≤ 2 ^ 40 }
    ensures { OnOk result (shapes.new ≡ shapes.old ++ card_part grid.now cards.now) }
{
    add_heading(alloc, shapes, 28, "Layout")?;
    add_cards(alloc, shapes, grid, cards)
}

// Appends the queues, below their heading.
#[tactic(auto, unfolding(crate::specs::LayoutView::LayoutPicture::Pictures::queue_part))]
fn add_queue_part(
    alloc: Global,
    shapes: &mut Series<Shape>,
    stage: &Stage<'_>,
    queues: &[QueueRow],
) -> Result<(), Memory>
    requires small { IsSmall stage.now.grid.now }
    requires columns { length stage.now.cards.now ≤ 2 ^ 40 }
    requires rows { length queues.now ≤ 2 ^ 40 }
    ensures { OnOk result (shapes.new ≡ shapes.old ++ queue_part stage.now.grid.now
        stage.now.cards.now stage.now.regions.now stage.now.actors.now queues.now) }
{
    let y = stage.grid.queue_y(0) - 24;
    add_heading(alloc, shapes, y, "Queues")?;
    add_queues(alloc, shapes, stage, queues)
}

// Appends the channels, below their heading.
#[tactic(auto, unfolding(crate::specs::LayoutView::LayoutPicture::Pictures::channel_part))]
fn add_channel_part(
    alloc: Global,
    shapes: &mut Series<Shape>,
    grid: &Grid,
    cards: &[Card],
    channels: &[Channel],
) -> Result<(), Memory>
    requires small { IsSmall grid.now }
    requires columns { length cards.now ≤ 2 ^ 40 }
    requires rows { length channels.now ≤ 2 ^ 40 }
    ensures { OnOk result (shapes.new ≡ shapes.old
        ++ channel_part grid.now cards.now channels.now) }
{
    let y = grid.channel_y(0) - 24;
    add_heading(alloc, shapes, y, "Channels")?;
    add_channels(alloc, shapes, grid, cards, channels)
}

// Appends the regions and the pools in them, below their heading.
#[tactic(auto, unfolding(crate::specs::LayoutView::LayoutPicture::Pictures::memory_part))]
fn add_memory_part(
    alloc: Global,
    shapes: &mut Series<Shape>,
    stage: &Stage<'_>,
    owners: &[Text],
    rows: &LayoutRows<'_>,
) -> Result<(), Memory>
    requires small { IsSmall stage.now.grid.now }
    requires rows { length stage.now.regions.now ≤ 2 ^ 40 }
    ensures { OnOk result (shapes.new ≡ shapes.old ++ memory_part stage.now.grid.now
        stage.now.cards.now stage.now.regions.now rows.now.bases.now owners.now
        rows.now.pools.now) }
{
    let (grid, cards) = (stage.grid, stage.cards);
    let y = grid.region_y(0) - 24;
    let scale = scale_of(stage.regions);
    add_heading(alloc, shapes, y, "Memory")?;
    add_regions(alloc, shapes, grid, rows.bases, stage.regions)?;
    add_pools(alloc, shapes, grid, scale, cards, owners, rows.pools)
}

// The shapes of the picture.
#[tactic(auto, unfolding(crate::specs::LayoutView::LayoutPicture::Pictures::shapes_of))]
fn shapes_of(
    alloc: Global,
    plan: &Plan,
    rows: &LayoutRows<'_>,
    stage: &Stage<'_>,
) -> Result<Series<Shape>, Memory>
    requires small { IsSmall stage.now.grid.now }
    requires drawable { IsDrawable plan.now rows.now.queues.now }
    requires columns { length stage.now.cards.now ≤ 2 ^ 40 }
    requires regions { stage.now.regions.now ≡ plan.now.memory_region }
    requires actors { stage.now.actors.now ≡ rows.now.actors.now }
    ensures { IfOk result (λ shapes. shapes ≡ shapes_of plan.now rows.now.bases.now
        rows.now.queues.now rows.now.pools.now rows.now.actors.now stage.now.cards.now
        stage.now.grid.now) }
{
    let owners = owners_of(alloc, plan)?;
    let mut shapes = Series::new(alloc);
    add_card_part(alloc, &mut shapes, stage.grid, stage.cards)?;
    add_queue_part(alloc, &mut shapes, stage, rows.queues)?;
    add_channel_part(
        alloc,
        &mut shapes,
        stage.grid,
        stage.cards,
        plan.channel.as_slice(),
    )?;
    add_memory_part(alloc, &mut shapes, stage, owners.as_slice(), rows)?;
    Ok(shapes)
}

/// The picture of a layout. There is a box for each device and each domain, with its program and
/// its priority; below them a row for each queue, with an arrow from its producer's column to its
/// consumer's, a row for each channel, with the ids by which its two ends know it, and a row for
/// each region, with its address, its size and the pool in it. Each stands there once, in the order
/// of the rows. The only error is want of memory. This project's own.
pub fn layout_picture(alloc: Global, plan: &Plan, rows: &LayoutRows<'_>) -> Result<Picture, Memory>
    requires { IsDrawable plan.now rows.now.queues.now }
    ensures { IfOk result (λ picture. picture ≡ picture_of plan.now rows.now.bases.now
        rows.now.queues.now rows.now.pools.now rows.now.actors.now) }
{
    let cards = cards_of(alloc, plan)?;
    let grid = grid_of(plan, rows, cards.as_slice());
    let stage = Stage {
        grid: &grid,
        cards: cards.as_slice(),
        regions: plan.memory_region.as_slice(),
        actors: rows.actors,
    };
    let about = about_text(alloc, &grid)?;
    let shapes = shapes_of(alloc, plan, rows, &stage)?;
    Ok(Picture {
        width: grid.width(),
        height: grid.height(),
        title: Text::new(alloc, "Layout")?,
        about: Text::new(alloc, about.as_str())?,
        shapes,
    })
}
