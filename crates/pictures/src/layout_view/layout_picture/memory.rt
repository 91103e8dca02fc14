//! The memory: a row for each region, with a bar as long as it is large, and in it the pool that
//! lies there, in its owner's colour.
ghost use Rattle.std.specs.Prelude.{◌≡◌, ◌≤◌, ◌^◌, ◌<◌, ◌++◌, length, IfOk, OnOk, slice_index};
ghost use Rattle.std.specs.Prelude.{string_bytes};
ghost use Rattle.pictures.specs.LayoutView.LayoutPicture.Grid.{IsSmall};
ghost use Rattle.pictures.specs.LayoutView.LayoutPicture.Cards.{draw_each};
ghost use Rattle.pictures.specs.LayoutView.LayoutPicture.Names.{name_at};
ghost use Rattle.pictures.specs.LayoutView.LayoutPicture.Memory.{largest, scale_of, bar_width, range_text, pool_bytes};
ghost use Rattle.pictures.specs.LayoutView.LayoutPicture.Memory.{pool_text, region_shapes, pool_shapes};

use crate::layout_view::layout_picture::cards::{Card, column_of};
use crate::layout_view::layout_picture::grid::Grid;
use crate::layout_view::layout_picture::names::name_at;
use cargo_core::{Memory, Series, Text};
use picture_kit::{Area, Form, Ink, Shape};
use sdf_plan::Region;
use std::alloc::Global;
use wire_core::PoolRow;

// The size of the largest region.
fn largest(regions: &[Region]) -> u64
    ensures { result ≡ largest regions.now }
{
    let mut most: u64 = 0;
    for region in regions {
        most = most.max(region.size);
    }
    most
}

/// How many bytes a pixel of a bar stands for: so many that the largest region fits 320 pixels.
pub fn scale_of(regions: &[Region]) -> u64
    ensures scale { result ≡ scale_of regions.now }
    ensures some { 0 < result }
{
    largest(regions) / 320 + 1
}

// How long the bar for so many bytes is: two pixels at least.
fn bar_width(scale: u64, bytes: u64) -> u64
    requires { 0 < scale }
    ensures width { result ≡ bar_width scale bytes }
    ensures short { result ≤ 322 }
{
    (bytes / scale).min(320) + 2
}

// The first address of a region, and its size.
pub fn range_text(alloc: Global, base: u64, size: u64) -> Result<String, Memory>
    ensures { IfOk result (λ text. string_bytes text ≡ range_text base size) }
{
    Ok(format!(in alloc; "0x{base:x}, 0x{size:x} bytes")?)
}

// The base of a region; 0 where there is none of this number.
pub fn base_at(bases: &[u64], r: usize) -> u64
    ensures { result ≡ slice_index bases.now r }
{
    if r < bases.len() { bases[r] } else { 0 }
}

// Appends a region: its name, its bar, its address and its size.
fn add_region(
    alloc: Global,
    shapes: &mut Series<Shape>,
    grid: &Grid,
    scale: u64,
    base: u64,
    r: u64,
    region: &Region,
) -> Result<(), Memory>
    requires small { IsSmall grid.now }
    requires rows { r ≤ 2 ^ 40 }
    requires scale { 0 < scale }
    ensures { OnOk result (shapes.new ≡ shapes.old
        ++ region_shapes grid.now scale base r region.now) }
{
    let (x, y) = (grid.left(), grid.region_y(r));
    let width = bar_width(scale, region.size);
    let bar = Area {
        x,
        y: y - 8,
        width,
        height: 16,
    };
    let name = region.name.as_str();
    let range = range_text(alloc, base, region.size)?;
    shapes.push(Shape::words(alloc, Ink::Label, 16, y + 4, name)?)?;
    shapes.push(Shape::noted(alloc, Ink::Region, Form::Block(bar), name)?)?;
    shapes.push(Shape::words(alloc, Ink::Label, x + 336, y + 4, range.as_str())?)
}

/// Appends each region.
pub fn add_regions(
    alloc: Global,
    shapes: &mut Series<Shape>,
    grid: &Grid,
    bases: &[u64],
    regions: &[Region],
) -> Result<(), Memory>
    requires small { IsSmall grid.now }
    requires rows { length regions.now ≤ 2 ^ 40 }
    ensures { OnOk result (shapes.new ≡ shapes.old ++ draw_each (λ r region. region_shapes grid.now
        (scale_of regions.now) (slice_index bases.now r) r region) 0 regions.now) }
{
    let scale = scale_of(regions);
    for r in 0..regions.len() {
        add_region(
            alloc,
            shapes,
            grid,
            scale,
            base_at(bases, r),
            r as u64,
            &regions[r],
        )?;
    }
    Ok(())
}

// How many bytes the buffers of a pool have.
#[tactic(auto, using(crate::proofs::LayoutView::LayoutPicture::GridLemmas::wide_product))]
fn pool_bytes(pool: &PoolRow) -> u64
    ensures { result ≡ pool_bytes pool.now }
{
    let buffers = pool.buffers as u64;
    let size = pool.size as u64;
    buffers * size
}

// What is said of a pool: its name, its buffers and their size, and its owner.
pub fn pool_text(alloc: Global, owner: &str, pool: &PoolRow) -> Result<String, Memory>
    ensures { IfOk result (λ text. string_bytes text ≡ pool_text owner.now pool.now) }
{
    let mut text = format!(in alloc; "pool {} {}", pool.name.as_str(), pool.buffers)?;
    write!(text, " x {} of {owner}", pool.size)?;
    Ok(text)
}

// Appends a pool: its bar in its region's, in the colour of its owner's box, and what is said of
// it.
fn add_pool(
    alloc: Global,
    shapes: &mut Series<Shape>,
    grid: &Grid,
    scale: u64,
    cards: &[Card],
    owner: &str,
    pool: &PoolRow,
) -> Result<(), Memory>
    requires small { IsSmall grid.now }
    requires rows { 0 < scale }
    ensures { OnOk result (shapes.new ≡ shapes.old
        ++ pool_shapes grid.now scale cards.now owner.now pool.now) }
{
    let (x, y) = (grid.left(), grid.region_y(pool.region as u64));
    let width = bar_width(scale, pool_bytes(pool));
    let bar = Area {
        x,
        y: y - 5,
        width,
        height: 10,
    };
    let ink = Ink::Shade(column_of(cards, owner) as u64);
    let text = pool_text(alloc, owner, pool)?;
    shapes.push(Shape::noted(alloc, ink, Form::Block(bar), text.as_str())?)?;
    shapes.push(Shape::words(alloc, Ink::Label, x + 640, y + 4, text.as_str())?)
}

/// Appends each pool.
pub fn add_pools(
    alloc: Global,
    shapes: &mut Series<Shape>,
    grid: &Grid,
    scale: u64,
    cards: &[Card],
    owners: &[Text],
    pools: &[PoolRow],
) -> Result<(), Memory>
    requires small { IsSmall grid.now }
    requires rows { 0 < scale }
    ensures { OnOk result (shapes.new ≡ shapes.old ++ draw_each (λ k pool. pool_shapes grid.now
        scale cards.now (name_at owners.now k) pool) 0 pools.now) }
{
    for k in 0..pools.len() {
        add_pool(
            alloc,
            shapes,
            grid,
            scale,
            cards,
            name_at(owners, k),
            &pools[k],
        )?;
    }
    Ok(())
}
