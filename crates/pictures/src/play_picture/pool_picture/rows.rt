//! The row of a pool: its name, its bar, and the bar's parts in words.
ghost use Rattle.std.specs.Prelude.{◌≡◌, ◌≤◌, ◌<◌, ◌^◌, ◌++◌, length, IfOk, OnOk, string_bytes};
ghost use Rattle.pictures.specs.PlayPicture.PoolPicture.Rows.{row_y, part_width, part_shapes, parts};
ghost use Rattle.pictures.specs.PlayPicture.PoolPicture.Rows.{held_text, words_of, bar, row_shapes, draw_each};

use cargo_core::{Census, Memory, Series};
use picture_kit::{Area, Form, Ink, Shape};
use std::alloc::Global;

/// How long the bar of a whole pool is.
pub const BAR: u64 = 480;

/// The row of a pool.
pub fn row_y(k: u64) -> u64
    requires { k ≤ 2 ^ 40 }
    ensures row { result ≡ row_y k }
    ensures below { 40 ≤ result }
{
    56 + 24 * k
}

// How long the part of a bar for so many of the buffers is.
#[tactic(auto, unfolding(crate::specs::PlayPicture::PoolPicture::Rows::part_width))]
fn part_width(buffers: u32, count: u32) -> u64
    ensures width { result ≡ part_width buffers count }
    ensures near { result < 2 ^ 41 }
{
    480 * (count as u64) / (buffers as u64).max(1)
}

// Appends a part of a bar.
#[tactic(auto, unfolding(crate::specs::PlayPicture::PoolPicture::Rows::part_shapes))]
fn add_part(
    alloc: Global,
    shapes: &mut Series<Shape>,
    ink: Ink,
    x: u64,
    y: u64,
    width: u64,
    note: &str,
) -> Result<(), Memory>
    requires { 8 ≤ y }
    ensures { OnOk result (shapes.new ≡ shapes.old ++ part_shapes ink x y width note.now) }
{
    let area = Area {
        x,
        y: y - 8,
        width,
        height: 16,
    };
    shapes.push(Shape::noted(alloc, ink, Form::Block(area), note)?)
}

// Appends the parts of a bar: the buffers in queues, in hands, and lent.
fn add_parts(
    alloc: Global,
    shapes: &mut Series<Shape>,
    left: u64,
    y: u64,
    pool: &Census,
) -> Result<(), Memory>
    requires left { left ≤ 10000 }
    requires row { 8 ≤ y }
    ensures { OnOk result (shapes.new ≡ shapes.old ++ parts left y pool.now) }
{
    let queues = part_width(pool.buffers, pool.queues);
    let hands = part_width(pool.buffers, pool.hands);
    let lent = part_width(pool.buffers, pool.lent);
    let second = left + queues;
    let third = second + hands;
    add_part(alloc, shapes, Ink::Shade(0), left, y, queues, "in queues")?;
    add_part(alloc, shapes, Ink::Shade(1), second, y, hands, "in hands")?;
    add_part(alloc, shapes, Ink::Shade(2), third, y, lent, "lent")
}

// How many of a pool's buffers are in queues and in hands, in words.
fn held_text(alloc: Global, pool: &Census) -> Result<String, Memory>
    ensures { IfOk result (λ text. string_bytes text ≡ held_text pool.now) }
{
    Ok(format!(in alloc; "{} in queues, {} in hands, ", pool.queues, pool.hands)?)
}

// Where the buffers of a pool are, in words.
fn words_of(alloc: Global, pool: &Census) -> Result<String, Memory>
    ensures { IfOk result (λ text. string_bytes text ≡ words_of pool.now) }
{
    let mut text = held_text(alloc, pool)?;
    write!(text, "{} lent, of {}", pool.lent, pool.buffers)?;
    Ok(text)
}

// Appends the bar of a pool: a frame as long as the whole pool, and its parts.
fn add_bar(
    alloc: Global,
    shapes: &mut Series<Shape>,
    left: u64,
    y: u64,
    pool: &Census,
) -> Result<(), Memory>
    requires left { left ≤ 10000 }
    requires row { 8 ≤ y }
    ensures { OnOk result (shapes.new ≡ shapes.old ++ bar left y pool.now) }
{
    add_part(alloc, shapes, Ink::Region, left, y, BAR, pool.name.as_str())?;
    add_parts(alloc, shapes, left, y, pool)
}

// Appends the row of a pool.
fn add_row(
    alloc: Global,
    shapes: &mut Series<Shape>,
    left: u64,
    k: u64,
    pool: &Census,
) -> Result<(), Memory>
    requires left { left ≤ 10000 }
    requires row { k ≤ 2 ^ 40 }
    ensures { OnOk result (shapes.new ≡ shapes.old ++ row_shapes left k pool.now) }
{
    let y = row_y(k);
    let text = words_of(alloc, pool)?;
    shapes.push(Shape::words(alloc, Ink::Label, 16, y + 4, pool.name.as_str())?)?;
    add_bar(alloc, shapes, left, y, pool)?;
    shapes.push(Shape::words(alloc, Ink::Label, left + 496, y + 4, text.as_str())?)
}

/// Appends the row of each pool.
pub fn add_rows(
    alloc: Global,
    shapes: &mut Series<Shape>,
    left: u64,
    pools: &[Census],
) -> Result<(), Memory>
    requires left { left ≤ 10000 }
    requires rows { length pools.now ≤ 2 ^ 40 }
    ensures { OnOk result (shapes.new ≡ shapes.old ++ draw_each (row_shapes left) 0 pools.now) }
{
    for k in 0..pools.len() {
        add_row(alloc, shapes, left, k as u64, &pools[k])?;
    }
    Ok(())
}
