//! The picture of pools.
ghost use Rattle.std.specs.Prelude.{◌≡◌, ◌≤◌, ◌^◌, ◌++◌, length, IfOk, OnOk};
ghost use Rattle.pictures.specs.PlayPicture.PoolPicture.Pictures.{longest_name, left, shapes_of, picture_of};

use crate::play_picture::pool_picture::rows::{add_rows, row_y};
use cargo_core::{Census, Memory, Series, Text};
use picture_kit::{Ink, Picture, Shape};
use std::alloc::Global;

// How long the longest name of a pool is; names past 1,000 count as 1,000.
fn longest_name(pools: &[Census]) -> u64
    ensures length { result ≡ longest_name 0 pools.now }
    ensures few { result ≤ 1000 }
{
    let mut most: u64 = 0;
    for pool in pools {
        most = most.max((pool.name.as_str().len() as u64).min(1000));
    }
    most
}

// Where the bars begin.
fn left(pools: &[Census]) -> u64
    ensures left { result ≡ left pools.now }
    ensures near { result ≤ 10000 }
{
    8 * longest_name(pools) + 32
}

// The shapes of the picture.
#[tactic(auto, unfolding(crate::specs::PlayPicture::PoolPicture::Pictures::shapes_of))]
fn shapes_of(alloc: Global, pools: &[Census]) -> Result<Series<Shape>, Memory>
    requires { length pools.now ≤ 2 ^ 40 }
    ensures { IfOk result (λ shapes. shapes ≡ shapes_of pools.now) }
{
    let mut shapes = Series::new(alloc);
    shapes.push(Shape::words(alloc, Ink::Heading, 16, 28, "Buffers")?)?;
    add_rows(alloc, &mut shapes, left(pools), pools)?;
    Ok(shapes)
}

/// The picture of where the buffers of pools are: a row for each pool, in order, with a bar of
/// which the parts are the buffers in queues, in hands, and lent, and the same in words. The only
/// error is want of memory. This project's own.
pub fn pool_picture(alloc: Global, pools: &[Census]) -> Result<Picture, Memory>
    requires { length pools.now ≤ 2 ^ 40 }
    ensures { IfOk result (λ picture. picture ≡ picture_of pools.now) }
{
    let shapes = shapes_of(alloc, pools)?;
    Ok(Picture {
        width: left(pools) + 960,
        height: row_y(pools.len() as u64),
        title: Text::new(alloc, "Buffers")?,
        about: Text::new(alloc, "where the buffers of each pool are")?,
        shapes,
    })
}
