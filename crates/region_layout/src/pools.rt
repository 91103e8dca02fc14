//! The rows of pools, read off the table of what classes use: each fills a region from its base on.
ghost use Rattle.std.specs.Prelude.{◌≡◌, ◌++◌, All, IfOk, OnOk};
ghost use Rattle.sdf_plan.specs.ClassTable.Shown.{AreClasses, element_shown, pool_shown};
ghost use Rattle.sdf_plan.specs.ClassTable.Table.{table_of};
ghost use Rattle.region_layout.specs.Rows.{pool_in, pool_row, pool_rows, pools_of};
ghost use Rattle.region_layout.specs.Uses.{IsSmallElement, IsSmallPool};

use crate::actors::Names;
use crate::texts::text_of;
use cargo_core::{Memory, Series};
use sdf_plan::class_table::{ClassElement, Classes, PoolUse};
use std::alloc::Global;
use wire_core::PoolRow;

// The row of a pool.
#[tactic(auto, unfolding(crate::specs::Rows::pool_in))]
fn pool_row(alloc: Global, names: &Names<'_>, pool: &PoolUse<&str>) -> Result<PoolRow, Memory>
    requires { IsSmallPool pool.now }
    ensures { IfOk result (λ row. row ≡ pool_row names.now.plan.now (pool_shown pool.now)) }
{
    let region = names.region(pool.region).unwrap_or(0);
    Ok(PoolRow {
        name: text_of(alloc, &pool.name)?,
        region,
        base: names.base(region),
        buffers: pool.buffers as u32,
        size: pool.size as u32,
    })
}

// Appends the pools of an element.
fn add_element(
    alloc: Global,
    names: &Names<'_>,
    into: &mut Series<PoolRow>,
    element: &ClassElement<&str>,
) -> Result<(), Memory>
    requires { All IsSmallPool element.now.pools }
    ensures { OnOk result (into.new ≡ into.old
        ++ pool_rows names.now.plan.now (element_shown element.now)) }
{
    for pool in element.pools.as_slice() {
        into.push(pool_row(alloc, names, pool)?)?;
    }
    Ok(())
}

/// All pools, in the order of the table.
pub fn pools_of(
    alloc: Global,
    names: &Names<'_>,
    classes: &Classes<'_>,
) -> Result<Series<PoolRow>, Memory>
    requires table { AreClasses classes.now names.now.plan.now }
    requires small { All IsSmallElement (table_of names.now.plan.now) }
    ensures { IfOk result (λ pools. pools ≡ pools_of names.now.plan.now) }
{
    let mut pools = Series::new(alloc);
    let elements = classes.in_order(alloc)?;
    for at in 0..elements.len() {
        add_element(alloc, names, &mut pools, elements[at])?;
    }
    Ok(pools)
}
