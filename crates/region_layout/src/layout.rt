//! The layout of a plan, and how a valid plan is laid out.
ghost use Rattle.std.specs.Prelude.{◌≡◌, ◌<◌, length, slice_get, Some, IfOk};
ghost use Rattle.sdf_plan.specs.ClassTable.Numbers.{AreNumbered};
ghost use Rattle.sdf_check.specs.Valid.{Valid};
ghost use Rattle.region_layout.specs.Bases.{AreDisjoint, AreGivenApart};
ghost use Rattle.region_layout.specs.Layouts.{layout_of};
ghost use Rattle.region_layout.specs.Sizes.{HasSmallNumbers};

use crate::actors::{Names, actors_of};
use crate::bases::bases_of;
use crate::pools::pools_of;
use crate::queues::queues_of;
use cargo_core::{Memory, Series, Text};
use sdf_plan::Plan;
use sdf_plan::class_table::classes_of_few;
use std::alloc::Global;
use wire_core::{PoolRow, QueueRow};

/// The layout of a plan.
#[derive(Debug, Drop)]
pub struct Layout {
    /// The physical address at which each region begins.
    pub bases: Series<u64>,
    /// The queues, by their numbers.
    pub queues: Series<QueueRow>,
    /// The pools of buffers, by their numbers.
    pub pools: Series<PoolRow>,
    /// The names of the actors, by their numbers.
    pub actors: Series<Text>,
}

impl Layout {
    /// The physical address at which a region begins; the region must be one of the plan's.
    pub fn base(&self, region: u32) -> u64
        requires { region < length self.now.bases }
        ensures { slice_get self.now.bases region ≡ Some result }
    {
        *self.bases.get(region as usize)
    }

    /// The queues, by their numbers.
    pub fn queues(&self) -> &[QueueRow]
        ensures { result.now ≡ self.now.queues }
    {
        self.queues.as_slice()
    }

    /// The pools of buffers, by their numbers.
    pub fn pools(&self) -> &[PoolRow]
        ensures { result.now ≡ self.now.pools }
    {
        self.pools.as_slice()
    }

    /// The names of the actors, by their numbers: the domains that act, in file order, and the
    /// devices.
    pub fn actors(&self) -> &[Text]
        ensures { result.now ≡ self.now.actors }
    {
        self.actors.as_slice()
    }
}

/// Lays a valid plan out, this project's own: the base of each region, the queues and the pools in
/// them, and who acts. The only error is want of memory.
pub fn lay_out(alloc: Global, plan: &Plan) -> Result<Layout, Memory>
    requires { Valid plan.now }
    ensures layout { IfOk result (λ layout. layout ≡ layout_of plan.now) }
    ensures disjoint { IfOk result (λ layout. AreDisjoint plan.now.memory_region layout.bases) }
{
    laid_out(alloc, plan)
}

// Lays out a plan whose numbers are such as the rules allow, and in which no two given ranges meet.
fn laid_out(alloc: Global, plan: &Plan) -> Result<Layout, Memory>
    requires small { HasSmallNumbers plan.now }
    requires numbered { AreNumbered plan.now }
    requires apart { AreGivenApart plan.now.memory_region }
    ensures layout { IfOk result (λ layout. layout ≡ layout_of plan.now) }
    ensures disjoint { IfOk result (λ layout. AreDisjoint plan.now.memory_region layout.bases) }
{
    let actors = actors_of(alloc, plan)?;
    let bases = bases_of(alloc, plan.memory_region.as_slice())?;
    let classes = classes_of_few(alloc, plan)?;
    let names = Names {
        plan,
        actors: &actors,
        bases: &bases,
    };
    let queues = queues_of(alloc, &names, &classes)?;
    let pools = pools_of(alloc, &names, &classes)?;
    Ok(Layout {
        bases,
        queues,
        pools,
        actors,
    })
}
