//! What is drawn of the layout of a valid plan.
ghost use Rattle.std.specs.Prelude.{◌≡◌, IfOk};
ghost use Rattle.sdf_plan.specs.Elements.{IsNumbered};
ghost use Rattle.sdf_check.specs.Valid.{Valid};
ghost use Rattle.region_layout.specs.Layouts.{layout_of};
ghost use Rattle.pictures.specs.LayoutView.Drawn.{layout_shapes, layout_svg, layout_graph};

use crate::layout_view::layout_picture::{LayoutRows, layout_picture, write_graph};
use crate::layout_view::picture_style::PICTURE_STYLE;
use cargo_core::{Bytes, Memory};
use picture_kit::{Picture, write_svg};
use region_layout::{Layout, lay_out};
use sdf_plan::Plan;
use std::alloc::Global;

// The rows of a layout, as they are drawn.
fn rows_of(layout: &Layout) -> LayoutRows<'_>
    ensures bases { result.bases.now ≡ layout.now.bases }
    ensures queues { result.queues.now ≡ layout.now.queues }
    ensures pools { result.pools.now ≡ layout.now.pools }
    ensures actors { result.actors.now ≡ layout.now.actors }
{
    LayoutRows {
        bases: layout.bases.as_slice(),
        queues: layout.queues(),
        pools: layout.pools(),
        actors: layout.actors(),
    }
}

/// The picture of the layout of a valid plan, as shapes. The only error is want of memory, as at
/// the others.
#[tactic(auto, using(crate::proofs::LayoutView::RowLemmas::row_lemmas))]
pub fn picture(alloc: Global, plan: &Plan, layout: &Layout) -> Result<Picture, Memory>
    requires valid { Valid plan.now }
    requires numbered { IsNumbered plan.now }
    requires layout { layout.now ≡ layout_of plan.now }
    ensures { IfOk result (λ picture. picture ≡ layout_shapes plan.now layout.now) }
{
    layout_picture(alloc, plan, &rows_of(layout))
}

/// The same as SVG, for light and for dark pages.
#[tactic(auto, unfolding(crate::specs::LayoutView::Drawn::layout_svg))]
pub fn draw_layout(alloc: Global, plan: &Plan) -> Result<Bytes, Memory>
    requires valid { Valid plan.now }
    requires numbered { IsNumbered plan.now }
    ensures { IfOk result (λ text. text ≡ layout_svg plan.now (layout_of plan.now)) }
{
    let layout = lay_out(alloc, plan)?;
    let picture = picture(alloc, plan, &layout)?;
    write_svg(alloc, PICTURE_STYLE, &picture)
}

/// The layout of a valid plan as a graph in DOT, for those who lay out with Graphviz.
#[tactic(auto, unfolding(crate::specs::LayoutView::Drawn::layout_graph))]
pub fn draw_graph(alloc: Global, plan: &Plan) -> Result<Bytes, Memory>
    requires { Valid plan.now }
    ensures { IfOk result (λ text. text ≡ layout_graph plan.now (layout_of plan.now)) }
{
    let layout = lay_out(alloc, plan)?;
    write_graph(alloc, plan, &rows_of(&layout))
}
