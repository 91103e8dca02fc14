//! What is shown of a description that is accepted.
ghost use Rattle.std.specs.Prelude.{◌≡◌, IfOk};
ghost use Rattle.sdf_plan.specs.Elements.{IsNumbered};
ghost use Rattle.sdf_check.specs.Valid.{Valid};
ghost use Rattle.region_layout.specs.Layouts.{layout_of};
ghost use Rattle.export_text.specs.ConfigText.Config.{config_text};
ghost use Rattle.view_plays.specs.ViewCore.Deciding.{Show, Refuse, decision_of, view_text, rows_of};
ghost use Rattle.view_plays.specs.ViewCore.Deciding.{unnameable, PlanShows};
ghost use Rattle.view_plays.specs.ViewCore.Lines.{identifier_line};

use crate::view_core::answer::Answer;
use crate::view_core::ask::View;
use crate::view_core::ended::Ended;
use crate::view_core::line::write_no_identifier;
use cargo_core::{Bytes, Memory};
use export_text::config_text::{Rows, write_config};
use export_text::{first_bad_symbol, write_system};
use pictures::layout_view::{draw_graph, draw_layout};
use region_layout::lay_out;
use sdf_plan::{Place, Plan};
use std::alloc::Global;

// The header of a plan.
fn write_header(alloc: Global, plan: &Plan) -> Result<Bytes, Memory>
    requires { Valid plan.now }
    ensures { IfOk result (λ text. text ≡ config_text plan.now (rows_of (layout_of plan.now))) }
{
    let layout = lay_out(alloc, plan)?;
    let rows = Rows {
        actors: layout.actors(),
        pools: layout.pools(),
        queues: layout.queues(),
    };
    write_config(alloc, plan, &rows)
}

// That a plan names a variable as no program in C can.
fn refuse_name(alloc: Global, place: Place) -> Result<Answer, Memory>
    ensures { IfOk result (λ answer. decision_of answer
        ≡ Refuse Ended.NoIdentifier (identifier_line place)) }
{
    let line = write_no_identifier(alloc, place)?;
    Ok(Answer::Refuse(Ended::NoIdentifier, line))
}

// What a view shows of a plan.
fn show(alloc: Global, view: View, plan: &Plan) -> Result<Answer, Memory>
    requires valid { Valid plan.now }
    requires numbered { IsNumbered plan.now }
    ensures { IfOk result (λ answer. decision_of answer ≡ Show (view_text plan.now view)) }
{
    match view {
        View::System => Ok(Answer::Show(write_system(alloc, plan)?)),
        View::Config => Ok(Answer::Show(write_header(alloc, plan)?)),
        View::Layout => Ok(Answer::Show(draw_layout(alloc, plan)?)),
        View::Graph => Ok(Answer::Show(draw_graph(alloc, plan)?)),
    }
}

// The first map whose variable a view would have to name, and that no program in C can.
fn unnameable(view: View, plan: &Plan) -> Option<Place>
    requires { IsNumbered plan.now }
    ensures { result ≡ unnameable plan.now view }
{
    match view {
        View::System | View::Config => first_bad_symbol(plan),
        View::Layout | View::Graph => None,
    }
}

/// What is shown of a plan that is accepted, or that it names a variable as no program in C can,
/// where it is for programs.
pub fn draw(alloc: Global, view: View, plan: &Plan) -> Result<Answer, Memory>
    requires valid { Valid plan.now }
    requires numbered { IsNumbered plan.now }
    ensures { IfOk result (λ answer. PlanShows plan.now view (decision_of answer)) }
{
    match unnameable(view, plan) {
        Some(place) => refuse_name(alloc, place),
        None => show(alloc, view, plan),
    }
}
