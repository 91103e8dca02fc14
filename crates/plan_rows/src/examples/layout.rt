//! `region_layout`: where the regions, the queues and the pools of a plan lie.

ghost use Rattle.sdf_check.specs.Valid.{Valid};

use cargo_core::Memory;
use region_layout::lay_out;
use report_text::write_layout;
use sdf_plan::Plan;
use std::alloc::Global;

/// Lays a plan out that was judged, and tells who acts and what lies where.
pub fn show_layout(alloc: Global, plan: &Plan) -> Result<String, Memory>
    requires { Valid plan.now }
{
    let layout = lay_out(alloc, plan)?;
    let mut text = String::from_str(alloc, "actors")?;
    for actor in layout.actors() {
        write!(text, " {}", actor.as_str())?;
    }
    write!(text, "\npools {}\n", layout.pools().len())?;
    let lines = write_layout(alloc, plan, &layout)?;
    text.push_str(lines.as_str())?;
    Ok(text)
}
