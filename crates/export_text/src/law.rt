//! That a system file gives back what a plan has.
ghost use Rattle.std.specs.Prelude.{◌≡◌, Some};
ghost use Rattle.sdf_plan.specs.declared.plan.Plan.{Plan};
ghost use Rattle.export_text.specs.System.{system_text};
ghost use Rattle.export_text.specs.Parts.{IsWide, parts_in, parts_of};

use picture_kit::xml_text::xml_law;

/// A plain reader of the file, with the manual's defaults for attributes that aren't there, gets
/// back the regions, the protection domains with their programs, maps and interrupts, and the
/// channels of the plan: each once and in order, and nothing else.
pub fn file_law()
    ensures { (plan : Plan) → IsWide plan → parts_of (system_text plan) ≡ Some (parts_in plan) }
{
    xml_law();
}
