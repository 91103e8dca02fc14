//! The names of queues and pools, as texts.
ghost use Rattle.std.specs.Prelude.{◌≡◌, IfOk};
ghost use Rattle.sdf_plan.specs.ClassTable.Named.{text_of};
ghost use Rattle.sdf_plan.specs.ClassTable.Shown.{use_name_shown};

use cargo_core::{Memory, Text};
use sdf_plan::class_table::UseName;
use std::alloc::Global;

// The text of a name: a client's number stands between its two parts.
pub fn text_of(alloc: Global, name: &UseName<&str>) -> Result<Text, Memory>
    ensures { IfOk result (λ text. text ≡ text_of (use_name_shown name.now)) }
{
    let text = match name.client {
        Some(c) => format!(in alloc; "{}{c}{}", name.first, name.rest)?,
        None => format!(in alloc; "{}{}", name.first, name.rest)?,
    };
    Text::new(alloc, text.as_str())
}
