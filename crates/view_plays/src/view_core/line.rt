//! The lines of refusals, which go to standard error.
ghost use Rattle.std.specs.Prelude.{◌≡◌, IfOk, string_bytes};
ghost use Rattle.view_plays.specs.ViewCore.Lines.{usage_line, refused_line, long_line};
ghost use Rattle.view_plays.specs.ViewCore.Lines.{identifier_line};

use cargo_core::Memory;
use report_text::write_place;
use sdf_plan::{Place, Refusal};
use std::alloc::Global;

/// The line for words that ask for nothing: the place of the first bad word, counted from 0. The
/// spellings are those of the main program; the only error of each is want of memory.
pub fn write_usage(alloc: Global, k: u32) -> Result<String, Memory>
    ensures { IfOk result (λ s. string_bytes s ≡ usage_line k) }
{
    Ok(format!(in alloc; "usage: word {k}\n")?)
}

/// The line for a description that is refused: the rule that it breaks, and the place.
pub fn write_refused(alloc: Global, refusal: &Refusal) -> Result<String, Memory>
    ensures { IfOk result (λ s. string_bytes s ≡ refused_line refusal.now) }
{
    let place = write_place(alloc, refusal.place)?;
    Ok(format!(in alloc; "refused {} {}\n", refusal.rule, place.as_str())?)
}

/// The line for a description that is too long.
pub fn write_too_long(alloc: Global) -> Result<String, Memory>
    ensures { IfOk result (λ s. string_bytes s ≡ long_line) }
{
    Ok(String::from_str(alloc, "too long\n")?)
}

/// The line for a description that is accepted and can't be exported: the first map of which the
/// `setvar_vaddr` is no identifier. It is this program's own.
pub fn write_no_identifier(alloc: Global, place: Place) -> Result<String, Memory>
    ensures { IfOk result (λ s. string_bytes s ≡ identifier_line place) }
{
    let place = write_place(alloc, place)?;
    Ok(format!(in alloc; "no identifier {}\n", place.as_str())?)
}
