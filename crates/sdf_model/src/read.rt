//! Reading a description: the plan that a text spells, or the refusal of the text.
ghost use Rattle.std.specs.Prelude.{◌≡◌, ◌<◌, ◌≤◌, ◌^◌, ℕ, length, None, Some, IfOk, IfErr};
ghost use Rattle.toml.specs.Data.{Members};
ghost use Rattle.toml.specs.View.{table_view};
ghost use Rattle.sdf_plan.specs.Elements.{IsNumbered};
ghost use Rattle.sdf_plan.specs.Places.{KeepsRules, IsRefusal};
ghost use Rattle.sdf_model.specs.Spelled.{plan_of};
ghost use Rattle.sdf_model.specs.Tree.{IsDocument, BreaksText, places_of, IfRefused, version_of};
ghost use Rattle.sdf_model.specs.First.{IsOfFirst, BreaksFirst, first_plan_of};
ghost use Rattle.sdf_model.specs.Counts.{text_most, elements_of_members};
ghost use Rattle.sdf_model.specs.Elements.{Judged, elements_of, first_broken};

use crate::element::elements;
use crate::field::Part;
use crate::rules::judge;
use crate::tree::version_of;
use cargo_core::Memory;
use sdf_plan::{Place, Plan, Refusal, SdfFault};
use std::alloc::Global;
use toml::Table;

/// How many bytes a description has at most.
pub const TEXT_MOST: usize = 16_777_216;

/// Reads a system description: the plan that the text spells, with every default filled in. It is
/// refused exactly where one of the first four rules is broken: the text is no UTF-8 or no TOML
/// document (rule 1), an element has a key beside its own (2), a required key is missing (3), or a
/// value isn't of its key's kind (4). The refusal names the least rule that is broken, and the
/// first element at which it is. A text whose version is 2 has the keys of version 2 too; one whose
/// version is neither 1 nor 2, or no number, breaks rule 4, and is judged by rules 2 and 3 as one of
/// version 1. What is not of version 2 is read as it was before there was a second version. The
/// keys of the elements of a system are those of the Microkit manual, and those of `net`, `serial`
/// and `blk` are this project's own.
pub fn read_description(alloc: Global, bytes: &[u8]) -> Result<Plan, SdfFault>
    requires { length bytes.now ≤ text_most }
    ensures accepted { IfOk result (λ plan. (root : Members) × IsDocument bytes.now root
        × KeepsRules (BreaksText bytes.now) (places_of bytes.now) 1 4 × (plan ≡ plan_of root)) }
    ensures numbered { IfOk result IsNumbered }
    ensures refused { IfErr result (λ fault.
        IfRefused fault (IsRefusal (BreaksText bytes.now) (places_of bytes.now) 1 4)) }
    ensures accepted_first { IsOfFirst bytes.now → IfOk result (λ plan.
        (root : Members) × IsDocument bytes.now root
        × KeepsRules (BreaksFirst bytes.now) (places_of bytes.now) 1 4
        × (plan ≡ first_plan_of root)) }
    ensures refused_first { IsOfFirst bytes.now → IfErr result (λ fault.
        IfRefused fault (IsRefusal (BreaksFirst bytes.now) (places_of bytes.now) 1 4)) }
{
    match toml::table_from_slice(alloc, bytes) {
        Ok(root) => read_root(alloc, &root),
        Err(fault) => match Memory::of_toml(&fault) {
            Some(memory) => Err(SdfFault::Memory(memory)),
            None => Err(SdfFault::Refused(Refusal {
                rule: 1,
                place: Place::System,
            })),
        },
    }
}

/// Reads the root table of a description, which breaks rule 2, 3 or 4 or spells a plan.
fn read_root(alloc: Global, root: &Table) -> Result<Plan, SdfFault>
    requires { elements_of_members (table_view root.now) < 2 ^ 32 }
    ensures accepted { IfOk result (λ plan.
        ((n : ℕ) → 2 ≤ n → n ≤ 4 → first_broken (version_of (table_view root.now)) n
        (elements_of (table_view root.now)) ≡ None)
        × (plan ≡ plan_of (table_view root.now))) }
    ensures numbered { IfOk result IsNumbered }
    ensures refused { IfErr result (λ fault.
        IfRefused fault (Judged (version_of (table_view root.now))
        (elements_of (table_view root.now)))) }
{
    let elements = elements(alloc, root)?;
    match judge(version_of(root), &elements) {
        Ok(()) => {
            let plan = Plan::read(alloc, root)?;
            Ok(plan)
        }
        Err(refusal) => Err(SdfFault::Refused(refusal)),
    }
}
