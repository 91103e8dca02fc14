//! The rules on what is named: that a domain which isn't idle has a role, and that nothing is named
//! twice.
ghost use Rattle.std.specs.Prelude.{◌≡◌, ◌↔◌, ◌⊎◌, IsTrue, Some, slice_get};
ghost use Rattle.sdf_plan.specs.ClassTable.Order.{number_of};
ghost use Rattle.sdf_plan.specs.ClassTable.Shown.{element_shown};
ghost use Rattle.sdf_plan.specs.ClassTable.Table.{table_of};
ghost use Rattle.sdf_check.specs.Priors.{AreTables};
ghost use Rattle.sdf_check.specs.ClassRules.{LacksRole, NamesDomainAgain, NamesRegionAgain};
ghost use Rattle.sdf_check.specs.ClassRules.{GivesWrongRole, IsSharedWithStranger, SomeOf};
ghost use Rattle.sdf_check.specs.ClassRules.{class_domains};

use crate::class::is_named;
use crate::judge::{Judge, Tables, at};
use crate::keys::names_again;
use crate::rows::{gives_wrong_role, is_shared_with_stranger};
use sdf_plan::Place;
use sdf_plan::class_table::ClassElement;

// Whether the domain of a name has a role.
fn has_role(judge: &Judge<'_>, tables: &Tables<'_>, name: &str) -> bool
    requires { AreTables tables.now judge.now.plan.now }
    ensures { IsTrue result
        ↔ SomeOf (λ other. other ≡ name.now) (class_domains judge.now.plan.now) }
{
    is_named(&tables.named_domains.places, name)
}

/// Whether a domain that isn't idle has no role.
pub fn lacks_role(judge: &Judge<'_>, tables: &Tables<'_>, place: Place) -> bool
    requires { AreTables tables.now judge.now.plan.now }
    ensures { IsTrue result ↔ LacksRole judge.now.plan.now place }
{
    match place {
        Place::Domain(d) => match at(&judge.plan.protection_domain, d) {
            Some(domain) => domain.program.as_str() != "idle"
                && !has_role(judge, tables, domain.name.as_str()),
            None => false,
        },
        _ => false,
    }
}

fn names_domain_again(judge: &Judge<'_>, tables: &Tables<'_>, element: &ClassElement<&str>) -> bool
    requires tables { AreTables tables.now judge.now.plan.now }
    requires stands { slice_get (table_of judge.now.plan.now)
        (number_of judge.now.plan.now element.now.place) ≡ Some (element_shown element.now) }
    ensures { IsTrue result ↔ NamesDomainAgain judge.now.plan.now (element_shown element.now) }
{
    names_again(&tables.named_domains, &tables.classes, element)
}

fn names_region_again(judge: &Judge<'_>, tables: &Tables<'_>, element: &ClassElement<&str>) -> bool
    requires tables { AreTables tables.now judge.now.plan.now }
    requires stands { slice_get (table_of judge.now.plan.now)
        (number_of judge.now.plan.now element.now.place) ≡ Some (element_shown element.now) }
    ensures { IsTrue result ↔ NamesRegionAgain judge.now.plan.now (element_shown element.now) }
{
    names_again(&tables.named_regions, &tables.classes, element)
}

/// Whether an element gives a role to a domain of another program, or to one that has a role.
pub fn gives_bad_role(judge: &Judge<'_>, tables: &Tables<'_>, element: &ClassElement<&str>) -> bool
    requires tables { AreTables tables.now judge.now.plan.now }
    requires stands { slice_get (table_of judge.now.plan.now)
        (number_of judge.now.plan.now element.now.place) ≡ Some (element_shown element.now) }
    ensures { IsTrue result ↔ (GivesWrongRole judge.now.plan.now (element_shown element.now)
        ⊎ NamesDomainAgain judge.now.plan.now (element_shown element.now)) }
{
    gives_wrong_role(judge, element) || names_domain_again(judge, tables, element)
}

/// Whether a stranger maps a region of an element, or the element names one that is named already.
pub fn shares_region(judge: &Judge<'_>, tables: &Tables<'_>, element: &ClassElement<&str>) -> bool
    requires tables { AreTables tables.now judge.now.plan.now }
    requires stands { slice_get (table_of judge.now.plan.now)
        (number_of judge.now.plan.now element.now.place) ≡ Some (element_shown element.now) }
    ensures { IsTrue result ↔ (IsSharedWithStranger judge.now.plan.now (element_shown element.now)
        ⊎ NamesRegionAgain judge.now.plan.now (element_shown element.now)) }
{
    is_shared_with_stranger(judge, element) || names_region_again(judge, tables, element)
}
