//! The elements of the classes of a plan, and which of them stands at a place.
ghost use Rattle.std.specs.Prelude.{◌≡◌, ◌++◌, ⊤, Some, None, map, slice_get, IfOk, OnOk};
ghost use Rattle.std.specs.Prelude.{MatchOption};
ghost use Rattle.sdf_plan.specs.ClassTable.Numbers.{seen};
ghost use Rattle.sdf_plan.specs.declared.plan.Plan.{Plan};
ghost use Rattle.sdf_plan.specs.ClassTable.Shown.{element_shown, AreClasses};
ghost use Rattle.sdf_plan.specs.ClassTable.Order.{number_of};
ghost use Rattle.sdf_plan.specs.ClassTable.Table.{OfElement, table_of};

use crate::Place;
use crate::class_table::uses::ClassElement;
use cargo_core::{Memory, Series};
use std::alloc::Global;

/// Of each class that a plan has, the element of the class itself, and then those of its clients.
#[derive(Debug, Drop)]
pub struct Classes<'a> {
    pub net: Series<ClassElement<&'a str>>,
    pub serial: Series<ClassElement<&'a str>>,
    pub blk: Series<ClassElement<&'a str>>,
}

/// The item at a place of a list.
pub fn nth<T>(items: &Series<T>, at: usize) -> Option<&T>
    ensures { MatchOption result (slice_get items.now at ≡ None)
        (λ item. slice_get items.now at ≡ Some item.now) }
{
    if at < items.len() {
        Some(items.get(at))
    } else {
        None
    }
}

// Appends the elements of a class.
fn push_all<'b, 'a>(
    all: &mut Vec<&'b ClassElement<&'a str>>,
    elements: &'b [ClassElement<&'a str>],
) -> Result<(), Memory>
    ensures { OnOk result (map seen all.new.items
        ≡ map seen all.old.items ++ map element_shown elements.now) }
{
    for element in elements {
        all.push(element)?;
    }
    Ok(())
}

impl<'a> Classes<'a> {
    /// All elements, in the order of the walk.
    #[tactic(auto, unfolding(crate::specs::ClassTable::Table::table_of))]
    pub fn in_order<'b>(&'b self, alloc: Global) -> Result<Vec<&'b ClassElement<&'a str>>, Memory>
        ensures { IfOk result (λ all. (plan : Plan) → AreClasses self.now plan
            → map seen all.items ≡ table_of plan) }
    {
        let mut all = Vec::new(alloc);
        push_all(&mut all, self.net.as_slice())?;
        push_all(&mut all, self.serial.as_slice())?;
        push_all(&mut all, self.blk.as_slice())?;
        Ok(all)
    }

    /// The element at a place; none where no class and no client of the plan stands there.
    pub fn at(&self, place: Place) -> Option<&ClassElement<&'a str>>
        ensures { (plan : Plan) → AreClasses self.now plan
            → MatchOption result (OfElement plan place (λ e. ⊤) → ⊥)
            (λ element. OfElement plan place (λ e. e ≡ element_shown element.now)) }
    {
        match place {
            Place::Net => nth(&self.net, 0),
            Place::NetClient(c) => nth(&self.net, c as usize + 1),
            Place::Serial => nth(&self.serial, 0),
            Place::SerialClient(c) => nth(&self.serial, c as usize + 1),
            Place::Blk => nth(&self.blk, 0),
            Place::BlkClient(c) => nth(&self.blk, c as usize + 1),
            _ => None,
        }
    }

    /// The number of the element at a place, in the order of the walk.
    pub fn number(&self, place: Place) -> u128
        ensures { (plan : Plan) → AreClasses self.now plan → result ≡ number_of plan place }
    {
        let net = self.net.len() as u128;
        let serial = self.serial.len() as u128;
        match place {
            Place::NetClient(c) => 1 + c as u128,
            Place::Serial => net,
            Place::SerialClient(c) => net + 1 + c as u128,
            Place::Blk => net + serial,
            Place::BlkClient(c) => net + serial + 1 + c as u128,
            _ => 0,
        }
    }
}
