//! The rows of queues, read off the table of what classes use: what each carries, between whom, and
//! where it stands.
ghost use Rattle.std.specs.Prelude.{◌≡◌, ◌++◌, All, IfOk, OnOk};
ghost use Rattle.sdf_plan.specs.ClassTable.Shown.{AreClasses, element_shown, ends_shown, queue_shown};
ghost use Rattle.sdf_plan.specs.ClassTable.Table.{table_of};
ghost use Rattle.region_layout.specs.Rows.{consumer_of, producer_of, queue_in, queue_row};
ghost use Rattle.region_layout.specs.Rows.{queue_rows, queues_of, region_of};
ghost use Rattle.region_layout.specs.Uses.{IsSmallElement, IsSmallQueue};

use crate::actors::Names;
use crate::texts::text_of;
use cargo_core::{Memory, Series};
use sdf_plan::Place;
use sdf_plan::class_table::{ClassElement, Classes, Ends, QueueUse, queue_offset};
use std::alloc::Global;
use wire_core::{ActorId, QueueRow};

// Who puts into a queue of the element at a place.
fn producer(names: &Names<'_>, place: Place, ends: Ends<&str>) -> ActorId
    ensures { result ≡ producer_of names.now.plan.now place (ends_shown ends.entry) }
{
    match ends {
        Ends::FromDevice(_) => names.device(place),
        Ends::ToDevice(driver) => names.actor(driver),
        Ends::Across(link) => names.actor(link.from),
    }
}

// Who takes from it.
fn consumer(names: &Names<'_>, place: Place, ends: Ends<&str>) -> ActorId
    ensures { result ≡ consumer_of names.now.plan.now place (ends_shown ends.entry) }
{
    match ends {
        Ends::FromDevice(driver) => names.actor(driver),
        Ends::ToDevice(_) => names.device(place),
        Ends::Across(link) => names.actor(link.to),
    }
}

// The region in which it stands.
fn region(names: &Names<'_>, ends: Ends<&str>) -> Option<u32>
    ensures { result ≡ region_of names.now.plan.now (ends_shown ends.entry) }
{
    match ends {
        Ends::Across(link) => names.region(link.region),
        _ => None,
    }
}

// The row of a queue of the element at a place.
#[tactic(auto, unfolding(crate::specs::Rows::queue_in))]
fn queue_row(
    alloc: Global,
    names: &Names<'_>,
    place: Place,
    queue: &QueueUse<&str>,
) -> Result<QueueRow, Memory>
    requires { IsSmallQueue queue.now }
    ensures { IfOk result (λ row. row ≡ queue_row names.now.plan.now place
        (queue_shown queue.now)) }
{
    Ok(QueueRow {
        name: text_of(alloc, &queue.name)?,
        kind: queue.kind,
        capacity: queue.capacity as u32,
        producer: producer(names, place, queue.ends),
        consumer: consumer(names, place, queue.ends),
        region: region(names, queue.ends),
        offset: queue_offset(queue) as u64,
    })
}

// Appends the queues of an element.
fn add_element(
    alloc: Global,
    names: &Names<'_>,
    into: &mut Series<QueueRow>,
    element: &ClassElement<&str>,
) -> Result<(), Memory>
    requires { All IsSmallQueue element.now.queues }
    ensures { OnOk result (into.new ≡ into.old
        ++ queue_rows names.now.plan.now (element_shown element.now)) }
{
    for queue in element.queues.as_slice() {
        into.push(queue_row(alloc, names, element.place, queue)?)?;
    }
    Ok(())
}

/// All queues, in the order of the table.
pub fn queues_of(
    alloc: Global,
    names: &Names<'_>,
    classes: &Classes<'_>,
) -> Result<Series<QueueRow>, Memory>
    requires table { AreClasses classes.now names.now.plan.now }
    requires small { All IsSmallElement (table_of names.now.plan.now) }
    ensures { IfOk result (λ queues. queues ≡ queues_of names.now.plan.now) }
{
    let mut queues = Series::new(alloc);
    let elements = classes.in_order(alloc)?;
    for at in 0..elements.len() {
        add_element(alloc, names, &mut queues, elements[at])?;
    }
    Ok(queues)
}
