//! All elements of a plan, in the order in which a rule is read.
ghost use Rattle.std.specs.Prelude.{◌≡◌, ◌<◌, ◌^◌, ◌++◌, ◌∷◌, List, length, map, All, IfOk, IfSome};
ghost use Rattle.std.specs.Prelude.{OnOk, Option};
ghost use Rattle.std.specs.Option.{option_map};
ghost use Rattle.sdf_plan.specs.Places.{walk, places_from, domain_places, channel_places};
ghost use Rattle.sdf_plan.specs.Places.{class_places};
ghost use Rattle.sdf_plan.specs.declared.place.Place.{Place};
ghost use Rattle.sdf_plan.specs.Elements.{outline_of, domain_parts, channel_parts, IsNumbered};
ghost use Rattle.sdf_plan.specs.declared.plan.Domain.{Domain};
ghost use Rattle.sdf_plan.specs.declared.plan.Channel.{Channel};
ghost use Rattle.sdf_plan.specs.Walks.{member};

use crate::place::Place;
use crate::plan::{Channel, Domain, Plan};
use cargo_core::Memory;
use std::alloc::Global;

/// A sort of elements that are told apart by a number.
#[derive(Clone, Copy)]
pub enum Sort {
    Region,
    Map(u32),
    Irq(u32),
    End(u32),
    NetClient,
    SerialClient,
    BlkClient,
}

// The element of this sort with this number.
fn member(sort: Sort, number: u32) -> Place
    ensures { result ≡ member sort number }
{
    match sort {
        Sort::Region => Place::Region(number),
        Sort::Map(domain) => Place::Map(domain, number),
        Sort::Irq(domain) => Place::Irq(domain, number),
        Sort::End(channel) => Place::End(channel, number),
        Sort::NetClient => Place::NetClient(number),
        Sort::SerialClient => Place::SerialClient(number),
        Sort::BlkClient => Place::BlkClient(number),
    }
}

fn push_members(
    alloc: Global,
    places: &mut Vec<Place>,
    sort: Sort,
    count: usize,
) -> Result<(), Memory>
    requires { count < 2 ^ 32 }
    ensures { OnOk result (places.new.items
        ≡ places.old.items ++ places_from (member sort) 0 count) }
{
    for number in 0..count {
        places.push(member(sort, number as u32))?;
    }
    Ok(())
}

fn push_domains(alloc: Global, places: &mut Vec<Place>, domains: &[Domain]) -> Result<(), Memory>
    requires few { length domains.now < 2 ^ 32 }
    requires maps { All (λ (d : Domain). length d.map < 2 ^ 32) domains.now }
    requires irqs { All (λ (d : Domain). length d.irq < 2 ^ 32) domains.now }
    ensures { OnOk result (places.new.items
        ≡ places.old.items ++ domain_places 0 (map domain_parts domains.now)) }
{
    for (at, domain) in domains.iter().enumerate() {
        let number = at as u32;
        places.push(Place::Domain(number))?;
        push_members(alloc, places, Sort::Map(number), domain.map.len())?;
        push_members(alloc, places, Sort::Irq(number), domain.irq.len())?;
    }
    Ok(())
}

fn push_channels(alloc: Global, places: &mut Vec<Place>, channels: &[Channel]) -> Result<(), Memory>
    requires few { length channels.now < 2 ^ 32 }
    requires ends { All (λ (c : Channel). length c.end < 2 ^ 32) channels.now }
    ensures { OnOk result (places.new.items
        ≡ places.old.items ++ channel_places 0 (map channel_parts channels.now)) }
{
    for (at, channel) in channels.iter().enumerate() {
        let number = at as u32;
        places.push(Place::Channel(number))?;
        push_members(alloc, places, Sort::End(number), channel.end.len())?;
    }
    Ok(())
}

fn push_class(
    alloc: Global,
    places: &mut Vec<Place>,
    class: Place,
    sort: Sort,
    clients: Option<usize>,
) -> Result<(), Memory>
    requires { IfSome clients (λ n. n < 2 ^ 32) }
    ensures { OnOk result (places.new.items
        ≡ places.old.items ++ class_places class (member sort) clients) }
{
    if let Some(count) = clients {
        places.push(class)?;
        push_members(alloc, places, sort, count)?;
    }
    Ok(())
}

fn net_client_count(plan: &Plan) -> Option<usize>
    ensures { result ≡ (outline_of plan.now).net }
{
    match &plan.net {
        Some(net) => Some(net.client.len()),
        None => None,
    }
}

fn serial_client_count(plan: &Plan) -> Option<usize>
    ensures { result ≡ (outline_of plan.now).serial }
{
    match &plan.serial {
        Some(serial) => Some(serial.client.len()),
        None => None,
    }
}

fn blk_client_count(plan: &Plan) -> Option<usize>
    ensures { result ≡ (outline_of plan.now).blk }
{
    match &plan.blk {
        Some(blk) => Some(blk.client.len()),
        None => None,
    }
}

/// All elements of a plan, in the order in which a rule is read.
pub fn places_of(alloc: Global, plan: &Plan) -> Result<Vec<Place>, Memory>
    requires { IsNumbered plan.now }
    ensures { IfOk result (λ places. places.items ≡ walk (outline_of plan.now)) }
{
    let mut places = Vec::new(alloc);
    places.push(Place::System)?;
    push_members(alloc, &mut places, Sort::Region, plan.memory_region.len())?;
    push_domains(alloc, &mut places, plan.protection_domain.as_slice())?;
    push_channels(alloc, &mut places, plan.channel.as_slice())?;
    push_class(
        alloc,
        &mut places,
        Place::Net,
        Sort::NetClient,
        net_client_count(plan),
    )?;
    push_class(
        alloc,
        &mut places,
        Place::Serial,
        Sort::SerialClient,
        serial_client_count(plan),
    )?;
    push_class(
        alloc,
        &mut places,
        Place::Blk,
        Sort::BlkClient,
        blk_client_count(plan),
    )?;
    Ok(places)
}
