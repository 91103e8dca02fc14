//! The elements of a description in their order, each with its number and its table.
ghost use Rattle.std.specs.Prelude.{◌≡◌, ◌<◌, ◌≤◌, ◌^◌, ◌++◌, length, map, option_map, IfOk};
ghost use Rattle.std.specs.Prelude.{IfSome, OnOk};
ghost use Rattle.toml.specs.View.{table_view};
ghost use Rattle.sdf_model.specs.Tree.{tables_at};
ghost use Rattle.sdf_model.specs.Counts.{elements_of_members, elements_of_tables};
ghost use Rattle.sdf_model.specs.Elements.{place_and_members, nth, parts, domain_parts};
ghost use Rattle.sdf_model.specs.Elements.{channel_parts, class_parts, elements_of};

use crate::tree::{table_at, tables_at};
use cargo_core::Memory;
use sdf_plan::Place;
use std::alloc::Global;
use toml::Table;

/// An element of a description: its place and its table.
#[derive(Clone, Copy)]
pub(crate) struct Element<'a> {
    pub(crate) place: Place,
    pub(crate) table: &'a Table,
}

/// All elements of a description, in the order in which a rule is read.
#[tactic(auto, unfolding(crate::specs::Elements::elements_of))]
pub(crate) fn elements<'a>(alloc: Global, root: &'a Table) -> Result<Vec<Element<'a>>, Memory>
    requires { elements_of_members (table_view root.now) < 2 ^ 32 }
    ensures { IfOk result (λ v. map place_and_members v.items ≡ elements_of (table_view root.now)) }
{
    let mut elements = Vec::new(alloc);
    elements.push(Element {
        place: Place::System,
        table: root,
    })?;
    add_list(
        alloc,
        &mut elements,
        root,
        "memory_region",
        Place::Region(0),
    )?;
    add_domains(
        alloc,
        &mut elements,
        &tables_at(alloc, root, "protection_domain")?,
    )?;
    add_channels(alloc, &mut elements, &tables_at(alloc, root, "channel")?)?;
    add_class(
        alloc,
        &mut elements,
        table_at(root, "net"),
        Place::Net,
        Place::NetClient(0),
    )?;
    add_class(
        alloc,
        &mut elements,
        table_at(root, "serial"),
        Place::Serial,
        Place::SerialClient(0),
    )?;
    add_class(
        alloc,
        &mut elements,
        table_at(root, "blk"),
        Place::Blk,
        Place::BlkClient(0),
    )?;
    Ok(elements)
}

/// Adds each domain with its maps and then its interrupts.
fn add_domains<'a>(
    alloc: Global,
    elements: &mut Vec<Element<'a>>,
    domains: &[&'a Table],
) -> Result<(), Memory>
    requires { elements_of_tables (map (λ t. table_view t.now) domains.now) < 2 ^ 32 }
    ensures { OnOk result (map place_and_members elements.new.items
        ≡ map place_and_members elements.old.items
        ++ domain_parts 0 (map (λ t. table_view t.now) domains.now)) }
{
    for (at, domain) in domains.iter().enumerate() {
        let d = at as u32;
        elements.push(Element {
            place: Place::Domain(d),
            table: *domain,
        })?;
        add_list(alloc, elements, *domain, "map", Place::Map(d, 0))?;
        add_list(alloc, elements, *domain, "irq", Place::Irq(d, 0))?;
    }
    Ok(())
}

/// Adds each channel with its ends.
fn add_channels<'a>(
    alloc: Global,
    elements: &mut Vec<Element<'a>>,
    channels: &[&'a Table],
) -> Result<(), Memory>
    requires { elements_of_tables (map (λ t. table_view t.now) channels.now) < 2 ^ 32 }
    ensures { OnOk result (map place_and_members elements.new.items
        ≡ map place_and_members elements.old.items
        ++ channel_parts 0 (map (λ t. table_view t.now) channels.now)) }
{
    for (at, channel) in channels.iter().enumerate() {
        let c = at as u32;
        elements.push(Element {
            place: Place::Channel(c),
            table: *channel,
        })?;
        add_list(alloc, elements, *channel, "end", Place::End(c, 0))?;
    }
    Ok(())
}

/// Adds a class with its clients, where it is there.
fn add_class<'a>(
    alloc: Global,
    elements: &mut Vec<Element<'a>>,
    class: Option<&'a Table>,
    place: Place,
    client: Place,
) -> Result<(), Memory>
    requires { IfSome class (λ t. elements_of_members (table_view t.now) < 2 ^ 32) }
    ensures { OnOk result (map place_and_members elements.new.items
        ≡ map place_and_members elements.old.items ++ class_parts place client
        (option_map (λ t. table_view t.now) class.entry)) }
{
    if let Some(table) = class {
        elements.push(Element { place, table })?;
        add_list(alloc, elements, table, "client", client)?;
    }
    Ok(())
}

/// Adds the elements of the list at a key.
fn add_list<'a>(
    alloc: Global,
    elements: &mut Vec<Element<'a>>,
    table: &'a Table,
    key: &str,
    first: Place,
) -> Result<(), Memory>
    requires { elements_of_members (table_view table.now) < 2 ^ 32 }
    ensures { OnOk result (map place_and_members elements.new.items
        ≡ map place_and_members elements.old.items
        ++ parts first 0 (tables_at key.now (table_view table.now))) }
{
    add_parts(alloc, elements, &tables_at(alloc, table, key)?, first)
}

/// Adds the elements of a list.
fn add_parts<'a>(
    alloc: Global,
    elements: &mut Vec<Element<'a>>,
    tables: &[&'a Table],
    first: Place,
) -> Result<(), Memory>
    requires { length tables.now ≤ 2 ^ 32 }
    ensures { OnOk result (map place_and_members elements.new.items
        ≡ map place_and_members elements.old.items
        ++ parts first 0 (map (λ t. table_view t.now) tables.now)) }
{
    for (at, table) in tables.iter().enumerate() {
        elements.push(Element {
            place: nth(first, at as u32),
            table: *table,
        })?;
    }
    Ok(())
}

/// The place of the element with a number, in the list in which the given place is.
fn nth(first: Place, n: u32) -> Place
    ensures { result ≡ nth first n }
{
    match first {
        Place::Region(_) => Place::Region(n),
        Place::Map(d, _) => Place::Map(d, n),
        Place::Irq(d, _) => Place::Irq(d, n),
        Place::End(c, _) => Place::End(c, n),
        Place::NetClient(_) => Place::NetClient(n),
        Place::SerialClient(_) => Place::SerialClient(n),
        Place::BlkClient(_) => Place::BlkClient(n),
        place => place,
    }
}
