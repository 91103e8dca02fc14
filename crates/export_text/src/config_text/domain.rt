//! The constants of domains: their maps, their interrupts, and the ends of their channels.
ghost use Rattle.std.specs.Prelude.{◌≡◌, ◌++◌, OnOk};
ghost use Rattle.export_text.specs.ConfigText.Lines.{each_numbered};
ghost use Rattle.export_text.specs.ConfigText.Config.{map_text, irq_text, domain_text, end_text, ends_text};
ghost use Rattle.export_text.specs.ConfigText.Config.{channel_text};

use crate::config_text::line::{Thing, part, push_decimal, push_hex};
use cargo_core::{Bytes, Memory};
use sdf_plan::{Channel, Domain, End, Irq, Map};
use std::alloc::Global;

// Appends a map.
fn push_map(
    alloc: Global,
    to: &mut Bytes,
    domain: &str,
    number: usize,
    map: &Map,
) -> Result<(), Memory>
    ensures { OnOk result (to.new ≡ to.old ++ map_text domain.now number map.now) }
{
    let thing = Thing {
        kind: "SDDF_PD_",
        name: domain,
    };
    let rest = part(alloc, "_MAP_", number, map.mr.as_str())?;
    push_hex(alloc, to, &thing, rest.as_slice(), map.vaddr)
}

// Appends each map of a domain.
fn push_maps(alloc: Global, to: &mut Bytes, domain: &str, maps: &[Map]) -> Result<(), Memory>
    ensures { OnOk result (to.new ≡ to.old ++ each_numbered (map_text domain.now) 0 maps.now) }
{
    for (at, map) in maps.iter().enumerate() {
        push_map(alloc, to, domain, at, map)?;
    }
    Ok(())
}

// Appends an interrupt.
fn push_irq(
    alloc: Global,
    to: &mut Bytes,
    domain: &str,
    number: usize,
    irq: &Irq,
) -> Result<(), Memory>
    ensures { OnOk result (to.new ≡ to.old ++ irq_text domain.now number irq.now) }
{
    let thing = Thing {
        kind: "SDDF_PD_",
        name: domain,
    };
    let rest = format!(in alloc; "_IRQ_{number}")?;
    push_decimal(alloc, to, &thing, rest.as_str().as_bytes(), irq.id)
}

// Appends each interrupt of a domain.
fn push_irqs(alloc: Global, to: &mut Bytes, domain: &str, irqs: &[Irq]) -> Result<(), Memory>
    ensures { OnOk result (to.new ≡ to.old ++ each_numbered (irq_text domain.now) 0 irqs.now) }
{
    for (at, irq) in irqs.iter().enumerate() {
        push_irq(alloc, to, domain, at, irq)?;
    }
    Ok(())
}

// Appends a domain.
fn push_domain(alloc: Global, to: &mut Bytes, number: usize, domain: &Domain) -> Result<(), Memory>
    ensures { OnOk result (to.new ≡ to.old ++ domain_text number domain.now) }
{
    push_maps(alloc, to, domain.name.as_str(), domain.map.as_slice())?;
    push_irqs(alloc, to, domain.name.as_str(), domain.irq.as_slice())
}

/// Appends each domain: where the region of each of its maps begins there, and the ids of its
/// interrupts.
pub fn push_domains(alloc: Global, to: &mut Bytes, domains: &[Domain]) -> Result<(), Memory>
    ensures { OnOk result (to.new ≡ to.old ++ each_numbered domain_text 0 domains.now) }
{
    for (at, domain) in domains.iter().enumerate() {
        push_domain(alloc, to, at, domain)?;
    }
    Ok(())
}

// Appends an end of a channel.
fn push_end(
    alloc: Global,
    to: &mut Bytes,
    number: usize,
    here: &End,
    there: &End,
) -> Result<(), Memory>
    ensures { OnOk result (to.new ≡ to.old ++ end_text number here.now there.now) }
{
    let thing = Thing {
        kind: "SDDF_PD_",
        name: here.pd.as_str(),
    };
    let rest = part(alloc, "_CHANNEL_", number, there.pd.as_str())?;
    push_decimal(alloc, to, &thing, rest.as_slice(), here.id)
}

// Appends the ends of a channel, of which it has two.
fn push_ends(alloc: Global, to: &mut Bytes, number: usize, ends: &[End]) -> Result<(), Memory>
    ensures { OnOk result (to.new ≡ to.old ++ ends_text number ends.now) }
{
    match ends {
        [first, second] => {
            push_end(alloc, to, number, first, second)?;
            push_end(alloc, to, number, second, first)
        }
        _ => Ok(()),
    }
}

/// Appends each channel: the ids by which its two domains know it.
pub fn push_channels(alloc: Global, to: &mut Bytes, channels: &[Channel]) -> Result<(), Memory>
    ensures { OnOk result (to.new ≡ to.old ++ each_numbered channel_text 0 channels.now) }
{
    for (at, channel) in channels.iter().enumerate() {
        push_ends(alloc, to, at, channel.end.as_slice())?;
    }
    Ok(())
}
