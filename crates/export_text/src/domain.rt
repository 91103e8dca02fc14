//! The elements of a system file that have others inside: domains and channels.
ghost use Rattle.std.specs.Prelude.{◌≡◌, ◌++◌, map, codes, IfOk, OnOk};
ghost use Rattle.picture_kit.specs.declared.xml_text.tag.Tag.TheVariants.{Open};
ghost use Rattle.export_text.specs.System.{map_tag, irq_tag, end_tag, inside_domain, domain_tags};
ghost use Rattle.export_text.specs.System.{channel_tags, budget_attributes, domain_attributes};

use crate::attribute::{Attributes, close, open};
use crate::part::{end_tag, image_tag, irq_tag, map_tag};
use cargo_core::{Memory, Series};
use picture_kit::xml_text::Tag;
use sdf_plan::{Channel, Domain, End, Irq, Map};
use std::alloc::Global;

// Appends each map.
fn push_maps(alloc: Global, tags: &mut Series<Tag>, maps: &[Map]) -> Result<(), Memory>
    ensures { OnOk result (tags.new ≡ tags.old ++ map map_tag maps.now) }
{
    for map in maps {
        tags.push(map_tag(alloc, map)?)?;
    }
    Ok(())
}

// Appends each interrupt.
fn push_irqs(alloc: Global, tags: &mut Series<Tag>, irqs: &[Irq]) -> Result<(), Memory>
    ensures { OnOk result (tags.new ≡ tags.old ++ map irq_tag irqs.now) }
{
    for irq in irqs {
        tags.push(irq_tag(alloc, irq)?)?;
    }
    Ok(())
}

// Appends each end.
fn push_ends(alloc: Global, tags: &mut Series<Tag>, ends: &[End]) -> Result<(), Memory>
    ensures { OnOk result (tags.new ≡ tags.old ++ map end_tag ends.now) }
{
    for end in ends {
        tags.push(end_tag(alloc, end)?)?;
    }
    Ok(())
}

// Appends the budget and the period, where they aren't the defaults.
fn push_budget(attributes: &mut Attributes, budget: u64, period: u64) -> Result<(), Memory>
    ensures { OnOk result (attributes.new ≡ attributes.old ++ budget_attributes budget period) }
{
    if budget != 1000 {
        attributes.decimal("budget", budget)?;
    }
    if period != budget {
        attributes.decimal("period", period)?;
    }
    Ok(())
}

// The beginning of a domain.
fn open_domain(alloc: Global, domain: &Domain) -> Result<Tag, Memory>
    ensures { IfOk result (λ tag. tag ≡ Open (record {
      name = codes "protection_domain";
      attributes = domain_attributes domain.now;
    })) }
{
    let mut attributes = Attributes::new(alloc);
    attributes.text("name", domain.name.as_str())?;
    attributes.decimal("priority", domain.priority)?;
    push_budget(&mut attributes, domain.budget, domain.period)?;
    attributes.into_open("protection_domain")
}

// Appends what a domain has inside.
fn push_inside(alloc: Global, tags: &mut Series<Tag>, domain: &Domain) -> Result<(), Memory>
    ensures { OnOk result (tags.new ≡ tags.old ++ inside_domain domain.now) }
{
    tags.push(image_tag(alloc, domain.program.as_str())?)?;
    push_maps(alloc, tags, domain.map.as_slice())?;
    push_irqs(alloc, tags, domain.irq.as_slice())
}

/// Appends a domain: its program, its maps and its interrupts, each in file order.
pub fn push_domain(alloc: Global, tags: &mut Series<Tag>, domain: &Domain) -> Result<(), Memory>
    ensures { OnOk result (tags.new ≡ tags.old ++ domain_tags domain.now) }
{
    tags.push(open_domain(alloc, domain)?)?;
    push_inside(alloc, tags, domain)?;
    tags.push(close(alloc, "protection_domain")?)?;
    Ok(())
}

/// Appends a channel with its ends.
pub fn push_channel(alloc: Global, tags: &mut Series<Tag>, channel: &Channel) -> Result<(), Memory>
    ensures { OnOk result (tags.new ≡ tags.old ++ channel_tags channel.now) }
{
    tags.push(open(alloc, "channel")?)?;
    push_ends(alloc, tags, channel.end.as_slice())?;
    tags.push(close(alloc, "channel")?)?;
    Ok(())
}
