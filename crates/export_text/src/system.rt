//! The system file of a plan.
ghost use Rattle.std.specs.Prelude.{◌≡◌, ◌++◌, map, IfOk, OnOk};
ghost use Rattle.std.specs.List.{flat_map};
ghost use Rattle.export_text.specs.System.{region_tag, domain_tags, channel_tags, inside_system};
ghost use Rattle.export_text.specs.System.{system_tags, system_text};

use crate::attribute::{close, open};
use crate::domain::{push_channel, push_domain};
use crate::part::region_tag;
use cargo_core::{Bytes, Memory, Series};
use picture_kit::xml_text::{Tag, write_xml};
use sdf_plan::{Channel, Domain, Plan, Region};
use std::alloc::Global;

// Appends each region.
fn push_regions(alloc: Global, tags: &mut Series<Tag>, regions: &[Region]) -> Result<(), Memory>
    ensures { OnOk result (tags.new ≡ tags.old ++ map region_tag regions.now) }
{
    for region in regions {
        tags.push(region_tag(alloc, region)?)?;
    }
    Ok(())
}

// Appends each domain.
fn push_domains(alloc: Global, tags: &mut Series<Tag>, domains: &[Domain]) -> Result<(), Memory>
    ensures { OnOk result (tags.new ≡ tags.old ++ flat_map domain_tags domains.now) }
{
    for domain in domains {
        push_domain(alloc, tags, domain)?;
    }
    Ok(())
}

// Appends each channel.
fn push_channels(alloc: Global, tags: &mut Series<Tag>, channels: &[Channel]) -> Result<(), Memory>
    ensures { OnOk result (tags.new ≡ tags.old ++ flat_map channel_tags channels.now) }
{
    for channel in channels {
        push_channel(alloc, tags, channel)?;
    }
    Ok(())
}

// Appends what a system has inside.
fn push_inside(alloc: Global, tags: &mut Series<Tag>, plan: &Plan) -> Result<(), Memory>
    ensures { OnOk result (tags.new ≡ tags.old ++ inside_system plan.now) }
{
    push_regions(alloc, tags, plan.memory_region.as_slice())?;
    push_domains(alloc, tags, plan.protection_domain.as_slice())?;
    push_channels(alloc, tags, plan.channel.as_slice())
}

// The tags of a plan.
#[tactic(auto, unfolding(crate::specs::System::system_tags))]
fn tags_of(alloc: Global, plan: &Plan) -> Result<Series<Tag>, Memory>
    ensures { IfOk result (λ tags. tags ≡ system_tags plan.now) }
{
    let mut tags = Series::new(alloc);
    tags.push(open(alloc, "system")?)?;
    push_inside(alloc, &mut tags, plan)?;
    tags.push(close(alloc, "system")?)?;
    Ok(tags)
}

/// The Microkit's system file of a plan, in the elements and attributes of the manual: regions,
/// protection domains with their programs, maps and interrupts, and channels. An attribute of which
/// the value is the manual's default isn't written, but for `perms` and `page_size`. The only error
/// is want of memory.
pub fn write_system(alloc: Global, plan: &Plan) -> Result<Bytes, Memory>
    ensures { IfOk result (λ text. text ≡ system_text plan.now) }
{
    let tags = tags_of(alloc, plan)?;
    write_xml(alloc, tags.as_slice())
}
