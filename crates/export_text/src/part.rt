//! The elements of a system file that have no other inside.
ghost use Rattle.std.specs.Prelude.{◌≡◌, IfOk};
ghost use Rattle.export_text.specs.System.{region_tag, map_tag, irq_tag, image_tag, end_tag};

use crate::attribute::Attributes;
use cargo_core::Memory;
use picture_kit::xml_text::Tag;
use sdf_plan::{End, Irq, Map, Region};
use std::alloc::Global;

/// A memory region.
pub fn region_tag(alloc: Global, region: &Region) -> Result<Tag, Memory>
    ensures { IfOk result (λ tag. tag ≡ region_tag region.now) }
{
    let mut attributes = Attributes::new(alloc);
    attributes.text("name", region.name.as_str())?;
    attributes.hex("size", region.size)?;
    attributes.hex("page_size", region.page_size)?;
    attributes.hex_if("phys_addr", region.phys_addr)?;
    attributes.into_alone("memory_region")
}

/// A map of a region into a domain.
pub fn map_tag(alloc: Global, map: &Map) -> Result<Tag, Memory>
    ensures { IfOk result (λ tag. tag ≡ map_tag map.now) }
{
    let mut attributes = Attributes::new(alloc);
    attributes.text("mr", map.mr.as_str())?;
    attributes.hex("vaddr", map.vaddr)?;
    attributes.text("perms", map.perms.as_str())?;
    if !map.cached {
        attributes.text("cached", "false")?;
    }
    attributes.text_if("setvar_vaddr", &map.setvar_vaddr)?;
    attributes.into_alone("map")
}

/// An interrupt of a domain.
pub fn irq_tag(alloc: Global, irq: &Irq) -> Result<Tag, Memory>
    ensures { IfOk result (λ tag. tag ≡ irq_tag irq.now) }
{
    let mut attributes = Attributes::new(alloc);
    attributes.decimal("irq", irq.irq)?;
    attributes.decimal("id", irq.id)?;
    if irq.trigger.as_str() != "level" {
        attributes.text("trigger", irq.trigger.as_str())?;
    }
    attributes.into_alone("irq")
}

/// The file of a program's image, which has the program's name and the ending of the object format.
pub fn image_tag(alloc: Global, program: &str) -> Result<Tag, Memory>
    ensures { IfOk result (λ tag. tag ≡ image_tag program.now) }
{
    let mut attributes = Attributes::new(alloc);
    let path = format!(in alloc; "{program}.elf")?;
    attributes.text("path", path.as_str())?;
    attributes.into_alone("program_image")
}

/// An end of a channel.
pub fn end_tag(alloc: Global, end: &End) -> Result<Tag, Memory>
    ensures { IfOk result (λ tag. tag ≡ end_tag end.now) }
{
    let mut attributes = Attributes::new(alloc);
    attributes.text("pd", end.pd.as_str())?;
    attributes.decimal("id", end.id)?;
    attributes.into_alone("end")
}
