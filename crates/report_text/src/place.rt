//! The text of a place in a description, which a refusal names.

ghost use Rattle.std.specs.Prelude.{◌≡◌, IfOk, string_bytes};
ghost use Rattle.report_text.specs.Places.{place_text};

use cargo_core::Memory;
use sdf_plan::Place;
use std::alloc::Global;

/// The text of a place in a description, as `protection_domain[2].map[0]`. The spellings are this
/// project's own.
pub fn write_place(alloc: Global, place: Place) -> Result<String, Memory>
    ensures { IfOk result (λ s. string_bytes s ≡ place_text place) }
{
    match place {
        Place::System => Ok(String::from_str(alloc, "system")?),
        Place::Region(r) => Ok(format!(in alloc; "memory_region[{r}]")?),
        Place::Domain(d) => Ok(format!(in alloc; "protection_domain[{d}]")?),
        Place::Map(d, m) => Ok(format!(in alloc; "protection_domain[{d}].map[{m}]")?),
        Place::Irq(d, i) => Ok(format!(in alloc; "protection_domain[{d}].irq[{i}]")?),
        Place::Channel(c) => Ok(format!(in alloc; "channel[{c}]")?),
        Place::End(c, e) => Ok(format!(in alloc; "channel[{c}].end[{e}]")?),
        Place::Net => Ok(String::from_str(alloc, "net")?),
        Place::NetClient(c) => Ok(format!(in alloc; "net.client[{c}]")?),
        Place::Serial => Ok(String::from_str(alloc, "serial")?),
        Place::SerialClient(c) => Ok(format!(in alloc; "serial.client[{c}]")?),
        Place::Blk => Ok(String::from_str(alloc, "blk")?),
        Place::BlkClient(c) => Ok(format!(in alloc; "blk.client[{c}]")?),
    }
}
