//! The header of a plan.
ghost use Rattle.std.specs.Prelude.{◌≡◌, ◌++◌, IfOk, OnOk};
ghost use Rattle.export_text.specs.ConfigText.Config.{rows_text, ids_text, config_text, rows_shown};

use crate::config_text::class::push_classes;
use crate::config_text::domain::{push_channels, push_domains};
use crate::config_text::row::{push_actors, push_pools, push_queues, push_regions};
use cargo_core::{Bytes, Memory, Text};
use sdf_plan::{Plan, Region};
use std::alloc::Global;
use wire_core::{PoolRow, QueueRow};

/// The rows of a plan's layout, each by its number.
#[derive(Clone, Copy)]
pub struct Rows<'a> {
    /// The names of the actors: the domains that act, in file order, and the devices.
    pub actors: &'a [Text],
    /// The pools of buffers.
    pub pools: &'a [PoolRow],
    /// The queues.
    pub queues: &'a [QueueRow],
}

/// What the header begins with: what it is, a guard, and the kinds of queues.
const BEGINNING: &str = r#"/* What this system has beside the Microkit's system file. */
#ifndef SDDF_CONFIG_H
#define SDDF_CONFIG_H
#define SDDF_KIND_NET 0
#define SDDF_KIND_BYTE 1
#define SDDF_KIND_REQ 2
#define SDDF_KIND_RESP 3
"#;

// Appends the actors, the regions, the pools and the queues.
fn push_rows(
    alloc: Global,
    to: &mut Bytes,
    regions: &[Region],
    rows: &Rows<'_>,
) -> Result<(), Memory>
    ensures { OnOk result (to.new ≡ to.old ++ rows_text regions.now (rows_shown rows.now)) }
{
    push_actors(alloc, to, rows.actors)?;
    push_regions(alloc, to, regions)?;
    push_pools(alloc, to, rows.pools)?;
    push_queues(alloc, to, rows.queues)
}

// Appends what each domain knows of maps, interrupts and channels.
fn push_ids(alloc: Global, to: &mut Bytes, plan: &Plan) -> Result<(), Memory>
    ensures { OnOk result (to.new ≡ to.old ++ ids_text plan.now) }
{
    push_domains(alloc, to, plan.protection_domain.as_slice())?;
    push_channels(alloc, to, plan.channel.as_slice())
}

/// A header of C with what a plan and its layout have beside the Microkit's system file, one
/// constant each: the classes, the actors, the regions, the pools, the queues, and what each domain
/// knows of maps, interrupts and channels. The names are this project's own; the only error is want
/// of memory.
#[tactic(auto, unfolding(crate::specs::ConfigText::Config::config_text))]
pub fn write_config(alloc: Global, plan: &Plan, rows: &Rows<'_>) -> Result<Bytes, Memory>
    ensures { IfOk result (λ text. text ≡ config_text plan.now (rows_shown rows.now)) }
{
    let mut text = Bytes::from_slice(alloc, BEGINNING.as_bytes())?;
    push_classes(alloc, &mut text, plan)?;
    push_rows(alloc, &mut text, plan.memory_region.as_slice(), rows)?;
    push_ids(alloc, &mut text, plan)?;
    text.extend_from_slice(b"#endif\n")?;
    Ok(text)
}
