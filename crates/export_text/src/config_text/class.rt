//! The constants of the classes.
ghost use Rattle.std.specs.Prelude.{◌≡◌, ◌++◌, [], OnOk};
ghost use Rattle.std.specs.Option.{option_map_or};
ghost use Rattle.export_text.specs.ConfigText.Lines.{each_numbered};
ghost use Rattle.export_text.specs.ConfigText.Config.{net_text, serial_text, blk_text, blk_client_text};
ghost use Rattle.export_text.specs.ConfigText.Config.{classes_text};

use crate::config_text::line::push_class;
use cargo_core::{Bytes, Memory};
use sdf_plan::{Blk, BlkClient, Net, Plan, Serial};
use std::alloc::Global;

// Appends the network class, where it is there.
fn push_net(alloc: Global, to: &mut Bytes, class: &Option<Net>) -> Result<(), Memory>
    ensures { OnOk result (to.new ≡ to.old ++ option_map_or net_text class.now []) }
{
    if let Some(net) = class {
        push_class(alloc, to, "SDDF_NET_CLIENTS", net.client.len() as u64)?;
        push_class(alloc, to, "SDDF_NET_MAX_FRAME", net.max_frame)?;
    }
    Ok(())
}

// Appends the serial class, where it is there.
fn push_serial(alloc: Global, to: &mut Bytes, class: &Option<Serial>) -> Result<(), Memory>
    ensures { OnOk result (to.new ≡ to.old ++ option_map_or serial_text class.now []) }
{
    if let Some(serial) = class {
        push_class(alloc, to, "SDDF_SERIAL_CLIENTS", serial.client.len() as u64)?;
    }
    Ok(())
}

// Appends the partition of a client of the block class.
fn push_partition(
    alloc: Global,
    to: &mut Bytes,
    number: usize,
    client: &BlkClient,
) -> Result<(), Memory>
    ensures { OnOk result (to.new ≡ to.old ++ blk_client_text number client.now) }
{
    let constant = format!(in alloc; "SDDF_BLK_PARTITION_{number}")?;
    push_class(alloc, to, constant.as_str(), client.partition)
}

// Appends the partition of each.
fn push_partitions(alloc: Global, to: &mut Bytes, clients: &[BlkClient]) -> Result<(), Memory>
    ensures { OnOk result (to.new ≡ to.old ++ each_numbered blk_client_text 0 clients.now) }
{
    for (at, client) in clients.iter().enumerate() {
        push_partition(alloc, to, at, client)?;
    }
    Ok(())
}

// Appends the block class, where it is there.
fn push_blk(alloc: Global, to: &mut Bytes, class: &Option<Blk>) -> Result<(), Memory>
    ensures { OnOk result (to.new ≡ to.old ++ option_map_or blk_text class.now []) }
{
    if let Some(blk) = class {
        push_class(alloc, to, "SDDF_BLK_CLIENTS", blk.client.len() as u64)?;
        push_partitions(alloc, to, blk.client.as_slice())?;
    }
    Ok(())
}

/// Appends the classes that a plan has: how many clients each has, how long a frame is at most, and
/// the partitions of the clients.
pub fn push_classes(alloc: Global, to: &mut Bytes, plan: &Plan) -> Result<(), Memory>
    ensures { OnOk result (to.new ≡ to.old ++ classes_text plan.now) }
{
    push_net(alloc, to, &plan.net)?;
    push_serial(alloc, to, &plan.serial)?;
    push_blk(alloc, to, &plan.blk)
}
