//! Who owns the buffers of each pool: to whom they come back.
ghost use Rattle.std.specs.Prelude.{◌≡◌, ◌++◌, IfOk, OnOk};
ghost use Rattle.std.specs.List.{flat_map};
ghost use Rattle.pictures.specs.LayoutView.LayoutPicture.Owners.{net_client_owners, net_owners, blk_client_owner};
ghost use Rattle.pictures.specs.LayoutView.LayoutPicture.Owners.{blk_owners, owners_of};

use cargo_core::{Memory, Series, Text};
use sdf_plan::{Blk, BlkClient, Net, NetClient, Plan};
use std::alloc::Global;

// Appends the owners of the pools of network clients.
fn add_net_clients(
    alloc: Global,
    owners: &mut Series<Text>,
    clients: &[NetClient],
) -> Result<(), Memory>
    ensures { OnOk result (owners.new ≡ owners.old ++ flat_map net_client_owners clients.now) }
{
    for client in clients {
        owners.push(Text::new(alloc, client.copier.as_str())?)?;
        owners.push(Text::new(alloc, client.pd.as_str())?)?;
    }
    Ok(())
}

// Appends the owners of the pools of the network class.
fn add_net(alloc: Global, owners: &mut Series<Text>, net: &Option<Net>) -> Result<(), Memory>
    ensures { OnOk result (owners.new ≡ owners.old ++ net_owners net.now) }
{
    match net {
        Some(net) => {
            owners.push(Text::new(alloc, net.rx_virt.as_str())?)?;
            add_net_clients(alloc, owners, net.client.as_slice())
        }
        None => Ok(()),
    }
}

// Appends the owners of the pools of block clients.
fn add_blk_clients(
    alloc: Global,
    owners: &mut Series<Text>,
    clients: &[BlkClient],
) -> Result<(), Memory>
    ensures { OnOk result (owners.new ≡ owners.old ++ flat_map blk_client_owner clients.now) }
{
    for client in clients {
        owners.push(Text::new(alloc, client.pd.as_str())?)?;
    }
    Ok(())
}

// Appends the owners of the pools of the block class.
fn add_blk(alloc: Global, owners: &mut Series<Text>, blk: &Option<Blk>) -> Result<(), Memory>
    ensures { OnOk result (owners.new ≡ owners.old ++ blk_owners blk.now) }
{
    match blk {
        Some(blk) => {
            owners.push(Text::new(alloc, blk.virt.as_str())?)?;
            add_blk_clients(alloc, owners, blk.client.as_slice())
        }
        None => Ok(()),
    }
}

/// The owner of each pool of a plan, in the order of the pools.
pub fn owners_of(alloc: Global, plan: &Plan) -> Result<Series<Text>, Memory>
    ensures { IfOk result (λ owners. owners ≡ owners_of plan.now) }
{
    let mut owners = Series::new(alloc);
    add_net(alloc, &mut owners, &plan.net)?;
    add_blk(alloc, &mut owners, &plan.blk)?;
    Ok(owners)
}
