//! The rows of the block class and of its clients.
ghost use Rattle.std.specs.Prelude.{◌≡◌, map, length, IfOk};
ghost use Rattle.sdf_plan.specs.ClassTable.Rows.{blk_roles, blk_queues, blk_pools, blk_client_roles};
ghost use Rattle.sdf_plan.specs.ClassTable.Rows.{blk_client_queues, blk_client_pools};
ghost use Rattle.sdf_plan.specs.ClassTable.Shown.{role_shown, queue_shown, pool_shown, element_shown};
ghost use Rattle.sdf_plan.specs.ClassTable.Table.{blk_element, blk_client_element};

use crate::class_table::role::Role;
use crate::class_table::rows::{across, of_client, plays, queue, queue_behind, whole, writes};
use crate::class_table::uses::{ClassElement, Ends, PoolUse, QueueUse, RoleUse};
use crate::{Blk, BlkClient, Place};
use cargo_core::{BLK_BUFFER_BYTES, Memory, QueueKind, Series};
use std::alloc::Global;

/// The bytes of a block buffer.
const BLK_BUFFER: u64 = BLK_BUFFER_BYTES as u64;

fn roles<'a>(alloc: Global, blk: &'a Blk) -> Result<Vec<RoleUse<&'a str>>, Memory>
    ensures { IfOk result (λ roles. map role_shown roles.items ≡ blk_roles blk.now) }
{
    let mut roles = Vec::new(alloc);
    roles.extend_from_slice(&[
        plays(blk.driver.as_str(), Role::BlkDriver),
        plays(blk.virt.as_str(), Role::BlkVirt),
    ])?;
    Ok(roles)
}

fn queues<'a>(alloc: Global, blk: &'a Blk) -> Result<Vec<QueueUse<&'a str>>, Memory>
    ensures { IfOk result (λ queues. map queue_shown queues.items ≡ blk_queues blk.now) }
{
    let driver = blk.driver.as_str();
    let virt = blk.virt.as_str();
    let region = blk.queues.as_str();
    let there = across(region, virt, driver);
    let back = across(region, driver, virt);
    let capacity = blk.capacity;
    let holds = blk.client.len() as u128;
    let mut queues = Vec::new(alloc);
    queues.extend_from_slice(&[
        queue(
            whole("disk.req"),
            QueueKind::Req,
            Ends::ToDevice(driver),
            capacity,
            holds,
        ),
        queue(
            whole("disk.resp"),
            QueueKind::Resp,
            Ends::FromDevice(driver),
            capacity,
            holds,
        ),
        queue(whole("blk.req"), QueueKind::Req, there, capacity, holds),
        queue_behind(
            QueueKind::Req,
            whole("blk.resp"),
            QueueKind::Resp,
            back,
            capacity,
            holds,
        ),
    ])?;
    Ok(queues)
}

fn pools<'a>(alloc: Global, blk: &'a Blk) -> Result<Vec<PoolUse<&'a str>>, Memory>
    ensures { IfOk result (λ pools. map pool_shown pools.items ≡ blk_pools blk.now) }
{
    let mut must = Vec::new(alloc);
    must.push(writes(blk.virt.as_str()))?;
    let mut may = Vec::new(alloc);
    may.push(blk.driver.as_str())?;
    let mut pools = Vec::new(alloc);
    pools.push(PoolUse {
        name: whole("blk"),
        region: blk.region.as_str(),
        must: Series::from_vec(must),
        may: Series::from_vec(may),
        buffers: 1,
        size: BLK_BUFFER,
    })?;
    Ok(pools)
}

/// What the block class uses.
pub fn blk_element<'a>(alloc: Global, blk: &'a Blk) -> Result<ClassElement<&'a str>, Memory>
    ensures { IfOk result (λ element. element_shown element ≡ blk_element blk.now) }
{
    let roles = Series::from_vec(roles(alloc, blk)?);
    let queues = Series::from_vec(queues(alloc, blk)?);
    let pools = Series::from_vec(pools(alloc, blk)?);
    Ok(ClassElement {
        place: Place::Blk,
        roles,
        driver: Some(blk.driver.as_str()),
        queues,
        pools,
    })
}

fn client_roles<'a>(alloc: Global, client: &'a BlkClient) -> Result<Vec<RoleUse<&'a str>>, Memory>
    ensures { IfOk result (λ roles. map role_shown roles.items ≡ blk_client_roles client.now) }
{
    let mut roles = Vec::new(alloc);
    roles.push(plays(client.pd.as_str(), Role::BlkClient))?;
    Ok(roles)
}

fn client_queues<'a>(
    alloc: Global,
    blk: &'a Blk,
    c: u32,
    client: &'a BlkClient,
) -> Result<Vec<QueueUse<&'a str>>, Memory>
    ensures { IfOk result
        (λ queues. map queue_shown queues.items ≡ blk_client_queues blk.now c client.now) }
{
    let pd = client.pd.as_str();
    let virt = blk.virt.as_str();
    let region = client.queues.as_str();
    let there = across(region, pd, virt);
    let back = across(region, virt, pd);
    let capacity = client.capacity;
    let resp = of_client("blk.", c, ".resp");
    let mut queues = Vec::new(alloc);
    queues.extend_from_slice(&[
        queue(
            of_client("blk.", c, ".req"),
            QueueKind::Req,
            there,
            capacity,
            0,
        ),
        queue_behind(QueueKind::Req, resp, QueueKind::Resp, back, capacity, 0),
    ])?;
    Ok(queues)
}

fn client_pools<'a>(
    alloc: Global,
    blk: &'a Blk,
    c: u32,
    client: &'a BlkClient,
) -> Result<Vec<PoolUse<&'a str>>, Memory>
    ensures { IfOk result
        (λ pools. map pool_shown pools.items ≡ blk_client_pools blk.now c client.now) }
{
    let mut must = Vec::new(alloc);
    must.push(writes(client.pd.as_str()))?;
    let mut may = Vec::new(alloc);
    may.extend_from_slice(&[blk.virt.as_str(), blk.driver.as_str()])?;
    let mut pools = Vec::new(alloc);
    pools.push(PoolUse {
        name: of_client("blk.", c, ""),
        region: client.region.as_str(),
        must: Series::from_vec(must),
        may: Series::from_vec(may),
        buffers: client.buffers,
        size: BLK_BUFFER,
    })?;
    Ok(pools)
}

/// What a client of the block class uses, by its number.
pub fn blk_client_element<'a>(
    alloc: Global,
    blk: &'a Blk,
    c: u32,
    client: &'a BlkClient,
) -> Result<ClassElement<&'a str>, Memory>
    ensures { IfOk result
        (λ element. element_shown element ≡ blk_client_element blk.now c client.now) }
{
    let roles = Series::from_vec(client_roles(alloc, client)?);
    let queues = Series::from_vec(client_queues(alloc, blk, c, client)?);
    let pools = Series::from_vec(client_pools(alloc, blk, c, client)?);
    Ok(ClassElement {
        place: Place::BlkClient(c),
        roles,
        driver: None,
        queues,
        pools,
    })
}
