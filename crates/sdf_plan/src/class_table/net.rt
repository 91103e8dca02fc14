//! The rows of the network class and of its clients.
ghost use Rattle.std.specs.Prelude.{◌≡◌, ◌∷◌, map, sum_by, IfOk};
ghost use Rattle.sdf_plan.specs.declared.plan.NetClient.{NetClient};
ghost use Rattle.sdf_plan.specs.ClassTable.Rows.{net_roles, net_queues, net_pools, net_client_roles};
ghost use Rattle.sdf_plan.specs.ClassTable.Rows.{net_client_queues, net_client_pools, reads, rx_pool};
ghost use Rattle.sdf_plan.specs.ClassTable.Rows.{tx_pool};
ghost use Rattle.sdf_plan.specs.ClassTable.Shown.{role_shown, queue_shown, grant_shown, pool_shown};
ghost use Rattle.sdf_plan.specs.ClassTable.Shown.{element_shown};
ghost use Rattle.sdf_plan.specs.ClassTable.Table.{net_element, net_client_element};

use crate::class_table::role::Role;
use crate::class_table::rows::{
    across, of_client, plays, queue, queue_behind, reads, whole, writes,
};
use crate::class_table::uses::{ClassElement, Ends, Grant, PoolUse, QueueUse, RoleUse};
use crate::{Net, NetClient, Place};
use cargo_core::{Memory, QueueKind, Series};
use std::alloc::Global;

fn roles<'a>(alloc: Global, net: &'a Net) -> Result<Vec<RoleUse<&'a str>>, Memory>
    ensures { IfOk result (λ roles. map role_shown roles.items ≡ net_roles net.now) }
{
    let mut roles = Vec::new(alloc);
    roles.extend_from_slice(&[
        plays(net.driver.as_str(), Role::NetDriver),
        plays(net.rx_virt.as_str(), Role::NetRxVirt),
        plays(net.tx_virt.as_str(), Role::NetTxVirt),
    ])?;
    Ok(roles)
}

/// How many buffers the clients send from.
fn tx_buffers(clients: &[NetClient]) -> u128
    ensures { result ≡ sum_by (λ (c : NetClient). c.tx_buffers) clients.now }
{
    let mut total = 0u128;
    for client in clients {
        total += client.tx_buffers as u128;
    }
    total
}

fn queues<'a>(alloc: Global, net: &'a Net) -> Result<Vec<QueueUse<&'a str>>, Memory>
    ensures { IfOk result (λ queues. map queue_shown queues.items ≡ net_queues net.now) }
{
    let driver = net.driver.as_str();
    let rx_virt = net.rx_virt.as_str();
    let tx_virt = net.tx_virt.as_str();
    let rx = across(net.rx_queues.as_str(), driver, rx_virt);
    let rx_back = across(net.rx_queues.as_str(), rx_virt, driver);
    let tx = across(net.tx_queues.as_str(), tx_virt, driver);
    let tx_back = across(net.tx_queues.as_str(), driver, tx_virt);
    let to = Ends::ToDevice(driver);
    let from = Ends::FromDevice(driver);
    let (rx_room, tx_room) = (net.rx_capacity, net.tx_capacity);
    let (rx_holds, tx_holds) = (net.rx_buffers as u128, tx_buffers(net.client.as_slice()));
    let kind = QueueKind::Net;
    let mut queues = Vec::new(alloc);
    queues.extend_from_slice(&[
        queue(whole("eth.rx.free"), kind, to, rx_room, rx_holds),
        queue(whole("eth.rx.active"), kind, from, rx_room, rx_holds),
        queue(whole("eth.tx.active"), kind, to, tx_room, tx_holds),
        queue(whole("eth.tx.free"), kind, from, tx_room, tx_holds),
        queue(whole("net.rx.active"), kind, rx, rx_room, rx_holds),
        queue_behind(kind, whole("net.rx.free"), kind, rx_back, rx_room, rx_holds),
        queue(whole("net.tx.active"), kind, tx, tx_room, tx_holds),
        queue_behind(kind, whole("net.tx.free"), kind, tx_back, tx_room, tx_holds),
    ])?;
    Ok(queues)
}

/// Who must map the region of the buffers that the device fills: the receiving virtualiser and
/// every copier.
fn receivers<'a>(
    alloc: Global,
    rx_virt: &'a str,
    clients: &'a [NetClient],
) -> Result<Vec<Grant<&'a str>>, Memory>
    ensures { IfOk result
        (λ must. map grant_shown must.items
        ≡ reads rx_virt.now ∷ map (λ (c : NetClient). reads c.copier) clients.now) }
{
    let mut must = Vec::new(alloc);
    must.push(reads(rx_virt))?;
    for client in clients {
        must.push(reads(client.copier.as_str()))?;
    }
    Ok(must)
}

fn pools<'a>(alloc: Global, net: &'a Net) -> Result<Vec<PoolUse<&'a str>>, Memory>
    ensures { IfOk result (λ pools. map pool_shown pools.items ≡ net_pools net.now) }
{
    let must = Series::from_vec(receivers(alloc, net.rx_virt.as_str(), net.client.as_slice())?);
    let mut may = Vec::new(alloc);
    may.push(net.driver.as_str())?;
    let mut pools = Vec::new(alloc);
    pools.push(PoolUse {
        name: whole("net.rx"),
        region: net.rx_region.as_str(),
        must,
        may: Series::from_vec(may),
        buffers: net.rx_buffers,
        size: net.rx_buffer_size,
    })?;
    Ok(pools)
}

/// What the network class uses.
pub fn net_element<'a>(alloc: Global, net: &'a Net) -> Result<ClassElement<&'a str>, Memory>
    ensures { IfOk result (λ element. element_shown element ≡ net_element net.now) }
{
    let roles = Series::from_vec(roles(alloc, net)?);
    let queues = Series::from_vec(queues(alloc, net)?);
    let pools = Series::from_vec(pools(alloc, net)?);
    Ok(ClassElement {
        place: Place::Net,
        roles,
        driver: Some(net.driver.as_str()),
        queues,
        pools,
    })
}

fn client_roles<'a>(alloc: Global, client: &'a NetClient) -> Result<Vec<RoleUse<&'a str>>, Memory>
    ensures { IfOk result (λ roles. map role_shown roles.items ≡ net_client_roles client.now) }
{
    let mut roles = Vec::new(alloc);
    roles.extend_from_slice(&[
        plays(client.pd.as_str(), Role::NetClient),
        plays(client.copier.as_str(), Role::NetCopier),
    ])?;
    Ok(roles)
}

fn client_queues<'a>(
    alloc: Global,
    net: &'a Net,
    c: u32,
    client: &'a NetClient,
) -> Result<Vec<QueueUse<&'a str>>, Memory>
    ensures { IfOk result
        (λ queues. map queue_shown queues.items ≡ net_client_queues net.now c client.now) }
{
    let (pd, copier) = (client.pd.as_str(), client.copier.as_str());
    let (rx_virt, tx_virt) = (net.rx_virt.as_str(), net.tx_virt.as_str());
    let (leases, rx, tx) = (
        client.lease_queues.as_str(),
        client.rx_queues.as_str(),
        client.tx_queues.as_str(),
    );
    let (lease_room, lease_holds) = (net.rx_capacity, net.rx_buffers as u128);
    let (rx_room, rx_holds) = (client.rx_capacity, client.rx_buffers as u128);
    let (tx_room, tx_holds) = (client.tx_capacity, client.tx_buffers as u128);
    let kind = QueueKind::Net;
    let lease_free = of_client("net.", c, ".lease.free");
    let rx_free = of_client("net.", c, ".rx.free");
    let tx_free = of_client("net.", c, ".tx.free");
    let mut queues = Vec::new(alloc);
    queues.extend_from_slice(&[
        queue(
            of_client("net.", c, ".lease.active"),
            kind,
            across(leases, rx_virt, copier),
            lease_room,
            lease_holds,
        ),
        queue_behind(
            kind,
            lease_free,
            kind,
            across(leases, copier, rx_virt),
            lease_room,
            lease_holds,
        ),
        queue(
            of_client("net.", c, ".rx.active"),
            kind,
            across(rx, copier, pd),
            rx_room,
            rx_holds,
        ),
        queue_behind(
            kind,
            rx_free,
            kind,
            across(rx, pd, copier),
            rx_room,
            rx_holds,
        ),
        queue(
            of_client("net.", c, ".tx.active"),
            kind,
            across(tx, pd, tx_virt),
            tx_room,
            tx_holds,
        ),
        queue_behind(
            kind,
            tx_free,
            kind,
            across(tx, tx_virt, pd),
            tx_room,
            tx_holds,
        ),
    ])?;
    Ok(queues)
}

fn client_rx_pool<'a>(
    alloc: Global,
    c: u32,
    client: &'a NetClient,
) -> Result<PoolUse<&'a str>, Memory>
    ensures { IfOk result (λ it. pool_shown it ≡ rx_pool c client.now) }
{
    let mut must = Vec::new(alloc);
    must.extend_from_slice(&[writes(client.copier.as_str()), reads(client.pd.as_str())])?;
    Ok(PoolUse {
        name: of_client("net.", c, ".rx"),
        region: client.rx_region.as_str(),
        must: Series::from_vec(must),
        may: Series::new(alloc),
        buffers: client.rx_buffers,
        size: client.rx_buffer_size,
    })
}

fn client_tx_pool<'a>(
    alloc: Global,
    net: &'a Net,
    c: u32,
    client: &'a NetClient,
) -> Result<PoolUse<&'a str>, Memory>
    ensures { IfOk result (λ it. pool_shown it ≡ tx_pool net.now c client.now) }
{
    let mut must = Vec::new(alloc);
    must.push(writes(client.pd.as_str()))?;
    let mut may = Vec::new(alloc);
    may.extend_from_slice(&[net.tx_virt.as_str(), net.driver.as_str()])?;
    Ok(PoolUse {
        name: of_client("net.", c, ".tx"),
        region: client.tx_region.as_str(),
        must: Series::from_vec(must),
        may: Series::from_vec(may),
        buffers: client.tx_buffers,
        size: client.tx_buffer_size,
    })
}

fn client_pools<'a>(
    alloc: Global,
    net: &'a Net,
    c: u32,
    client: &'a NetClient,
) -> Result<Vec<PoolUse<&'a str>>, Memory>
    ensures { IfOk result
        (λ pools. map pool_shown pools.items ≡ net_client_pools net.now c client.now) }
{
    let mut pools = Vec::with_capacity(alloc, 2)?;
    pools.push(client_rx_pool(alloc, c, client)?)?;
    pools.push(client_tx_pool(alloc, net, c, client)?)?;
    Ok(pools)
}

/// What a client of the network class uses, by its number.
pub fn net_client_element<'a>(
    alloc: Global,
    net: &'a Net,
    c: u32,
    client: &'a NetClient,
) -> Result<ClassElement<&'a str>, Memory>
    ensures { IfOk result
        (λ element. element_shown element ≡ net_client_element net.now c client.now) }
{
    let roles = Series::from_vec(client_roles(alloc, client)?);
    let queues = Series::from_vec(client_queues(alloc, net, c, client)?);
    let pools = Series::from_vec(client_pools(alloc, net, c, client)?);
    Ok(ClassElement {
        place: Place::NetClient(c),
        roles,
        driver: None,
        queues,
        pools,
    })
}
