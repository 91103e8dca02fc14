//! The rows of the serial class and of its clients.
ghost use Rattle.std.specs.Prelude.{◌≡◌, map, IfOk};
ghost use Rattle.sdf_plan.specs.ClassTable.Rows.{serial_roles, serial_queues, serial_client_roles};
ghost use Rattle.sdf_plan.specs.ClassTable.Rows.{serial_client_queues};
ghost use Rattle.sdf_plan.specs.ClassTable.Shown.{role_shown, queue_shown, element_shown};
ghost use Rattle.sdf_plan.specs.ClassTable.Table.{serial_element, serial_client_element};

use crate::class_table::role::Role;
use crate::class_table::rows::{across, of_client, plays, queue, whole};
use crate::class_table::uses::{ClassElement, Ends, QueueUse, RoleUse};
use crate::{Place, Serial, SerialClient};
use cargo_core::{Memory, QueueKind, Series};
use std::alloc::Global;

fn roles<'a>(alloc: Global, serial: &'a Serial) -> Result<Vec<RoleUse<&'a str>>, Memory>
    ensures { IfOk result (λ roles. map role_shown roles.items ≡ serial_roles serial.now) }
{
    let mut roles = Vec::new(alloc);
    roles.extend_from_slice(&[
        plays(serial.driver.as_str(), Role::SerialDriver),
        plays(serial.rx_virt.as_str(), Role::SerialRxVirt),
        plays(serial.tx_virt.as_str(), Role::SerialTxVirt),
    ])?;
    Ok(roles)
}

fn queues<'a>(alloc: Global, serial: &'a Serial) -> Result<Vec<QueueUse<&'a str>>, Memory>
    ensures { IfOk result (λ queues. map queue_shown queues.items ≡ serial_queues serial.now) }
{
    let driver = serial.driver.as_str();
    let rx_virt = serial.rx_virt.as_str();
    let tx_virt = serial.tx_virt.as_str();
    let rx = across(serial.rx_queues.as_str(), driver, rx_virt);
    let tx = across(serial.tx_queues.as_str(), tx_virt, driver);
    let mut queues = Vec::new(alloc);
    queues.extend_from_slice(&[
        queue(
            whole("uart.rx"),
            QueueKind::Byte,
            Ends::FromDevice(driver),
            serial.rx_capacity,
            0,
        ),
        queue(
            whole("uart.tx"),
            QueueKind::Byte,
            Ends::ToDevice(driver),
            serial.tx_capacity,
            0,
        ),
        queue(
            whole("serial.rx"),
            QueueKind::Byte,
            rx,
            serial.rx_capacity,
            0,
        ),
        queue(
            whole("serial.tx"),
            QueueKind::Byte,
            tx,
            serial.tx_capacity,
            0,
        ),
    ])?;
    Ok(queues)
}

/// What the serial class uses.
pub fn serial_element<'a>(
    alloc: Global,
    serial: &'a Serial,
) -> Result<ClassElement<&'a str>, Memory>
    ensures { IfOk result (λ element. element_shown element ≡ serial_element serial.now) }
{
    let roles = Series::from_vec(roles(alloc, serial)?);
    let queues = Series::from_vec(queues(alloc, serial)?);
    Ok(ClassElement {
        place: Place::Serial,
        roles,
        driver: Some(serial.driver.as_str()),
        queues,
        pools: Series::new(alloc),
    })
}

fn client_roles<'a>(
    alloc: Global,
    client: &'a SerialClient,
) -> Result<Vec<RoleUse<&'a str>>, Memory>
    ensures { IfOk result (λ roles. map role_shown roles.items ≡ serial_client_roles client.now) }
{
    let mut roles = Vec::new(alloc);
    roles.push(plays(client.pd.as_str(), Role::SerialClient))?;
    Ok(roles)
}

fn client_queues<'a>(
    alloc: Global,
    serial: &'a Serial,
    c: u32,
    client: &'a SerialClient,
) -> Result<Vec<QueueUse<&'a str>>, Memory>
    ensures { IfOk result
        (λ queues. map queue_shown queues.items ≡ serial_client_queues serial.now c client.now) }
{
    let pd = client.pd.as_str();
    let rx = across(client.rx_queues.as_str(), serial.rx_virt.as_str(), pd);
    let tx = across(client.tx_queues.as_str(), pd, serial.tx_virt.as_str());
    let mut queues = Vec::new(alloc);
    queues.extend_from_slice(&[
        queue(
            of_client("serial.", c, ".rx"),
            QueueKind::Byte,
            rx,
            client.rx_capacity,
            0,
        ),
        queue(
            of_client("serial.", c, ".tx"),
            QueueKind::Byte,
            tx,
            client.tx_capacity,
            0,
        ),
    ])?;
    Ok(queues)
}

/// What a client of the serial class uses, by its number.
pub fn serial_client_element<'a>(
    alloc: Global,
    serial: &'a Serial,
    c: u32,
    client: &'a SerialClient,
) -> Result<ClassElement<&'a str>, Memory>
    ensures { IfOk result
        (λ element. element_shown element ≡ serial_client_element serial.now c client.now) }
{
    let roles = Series::from_vec(client_roles(alloc, client)?);
    let queues = Series::from_vec(client_queues(alloc, serial, c, client)?);
    Ok(ClassElement {
        place: Place::SerialClient(c),
        roles,
        driver: None,
        queues,
        pools: Series::new(alloc),
    })
}
