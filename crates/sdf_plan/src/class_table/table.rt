//! The table of a plan: its elements class by class, each class before its clients.
ghost use Rattle.std.specs.Prelude.{◌≡◌, ◌<◌, ◌^◌, ◌++◌, [], length, map, IfOk, IfSome, OnOk};
ghost use Rattle.std.specs.Option.{option_map_or};
ghost use Rattle.sdf_plan.specs.Elements.{IsNumbered};
ghost use Rattle.sdf_plan.specs.ClassTable.Shown.{element_shown, AreClasses};
ghost use Rattle.sdf_plan.specs.ClassTable.Numbers.{AreNumbered};
ghost use Rattle.sdf_plan.specs.ClassTable.Table.{net_elements, serial_elements, blk_elements, numbered};
ghost use Rattle.sdf_plan.specs.ClassTable.Table.{net_client_element, serial_client_element};
ghost use Rattle.sdf_plan.specs.ClassTable.Table.{blk_client_element};

use crate::class_table::blk::{blk_client_element, blk_element};
use crate::class_table::classes::Classes;
use crate::class_table::net::{net_client_element, net_element};
use crate::class_table::serial::{serial_client_element, serial_element};
use crate::class_table::uses::ClassElement;
use crate::{Blk, BlkClient, Net, NetClient, Plan, Serial, SerialClient};
use cargo_core::{Memory, Series};
use std::alloc::Global;

/// The elements of the classes of a plan, in the order of the walk. Their texts are the plan's.
pub fn classes_of<'a>(alloc: Global, plan: &'a Plan) -> Result<Classes<'a>, Memory>
    requires { IsNumbered plan.now }
    ensures { IfOk result (λ classes. AreClasses classes plan.now) }
{
    classes_of_few(alloc, plan)
}

/// The same where it is known only that each class has fewer than 2^32 clients.
pub fn classes_of_few<'a>(alloc: Global, plan: &'a Plan) -> Result<Classes<'a>, Memory>
    requires { AreNumbered plan.now }
    ensures { IfOk result (λ classes. AreClasses classes plan.now) }
{
    let mut net = Vec::new(alloc);
    add_net(alloc, &mut net, &plan.net)?;
    let mut serial = Vec::new(alloc);
    add_serial(alloc, &mut serial, &plan.serial)?;
    let mut blk = Vec::new(alloc);
    add_blk(alloc, &mut blk, &plan.blk)?;
    Ok(Classes {
        net: Series::from_vec(net),
        serial: Series::from_vec(serial),
        blk: Series::from_vec(blk),
    })
}

fn add_net<'a>(
    alloc: Global,
    table: &mut Vec<ClassElement<&'a str>>,
    class: &'a Option<Net>,
) -> Result<(), Memory>
    requires { IfSome class.now (λ c. length c.client < 2 ^ 32) }
    ensures { OnOk result
        (map element_shown table.new.items
        ≡ map element_shown table.old.items ++ option_map_or net_elements class.now []) }
{
    if let Some(net) = class {
        table.push(net_element(alloc, net)?)?;
        add_net_clients(alloc, table, net, net.client.as_slice())?;
    }
    Ok(())
}

fn add_net_clients<'a>(
    alloc: Global,
    table: &mut Vec<ClassElement<&'a str>>,
    net: &'a Net,
    clients: &'a [NetClient],
) -> Result<(), Memory>
    requires { length clients.now < 2 ^ 32 }
    ensures { OnOk result
        (map element_shown table.new.items
        ≡ map element_shown table.old.items
        ++ numbered (net_client_element net.now) 0 clients.now) }
{
    for (at, client) in clients.iter().enumerate() {
        let number = at as u32;
        table.push(net_client_element(alloc, net, number, client)?)?;
    }
    Ok(())
}

fn add_serial<'a>(
    alloc: Global,
    table: &mut Vec<ClassElement<&'a str>>,
    class: &'a Option<Serial>,
) -> Result<(), Memory>
    requires { IfSome class.now (λ c. length c.client < 2 ^ 32) }
    ensures { OnOk result
        (map element_shown table.new.items
        ≡ map element_shown table.old.items ++ option_map_or serial_elements class.now []) }
{
    if let Some(serial) = class {
        table.push(serial_element(alloc, serial)?)?;
        add_serial_clients(alloc, table, serial, serial.client.as_slice())?;
    }
    Ok(())
}

fn add_serial_clients<'a>(
    alloc: Global,
    table: &mut Vec<ClassElement<&'a str>>,
    serial: &'a Serial,
    clients: &'a [SerialClient],
) -> Result<(), Memory>
    requires { length clients.now < 2 ^ 32 }
    ensures { OnOk result
        (map element_shown table.new.items
        ≡ map element_shown table.old.items
        ++ numbered (serial_client_element serial.now) 0 clients.now) }
{
    for (at, client) in clients.iter().enumerate() {
        let number = at as u32;
        table.push(serial_client_element(alloc, serial, number, client)?)?;
    }
    Ok(())
}

fn add_blk<'a>(
    alloc: Global,
    table: &mut Vec<ClassElement<&'a str>>,
    class: &'a Option<Blk>,
) -> Result<(), Memory>
    requires { IfSome class.now (λ c. length c.client < 2 ^ 32) }
    ensures { OnOk result
        (map element_shown table.new.items
        ≡ map element_shown table.old.items ++ option_map_or blk_elements class.now []) }
{
    if let Some(blk) = class {
        table.push(blk_element(alloc, blk)?)?;
        add_blk_clients(alloc, table, blk, blk.client.as_slice())?;
    }
    Ok(())
}

fn add_blk_clients<'a>(
    alloc: Global,
    table: &mut Vec<ClassElement<&'a str>>,
    blk: &'a Blk,
    clients: &'a [BlkClient],
) -> Result<(), Memory>
    requires { length clients.now < 2 ^ 32 }
    ensures { OnOk result
        (map element_shown table.new.items
        ≡ map element_shown table.old.items
        ++ numbered (blk_client_element blk.now) 0 clients.now) }
{
    for (at, client) in clients.iter().enumerate() {
        let number = at as u32;
        table.push(blk_client_element(alloc, blk, number, client)?)?;
    }
    Ok(())
}
