//! The table of a plan with the serial class alone, row by row against the tables of queues and
//! pools.
ghost use Rattle.sdf_plan.specs.Elements.{IsNumbered};

use cargo_core::{Memory, Series, Text};
use sdf_plan::class_table::{Classes, classes_of};
use sdf_plan::{Plan, Policy, Serial, SerialClient};
use std::alloc::Global;
use std::process::Abort;

fn text(rt: &impl Abort, alloc: Global, name: &str) -> Text {
    Text::new(alloc, name).expect(rt, "memory")
}

/// A serial class with one client.
fn plan(rt: &impl Abort, alloc: Global) -> Plan
    ensures { IsNumbered result }
{
    let mut clients = Series::new(alloc);
    let client = SerialClient {
        pd: text(rt, alloc, "term0"),
        rx_queues: text(rt, alloc, "rxq0"),
        tx_queues: text(rt, alloc, "txq0"),
        rx_capacity: 8,
        tx_capacity: 32,
        policy: Policy::Hold,
    };
    clients.push(client).expect(rt, "memory");
    Plan {
        version: 1,
        memory_region: Series::new(alloc),
        protection_domain: Series::new(alloc),
        channel: Series::new(alloc),
        net: None,
        serial: Some(Serial {
            driver: text(rt, alloc, "uart"),
            rx_virt: text(rt, alloc, "ser_rx"),
            tx_virt: text(rt, alloc, "ser_tx"),
            rx_queues: text(rt, alloc, "rxq"),
            tx_queues: text(rt, alloc, "txq"),
            rx_capacity: 16,
            tx_capacity: 64,
            client: clients,
        }),
        blk: None,
    }
}

/// What each element of the serial class uses, and its queues a line each.
fn uses(alloc: Global, classes: &Classes) -> Result<String, Memory> {
    let mut text = String::new(alloc);
    for class in classes.serial.as_slice() {
        write!(
            text,
            "{:?} driver {:?} roles {}",
            class.place,
            class.driver,
            class.roles.len()
        )?;
        write!(text, " pools {}\n", class.pools.len())?;
        for queue in class.queues.as_slice() {
            write!(
                text,
                "{:?} {:?} {}\n",
                queue.kind, queue.ends, queue.capacity
            )?;
        }
    }
    Ok(text)
}

#[test]
fn serial_queues_go_where_the_tables_say(rt: HostRuntime) {
    let plan = plan(&rt, rt.alloc());
    let classes = classes_of(rt.alloc(), &plan).expect(&rt, "memory");
    assert!(&rt; classes.net.is_empty() && classes.blk.is_empty());
    let text = uses(rt.alloc(), &classes).expect(&rt, "memory");
    assert_eq!(&rt;
        text.as_str(),
        "Serial driver Some(\"uart\") roles 3 pools 0\n\
         Byte FromDevice(\"uart\") 16\n\
         Byte ToDevice(\"uart\") 64\n\
         Byte Across(Link { region: \"rxq\", from: \"uart\", to: \"ser_rx\" }) 16\n\
         Byte Across(Link { region: \"txq\", from: \"ser_tx\", to: \"uart\" }) 64\n\
         SerialClient(0) driver None roles 1 pools 0\n\
         Byte Across(Link { region: \"rxq0\", from: \"ser_rx\", to: \"term0\" }) 8\n\
         Byte Across(Link { region: \"txq0\", from: \"term0\", to: \"ser_tx\" }) 32\n"
    );
}
