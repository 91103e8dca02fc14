//! How each part of a plan is read from the table of its element.
ghost use Rattle.sdf_model.specs.Spelled.{plan_of, region_of, domain_of, map_of, irq_of};
ghost use Rattle.sdf_model.specs.Spelled.{channel_of, end_of, net_of, net_client_of, serial_of};
ghost use Rattle.sdf_model.specs.Spelled.{serial_client_of, blk_of, blk_client_of};

use crate::field::{Field, Part, four, three, two};
use crate::key;
use cargo_core::Memory;
use sdf_plan::{
    Blk, BlkClient, Channel, Domain, End, Irq, Map, Net, NetClient, Plan, Region, Serial,
    SerialClient,
};
use std::alloc::Global;
use toml::Table;

/// Reads a part of a plan from the table of its element: each field, in the order of the element's
/// arrays of keys, by the key that stands there; so many fields at once.
macro_rules! reading {
    ($part:ident by $keys:expr, $alloc:ident, $table:ident;
    $($many:ident($($field:ident),*))*) => {{
        let [$($($field),*),*] = &$keys;
        $(let ($($field),*) = $many($alloc, $table, $($field),*)?;)*
        Ok($part { $($($field),*),* })
    }};
    ($part:ident by $keys:expr, $alloc:ident, $table:ident;
    $($many:ident($($field:ident),*))*;
    $more:expr; $last:ident($($added:ident),*)) => {{
        let [$($($field),*),*] = &$keys;
        let [$($added),*] = &$more;
        $(let ($($field),*) = $many($alloc, $table, $($field),*)?;)*
        let ($($added),*) = $last($alloc, $table, $($added),*)?;
        Ok($part { $($($field),*),*, $($added),* })
    }};
}

impl Part for Plan {
    ghost spelled = { plan_of };

    fn read(alloc: Global, table: &Table) -> Result<Plan, Memory> {
        reading!(Plan by key::SYSTEM, alloc, table;
            four(version, memory_region, protection_domain, channel) three(net, serial, blk))
    }
}

impl Part for Region {
    ghost spelled = { region_of };

    fn read(alloc: Global, table: &Table) -> Result<Region, Memory> {
        reading!(Region by key::REGION, alloc, table; four(name, size, page_size, phys_addr))
    }
}

impl Part for Domain {
    ghost spelled = { domain_of };

    fn read(alloc: Global, table: &Table) -> Result<Domain, Memory> {
        reading!(Domain by key::DOMAIN, alloc, table;
            four(name, priority, budget, period) three(program, map, irq))
    }
}

impl Part for Map {
    ghost spelled = { map_of };

    fn read(alloc: Global, table: &Table) -> Result<Map, Memory> {
        reading!(Map by key::MAP, alloc, table; three(mr, vaddr, perms) two(cached, setvar_vaddr))
    }
}

impl Part for Irq {
    ghost spelled = { irq_of };

    fn read(alloc: Global, table: &Table) -> Result<Irq, Memory> {
        reading!(Irq by key::IRQ, alloc, table; three(irq, id, trigger))
    }
}

impl Part for Channel {
    ghost spelled = { channel_of };

    fn read(alloc: Global, table: &Table) -> Result<Channel, Memory> {
        let [end] = &key::CHANNEL;
        Ok(Channel {
            end: Field::field(alloc, table, end)?,
        })
    }
}

impl Part for End {
    ghost spelled = { end_of };

    fn read(alloc: Global, table: &Table) -> Result<End, Memory> {
        reading!(End by key::END, alloc, table; two(pd, id))
    }
}

impl Part for Net {
    ghost spelled = { net_of };

    fn read(alloc: Global, table: &Table) -> Result<Net, Memory> {
        reading!(Net by key::NET, alloc, table;
            four(driver, rx_virt, tx_virt, rx_region)
            four(rx_queues, tx_queues, rx_buffers, rx_capacity)
            two(tx_capacity, client);
            key::NET_MORE; two(max_frame, rx_buffer_size))
    }
}

impl Part for NetClient {
    ghost spelled = { net_client_of };

    fn read(alloc: Global, table: &Table) -> Result<NetClient, Memory> {
        reading!(NetClient by key::NET_CLIENT, alloc, table;
            four(pd, copier, mac, lease_queues)
            four(rx_region, rx_queues, tx_region, tx_queues)
            three(rx_buffers, rx_capacity, tx_buffers)
            two(tx_capacity, policy);
            key::NET_CLIENT_MORE; two(rx_buffer_size, tx_buffer_size))
    }
}

impl Part for Serial {
    ghost spelled = { serial_of };

    fn read(alloc: Global, table: &Table) -> Result<Serial, Memory> {
        reading!(Serial by key::SERIAL, alloc, table;
            four(driver, rx_virt, tx_virt, rx_queues)
            four(tx_queues, rx_capacity, tx_capacity, client))
    }
}

impl Part for SerialClient {
    ghost spelled = { serial_client_of };

    fn read(alloc: Global, table: &Table) -> Result<SerialClient, Memory> {
        reading!(SerialClient by key::SERIAL_CLIENT, alloc, table;
            three(pd, rx_queues, tx_queues) three(rx_capacity, tx_capacity, policy))
    }
}

impl Part for Blk {
    ghost spelled = { blk_of };

    fn read(alloc: Global, table: &Table) -> Result<Blk, Memory> {
        reading!(Blk by key::BLK, alloc, table;
            three(driver, virt, queues) three(region, capacity, client))
    }
}

impl Part for BlkClient {
    ghost spelled = { blk_client_of };

    fn read(alloc: Global, table: &Table) -> Result<BlkClient, Memory> {
        reading!(BlkClient by key::BLK_CLIENT, alloc, table;
            three(pd, region, queues) three(partition, buffers, capacity))
    }
}
