//! The rules on what tells clients apart: their MAC addresses and their partitions.
ghost use Rattle.std.specs.Prelude.{◌≡◌, ◌↔◌, ◌<◌, Some, map, IsTrue};
ghost use Rattle.frame_core.specs.Macs.{mac_of};
ghost use Rattle.sdf_plan.specs.declared.plan.NetClient.{NetClient};
ghost use Rattle.sdf_plan.specs.declared.plan.BlkClient.{BlkClient};
ghost use Rattle.sdf_check.specs.Names.{StandsBefore};
ghost use Rattle.sdf_check.specs.ClassRules.{HasBadMac, HasBadPartition};

use crate::judge::{Judge, at};
use cargo_core::Series;
use frame_core::{Mac, read_mac};
use sdf_plan::{BlkClient, NetClient, Place};

fn same_mac(first: Mac, second: Mac) -> bool
    ensures { IsTrue result ↔ (first ≡ second) }
{
    first == second
}

fn has_mac(client: &NetClient, mac: Mac) -> bool
    ensures { IsTrue result ↔ (mac_of client.now.mac ≡ Some mac) }
{
    match read_mac(client.mac.as_str()) {
        Some(other) => same_mac(other, mac),
        None => false,
    }
}

// Whether a client before a place has this address. Where this is asked there are at most 63
// clients.
fn mac_stands_before(clients: &Series<NetClient>, mac: Mac, until: u32) -> bool
    ensures { IsTrue result ↔ StandsBefore (Some mac)
        (map (λ (other : NetClient). mac_of other.mac) clients.now) until }
{
    for at in 0..(until as usize).min(clients.len()) {
        if has_mac(clients.get(at), mac) {
            return true;
        }
    }
    false
}

/// Whether a client's address isn't readable, or is that of an earlier client.
pub fn has_bad_mac(judge: &Judge<'_>, place: Place) -> bool
    ensures { IsTrue result ↔ HasBadMac judge.now.plan.now place }
{
    match place {
        Place::NetClient(c) => match &judge.plan.net {
            Some(net) => match at(&net.client, c) {
                Some(client) => match read_mac(client.mac.as_str()) {
                    Some(mac) => mac_stands_before(&net.client, mac, c),
                    None => true,
                },
                None => false,
            },
            None => false,
        },
        _ => false,
    }
}

// Whether a client before a place has this partition. Where this is asked there are at most 63
// clients.
fn partition_stands_before(clients: &Series<BlkClient>, partition: u64, until: u32) -> bool
    ensures { IsTrue result ↔ StandsBefore partition
        (map (λ (other : BlkClient). other.partition) clients.now) until }
{
    for at in 0..(until as usize).min(clients.len()) {
        if clients.get(at).partition == partition {
            return true;
        }
    }
    false
}

/// Whether a client's partition is above 3, or that of an earlier client.
pub fn has_bad_partition(judge: &Judge<'_>, place: Place) -> bool
    ensures { IsTrue result ↔ HasBadPartition judge.now.plan.now place }
{
    match place {
        Place::BlkClient(c) => match &judge.plan.blk {
            Some(blk) => match at(&blk.client, c) {
                Some(client) => client.partition > 3
                    || partition_stands_before(&blk.client, client.partition, c),
                None => false,
            },
            None => false,
        },
        _ => false,
    }
}
