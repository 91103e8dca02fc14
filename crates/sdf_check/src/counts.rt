//! The rule on counts: of the elements of each sort, and of buffers.
ghost use Rattle.std.specs.Prelude.{◌↔◌, IsTrue};
ghost use Rattle.sdf_check.specs.ClassRules.{IsPastLimit};

use crate::judge::{Judge, at};
use crate::sizes::{is_buffer_count, is_client_count};
use sdf_plan::Place;

/// Whether a count passes its limit, or there is no client or no buffer.
pub fn is_past_limit(judge: &Judge<'_>, place: Place) -> bool
    ensures { IsTrue result ↔ IsPastLimit judge.now.plan.now place }
{
    match place {
        Place::Region(r) => r >= 256 && (r as usize) < judge.plan.memory_region.len(),
        Place::Map(d, m) => match at(&judge.plan.protection_domain, d) {
            Some(domain) => m >= 64 && (m as usize) < domain.map.len(),
            None => false,
        },
        Place::Irq(d, i) => match at(&judge.plan.protection_domain, d) {
            Some(domain) => i >= 8 && (i as usize) < domain.irq.len(),
            None => false,
        },
        Place::Channel(c) => c >= 256 && (c as usize) < judge.plan.channel.len(),
        Place::Net => match &judge.plan.net {
            Some(net) => !is_client_count(net.client.len()) || !is_buffer_count(net.rx_buffers),
            None => false,
        },
        Place::NetClient(c) => match &judge.plan.net {
            Some(net) => match at(&net.client, c) {
                Some(client) => !is_buffer_count(client.rx_buffers)
                    || !is_buffer_count(client.tx_buffers),
                None => false,
            },
            None => false,
        },
        Place::Serial => match &judge.plan.serial {
            Some(serial) => !is_client_count(serial.client.len()),
            None => false,
        },
        Place::Blk => match &judge.plan.blk {
            Some(blk) => !is_client_count(blk.client.len()),
            None => false,
        },
        Place::BlkClient(c) => match &judge.plan.blk {
            Some(blk) => match at(&blk.client, c) {
                Some(client) => !is_buffer_count(client.buffers),
                None => false,
            },
            None => false,
        },
        _ => false,
    }
}
