//! A plan in which a domain has another name, wherever the plan names it: made by hand, so that the
//! name may be one that no text spells. After want of memory the plan isn't whole.

use cargo_core::{Memory, Series, Text};
use sdf_plan::{Channel, Domain, Plan, Serial};
use std::alloc::Global;
use std::mem::replace;

// The new name in place of the old one.
fn rename_text(alloc: Global, name: &mut Text, old: &str, new: &str) -> Result<(), Memory> {
    if name.as_str() == old {
        *name = Text::new(alloc, new)?;
    }
    Ok(())
}

fn rename_domains(
    alloc: Global,
    domains: &mut Vec<Domain>,
    old: &str,
    new: &str,
) -> Result<(), Memory> {
    for domain in domains {
        rename_text(alloc, &mut domain.name, old, new)?;
    }
    Ok(())
}

fn rename_channel(
    alloc: Global,
    channel: &mut Channel,
    old: &str,
    new: &str,
) -> Result<(), Memory> {
    let mut ends = replace(&mut channel.end, Series::new(alloc)).into_vec();
    let mut done = Ok(());
    for end in &mut ends {
        if done.is_ok() {
            done = rename_text(alloc, &mut end.pd, old, new);
        }
    }
    channel.end = Series::from_vec(ends);
    done
}

fn rename_channels(
    alloc: Global,
    channels: &mut Vec<Channel>,
    old: &str,
    new: &str,
) -> Result<(), Memory> {
    for channel in channels {
        rename_channel(alloc, channel, old, new)?;
    }
    Ok(())
}

fn rename_clients(alloc: Global, serial: &mut Serial, old: &str, new: &str) -> Result<(), Memory> {
    let mut clients = replace(&mut serial.client, Series::new(alloc)).into_vec();
    let mut done = Ok(());
    for client in &mut clients {
        if done.is_ok() {
            done = rename_text(alloc, &mut client.pd, old, new);
        }
    }
    serial.client = Series::from_vec(clients);
    done
}

fn rename_serial(alloc: Global, serial: &mut Serial, old: &str, new: &str) -> Result<(), Memory> {
    rename_text(alloc, &mut serial.driver, old, new)?;
    rename_text(alloc, &mut serial.rx_virt, old, new)?;
    rename_text(alloc, &mut serial.tx_virt, old, new)?;
    rename_clients(alloc, serial, old, new)
}

/// Gives a domain another name: in the domains, the channels and the serial class. The other
/// classes keep their names.
pub fn rename_domain(alloc: Global, plan: &mut Plan, old: &str, new: &str) -> Result<(), Memory> {
    let mut domains = replace(&mut plan.protection_domain, Series::new(alloc)).into_vec();
    let named = rename_domains(alloc, &mut domains, old, new);
    plan.protection_domain = Series::from_vec(domains);
    let mut channels = replace(&mut plan.channel, Series::new(alloc)).into_vec();
    let ended = rename_channels(alloc, &mut channels, old, new);
    plan.channel = Series::from_vec(channels);
    named?;
    ended?;
    match &mut plan.serial {
        Some(serial) => rename_serial(alloc, serial, old, new),
        None => Ok(()),
    }
}
