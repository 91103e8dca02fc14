//! The texts of switches.
use cargo_core::Memory;
use std::alloc::Global;

/// How many frames each of eight ports sends.
pub const SENDS: u64 = 128;

/// Two ports, of which the first sends a frame to itself.
pub const TO_ITSELF: &str = "port 02:00:00:00:00:01\nport 02:00:00:00:00:02\n\
    send 0 0200000000010200000000010800\n";

// The ports of addresses that end in the numbers from 1 on.
fn add_ports(to: &mut String, count: u64) -> Result<(), Memory> {
    for port in 0..count {
        write!(to, "port 02:00:00:00:00:0{}\n", port.saturating_add(1))?;
    }
    Ok(())
}

// A frame of a port, with a number in its last byte, to the address that ends in these digits, or
// to all stations.
fn add_send(to: &mut String, sender: u64, target: u64, number: u64) -> Result<(), Memory> {
    write!(to, "send {sender} ")?;
    if target == 8 {
        to.push_str("ffffffffffff")?;
    } else {
        write!(to, "02000000000{}", target.saturating_add(1).min(9))?;
    }
    write!(to, "02000000000{}0800", sender.saturating_add(1))?;
    write!(to, "{:x}{:x}\n", number / 16 % 16, number % 16)?;
    Ok(())
}

/// Three ports: the first two send so many frames to the third.
pub fn two_to_one(alloc: Global, count: u64) -> Result<String, Memory> {
    let mut text = String::new(alloc);
    add_ports(&mut text, 3)?;
    for number in 0..count {
        add_send(&mut text, 0, 2, number)?;
        add_send(&mut text, 1, 2, number)?;
    }
    Ok(text)
}

/// Where frame `number` of each of eight ports goes: to the port of its number modulo 10; 8 is for
/// all stations, and 9 for a station that isn't there.
pub fn target_of(number: u64) -> u64 {
    number % 10
}

/// Eight ports, each with `SENDS` frames.
pub fn busy_text(alloc: Global) -> Result<String, Memory> {
    let mut text = String::new(alloc);
    add_ports(&mut text, 8)?;
    for number in 0..SENDS {
        for sender in 0..8u64 {
            add_send(&mut text, sender, target_of(number), number)?;
        }
    }
    Ok(text)
}
