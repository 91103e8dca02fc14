//! Texts of buses: what a good one has, and the first bad line of others. A row of the input is a
//! text, in which `\n` stands for the end of a line and `\r` for a carriage return, or `claims N`,
//! so many lines that claim behind the one that names the client.
use crate::telling::tell;
use cargo_core::Memory;
use i2c_text::{Bus, BusAsk, BusFault, read_bus};
use std::alloc::Global;
use std::io;

// The bus of a text; none where a line is bad.
fn bus_of(alloc: Global, text: &str) -> Result<Option<Bus>, Memory> {
    match read_bus(alloc, text.as_bytes()) {
        Ok(bus) => Ok(Some(bus)),
        Err(BusFault::BadLine(_)) => Ok(None),
        Err(BusFault::Memory(memory)) => Err(memory),
    }
}

// The first bad line of a text; 0 where there is none.
fn bad_line(alloc: Global, text: &str) -> Result<u64, Memory> {
    match read_bus(alloc, text.as_bytes()) {
        Ok(_) => Ok(0),
        Err(BusFault::BadLine(line)) => Ok(line),
        Err(BusFault::Memory(memory)) => Err(memory),
    }
}

// Writes a text with another sign between its parts.
fn join(to: &mut String, text: &str, at: &str, sign: &str) -> Result<(), Memory> {
    let mut is_first = true;
    for part in text.split(at) {
        if !is_first {
            to.push_str(sign)?;
        }
        to.push_str(part)?;
        is_first = false;
    }
    Ok(())
}

// So many lines that claim, after the one that names the client.
fn claims(alloc: Global, count: u32) -> Result<String, Memory> {
    let mut text = String::from_str(alloc, "clients 1\n")?;
    for _line in 0..count {
        text.push_str("claim 0 80\n")?;
    }
    Ok(text)
}

// The text of a row.
fn text_of(alloc: Global, row: &str) -> Result<String, Memory> {
    if let Some(count) = row.strip_prefix("claims ") {
        return claims(alloc, count.parse::<u32>().unwrap_or(0));
    }
    let mut lines = String::new(alloc);
    join(&mut lines, row, "\\n", "\n")?;
    let mut text = String::new(alloc);
    join(&mut text, lines.as_str(), "\\r", "\r")?;
    Ok(text)
}

// The first bad line of the text of a row.
fn bad_line_of(alloc: Global, row: &str) -> Result<u64, Memory> {
    let text = text_of(alloc, row)?;
    bad_line(alloc, text.as_str())
}

/// Prints a row, and the first bad line of its text.
pub fn print_bad_line(rt: &HostRuntime, row: &str) -> io::Result<()> {
    match bad_line_of(rt.alloc(), row) {
        Ok(0) => println!(rt; "no bad line: {row}"),
        Ok(line) => println!(rt; "line {line} is bad: {row}"),
        Err(_) => rt.println("no memory"),
    }
}

// Whether a client's request of a number is to write these bytes at an address.
fn is_write(bus: &Bus, client: usize, at: usize, address: u8, bytes: &[u8]) -> bool {
    if client >= bus.asks.len() || at >= bus.asks.get(client).len() {
        return false;
    }
    match bus.asks.get(client).get(at) {
        BusAsk::Write(a, b) => *a == address && b.as_slice() == bytes,
        _ => false,
    }
}

fn a_bus_has_what_its_lines_say(alloc: Global) -> Result<bool, Memory> {
    let text = "clients 2\ndevice 80\nwrite 1 80 05aabb\ndevice 9\nclaim 0 9\nwrite 1 9 00";
    let Some(bus) = bus_of(alloc, text)? else {
        return Ok(false);
    };
    Ok(
        bus.clients == 2
            && bus.devices.as_slice() == [80, 9].as_slice()
            && bus.asks.len() == 2
            && is_write(&bus, 1, 0, 80, &[5, 0xaa, 0xbb])
            && is_write(&bus, 1, 1, 9, &[0]),
    )
}

/// Prints the row of a good text.
pub fn print_reads(rt: &HostRuntime) -> io::Result<()> {
    let right = a_bus_has_what_its_lines_say(rt.alloc());
    tell(rt, "a bus has what its lines say", right)
}
