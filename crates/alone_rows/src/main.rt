//! Buses and switches at play, by many seeds, and the parts of a bus. Each row of the input is the
//! text of a bus, whose first bad line is told. Behind these rows each line says of what it names
//! whether it is so, or in how many plays it was; the texts are made here, and what must come of
//! them is counted by plain programs.
#![tactic(auto)]

mod bus_plays;
mod bus_texts;
mod claims;
mod devices;
mod orders;
mod pages;
mod port_plays;
mod port_texts;
mod queues;
mod reads;
mod replies;
mod telling;
mod two_ports;

use bus_plays::bus_lines;
use cargo_core::Memory;
use claims::print_claims;
use devices::print_devices;
use orders::print_orders;
use pages::print_pages;
use port_plays::port_lines;
use queues::print_queues;
use reads::{print_bad_line, print_reads};
use replies::print_replies;
use std::io;
use two_ports::print_two_ports;

// Prints lines.
fn print(rt: &HostRuntime, lines: Result<String, Memory>) -> io::Result<()> {
    match lines {
        Ok(text) => rt.print(text.as_str()),
        Err(_) => rt.println("no memory"),
    }
}

// Prints the rows of the parts of a bus.
fn print_parts(rt: &HostRuntime) -> io::Result<()> {
    print_reads(rt)?;
    print_claims(rt)?;
    print_devices(rt)?;
    print_pages(rt)?;
    print_queues(rt)?;
    print_replies(rt)
}

fn main(rt: HostRuntime) -> io::Result<()> {
    for row in rt.lines(rt.alloc()) {
        print_bad_line(&rt, row?.as_str())?;
    }
    print_parts(&rt)?;
    print_orders(&rt)?;
    print_two_ports(&rt)?;
    print(&rt, bus_lines(rt.alloc()))?;
    print(&rt, port_lines(rt.alloc()))
}
