//! Short examples of the libraries that are taken by themselves: each module makes the main calls
//! of one library, and gives what they come to as a text, which is printed here. The module
//! `class_example` is a class of one's own over the player, with its theorem.
#![tactic(auto)]

mod class_example;
mod classes;
mod discipline;
mod ring;
mod seats;
mod world;

use cargo_core::Memory;
use classes::show_class;
use discipline::show_discipline;
use ring::show_ring;
use seats::show_seats;
use std::io;
use world::show_world;

// Prints an example under the name of its library.
fn print(rt: &HostRuntime, name: &str, text: Result<String, Memory>) -> io::Result<()> {
    println!(rt; "# {name}")?;
    match text {
        Ok(text) => rt.print(text.as_str()),
        Err(_) => rt.println("no memory"),
    }
}

fn main(rt: HostRuntime) -> io::Result<()> {
    let alloc = rt.alloc();
    print(&rt, "spsc_queue", show_ring(alloc))?;
    print(&rt, "seat_wires", show_seats(alloc))?;
    print(&rt, "plain_wires", show_world(alloc))?;
    print(&rt, "turn_kit", show_discipline(alloc))?;
    print(&rt, "small_system", show_class(alloc))
}
