//! `sddf_top`: the program as one call, over a shelf of texts and a sink, here both in memory.

use cargo_core::Memory;
use sddf_top::{Gate, MemShelf, MemSink, OpenGate, Played, Shelf, serve};
use std::alloc::Global;
use std::rt::Files;
use std::sync::Wait;
use std::thread::Threads;
use std::{fs, io};

/// The status with which `serve` answers words, over a shelf and a sink. It says nothing of what is
/// proved of the answer.
pub fn status_of<R: Threads + Wait + Sync, F: Shelf, G: Gate + Sync>(
    rt: &R,
    alloc: Global,
    words: &[String],
    shelf: &mut F,
    sink: &mut MemSink,
    gate: &G,
) -> u8 {
    let mut played = Played::Nothing;
    let status = serve(rt, alloc, words, shelf, sink, gate, &mut played);
    played.forget();
    status.code()
}

// What was written, but for how many steps it took, and the status.
fn told(alloc: Global, written: &[u8], status: u8) -> Result<String, Memory> {
    let mut text = String::new(alloc);
    for line in std::str::from_utf8(written).unwrap_or("no text").lines() {
        if !line.starts_with("steps ") {
            write!(text, "{line}\n")?;
        }
    }
    write!(text, "status {status}\n")?;
    Ok(text)
}

// Does what the words ask for over a description and a trace, and gives what is written, but for
// how many steps it took, and the status.
fn show_program<R: Threads + Wait + Sync>(
    rt: &R,
    alloc: Global,
    words: &str,
    description: &str,
) -> Result<String, Memory> {
    let mut shelf = MemShelf::new(alloc);
    shelf.add("serial.toml", description.as_bytes())?;
    shelf.add("hello.trace", b"say 0 616263\n")?;
    let mut list = Vec::new(alloc);
    for word in words.split(' ') {
        list.push(String::from_str(alloc, word)?)?;
    }
    let mut sink = MemSink::new(alloc, 1000)?;
    let status = status_of(rt, alloc, &list, &mut shelf, &mut sink, &OpenGate);
    told(alloc, sink.written(), status)
}

// Prints what the words come to with a description.
fn print<R: Threads + Wait + Sync + Print>(
    rt: &R,
    alloc: Global,
    words: &str,
    description: &str,
) -> io::Result<()> {
    rt.println("# sddf_top")?;
    match show_program(rt, alloc, words, description) {
        Ok(text) => rt.print(text.as_str()),
        Err(_) => rt.println("no memory"),
    }
}

/// Prints the example for two calls.
pub fn print_example<R: Threads + Wait + Sync + Files + Print + AllocGlobal>(
    rt: &R,
) -> io::Result<()> {
    let alloc = rt.alloc();
    let text = fs::read_to_string(rt, "serial.toml")?;
    let text = text.as_str();
    print(rt, alloc, "check serial.toml", text)?;
    print(rt, alloc, "play serial.toml hello.trace", text)
}
