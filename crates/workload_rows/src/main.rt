//! Writes generated traces. A row of the input that is a number asks for the trace that it
//! generates; any other row names a file, and asks whether the full example stands there.
#![tactic(auto)]

use std::{fs, io};
use workload::{FULL_EXAMPLE, generate};

// Writes the trace that a number generates.
fn write_trace(rt: &HostRuntime, number: u64) -> io::Result<()> {
    match generate(rt.alloc(), number) {
        Ok(text) => rt.print(text.as_str()),
        Err(_) => rt.println("no memory"),
    }
}

// The answer at a row.
fn row(rt: &HostRuntime, row: &str) -> io::Result<()> {
    if let Ok(number) = row.parse::<u64>() {
        return write_trace(rt, number);
    }
    let text = fs::read_to_string(rt, row)?;
    if text.as_str() == FULL_EXAMPLE {
        rt.println("the full example")
    } else {
        rt.println("another text")
    }
}

fn main(rt: HostRuntime) -> io::Result<()> {
    for line in rt.lines(rt.alloc()) {
        row(&rt, line?.as_str())?;
    }
    Ok(())
}
