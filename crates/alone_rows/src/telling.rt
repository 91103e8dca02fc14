//! How a row is told.
use cargo_core::Memory;
use std::io;

/// Prints what a row shows, and whether it is so.
pub fn tell(rt: &HostRuntime, name: &str, right: Result<bool, Memory>) -> io::Result<()> {
    match right {
        Ok(true) => println!(rt; "{name}: right"),
        Ok(false) => println!(rt; "{name}: wrong"),
        Err(_) => println!(rt; "{name}: no memory"),
    }
}
