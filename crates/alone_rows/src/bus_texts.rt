//! The texts of buses.
use cargo_core::Memory;
use std::alloc::Global;

/// Two clients with four and three requests.
pub const SEVEN: &str = "clients 2\ndevice 80\nclaim 0 80\nwrite 0 80 05aabb\nwrite 0 80 05\n\
    read 0 80 2\nread 1 80 1\nclaim 1 81\nread 1 81 1\n";

/// Two clients that claim one device.
pub const CLAIMS: &str = "clients 2\ndevice 80\nclaim 0 80\nclaim 1 80\n";

// Four requests of a client at an address: a claim, two writes and a read between them.
fn add_requests(to: &mut String, client: u64, address: u64) -> Result<(), Memory> {
    write!(to, "claim {client} {address}\n")?;
    write!(to, "write {client} {address} ff0102\n")?;
    write!(to, "read {client} {address} 2\n")?;
    write!(to, "write {client} {address} 05\n")?;
    Ok(())
}

/// Eight clients with 1,024 requests at nine addresses, of which eight have a device.
pub fn busy_text(alloc: Global) -> Result<String, Memory> {
    let mut text = String::from_str(alloc, "clients 8\n")?;
    for device in 0..8u64 {
        let address = 8 + device;
        write!(text, "device {address}\n")?;
    }
    for round in 0..32u64 {
        for client in 0..8u64 {
            add_requests(&mut text, client, 8 + (round + client) % 9)?;
        }
    }
    Ok(text)
}
