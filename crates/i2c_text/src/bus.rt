//! A bus, and what its clients ask for.

use cargo_core::{Bytes, Series};

/// What a client asks for. The first number is the address of a device, from 8 to 119 (those of
/// seven bits that the I2C-bus specification doesn't reserve).
#[derive(Debug, Drop)]
pub enum BusAsk {
    /// That the address be the client's alone.
    Claim(u8),
    /// So many bytes, from 1 to 32, from where the device's pointer stands.
    Read(u8, u8),
    /// To write these bytes, 1 to 32: the first one sets the pointer, the others are stored from
    /// there on.
    Write(u8, Bytes),
}

/// A bus that clients share, each list in the order of the lines.
#[derive(Debug, Drop)]
pub struct Bus {
    /// How many clients there are, from 1 to 8.
    pub clients: u32,
    /// The addresses of the devices.
    pub devices: Bytes,
    /// What each client asks for.
    pub asks: Series<Series<BusAsk>>,
}
