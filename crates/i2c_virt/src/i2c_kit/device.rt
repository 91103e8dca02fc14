//! A device of the bus: 256 bytes, and a pointer to one of them.
ghost use Rattle.std.specs.Prelude.{◌≡◌, length, slice_index, slice_set, replicate, IfOk};
ghost use Rattle.i2c_virt.specs.I2cKit.Devices.{next_place, bytes_from, after_read, after_write};
ghost use Rattle.i2c_virt.specs.I2cKit.Devices.{new_device};

use cargo_core::{Bytes, Memory};
use std::alloc::Global;

/// How many bytes a device has.
pub const DEVICE_BYTES: usize = 256;

/// A device, at an address. A read gives the bytes from the pointer on; the first byte of a write
/// sets the pointer, and the others are stored from there on; after the last byte comes the first.
#[derive(Debug, Drop)]
pub struct Device {
    pub address: u8,
    pub bytes: Bytes,
    pub pointer: u8,
}

// The place after a place: after the last one comes the first.
fn next_place(place: u8) -> u8
    ensures { result ≡ next_place place }
{
    place.wrapping_add(1)
}

// So many zeros.
fn zeros(alloc: Global, count: usize) -> Result<Bytes, Memory>
    ensures { IfOk result (λ b. b ≡ replicate count 0) }
{
    let bytes = vec![in alloc; 0u8; count]?;
    Ok(Bytes::from_vec(bytes))
}

impl Device {
    /// A device of zeros, whose pointer is 0.
    pub fn new(alloc: Global, address: u8) -> Result<Device, Memory>
        ensures { IfOk result (λ d. d ≡ new_device address) }
    {
        let bytes = zeros(alloc, DEVICE_BYTES)?;
        Ok(Device {
            address,
            bytes,
            pointer: 0,
        })
    }

    // The byte at the pointer, which moves on.
    fn next(&mut self) -> u8
        requires { length self.old.bytes ≡ DEVICE_BYTES }
        ensures byte { result ≡ slice_index self.old.bytes self.old.pointer }
        ensures after { self.new
            ≡ record self.old { pointer = next_place self.old.pointer } }
    {
        let byte = self.bytes.as_slice()[usize::from(self.pointer)];
        self.pointer = next_place(self.pointer);
        byte
    }

    // Stores a byte at the pointer, which moves on.
    #[tactic(auto, using(crate::proofs::I2cKit::Places::replaced_one))]
    fn store(&mut self, byte: u8)
        requires { length self.old.bytes ≡ DEVICE_BYTES }
        ensures { self.new ≡ record self.old {
          bytes = slice_set self.old.bytes self.old.pointer byte;
          pointer = next_place self.old.pointer;
        } }
    {
        let place = self.pointer;
        self.bytes.replace(usize::from(place), &[byte]);
        self.pointer = next_place(place);
    }

    /// Reads as many bytes as there are places for them.
    pub fn read(&mut self, into: &mut [u8])
        requires { length self.old.bytes ≡ DEVICE_BYTES }
        ensures bytes { into.new
            ≡ bytes_from self.old.bytes self.old.pointer (length into.old) }
        ensures after { self.new ≡ after_read self.old (length into.old) }
    {
        for place in into.iter_mut() {
            *place = self.next();
        }
    }

    /// Writes bytes.
    pub fn write(&mut self, bytes: &[u8])
        requires { length self.old.bytes ≡ DEVICE_BYTES }
        ensures after { self.new ≡ after_write self.old bytes.now }
        ensures size { length self.new.bytes ≡ DEVICE_BYTES }
    {
        let [place, more @ ..] = bytes else {
            return;
        };
        self.pointer = *place;
        for byte in more {
            self.store(*byte);
        }
    }
}
