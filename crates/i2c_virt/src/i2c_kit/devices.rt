//! All devices of a bus.
ghost use Rattle.std.specs.Prelude.{◌≡◌, ◌==◌, length, position, IfOk, OnOk, OnErr};
ghost use Rattle.i2c_virt.specs.I2cKit.Devices.{address_of, answer_of, device_after, AreWhole, new_devices};
ghost use Rattle.i2c_virt.specs.I2cKit.Devices.{devices_answer, devices_after};

use crate::i2c_kit::Device;
use crate::i2c_kit::device::DEVICE_BYTES;
use cargo_core::{Bytes, Memory};
use i2c_text::{BusAsk, BusReply, BusStatus};
use std::alloc::Global;

/// The address that a request names.
pub fn address_of(ask: &BusAsk) -> u8
    ensures { result ≡ address_of ask.now }
{
    match ask {
        BusAsk::Claim(address) | BusAsk::Read(address, _) | BusAsk::Write(address, _) => *address,
    }
}

/// The place of the first device of an address.
pub fn place_of(devices: &[Device], address: u8) -> Option<usize>
    ensures { result ≡ position (λ d. d.address == address) devices.now }
{
    devices.iter().position(|device| device.address == address)
}

/// Devices of zeros at these addresses.
#[tactic(auto, using(crate::proofs::I2cKit::Answering::new_more))]
pub fn new_devices(alloc: Global, addresses: &[u8]) -> Result<Vec<Device>, Memory>
    ensures devices { IfOk result (λ d. d.items ≡ new_devices addresses.now) }
    ensures whole { IfOk result (λ d. AreWhole d.items) }
{
    let mut devices = Vec::with_capacity(alloc, addresses.len())?;
    for address in addresses {
        let device = Device::new(alloc, *address)?;
        devices.push(device)?;
    }
    Ok(devices)
}

// Does what a transfer asks at a device, and gives the bytes that were read.
fn answer_at(alloc: Global, device: &mut Device, ask: &BusAsk) -> Result<Bytes, Memory>
    requires { length device.old.bytes ≡ DEVICE_BYTES }
    ensures bytes { IfOk result (λ b. b ≡ answer_of device.old ask.now) }
    ensures after { OnOk result (device.new ≡ device_after device.old ask.now) }
    ensures unchanged { OnErr result (device.new ≡ device.old) }
    ensures size { length device.new.bytes ≡ DEVICE_BYTES }
{
    match ask {
        BusAsk::Claim(_) => Ok(Bytes::new(alloc)),
        BusAsk::Read(_, count) => {
            let mut bytes = vec![in alloc; 0u8; usize::from(*count)]?;
            device.read(&mut bytes);
            Ok(Bytes::from_vec(bytes))
        }
        BusAsk::Write(_, bytes) => {
            device.write(bytes.as_slice());
            Ok(Bytes::new(alloc))
        }
    }
}

/// Does what a transfer asks at the device of its address, and gives the reply. After want of memory
/// nothing was done.
pub fn answer(alloc: Global, devices: &mut [Device], ask: &BusAsk) -> Result<BusReply, Memory>
    requires { AreWhole devices.old }
    ensures reply { IfOk result (λ r. r ≡ devices_answer devices.old ask.now) }
    ensures after { OnOk result (devices.new ≡ devices_after devices.old ask.now) }
    ensures unchanged { OnErr result (devices.new ≡ devices.old) }
    ensures whole { AreWhole devices.new }
{
    match place_of(devices, address_of(ask)) {
        None => Ok(BusReply {
            status: BusStatus::NoAck,
            bytes: Bytes::new(alloc),
        }),
        Some(place) => {
            let bytes = answer_at(alloc, &mut devices[place], ask)?;
            Ok(BusReply {
                status: BusStatus::Ok,
                bytes,
            })
        }
    }
}
