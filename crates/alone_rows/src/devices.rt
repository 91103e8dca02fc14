//! A device's 256 bytes, and its pointer.
ghost use Rattle.std.specs.Prelude.{◌≡◌, length, IfOk};

use crate::telling::tell;
use cargo_core::Memory;
use i2c_virt::i2c_kit::Device;
use std::alloc::Global;
use std::io;

fn device(alloc: Global) -> Result<Device, Memory>
    ensures { IfOk result (λ d. length d.bytes ≡ 256) }
{
    Device::new(alloc, 80)
}

fn write(device: &mut Device, bytes: &[u8])
    requires { length device.old.bytes ≡ 256 }
    ensures { length device.new.bytes ≡ 256 }
{
    device.write(bytes);
}

// So many bytes.
fn read(alloc: Global, device: &mut Device, count: usize) -> Result<Vec<u8>, Memory>
    requires { length device.old.bytes ≡ 256 }
    ensures { length device.new.bytes ≡ 256 }
{
    let mut bytes = vec![in alloc; 0u8; count]?;
    device.read(&mut bytes);
    Ok(bytes)
}

// What is stored in a place when the numbers from 1 to 10 were written from the place 250 on.
fn stored_at(place: usize) -> usize {
    match place {
        250..=255 => place - 249,
        0..=3 => place + 7,
        _ => 0,
    }
}

// Whether these are all bytes then.
fn are_stored(bytes: &[u8]) -> bool {
    for (place, byte) in bytes.iter().enumerate() {
        if usize::from(*byte) != stored_at(place) {
            return false;
        }
    }
    bytes.len() == 256
}

fn writes_over_the_end_go_on_at_the_first_byte(alloc: Global) -> Result<bool, Memory> {
    let mut device = device(alloc)?;
    write(&mut device, &[250, 1, 2, 3, 4, 5, 6, 7, 8, 9, 10]);
    write(&mut device, &[0]);
    let all = read(alloc, &mut device, 256)?;
    Ok(are_stored(&all))
}

fn a_read_moves_the_pointer_on(alloc: Global) -> Result<bool, Memory> {
    let mut device = device(alloc)?;
    write(&mut device, &[254, 9, 8, 7]);
    write(&mut device, &[254]);
    let first = read(alloc, &mut device, 2)?;
    let second = read(alloc, &mut device, 2)?;
    Ok(first.as_slice() == [9, 8].as_slice() && second.as_slice() == [7, 0].as_slice())
}

/// Prints the rows of a device.
pub fn print_devices(rt: &HostRuntime) -> io::Result<()> {
    let alloc = rt.alloc();
    let right = writes_over_the_end_go_on_at_the_first_byte(alloc);
    tell(rt, "writes over the end go on at the first byte", right)?;
    tell(
        rt,
        "a read moves the pointer on",
        a_read_moves_the_pointer_on(alloc),
    )
}
