//! How the bus does a request on its devices, in the buffer in which it came. It takes no memory.
ghost use Rattle.std.specs.Prelude.{◌≡◌, ◌≤◌, true, is_some, length, take, drop};
ghost use Rattle.i2c_virt.specs.I2cKit.Devices.{AreWhole, answer_of, device_after, devices_after};
ghost use Rattle.i2c_virt.specs.I2cKit.Devices.{devices_answer};
ghost use Rattle.i2c_virt.specs.I2cKit.Entries.{is_bus_request};
ghost use Rattle.i2c_virt.specs.I2cKit.Pages.{suits, asked, head_in, request_in};
ghost use Rattle.i2c_virt.specs.I2cKit.Serving.{answer_to, answered, replied, done};
ghost use Rattle.i2c_virt.specs.I2cKit.Serving.{done_if, reply};

use crate::i2c_kit::Device;
use crate::i2c_kit::device::DEVICE_BYTES;
use crate::i2c_kit::devices::place_of;
use crate::i2c_kit::page::{
    BUFFER_BYTES, DATA, Head, MOST_BYTES, Operation, read_head, write_answer,
};
use cargo_core::{Body, Item, Page};
use i2c_text::BusStatus;

// Does the request of a head and a page at its device. The bytes that were read stand at the
// beginning of `read`, and the result says how many they are.
fn transfer(device: &mut Device, head: Head, page: &[u8], read: &mut [u8]) -> usize
    requires whole { length device.old.bytes ≡ DEVICE_BYTES }
    requires size { length page.now ≡ BUFFER_BYTES }
    requires suits { suits head.operation head.count ≡ true }
    requires room { length read.old ≡ MOST_BYTES }
    ensures within { result ≤ MOST_BYTES }
    ensures bytes { take result read.new ≡ answer_of device.old
        (asked head.operation head.address head.count (drop DATA page.now)) }
    ensures after { device.new ≡ device_after device.old
        (asked head.operation head.address head.count (drop DATA page.now)) }
    ensures size { length device.new.bytes ≡ DEVICE_BYTES }
{
    let count = usize::from(head.count);
    match head.operation {
        Operation::Claim => 0,
        Operation::Read => {
            device.read(&mut read[..count]);
            count
        }
        Operation::Write => {
            device.write(&page[DATA..DATA + count]);
            0
        }
    }
}

// Does the request of a head and a page on these devices: the status of the reply, and how many
// bytes at the beginning of `read` are its bytes.
fn carry_out(devices: &mut [Device], head: Head, page: &[u8], read: &mut [u8]) -> (BusStatus, usize)
    requires whole { AreWhole devices.old }
    requires size { length page.now ≡ BUFFER_BYTES }
    requires suits { suits head.operation head.count ≡ true }
    requires room { length read.old ≡ MOST_BYTES }
    ensures within { result.1 ≤ MOST_BYTES }
    ensures reply { reply result.0 (take result.1 read.new) ≡ devices_answer devices.old
        (asked head.operation head.address head.count (drop DATA page.now)) }
    ensures devices { devices.new ≡ devices_after devices.old
        (asked head.operation head.address head.count (drop DATA page.now)) }
    ensures whole { AreWhole devices.new }
{
    match place_of(devices, head.address) {
        None => (BusStatus::NoAck, 0),
        Some(place) => {
            let count = transfer(&mut devices[place], head, page, read);
            (BusStatus::Ok, count)
        }
    }
}

// Does the request of a head, and answers it in the page that spells it.
fn serve(devices: &mut [Device], head: Head, page: &mut Page)
    requires whole { AreWhole devices.old }
    requires size { length page.old.bytes ≡ BUFFER_BYTES }
    requires suits { suits head.operation head.count ≡ true }
    ensures page { page.new ≡ replied page.old (devices_answer devices.old
        (asked head.operation head.address head.count (drop DATA page.old.bytes))) }
    ensures devices { devices.new ≡ devices_after devices.old
        (asked head.operation head.address head.count (drop DATA page.old.bytes)) }
    ensures whole { AreWhole devices.new }
{
    let mut read = [0u8; MOST_BYTES];
    let (status, count) = carry_out(devices, head, page.bytes(), &mut read);
    write_answer(page, status, &read[..count]);
}

// Does the request that a page spells, and answers it there.
fn answer_page(devices: &mut [Device], page: &mut Page)
    requires whole { AreWhole devices.old }
    requires spelled { is_some (head_in page.old.bytes) ≡ true }
    ensures page { page.new ≡ answered devices.old (request_in page.old.bytes) page.old }
    ensures devices { devices.new ≡ done_if devices.old (request_in page.old.bytes) }
    ensures whole { AreWhole devices.new }
{
    match read_head(page.bytes()) {
        None => unreachable!(),
        Some(head) => serve(devices, head, page),
    }
}

/// Does a request on devices, and answers it in its own buffer.
#[tactic(auto, unfolding(crate::specs::I2cKit::Entries::is_bus_request, crate::specs::I2cKit::Serving::answer_to, crate::specs::I2cKit::Serving::done))]
pub fn answer_to(devices: &mut [Device], entry: (Item, Body)) -> (Item, Body)
    requires whole { AreWhole devices.old }
    requires in_turn { is_bus_request entry ≡ true }
    ensures answer { result ≡ answer_to devices.old entry }
    ensures devices { devices.new ≡ done devices.old entry }
    ensures whole { AreWhole devices.new }
    ensures item { result.0 ≡ entry.0 }
{
    let (item, body) = entry;
    match body {
        Body::Page(mut page) => {
            answer_page(devices, &mut page);
            (item, Body::Page(page))
        }
        Body::Empty | Body::Lease(_) => unreachable!(),
    }
}
