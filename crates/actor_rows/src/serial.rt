//! Each actor stands alone over queues that hold one byte each.

ghost use Rattle.std.specs.Prelude.{◌≡◌, ◌<◌, IfOk, map, length};
ghost use Rattle.serial_virt.specs.Sending.{IsNewTx};
ghost use Rattle.actor_rows.specs.Standings.{DriverStands, RxStands, TxStands, IsNewSharer};
ghost use Rattle.actor_rows.specs.Standings.{eight, queue};

use crate::alone::settle;
use crate::telling::show;
use base_rows::{get, give, one_or_two, queues};
use cargo_core::{Item, Memory};
use plain_wires::World;
use serial_virt::{SerialVirtRx, SerialVirtTx};
use std::alloc::Global;
use std::io;
use uart_driver::UartDriver;
use wire_core::QueueId;

// The queues 1 to 8, one of each client.
fn clients(alloc: Global) -> Result<Vec<QueueId>, Memory>
    ensures { IfOk result (λ qs. qs.items ≡ eight) }
{
    Ok(vec![in alloc;
        QueueId(1),
        QueueId(2),
        QueueId(3),
        QueueId(4),
        QueueId(5),
        QueueId(6),
        QueueId(7),
        QueueId(8),
    ]?)
}

// The clients of these queues, which wait for room, but for that of number 1, which may lose bytes.
fn takers(alloc: Global, loses: bool) -> Result<Vec<(QueueId, bool)>, Memory>
    ensures queues { IfOk result (λ ts. map (λ t. t.0) ts.items ≡ eight) }
    ensures many { IfOk result (λ ts. length ts.items ≡ 8) }
{
    Ok(vec![in alloc;
        (QueueId(1), false),
        (QueueId(2), loses),
        (QueueId(3), false),
        (QueueId(4), false),
        (QueueId(5), false),
        (QueueId(6), false),
        (QueueId(7), false),
        (QueueId(8), false),
    ]?)
}

// Shares out queue 0 between the clients, of which number 1 may lose bytes or not.
fn sharer(alloc: Global, loses: bool) -> Result<SerialVirtRx, Memory>
    ensures { IfOk result IsNewSharer }
{
    let takers = takers(alloc, loses)?;
    let virt = SerialVirtRx::new(alloc, QueueId(0), takers)?;
    Ok(virt)
}

// Merges the clients' queues into queue 0.
fn merger(alloc: Global) -> Result<SerialVirtTx, Memory>
    ensures { IfOk result (λ v. IsNewTx (queue 0) eight v) }
{
    SerialVirtTx::new(alloc, QueueId(0), clients(alloc)?)
}

// Puts a byte to the virtualiser, which then has time to be at rest; false where there is no room.
fn say(virt: &mut SerialVirtRx, world: &mut World, byte: u8) -> bool
    requires { RxStands world.old virt.old }
    ensures { RxStands world.new virt.new }
{
    let given = give(world, QueueId(0), byte);
    settle(virt, world);
    given
}

// What a client finds, if anything; then the virtualiser has time to be at rest.
fn hear(virt: &mut SerialVirtRx, world: &mut World, client: u16) -> Option<Item>
    requires there { client < 8 }
    requires stands { RxStands world.old virt.old }
    ensures { RxStands world.new virt.new }
{
    let got = get(world, QueueId(1 + client));
    settle(virt, world);
    got
}

// A virtualiser in its start state at nine queues of one byte each; client 1 may lose bytes or not.
fn shared(alloc: Global, loses: bool) -> Result<(World, SerialVirtRx), Memory>
    ensures { IfOk result (λ p. RxStands p.0 p.1) }
{
    let wires = queues(alloc, 9, one_or_two(false))?;
    let virt = sharer(alloc, loses)?;
    Ok((wires, virt))
}

// Puts these bytes, one after another; false where there was no room for one.
fn tell(virt: &mut SerialVirtRx, world: &mut World, bytes: &[u8]) -> bool
    requires { RxStands world.old virt.old }
    ensures { RxStands world.new virt.new }
{
    let mut all = true;
    for byte in bytes {
        let given = say(virt, world, *byte);
        all = all && given;
    }
    all
}

// Whether a client finds this byte.
fn hears(virt: &mut SerialVirtRx, world: &mut World, client: u16, byte: u8) -> bool
    requires there { client < 8 }
    requires stands { RxStands world.old virt.old }
    ensures { RxStands world.new virt.new }
{
    hear(virt, world, client) == Some(Item::Byte(byte))
}

// Whether a client finds nothing.
fn hears_nothing(virt: &mut SerialVirtRx, world: &mut World, client: u16) -> bool
    requires there { client < 8 }
    requires stands { RxStands world.old virt.old }
    ensures { RxStands world.new virt.new }
{
    hear(virt, world, client).is_none()
}

// Whether a client finds this byte, or nothing.
fn finds(virt: &mut SerialVirtRx, world: &mut World, client: u16, byte: Option<u8>) -> bool
    requires there { client < 8 }
    requires stands { RxStands world.old virt.old }
    ensures { RxStands world.new virt.new }
{
    match byte {
        Some(byte) => hears(virt, world, client, byte),
        None => hears_nothing(virt, world, client),
    }
}

// What of eight clients this one finds, where the byte is for that one.
fn found_by(client: u16, chosen: u16, byte: u8) -> Option<u8> {
    if client == chosen { Some(byte) } else { None }
}

// Whether of eight clients just this one finds this byte.
fn hears_alone(virt: &mut SerialVirtRx, world: &mut World, chosen: u16, byte: u8) -> bool
    requires { RxStands world.old virt.old }
    ensures { RxStands world.new virt.new }
{
    let mut right = true;
    for client in 0..8u16 {
        right = finds(virt, world, client, found_by(client, chosen, byte)) & right;
    }
    right
}

// The digit of a client.
fn digit_of(client: u16) -> u8 {
    b"01234567"[usize::from(client % 8)]
}

// The letter of a client.
fn letter_of(client: u16) -> u8 {
    b"abcdefgh"[usize::from(client % 8)]
}

fn each_of_eight_clients_gets_its_byte(alloc: Global) -> Result<bool, Memory> {
    let (mut wires, mut virt) = shared(alloc, false)?;
    let mut right = true;
    for client in 0..8u16 {
        let letter = letter_of(client);
        right = tell(&mut virt, &mut wires, &[28, digit_of(client), 13, letter]) & right;
        right = hears_alone(&mut virt, &mut wires, client, letter) & right;
    }
    Ok(right)
}

fn a_byte_waits_until_its_client_has_room(alloc: Global) -> Result<bool, Memory> {
    let (mut wires, mut virt) = shared(alloc, false)?;
    let mut right = tell(&mut virt, &mut wires, b"\x1c1\rh");
    right = hears_nothing(&mut virt, &mut wires, 0) & right;
    right = tell(&mut virt, &mut wires, b"\x1c\x1ci") & right;
    right = !say(&mut virt, &mut wires, b'j') & right;
    right = hears(&mut virt, &mut wires, 1, b'h') & right;
    right = hears(&mut virt, &mut wires, 1, 28) & right;
    right = hears(&mut virt, &mut wires, 1, b'i') & right;
    right = hears_nothing(&mut virt, &mut wires, 1) & right;
    Ok(right & virt.at_rest())
}

// Its queue has one place. What comes while that is taken is lost, and nothing else.
fn a_client_that_may_lose_bytes_gets_those_that_had_room(alloc: Global) -> Result<bool, Memory> {
    let (mut wires, mut virt) = shared(alloc, true)?;
    let mut right = tell(&mut virt, &mut wires, b"\x1c1\rhij");
    right = virt.at_rest() & right;
    right = hears(&mut virt, &mut wires, 1, b'h') & right;
    right = hears_nothing(&mut virt, &mut wires, 1) & right;
    right = tell(&mut virt, &mut wires, b"kl") & right;
    right = hears(&mut virt, &mut wires, 1, b'k') & right;
    right = tell(&mut virt, &mut wires, b"mn") & right;
    right = hears(&mut virt, &mut wires, 1, b'm') & right;
    right = hears_nothing(&mut virt, &mut wires, 1) & right;
    Ok(right)
}

// A client beside it waits for room, and loses nothing.
fn a_client_that_waits_loses_no_byte(alloc: Global) -> Result<bool, Memory> {
    let (mut wires, mut virt) = shared(alloc, true)?;
    let mut right = tell(&mut virt, &mut wires, b"\x1c2\rno");
    right = hears(&mut virt, &mut wires, 2, b'n') & right;
    right = hears(&mut virt, &mut wires, 2, b'o') & right;
    right = hears_nothing(&mut virt, &mut wires, 2) & right;
    Ok(right)
}

// A virtualiser in its start state that merges what comes at eight queues of one byte each.
fn merged(alloc: Global) -> Result<(World, SerialVirtTx), Memory>
    ensures { IfOk result (λ p. TxStands p.0 p.1) }
{
    let wires = queues(alloc, 9, one_or_two(false))?;
    let virt = merger(alloc)?;
    Ok((wires, virt))
}

// A client puts a byte; then the virtualiser has time to be at rest; false where there is no room.
fn offer(virt: &mut SerialVirtTx, world: &mut World, client: u16, byte: u8) -> bool
    requires there { client < 8 }
    requires stands { TxStands world.old virt.old }
    ensures { TxStands world.new virt.new }
{
    let given = give(world, QueueId(1 + client), byte);
    settle(virt, world);
    given
}

// What came out of the virtualiser, if anything; then it has time to be at rest.
fn collect(virt: &mut SerialVirtTx, world: &mut World) -> Option<Item>
    requires { TxStands world.old virt.old }
    ensures { TxStands world.new virt.new }
{
    let got = get(world, QueueId(0));
    settle(virt, world);
    got
}

// Each client offers its letter; whether there was room for it.
fn offer_all(virt: &mut SerialVirtTx, world: &mut World) -> bool
    requires { TxStands world.old virt.old }
    ensures { TxStands world.new virt.new }
{
    let mut right = true;
    for client in 0..8u16 {
        right = offer(virt, world, client, letter_of(client)) & right;
    }
    right
}

// Adds a byte that came out, if any did.
fn add(out: &mut Vec<u8>, got: Option<Item>) -> Result<(), Memory> {
    if let Some(Item::Byte(byte)) = got {
        out.push(byte)?;
    }
    Ok(())
}

// In any order between clients, but each byte once.
fn the_bytes_of_eight_clients_all_come_out(alloc: Global) -> Result<bool, Memory> {
    let (mut wires, mut virt) = merged(alloc)?;
    let right = offer_all(&mut virt, &mut wires);
    let mut out = Vec::new(alloc);
    for _byte in 0..9 {
        add(&mut out, collect(&mut virt, &mut wires))?;
    }
    out.sort()?;
    Ok(right & (out.as_slice() == b"abcdefgh".as_slice()) & virt.at_rest())
}

// A driver in its start state between queues of one byte each, or two.
fn driven(alloc: Global, two: bool) -> Result<(World, UartDriver), Memory>
    ensures { IfOk result (λ p. DriverStands p.0 p.1) }
{
    let wires = queues(alloc, 4, one_or_two(two))?;
    let driver = UartDriver::new(QueueId(0), QueueId(1), QueueId(2), QueueId(3));
    Ok((wires, driver))
}

// Puts a byte to the driver, which then has time to be at rest; false where there is no room.
fn feed(driver: &mut UartDriver, world: &mut World, byte: u8) -> bool
    requires { DriverStands world.old driver.old }
    ensures { DriverStands world.new driver.new }
{
    let given = give(world, QueueId(0), byte);
    settle(driver, world);
    given
}

// What came out of the driver, if anything; then the driver has time to be at rest.
fn drain(driver: &mut UartDriver, world: &mut World) -> Option<Item>
    requires { DriverStands world.old driver.old }
    ensures { DriverStands world.new driver.new }
{
    let got = get(world, QueueId(2));
    settle(driver, world);
    got
}

// Feeds the driver the bytes below 8; whether just the first ones had room.
fn feeds(driver: &mut UartDriver, world: &mut World, fit: u8) -> bool
    requires { DriverStands world.old driver.old }
    ensures { DriverStands world.new driver.new }
{
    let mut right = true;
    for byte in 0..8u8 {
        right = (feed(driver, world, byte) == (byte < fit)) & right;
    }
    right
}

// The byte that comes out at a place, if any does.
fn drained_at(byte: u8, fit: u8) -> Option<Item> {
    if byte < fit {
        Some(Item::Byte(byte))
    } else {
        None
    }
}

// Whether just the first bytes come out, in their order.
fn drains(driver: &mut UartDriver, world: &mut World, fit: u8) -> bool
    requires { DriverStands world.old driver.old }
    ensures { DriverStands world.new driver.new }
{
    let mut right = true;
    for byte in 0..8u8 {
        right = (drain(driver, world) == drained_at(byte, fit)) & right;
    }
    right
}

// Whether so many bytes pass the driver in order.
fn pass(alloc: Global, two: bool, fit: u8) -> Result<bool, Memory> {
    let (mut wires, mut driver) = driven(alloc, two)?;
    let fed = feeds(&mut driver, &mut wires, fit);
    let drained = drains(&mut driver, &mut wires, fit);
    Ok(fed & drained & driver.at_rest())
}

// As many fit as both queues hold, and one more in the driver's hand.
fn bytes_pass_the_driver_in_order(alloc: Global) -> Result<bool, Memory> {
    Ok(pass(alloc, false, 3)? & pass(alloc, true, 5)?)
}

/// Prints the rows of the serial class.
pub fn print_serial(rt: &HostRuntime) -> io::Result<()> {
    let alloc = rt.alloc();
    let each = each_of_eight_clients_gets_its_byte(alloc);
    show(rt, "each of eight clients gets its byte", each)?;
    let waits = a_byte_waits_until_its_client_has_room(alloc);
    show(rt, "a byte waits until its client has room", waits)?;
    let loses = a_client_that_may_lose_bytes_gets_those_that_had_room(alloc);
    show(
        rt,
        "a client that may lose bytes gets those that had room",
        loses,
    )?;
    let keeps = a_client_that_waits_loses_no_byte(alloc);
    show(rt, "a client that waits loses no byte", keeps)?;
    let all = the_bytes_of_eight_clients_all_come_out(alloc);
    show(rt, "the bytes of eight clients all come out", all)?;
    let driver = bytes_pass_the_driver_in_order(alloc);
    show(rt, "bytes pass the driver in order", driver)
}
