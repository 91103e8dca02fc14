//! Actors that may drop, over queues that hold one entry each: what comes out is exactly what
//! wasn't dropped. A copier and a device stand at four queues whose other ends are worked by hand
//! between their calls, so that each second frame finds a buffer.

ghost use Rattle.std.specs.Prelude.{◌≡◌, ◌<◌, ◌^◌, IfOk, All, length};
ghost use Rattle.cargo_core.specs.Items.{kind_of};
ghost use Rattle.cargo_core.specs.declared.item.QueueKind.TheVariants as Kind;
ghost use Rattle.device_model.specs.Ethernet.Devices.{IsNewDevice};
ghost use Rattle.actor_rows.specs.Standings.{queue};
ghost use Rattle.actor_rows.specs.Sizes.{AreFed, IsInput, IsOutput, CopierStands, DeviceStands};

use crate::alone::{Alone, settle};
use crate::telling::show;
use base_rows::{get_entry, one_or_two, put_in, queues_of};
use cargo_core::{Body, FrameLog, Item, Memory, NetDesc, Page, PoolId, QueueKind};
use device_model::EthDevice;
use net_copier::NetCopier;
use plain_wires::World;
use std::alloc::Global;
use std::io;
use wire_core::QueueId;

/// How many calls a device of these rows makes at most until it has used up one frame more.
const ENOUGH: u32 = 60;

// Four queues of one entry each, with nothing in them.
fn rings(alloc: Global) -> Result<World, Memory>
    ensures { IfOk result AreFed }
{
    queues_of(alloc, QueueKind::Net, 4, one_or_two(false))
}

// A buffer of eight bytes, of which this is the first.
fn page(alloc: Global, byte: u8) -> Result<Page, Memory>
    ensures { IfOk result (λ p. length p.bytes ≡ 8) }
{
    let mut page = Page::new(alloc, PoolId(0), 0, 8)?;
    page.fill(0, &[byte]);
    Ok(page)
}

fn descriptor(len: u16) -> Item
    ensures { kind_of result ≡ Kind.Net }
{
    Item::Net(NetDesc { addr: 0, len })
}

// The first byte of an entry's page.
fn byte_of(entry: &Option<(Item, Body)>) -> Option<u8> {
    match entry {
        Some((_, Body::Page(page))) if !page.bytes().is_empty() => Some(page.bytes()[0]),
        _ => None,
    }
}

// The hand puts an entry; then the copier has time to be at rest; false where there is no room.
fn lend(copier: &mut NetCopier, world: &mut World, q: QueueId, item: Item, body: Body) -> bool
    requires stands { CopierStands world.old copier.old }
    requires input { IsInput q.0 }
    requires kind { kind_of item ≡ Kind.Net }
    ensures { CopierStands world.new copier.new }
{
    let given = put_in(world, q, item, body);
    settle(copier, world);
    given
}

// The hand takes an entry; then the copier has time to be at rest.
fn fetch(copier: &mut NetCopier, world: &mut World, q: QueueId) -> Option<(Item, Body)>
    requires stands { CopierStands world.old copier.old }
    requires output { IsOutput q.0 }
    ensures { CopierStands world.new copier.new }
{
    let got = get_entry(world, q);
    settle(copier, world);
    got
}

// The copier is lent a frame of one byte, with a buffer for it or none, and gives the lease back;
// what it copied, if anything.
fn copied(
    alloc: Global,
    copier: &mut NetCopier,
    world: &mut World,
    byte: u8,
    buffer: bool,
) -> Result<Option<u8>, Memory>
    requires { CopierStands world.old copier.old }
    ensures { CopierStands world.new copier.new }
{
    if buffer {
        let empty = Body::Page(page(alloc, 0)?);
        lend(copier, world, QueueId(2), descriptor(0), empty);
    }
    let lease = Body::Lease(page(alloc, byte)?.lease(1)?);
    lend(copier, world, QueueId(0), descriptor(1), lease);
    fetch(copier, world, QueueId(1));
    let out = fetch(copier, world, QueueId(3));
    Ok(byte_of(&out))
}

// A copier that drops, in its start state at these queues.
fn copying(alloc: Global) -> Result<(World, NetCopier), Memory>
    ensures { IfOk result (λ p. CopierStands p.0 p.1) }
{
    let wires = rings(alloc)?;
    let copier = NetCopier::new(QueueId(0), QueueId(1), QueueId(3), QueueId(2), true);
    Ok((wires, copier))
}

fn a_copier_that_drops_copies_each_frame_that_has_a_buffer(alloc: Global) -> Result<bool, Memory> {
    let (mut wires, mut copier) = copying(alloc)?;
    let first = copied(alloc, &mut copier, &mut wires, 1, false)?;
    let second = copied(alloc, &mut copier, &mut wires, 2, true)?;
    let third = copied(alloc, &mut copier, &mut wires, 3, false)?;
    let fourth = copied(alloc, &mut copier, &mut wires, 4, true)?;
    let each = first.is_none() && second == Some(2) && third.is_none() && fourth == Some(4);
    Ok(each && copier.lease.is_none() && copier.at_rest())
}

// A device that drops, with four frames of one byte each.
fn device(alloc: Global) -> Result<EthDevice, Memory>
    ensures new { IfOk result
        (λ d. IsNewDevice (queue 0) (queue 1) (queue 2) (queue 3) d.frames d.drops d) }
    ensures short { IfOk result (λ d. All (λ frame. length frame < 2 ^ 16) d.frames) }
{
    let mut frames = FrameLog::new(alloc);
    frames.push(&[1])?;
    frames.push(&[2])?;
    frames.push(&[3])?;
    frames.push(&[4])?;
    Ok(EthDevice::new(
        alloc,
        QueueId(0),
        QueueId(1),
        QueueId(2),
        QueueId(3),
        frames,
        true,
    ))
}

// That device at these queues.
fn dropping(alloc: Global) -> Result<(World, EthDevice), Memory>
    ensures { IfOk result (λ p. DeviceStands p.0 p.1) }
{
    let wires = rings(alloc)?;
    let device = device(alloc)?;
    Ok((wires, device))
}

// A buffer with nothing in it.
fn blank(alloc: Global) -> Result<Body, Memory> {
    Ok(Body::Page(page(alloc, 0)?))
}

// The hand gives the device a buffer; false where there is no room.
fn supply(device: &EthDevice, world: &mut World, body: Body) -> bool
    requires { DeviceStands world.old device.now }
    ensures { DeviceStands world.new device.now }
{
    put_in(world, QueueId(0), descriptor(0), body)
}

// The device has time to use up one frame more, but none after that.
fn use_up(device: &mut EthDevice, world: &mut World)
    requires { DeviceStands world.old device.old }
    ensures { DeviceStands world.new device.new }
{
    let used = device.next;
    for _call in 0..ENOUGH {
        if device.next == used {
            device.call(world);
        }
    }
}

// The first byte of the next frame that the device received, if any.
fn received(device: &EthDevice, world: &mut World) -> Option<u8>
    requires { DeviceStands world.old device.now }
    ensures { DeviceStands world.new device.now }
{
    let got = get_entry(world, QueueId(1));
    byte_of(&got)
}

fn a_device_that_drops_fills_each_frame_that_has_a_buffer(alloc: Global) -> Result<bool, Memory> {
    let (mut wires, mut device) = dropping(alloc)?;
    let first = blank(alloc)?;
    let again = blank(alloc)?;
    use_up(&mut device, &mut wires);
    let mut right = supply(&device, &mut wires, first);
    use_up(&mut device, &mut wires);
    use_up(&mut device, &mut wires);
    right = (received(&device, &mut wires) == Some(2)) & right;
    right = supply(&device, &mut wires, again) & right;
    use_up(&mut device, &mut wires);
    settle(&mut device, &mut wires);
    right = (received(&device, &mut wires) == Some(4)) & right;
    Ok(right && device.next == 4 && device.at_rest())
}

/// Prints the rows of actors that drop.
pub fn print_drops(rt: &HostRuntime) -> io::Result<()> {
    let alloc = rt.alloc();
    let copier = a_copier_that_drops_copies_each_frame_that_has_a_buffer(alloc);
    show(
        rt,
        "a copier that drops copies each frame that has a buffer",
        copier,
    )?;
    let device = a_device_that_drops_fills_each_frame_that_has_a_buffer(alloc);
    show(
        rt,
        "a device that drops fills each frame that has a buffer",
        device,
    )
}
