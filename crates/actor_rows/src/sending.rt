//! The network's sending virtualiser stands alone over queues that hold two entries each, whose
//! other ends are worked by hand: what a client gets back, and what goes to the driver.

ghost use Rattle.std.specs.Prelude.{◌≡◌, ◌≤◌, IfOk};
ghost use Rattle.cargo_core.specs.declared.item.QueueKind.TheVariants as Kind;
ghost use Rattle.cargo_core.specs.Items.{kind_of};
ghost use Rattle.actor_rows.specs.NetTx.Standings.{IsNewAlone, Stands};

use crate::alone::settle;
use crate::telling::show;
use base_rows::{get, one_or_two, put_in, queues_of};
use cargo_core::{Body, Item, Memory, NetDesc, Page, PoolId, QueueKind, Ranges};
use net_virt_tx::{NetVirtTx, Sender, TxEnds};
use plain_wires::World;
use std::alloc::Global;
use std::io;
use wire_core::QueueId;

// Between the queues 0 and 1 of the driver and the queues 2 and 3 of a client with two buffers of
// this size, where a frame has at most so many bytes.
fn virtualiser(alloc: Global, size: u16, most: u16) -> Result<NetVirtTx, Memory>
    requires { 1 ≤ size }
    ensures { IfOk result (λ v. IsNewAlone size most v) }
{
    let client = TxEnds {
        active: QueueId(2),
        free: QueueId(3),
        pool: PoolId(7),
        buffers: 2,
        base: 8192,
        size: size as u32,
    };
    let mut ranges = Ranges::new(alloc);
    ranges.add(8192, 2 * size as u64)?;
    let clients = vec![in alloc; client]?;
    NetVirtTx::new(alloc, QueueId(0), QueueId(1), clients, ranges, most)
}

// That virtualiser in its start state at its four queues.
fn standing(alloc: Global, size: u16, most: u16) -> Result<(World, NetVirtTx), Memory>
    requires { 1 ≤ size }
    ensures { IfOk result (λ p. Stands p.0 p.1) }
{
    let wires = queues_of(alloc, QueueKind::Net, 4, one_or_two(true))?;
    let virt = virtualiser(alloc, size, most)?;
    Ok((wires, virt))
}

fn descriptor(addr: u64, len: u16) -> Item
    ensures { kind_of result ≡ Kind.Net }
{
    Item::Net(NetDesc { addr, len })
}

// One of the client's buffers, with nothing in it.
fn buffer(alloc: Global, no: u32, size: u16) -> Result<Body, Memory> {
    Ok(Body::Page(Page::new(alloc, PoolId(7), no, size as u32)?))
}

// The client puts a descriptor; then the virtualiser has time to be at rest; false where there is
// no room.
fn send(virt: &mut NetVirtTx, world: &mut World, addr: u64, len: u16, body: Body) -> bool
    requires { Stands world.old virt.old }
    ensures { Stands world.new virt.new }
{
    let given = put_in(world, QueueId(2), descriptor(addr, len), body);
    settle(virt, world);
    given
}

// What the client gets back, if anything; then the virtualiser has time to be at rest.
fn returned(virt: &mut NetVirtTx, world: &mut World) -> Option<Item>
    requires { Stands world.old virt.old }
    ensures { Stands world.new virt.new }
{
    let got = get(world, QueueId(3));
    settle(virt, world);
    got
}

// Whether the client gets this descriptor back.
fn comes_back(virt: &mut NetVirtTx, world: &mut World, addr: u64, len: u16) -> bool
    requires { Stands world.old virt.old }
    ensures { Stands world.new virt.new }
{
    returned(virt, world) == Some(descriptor(addr, len))
}

// What the driver gets, if anything; then the virtualiser has time to be at rest.
fn sent(virt: &mut NetVirtTx, world: &mut World) -> Option<Item>
    requires { Stands world.old virt.old }
    ensures { Stands world.new virt.new }
{
    let got = get(world, QueueId(0));
    settle(virt, world);
    got
}

// Whether the driver gets this descriptor.
fn goes_on(virt: &mut NetVirtTx, world: &mut World, addr: u64, len: u16) -> bool
    requires { Stands world.old virt.old }
    ensures { Stands world.new virt.new }
{
    sent(virt, world) == Some(descriptor(addr, len))
}

// The third bad one waits for room, and the good one behind it.
fn bad_descriptors_go_back_and_a_good_one_goes_on(alloc: Global) -> Result<bool, Memory> {
    let (mut wires, mut virt) = standing(alloc, 2048, 1514)?;
    let first = buffer(alloc, 0, 2048)?;
    let second = buffer(alloc, 1, 2048)?;
    let mut right = send(&mut virt, &mut wires, 1, 14, Body::Empty);
    right = send(&mut virt, &mut wires, 0, 14, Body::Empty) & right;
    right = send(&mut virt, &mut wires, 2048, 13, second) & right;
    right = send(&mut virt, &mut wires, 0, 14, first) & right;
    right = sent(&mut virt, &mut wires).is_none() & right;
    right = comes_back(&mut virt, &mut wires, 1, 14) & right;
    right = goes_on(&mut virt, &mut wires, 8192, 14) & right;
    right = comes_back(&mut virt, &mut wires, 0, 14) & right;
    right = comes_back(&mut virt, &mut wires, 2048, 13) & right;
    right = returned(&mut virt, &mut wires).is_none() & right;
    Ok(right & (virt.bad() == 3) & virt.at_rest())
}

// Whether a descriptor is good at a client whose two buffers have 2,048 bytes.
fn is_good(addr: u64, len: u16, body: Body) -> bool {
    let sender = Sender {
        pool: PoolId(3),
        buffers: 2,
        base: 4096,
        size: 2048,
        most: 1514,
    };
    sender.is_good(&(descriptor(addr, len), body))
}

// The second of these buffers.
fn second(alloc: Global) -> Result<Body, Memory> {
    Ok(Body::Page(Page::new(alloc, PoolId(3), 1, 2048)?))
}

fn a_short_frame_and_a_wrong_offset_are_bad(alloc: Global) -> Result<bool, Memory> {
    let good = is_good(2048, 14, second(alloc)?);
    let short = is_good(2048, 13, second(alloc)?);
    Ok(good && !short && !is_good(1, 14, Body::Empty))
}

// A frame of 9,014 bytes goes on, one of 9,015 goes back, and so does one at the second half of a
// buffer.
fn the_longest_frame_goes_on_in_a_buffer_of_16384_bytes(alloc: Global) -> Result<bool, Memory> {
    let (mut wires, mut virt) = standing(alloc, 16_384, 9_014)?;
    let first = buffer(alloc, 0, 16_384)?;
    let second = buffer(alloc, 1, 16_384)?;
    let mut right = send(&mut virt, &mut wires, 0, 9_015, first);
    right = comes_back(&mut virt, &mut wires, 0, 9_015) & right;
    right = send(&mut virt, &mut wires, 16_384, 9_014, second) & right;
    right = goes_on(&mut virt, &mut wires, 24_576, 9_014) & right;
    right = send(&mut virt, &mut wires, 8_192, 14, Body::Empty) & right;
    right = comes_back(&mut virt, &mut wires, 8_192, 14) & right;
    Ok(right & (virt.bad() == 2) & virt.at_rest())
}

/// Prints the rows of the sending virtualiser.
pub fn print_sending(rt: &HostRuntime) -> io::Result<()> {
    let alloc = rt.alloc();
    let bad = bad_descriptors_go_back_and_a_good_one_goes_on(alloc);
    show(rt, "bad descriptors go back and a good one goes on", bad)?;
    let short = a_short_frame_and_a_wrong_offset_are_bad(alloc);
    show(rt, "a short frame and a wrong offset are bad", short)?;
    let longest = the_longest_frame_goes_on_in_a_buffer_of_16384_bytes(alloc);
    show(
        rt,
        "the longest frame goes on in a buffer of 16384 bytes",
        longest,
    )
}
