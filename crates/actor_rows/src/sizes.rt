//! Frames of 9,014 bytes in buffers of 16,384. Each actor of the network but the sending
//! virtualiser stands alone at four queues, or eight for the driver: what comes to it was put by
//! hand into queues of even number, and what it makes of that is found on the others. A buffer of
//! 4,096 bytes is too short for such a frame, and is left as it is.

ghost use Rattle.std.specs.Prelude.{◌≡◌, ◌<◌, ◌≤◌, ◌^◌, IfOk, All, length};
ghost use Rattle.cargo_core.specs.Items.{kind_of};
ghost use Rattle.cargo_core.specs.declared.item.QueueKind.TheVariants as Kind;
ghost use Rattle.buffer_kit.specs.Pools.{ArePool};
ghost use Rattle.net_copier.specs.Copying.{CopierStandsFor, IsNewCopier};
ghost use Rattle.wire_core.specs.Lists.{nothing_passed};
ghost use Rattle.device_model.specs.Ethernet.Devices.{IsNewDevice};
ghost use Rattle.actor_rows.specs.Standings.{queue};
ghost use Rattle.actor_rows.specs.Sizes.{AreFed, IsInput, IsNewLender, IsNewSource, pool};
ghost use Rattle.actor_rows.specs.Sizes.{AreFedEight, IsNewFour};

use crate::alone::settle;
use crate::telling::show;
use base_rows::{get_entry, one_or_two, put_in, queues_of};
use cargo_core::{Body, FrameLog, Item, Memory, NetDesc, Page, PoolId, QueueKind};
use client_programs::NetClient;
use client_programs::net::NetProgram;
use device_model::EthDevice;
use eth_driver::EthDriver;
use frame_core::Mac;
use net_copier::NetCopier;
use net_virt_rx::{LeaseEnds, NetVirtRx};
use plain_wires::World;
use std::alloc::Global;
use std::io;
use wire_core::QueueId;

/// How many bytes the longest frame has.
const LONGEST: usize = 9_014;

/// How many bytes a buffer has that is long enough, and one that isn't.
const LONG: u32 = 16_384;

const SHORT: u32 = 4_096;

/// The address of the one client.
const OWN: Mac = Mac([2, 0, 0, 0, 0, 1]);

// The longest frame to the client, whose last byte is another than those before it.
fn longest() -> [u8; LONGEST]
    ensures { length result ≡ 9014 }
{
    let mut bytes = [7; LONGEST];
    bytes[..6].copy_from_slice(&OWN.0);
    bytes[LONGEST - 1] = 99;
    bytes
}

// The first sixty bytes of that frame.
fn short_of_it() -> [u8; 60]
    ensures { length result ≡ 60 }
{
    let mut bytes = [7; 60];
    bytes[..6].copy_from_slice(&OWN.0);
    bytes
}

// The bytes of the longest frame.
fn longest_bytes(alloc: Global) -> Result<Vec<u8>, Memory> {
    Ok(longest().to_vec(alloc)?)
}

// The first sixty of them.
fn short_bytes(alloc: Global) -> Result<Vec<u8>, Memory> {
    Ok(short_of_it().to_vec(alloc)?)
}

// So many bytes of a buffer with nothing in it.
fn zeros(alloc: Global, count: usize) -> Result<Vec<u8>, Memory> {
    Ok(vec![in alloc; 0u8; count]?)
}

// Whether a list has one frame, which is the longest.
fn is_longest(log: &FrameLog, bytes: &[u8]) -> bool {
    log.len() == 1 && log.get(0) == bytes
}

// That frame so many times.
fn frames(alloc: Global, count: u8) -> Result<FrameLog, Memory>
    ensures { IfOk result (All (λ frame. length frame < 2 ^ 16)) }
{
    let mut log = FrameLog::new(alloc);
    for _frame in 0..count {
        log.push(&longest())?;
    }
    Ok(log)
}

fn descriptor(addr: u64, len: u16) -> Item
    ensures { kind_of result ≡ Kind.Net }
{
    Item::Net(NetDesc { addr, len })
}

// A buffer of pool 0 with nothing in it.
fn empty(alloc: Global, no: u32, size: u32) -> Result<Page, Memory>
    ensures { IfOk result (λ p. (p.pool ≡ pool) × (p.no ≡ no) × (length p.bytes ≡ size)) }
{
    Page::new(alloc, PoolId(0), no, size)
}

// A long buffer of pool 0 with the longest frame at its front.
fn full(alloc: Global, no: u32) -> Result<Page, Memory>
    ensures { IfOk result (λ p. length p.bytes ≡ 16384) }
{
    let mut page = empty(alloc, no, LONG)?;
    page.fill(0, &longest());
    Ok(page)
}

// An entry's body that is a buffer with nothing in it.
fn empty_body(alloc: Global, no: u32, size: u32) -> Result<Body, Memory> {
    Ok(Body::Page(empty(alloc, no, size)?))
}

// An entry's body that is a long buffer with the longest frame at its front.
fn full_body(alloc: Global, no: u32) -> Result<Body, Memory> {
    Ok(Body::Page(full(alloc, no)?))
}

// An entry's body that is a lease of the longest frame.
fn lent_body(alloc: Global, no: u32) -> Result<Body, Memory> {
    Ok(Body::Lease(full(alloc, no)?.lease(LONGEST)?))
}

// Two bodies that are leases of one such buffer.
fn lent_twice(alloc: Global) -> Result<(Body, Body), Memory> {
    let lent = full(alloc, 0)?.lease(LONGEST)?;
    let again = lent.again()?;
    Ok((Body::Lease(lent), Body::Lease(again)))
}

// An entry's body that is a lease of the first sixty bytes of that frame.
fn short_lent_body(alloc: Global, no: u32) -> Result<Body, Memory> {
    Ok(Body::Lease(full(alloc, no)?.lease(60)?))
}

// A pool of one long buffer.
fn one_buffer(alloc: Global) -> Result<Vec<Page>, Memory>
    ensures few { IfOk result (λ v. length v.items ≡ 1) }
    ensures are_pool { IfOk result (λ v. ArePool 0 pool 16384 v.items) }
{
    let page = empty(alloc, 0, LONG)?;
    let pages = vec![in alloc; page]?;
    Ok(pages)
}

// Four queues of two entries each, with nothing in them.
fn fed(alloc: Global) -> Result<World, Memory>
    ensures { IfOk result AreFed }
{
    queues_of(alloc, QueueKind::Net, 4, one_or_two(true))
}

// Puts an entry into a queue that comes to the actor; false where there is no room.
fn feed(world: &mut World, q: QueueId, addr: u64, len: u16, body: Body) -> bool
    requires fed { AreFed world.old }
    requires input { IsInput q.0 }
    ensures { AreFed world.new }
{
    put_in(world, q, descriptor(addr, len), body)
}

// The next entry of a queue.
fn next(world: &mut World, q: QueueId) -> Option<(Item, Body)>
    requires { q.0 < length world.old }
    ensures { length world.new ≡ length world.old }
{
    get_entry(world, q)
}

// Whether an entry is this one, and these are the first bytes of its page, or all that its lease lets
// one read.
fn is_entry(entry: &Option<(Item, Body)>, item: Item, bytes: &[u8]) -> bool {
    match entry {
        Some((got, Body::Page(page))) => *got == item && page.bytes().starts_with(bytes),
        Some((got, Body::Lease(lease))) => *got == item && lease.bytes() == bytes,
        _ => false,
    }
}

// Whether the next entry of a queue is this one, with these bytes.
fn brings(world: &mut World, q: QueueId, addr: u64, len: u16, bytes: &[u8]) -> bool
    requires { q.0 < length world.old }
    ensures { length world.new ≡ length world.old }
{
    let entry = next(world, q);
    is_entry(&entry, descriptor(addr, len), bytes)
}

// A device that sends and receives at the four queues has time to be at rest.
fn run_device(device: &mut EthDevice, world: &mut World)
    requires fed { AreFed world.old }
    requires new { IsNewDevice (queue 0) (queue 1) (queue 2) (queue 3) device.old.frames
        device.old.drops device.old }
    requires short { All (λ frame. length frame < 2 ^ 16) device.old.frames }
    ensures { length world.new ≡ 4 }
{
    settle(device, world);
}

// A device in its start state with two frames to receive, which drops those for which no buffer is
// free or waits.
fn device(alloc: Global, drops: bool) -> Result<EthDevice, Memory>
    ensures new { IfOk result
        (λ d. IsNewDevice (queue 0) (queue 1) (queue 2) (queue 3) d.frames d.drops d) }
    ensures short { IfOk result (λ d. All (λ frame. length frame < 2 ^ 16) d.frames) }
{
    let frames = frames(alloc, 2)?;
    Ok(EthDevice::new(
        alloc,
        QueueId(0),
        QueueId(1),
        QueueId(2),
        QueueId(3),
        frames,
        drops,
    ))
}

// A device whose first free buffer is short, and which is given a frame to send.
fn a_device_fills_a_long_buffer_and_leaves_a_short_one(alloc: Global) -> Result<bool, Memory> {
    let longest = longest_bytes(alloc)?;
    let zeros = zeros(alloc, 4_096)?;
    let short = empty_body(alloc, 0, SHORT)?;
    let long = empty_body(alloc, 1, LONG)?;
    let sent = full_body(alloc, 2)?;
    let mut device = device(alloc, false)?;
    let mut wires = fed(alloc)?;
    let mut right = feed(&mut wires, QueueId(0), 0, 0, short);
    right = feed(&mut wires, QueueId(0), 16_384, 0, long) & right;
    right = feed(&mut wires, QueueId(2), 32_768, 9_014, sent) & right;
    run_device(&mut device, &mut wires);
    right = brings(&mut wires, QueueId(1), 0, 9_014, &zeros) & right;
    right = brings(&mut wires, QueueId(1), 16_384, 9_014, &longest) & right;
    right = brings(&mut wires, QueueId(3), 32_768, 9_014, &longest) & right;
    Ok(right & is_longest(device.wire(), &longest))
}

// Its two frames are used up, and no buffer is filled.
fn a_device_that_drops_waits_for_no_buffer(alloc: Global) -> Result<bool, Memory> {
    let mut device = device(alloc, true)?;
    let mut wires = fed(alloc)?;
    run_device(&mut device, &mut wires);
    let none = next(&mut wires, QueueId(1)).is_none();
    Ok(none && device.next == 2 && device.at_rest())
}

// The first frame has a buffer, and the second is dropped.
fn a_device_that_drops_fills_the_buffer_that_is_there(alloc: Global) -> Result<bool, Memory> {
    let longest = longest_bytes(alloc)?;
    let long = empty_body(alloc, 1, LONG)?;
    let mut device = device(alloc, true)?;
    let mut wires = fed(alloc)?;
    let mut right = feed(&mut wires, QueueId(0), 16_384, 0, long);
    run_device(&mut device, &mut wires);
    right = brings(&mut wires, QueueId(1), 16_384, 9_014, &longest) & right;
    right = next(&mut wires, QueueId(1)).is_none() & right;
    Ok(right && device.next == 2 && device.load.is_none())
}

// A virtualiser whose one buffer begins at 2^28, and of which the queues 3 and 2 are the client's.
fn lender(alloc: Global) -> Result<NetVirtRx, Memory>
    ensures { IfOk result IsNewLender }
{
    let client = LeaseEnds {
        mac: OWN,
        active: QueueId(3),
        free: QueueId(2),
    };
    let clients = vec![in alloc; client]?;
    let pages = one_buffer(alloc)?;
    let virt = NetVirtRx::new(alloc, QueueId(0), QueueId(1), clients, pages, 0x1000_0000)?;
    Ok(virt)
}

// It has time to be at rest.
fn run_lender(virt: &mut NetVirtRx, world: &mut World)
    requires fed { AreFed world.old }
    requires new { IsNewLender virt.old }
    ensures { length world.new ≡ 4 }
{
    settle(virt, world);
}

fn a_virtualiser_lends_all_of_the_longest_frame(alloc: Global) -> Result<bool, Memory> {
    let longest = longest_bytes(alloc)?;
    let zeros = zeros(alloc, 16_384)?;
    let came = full_body(alloc, 0)?;
    let mut virt = lender(alloc)?;
    let mut wires = fed(alloc)?;
    let mut right = feed(&mut wires, QueueId(0), 0x1000_0000, 9_014, came);
    run_lender(&mut virt, &mut wires);
    right = brings(&mut wires, QueueId(1), 0x1000_0000, 0, &zeros) & right;
    right = brings(&mut wires, QueueId(3), 0, 9_014, &longest) & right;
    Ok(right & (virt.lent() == 1))
}

// A copier between the four queues in its start state.
fn copier(drops: bool) -> NetCopier
    ensures new { IsNewCopier (queue 0) (queue 1) (queue 3) (queue 2) result.drops result }
    ensures stands { CopierStandsFor result nothing_passed }
{
    NetCopier::new(QueueId(0), QueueId(1), QueueId(3), QueueId(2), drops)
}

// A copier between the four queues has time to be at rest.
fn run_copier(copier: &mut NetCopier, world: &mut World)
    requires fed { AreFed world.old }
    requires new { IsNewCopier (queue 0) (queue 1) (queue 3) (queue 2) copier.old.drops
        copier.old }
    requires stands { CopierStandsFor copier.old nothing_passed }
    ensures { length world.new ≡ 4 }
{
    settle(copier, world);
}

// A copier that is lent two frames, and whose first free buffer is short.
fn a_copier_copies_all_of_the_longest_frame(alloc: Global) -> Result<bool, Memory> {
    let longest = longest_bytes(alloc)?;
    let zeros = zeros(alloc, 4_096)?;
    let (lent, again) = lent_twice(alloc)?;
    let short = empty_body(alloc, 0, SHORT)?;
    let long = empty_body(alloc, 1, LONG)?;
    let mut copier = copier(false);
    let mut wires = fed(alloc)?;
    let mut right = feed(&mut wires, QueueId(0), 0, 9_014, lent);
    right = feed(&mut wires, QueueId(0), 0, 9_014, again) & right;
    right = feed(&mut wires, QueueId(2), 0, 0, short) & right;
    right = feed(&mut wires, QueueId(2), 16_384, 0, long) & right;
    run_copier(&mut copier, &mut wires);
    right = brings(&mut wires, QueueId(3), 0, 9_014, &zeros) & right;
    right = brings(&mut wires, QueueId(3), 16_384, 9_014, &longest) & right;
    right = brings(&mut wires, QueueId(1), 0, 9_014, &longest) & right;
    Ok(right)
}

// A copier that drops is lent two frames, one longer than the other, and has no buffer: it gives
// both leases back and copies nothing.
fn a_copier_that_drops_waits_for_no_buffer(alloc: Global) -> Result<bool, Memory> {
    let longest = longest_bytes(alloc)?;
    let sixty = short_bytes(alloc)?;
    let first = lent_body(alloc, 0)?;
    let second = short_lent_body(alloc, 1)?;
    let mut copier = copier(true);
    let mut wires = fed(alloc)?;
    let mut right = feed(&mut wires, QueueId(0), 0, 9_014, first);
    right = feed(&mut wires, QueueId(0), 16_384, 60, second) & right;
    run_copier(&mut copier, &mut wires);
    right = next(&mut wires, QueueId(3)).is_none() & right;
    right = brings(&mut wires, QueueId(1), 0, 9_014, &longest) & right;
    right = brings(&mut wires, QueueId(1), 16_384, 60, &sixty) & right;
    Ok(right)
}

// It has one buffer: the first frame is copied, and the second dropped.
fn a_copier_that_drops_uses_the_buffer_that_is_there(alloc: Global) -> Result<bool, Memory> {
    let longest = longest_bytes(alloc)?;
    let sixty = short_bytes(alloc)?;
    let first = short_lent_body(alloc, 0)?;
    let second = lent_body(alloc, 1)?;
    let long = empty_body(alloc, 2, LONG)?;
    let mut copier = copier(true);
    let mut wires = fed(alloc)?;
    let mut right = feed(&mut wires, QueueId(0), 0, 60, first);
    right = feed(&mut wires, QueueId(0), 16_384, 9_014, second) & right;
    right = feed(&mut wires, QueueId(2), 32_768, 0, long) & right;
    run_copier(&mut copier, &mut wires);
    right = brings(&mut wires, QueueId(3), 32_768, 60, &sixty) & right;
    right = next(&mut wires, QueueId(3)).is_none() & right;
    right = brings(&mut wires, QueueId(1), 0, 60, &sixty) & right;
    right = brings(&mut wires, QueueId(1), 16_384, 9_014, &longest) & right;
    Ok(right)
}

// A client that sends the longest frame and is given it.
fn source(alloc: Global) -> Result<NetClient, Memory>
    ensures { IfOk result IsNewSource }
{
    let pages = one_buffer(alloc)?;
    let spare = one_buffer(alloc)?;
    let script = frames(alloc, 1)?;
    Ok(NetClient::new(
        alloc,
        NetProgram::Source,
        OWN,
        [QueueId(0), QueueId(1)],
        [QueueId(3), QueueId(2)],
        pages,
        spare,
        script,
    ))
}

// It has time to be at rest.
fn run_source(client: &mut NetClient, world: &mut World)
    requires fed { AreFed world.old }
    requires new { IsNewSource client.old }
    ensures { length world.new ≡ 4 }
{
    settle(client, world);
}

fn a_client_sends_and_records_the_longest_frame(alloc: Global) -> Result<bool, Memory> {
    let longest = longest_bytes(alloc)?;
    let zeros = zeros(alloc, 16_384)?;
    let came = full_body(alloc, 0)?;
    let mut client = source(alloc)?;
    let mut wires = fed(alloc)?;
    let mut right = feed(&mut wires, QueueId(0), 0, 9_014, came);
    run_source(&mut client, &mut wires);
    right = brings(&mut wires, QueueId(1), 0, 0, &zeros) & right;
    right = brings(&mut wires, QueueId(1), 0, 9_014, &longest) & right;
    right = brings(&mut wires, QueueId(3), 0, 9_014, &longest) & right;
    Ok(right & is_longest(client.got(), &longest))
}

// Eight queues of two entries each, with nothing in them.
fn eight(alloc: Global) -> Result<World, Memory>
    ensures { IfOk result AreFedEight }
{
    queues_of(alloc, QueueKind::Net, 8, one_or_two(true))
}

// Puts an entry into the queue from which a pipe leads; false where there is no room.
fn feed_pipe(world: &mut World, pipe: u16, addr: u64, len: u16, body: Body) -> bool
    requires fed { AreFedEight world.old }
    requires pipe { pipe < 4 }
    ensures { AreFedEight world.new }
{
    put_in(world, QueueId(2 * pipe), descriptor(addr, len), body)
}

// A driver whose four pipes lead from the queues 0, 2, 4 and 6 to the next ones.
fn driver() -> EthDriver
    ensures { IsNewFour result }
{
    EthDriver::new(
        [QueueId(1), QueueId(2), QueueId(5), QueueId(6)],
        [QueueId(0), QueueId(3), QueueId(4), QueueId(7)],
    )
}

// It has time to be at rest.
fn run_driver(driver: &mut EthDriver, world: &mut World)
    requires fed { AreFedEight world.old }
    requires new { IsNewFour driver.old }
    ensures { length world.new ≡ 8 }
{
    settle(driver, world);
}

fn a_driver_moves_the_longest_frame_with_its_buffer(alloc: Global) -> Result<bool, Memory> {
    let longest = longest_bytes(alloc)?;
    let came = full_body(alloc, 0)?;
    let sent = full_body(alloc, 1)?;
    let mut driver = driver();
    let mut wires = eight(alloc)?;
    let mut right = feed_pipe(&mut wires, 1, 0, 9_014, came);
    right = feed_pipe(&mut wires, 2, 16_384, 9_014, sent) & right;
    run_driver(&mut driver, &mut wires);
    right = brings(&mut wires, QueueId(3), 0, 9_014, &longest) & right;
    right = brings(&mut wires, QueueId(5), 16_384, 9_014, &longest) & right;
    Ok(right)
}

// Prints the rows of devices.
fn print_devices(rt: &HostRuntime) -> io::Result<()> {
    let alloc = rt.alloc();
    let fills = a_device_fills_a_long_buffer_and_leaves_a_short_one(alloc);
    show(
        rt,
        "a device fills a long buffer and leaves a short one",
        fills,
    )?;
    let waits = a_device_that_drops_waits_for_no_buffer(alloc);
    show(rt, "a device that drops waits for no buffer", waits)?;
    let there = a_device_that_drops_fills_the_buffer_that_is_there(alloc);
    show(
        rt,
        "a device that drops fills the buffer that is there",
        there,
    )
}

// Prints the rows of copiers.
fn print_copiers(rt: &HostRuntime) -> io::Result<()> {
    let alloc = rt.alloc();
    let copies = a_copier_copies_all_of_the_longest_frame(alloc);
    show(rt, "a copier copies all of the longest frame", copies)?;
    let waits = a_copier_that_drops_waits_for_no_buffer(alloc);
    show(rt, "a copier that drops waits for no buffer", waits)?;
    let uses = a_copier_that_drops_uses_the_buffer_that_is_there(alloc);
    show(
        rt,
        "a copier that drops uses the buffer that is there",
        uses,
    )
}

/// Prints the rows of the longest frames.
pub fn print_sizes(rt: &HostRuntime) -> io::Result<()> {
    let alloc = rt.alloc();
    print_devices(rt)?;
    let lends = a_virtualiser_lends_all_of_the_longest_frame(alloc);
    show(rt, "a virtualiser lends all of the longest frame", lends)?;
    print_copiers(rt)?;
    let client = a_client_sends_and_records_the_longest_frame(alloc);
    show(rt, "a client sends and records the longest frame", client)?;
    let driver = a_driver_moves_the_longest_frame_with_its_buffer(alloc);
    show(
        rt,
        "a driver moves the longest frame with its buffer",
        driver,
    )
}
