//! Actors in their start state: the queues at which they stand, and what they have in hand.
use crate::telling::show;
use cargo_core::{FrameLog, Memory, PoolId};
use client_programs::BlkClient;
use device_model::EthDevice;
use eth_driver::EthDriver;
use net_copier::NetCopier;
use std::alloc::Global;
use std::io;
use turn_kit::Pipe;
use wire_core::QueueId;

// A driver between the queues 0 to 3 of the device and the queues 4 to 7 of the network.
fn driver() -> EthDriver {
    EthDriver::new(
        [QueueId(0), QueueId(1), QueueId(2), QueueId(3)],
        [QueueId(5), QueueId(4), QueueId(6), QueueId(7)],
    )
}

// Whether a pipe leads from a queue to another.
fn leads(pipe: &Pipe, from: u16, to: u16) -> bool {
    pipe.input.queue == QueueId(from) && pipe.output.queue == QueueId(to)
}

fn each_pair_of_queues_has_its_pipe() -> bool {
    let made = driver();
    let pipes = &made.driver.pipes;
    leads(&pipes.first, 5, 0)
        && leads(&pipes.rest.first, 1, 4)
        && leads(&pipes.rest.rest.first, 6, 2)
        && leads(&pipes.rest.rest.rest, 3, 7)
}

fn a_new_copier_waits_for_a_lease_and_has_no_buffer() -> bool {
    let mut copier = NetCopier::new(QueueId(0), QueueId(1), QueueId(2), QueueId(3), false);
    let waits = !copier.at_rest() && copier.held(PoolId(0)) == 0;
    copier.forget();
    waits && copier.lease_output.queue == QueueId(1) && copier.buffer_output.queue == QueueId(2)
}

// A device with one frame.
fn device(alloc: Global) -> Result<EthDevice, Memory> {
    let mut frames = FrameLog::new(alloc);
    frames.push(b"fourteen bytes")?;
    Ok(EthDevice::new(
        alloc,
        QueueId(0),
        QueueId(1),
        QueueId(2),
        QueueId(3),
        frames,
        false,
    ))
}

fn a_new_device_has_no_buffer_and_an_empty_wire(alloc: Global) -> Result<bool, Memory> {
    let mut device = device(alloc)?;
    let empty = device.held(PoolId(0)) == 0 && device.wire().is_empty() && !device.at_rest();
    device.forget();
    Ok(empty && device.active.queue == QueueId(1))
}

fn a_new_client_asks_first_and_recorded_nothing(alloc: Global) -> bool {
    let pages = Vec::new(alloc);
    let script = Vec::new(alloc);
    let mut client = BlkClient::new(alloc, QueueId(0), QueueId(1), pages, script);
    let nothing = client.replies().is_empty() && !client.at_rest();
    client.forget();
    nothing && client.requests.queue == QueueId(0)
}

/// Prints the rows of start states.
pub fn print_starts(rt: &HostRuntime) -> io::Result<()> {
    let alloc = rt.alloc();
    let pipes = Ok(each_pair_of_queues_has_its_pipe());
    show(rt, "each pair of queues has its pipe", pipes)?;
    let copier = Ok(a_new_copier_waits_for_a_lease_and_has_no_buffer());
    show(
        rt,
        "a new copier waits for a lease and has no buffer",
        copier,
    )?;
    let device = a_new_device_has_no_buffer_and_an_empty_wire(alloc);
    show(rt, "a new device has no buffer and an empty wire", device)?;
    let client = Ok(a_new_client_asks_first_and_recorded_nothing(alloc));
    show(rt, "a new client asks first and recorded nothing", client)
}
