//! The network's receiving virtualiser: for whom a frame is, and its start state.
use crate::telling::show;
use cargo_core::Memory;
use frame_core::Mac;
use net_virt_rx::{NetVirtRx, Receivers};
use std::alloc::Global;
use std::io;
use wire_core::QueueId;

/// The addresses of two clients.
const MACS: [Mac; 2] = [Mac([2, 0, 0, 0, 0, 1]), Mac([2, 0, 0, 0, 0, 2])];

fn a_broadcast_frame_is_for_each_client(alloc: Global) -> Result<bool, Memory> {
    let mut receivers = Receivers::new(alloc, 2)?;
    receivers.address(
        &MACS,
        &[255, 255, 255, 255, 255, 255, 2, 0, 0, 0, 0, 0x99, 8, 0],
    );
    let both = receivers.count() == 2;
    receivers.remove(0);
    let second = !receivers.has(0) && receivers.has(1);
    receivers.address(&MACS, &[2, 0, 0, 0, 0, 0x63, 2, 0, 0, 0, 0, 0x99, 8, 0]);
    Ok(both && second && receivers.count() == 0)
}

fn a_new_virtualiser_lends_nothing(alloc: Global) -> Result<bool, Memory> {
    let clients = Vec::new(alloc);
    let pages = Vec::new(alloc);
    let mut virtualiser = NetVirtRx::new(alloc, QueueId(0), QueueId(1), clients, pages, 0)?;
    let nothing = virtualiser.lent() == 0;
    virtualiser.forget();
    Ok(nothing && virtualiser.ends.input.queue == QueueId(0))
}

/// Prints the rows of the receiving virtualiser.
pub fn print_receiving(rt: &HostRuntime) -> io::Result<()> {
    let alloc = rt.alloc();
    let each = a_broadcast_frame_is_for_each_client(alloc);
    show(rt, "a broadcast frame is for each client", each)?;
    let nothing = a_new_virtualiser_lends_nothing(alloc);
    show(rt, "a new virtualiser lends nothing", nothing)
}
