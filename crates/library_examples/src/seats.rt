//! `seat_wires`: the ends of one actor over shared rings, as the calls of `Wires` by the numbers of
//! the queues.

ghost use Rattle.std.specs.Prelude.{◌≡◌, Some, IfSome};
ghost use Rattle.cargo_core.specs.declared.item.QueueKind.TheVariants as Kind;

use crate::ring::{put_byte, take_entry};
use cargo_core::{Memory, QueueKind};
use seat_wires::Seats;
use spsc_queue::open;
use std::alloc::Global;
use wire_core::{QueueId, Wires};

/// An actor has the consuming end of ring 0 and the producing end of ring 1, and carries a byte
/// from one to the other. The other two ends are another's.
pub fn show_seats(alloc: Global) -> Result<String, Memory> {
    let (ring, mut feed, input) = open(alloc, QueueKind::Byte, 4)?;
    let (other, output, mut drain) = open(alloc, QueueKind::Byte, 4)?;
    put_byte(&mut feed, &ring, 97);
    let rings = vec![in alloc; ring, other]?;
    let mut seats = Seats::new(alloc, &rings);
    if seats.add_consumer(QueueId(0), input).is_err() {
        return Ok(String::from_str(alloc, "no memory\n")?);
    }
    if seats.add_producer(QueueId(1), output).is_err() {
        return Ok(String::from_str(alloc, "no memory\n")?);
    }
    if seats.see(QueueId(0)) && seats.room(QueueId(1)) {
        let (item, body) = seats.take(QueueId(0));
        seats.put(QueueId(1), item, body);
    }
    let came = take_entry(&mut drain, &rings[1]);
    Ok(format!(in alloc; "ring 1 gives {came:?}\n")?)
}
