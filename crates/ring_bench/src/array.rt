//! The same bytes through crossbeam's `ArrayQueue`, as the kit ports it: what the ring is compared
//! with. Any thread may push there and any pop, and it has no bells.
ghost use Rattle.std.specs.Prelude.{◌≤◌};

use cargo_core::{Body, Item};
use crossbeam_queue::ArrayQueue;
use ring_rows::pause;
use std::sync::Wait;

// Pushes so many bytes, the number of each modulo 251, and tries again after each no, up to so many
// times in all, with so many pauses of the processor behind each no: how many were pushed.
pub(crate) fn push_all<R: Wait>(
    rt: &R,
    queue: &ArrayQueue<(Item, Body)>,
    count: u32,
    tries: u64,
    pauses: u32,
) -> u32
    ensures { result ≤ count }
{
    let mut sent = 0;
    for _try in 0..tries {
        if sent >= count {
            break;
        }
        let entry = (Item::Byte((sent % 251) as u8), Body::Empty);
        if queue.push(rt, entry).is_ok() {
            sent += 1;
        } else {
            pause(pauses);
        }
    }
    sent
}

// Pops so many of those bytes, and tries again after each no, up to so many times in all: how many
// came in order.
pub(crate) fn pop_all<R: Wait>(
    rt: &R,
    queue: &ArrayQueue<(Item, Body)>,
    count: u32,
    tries: u64,
    pauses: u32,
) -> u32
    ensures { result ≤ count }
{
    let mut taken = 0;
    for _try in 0..tries {
        if taken >= count {
            break;
        }
        if let Some((item, _body)) = queue.pop(rt) {
            if item != Item::Byte((taken % 251) as u8) {
                break;
            }
            taken += 1;
        } else {
            pause(pauses);
        }
    }
    taken
}
