//! How fast bytes cross a ring: the words ENTRIES CAPACITY move so many bytes from one thread to
//! another through one ring by looks and moves alone, a third word `bells` moves them in the whole
//! discipline, and `array` moves them through crossbeam's `ArrayQueue` of the same capacity, to
//! compare. It prints how many arrived in order.
#![tactic(auto)]

ghost use Rattle.std.specs.Prelude.{◌≤◌};

mod array;
mod order;

use array::{pop_all, push_all};
use cargo_core::Memory;
use crossbeam_queue::ArrayQueue;
use order::{Order, Way, read_order};
use ring_rows::{byte_ring, send, send_by_bells, take, take_by_bells};
use std::alloc::Global;
use std::process::ExitCode;
use std::sync::Wait;
use std::thread::{Threads, join_mut};
use std::{env, io};

// So many tries before an end gives up.
const TRIES: u64 = 1 << 40;

fn words_of(rt: &HostRuntime) -> io::Result<Vec<String>> {
    let mut words = Vec::new(rt.alloc());
    for word in env::args(rt)?.skip(1) {
        words.push(word)?;
    }
    Ok(words)
}

fn through_the_ring<R: Threads + Sync>(
    rt: &R,
    alloc: Global,
    order: Order,
    with_bells: bool,
    pauses: u32,
) -> Result<u32, Memory>
    requires { order.power ≤ 15 }
{
    let (ring, mut producer, mut consumer) = byte_ring(alloc, order.power)?;
    let entries = order.entries;
    let (_sent, taken) = if with_bells {
        join_mut(
            rt,
            &mut || send_by_bells(&mut producer, &ring, entries, TRIES, pauses),
            &mut || take_by_bells(&mut consumer, &ring, entries, TRIES, pauses),
        )
    } else {
        join_mut(
            rt,
            &mut || send(&mut producer, &ring, entries, TRIES, pauses),
            &mut || take(&mut consumer, &ring, entries, TRIES, pauses),
        )
    };
    Ok(taken)
}

fn through_an_array<R: Threads + Wait + Sync>(
    rt: &R,
    alloc: Global,
    order: Order,
    pauses: u32,
) -> Result<u32, Memory>
    requires { order.power ≤ 15 }
{
    let queue = ArrayQueue::new(alloc, 1 << order.power)?;
    let entries = order.entries;
    let (_sent, taken) = join_mut(
        rt,
        &mut || push_all(rt, &queue, entries, TRIES, pauses),
        &mut || pop_all(rt, &queue, entries, TRIES, pauses),
    );
    Ok(taken)
}

fn arrived<R: Threads + Wait + Sync>(rt: &R, alloc: Global, order: Order) -> Result<u32, Memory>
    requires { order.power ≤ 15 }
{
    let pauses = (1u32 << order.power).min(48);
    match order.way {
        Way::Moves => through_the_ring(rt, alloc, order, false, pauses),
        Way::Bells => through_the_ring(rt, alloc, order, true, pauses),
        Way::Array => through_an_array(rt, alloc, order, pauses),
    }
}

fn main(rt: HostRuntime) -> ExitCode {
    let Ok(words) = words_of(&rt) else {
        return ExitCode::from(1);
    };
    let Some(order) = read_order(&words) else {
        return ExitCode::from(2);
    };
    let Ok(taken) = arrived(&rt, rt.alloc(), order) else {
        return ExitCode::from(1);
    };
    match println!(rt; "{taken} arrived in order") {
        Ok(()) => ExitCode::from(0),
        Err(_) => ExitCode::from(1),
    }
}
