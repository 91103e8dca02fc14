//! Where the buffers of a bus are after a journal: a replay of it, buffer by buffer.
ghost use Rattle.std.specs.Prelude.{◌≡◌, ◌+◌, ◌*◌, ◌<◌, ◌^◌, ℕ, Bool, false, Some, [], ◌∷◌, List};
ghost use Rattle.std.specs.Prelude.{IfOk, length, replicate, slice_get};
ghost use Rattle.std.specs.Option.{option_and_then, option_map, ForSome};
ghost use Rattle.wire_core.specs.declared.names.QueueRow.{QueueRow};
ghost use Rattle.owner_law.specs.Things.{address_of, buffer_at};
ghost use Rattle.bus_law.specs.BusOwners.Naming.{own_window, shared_windows};
ghost use Rattle.bus_law.specs.BusOwners.Pools.{pool_lines, line_by, table_after, number_in, place_of};
ghost use Rattle.bus_law.specs.BusOwners.Pools.{named_place, into_queue, noted};

use cargo_core::{Census, Code, Item, Memory, Series, Text};
use i2c_virt::i2c_kit::{BUFFER_BYTES, BUFFERS};
use owner_law::pools::spread_law;
use std::alloc::Global;
use wire_core::{Entry, Event, Op};

// The address that an item names.
fn address_of(item: &Item) -> Option<u64>
    ensures { result ≡ address_of item.now }
{
    match item {
        Item::Net(desc) => Some(desc.addr),
        Item::Byte(_) | Item::Resp(_) => None,
        Item::Req(request) => match request.code {
            Code::Read | Code::Write => Some(request.addr),
            Code::Flush | Code::Barrier => None,
        },
    }
}

// The number of the buffer that begins at an address, of a client's two from a base on.
fn number_in(base: u64, address: u64) -> Option<u32>
    requires { base < 2 ^ 32 }
    ensures number { result ≡ number_in base address }
    ensures within { ForSome result (λ number. number < 2) }
{
    let number = address.saturating_sub(base) / BUFFER_BYTES as u64;
    if number < BUFFERS as u64 && base + number * BUFFER_BYTES as u64 == address {
        Some(number as u32)
    } else {
        None
    }
}

// The place of the buffer that begins at an address of a client's own queues.
fn own_place_at(client: u16, address: u64) -> Option<usize>
    ensures place { result
        ≡ option_map place_of (buffer_at (own_window client ∷ []) address) }
    ensures within { ForSome result (λ place. place < 2 * client + 2) }
{
    match number_in(0, address) {
        Some(number) => Some(2 * client as usize + number as usize),
        None => None,
    }
}

// The place of the buffer that begins at an address of the other queues.
fn shared_place_at(clients: u16, address: u64) -> Option<usize>
    requires { clients < 1024 }
    ensures place { result
        ≡ option_map place_of (buffer_at (shared_windows 0 clients) address) }
    ensures within { ForSome result (λ place. place < 2 * clients) }
{
    let place = address / BUFFER_BYTES as u64;
    if place >= 2 * u64::from(clients) {
        return None;
    }
    if place * BUFFER_BYTES as u64 != address {
        return None;
    }
    Some(place as usize)
}

// The place of the buffer that an item at a queue names.
fn named_place(clients: u16, queue: u16, item: &Item) -> Option<usize>
    requires { clients < 1024 }
    ensures place { result ≡ named_place clients queue item.now }
    ensures within { ForSome result (λ place. place < 2 * clients) }
{
    match address_of(item) {
        None => None,
        Some(address) => {
            if queue < 2 * clients {
                own_place_at(queue / 2, address)
            } else if queue < 2 * clients + 4 {
                shared_place_at(clients, address)
            } else {
                None
            }
        }
    }
}

// Whether a call brings its item into a queue, or into a hand.
fn into_queue(op: Op) -> Option<bool>
    ensures { result ≡ into_queue op }
{
    match op {
        Op::Put => Some(true),
        Op::Take => Some(false),
        _ => None,
    }
}

// The place of the buffer that a call moves.
fn moved_place(clients: u16, event: &Event) -> Option<usize>
    requires { clients < 1024 }
    ensures place { result
        ≡ option_and_then (named_place clients event.now.queue.0) event.now.item }
    ensures within { ForSome result (λ place. place < 2 * clients) }
{
    match &event.item {
        Some(item) => named_place(clients, event.queue.0, item),
        None => None,
    }
}

// A call was made: a put brings the buffer of its item into a queue, and a take into a hand.
fn note(queued: &mut [bool], clients: u16, event: &Event)
    requires few { clients < 1024 }
    requires many { length queued.old ≡ 2 * clients }
    ensures { queued.new ≡ noted clients queued.old event.now }
{
    if let Some(to) = into_queue(event.op) {
        if let Some(place) = moved_place(clients, event) {
            queued[place] = to;
        }
    }
}

// The line of a client's pool, by which of its buffers stand in queues.
fn line(alloc: Global, client: u16, first: bool, second: bool) -> Result<Census, Memory>
    ensures { IfOk result (λ line. line ≡ line_by client first second) }
{
    let name = format!(in alloc; "i2c.{client}")?;
    let queues = u32::from(first) + u32::from(second);
    Ok(Census {
        name: Text::new(alloc, name.as_str())?,
        buffers: BUFFERS as u32,
        queues,
        hands: u32::from(!first) + u32::from(!second),
        lent: 0,
    })
}

// The same, where it is known of all buffers.
fn line_in(alloc: Global, client: u16, queued: &[bool]) -> Result<Census, Memory>
    requires { 2 * client + 1 < length queued.now }
    ensures { IfOk result (λ line. (first second : Bool)
        → slice_get queued.now (2 * client) ≡ Some first
        → slice_get queued.now (2 * client + 1) ≡ Some second
        → line ≡ line_by client first second) }
{
    let place = 2 * client as usize;
    line(alloc, client, queued[place], queued[place + 1])
}

// No buffer stands in a queue.
fn none_queued(alloc: Global, count: usize) -> Result<Vec<bool>, Memory>
    ensures { IfOk result (λ queued. queued.items ≡ replicate count false) }
{
    let mut queued = Vec::with_capacity(alloc, count)?;
    for place in 0..count {
        queued.push(false)?;
    }
    Ok(queued)
}

/// Where the buffers of each client of a bus are after a journal: in queues, in hands, or lent. It
/// is the table of owners after it, whatever the journal is.
pub fn bus_pools(alloc: Global, clients: u16, journal: &[Entry]) -> Result<Series<Census>, Memory>
    requires { clients < 1024 }
    ensures { (rows : List QueueRow) → IfOk result
        (λ lines. lines ≡ pool_lines clients (table_after clients rows journal.now)) }
{
    spread_law();
    let mut queued = none_queued(alloc, 2 * clients as usize)?;
    for entry in journal {
        note(&mut queued, clients, &entry.event);
    }
    let mut lines = Vec::with_capacity(alloc, clients as usize)?;
    for client in 0..clients {
        lines.push(line_in(alloc, client, &queued)?)?;
    }
    Ok(Series::from_vec(lines))
}
