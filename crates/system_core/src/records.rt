//! What the actors of a class recorded: its device for its line or its wire, and each client.
ghost use Rattle.std.specs.Prelude.{◌≡◌, List, map, IfOk, slice_get, Some, []};
ghost use Rattle.std.specs.Option.{option_map};
ghost use Rattle.actor_set.specs.Laws.Records.{record_of, frames_got, replies_got};
ghost use Rattle.system_core.specs.States.{record_from, frames_from, replies_from};

use actor_set::Actor;
use cargo_core::{Bytes, FrameLog, Memory, Reply, Series};
use cast_core::copied_frames;
use std::alloc::Global;

// What an actor sent on its line, or recorded.
fn record_of(actor: &Actor) -> &[u8]
    ensures { result.now ≡ record_of actor.now }
{
    match actor {
        Actor::UartDevice(device) => device.line(),
        Actor::SerialClient(client) => client.got(),
        _ => &[],
    }
}

// What the actor at a place sent on its line, or recorded.
fn record_from(actors: &[Actor], place: u16) -> &[u8]
    ensures { result.now ≡ record_from actors.now place }
{
    match actors.get(place as usize) {
        Some(actor) => record_of(actor),
        None => &[],
    }
}

/// What was sent on the line of a device.
pub fn line(alloc: Global, actors: &[Actor], device: Option<u16>) -> Result<Option<Bytes>, Memory>
    ensures { IfOk result (λ l. l ≡ option_map (record_from actors.now) device) }
{
    match device {
        Some(place) => Ok(Some(Bytes::from_slice(alloc, record_from(actors, place))?)),
        None => Ok(None),
    }
}

/// What each of these actors recorded.
pub fn records(alloc: Global, actors: &[Actor], clients: &[u16]) -> Result<Series<Bytes>, Memory>
    ensures { IfOk result (λ rs. rs ≡ map (record_from actors.now) clients.now) }
{
    let mut records = Series::new(alloc);
    for client in clients {
        records.push(Bytes::from_slice(alloc, record_from(actors, *client))?)?;
    }
    Ok(records)
}

// The frames that an actor sent on its wire, or recorded.
fn frames_got(alloc: Global, actor: &Actor) -> Result<FrameLog, Memory>
    ensures { IfOk result (λ l. l ≡ frames_got actor.now) }
{
    match actor {
        Actor::EthDevice(device) => copied_frames(alloc, device.wire()),
        Actor::NetClient(client) => copied_frames(alloc, client.got()),
        _ => Ok(FrameLog::new(alloc)),
    }
}

// The frames that the actor at a place sent on its wire, or recorded.
fn frames_from(alloc: Global, actors: &[Actor], place: u16) -> Result<FrameLog, Memory>
    ensures { IfOk result (λ l. l ≡ frames_from actors.now place) }
{
    match actors.get(place as usize) {
        Some(actor) => frames_got(alloc, actor),
        None => Ok(FrameLog::new(alloc)),
    }
}

/// The frames that were sent on the wire of a device.
pub fn wire(
    alloc: Global,
    actors: &[Actor],
    device: Option<u16>,
) -> Result<Option<FrameLog>, Memory>
    ensures { IfOk result (λ l. l ≡ option_map (frames_from actors.now) device) }
{
    match device {
        Some(place) => Ok(Some(frames_from(alloc, actors, place)?)),
        None => Ok(None),
    }
}

/// The frames that each of these actors recorded.
pub fn frame_records(
    alloc: Global,
    actors: &[Actor],
    clients: &[u16],
) -> Result<Series<FrameLog>, Memory>
    ensures { IfOk result (λ rs. rs ≡ map (frames_from actors.now) clients.now) }
{
    let mut records = Series::new(alloc);
    for client in clients {
        records.push(frames_from(alloc, actors, *client)?)?;
    }
    Ok(records)
}

// Copies of replies.
fn reply_copies(alloc: Global, replies: &[Reply]) -> Result<Series<Reply>, Memory>
    ensures { IfOk result (λ rs. rs ≡ replies.now) }
{
    let mut copies = Series::new(alloc);
    for reply in replies {
        let bytes = Bytes::from_slice(alloc, reply.bytes.as_slice())?;
        copies.push(Reply {
            resp: reply.resp,
            bytes,
        })?;
    }
    Ok(copies)
}

// The replies that an actor recorded.
fn replies_got(alloc: Global, actor: &Actor) -> Result<Series<Reply>, Memory>
    ensures { IfOk result (λ rs. rs ≡ replies_got actor.now) }
{
    match actor {
        Actor::BlkClient(client) => reply_copies(alloc, client.replies()),
        _ => Ok(Series::new(alloc)),
    }
}

// The replies that the actor at a place recorded.
fn replies_from(alloc: Global, actors: &[Actor], place: u16) -> Result<Series<Reply>, Memory>
    ensures { IfOk result (λ rs. rs ≡ replies_from actors.now place) }
{
    match actors.get(place as usize) {
        Some(actor) => replies_got(alloc, actor),
        None => Ok(Series::new(alloc)),
    }
}

/// The replies that each of these actors recorded.
pub fn replies(
    alloc: Global,
    actors: &[Actor],
    clients: &[u16],
) -> Result<Series<Series<Reply>>, Memory>
    ensures { IfOk result (λ rs. rs ≡ map (replies_from actors.now) clients.now) }
{
    let mut records = Series::new(alloc);
    for client in clients {
        records.push(replies_from(alloc, actors, *client)?)?;
    }
    Ok(records)
}
