//! Queues, actors, sides, calls and events, by which a journal is written.
use cargo_core::{Item, QueueKind, Text, Word};

/// A queue, by its place among the queues of a layout, counted from 0.
#[derive(Clone, Copy, Debug, PartialEq, Eq)]
pub struct QueueId(pub u16);

/// An actor, by its place among the actors of a layout, counted from 0.
#[derive(Clone, Copy, Debug, PartialEq, Eq)]
pub struct ActorId(pub u16);

/// Which bell of a queue: forward, the consumer waits for entries and the producer rings; backward,
/// the producer waits for room and the consumer rings.
#[derive(Clone, Copy, Debug, PartialEq, Eq)]
pub enum Side {
    Forward,
    Backward,
}

/// What the end that waits on a bell is about. `Busy`: it looks and moves entries. `Asked`: it
/// asked for a notification and has yet to look once more. `Clear`: it asked, looked and saw
/// nothing, and waits. `Off`: it wants no notification. This project's own.
#[derive(Clone, Copy, Debug, PartialEq, Eq)]
pub enum Waiter {
    Busy,
    Asked,
    Clear,
    Off,
}

/// What the end that rings a bell is about. `Free`: nothing. `Put`: it moved an entry and has yet
/// to ask whether a notification is wanted. `Hot`: one is wanted, and the flag stands yet.
/// `Ringing`: the flag is withdrawn, and the notification is due. This project's own.
#[derive(Clone, Copy, Debug, PartialEq, Eq)]
pub enum Ringer {
    Free,
    Put,
    Hot,
    Ringing,
}

/// A call on an end of a queue. `Ask`, `Waive` and `Wanted` stand for request, cancel and require
/// signal of sDDF's net queue header; `Settle` is this project's own (the trait `Wires` says what
/// each does).
#[derive(Clone, Copy, Debug, PartialEq, Eq)]
pub enum Op {
    See,
    Take,
    Put,
    Room,
    Ask(Side),
    Waive(Side),
    Wanted(Side),
    Settle(Side),
    Ring(Side),
    Wake(Side),
    Store(Word, u64),
}

/// What a call answers: `Yes` or `No` where it is a look, `Done` where it only acts.
#[derive(Clone, Copy, Debug, PartialEq, Eq)]
pub enum Answer {
    Done,
    Yes,
    No,
}

/// One call, and what it answered. The item is there exactly for a put and a take.
#[derive(Clone, Copy, Debug, PartialEq, Eq)]
pub struct Event {
    pub op: Op,
    pub queue: QueueId,
    pub answer: Answer,
    pub item: Option<Item>,
}

/// One entry of the journal: who made which call.
#[derive(Clone, Copy, Debug, PartialEq, Eq)]
pub struct Entry {
    pub actor: ActorId,
    pub event: Event,
}

/// A bell of a queue. A flag of `false` says that the waiter wants a notification, one of `true`
/// that it wants none; `pending` says that a notification stands there untaken.
#[derive(Clone, Copy, Debug, PartialEq, Eq)]
pub struct BellState {
    pub flag: bool,
    pub pending: bool,
    pub waiter: Waiter,
    pub ringer: Ringer,
}

/// A queue of a layout: its name, what it carries, how many entries it holds at most, the actors at
/// its two ends, and the memory region in which its words lie, with the offset in bytes. A device's
/// queue has no region.
#[derive(Debug, Drop)]
pub struct QueueRow {
    pub name: Text,
    pub kind: QueueKind,
    pub capacity: u32,
    pub producer: ActorId,
    pub consumer: ActorId,
    pub region: Option<u32>,
    pub offset: u64,
}

/// A pool of buffers of a layout: its name, the memory region in which it lies, the address of its
/// first buffer, how many buffers it has, and how many bytes each of them has.
#[derive(Debug, Drop)]
pub struct PoolRow {
    pub name: Text,
    pub region: u32,
    pub base: u64,
    pub buffers: u32,
    pub size: u32,
}

const _: () = prove!(size_of::<Entry>() <= 72);
