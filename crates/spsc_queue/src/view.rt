//! What the ends of a ring know: their views of the table, of which the ring rule speaks.
use cargo_core::{Body, Item, QueueKind};
use std::collections::LinkedList;
use wire_core::{Ringer, Waiter};

/// What one end knows. No value of it is made: it stands in proofs alone. It waits on one bell of
/// the ring and rings the other. `noes` counts the looks that answered no.
pub struct Half {
    /// What it sent or took, in order.
    pub entries: LinkedList<(Item, Body)>,
    /// When each of them was put, by the callers' clock.
    pub times: LinkedList<u64>,
    pub kind: QueueKind,
    pub waiter: Waiter,
    pub ringer: Ringer,
    /// The slot that is granted to it, with what it held.
    pub grant: Option<Option<(Item, Body)>>,
    pub noes: u64,
    /// How many entries it may still put, or take, by what it last read of the other end's index.
    pub ahead: u64,
    /// Whether what it stored last to the flag on which it waits was a wish for a notification.
    pub wishes: bool,
    /// How many wishes it stored there.
    pub asks: u64,
    /// How many notifications had been made for it when it last took one, or found none.
    pub woken: u64,
    /// How many wishes the other end had stored when it last took one back.
    pub settled: u64,
    /// How many notifications it made.
    pub rings: u64,
    /// Whether the ring is wild, so that either end may store what it likes in its words.
    pub wild: bool,
    /// Each step on a word that its calls made, the newest first: the word, and what was read or
    /// stored there.
    pub walked: LinkedList<(u64, u64)>,
}

/// What a seat knows, which is the producer's, the consumer's, or both at once. No value of it is
/// made.
pub struct View {
    pub produces: bool,
    pub consumes: bool,
    pub producer: Half,
    pub consumer: Half,
}
