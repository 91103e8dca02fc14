//! A hostile client, which plays its acts in their order and keeps no promise of a client. It looks
//! before it moves an entry, since no end lets it do otherwise, and makes no other call but stores.
//! Its acts are this project's own.
ghost use Rattle.std.specs.Prelude.{◌≡◌, ◌<◌, ◌≤◌, ◌+◌, ◌^◌, true, false, length, drop, All, IfOk};
ghost use Rattle.std.specs.Prelude.{vec_len, vec_capacity, map, ℕ};
ghost use Rattle.cargo_core.specs.declared.act.Act.TheVariants as Acts;
ghost use Rattle.cargo_core.specs.Bodies.{buffers_of};
ghost use Rattle.wire_core.specs.Ends.{Role, End};
ghost use Rattle.wire_core.specs.Lists.{Passed, nothing_passed};
ghost use Rattle.buffer_kit.specs.Pools.{page_bodies};
ghost use Rattle.client_programs.specs.Rogue.Acts.{next_acts, is_done, queue_of};
ghost use Rattle.client_programs.specs.Rogue.Clients.{FitsRogue, RogueStandsFor, RogueStepped};
ghost use Rattle.client_programs.specs.Rogue.Clients.{IsAt, IsPutting, IsRogue, IsNewRogue};
ghost use Rattle.client_programs.specs.Rogue.Clients.{HasForgotten, IsActOf, AreApart, can_put};
ghost use Rattle.client_programs.specs.Rogue.Clients.{numbers, left_of, ends_of};

mod calls;
mod laws;

use calls::{answer_of, held_of, item_for, kept_pages, makes_call, place_after};
use cargo_core::{Act, Body, Memory, Page, PoolId, QueueKind, Word};
pub use laws::{act_law, hand_law};
use std::alloc::Global;
use std::snapshot::Snapshot;
use wire_core::{Answer, Event, Op, QueueId, WildWires};

/// A hostile client. `kind` is the kind of its outputs, `next` the place of the first act that is
/// left, and `looked` says that the look of the act in hand answered yes. `kept` has the bodies
/// that it keeps: its pages, and then those of what it took. `first` and `had` are the place of the
/// act and the number of kept entries with which its journal began. The pages that it had at the
/// start stand beside it in proofs alone.
#[derive(Drop)]
pub struct Rogue {
    pub kind: QueueKind,
    pub inputs: Vec<QueueId>,
    pub outputs: Vec<QueueId>,
    pub acts: Vec<Act>,
    pub next: usize,
    pub looked: bool,
    pub kept: Vec<Body>,
    pub first: usize,
    pub had: usize,
    pub start: Snapshot<Vec<Page>>,
}

impl Rogue {
    /// A hostile client in its start state, which puts entries of this kind. `inputs` are the
    /// queues from which it may take and `outputs` those to which it may put; `pages` are its
    /// buffers, those for receiving first. The room for all that it may keep is taken here. Memory
    /// is the answer for want of memory alone.
    pub fn new(
        alloc: Global,
        kind: QueueKind,
        inputs: Vec<QueueId>,
        outputs: Vec<QueueId>,
        pages: Vec<Page>,
        acts: Vec<Act>,
    ) -> Result<Rogue, Memory>
        requires kind { can_put kind ≡ true }
        requires inputs { AreApart (numbers inputs.items) }
        requires outputs { AreApart (numbers outputs.items) }
        requires acts { All (IsActOf (length inputs.items)
            (length inputs.items + length outputs.items)) acts.items }
        requires few { length pages.items + length acts.items < 2 ^ 32 }
        ensures new { IfOk result
            (λ r. IsNewRogue kind inputs.items outputs.items pages.items acts.items r) }
        ensures stands { IfOk result (λ r. RogueStandsFor r nothing_passed) }
    {
        let start = Snapshot::of(&pages);
        let kept = kept_pages(alloc, pages, acts.len())?;
        let had = kept.len();
        Ok(Rogue {
            kind,
            inputs,
            outputs,
            acts,
            next: 0,
            looked: false,
            kept,
            first: 0,
            had,
            start,
        })
    }

    // The queue of an end.
    fn queue(&self, end: u8) -> QueueId
        requires { end < length self.now.inputs.items + length self.now.outputs.items }
        ensures { result.0 ≡ queue_of (ends_of self.now) end }
    {
        let place = usize::from(end);
        match place.checked_sub(self.inputs.len()) {
            None => self.inputs[place],
            Some(output) => self.outputs[output],
        }
    }

    // The place of the first act that is left and makes a call, or of the end.
    fn upcoming(&self) -> usize
        ensures next { next_acts (length self.now.kept.items)
            (drop self.now.next self.now.acts.items) ≡ drop result self.now.acts.items }
        ensures within { self.now.next ≤ length self.now.acts.items
            → result ≤ length self.now.acts.items }
    {
        let mut place = self.next;
        while place < self.acts.len() && !makes_call(&self.acts[place], self.kept.len()) {
            place += 1;
        }
        place
    }

    /// Whether no act that makes a call is left.
    pub fn at_rest(&self) -> bool
        ensures { result ≡ is_done (left_of self.now) }
    {
        self.upcoming() >= self.acts.len()
    }

    /// How many buffers of a pool it keeps.
    pub fn held(&self, pool: PoolId) -> u32
        requires few { length self.now.kept.items < 2 ^ 32 }
        ensures { result ≡ buffers_of pool self.now.kept.items }
    {
        held_of(pool, &self.kept)
    }

    /// Begins the act in hand anew: its look is forgotten, and no act is left out. A journal begins
    /// here.
    pub fn forget(&mut self)
        ensures after { HasForgotten self.old self.new }
        ensures whole { IsRogue self.old → IsRogue self.new }
        ensures fits { (ends : Role → ℕ → End) → FitsRogue ends self.old
            → FitsRogue ends self.new }
        ensures lists { (passed : Passed) → RogueStandsFor self.old passed
            → RogueStandsFor self.new passed }
    {
        self.looked = false;
        self.first = self.next;
        self.had = self.kept.len();
    }

    // Looks whether an entry stands at an end from which it is to take.
    fn see<W: WildWires>(&mut self, wires: &mut W, place: usize, end: u8) -> Event
        requires fits { FitsRogue (W.ends wires.old) self.old }
        requires at { IsAt self.old place (Acts.Take end) }
        requires fresh { self.old.looked ≡ false }
        ensures { RogueStepped W.ends W.did wires.old wires.new self.old self.new result }
    {
        let queue = self.queue(end);
        let filled = wires.see(queue);
        self.looked = filled;
        self.next = place_after(place, filled);
        Event {
            op: Op::See,
            queue,
            answer: answer_of(filled),
            item: None,
        }
    }

    // Takes an entry, and keeps its body behind the others.
    fn take<W: WildWires>(&mut self, wires: &mut W, place: usize, end: u8) -> Event
        requires fits { FitsRogue (W.ends wires.old) self.old }
        requires at { IsAt self.old place (Acts.Take end) }
        requires used { self.old.looked ≡ true }
        ensures { RogueStepped W.ends W.did wires.old wires.new self.old self.new result }
    {
        let queue = self.queue(end);
        let (item, body) = wires.take(queue);
        self.kept.push(body).unwrap();
        self.looked = false;
        self.next = place + 1;
        Event {
            op: Op::Take,
            queue,
            answer: Answer::Done,
            item: Some(item),
        }
    }

    // Looks whether there is room at an end to which it is to put.
    fn room<W: WildWires>(&mut self, wires: &mut W, place: usize, end: u8) -> Event
        requires fits { FitsRogue (W.ends wires.old) self.old }
        requires at { IsPutting self.old place end }
        requires fresh { self.old.looked ≡ false }
        ensures { RogueStepped W.ends W.did wires.old wires.new self.old self.new result }
    {
        let queue = self.queue(end);
        let open = wires.room(queue);
        self.looked = open;
        self.next = place_after(place, open);
        Event {
            op: Op::Room,
            queue,
            answer: answer_of(open),
            item: None,
        }
    }

    // Puts an entry with an empty body.
    fn put<W: WildWires>(
        &mut self,
        wires: &mut W,
        place: usize,
        end: u8,
        addr: u64,
        length: u64,
    ) -> Event
        requires fits { FitsRogue (W.ends wires.old) self.old }
        requires at { IsAt self.old place (Acts.Put end addr length) }
        requires used { self.old.looked ≡ true }
        ensures { RogueStepped W.ends W.did wires.old wires.new self.old self.new result }
    {
        let queue = self.queue(end);
        let item = item_for(self.kind, addr, length);
        wires.put(queue, item, Body::Empty);
        self.looked = false;
        self.next = place + 1;
        Event {
            op: Op::Put,
            queue,
            answer: Answer::Done,
            item: Some(item),
        }
    }

    // Puts an entry with what is kept at a place.
    fn give<W: WildWires>(
        &mut self,
        wires: &mut W,
        place: usize,
        end: u8,
        at: u32,
        addr: u64,
        length: u64,
    ) -> Event
        requires fits { FitsRogue (W.ends wires.old) self.old }
        requires at { IsAt self.old place (Acts.Give end at addr length) }
        requires used { self.old.looked ≡ true }
        ensures { RogueStepped W.ends W.did wires.old wires.new self.old self.new result }
    {
        let queue = self.queue(end);
        let item = item_for(self.kind, addr, length);
        let body = self.kept.remove(at as usize);
        wires.put(queue, item, body);
        self.looked = false;
        self.next = place + 1;
        Event {
            op: Op::Put,
            queue,
            answer: Answer::Done,
            item: Some(item),
        }
    }

    // Stores a value in a word of a queue.
    fn store<W: WildWires>(
        &mut self,
        wires: &mut W,
        place: usize,
        end: u8,
        word: Word,
        value: u64,
    ) -> Event
        requires fits { FitsRogue (W.ends wires.old) self.old }
        requires at { IsAt self.old place (Acts.Store end word value) }
        requires wild { All (λ q. W.wild wires.old q.0) (ends_of self.old) }
        ensures { RogueStepped W.ends W.did wires.old wires.new self.old self.new result }
    {
        let queue = self.queue(end);
        wires.store(queue, word, value);
        self.next = place + 1;
        Event {
            op: Op::Store(word, value),
            queue,
            answer: Answer::Done,
            item: None,
        }
    }

    /// Makes the next call. It takes no memory, and neither asks nor rings. An act whose look
    /// answers no is given up, and an act that gives what it doesn't keep is left out.
    pub fn step<W: WildWires>(&mut self, wires: &mut W) -> Event
        requires going { is_done (left_of self.old) ≡ false }
        requires fits { FitsRogue (W.ends wires.old) self.old }
        requires wild { All (λ q. W.wild wires.old q.0) (ends_of self.old) }
        ensures { RogueStepped W.ends W.did wires.old wires.new self.old self.new result }
    {
        let place = self.upcoming();
        match (self.acts[place], self.looked) {
            (Act::Take(end), false) => self.see(wires, place, end),
            (Act::Take(end), true) => self.take(wires, place, end),
            (Act::Put(end, _, _), false) => self.room(wires, place, end),
            (Act::Give(end, _, _, _), false) => self.room(wires, place, end),
            (Act::Put(end, addr, length), true) => self.put(wires, place, end, addr, length),
            (Act::Give(end, at, addr, length), true) => {
                self.give(wires, place, end, at, addr, length)
            }
            (Act::Store(end, word, value), _) => self.store(wires, place, end, word, value),
        }
    }
}
