//! A joiner, which takes from either of two inputs, and then keeps to the one from which it took
//! first.
ghost use Rattle.std.specs.Prelude.{◌≡◌, ◌<◌, ℕ, [], ◌++◌, true, false, OnErr, IfOk};
ghost use Rattle.std.specs.Option.{option_to_list};
ghost use Rattle.wire_core.specs.Lists.{Passed, Stepped};
ghost use Rattle.wire_core.specs.Marks.{is_mark};
ghost use Rattle.turn_kit.specs.Turns.{Turned, Posted, choice_of, chosen_place, last_after};
ghost use Rattle.turn_kit.specs.Turns.{is_at_rest};
ghost use Rattle.turn_kit.specs.Posts.{intake_post};
ghost use Rattle.class_expect.specs.SerialSwitch.Carried.{bytes_carried};
ghost use Rattle.library_examples.specs.ClassExample.Joiners.{wants_first, wants_second, claim_after};
ghost use Rattle.library_examples.specs.ClassExample.Joiners.{FitsJoiner, JoinerStandsFor, joiner_round};
ghost use Rattle.library_examples.specs.ClassExample.Joiners.{SameJoiner, IsNewJoiner};

use cargo_core::{Body, Item, Memory, Tape};
use std::alloc::Global;
use turn_kit::{Intake, Turn};
use wire_core::{Event, QueueId, Wires};

/// Which input a joiner keeps to: none yet, its first or its second one.
#[derive(Clone, Copy, Debug, PartialEq, Eq)]
pub enum Claim {
    Open,
    First,
    Second,
}

/// An actor with two inputs, which records the bytes that come.
#[derive(Drop)]
pub struct Joiner {
    pub first: Intake,
    pub second: Intake,
    pub claim: Claim,
    pub recorded: Tape,
    pub turn: Turn,
}

// Records the byte of what was taken.
fn note(tape: &mut Tape, taken: Option<(Item, Body)>)
    requires { 0 < tape.old.spare }
    ensures { tape.new.shown ≡ tape.old.shown ++ bytes_carried (option_to_list taken) }
{
    if let Some((Item::Byte(byte), _)) = taken {
        tape.push(byte);
    }
}

impl Joiner {
    /// A joiner in its start state, which takes at these two queues.
    pub fn new(alloc: Global, first: QueueId, second: QueueId) -> Joiner
        ensures { IsNewJoiner first second result }
    {
        Joiner {
            first: Intake::new(first),
            second: Intake::new(second),
            claim: Claim::Open,
            recorded: Tape::new(alloc),
            turn: Turn::new(),
        }
    }

    /// What came.
    pub fn got(&self) -> &[u8]
        ensures { result.now ≡ self.now.recorded.shown }
    {
        self.recorded.as_slice()
    }

    fn wants_first(&self) -> bool
        ensures { result ≡ wants_first self.now.claim }
    {
        self.claim != Claim::Second
    }

    fn wants_second(&self) -> bool
        ensures { result ≡ wants_second self.now.claim }
    {
        self.claim != Claim::First
    }

    /// Whether nothing is to be done before a notification comes.
    pub fn at_rest(&self) -> bool
        ensures { result ≡ is_at_rest (joiner_round self.now) }
    {
        self.first.settled(self.wants_first()) && self.second.settled(self.wants_second())
    }

    // The end that is stepped now: the first input is the first.
    fn choose(&mut self) -> usize
        ensures place { result ≡ chosen_place (choice_of (joiner_round self.old)) }
        ensures within { result < 2 }
        ensures after { self.new ≡ record self.old {
          turn =
              record { last = last_after (choice_of (joiner_round self.old)) };
        } }
    {
        let choice = self
            .turn
            .begin(2)
            .offer(0, self.first.queue, self.first.settled(self.wants_first()))
            .offer(
                1,
                self.second.queue,
                self.second.settled(self.wants_second()),
            );
        self.turn.pass(choice)
    }

    // Records what was taken, and keeps to the input from which it came.
    fn hear(&mut self, taken: Option<(Item, Body)>, from: Claim)
        requires { 0 < self.old.recorded.spare }
        ensures claim { self.new.claim ≡ claim_after taken from self.old.claim }
        ensures recorded { self.new.recorded.shown
            ≡ self.old.recorded.shown ++ bytes_carried (option_to_list taken) }
        ensures first { self.new.first ≡ self.old.first }
        ensures second { self.new.second ≡ self.old.second }
        ensures turn { self.new.turn ≡ self.old.turn }
    {
        if taken.is_some() {
            self.claim = from;
        }
        note(&mut self.recorded, taken);
    }

    // The next call of the first input.
    fn step_first<W: Wires>(&mut self, wires: &mut W) -> Event
        requires fits { FitsJoiner (W.ends wires.old) self.old }
        requires room { 0 < self.old.recorded.spare }
        ensures fits { FitsJoiner (W.ends wires.new) self.new }
        ensures same { SameJoiner self.old self.new }
        ensures stepped { Stepped JoinerStandsFor W.did wires.old wires.new self.old self.new
            result }
        ensures posted { Posted (intake_post self.old.first) (wants_first self.old.claim) result
            (intake_post self.new.first) }
        ensures second { self.new.second ≡ self.old.second }
        ensures still { is_mark result.op result.answer ≡ false → self.new.claim ≡ self.old.claim }
        ensures turn { self.new.turn ≡ self.old.turn }
    {
        let need = self.wants_first();
        let (event, taken) = self.first.step(wires, need);
        self.hear(taken, Claim::First);
        event
    }

    // The next call of the second input.
    fn step_second<W: Wires>(&mut self, wires: &mut W) -> Event
        requires fits { FitsJoiner (W.ends wires.old) self.old }
        requires room { 0 < self.old.recorded.spare }
        ensures fits { FitsJoiner (W.ends wires.new) self.new }
        ensures same { SameJoiner self.old self.new }
        ensures stepped { Stepped JoinerStandsFor W.did wires.old wires.new self.old self.new
            result }
        ensures posted { Posted (intake_post self.old.second) (wants_second self.old.claim) result
            (intake_post self.new.second) }
        ensures first { self.new.first ≡ self.old.first }
        ensures still { is_mark result.op result.answer ≡ false → self.new.claim ≡ self.old.claim }
        ensures turn { self.new.turn ≡ self.old.turn }
    {
        let need = self.wants_second();
        let (event, taken) = self.second.step(wires, need);
        self.hear(taken, Claim::Second);
        event
    }

    /// Makes one call on one of its ends. The memory of the record is taken first; after want of
    /// memory no call was made and nothing changed.
    pub fn step<W: Wires>(&mut self, wires: &mut W) -> Result<Event, Memory>
        requires { FitsJoiner (W.ends wires.old) self.old }
        ensures fits { FitsJoiner (W.ends wires.new) self.new }
        ensures same { SameJoiner self.old self.new }
        ensures stepped { IfOk result (λ e. Stepped JoinerStandsFor W.did wires.old wires.new
            self.old self.new e) }
        ensures turned { IfOk result (λ e. Turned (joiner_round self.old) e
            (joiner_round self.new)) }
        ensures no_call { OnErr result (wires.new ≡ wires.old) }
        ensures unchanged { OnErr result (self.new ≡ self.old) }
    {
        self.recorded.reserve()?;
        match self.choose() {
            0 => Ok(self.step_first(wires)),
            1 => Ok(self.step_second(wires)),
            _ => unreachable!(),
        }
    }
}
