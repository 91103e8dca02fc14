//! A source, which puts the bytes of a script in order.
ghost use Rattle.std.specs.Prelude.{◌≡◌, ◌<◌, ◌+◌, ◌^◌, true, false, slice_get, length, nat_lt};
ghost use Rattle.std.specs.Prelude.{is_some};
ghost use Rattle.std.specs.Option.{option_map};
ghost use Rattle.wire_core.specs.Lists.{Passed, Stepped};
ghost use Rattle.wire_core.specs.Marks.{is_mark};
ghost use Rattle.turn_kit.specs.Turns.{Turned, Posted, choice_of, chosen_place, last_after};
ghost use Rattle.turn_kit.specs.Turns.{is_at_rest};
ghost use Rattle.turn_kit.specs.Posts.{outlet_post};
ghost use Rattle.class_expect.specs.SerialSwitch.Carried.{byte_cargo};
ghost use Rattle.library_examples.specs.ClassExample.Sources.{FitsSource, SourceStandsFor, source_round};
ghost use Rattle.library_examples.specs.ClassExample.Sources.{SameSource, IsNewSource};

use cargo_core::{Body, Bytes, Item};
use turn_kit::{Outlet, Turn};
use wire_core::{Event, QueueId, Wires};

/// An actor with one end and a script, of which it put the first `next` bytes.
#[derive(Drop)]
pub struct Source {
    pub output: Outlet,
    pub script: Bytes,
    pub next: usize,
    pub turn: Turn,
}

impl Source {
    /// A source in its start state, which puts its script at `to`.
    pub fn new(to: QueueId, script: Bytes) -> Source
        ensures { IsNewSource to script result }
    {
        Source {
            output: Outlet::new(to),
            script,
            next: 0,
            turn: Turn::new(),
        }
    }

    // Whether a byte of the script is left.
    fn is_saying(&self) -> bool
        ensures { result ≡ nat_lt self.now.next (length self.now.script) }
    {
        self.next < self.script.len()
    }

    /// Whether nothing is to be done before a notification comes.
    pub fn at_rest(&self) -> bool
        ensures { result ≡ is_at_rest (source_round self.now) }
    {
        self.output.settled(self.is_saying())
    }

    // The next byte, ready to be put.
    fn load(&self) -> Option<(Item, Body)>
        ensures load { result ≡ option_map byte_cargo (slice_get self.now.script self.now.next) }
        ensures loaded { is_some result ≡ nat_lt self.now.next (length self.now.script) }
        ensures fits { is_some result ≡ true → self.now.next + 1 < 2 ^ 64 }
    {
        let script = self.script.as_slice();
        match script.get(self.next) {
            Some(byte) => Some((Item::Byte(*byte), Body::Empty)),
            None => None,
        }
    }

    // The end that is stepped now: the one that there is.
    fn choose(&mut self) -> usize
        ensures place { result ≡ chosen_place (choice_of (source_round self.old)) }
        ensures within { result < 1 }
        ensures after { self.new ≡ record self.old {
          turn =
              record { last = last_after (choice_of (source_round self.old)) };
        } }
    {
        let choice = self.turn.begin(1).offer(
            0,
            self.output.queue,
            self.output.settled(self.is_saying()),
        );
        self.turn.pass(choice)
    }

    // The next call of the output, which puts the next byte of the script.
    fn step_output<W: Wires>(&mut self, wires: &mut W) -> Event
        requires { FitsSource (W.ends wires.old) self.old }
        ensures fits { FitsSource (W.ends wires.new) self.new }
        ensures same { SameSource self.old self.new }
        ensures stepped { Stepped SourceStandsFor W.did wires.old wires.new self.old self.new
            result }
        ensures posted { Posted (outlet_post self.old.output)
            (nat_lt self.old.next (length self.old.script)) result (outlet_post self.new.output) }
        ensures still { is_mark result.op result.answer ≡ false → self.new.next ≡ self.old.next }
        ensures turn { self.new.turn ≡ self.old.turn }
    {
        let mut load = self.load();
        let event = self.output.step(wires, &mut load);
        drop(load);
        if event.item.is_some() {
            self.next += 1;
        }
        event
    }

    /// Makes one call on its end.
    pub fn step<W: Wires>(&mut self, wires: &mut W) -> Event
        requires { FitsSource (W.ends wires.old) self.old }
        ensures fits { FitsSource (W.ends wires.new) self.new }
        ensures same { SameSource self.old self.new }
        ensures stepped { Stepped SourceStandsFor W.did wires.old wires.new self.old self.new
            result }
        ensures turned { Turned (source_round self.old) result (source_round self.new) }
    {
        match self.choose() {
            0 => self.step_output(wires),
            _ => unreachable!(),
        }
    }
}
