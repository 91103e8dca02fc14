//! An actor that puts given bytes in order and records the bytes that come: what a serial device
//! and a serial client have in common.

ghost use Rattle.std.specs.Prelude.{◌≡◌, ◌<◌, ◌≤◌, ◌+◌, ◌^◌, ℕ, [], ◌++◌, OnErr, OnOk};
ghost use Rattle.std.specs.Prelude.{slice_get, length, nat_lt, is_some, true, false};
ghost use Rattle.std.specs.Option.{option_map, option_to_list};
ghost use Rattle.wire_core.specs.Ends.{role_of, Role, End};
ghost use Rattle.wire_core.specs.Lists.{Passed, Stepped, nothing_passed};
ghost use Rattle.turn_kit.specs.Table.{start_state};
ghost use Rattle.wire_core.specs.Marks.{is_mark};
ghost use Rattle.turn_kit.specs.Turns.{Turned, Posted, choice_of, chosen_place, last_after};
ghost use Rattle.turn_kit.specs.Turns.{is_at_rest};
ghost use Rattle.cargo_core.specs.Bodies.{buffers_of};
ghost use Rattle.turn_kit.specs.Posts.{intake_post, outlet_post};
ghost use Rattle.class_expect.specs.SerialSwitch.Carried.{byte_cargo, bytes_carried};
ghost use Rattle.device_model.specs.SerialTerminal.Terminals.{FitsTerminal, TerminalStandsFor};
ghost use Rattle.device_model.specs.SerialTerminal.Terminals.{TerminalRow, TerminalBalances};
ghost use Rattle.device_model.specs.SerialTerminal.Terminals.{TerminalEnd, SameTerminal};
ghost use Rattle.device_model.specs.SerialTerminal.Terminals.{terminal_round, terminal_hand};
ghost use Rattle.device_model.specs.SerialTerminal.Terminals.{terminal_forgotten, IsNewTerminal};

use cargo_core::{Body, Bytes, Item, Memory, PoolId, Tape};
use std::alloc::Global;
use turn_kit::{Intake, Outlet, Turn, count_held, pull, push};
use wire_core::{Event, QueueId, Wires};

/// A serial actor with a script, of which it put the first `next` bytes, and a record of what came.
#[derive(Drop)]
pub struct Terminal {
    pub input: Intake,
    pub output: Outlet,
    pub script: Bytes,
    pub next: usize,
    pub recorded: Tape,
    pub turn: Turn,
}

// Records the byte of what was taken.
fn note(tape: &mut Tape, taken: Option<(Item, Body)>)
    requires { 0 < tape.old.spare }
    ensures { tape.new.shown ≡ tape.old.shown ++ bytes_carried (option_to_list taken) }
{
    if let Some((Item::Byte(byte), _)) = taken {
        tape.push(byte);
    }
}

impl Terminal {
    /// A terminal in its start state, which hears at `from` and says its script at `to`.
    pub fn new(alloc: Global, from: QueueId, to: QueueId, script: Bytes) -> Terminal
        ensures new { IsNewTerminal from to script result }
        ensures stands { TerminalStandsFor result nothing_passed }
    {
        Terminal {
            input: Intake::new(from),
            output: Outlet::new(to),
            script,
            next: 0,
            recorded: Tape::new(alloc),
            turn: Turn::new(),
        }
    }

    /// What came.
    pub fn got(&self) -> &[u8]
        ensures { result.now ≡ self.now.recorded.shown }
    {
        self.recorded.as_slice()
    }

    // Whether a byte of the script is left.
    fn is_saying(&self) -> bool
        ensures { result ≡ nat_lt self.now.next (length self.now.script) }
    {
        self.next < self.script.len()
    }

    /// Whether nothing is to be done before a notification comes.
    pub fn at_rest(&self) -> bool
        ensures { result ≡ is_at_rest (terminal_round self.now) }
    {
        self.input.settled(true) && self.output.settled(self.is_saying())
    }

    /// How many buffers of a pool are in its hand: none, since a byte has no buffer.
    pub fn held(&self, pool: PoolId) -> u32
        ensures { result ≡ buffers_of pool (terminal_hand self.now) }
    {
        count_held(pool, &None)
    }

    // The next byte, ready to be put.
    fn load(&self) -> Option<(Item, Body)>
        ensures load { result ≡ option_map byte_cargo (slice_get self.now.script self.now.next) }
        ensures loaded { is_some result ≡ nat_lt self.now.next (length self.now.script) }
        ensures fits { is_some result ≡ true → self.now.next + 1 < 2 ^ 64 }
    {
        let script = self.script.as_slice();
        match script.get(self.next) {
            Some(byte) => Some((Item::Byte(*byte), Body::Empty)),
            None => None,
        }
    }

    // The end that is stepped now: the input is the first, the output the second.
    fn choose(&mut self) -> usize
        ensures place { result ≡ chosen_place (choice_of (terminal_round self.old)) }
        ensures within { result < 2 }
        ensures after { self.new ≡ record self.old {
          turn =
              record { last = last_after (choice_of (terminal_round self.old)) };
        } }
    {
        let hears = !self.input.settled(true);
        let says = !self.output.settled(self.is_saying());
        if hears && !(says && self.output.queue.0 < self.input.queue.0) {
            return 0;
        }
        if says {
            return 1;
        }
        let choice = self
            .turn
            .begin(2)
            .offer(0, self.input.queue, true)
            .offer(1, self.output.queue, true);
        self.turn.pass(choice)
    }

    // The next call of the input. What it takes is recorded.
    fn step_input<W: Wires>(&mut self, wires: &mut W, event: &mut Event)
        requires fits { FitsTerminal (W.ends wires.old) self.old }
        requires room { 0 < self.old.recorded.spare }
        ensures fits { FitsTerminal (W.ends wires.new) self.new }
        ensures own { TerminalEnd self.old (role_of event.new.op) event.new.queue.0 }
        ensures same { SameTerminal self.old self.new }
        ensures stepped { Stepped TerminalStandsFor W.did wires.old wires.new self.old self.new
            event.new }
        ensures posted { Posted (intake_post self.old.input) true event.new
            (intake_post self.new.input) }
        ensures output { self.new.output ≡ self.old.output }
        ensures next { self.new.next ≡ self.old.next }
        ensures turn { self.new.turn ≡ self.old.turn }
    {
        let mut taken = None;
        pull(&mut self.input, wires, true, &mut taken, event);
        note(&mut self.recorded, taken);
    }

    // The next call of the output, which puts the next byte of the script.
    fn step_output<W: Wires>(&mut self, wires: &mut W, event: &mut Event)
        requires { FitsTerminal (W.ends wires.old) self.old }
        ensures fits { FitsTerminal (W.ends wires.new) self.new }
        ensures own { TerminalEnd self.old (role_of event.new.op) event.new.queue.0 }
        ensures same { SameTerminal self.old self.new }
        ensures stepped { Stepped TerminalStandsFor W.did wires.old wires.new self.old self.new
            event.new }
        ensures posted { Posted (outlet_post self.old.output)
            (nat_lt self.old.next (length self.old.script)) event.new (outlet_post
            self.new.output) }
        ensures input { self.new.input ≡ self.old.input }
        ensures still { is_mark event.new.op event.new.answer ≡ false
            → self.new.next ≡ self.old.next }
        ensures turn { self.new.turn ≡ self.old.turn }
    {
        let mut load = self.load();
        push(&mut self.output, wires, &mut load, event);
        drop(load);
        if event.item.is_some() {
            self.next += 1;
        }
    }

    /// Makes one call on one of its ends, which `event` tells then. The memory of the record is
    /// taken first; after want of memory no call was made and nothing changed.
    #[inline(never)]
    pub fn step<W: Wires>(&mut self, wires: &mut W, event: &mut Event) -> Result<(), Memory>
        requires { FitsTerminal (W.ends wires.old) self.old }
        ensures fits { FitsTerminal (W.ends wires.new) self.new }
        ensures own { OnOk result (TerminalEnd self.old (role_of event.new.op) event.new.queue.0) }
        ensures same { SameTerminal self.old self.new }
        ensures stepped { OnOk result (Stepped TerminalStandsFor W.did wires.old wires.new
            self.old self.new event.new) }
        ensures turned { OnOk result (Turned (terminal_round self.old) event.new
            (terminal_round self.new)) }
        ensures no_call { OnErr result (wires.new ≡ wires.old) }
        ensures unchanged { OnErr result (self.new ≡ self.old) }
    {
        self.recorded.reserve()?;
        match self.choose() {
            0 => self.step_input(wires, event),
            1 => self.step_output(wires, event),
            _ => unreachable!(),
        }
        Ok(())
    }

    /// Discards the last look of each end, and nothing else.
    pub fn forget(&mut self)
        ensures after { self.new ≡ terminal_forgotten self.old }
        ensures same { SameTerminal self.old self.new }
        ensures fits { (ends : Role → ℕ → End) → FitsTerminal ends self.old
            → FitsTerminal ends self.new }
        ensures lists { (passed : Passed) → TerminalStandsFor self.old passed
            → TerminalStandsFor self.new passed }
    {
        self.input.forget();
        self.output.forget();
    }
}

/// Whatever it stands for meets its row.
pub fn row_law()
    ensures { (t : Terminal) (passed : Passed) → TerminalStandsFor t passed → TerminalRow t passed }
{}

/// What came and did not go out is kept for good.
pub fn hand_law()
    ensures { (t : Terminal) (passed : Passed) → TerminalStandsFor t passed
        → TerminalBalances t passed }
{}
