//! The bus as an actor: it does requests in their order on its devices, and answers each in its own
//! buffer. That the bus is an actor at the far ends of its driver's queues is this project's own.
ghost use Rattle.std.specs.Prelude.{◌≡◌, ◌<◌, IfOk, true, false, is_some, is_none};
ghost use Rattle.std.specs.Option.{ForSome};
ghost use Rattle.cargo_core.specs.declared.item.QueueKind.{QueueKind};
ghost use Rattle.cargo_core.specs.Items.{kind_of};
ghost use Rattle.wire_core.specs.Lists.{Passed, Stepped, nothing_passed};
ghost use Rattle.wire_core.specs.Marks.{is_mark};
ghost use Rattle.turn_kit.specs.Turns.{Turned, Posted, choice_of, chosen_place, last_after};
ghost use Rattle.turn_kit.specs.Turns.{is_at_rest};
ghost use Rattle.turn_kit.specs.Posts.{intake_post, outlet_post};
ghost use Rattle.i2c_virt.specs.I2cKit.Devices.{AreWhole};
ghost use Rattle.i2c_virt.specs.BusDevices.{FitsBus, BusStandsFor, BusRow, SameBus, IsNewBus};
ghost use Rattle.i2c_virt.specs.BusDevices.{is_serving, bus_round, Accepted};
ghost use Rattle.i2c_virt.specs.declared.bus_device.BusDevice.{BusDevice};

use crate::i2c_kit::{Device, answer_to, is_bus_request, new_devices};
use cargo_core::{Body, Bytes, Item, Memory, QueueKind};
use std::alloc::Global;
use turn_kit::{Intake, Lowest, Outlet, Turn, pull, push};
use wire_core::{Event, QueueId, Wires};

/// The bus. `devices` are as the requests that it took left them; `load` is the answer to the last
/// of them, until it is put; `stray` is a request that came out of turn, after which the bus takes
/// and puts no more.
#[derive(Drop)]
pub struct BusDevice {
    pub input: Intake,
    pub output: Outlet,
    pub addresses: Bytes,
    pub devices: Vec<Device>,
    pub load: Option<(Item, Body)>,
    pub stray: Option<(Item, Body)>,
    pub turn: Turn,
}

impl BusDevice {
    /// A bus in its start state: its devices have these addresses, are zeros and point to the first
    /// byte. It does the requests of `req` and puts its answers to `resp`.
    pub fn new(
        alloc: Global,
        req: QueueId,
        resp: QueueId,
        addresses: Bytes,
    ) -> Result<BusDevice, Memory>
        ensures new { IfOk result (λ b. IsNewBus req resp addresses b) }
        ensures whole { IfOk result (λ b. AreWhole b.devices.items) }
        ensures stands { IfOk result (λ b. BusStandsFor b nothing_passed) }
    {
        let devices = new_devices(alloc, addresses.as_slice())?;
        Ok(BusDevice {
            input: Intake::new(req),
            output: Outlet::new(resp),
            addresses,
            devices,
            load: None,
            stray: None,
            turn: Turn::new(),
        })
    }

    // Whether it needs a request.
    fn is_serving(&self) -> bool
        ensures { result ≡ is_serving self.now }
    {
        self.load.is_none() && self.stray.is_none()
    }

    /// Whether nothing is to be done before a notification comes.
    pub fn at_rest(&self) -> bool
        ensures { result ≡ is_at_rest (bus_round self.now) }
    {
        self.input.settled(self.is_serving()) && self.output.settled(self.load.is_some())
    }

    // The end that is stepped now: the input is the first, the output the second. The rotation is
    // asked only where both are settled.
    fn choose(&mut self) -> usize
        ensures place { result ≡ chosen_place (choice_of (bus_round self.old)) }
        ensures within { result < 2 }
        ensures after { self.new ≡ record self.old {
          turn = record { last = last_after (choice_of (bus_round self.old)) };
        } }
    {
        let serving = self.is_serving();
        let input = self.input.settled(serving);
        let output = self.output.settled(self.load.is_some());
        let lowest = Lowest::none()
            .unless_settled(0, self.input.queue, input)
            .unless_settled(1, self.output.queue, output);
        if let Some(end) = lowest.stand() {
            return end.place;
        }
        let choice = self
            .turn
            .begin(2)
            .offer(0, self.input.queue, input)
            .offer(1, self.output.queue, output);
        self.turn.pass(choice)
    }

    // Does a request that came, or keeps it where it is out of turn.
    fn accept(&mut self, entry: (Item, Body))
        requires whole { AreWhole self.old.devices.items }
        requires kind { kind_of entry.0 ≡ QueueKind.Net }
        requires load { ForSome self.old.load (λ c. kind_of c.0 ≡ QueueKind.Net) }
        ensures accepted { Accepted self.old entry self.new }
        ensures whole { AreWhole self.new.devices.items }
        ensures load { ForSome self.new.load (λ c. kind_of c.0 ≡ QueueKind.Net) }
        ensures input { self.new.input ≡ self.old.input }
        ensures output { self.new.output ≡ self.old.output }
        ensures addresses { self.new.addresses ≡ self.old.addresses }
        ensures turn { self.new.turn ≡ self.old.turn }
    {
        if is_bus_request(&entry) {
            self.load = Some(answer_to(&mut self.devices, entry));
        } else {
            self.stray = Some(entry);
        }
    }

    // The next call of the input. What it takes is done.
    fn step_input<W: Wires>(&mut self, wires: &mut W, event: &mut Event)
        requires { FitsBus (W.ends wires.old) self.old }
        ensures fits { FitsBus (W.ends wires.new) self.new }
        ensures same { SameBus self.old self.new }
        ensures stepped { Stepped BusStandsFor W.did wires.old wires.new self.old self.new
            event.new }
        ensures posted { Posted (intake_post self.old.input) (is_serving self.old) event.new
            (intake_post self.new.input) }
        ensures load { is_mark event.new.op event.new.answer ≡ false
            → self.new.load ≡ self.old.load }
        ensures stray { is_mark event.new.op event.new.answer ≡ false
            → self.new.stray ≡ self.old.stray }
        ensures output { self.new.output ≡ self.old.output }
        ensures turn { self.new.turn ≡ self.old.turn }
    {
        let need = self.is_serving();
        let mut got = None;
        pull(&mut self.input, wires, need, &mut got, event);
        if let Some(entry) = got {
            self.accept(entry);
        }
    }

    // The next call of the output, which puts the answer.
    fn step_output<W: Wires>(&mut self, wires: &mut W, event: &mut Event)
        requires { FitsBus (W.ends wires.old) self.old }
        ensures fits { FitsBus (W.ends wires.new) self.new }
        ensures same { SameBus self.old self.new }
        ensures stepped { Stepped BusStandsFor W.did wires.old wires.new self.old self.new
            event.new }
        ensures posted { Posted (outlet_post self.old.output) (is_some self.old.load) event.new
            (outlet_post self.new.output) }
        ensures load { is_mark event.new.op event.new.answer ≡ false
            → self.new.load ≡ self.old.load }
        ensures others { self.new ≡ record self.old
            { output = self.new.output; load = self.new.load } }
    {
        push(&mut self.output, wires, &mut self.load, event);
    }

    /// Makes one call on one of its ends, which `event` tells then.
    pub fn step<W: Wires>(&mut self, wires: &mut W, event: &mut Event)
        requires { FitsBus (W.ends wires.old) self.old }
        ensures fits { FitsBus (W.ends wires.new) self.new }
        ensures same { SameBus self.old self.new }
        ensures stepped { Stepped BusStandsFor W.did wires.old wires.new self.old self.new
            event.new }
        ensures turned { Turned (bus_round self.old) event.new (bus_round self.new) }
    {
        match self.choose() {
            0 => self.step_input(wires, event),
            1 => self.step_output(wires, event),
            _ => unreachable!(),
        }
    }
}

/// Whatever it stands for meets its row.
pub fn bus_law()
    ensures { (b : BusDevice) (passed : Passed) → BusStandsFor b passed
        → BusRow b.addresses b.input.queue.0 b.output.queue.0 passed }
{}
