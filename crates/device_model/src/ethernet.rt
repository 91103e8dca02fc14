//! The Ethernet device of the modelled machine. It fills free buffers with given frames in order,
//! and records on its wire the frames that it is given to send. That a device is an actor at the
//! far ends of its driver's queues is this project's own.

ghost use Rattle.std.specs.Prelude.{◌≡◌, ◌+◌, ◌<◌, ◌≤◌, ◌^◌, ◌&&◌, ℕ, List, IfOk, OnOk, OnErr};
ghost use Rattle.std.specs.Prelude.{Some, true, false, is_none, is_some, length, slice_get};
ghost use Rattle.cargo_core.specs.Bodies.{buffers_of};
ghost use Rattle.wire_core.specs.Ends.{role_of, Role, Consumer, End};
ghost use Rattle.wire_core.specs.Lists.{Passed, Stepped, nothing_passed};
ghost use Rattle.wire_core.specs.Marks.{is_mark};
ghost use Rattle.wire_core.specs.Fates.{marked, noes_at, is_vain_at};
ghost use Rattle.turn_kit.specs.Turns.{Turned, Posted, choice_of, chosen_place, last_after};
ghost use Rattle.turn_kit.specs.Turns.{is_at_rest, is_drop, is_mark_at};
ghost use Rattle.turn_kit.specs.Posts.{intake_post, outlet_post};
ghost use Rattle.device_model.specs.Ethernet.Devices.{FitsDevice, DeviceStandsFor, DeviceRow};
ghost use Rattle.device_model.specs.Ethernet.Devices.{DeviceBalances, DeviceEnd, SameDevice};
ghost use Rattle.device_model.specs.Ethernet.Devices.{IsNewDevice, is_filling, device_round};
ghost use Rattle.device_model.specs.Ethernet.Devices.{device_hand, device_forgotten, free_post};
ghost use Rattle.device_model.specs.Ethernet.Devices.{HoldingDeviceStands, HoldingDeviceRow};
ghost use Rattle.device_model.specs.Ethernet.Devices.{frames_dropped, holding_device_round};

use buffer_kit::{Recorder, fill};
use cargo_core::{Body, FrameLog, Item, Memory, PoolId};
use std::alloc::Global;
use turn_kit::{Intake, Outlet, Turn, count_held, take_or_drop};
use wire_core::{Event, QueueId, Wires};

/// The Ethernet device. It has put, holds in `load` or has dropped the first `next` of its frames;
/// `wire` takes what is to be sent. Where it `drops`, it drops the next frame in place of waiting
/// for a free buffer.
#[derive(Drop)]
pub struct EthDevice {
    pub free: Intake,
    pub active: Outlet,
    pub load: Option<(Item, Body)>,
    pub frames: FrameLog,
    pub next: usize,
    pub wire: Recorder,
    pub drops: bool,
    pub turn: Turn,
}

impl EthDevice {
    /// A device in its start state: it fills the buffers of `rx_free` with the frames, in order,
    /// and puts them to `rx_active`; it records the frames of `tx_active`, and puts their buffers
    /// to `tx_free`. Each frame has at most 65,535 bytes. `drops` says whether it drops a frame
    /// for which no buffer is free.
    pub fn new(
        alloc: Global,
        rx_free: QueueId,
        rx_active: QueueId,
        tx_active: QueueId,
        tx_free: QueueId,
        frames: FrameLog,
        drops: bool,
    ) -> EthDevice
        ensures new { IsNewDevice rx_free rx_active tx_active tx_free frames drops result }
        ensures stands { DeviceStandsFor result nothing_passed }
    {
        EthDevice {
            free: Intake::new(rx_free),
            active: Outlet::new(rx_active),
            load: None,
            frames,
            next: 0,
            wire: Recorder::new(alloc, tx_active, tx_free),
            drops,
            turn: Turn::new(),
        }
    }

    /// The frames that were sent on the wire.
    pub fn wire(&self) -> &FrameLog
        ensures { result.now ≡ self.now.wire.tape.shown }
    {
        self.wire.tape.frames()
    }

    // Whether it needs a buffer to fill.
    fn is_filling(&self) -> bool
        ensures value { result ≡ is_filling self.now }
        ensures fits { result ≡ true → self.now.next + 1 < 2 ^ 64 }
    {
        self.load.is_none() && self.next < self.frames.len()
    }

    /// Whether nothing is to be done before a notification comes.
    pub fn at_rest(&self) -> bool
        ensures { result ≡ is_at_rest (device_round self.now) }
    {
        self.free.settled(self.is_filling())
            && self.active.settled(self.load.is_some())
            && self.wire.pipe.input_settled()
            && self.wire.pipe.output_settled()
    }

    /// How many buffers of a pool are in its hand.
    pub fn held(&self, pool: PoolId) -> u32
        ensures { result ≡ buffers_of pool (device_hand self.now) }
    {
        count_held(pool, &self.load) + count_held(pool, &self.wire.pipe.load)
    }

    // The end that is stepped now, in the order of buffers in, frames out, and the two of sending.
    fn choose(&mut self) -> usize
        ensures place { result ≡ chosen_place (choice_of (device_round self.old)) }
        ensures within { result < 4 }
        ensures after { self.new ≡ record self.old {
          turn = record {
            last = last_after (choice_of
                (device_round self.old));
          };
        } }
    {
        let filling = self.is_filling();
        let free_settled = self.free.settled(filling);
        let active_settled = self.active.settled(self.load.is_some());
        let input_settled = self.wire.pipe.input_settled();
        let output_settled = self.wire.pipe.output_settled();
        let choice = self
            .turn
            .begin(4)
            .offer(0, self.free.queue, free_settled)
            .offer(1, self.active.queue, active_settled)
            .offer(2, self.wire.pipe.input.queue, input_settled)
            .offer(3, self.wire.pipe.output.queue, output_settled);
        self.turn.pass(choice)
    }

    // The next call where free buffers come. What it takes is filled with the next frame; where
    // none is there, that frame may be dropped.
    fn step_free<W: Wires>(&mut self, wires: &mut W) -> Event
        requires { FitsDevice (W.ends wires.old) self.old }
        ensures fits { FitsDevice (W.ends wires.new) self.new }
        ensures own { DeviceEnd self.old (role_of result.op) result.queue.0 }
        ensures same { SameDevice self.old self.new }
        ensures stepped { Stepped DeviceStandsFor W.did wires.old wires.new
            self.old self.new result }
        ensures posted { Posted (free_post self.old) (is_filling self.old) result
            (free_post self.new) }
        ensures still { is_mark_at (free_post self.old) result ≡ false
            → self.new.load ≡ self.old.load }
        ensures stays { is_mark_at (free_post self.old) result ≡ false
            → self.new.next ≡ self.old.next }
        ensures others { self.new ≡ record self.old
            { free = self.new.free; load = self.new.load; next = self.new.next } }
    {
        let need = self.is_filling();
        let (event, got, dropped) = take_or_drop(&mut self.free, wires, need, self.drops);
        if let Some(entry) = got {
            let filled = fill(entry, self.frames.get(self.next));
            self.load = Some(filled);
            self.next += 1;
        } else if dropped {
            self.next += 1;
        }
        event
    }

    // The next call where filled buffers go.
    fn step_active<W: Wires>(&mut self, wires: &mut W) -> Event
        requires { FitsDevice (W.ends wires.old) self.old }
        ensures fits { FitsDevice (W.ends wires.new) self.new }
        ensures own { DeviceEnd self.old (role_of result.op) result.queue.0 }
        ensures same { SameDevice self.old self.new }
        ensures stepped { Stepped DeviceStandsFor W.did wires.old wires.new
            self.old self.new result }
        ensures posted { Posted (outlet_post self.old.active) (is_some self.old.load) result
            (outlet_post self.new.active) }
        ensures still { is_mark result.op result.answer ≡ false → self.new.load ≡ self.old.load }
        ensures others { self.new ≡ record self.old
            { active = self.new.active; load = self.new.load } }
    {
        self.active.step(wires, &mut self.load)
    }

    // The next call where frames come that are to be sent. What it takes is recorded.
    fn step_input<W: Wires>(&mut self, wires: &mut W) -> Event
        requires fits { FitsDevice (W.ends wires.old) self.old }
        requires place { 0 < self.old.wire.tape.places }
        requires bytes { 65535 ≤ self.old.wire.tape.bytes }
        ensures fits { FitsDevice (W.ends wires.new) self.new }
        ensures own { DeviceEnd self.old (role_of result.op) result.queue.0 }
        ensures same { SameDevice self.old self.new }
        ensures stepped { Stepped DeviceStandsFor W.did wires.old wires.new
            self.old self.new result }
        ensures posted { Posted (intake_post self.old.wire.pipe.input)
            (is_none self.old.wire.pipe.load) result (intake_post self.new.wire.pipe.input) }
        ensures still { is_mark result.op result.answer ≡ false → self.new.wire.pipe.load
            ≡ self.old.wire.pipe.load }
        ensures output { self.new.wire.pipe.output ≡ self.old.wire.pipe.output }
        ensures others { self.new ≡ record self.old { wire = self.new.wire } }
    {
        self.wire.step_input(wires)
    }

    // The next call where the buffers of what was sent go back.
    fn step_output<W: Wires>(&mut self, wires: &mut W) -> Event
        requires { FitsDevice (W.ends wires.old) self.old }
        ensures fits { FitsDevice (W.ends wires.new) self.new }
        ensures own { DeviceEnd self.old (role_of result.op) result.queue.0 }
        ensures same { SameDevice self.old self.new }
        ensures stepped { Stepped DeviceStandsFor W.did wires.old wires.new
            self.old self.new result }
        ensures posted { Posted (outlet_post self.old.wire.pipe.output)
            (is_some self.old.wire.pipe.load) result (outlet_post self.new.wire.pipe.output) }
        ensures still { is_mark result.op result.answer ≡ false → self.new.wire.pipe.load
            ≡ self.old.wire.pipe.load }
        ensures input { self.new.wire.pipe.input ≡ self.old.wire.pipe.input }
        ensures others { self.new ≡ record self.old { wire = self.new.wire } }
    {
        self.wire.step_output(wires)
    }

    /// Makes one call on one of its ends. The memory of the wire is taken first; after want of
    /// memory no call was made and nothing changed.
    #[inline(never)]
    pub fn step<W: Wires>(&mut self, wires: &mut W) -> Result<Event, Memory>
        requires { FitsDevice (W.ends wires.old) self.old }
        ensures fits { FitsDevice (W.ends wires.new) self.new }
        ensures own { IfOk result (λ e. DeviceEnd self.old (role_of e.op) e.queue.0) }
        ensures same { SameDevice self.old self.new }
        ensures stepped { IfOk result
            (λ e. Stepped DeviceStandsFor W.did wires.old wires.new self.old self.new e) }
        ensures turned { IfOk result (λ e. Turned (device_round self.old) e
            (device_round self.new)) }
        ensures no_call { OnErr result (wires.new ≡ wires.old) }
        ensures unchanged { OnErr result (self.new ≡ self.old) }
    {
        self.wire.reserve()?;
        match self.choose() {
            0 => Ok(self.step_free(wires)),
            1 => Ok(self.step_active(wires)),
            2 => Ok(self.step_input(wires)),
            3 => Ok(self.step_output(wires)),
            _ => unreachable!(),
        }
    }

    /// Discards the last look of each end, and nothing else.
    pub fn forget(&mut self)
        ensures after { self.new ≡ device_forgotten self.old }
        ensures same { SameDevice self.old self.new }
        ensures fits { (ends : Role → ℕ → End) → FitsDevice ends self.old
            → FitsDevice ends self.new }
        ensures lists { (passed : Passed) → DeviceStandsFor self.old passed
            → DeviceStandsFor self.new passed }
        ensures held { (passed : Passed) → HoldingDeviceStands self.old passed
            → HoldingDeviceStands self.new passed }
    {
        self.free.forget();
        self.active.forget();
        self.wire.pipe.forget();
    }
}

/// Whatever it stands for meets its row.
pub fn row_law()
    ensures { (d : EthDevice) (passed : Passed) → DeviceStandsFor d passed → DeviceRow d passed }
{}

/// What came and did not go out is in its hand.
pub fn hand_law()
    ensures { (d : EthDevice) (passed : Passed) → DeviceStandsFor d passed
        → DeviceBalances d passed }
{}

/// Where it waits each of its contracts is that of a device which never drops, word for word: what
/// it stands for, its row, and its ends. And it drops no more frames than its looks for a free
/// buffer were in vain.
pub fn drop_law()
    ensures stands { (d : EthDevice) (passed : Passed) → d.drops ≡ false
        → DeviceStandsFor d passed → HoldingDeviceStands d passed }
    ensures stood { (d : EthDevice) (passed : Passed) → d.drops ≡ false
        → HoldingDeviceStands d passed → DeviceStandsFor d passed }
    ensures holds { (d : EthDevice) (passed : Passed) → d.drops ≡ false → DeviceRow d passed
        → HoldingDeviceRow d passed }
    ensures held { (d : EthDevice) (passed : Passed) → d.drops ≡ false → HoldingDeviceRow d passed
        → DeviceRow d passed }
    ensures row { (d : EthDevice) (passed : Passed) → HoldingDeviceStands d passed
        → HoldingDeviceRow d passed }
    ensures balance { (d : EthDevice) (passed : Passed) → HoldingDeviceStands d passed
        → DeviceBalances d passed }
    ensures round { (d : EthDevice) → d.drops ≡ false → device_round d ≡ holding_device_round d }
    ensures few { (d : EthDevice) (calls : List Event) → marked (frames_dropped d calls)
        ≤ noes_at Consumer d.free.queue.0 calls }
{}

/// A turn of it is a drop exactly where it drops and a look for a free buffer was in vain: so the
/// entry of a journal alone tells.
pub fn turn_law()
    ensures { (d n : EthDevice) (e : Event)
        → (d.free.queue.0 ≡ d.wire.pipe.input.queue.0 → ⊥)
        → (t : Turned (device_round d) e (device_round n)) → is_drop t.posted.post e
        ≡ (d.drops && is_vain_at Consumer d.free.queue.0 e) }
{}
