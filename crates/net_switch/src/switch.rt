//! The switch.
ghost use Rattle.std.specs.Prelude.{◌≡◌, ◌<◌, ◌^◌, true, false, length, map, IfOk};
ghost use Rattle.frame_core.specs.declared.mac.Mac.{Mac};
ghost use Rattle.wire_core.specs.Lists.{Passed, Stepped, nothing_passed};
ghost use Rattle.wire_core.specs.Marks.{is_mark};
ghost use Rattle.turn_kit.specs.Turns.{Turned, PostedAt, choice_of, chosen_place, last_after};
ghost use Rattle.turn_kit.specs.Turns.{is_at_rest};
ghost use Rattle.net_switch.specs.SwitchDesk.Desks.{is_taking, is_returning, is_wanting, is_loaded};
ghost use Rattle.net_switch.specs.Ends.{switch_posts, come_queues, back_queues, room_queues};
ghost use Rattle.net_switch.specs.Ends.{copy_queues, place_of, need_at, IsThere};
ghost use Rattle.net_switch.specs.Switching.{FitsSwitch, SwitchStandsFor, SwitchRow, SameSwitch};
ghost use Rattle.net_switch.specs.Switching.{SameDesk};
ghost use Rattle.net_switch.specs.declared.switch.PortEnds.{PortEnds};
ghost use Rattle.net_switch.specs.Switching.{switch_round, queue_of, IsNewSwitch};

use crate::ends::{SwitchEnd, SwitchEnds};
use crate::switch_desk::{Desk, Loaded, Returning, Taking, Wanting, back_law};
use cargo_core::Memory;
use frame_core::Mac;
use std::alloc::Global;
use wire_core::{Event, QueueId, Wires};

/// A port of a switch: its address, and its queues for sending and for receiving, each that of
/// frames and then that of free buffers.
#[derive(Clone, Copy, Debug, PartialEq, Eq)]
pub struct PortEnds {
    pub mac: Mac,
    pub tx: [QueueId; 2],
    pub rx: [QueueId; 2],
}

/// A switch between the ports of network clients.
#[derive(Drop)]
pub struct NetSwitch {
    pub ends: SwitchEnds,
    pub desk: Desk,
}

// The addresses of ports.
fn macs_of(alloc: Global, ports: &[PortEnds]) -> Result<Vec<Mac>, Memory>
    ensures { IfOk result (λ v. v.items ≡ map (λ (p : PortEnds). p.mac) ports.now) }
{
    let mut macs = Vec::with_capacity(alloc, ports.len())?;
    for port in ports {
        macs.push(port.mac)?;
    }
    Ok(macs)
}

// The queues of ports for sending: those of frames, or those of free buffers.
fn sending(alloc: Global, ports: &[PortEnds], place: usize) -> Result<Vec<QueueId>, Memory>
    requires { place < 2 }
    ensures { IfOk result (λ v. v.items ≡ map (λ (p : PortEnds). queue_of p.tx place) ports.now) }
{
    let mut queues = Vec::with_capacity(alloc, ports.len())?;
    for port in ports {
        queues.push(port.tx[place])?;
    }
    Ok(queues)
}

// The queues of ports for receiving: those of frames, or those of free buffers.
fn receiving(alloc: Global, ports: &[PortEnds], place: usize) -> Result<Vec<QueueId>, Memory>
    requires { place < 2 }
    ensures { IfOk result (λ v. v.items ≡ map (λ (p : PortEnds). queue_of p.rx place) ports.now) }
{
    let mut queues = Vec::with_capacity(alloc, ports.len())?;
    for port in ports {
        queues.push(port.rx[place])?;
    }
    Ok(queues)
}

impl NetSwitch {
    /// A switch in its start state, of these ports.
    pub fn new(alloc: Global, ports: Vec<PortEnds>) -> Result<NetSwitch, Memory>
        requires { length ports.items < 2 ^ 32 }
        ensures new { IfOk result (IsNewSwitch ports.items) }
        ensures stands { IfOk result (λ v. SwitchStandsFor v nothing_passed) }
    {
        let come = sending(alloc, &ports, 0)?;
        let back = sending(alloc, &ports, 1)?;
        let copy = receiving(alloc, &ports, 0)?;
        let room = receiving(alloc, &ports, 1)?;
        let macs = macs_of(alloc, &ports)?;
        let ends = SwitchEnds::new(alloc, &come, &back, &room, &copy)?;
        let desk = Desk::new(alloc, macs)?;
        Ok(NetSwitch { ends, desk })
    }

    /// Whether nothing is to be done before a notification comes.
    pub fn at_rest(&self) -> bool
        ensures { result ≡ is_at_rest (switch_round self.now) }
    {
        let desk = &self.desk;
        self.ends.settled(
            &Taking { desk },
            &Returning { desk },
            &Wanting { desk },
            &Loaded { desk },
        )
    }

    /// How many frames went to no port.
    pub fn lost(&self) -> u64
        ensures { result ≡ self.now.desk.lost }
    {
        self.desk.lost
    }

    // The end that is stepped now.
    fn choose(&mut self) -> SwitchEnd
        requires some { 0 < length (come_queues self.old.ends) }
        requires come { length (come_queues self.old.ends) < 2 ^ 32 }
        requires back { length (back_queues self.old.ends) ≡ length (come_queues self.old.ends) }
        requires room { length (room_queues self.old.ends) ≡ length (come_queues self.old.ends) }
        requires copy { length (copy_queues self.old.ends) ≡ length (come_queues self.old.ends) }
        ensures place { place_of self.old.ends result
            ≡ chosen_place (choice_of (switch_round self.old)) }
        ensures there { IsThere self.old.ends result }
        ensures after { self.new ≡ record self.old {
          ends = record self.old.ends {
            turn = record { last = last_after (choice_of (switch_round self.old)) };
          };
        } }
    {
        let desk = &self.desk;
        self.ends.choose(
            &Taking { desk },
            &Returning { desk },
            &Wanting { desk },
            &Loaded { desk },
        )
    }

    // The next call where frames come from the port at a place.
    fn step_come<W: Wires>(&mut self, wires: &mut W, port: usize) -> Event
        requires fits { FitsSwitch (W.ends wires.old) self.old }
        requires there { port < length (come_queues self.old.ends) }
        ensures fits { FitsSwitch (W.ends wires.new) self.new }
        ensures same { SameSwitch self.old self.new }
        ensures stepped { Stepped SwitchStandsFor W.did wires.old wires.new self.old self.new
            result }
        ensures posted { PostedAt (switch_posts self.old.ends)
            (place_of self.old.ends (SwitchEnd.Come port)) (is_taking self.old.desk port) result
            (switch_posts self.new.ends) }
        ensures still { is_mark result.op result.answer ≡ false
            → SameDesk self.old.desk self.new.desk }
        ensures turn { self.new.ends.turn ≡ self.old.ends.turn }
    {
        let need = self.desk.is_taking(port);
        let (event, got) = self.ends.step_come(wires, port, need);
        if let Some(entry) = got {
            self.desk.receive(port, entry);
        }
        event
    }

    // The next call for the buffer that goes back to the port at a place.
    fn put_back<W: Wires>(&mut self, wires: &mut W, port: usize) -> Event
        requires fits { FitsSwitch (W.ends wires.old) self.old }
        requires there { port < length (come_queues self.old.ends) }
        requires returning { is_returning self.old.desk port ≡ true }
        ensures fits { FitsSwitch (W.ends wires.new) self.new }
        ensures same { SameSwitch self.old self.new }
        ensures stepped { Stepped SwitchStandsFor W.did wires.old wires.new self.old self.new
            result }
        ensures posted { PostedAt (switch_posts self.old.ends)
            (place_of self.old.ends (SwitchEnd.Back port)) (true) result
            (switch_posts self.new.ends) }
        ensures still { is_mark result.op result.answer ≡ false
            → SameDesk self.old.desk self.new.desk }
        ensures turn { self.new.ends.turn ≡ self.old.ends.turn }
    {
        let slot = &mut self.desk.slots[port];
        let event = self.ends.step_back(wires, port, &mut slot.frame);
        back_law();
        event
    }

    // The next call where buffers go back to the port at a place.
    fn step_back<W: Wires>(&mut self, wires: &mut W, port: usize) -> Event
        requires fits { FitsSwitch (W.ends wires.old) self.old }
        requires there { port < length (come_queues self.old.ends) }
        ensures fits { FitsSwitch (W.ends wires.new) self.new }
        ensures same { SameSwitch self.old self.new }
        ensures stepped { Stepped SwitchStandsFor W.did wires.old wires.new self.old self.new
            result }
        ensures posted { PostedAt (switch_posts self.old.ends)
            (place_of self.old.ends (SwitchEnd.Back port)) (is_returning self.old.desk port) result
            (switch_posts self.new.ends) }
        ensures still { is_mark result.op result.answer ≡ false
            → SameDesk self.old.desk self.new.desk }
        ensures turn { self.new.ends.turn ≡ self.old.ends.turn }
    {
        if self.desk.is_returning(port) {
            self.put_back(wires, port)
        } else {
            let mut nothing = None;
            self.ends.step_back(wires, port, &mut nothing)
        }
    }

    // The next call where buffers for copies come from the port at a place.
    fn step_room<W: Wires>(&mut self, wires: &mut W, port: usize) -> Event
        requires fits { FitsSwitch (W.ends wires.old) self.old }
        requires there { port < length (come_queues self.old.ends) }
        ensures fits { FitsSwitch (W.ends wires.new) self.new }
        ensures same { SameSwitch self.old self.new }
        ensures stepped { Stepped SwitchStandsFor W.did wires.old wires.new self.old self.new
            result }
        ensures posted { PostedAt (switch_posts self.old.ends)
            (place_of self.old.ends (SwitchEnd.Room port)) (is_wanting self.old.desk port) result
            (switch_posts self.new.ends) }
        ensures still { is_mark result.op result.answer ≡ false
            → SameDesk self.old.desk self.new.desk }
        ensures turn { self.new.ends.turn ≡ self.old.ends.turn }
    {
        let need = self.desk.is_wanting(port);
        let (event, got) = self.ends.step_room(wires, port, need);
        if let Some(entry) = got {
            self.desk.copy(port, entry);
        }
        event
    }

    // The next call for the copy that goes to the port at a place.
    fn put_copy<W: Wires>(&mut self, wires: &mut W, port: usize) -> Event
        requires fits { FitsSwitch (W.ends wires.old) self.old }
        requires there { port < length (come_queues self.old.ends) }
        requires loaded { is_loaded self.old.desk port ≡ true }
        ensures fits { FitsSwitch (W.ends wires.new) self.new }
        ensures same { SameSwitch self.old self.new }
        ensures stepped { Stepped SwitchStandsFor W.did wires.old wires.new self.old self.new
            result }
        ensures posted { PostedAt (switch_posts self.old.ends)
            (place_of self.old.ends (SwitchEnd.Copy port)) (true) result
            (switch_posts self.new.ends) }
        ensures still { is_mark result.op result.answer ≡ false
            → SameDesk self.old.desk self.new.desk }
        ensures turn { self.new.ends.turn ≡ self.old.ends.turn }
    {
        let slot = &mut self.desk.slots[port];
        let event = self.ends.step_copy(wires, port, &mut slot.copy);
        if slot.copy.is_none() {
            self.desk.settle(port);
        }
        event
    }

    // The next call where copies go to the port at a place.
    fn step_copy<W: Wires>(&mut self, wires: &mut W, port: usize) -> Event
        requires fits { FitsSwitch (W.ends wires.old) self.old }
        requires there { port < length (come_queues self.old.ends) }
        ensures fits { FitsSwitch (W.ends wires.new) self.new }
        ensures same { SameSwitch self.old self.new }
        ensures stepped { Stepped SwitchStandsFor W.did wires.old wires.new self.old self.new
            result }
        ensures posted { PostedAt (switch_posts self.old.ends)
            (place_of self.old.ends (SwitchEnd.Copy port)) (is_loaded self.old.desk port) result
            (switch_posts self.new.ends) }
        ensures still { is_mark result.op result.answer ≡ false
            → SameDesk self.old.desk self.new.desk }
        ensures turn { self.new.ends.turn ≡ self.old.ends.turn }
    {
        if self.desk.is_loaded(port) {
            self.put_copy(wires, port)
        } else {
            let mut nothing = None;
            self.ends.step_copy(wires, port, &mut nothing)
        }
    }

    // The next call at an end.
    fn step_at<W: Wires>(&mut self, wires: &mut W, at: SwitchEnd) -> Event
        requires fits { FitsSwitch (W.ends wires.old) self.old }
        requires there { IsThere self.old.ends at }
        ensures fits { FitsSwitch (W.ends wires.new) self.new }
        ensures same { SameSwitch self.old self.new }
        ensures stepped { Stepped SwitchStandsFor W.did wires.old wires.new self.old self.new
            result }
        ensures posted { PostedAt (switch_posts self.old.ends) (place_of self.old.ends at) (need_at
            (is_taking self.old.desk) (is_returning self.old.desk) (is_wanting self.old.desk)
            (is_loaded self.old.desk) at) result (switch_posts self.new.ends) }
        ensures still { is_mark result.op result.answer ≡ false
            → SameDesk self.old.desk self.new.desk }
        ensures turn { self.new.ends.turn ≡ self.old.ends.turn }
    {
        match at {
            SwitchEnd::Come(port) => self.step_come(wires, port),
            SwitchEnd::Back(port) => self.step_back(wires, port),
            SwitchEnd::Room(port) => self.step_room(wires, port),
            SwitchEnd::Copy(port) => self.step_copy(wires, port),
        }
    }

    /// Makes one call on one of its ends. It takes no memory.
    #[inline(never)]
    pub fn step<W: Wires>(&mut self, wires: &mut W) -> Event
        requires { FitsSwitch (W.ends wires.old) self.old }
        ensures fits { FitsSwitch (W.ends wires.new) self.new }
        ensures same { SameSwitch self.old self.new }
        ensures stepped { Stepped SwitchStandsFor W.did wires.old wires.new self.old self.new
            result }
        ensures turned { Turned (switch_round self.old) result (switch_round self.new) }
    {
        let at = self.choose();
        self.step_at(wires, at)
    }
}

/// Whatever it stands for meets its row.
pub fn row_law()
    ensures { (v : NetSwitch) (passed : Passed) → SwitchStandsFor v passed → SwitchRow v passed }
{}
