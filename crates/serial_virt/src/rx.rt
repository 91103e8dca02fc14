//! The virtualiser that shares out what was received.

ghost use Rattle.std.specs.Prelude.{◌≡◌, ◌==◌, ◌<◌, ◌≤◌, ◌+◌, ◌^◌, ℕ, Bool, List, [], ◌++◌, None};
ghost use Rattle.std.specs.Prelude.{Some, IfOk, IfSome, length, map, slice_get, is_none, is_some};
ghost use Rattle.std.specs.Prelude.{false, if◌then◌else◌};
ghost use Rattle.std.specs.Option.{ForSome, option_to_list};
ghost use Rattle.cargo_core.specs.Items.{kind_of};
ghost use Rattle.wire_core.specs.Ends.{role_of, Role, End, Producer, Consumer};
ghost use Rattle.wire_core.specs.Lists.{Passed, Stepped, nothing_passed};
ghost use Rattle.wire_core.specs.Marks.{is_mark};
ghost use Rattle.wire_core.specs.Fates.{marked, noes_at};
ghost use Rattle.turn_kit.specs.Turns.{Turned, Posted, PostedAt, choice_of, chosen_place};
ghost use Rattle.turn_kit.specs.Turns.{Post, last_after, is_at_rest, is_drop, is_mark_at};
ghost use Rattle.turn_kit.specs.Posts.{intake_post};
ghost use Rattle.cargo_core.specs.Bodies.{buffers_of};
ghost use Rattle.turn_kit.specs.ManyEnds.{AreApart, outlet_queues, outlet_posts};
ghost use Rattle.class_expect.specs.SerialSwitch.Carried.{bytes_carried, byte_cargo};
ghost use Rattle.class_expect.specs.SerialSwitch.Standing.{StandsAfter};
ghost use Rattle.class_expect.specs.SerialSwitch.Switching.{input_of, given_to};
ghost use Rattle.serial_virt.specs.Forgetting.{outlet_forgotten};
ghost use Rattle.serial_virt.specs.Receiving.{FitsRx, RxStandsFor, RxRow, RxBalances, RxEnd};
ghost use Rattle.serial_virt.specs.Receiving.{IsNewRx, RxForgot, new_outlet, rx_queues, rx_round};
ghost use Rattle.serial_virt.specs.Receiving.{rx_hand, loaded_with, loaded_for, is_owed_at};
ghost use Rattle.serial_virt.specs.Receiving.{place_loaded, client_posts, taker_of};
ghost use Rattle.serial_virt.specs.Receiving.{HoldingRxStands, HoldingRxRow, holding_rx_round};
ghost use Rattle.serial_virt.specs.Shares.{AllHold, byte_fate, is_byte_drop};

use cargo_core::{Body, Item, Memory, PoolId};
use class_expect::serial_switch::Switch;
use std::alloc::Global;
use turn_kit::{Intake, Lowest, Outlet, Outlets, Turn, count_held, pull, put_or_drop_at};
use wire_core::{Event, QueueId, Wires};

/// Shares out what the driver received, by the selections that stand in it. `load` is the byte that
/// it owes to the client at the place `to`; while that client has no room, it waits, or drops the
/// byte where `drops` says so of that client.
#[derive(Drop)]
pub struct SerialVirtRx {
    pub input: Intake,
    pub outputs: Outlets,
    pub switch: Switch,
    pub load: Option<(Item, Body)>,
    pub to: usize,
    pub drops: Vec<bool>,
    pub turn: Turn,
}

// Ends in their start state.
fn outlets(alloc: Global, clients: &[(QueueId, bool)]) -> Result<Outlets, Memory>
    ensures { IfOk result (λ o. o.ends.items ≡ map (λ c. new_outlet c.0) clients.now) }
{
    let mut ends = Vec::with_capacity(alloc, clients.len())?;
    for client in clients {
        ends.push(Outlet::new(client.0))?;
    }
    Ok(Outlets { ends })
}

// Of each client, whether bytes for it may be dropped.
fn policies(alloc: Global, clients: &[(QueueId, bool)]) -> Result<Vec<bool>, Memory>
    ensures { IfOk result (λ drops. drops.items ≡ map (λ c. c.1) clients.now) }
{
    let mut drops = Vec::with_capacity(alloc, clients.len())?;
    for client in clients {
        drops.push(client.1)?;
    }
    Ok(drops)
}

// Discards the last look of each end.
fn forget_outputs(outputs: &mut Outlets)
    ensures { outputs.new.ends.items ≡ map outlet_forgotten outputs.old.ends.items }
{
    for k in 0..outputs.ends.len() {
        let end = &mut outputs.ends[k];
        end.forget();
    }
}

// Reads what was taken, and answers the client that gets a byte for it.
#[inline(always)]
fn read(switch: &mut Switch, taken: Option<(Item, Body)>) -> Option<(u32, u8)>
    ensures after { (clients : ℕ) (input : List ℕ) → StandsAfter clients input switch.old
        → StandsAfter clients (input ++ bytes_carried (option_to_list taken)) switch.new }
    ensures given { (clients : ℕ) (input : List ℕ) → StandsAfter clients input switch.old
        → (client : ℕ) → input_of clients client (input ++ bytes_carried (option_to_list taken))
        ≡ input_of clients client input ++ given_to client result }
    ensures known { (clients : ℕ) (input : List ℕ) → StandsAfter clients input switch.old
        → IfSome result (λ g. g.0 < clients) }
    ensures none { taken ≡ None → result ≡ None }
{
    match taken {
        Some((Item::Byte(byte), _)) => switch.step(byte),
        _ => None,
    }
}

impl SerialVirtRx {
    /// A virtualiser in its start state, which shares out what comes at `rx` to the clients: of
    /// each its queue, and whether a byte for which this has no room is dropped.
    pub fn new(
        alloc: Global,
        rx: QueueId,
        clients: Vec<(QueueId, bool)>,
    ) -> Result<SerialVirtRx, Memory>
        requires some { 0 < length clients.items }
        requires few { length clients.items < 2 ^ 32 }
        ensures new { IfOk result (λ v. IsNewRx rx (map (λ c. c.0) clients.items)
            (map (λ c. c.1) clients.items) v) }
        ensures stands { IfOk result (λ v. RxStandsFor v nothing_passed) }
    {
        Ok(SerialVirtRx {
            input: Intake::new(rx),
            outputs: outlets(alloc, &clients)?,
            switch: Switch::new(clients.len() as u32),
            load: None,
            to: 0,
            drops: policies(alloc, &clients)?,
            turn: Turn::new(),
        })
    }

    // The place of the client that is owed a byte.
    fn client_owed(&self) -> Option<usize>
        ensures { result ≡ place_loaded self.now }
    {
        if self.load.is_some() {
            Some(self.to)
        } else {
            None
        }
    }

    /// Whether nothing is to be done before a notification comes.
    pub fn at_rest(&self) -> bool
        ensures { result ≡ is_at_rest (rx_round self.now) }
    {
        self.input.settled(self.load.is_none()) && self.outputs.settled(&self.client_owed())
    }

    /// How many buffers of a pool are in its hand: none, since a byte has no buffer.
    pub fn held(&self, pool: PoolId) -> u32
        ensures { result ≡ buffers_of pool (rx_hand self.now) }
    {
        count_held(pool, &self.load)
    }

    // The end that is stepped now: the input is the first, the clients follow in their order. The
    // rotation is asked only where all are settled.
    #[inline(always)]
    fn choose(&mut self) -> usize
        ensures place { result ≡ chosen_place (choice_of (rx_round self.old)) }
        ensures within { result < 1 + length (outlet_queues self.old.outputs) }
        ensures after { self.new ≡ record self.old {
          turn =
              record { last = last_after (choice_of (rx_round self.old)) };
        } }
    {
        let count = 1 + self.outputs.len();
        let owed = self.client_owed();
        let settled = self.input.settled(self.load.is_none());
        let lowest = Lowest::none().unless_settled(0, self.input.queue, settled);
        let lowest = self.outputs.unsettled(lowest, 1, &owed);
        if let Some(end) = lowest.stand() {
            return end.place;
        }
        let choice = self.turn.begin(count).offer(0, self.input.queue, settled);
        let choice = self.outputs.offer(choice, 1, &owed);
        self.turn.pass(choice)
    }

    // A byte that was given is owed.
    fn owe(&mut self, given: Option<(u32, u8)>)
        ensures load { self.new.load ≡ loaded_with self.old.load given }
        ensures to { self.new.to ≡ loaded_for self.old.to given }
        ensures rest { self.new ≡ record self.old { load = self.new.load; to = self.new.to } }
    {
        if let Some((client, byte)) = given {
            self.to = client as usize;
            self.load = Some((Item::Byte(byte), Body::Empty));
        }
    }

    // The next call of the input. What it takes is switched.
    fn step_input<W: Wires>(&mut self, wires: &mut W, event: &mut Event)
        requires { FitsRx (W.ends wires.old) self.old }
        ensures fits { FitsRx (W.ends wires.new) self.new }
        ensures own { RxEnd self.old (role_of event.new.op) event.new.queue.0 }
        ensures queues { rx_queues self.new ≡ rx_queues self.old }
        ensures policies { self.new.drops.items ≡ self.old.drops.items }
        ensures stepped { Stepped RxStandsFor W.did wires.old wires.new self.old self.new
            event.new }
        ensures posted { Posted (intake_post self.old.input) (is_none self.old.load) event.new
            (intake_post self.new.input) }
        ensures still { is_mark event.new.op event.new.answer ≡ false
            → self.new.load ≡ self.old.load }
        ensures to { is_mark event.new.op event.new.answer ≡ false → self.new.to ≡ self.old.to }
        ensures outputs { self.new.outputs ≡ self.old.outputs }
        ensures turn { self.new.turn ≡ self.old.turn }
    {
        let mut taken = None;
        pull(
            &mut self.input,
            wires,
            self.load.is_none(),
            &mut taken,
            event,
        );
        let given = read(&mut self.switch, taken);
        self.owe(given);
    }

    // The next call of a client's end, which puts the byte that is owed to it, or drops it.
    fn step_output<W: Wires>(&mut self, wires: &mut W, k: usize, event: &mut Event)
        requires fits { FitsRx (W.ends wires.old) self.old }
        requires there { k < length (outlet_queues self.old.outputs) }
        ensures fits { FitsRx (W.ends wires.new) self.new }
        ensures own { RxEnd self.old (role_of event.new.op) event.new.queue.0 }
        ensures queues { rx_queues self.new ≡ rx_queues self.old }
        ensures policies { self.new.drops.items ≡ self.old.drops.items }
        ensures stepped { Stepped RxStandsFor W.did wires.old wires.new self.old self.new
            event.new }
        ensures posted { PostedAt (client_posts self.old) k (is_owed_at self.old k) event.new
            (client_posts self.new) }
        ensures still { (p : Post) → slice_get (client_posts self.old) k ≡ Some p
            → is_mark_at p event.new ≡ false → self.new.load ≡ self.old.load }
        ensures to { self.new.to ≡ self.old.to }
        ensures input { self.new.input ≡ self.old.input }
        ensures turn { self.new.turn ≡ self.old.turn }
    {
        let drops = self.drops[k];
        if k == self.to {
            let dropped = put_or_drop_at(&mut self.outputs, wires, k, &mut self.load, drops, event);
            if dropped {
                self.load = None;
            }
        } else {
            let mut nothing = None;
            put_or_drop_at(&mut self.outputs, wires, k, &mut nothing, drops, event);
        }
    }

    /// Makes one call on one of its ends, which `event` tells then.
    #[inline(never)]
    pub fn step<W: Wires>(&mut self, wires: &mut W, event: &mut Event)
        requires { FitsRx (W.ends wires.old) self.old }
        ensures fits { FitsRx (W.ends wires.new) self.new }
        ensures own { RxEnd self.old (role_of event.new.op) event.new.queue.0 }
        ensures queues { rx_queues self.new ≡ rx_queues self.old }
        ensures policies { self.new.drops.items ≡ self.old.drops.items }
        ensures stepped { Stepped RxStandsFor W.did wires.old wires.new self.old self.new
            event.new }
        ensures turned { Turned (rx_round self.old) event.new (rx_round self.new) }
    {
        let place = self.choose();
        if place == 0 {
            self.step_input(wires, event)
        } else {
            self.step_output(wires, place - 1, event)
        }
    }

    /// Discards the last look of each end, and nothing else.
    pub fn forget(&mut self)
        ensures after { RxForgot self.old self.new }
        ensures queues { rx_queues self.new ≡ rx_queues self.old }
        ensures policies { self.new.drops.items ≡ self.old.drops.items }
        ensures fits { (ends : Role → ℕ → End) → FitsRx ends self.old → FitsRx ends self.new }
        ensures lists { (passed : Passed) → RxStandsFor self.old passed
            → RxStandsFor self.new passed }
        ensures held { (passed : Passed) → HoldingRxStands self.old passed
            → HoldingRxStands self.new passed }
    {
        self.input.forget();
        forget_outputs(&mut self.outputs);
    }
}

/// Whatever it stands for meets its row.
pub fn rx_row_law()
    ensures { (v : SerialVirtRx) (passed : Passed) → RxStandsFor v passed → RxRow v passed }
{}

/// What came and did not go out is kept for good, and its hand is new bytes.
pub fn rx_hand_law()
    ensures { (v : SerialVirtRx) (passed : Passed) → RxStandsFor v passed → RxBalances v passed }
{}

/// Where it waits for each client each of its contracts is that of a virtualiser which never drops,
/// word for word: what it stands for, its row, and its ends. And of each client it drops no more
/// bytes than its looks for room were in vain.
pub fn rx_drop_law()
    ensures stands { (v : SerialVirtRx) (passed : Passed) → AllHold v.drops.items
        → RxStandsFor v passed → HoldingRxStands v passed }
    ensures stood { (v : SerialVirtRx) (passed : Passed) → AllHold v.drops.items
        → HoldingRxStands v passed → RxStandsFor v passed }
    ensures holds { (v : SerialVirtRx) (passed : Passed) → AllHold v.drops.items → RxRow v passed
        → HoldingRxRow v passed }
    ensures held { (v : SerialVirtRx) (passed : Passed) → AllHold v.drops.items
        → HoldingRxRow v passed → RxRow v passed }
    ensures row { (v : SerialVirtRx) (passed : Passed) → HoldingRxStands v passed
        → HoldingRxRow v passed }
    ensures balance { (v : SerialVirtRx) (passed : Passed) → HoldingRxStands v passed
        → RxBalances v passed }
    ensures round { (v : SerialVirtRx) → AllHold v.drops.items → rx_round v ≡ holding_rx_round v }
    ensures few { (v : SerialVirtRx) (k : ℕ) (q : QueueId) (calls : List Event)
        → marked (byte_fate v.input.queue.0 (taker_of v k q) calls).dropped
        ≤ noes_at Producer q.0 calls }
{}

/// A turn of it is a drop exactly where a look for room was in vain in the queue of a client whose
/// bytes may be dropped: so the entry of a journal alone tells.
pub fn rx_turn_law()
    ensures { (v n : SerialVirtRx) (e : Event) → AreApart (outlet_queues v.outputs)
        → (t : Turned (rx_round v) e (rx_round n)) → is_drop t.posted.post e
        ≡ is_byte_drop (outlet_queues v.outputs) v.drops.items e }
{}
