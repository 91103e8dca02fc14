//! The virtualiser that merges what the clients send.

ghost use Rattle.std.specs.Prelude.{◌≡◌, ◌<◌, ◌+◌, ℕ, [], None, IfOk, length, is_none, is_some};
ghost use Rattle.std.specs.Prelude.{false, map};
ghost use Rattle.wire_core.specs.Ends.{role_of, Role, End, Producer, Consumer};
ghost use Rattle.wire_core.specs.Lists.{Passed, Stepped, nothing_passed};
ghost use Rattle.wire_core.specs.Marks.{is_mark};
ghost use Rattle.turn_kit.specs.Turns.{Turned, Posted, PostedAt, choice_of, chosen_place};
ghost use Rattle.turn_kit.specs.Turns.{last_after, is_at_rest};
ghost use Rattle.turn_kit.specs.Posts.{outlet_post};
ghost use Rattle.cargo_core.specs.Bodies.{buffers_of};
ghost use Rattle.turn_kit.specs.ManyEnds.{intake_queues, intake_posts};
ghost use Rattle.serial_virt.specs.Forgetting.{intake_forgotten};
ghost use Rattle.serial_virt.specs.Sending.{FitsTx, TxStandsFor, TxRow, TxBalances, TxEnd, IsNewTx};
ghost use Rattle.serial_virt.specs.Sending.{TxForgot, new_intake, tx_queues, tx_round, tx_hand};

use cargo_core::{Body, Item, Memory, PoolId};
use std::alloc::Global;
use turn_kit::{Intake, Intakes, Lowest, Outlet, Turn, count_held};
use wire_core::{Event, QueueId, Wires};

/// Moves the clients' bytes to the driver, one at a time and in any order between clients.
#[derive(Drop)]
pub struct SerialVirtTx {
    pub output: Outlet,
    pub inputs: Intakes,
    pub load: Option<(Item, Body)>,
    pub turn: Turn,
}

// Ends in their start state.
fn intakes(alloc: Global, queues: &[QueueId]) -> Result<Intakes, Memory>
    ensures { IfOk result (λ i. i.ends.items ≡ map new_intake queues.now) }
{
    let mut ends = Vec::with_capacity(alloc, queues.len())?;
    for queue in queues {
        ends.push(Intake::new(*queue))?;
    }
    Ok(Intakes { ends })
}

// Discards the last look of each end.
fn forget_inputs(inputs: &mut Intakes)
    ensures { inputs.new.ends.items ≡ map intake_forgotten inputs.old.ends.items }
{
    for k in 0..inputs.ends.len() {
        let end = &mut inputs.ends[k];
        end.forget();
    }
}

impl SerialVirtTx {
    /// A virtualiser in its start state, which moves what the clients put, one queue a client, to
    /// `tx`.
    pub fn new(alloc: Global, tx: QueueId, clients: Vec<QueueId>) -> Result<SerialVirtTx, Memory>
        requires { 0 < length clients.items }
        ensures new { IfOk result (λ v. IsNewTx tx clients.items v) }
        ensures stands { IfOk result (λ v. TxStandsFor v nothing_passed) }
    {
        Ok(SerialVirtTx {
            output: Outlet::new(tx),
            inputs: intakes(alloc, &clients)?,
            load: None,
            turn: Turn::new(),
        })
    }

    /// Whether nothing is to be done before a notification comes.
    pub fn at_rest(&self) -> bool
        ensures { result ≡ is_at_rest (tx_round self.now) }
    {
        self.output.settled(self.load.is_some()) && self.inputs.settled(&self.load.is_none())
    }

    /// How many buffers of a pool are in its hand: none, since a byte has no buffer.
    pub fn held(&self, pool: PoolId) -> u32
        ensures { result ≡ buffers_of pool (tx_hand self.now) }
    {
        count_held(pool, &self.load)
    }

    // The end that is stepped now: the output is the first, the clients follow in their order. The
    // rotation is asked only where all are settled.
    fn choose(&mut self) -> usize
        ensures place { result ≡ chosen_place (choice_of (tx_round self.old)) }
        ensures within { result < 1 + length (intake_queues self.old.inputs) }
        ensures after { self.new ≡ record self.old {
          turn =
              record { last = last_after (choice_of (tx_round self.old)) };
        } }
    {
        let count = 1 + self.inputs.len();
        let free = self.load.is_none();
        let settled = self.output.settled(self.load.is_some());
        let lowest = Lowest::none().unless_settled(0, self.output.queue, settled);
        let lowest = self.inputs.unsettled(lowest, 1, &free);
        if let Some(end) = lowest.stand() {
            return end.place;
        }
        let choice = self.turn.begin(count).offer(0, self.output.queue, settled);
        let choice = self.inputs.offer(choice, 1, &free);
        self.turn.pass(choice)
    }

    // The next call of a client's end. What it takes is loaded.
    fn step_input<W: Wires>(&mut self, wires: &mut W, k: usize) -> Event
        requires fits { FitsTx (W.ends wires.old) self.old }
        requires there { k < length (intake_queues self.old.inputs) }
        ensures fits { FitsTx (W.ends wires.new) self.new }
        ensures own { TxEnd self.old (role_of result.op) result.queue.0 }
        ensures queues { tx_queues self.new ≡ tx_queues self.old }
        ensures stepped { Stepped TxStandsFor W.did wires.old wires.new self.old self.new result }
        ensures posted { PostedAt (intake_posts self.old.inputs) k (is_none self.old.load) result
            (intake_posts self.new.inputs) }
        ensures still { is_mark result.op result.answer ≡ false → self.new.load ≡ self.old.load }
        ensures output { self.new.output ≡ self.old.output }
        ensures turn { self.new.turn ≡ self.old.turn }
    {
        let need = self.load.is_none();
        let (event, taken) = self.inputs.step(wires, k, need);
        if taken.is_some() {
            self.load = taken;
        }
        event
    }

    // The next call of the output, which puts the load.
    fn step_output<W: Wires>(&mut self, wires: &mut W) -> Event
        requires { FitsTx (W.ends wires.old) self.old }
        ensures fits { FitsTx (W.ends wires.new) self.new }
        ensures own { TxEnd self.old (role_of result.op) result.queue.0 }
        ensures queues { tx_queues self.new ≡ tx_queues self.old }
        ensures stepped { Stepped TxStandsFor W.did wires.old wires.new self.old self.new result }
        ensures posted { Posted (outlet_post self.old.output) (is_some self.old.load) result
            (outlet_post self.new.output) }
        ensures still { is_mark result.op result.answer ≡ false → self.new.load ≡ self.old.load }
        ensures inputs { self.new.inputs ≡ self.old.inputs }
        ensures turn { self.new.turn ≡ self.old.turn }
    {
        self.output.step(wires, &mut self.load)
    }

    /// Makes one call on one of its ends.
    #[inline(never)]
    pub fn step<W: Wires>(&mut self, wires: &mut W) -> Event
        requires { FitsTx (W.ends wires.old) self.old }
        ensures fits { FitsTx (W.ends wires.new) self.new }
        ensures own { TxEnd self.old (role_of result.op) result.queue.0 }
        ensures queues { tx_queues self.new ≡ tx_queues self.old }
        ensures stepped { Stepped TxStandsFor W.did wires.old wires.new self.old self.new result }
        ensures turned { Turned (tx_round self.old) result (tx_round self.new) }
    {
        let place = self.choose();
        if place == 0 {
            self.step_output(wires)
        } else {
            self.step_input(wires, place - 1)
        }
    }

    /// Discards the last look of each end, and nothing else.
    pub fn forget(&mut self)
        ensures after { TxForgot self.old self.new }
        ensures queues { tx_queues self.new ≡ tx_queues self.old }
        ensures fits { (ends : Role → ℕ → End) → FitsTx ends self.old → FitsTx ends self.new }
        ensures lists { (passed : Passed) → TxStandsFor self.old passed
            → TxStandsFor self.new passed }
    {
        self.output.forget();
        forget_inputs(&mut self.inputs);
    }
}

/// Whatever it stands for meets its row.
pub fn tx_row_law()
    ensures { (v : SerialVirtTx) (passed : Passed) → TxStandsFor v passed → TxRow v passed }
{}

/// What came and did not go out is in its hand.
pub fn tx_hand_law()
    ensures { (v : SerialVirtTx) (passed : Passed) → TxStandsFor v passed → TxBalances v passed }
{}
