//! All ends of a virtualiser: two at the driver's queues, and for each client one where entries
//! come and one where they go.
ghost use Rattle.std.specs.Prelude.{◌≡◌, ◌==◌, ◌+◌, ◌<◌, ◌^◌, ◌++◌, ◌&&◌, ℕ, [], IfOk, IfSome};
ghost use Rattle.std.specs.Prelude.{IsSome, length, map, is_some, slice_get, Some, None, true};
ghost use Rattle.std.specs.Prelude.{false};
ghost use Rattle.std.specs.Option.{ForSome, option_to_list};
ghost use Rattle.cargo_core.specs.Items.{kind_of};
ghost use Rattle.wire_core.specs.Deeds.{deed_of, put_of};
ghost use Rattle.wire_core.specs.Lists.{taken_by, put_by, if_there};
ghost use Rattle.wire_core.specs.Ends.{role_of, Role, Consumer, Producer, End};
ghost use Rattle.wire_core.specs.Marks.{is_mark};
ghost use Rattle.turn_kit.specs.Turns.{PostedAt, choice_of, chosen_place, last_after, is_at_rest};
ghost use Rattle.buffer_kit.specs.Virtualising.{EndKinds, FitsKinds, VirtOwns, SameVirt, IsNewVirt};
ghost use Rattle.buffer_kit.specs.Virtualising.{VirtForgot, new_intake, new_outlet};
ghost use Rattle.buffer_kit.specs.Virtualising.{intake_forgotten, outlet_forgotten, from_queues};
ghost use Rattle.buffer_kit.specs.Virtualising.{to_queues, virt_posts, virt_round, place_of};
ghost use Rattle.buffer_kit.specs.Virtualising.{IsThere, net_kinds, blk_kinds};

use cargo_core::{Body, Item, Memory};
use std::alloc::Global;
use turn_kit::{Choice, Intake, Intakes, Needs, Outlet, Outlets, Turn};
use wire_core::{Event, QueueId, Wires};

/// One of the ends of a virtualiser: the two at the driver's queues, and those of each client, by
/// the client's place.
#[derive(Clone, Copy, Debug, PartialEq, Eq)]
pub enum VirtEnd {
    Input,
    Output,
    FromClient(usize),
    ToClient(usize),
}

/// What the queues of a class carry, at the ends of its virtualisers.
pub trait Carry {
    /// Of which kind they are, at each sort of end.
    ghost kinds: { EndKinds };
}

/// The network's: descriptors everywhere.
pub struct NetCargo;

impl Carry for NetCargo {
    ghost kinds = { net_kinds };
}

/// The disk's: requests to the driver, and responses to the clients.
pub struct BlkCargo;

impl Carry for BlkCargo {
    ghost kinds = { blk_kinds };
}

/// The ends of a virtualiser, and whose turn it is.
#[derive(Drop)]
pub struct VirtEnds {
    pub input: Intake,
    pub output: Outlet,
    pub from_clients: Intakes,
    pub to_clients: Outlets,
    pub turn: Turn,
}

// Whether all four are so.
fn are_all(first: bool, second: bool, third: bool, fourth: bool) -> bool
    ensures { result ≡ (first && (second && (third && fourth))) }
{
    first && second && third && fourth
}

// Consuming ends in their start state.
fn intakes(alloc: Global, queues: &[QueueId]) -> Result<Intakes, Memory>
    ensures { IfOk result (λ i. i.ends.items ≡ map new_intake queues.now) }
{
    let mut ends = Vec::with_capacity(alloc, queues.len())?;
    for queue in queues {
        ends.push(Intake::new(*queue))?;
    }
    Ok(Intakes { ends })
}

// Producing ends in their start state.
fn outlets(alloc: Global, queues: &[QueueId]) -> Result<Outlets, Memory>
    ensures { IfOk result (λ o. o.ends.items ≡ map new_outlet queues.now) }
{
    let mut ends = Vec::with_capacity(alloc, queues.len())?;
    for queue in queues {
        ends.push(Outlet::new(*queue))?;
    }
    Ok(Outlets { ends })
}

// Discards the last look of each consuming end.
fn forget_inputs(inputs: &mut Intakes)
    ensures { inputs.new.ends.items ≡ map intake_forgotten inputs.old.ends.items }
{
    for k in 0..inputs.ends.len() {
        let end = &mut inputs.ends[k];
        end.forget();
    }
}

// Discards the last look of each producing end.
fn forget_outputs(outputs: &mut Outlets)
    ensures { outputs.new.ends.items ≡ map outlet_forgotten outputs.old.ends.items }
{
    for k in 0..outputs.ends.len() {
        let end = &mut outputs.ends[k];
        end.forget();
    }
}

impl VirtEnds {
    /// Ends in their start state, of these queues.
    pub fn new(
        alloc: Global,
        input: QueueId,
        output: QueueId,
        from_clients: &[QueueId],
        to_clients: &[QueueId],
    ) -> Result<VirtEnds, Memory>
        ensures { IfOk result (λ v. IsNewVirt input output from_clients.now to_clients.now v) }
    {
        Ok(VirtEnds {
            input: Intake::new(input),
            output: Outlet::new(output),
            from_clients: intakes(alloc, from_clients)?,
            to_clients: outlets(alloc, to_clients)?,
            turn: Turn::new(),
        })
    }

    /// Whether all ends are settled: those that are needed or loaded are told for the driver's two,
    /// and by the clients' places for the others.
    pub fn settled<N: Needs, L: Needs>(&self, need: bool, owed: bool, needs: &N, loads: &L) -> bool
        ensures { result ≡ is_at_rest (virt_round self.now need owed (N.need needs.now)
            (L.need loads.now)) }
    {
        let input = self.input.settled(need);
        let output = self.output.settled(owed);
        let from_clients = self.from_clients.settled(needs);
        let to_clients = self.to_clients.settled(loads);
        are_all(input, output, from_clients, to_clients)
    }

    // All ends, offered in their order.
    fn offer<N: Needs, L: Needs>(&self, need: bool, owed: bool, needs: &N, loads: &L) -> Choice
        requires from_clients { length (from_queues self.now) < 2 ^ 32 }
        requires to_clients { length (to_queues self.now) < 2 ^ 32 }
        ensures { result ≡ choice_of (virt_round self.now need owed (N.need needs.now)
            (L.need loads.now)) }
    {
        let clients = self.from_clients.len();
        let all = 2 + clients + self.to_clients.len();
        let choice = self
            .turn
            .begin(all)
            .offer(0, self.input.queue, self.input.settled(need))
            .offer(1, self.output.queue, self.output.settled(owed));
        let choice = self.from_clients.offer(choice, 2, needs);
        self.to_clients.offer(choice, 2 + clients, loads)
    }

    // The end at a place.
    fn end_at(&self, place: usize) -> VirtEnd
        requires from_clients { length (from_queues self.now) < 2 ^ 32 }
        requires within { place < 2 + length (from_queues self.now) + length (to_queues self.now) }
        ensures place { place_of self.now result ≡ place }
        ensures there { IsThere self.now result }
    {
        let clients = self.from_clients.len();
        match place {
            0 => VirtEnd::Input,
            1 => VirtEnd::Output,
            _ if place < 2 + clients => VirtEnd::FromClient(place - 2),
            _ => VirtEnd::ToClient(place - 2 - clients),
        }
    }

    /// The end that is stepped now.
    pub fn choose<N: Needs, L: Needs>(
        &mut self,
        need: bool,
        owed: bool,
        needs: &N,
        loads: &L,
    ) -> VirtEnd
        requires from_clients { length (from_queues self.old) < 2 ^ 32 }
        requires to_clients { length (to_queues self.old) < 2 ^ 32 }
        ensures place { place_of self.old result
            ≡ chosen_place (choice_of (virt_round self.old need owed
            (N.need needs.now) (L.need loads.now))) }
        ensures there { IsThere self.old result }
        ensures after { self.new ≡ record self.old {
          turn = record {
            last = last_after (choice_of (virt_round self.old need owed
                (N.need needs.now) (L.need loads.now)));
          };
        } }
    {
        let choice = self.offer(need, owed, needs, loads);
        let place = self.turn.pass(choice);
        self.end_at(place)
    }

    /// The next call where entries come from the driver. An entry is taken only where it is needed.
    pub fn step_input<K: Carry, W: Wires>(
        &mut self,
        wires: &mut W,
        need: bool,
    ) -> (Event, Option<(Item, Body)>)
        requires { FitsKinds K.kinds (W.ends wires.old) self.old }
        ensures fits { FitsKinds K.kinds (W.ends wires.new) self.new }
        ensures own { VirtOwns self.old (role_of result.0.op) result.0.queue.0 }
        ensures same { SameVirt self.old self.new }
        ensures did { W.did wires.old (deed_of result.0 result.1) wires.new }
        ensures needed { IsSome result.1 → need ≡ true }
        ensures takes { (n : ℕ) → taken_by (deed_of result.0 result.1) n
            ≡ if_there (self.old.input.queue.0 == n) (option_to_list result.1) }
        ensures puts { (n : ℕ) → put_by (deed_of result.0 result.1) n ≡ [] }
        ensures kind { IfSome result.1 (λ c. kind_of c.0 ≡ K.kinds.comes) }
        ensures posted { PostedAt (virt_posts self.old) 0 need result.0 (virt_posts self.new) }
        ensures still { is_mark result.0.op result.0.answer ≡ false → result.1 ≡ None }
        ensures turn { self.new.turn ≡ self.old.turn }
    {
        self.input.step(wires, need)
    }

    /// The next call where entries go to the driver. The load goes exactly at a put.
    pub fn step_output<K: Carry, W: Wires>(
        &mut self,
        wires: &mut W,
        load: &mut Option<(Item, Body)>,
    ) -> Event
        requires fits { FitsKinds K.kinds (W.ends wires.old) self.old }
        requires kind { ForSome load.old (λ c. kind_of c.0 ≡ K.kinds.goes) }
        ensures fits { FitsKinds K.kinds (W.ends wires.new) self.new }
        ensures own { VirtOwns self.old (role_of result.op) result.queue.0 }
        ensures same { SameVirt self.old self.new }
        ensures did { W.did wires.old (deed_of result (put_of result load.old)) wires.new }
        ensures load { option_to_list load.old ≡ option_to_list (put_of result load.old)
            ++ option_to_list load.new }
        ensures takes { (n : ℕ) → taken_by (deed_of result (put_of result load.old)) n ≡ [] }
        ensures puts { (n : ℕ) → put_by (deed_of result (put_of result load.old)) n
            ≡ if_there (self.old.output.queue.0 == n) (option_to_list (put_of result load.old)) }
        ensures posted { PostedAt (virt_posts self.old) 1 (is_some load.old) result
            (virt_posts self.new) }
        ensures still { is_mark result.op result.answer ≡ false → load.new ≡ load.old }
        ensures turn { self.new.turn ≡ self.old.turn }
    {
        self.output.step(wires, load)
    }

    /// The next call where entries come from the client at the place `k`. An entry is taken only
    /// where it is needed.
    pub fn step_from_client<K: Carry, W: Wires>(
        &mut self,
        wires: &mut W,
        k: usize,
        need: bool,
    ) -> (Event, Option<(Item, Body)>)
        requires fits { FitsKinds K.kinds (W.ends wires.old) self.old }
        requires there { k < length (from_queues self.old) }
        ensures fits { FitsKinds K.kinds (W.ends wires.new) self.new }
        ensures own { VirtOwns self.old (role_of result.0.op) result.0.queue.0 }
        ensures same { SameVirt self.old self.new }
        ensures did { W.did wires.old (deed_of result.0 result.1) wires.new }
        ensures on { slice_get (from_queues self.old) k ≡ Some result.0.queue }
        ensures needed { IsSome result.1 → need ≡ true }
        ensures takes { (n : ℕ) → taken_by (deed_of result.0 result.1) n
            ≡ if_there (result.0.queue.0 == n) (option_to_list result.1) }
        ensures puts { (n : ℕ) → put_by (deed_of result.0 result.1) n ≡ [] }
        ensures kind { IfSome result.1 (λ c. kind_of c.0 ≡ K.kinds.come_from) }
        ensures posted { PostedAt (virt_posts self.old) (2 + k) need result.0
            (virt_posts self.new) }
        ensures still { is_mark result.0.op result.0.answer ≡ false → result.1 ≡ None }
        ensures turn { self.new.turn ≡ self.old.turn }
    {
        self.from_clients.step(wires, k, need)
    }

    /// The next call where entries go to the client at the place `k`. The load goes exactly at a
    /// put.
    pub fn step_to_client<K: Carry, W: Wires>(
        &mut self,
        wires: &mut W,
        k: usize,
        load: &mut Option<(Item, Body)>,
    ) -> Event
        requires fits { FitsKinds K.kinds (W.ends wires.old) self.old }
        requires there { k < length (to_queues self.old) }
        requires kind { ForSome load.old (λ c. kind_of c.0 ≡ K.kinds.go_to) }
        ensures fits { FitsKinds K.kinds (W.ends wires.new) self.new }
        ensures own { VirtOwns self.old (role_of result.op) result.queue.0 }
        ensures same { SameVirt self.old self.new }
        ensures did { W.did wires.old (deed_of result (put_of result load.old)) wires.new }
        ensures on { slice_get (to_queues self.old) k ≡ Some result.queue }
        ensures load { option_to_list load.old ≡ option_to_list (put_of result load.old)
            ++ option_to_list load.new }
        ensures takes { (n : ℕ) → taken_by (deed_of result (put_of result load.old)) n ≡ [] }
        ensures puts { (n : ℕ) → put_by (deed_of result (put_of result load.old)) n
            ≡ if_there (result.queue.0 == n) (option_to_list (put_of result load.old)) }
        ensures posted { PostedAt (virt_posts self.old) (2 + length (from_queues self.old) + k)
            (is_some load.old) result (virt_posts self.new) }
        ensures still { is_mark result.op result.answer ≡ false → load.new ≡ load.old }
        ensures turn { self.new.turn ≡ self.old.turn }
    {
        self.to_clients.step(wires, k, load)
    }

    /// Discards the last look of each end, and nothing else.
    pub fn forget(&mut self)
        ensures after { VirtForgot self.old self.new }
        ensures same { SameVirt self.old self.new }
        ensures fits { (kinds : EndKinds) (ends : Role → ℕ → End)
            → FitsKinds kinds ends self.old → FitsKinds kinds ends self.new }
    {
        self.input.forget();
        self.output.forget();
        forget_inputs(&mut self.from_clients);
        forget_outputs(&mut self.to_clients);
    }
}
