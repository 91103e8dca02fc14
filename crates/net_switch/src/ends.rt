//! All ends of a switch: for each port one where its frames come, one where its buffers go back,
//! one where buffers for copies come and one where copies go.
ghost use Rattle.std.specs.Prelude.{◌≡◌, ◌==◌, ◌+◌, ◌<◌, ◌^◌, ◌*◌, ◌++◌, ◌&&◌, ℕ, [], IfOk};
ghost use Rattle.std.specs.Prelude.{IfSome, IsSome, length, map, is_some, slice_get, Some, None};
ghost use Rattle.std.specs.Prelude.{true};
ghost use Rattle.std.specs.Prelude.{false};
ghost use Rattle.std.specs.Option.{ForSome, option_to_list};
ghost use Rattle.cargo_core.specs.Items.{kind_of};
ghost use Rattle.cargo_core.specs.declared.item.QueueKind.TheVariants as Kind;
ghost use Rattle.wire_core.specs.Deeds.{deed_of, put_of};
ghost use Rattle.wire_core.specs.Lists.{taken_by, put_by, if_there};
ghost use Rattle.wire_core.specs.Marks.{is_mark};
ghost use Rattle.turn_kit.specs.Turns.{PostedAt, choice_of, chosen_place, last_after, is_at_rest};
ghost use Rattle.buffer_kit.specs.Virtualising.{new_intake, new_outlet};
ghost use Rattle.net_switch.specs.Ends.{FitsEnds, SameEnds, AreNewEnds, switch_posts, ends_round};
ghost use Rattle.net_switch.specs.Ends.{place_of, IsThere, come_queues, back_queues, room_queues};
ghost use Rattle.net_switch.specs.Ends.{copy_queues, is_take};

use cargo_core::{Body, Item, Memory};
use std::alloc::Global;
use turn_kit::{Choice, Intake, Intakes, Needs, Outlet, Outlets, Turn};
use wire_core::{Event, QueueId, Wires};

/// One of the ends of a switch, by the place of its port: where the port's frames come, where its
/// buffers go back, where its buffers for copies come, and where copies go to it.
#[derive(Clone, Copy, Debug, PartialEq, Eq)]
pub enum SwitchEnd {
    Come(usize),
    Back(usize),
    Room(usize),
    Copy(usize),
}

/// The ends of a switch, each list by the places of the ports, and whose turn it is.
#[derive(Drop)]
pub struct SwitchEnds {
    pub come: Intakes,
    pub back: Outlets,
    pub room: Intakes,
    pub copy: Outlets,
    pub turn: Turn,
}

// Whether all four are so.
fn are_all(first: bool, second: bool, third: bool, fourth: bool) -> bool
    ensures { result ≡ (first && (second && (third && fourth))) }
{
    first && second && third && fourth
}

// Consuming ends in their start state.
fn intakes(alloc: Global, queues: &[QueueId]) -> Result<Intakes, Memory>
    ensures { IfOk result (λ i. i.ends.items ≡ map new_intake queues.now) }
{
    let mut ends = Vec::with_capacity(alloc, queues.len())?;
    for queue in queues {
        ends.push(Intake::new(*queue))?;
    }
    Ok(Intakes { ends })
}

// Producing ends in their start state.
fn outlets(alloc: Global, queues: &[QueueId]) -> Result<Outlets, Memory>
    ensures { IfOk result (λ o. o.ends.items ≡ map new_outlet queues.now) }
{
    let mut ends = Vec::with_capacity(alloc, queues.len())?;
    for queue in queues {
        ends.push(Outlet::new(*queue))?;
    }
    Ok(Outlets { ends })
}

impl SwitchEnds {
    /// Ends in their start state, of these queues.
    pub fn new(
        alloc: Global,
        come: &[QueueId],
        back: &[QueueId],
        room: &[QueueId],
        copy: &[QueueId],
    ) -> Result<SwitchEnds, Memory>
        ensures { IfOk result (λ e. AreNewEnds come.now back.now room.now copy.now e) }
    {
        Ok(SwitchEnds {
            come: intakes(alloc, come)?,
            back: outlets(alloc, back)?,
            room: intakes(alloc, room)?,
            copy: outlets(alloc, copy)?,
            turn: Turn::new(),
        })
    }

    /// Whether all ends are settled; which are needed or loaded is told by the places of the ports.
    pub fn settled<T: Needs, R: Needs, N: Needs, L: Needs>(
        &self,
        taking: &T,
        returning: &R,
        wanting: &N,
        loaded: &L,
    ) -> bool
        ensures { result ≡ is_at_rest (ends_round self.now (T.need taking.now)
            (R.need returning.now) (N.need wanting.now) (L.need loaded.now)) }
    {
        let come = self.come.settled(taking);
        let back = self.back.settled(returning);
        let room = self.room.settled(wanting);
        let copy = self.copy.settled(loaded);
        are_all(come, back, room, copy)
    }

    // All ends, offered in their order.
    fn offer<T: Needs, R: Needs, N: Needs, L: Needs>(
        &self,
        taking: &T,
        returning: &R,
        wanting: &N,
        loaded: &L,
    ) -> Choice
        requires come { length (come_queues self.now) < 2 ^ 32 }
        requires back { length (back_queues self.now) ≡ length (come_queues self.now) }
        requires room { length (room_queues self.now) ≡ length (come_queues self.now) }
        requires copy { length (copy_queues self.now) ≡ length (come_queues self.now) }
        ensures { result ≡ choice_of (ends_round self.now (T.need taking.now)
            (R.need returning.now) (N.need wanting.now) (L.need loaded.now)) }
    {
        let ports = self.come.len();
        let choice = self.turn.begin(4 * ports);
        let choice = self.come.offer(choice, 0, taking);
        let choice = self.back.offer(choice, ports, returning);
        let choice = self.room.offer(choice, 2 * ports, wanting);
        self.copy.offer(choice, 3 * ports, loaded)
    }

    // The end at a place.
    fn end_at(&self, place: usize) -> SwitchEnd
        requires come { length (come_queues self.now) < 2 ^ 32 }
        requires back { length (back_queues self.now) ≡ length (come_queues self.now) }
        requires room { length (room_queues self.now) ≡ length (come_queues self.now) }
        requires copy { length (copy_queues self.now) ≡ length (come_queues self.now) }
        requires within { place < 4 * length (come_queues self.now) }
        ensures place { place_of self.now result ≡ place }
        ensures there { IsThere self.now result }
    {
        let ports = self.come.len();
        match place {
            _ if place < ports => SwitchEnd::Come(place),
            _ if place < 2 * ports => SwitchEnd::Back(place - ports),
            _ if place < 3 * ports => SwitchEnd::Room(place - 2 * ports),
            _ => SwitchEnd::Copy(place - 3 * ports),
        }
    }

    /// The end that is stepped now.
    pub fn choose<T: Needs, R: Needs, N: Needs, L: Needs>(
        &mut self,
        taking: &T,
        returning: &R,
        wanting: &N,
        loaded: &L,
    ) -> SwitchEnd
        requires some { 0 < length (come_queues self.old) }
        requires come { length (come_queues self.old) < 2 ^ 32 }
        requires back { length (back_queues self.old) ≡ length (come_queues self.old) }
        requires room { length (room_queues self.old) ≡ length (come_queues self.old) }
        requires copy { length (copy_queues self.old) ≡ length (come_queues self.old) }
        ensures place { place_of self.old result ≡ chosen_place (choice_of (ends_round self.old
            (T.need taking.now) (R.need returning.now) (N.need wanting.now) (L.need loaded.now))) }
        ensures there { IsThere self.old result }
        ensures after { self.new ≡ record self.old {
          turn = record {
            last = last_after (choice_of (ends_round self.old (T.need taking.now)
                (R.need returning.now) (N.need wanting.now) (L.need loaded.now)));
          };
        } }
    {
        let choice = self.offer(taking, returning, wanting, loaded);
        let place = self.turn.pass(choice);
        self.end_at(place)
    }

    /// The next call where frames come from the port at the place `k`. An entry is taken only where
    /// it is needed.
    pub fn step_come<W: Wires>(
        &mut self,
        wires: &mut W,
        k: usize,
        need: bool,
    ) -> (Event, Option<(Item, Body)>)
        requires fits { FitsEnds (W.ends wires.old) self.old }
        requires there { k < length (come_queues self.old) }
        ensures fits { FitsEnds (W.ends wires.new) self.new }
        ensures same { SameEnds self.old self.new }
        ensures did { W.did wires.old (deed_of result.0 result.1) wires.new }
        ensures on { slice_get (come_queues self.old) k ≡ Some result.0.queue }
        ensures takes_one { is_take result.0.op ≡ is_some result.1 }
        ensures needed { IsSome result.1 → need ≡ true }
        ensures takes { (n : ℕ) → taken_by (deed_of result.0 result.1) n
            ≡ if_there (result.0.queue.0 == n) (option_to_list result.1) }
        ensures puts { (n : ℕ) → put_by (deed_of result.0 result.1) n ≡ [] }
        ensures kind { IfSome result.1 (λ c. kind_of c.0 ≡ Kind.Net) }
        ensures posted { PostedAt (switch_posts self.old) k need result.0
            (switch_posts self.new) }
        ensures still { is_mark result.0.op result.0.answer ≡ false → result.1 ≡ None }
        ensures turn { self.new.turn ≡ self.old.turn }
    {
        self.come.step(wires, k, need)
    }

    /// The next call where buffers go back to the port at the place `k`. The load goes exactly at a
    /// put.
    pub fn step_back<W: Wires>(
        &mut self,
        wires: &mut W,
        k: usize,
        load: &mut Option<(Item, Body)>,
    ) -> Event
        requires fits { FitsEnds (W.ends wires.old) self.old }
        requires there { k < length (back_queues self.old) }
        requires kind { ForSome load.old (λ c. kind_of c.0 ≡ Kind.Net) }
        ensures fits { FitsEnds (W.ends wires.new) self.new }
        ensures same { SameEnds self.old self.new }
        ensures did { W.did wires.old (deed_of result (put_of result load.old)) wires.new }
        ensures on { slice_get (back_queues self.old) k ≡ Some result.queue }
        ensures takes_none { is_take result.op ≡ false }
        ensures load { option_to_list load.old ≡ option_to_list (put_of result load.old)
            ++ option_to_list load.new }
        ensures takes { (n : ℕ) → taken_by (deed_of result (put_of result load.old)) n ≡ [] }
        ensures puts { (n : ℕ) → put_by (deed_of result (put_of result load.old)) n
            ≡ if_there (result.queue.0 == n) (option_to_list (put_of result load.old)) }
        ensures posted { PostedAt (switch_posts self.old) (length (come_queues self.old) + k)
            (is_some load.old) result (switch_posts self.new) }
        ensures still { is_mark result.op result.answer ≡ false → load.new ≡ load.old }
        ensures turn { self.new.turn ≡ self.old.turn }
    {
        self.back.step(wires, k, load)
    }

    /// The next call where buffers for copies come from the port at the place `k`. An entry is
    /// taken only where it is needed.
    pub fn step_room<W: Wires>(
        &mut self,
        wires: &mut W,
        k: usize,
        need: bool,
    ) -> (Event, Option<(Item, Body)>)
        requires fits { FitsEnds (W.ends wires.old) self.old }
        requires there { k < length (room_queues self.old) }
        ensures fits { FitsEnds (W.ends wires.new) self.new }
        ensures same { SameEnds self.old self.new }
        ensures did { W.did wires.old (deed_of result.0 result.1) wires.new }
        ensures on { slice_get (room_queues self.old) k ≡ Some result.0.queue }
        ensures takes_one { is_take result.0.op ≡ is_some result.1 }
        ensures needed { IsSome result.1 → need ≡ true }
        ensures takes { (n : ℕ) → taken_by (deed_of result.0 result.1) n
            ≡ if_there (result.0.queue.0 == n) (option_to_list result.1) }
        ensures puts { (n : ℕ) → put_by (deed_of result.0 result.1) n ≡ [] }
        ensures kind { IfSome result.1 (λ c. kind_of c.0 ≡ Kind.Net) }
        ensures posted { PostedAt (switch_posts self.old)
            (length (come_queues self.old) + length (back_queues self.old) + k) need result.0
            (switch_posts self.new) }
        ensures still { is_mark result.0.op result.0.answer ≡ false → result.1 ≡ None }
        ensures turn { self.new.turn ≡ self.old.turn }
    {
        self.room.step(wires, k, need)
    }

    /// The next call where copies go to the port at the place `k`. The load goes exactly at a put.
    pub fn step_copy<W: Wires>(
        &mut self,
        wires: &mut W,
        k: usize,
        load: &mut Option<(Item, Body)>,
    ) -> Event
        requires fits { FitsEnds (W.ends wires.old) self.old }
        requires there { k < length (copy_queues self.old) }
        requires kind { ForSome load.old (λ c. kind_of c.0 ≡ Kind.Net) }
        ensures fits { FitsEnds (W.ends wires.new) self.new }
        ensures same { SameEnds self.old self.new }
        ensures did { W.did wires.old (deed_of result (put_of result load.old)) wires.new }
        ensures on { slice_get (copy_queues self.old) k ≡ Some result.queue }
        ensures takes_none { is_take result.op ≡ false }
        ensures load { option_to_list load.old ≡ option_to_list (put_of result load.old)
            ++ option_to_list load.new }
        ensures takes { (n : ℕ) → taken_by (deed_of result (put_of result load.old)) n ≡ [] }
        ensures puts { (n : ℕ) → put_by (deed_of result (put_of result load.old)) n
            ≡ if_there (result.queue.0 == n) (option_to_list (put_of result load.old)) }
        ensures posted { PostedAt (switch_posts self.old) (length (come_queues self.old)
            + length (back_queues self.old) + length (room_queues self.old) + k)
            (is_some load.old) result (switch_posts self.new) }
        ensures still { is_mark result.op result.answer ≡ false → load.new ≡ load.old }
        ensures turn { self.new.turn ≡ self.old.turn }
    {
        self.copy.step(wires, k, load)
    }
}
