//! The virtualiser of the bus itself: the ends that it steps, and whose turn it is.
ghost use Rattle.std.specs.Prelude.{◌≡◌, ◌==◌, ◌↔◌, ◌+◌, ◌<◌, ◌^◌, ◌++◌, ℕ, [], IfOk, IsSome};
ghost use Rattle.std.specs.Prelude.{is_none, is_some, length, replicate, slice_get, Some, None};
ghost use Rattle.std.specs.Prelude.{true, false};
ghost use Rattle.std.specs.Int.{bit_at};
ghost use Rattle.std.specs.Option.{ForSome, option_to_list};
ghost use Rattle.cargo_core.specs.declared.item.QueueKind.TheVariants as Kind;
ghost use Rattle.cargo_core.specs.Items.{kind_of};
ghost use Rattle.wire_core.specs.Deeds.{deed_of, put_of};
ghost use Rattle.wire_core.specs.Ends.{role_of, Producer};
ghost use Rattle.wire_core.specs.Lists.{Passed, Stepped, nothing_passed, taken_by, put_by};
ghost use Rattle.wire_core.specs.Lists.{if_there};
ghost use Rattle.wire_core.specs.Marks.{is_mark};
ghost use Rattle.turn_kit.specs.Turns.{Turned, PostedAt, choice_of, chosen_place, last_after};
ghost use Rattle.turn_kit.specs.Turns.{is_at_rest, Post};
ghost use Rattle.turn_kit.specs.Table.{is_settled};
ghost use Rattle.turn_kit.specs.Lowests.{found};
ghost use Rattle.buffer_kit.specs.Virtualising.{FitsVirt, SameVirt, from_queues, to_queues};
ghost use Rattle.buffer_kit.specs.Virtualising.{virt_posts, place_of, IsThere, need_of};
ghost use Rattle.i2c_virt.specs.declared.virtualiser.I2cVirt.{I2cVirt};
ghost use Rattle.i2c_virt.specs.Desks.{new_desk};
ghost use Rattle.i2c_virt.specs.Works.{IsWork, WorkIsStill, RisesOnlyAt, is_owing, wants_at};
ghost use Rattle.i2c_virt.specs.Works.{gives_at};
ghost use Rattle.i2c_virt.specs.Virtualising.{FitsI2cVirt, I2cVirtStandsFor, VirtRow, SameI2cVirt};
ghost use Rattle.i2c_virt.specs.Virtualising.{i2c_virt_round, IsNewI2cVirt, FitsEnds, KnowsLowest};
ghost use Rattle.i2c_virt.specs.Virtualising.{lowest_of, AreLoose, IsLeft, IsSettledEnd};

use crate::{Desk, Giving, Loose, Owners, Wanting, Work};
use buffer_kit::{NetCargo, VirtEnd, VirtEnds};
use cargo_core::{Body, Item, Memory};
use std::alloc::Global;
use turn_kit::{Lowest, pull, pull_at, push, push_at};
use wire_core::{Event, Op, QueueId, Wires};

/// The virtualiser of the bus. It answers claims and the transfers at addresses that their client
/// hasn't, and hands the others on to the driver, of each client one at a time. `lowest` is the
/// lowest of its ends that aren't settled, and all of these are among `loose`. Both are kept up to
/// date, so that only a step that moves an entry, or changes whether its end is settled, looks at
/// ends, and only at those that are loose.
#[derive(Drop)]
pub struct I2cVirt {
    pub ends: VirtEnds,
    pub work: Work,
    pub lowest: Lowest,
    pub loose: Loose,
}

// So many clients of which nothing came.
fn new_desks(alloc: Global, count: usize) -> Result<Vec<Desk>, Memory>
    ensures { IfOk result (λ d. d.items ≡ replicate count new_desk) }
{
    let mut desks = Vec::with_capacity(alloc, count)?;
    for number in 0..count {
        desks.push(Desk::new())?;
    }
    Ok(desks)
}

// The next call where entries come from the driver. An entry that comes is kept in `got`.
fn step_input<W: Wires>(
    ends: &mut VirtEnds,
    wires: &mut W,
    need: bool,
    got: &mut Option<(Item, Body)>,
    event: &mut Event,
)
    requires fits { FitsVirt (W.ends wires.old) ends.old }
    requires none { got.old ≡ None }
    ensures fits { FitsVirt (W.ends wires.new) ends.new }
    ensures same { SameVirt ends.old ends.new }
    ensures on { event.new.queue ≡ ends.old.input.queue }
    ensures did { W.did wires.old (deed_of event.new got.new) wires.new }
    ensures needed { IsSome got.new → need ≡ true }
    ensures takes { (n : ℕ) → taken_by (deed_of event.new got.new) n
        ≡ if_there (ends.old.input.queue.0 == n) (option_to_list got.new) }
    ensures puts { (n : ℕ) → put_by (deed_of event.new got.new) n ≡ [] }
    ensures posted { PostedAt (virt_posts ends.old) 0 need event.new (virt_posts ends.new) }
    ensures still { is_mark event.new.op event.new.answer ≡ false → got.new ≡ None }
    ensures kept { event.new.item ≡ None → got.new ≡ None }
    ensures turn { ends.new.turn ≡ ends.old.turn }
{
    pull(&mut ends.input, wires, need, got, event);
}

// The next call where entries go to the driver. The load goes exactly at a put.
fn step_output<W: Wires>(
    ends: &mut VirtEnds,
    wires: &mut W,
    load: &mut Option<(Item, Body)>,
    event: &mut Event,
)
    requires fits { FitsVirt (W.ends wires.old) ends.old }
    requires kind { ForSome load.old (λ c. kind_of c.0 ≡ Kind.Net) }
    ensures fits { FitsVirt (W.ends wires.new) ends.new }
    ensures same { SameVirt ends.old ends.new }
    ensures role { role_of event.new.op ≡ Producer }
    ensures did { W.did wires.old (deed_of event.new (put_of event.new load.old)) wires.new }
    ensures load { option_to_list load.old ≡ option_to_list (put_of event.new load.old)
        ++ option_to_list load.new }
    ensures takes { (n : ℕ) → taken_by (deed_of event.new (put_of event.new load.old)) n ≡ [] }
    ensures puts { (n : ℕ) → put_by (deed_of event.new (put_of event.new load.old)) n
        ≡ if_there (ends.old.output.queue.0 == n) (option_to_list (put_of event.new load.old)) }
    ensures posted { PostedAt (virt_posts ends.old) 1 (is_some load.old) event.new
        (virt_posts ends.new) }
    ensures still { is_mark event.new.op event.new.answer ≡ false → load.new ≡ load.old }
    ensures kept { event.new.item ≡ None → load.new ≡ load.old }
    ensures turn { ends.new.turn ≡ ends.old.turn }
{
    push(&mut ends.output, wires, load, event);
}

// The next call where entries come from the client at a place. It takes one exactly where it
// gives one, in `got`.
fn step_from<W: Wires>(
    ends: &mut VirtEnds,
    wires: &mut W,
    place: usize,
    need: bool,
    got: &mut Option<(Item, Body)>,
    event: &mut Event,
)
    requires fits { FitsVirt (W.ends wires.old) ends.old }
    requires there { place < length (from_queues ends.old) }
    requires none { got.old ≡ None }
    ensures fits { FitsVirt (W.ends wires.new) ends.new }
    ensures same { SameVirt ends.old ends.new }
    ensures on { slice_get (from_queues ends.old) place ≡ Some event.new.queue }
    ensures taken { IsSome got.new ↔ (event.new.op ≡ Op.Take) }
    ensures did { W.did wires.old (deed_of event.new got.new) wires.new }
    ensures needed { IsSome got.new → need ≡ true }
    ensures takes { (n : ℕ) → taken_by (deed_of event.new got.new) n
        ≡ if_there (event.new.queue.0 == n) (option_to_list got.new) }
    ensures puts { (n : ℕ) → put_by (deed_of event.new got.new) n ≡ [] }
    ensures posted { PostedAt (virt_posts ends.old) (2 + place) need event.new
        (virt_posts ends.new) }
    ensures still { is_mark event.new.op event.new.answer ≡ false → got.new ≡ None }
    ensures kept { event.new.item ≡ None → got.new ≡ None }
    ensures turn { ends.new.turn ≡ ends.old.turn }
{
    pull_at(&mut ends.from_clients, wires, place, need, got, event);
}

// The next call where entries go to the client at a place. The load goes exactly at a put.
fn step_to<W: Wires>(
    ends: &mut VirtEnds,
    wires: &mut W,
    place: usize,
    load: &mut Option<(Item, Body)>,
    event: &mut Event,
)
    requires fits { FitsVirt (W.ends wires.old) ends.old }
    requires there { place < length (to_queues ends.old) }
    requires kind { ForSome load.old (λ c. kind_of c.0 ≡ Kind.Net) }
    ensures fits { FitsVirt (W.ends wires.new) ends.new }
    ensures same { SameVirt ends.old ends.new }
    ensures role { role_of event.new.op ≡ Producer }
    ensures on { slice_get (to_queues ends.old) place ≡ Some event.new.queue }
    ensures did { W.did wires.old (deed_of event.new (put_of event.new load.old)) wires.new }
    ensures load { option_to_list load.old ≡ option_to_list (put_of event.new load.old)
        ++ option_to_list load.new }
    ensures takes { (n : ℕ) → taken_by (deed_of event.new (put_of event.new load.old)) n ≡ [] }
    ensures puts { (n : ℕ) → put_by (deed_of event.new (put_of event.new load.old)) n
        ≡ if_there (event.new.queue.0 == n) (option_to_list (put_of event.new load.old)) }
    ensures posted { PostedAt (virt_posts ends.old) (2 + length (from_queues ends.old) + place)
        (is_some load.old) event.new (virt_posts ends.new) }
    ensures still { is_mark event.new.op event.new.answer ≡ false → load.new ≡ load.old }
    ensures kept { event.new.item ≡ None → load.new ≡ load.old }
    ensures turn { ends.new.turn ≡ ends.old.turn }
{
    push_at(&mut ends.to_clients, wires, place, load, event);
}

// The end at a place.
fn end_at(ends: &VirtEnds, place: usize) -> VirtEnd
    requires few { length (from_queues ends.now) < 2 ^ 32 }
    requires within { place < 2 + length (from_queues ends.now) + length (to_queues ends.now) }
    ensures place { place_of ends.now result ≡ place }
    ensures there { IsThere ends.now result }
{
    let clients = ends.from_clients.len();
    match place {
        0 => VirtEnd::Input,
        1 => VirtEnd::Output,
        _ if place < 2 + clients => VirtEnd::FromClient(place - 2),
        _ => VirtEnd::ToClient(place - 2 - clients),
    }
}

// The place of an end.
fn place_at(ends: &VirtEnds, at: VirtEnd) -> usize
    requires few { length (from_queues ends.now) < 2 ^ 32 }
    requires to_few { length (to_queues ends.now) < 2 ^ 32 }
    requires there { IsThere ends.now at }
    ensures { result ≡ place_of ends.now at }
{
    match at {
        VirtEnd::Input => 0,
        VirtEnd::Output => 1,
        VirtEnd::FromClient(place) => 2 + place,
        VirtEnd::ToClient(place) => 2 + ends.from_clients.len() + place,
    }
}

impl I2cVirt {
    /// A virtualiser in its start state: no address is granted. Requests go to `req`, and responses
    /// come at `resp`. Client k puts its requests to queue k of `reqs`, and gets its answers at
    /// queue k of `resps`; its pool has the number k.
    pub fn new(
        alloc: Global,
        req: QueueId,
        resp: QueueId,
        reqs: &[QueueId],
        resps: &[QueueId],
    ) -> Result<I2cVirt, Memory>
        requires few { length reqs.now < 2 ^ 16 }
        requires answered { length resps.now < 2 ^ 16 }
        ensures new { IfOk result (λ v. IsNewI2cVirt req resp reqs.now resps.now v) }
        ensures work { IfOk result (λ v. IsWork v.work) }
        ensures stands { IfOk result (λ v. I2cVirtStandsFor v nothing_passed) }
    {
        let ends = VirtEnds::new(alloc, resp, req, reqs, resps)?;
        let work = Work {
            owners: Owners::new(alloc)?,
            desks: new_desks(alloc, reqs.len())?,
            stray: None,
        };
        let mut virt = I2cVirt {
            ends,
            work,
            lowest: Lowest::none(),
            loose: Loose::all(),
        };
        virt.lowest = virt.unsettled();
        Ok(virt)
    }

    // Whether a request is to go to the driver.
    fn is_owing(&self) -> bool
        ensures { result ≡ is_owing self.now.work }
    {
        self.work.leaver().is_some()
    }

    /// Whether nothing is to be done before a notification comes.
    pub fn at_rest(&self) -> bool
        requires { KnowsLowest self.now }
        ensures { result ≡ is_at_rest (i2c_virt_round self.now) }
    {
        self.lowest.stand().is_none()
    }

    // Whether the end where requests go to the driver is settled. Whether one is to go is asked
    // only where it matters.
    fn is_driver_served(&self) -> bool
        ensures { result ≡ is_settled self.now.ends.output.state (is_owing self.now.work) }
    {
        let idle = self.ends.output.settled(false);
        if !idle {
            return false;
        }
        let loaded = self.ends.output.settled(true);
        if loaded {
            return true;
        }
        !self.is_owing()
    }

    // The next call where responses come. It gives the client for which one came.
    fn step_response<W: Wires>(&mut self, wires: &mut W, event: &mut Event) -> usize
        requires { FitsEnds (W.ends wires.old) self.old }
        ensures fits { FitsEnds (W.ends wires.new) self.new }
        ensures same { SameI2cVirt self.old self.new }
        ensures stepped { Stepped I2cVirtStandsFor W.did wires.old wires.new
            self.old self.new event.new }
        ensures posted { PostedAt (virt_posts self.old.ends) 0 (is_none self.old.work.stray)
            event.new
            (virt_posts self.new.ends) }
        ensures still { is_mark event.new.op event.new.answer ≡ false
            → WorkIsStill self.old.work self.new.work }
        ensures kept { event.new.item ≡ None → WorkIsStill self.old.work self.new.work }
        ensures turn { self.new.ends.turn ≡ self.old.ends.turn }
        ensures lowest { self.new.lowest ≡ self.old.lowest }
        ensures loose { self.new.loose ≡ self.old.loose }
        ensures rises { RisesOnlyAt result self.old.work self.new.work }
        ensures within { result < 2 ^ 16 }
    {
        let free = self.work.stray.is_none();
        let mut got = None;
        step_input(&mut self.ends, wires, free, &mut got, event);
        match got {
            Some(entry) => self.work.respond(entry),
            None => 0,
        }
    }

    // The next call where requests of the client at a place come.
    fn step_request<W: Wires>(&mut self, wires: &mut W, place: usize, event: &mut Event)
        requires fits { FitsEnds (W.ends wires.old) self.old }
        requires there { place < length (from_queues self.old.ends) }
        ensures fits { FitsEnds (W.ends wires.new) self.new }
        ensures same { SameI2cVirt self.old self.new }
        ensures stepped { Stepped I2cVirtStandsFor W.did wires.old wires.new
            self.old self.new event.new }
        ensures posted { PostedAt (virt_posts self.old.ends) (2 + place)
            (wants_at self.old.work place) event.new (virt_posts self.new.ends) }
        ensures still { is_mark event.new.op event.new.answer ≡ false
            → WorkIsStill self.old.work self.new.work }
        ensures kept { event.new.item ≡ None → WorkIsStill self.old.work self.new.work }
        ensures turn { self.new.ends.turn ≡ self.old.ends.turn }
        ensures lowest { self.new.lowest ≡ self.old.lowest }
        ensures loose { self.new.loose ≡ self.old.loose }
        ensures rises { RisesOnlyAt place self.old.work self.new.work }
    {
        let wants = self.work.wants(place);
        let mut got = None;
        step_from(&mut self.ends, wires, place, wants, &mut got, event);
        if let Some(entry) = got {
            self.work.request(place, entry);
        }
    }

    // The next call where requests go to the driver. It gives the client whose request went.
    fn step_driver<W: Wires>(&mut self, wires: &mut W, event: &mut Event) -> usize
        requires { FitsEnds (W.ends wires.old) self.old }
        ensures fits { FitsEnds (W.ends wires.new) self.new }
        ensures same { SameI2cVirt self.old self.new }
        ensures stepped { Stepped I2cVirtStandsFor W.did wires.old wires.new
            self.old self.new event.new }
        ensures posted { PostedAt (virt_posts self.old.ends) 1 (is_owing self.old.work) event.new
            (virt_posts self.new.ends) }
        ensures still { is_mark event.new.op event.new.answer ≡ false
            → WorkIsStill self.old.work self.new.work }
        ensures kept { event.new.item ≡ None → WorkIsStill self.old.work self.new.work }
        ensures turn { self.new.ends.turn ≡ self.old.ends.turn }
        ensures lowest { self.new.lowest ≡ self.old.lowest }
        ensures loose { self.new.loose ≡ self.old.loose }
        ensures rises { RisesOnlyAt result self.old.work self.new.work }
        ensures within { result < 2 ^ 16 }
    {
        match self.work.leaver() {
            None => {
                let mut nothing = None;
                step_output(&mut self.ends, wires, &mut nothing, event);
                0
            }
            Some(place) => {
                let desk = &mut self.work.desks[place];
                step_output(&mut self.ends, wires, &mut desk.leaving, event);
                place
            }
        }
    }

    // The next call where answers go to the client at a place.
    fn step_answer<W: Wires>(&mut self, wires: &mut W, place: usize, event: &mut Event)
        requires fits { FitsEnds (W.ends wires.old) self.old }
        requires there { place < length (to_queues self.old.ends) }
        ensures fits { FitsEnds (W.ends wires.new) self.new }
        ensures same { SameI2cVirt self.old self.new }
        ensures stepped { Stepped I2cVirtStandsFor W.did wires.old wires.new
            self.old self.new event.new }
        ensures posted { PostedAt (virt_posts self.old.ends)
            (2 + length (from_queues self.old.ends) + place) (gives_at self.old.work place)
            event.new
            (virt_posts self.new.ends) }
        ensures still { is_mark event.new.op event.new.answer ≡ false
            → WorkIsStill self.old.work self.new.work }
        ensures kept { event.new.item ≡ None → WorkIsStill self.old.work self.new.work }
        ensures turn { self.new.ends.turn ≡ self.old.ends.turn }
        ensures lowest { self.new.lowest ≡ self.old.lowest }
        ensures loose { self.new.loose ≡ self.old.loose }
        ensures rises { RisesOnlyAt place self.old.work self.new.work }
    {
        if !self.work.gives(place) {
            let mut nothing = None;
            step_to(&mut self.ends, wires, place, &mut nothing, event);
            return;
        }
        let desk = &mut self.work.desks[place];
        step_to(&mut self.ends, wires, place, &mut desk.held, event);
    }

    // The lowest of the ends that aren't settled.
    fn unsettled(&self) -> Lowest
        requires from_clients { length (from_queues self.now.ends) < 2 ^ 32 }
        requires to_clients { length (to_queues self.now.ends) < 2 ^ 32 }
        ensures { found result ≡ lowest_of self.now }
    {
        let ends = &self.ends;
        let input = ends.input.settled(self.work.stray.is_none());
        let output = self.is_driver_served();
        let lowest = Lowest::none()
            .unless_settled(0, ends.input.queue, input)
            .unless_settled(1, ends.output.queue, output);
        let wanting = Wanting { work: &self.work };
        let lowest = ends.from_clients.unsettled(lowest, 2, &wanting);
        let giving = Giving { work: &self.work };
        ends.to_clients
            .unsettled(lowest, 2 + ends.from_clients.len(), &giving)
    }

    // The end that is stepped where all are settled: what is needed doesn't matter then.
    fn choose_next(&mut self) -> VirtEnd
        requires from_clients { length (from_queues self.old.ends) < 2 ^ 32 }
        requires to_clients { length (to_queues self.old.ends) < 2 ^ 32 }
        requires rests { is_at_rest (i2c_virt_round self.old) ≡ true }
        ensures place { place_of self.old.ends result
            ≡ chosen_place (choice_of (i2c_virt_round self.old)) }
        ensures there { IsThere self.old.ends result }
        ensures after { self.new ≡ record self.old {
          ends = record self.old.ends {
            turn = record { last = last_after (choice_of (i2c_virt_round self.old)) };
          };
        } }
    {
        self.ends.choose(false, false, &false, &false)
    }

    // The end that is stepped now. The rotation is asked only where all are settled.
    fn choose(&mut self) -> VirtEnd
        requires knows { KnowsLowest self.old }
        requires from_clients { length (from_queues self.old.ends) < 2 ^ 32 }
        requires to_clients { length (to_queues self.old.ends) < 2 ^ 32 }
        ensures place { place_of self.old.ends result
            ≡ chosen_place (choice_of (i2c_virt_round self.old)) }
        ensures there { IsThere self.old.ends result }
        ensures after { self.new ≡ record self.old {
          ends = record self.old.ends {
            turn = record { last = last_after (choice_of (i2c_virt_round self.old)) };
          };
        } }
    {
        match self.lowest.stand() {
            Some(end) => end_at(&self.ends, end.place),
            None => self.choose_next(),
        }
    }

    // Whether an end is settled.
    #[inline(always)]
    fn is_settled_at(&self, at: VirtEnd) -> bool
        requires { IsThere self.now.ends at }
        ensures { (p : Post) → slice_get (virt_posts self.now.ends) (place_of self.now.ends at)
            ≡ Some p → result ≡ is_settled p.state (need_of (is_none self.now.work.stray)
            (is_owing self.now.work) (wants_at self.now.work) (gives_at self.now.work) at) }
    {
        match at {
            VirtEnd::Input => self.ends.input.settled(self.work.stray.is_none()),
            VirtEnd::Output => self.is_driver_served(),
            VirtEnd::FromClient(place) => {
                let end = &self.ends.from_clients.ends[place];
                end.settled(self.work.wants(place))
            }
            VirtEnd::ToClient(place) => {
                let end = &self.ends.to_clients.ends[place];
                end.settled(self.work.gives(place))
            }
        }
    }

    // The queue of an end.
    #[inline(always)]
    fn queue_at(&self, at: VirtEnd) -> QueueId
        requires { IsThere self.now.ends at }
        ensures { (p : Post) → slice_get (virt_posts self.now.ends) (place_of self.now.ends at)
            ≡ Some p → result.0 ≡ p.queue }
    {
        match at {
            VirtEnd::Input => self.ends.input.queue,
            VirtEnd::Output => self.ends.output.queue,
            VirtEnd::FromClient(place) => {
                let end = &self.ends.from_clients.ends[place];
                end.queue
            }
            VirtEnd::ToClient(place) => {
                let end = &self.ends.to_clients.ends[place];
                end.queue
            }
        }
    }

    // Whether a call at an end moved no entry, and left whether that end is settled.
    fn is_same_at(&self, at: VirtEnd, settled: bool, moved: bool) -> bool
        requires { IsThere self.now.ends at }
        ensures still { result ≡ true → moved ≡ false }
        ensures settled { result ≡ true → (p : Post) → slice_get (virt_posts self.now.ends)
            (place_of self.now.ends at) ≡ Some p → settled ≡ is_settled p.state (need_of
            (is_none self.now.work.stray) (is_owing self.now.work) (wants_at self.now.work)
            (gives_at self.now.work) at) }
    {
        if moved {
            return false;
        }
        if self.is_settled_at(at) {
            settled
        } else {
            !settled
        }
    }

    // The ends that may be unsettled after a call at an end. Where it moved an entry, the driver's
    // ends and those of one client may be.
    fn loosened(&self, at: VirtEnd, moved: bool, client: usize) -> Loose
        requires from_clients { length (from_queues self.now.ends) < 2 ^ 32 }
        requires to_clients { length (to_queues self.now.ends) < 2 ^ 32 }
        requires there { IsThere self.now.ends at }
        requires client { client < 2 ^ 32 }
        ensures { (k : ℕ) → k < 64 → bit_at result.bits k ≡ 0
            → IsLeft self.now at moved client k }
    {
        let touched = self.loose.with(place_at(&self.ends, at));
        if !moved {
            return touched;
        }
        let clients = self.ends.from_clients.len();
        let driver = touched.with(0).with(1);
        driver.with(2 + client).with(2 + clients + client)
    }

    // The lowest of the ends that aren't settled, and which may be unsettled. It looks at none
    // that is known to be settled.
    fn find(&self) -> (Lowest, Loose)
        requires from_clients { length (from_queues self.now.ends) < 2 ^ 32 }
        requires to_clients { length (to_queues self.now.ends) < 2 ^ 32 }
        requires loose { AreLoose self.now.loose (i2c_virt_round self.now) }
        ensures lowest { found result.0 ≡ lowest_of self.now }
        ensures loose { AreLoose result.1 (i2c_virt_round self.now) }
    {
        let count = 2 + self.ends.from_clients.len() + self.ends.to_clients.len();
        if 63 < count {
            return (self.unsettled(), self.loose);
        }
        let mut lowest = Lowest::none();
        let mut loose = self.loose;
        let mut place = loose.next(0);
        while place < count {
            let at = end_at(&self.ends, place);
            let settled = self.is_settled_at(at);
            lowest = lowest.unless_settled(place, self.queue_at(at), settled);
            loose = loose.unless_settled(place, settled);
            place = loose.next(place + 1);
        }
        (lowest, loose)
    }

    // Looks for the lowest end again, unless it is the same.
    fn look(&mut self, at: VirtEnd, moved: bool, client: usize, same: bool)
        requires from_clients { length (from_queues self.old.ends) < 2 ^ 32 }
        requires to_clients { length (to_queues self.old.ends) < 2 ^ 32 }
        requires there { IsThere self.old.ends at }
        requires client { client < 2 ^ 32 }
        requires same { same ≡ true → KnowsLowest self.old }
        requires left { (k : ℕ) → k < 64 → IsLeft self.old at moved client k
            → IsSettledEnd (i2c_virt_round self.old) k }
        ensures knows { KnowsLowest self.new }
        ensures others { self.new ≡ record self.old {
          lowest = self.new.lowest;
          loose = self.new.loose;
        } }
    {
        if same {
            return;
        }
        self.loose = self.loosened(at, moved, client);
        let (lowest, loose) = self.find();
        self.lowest = lowest;
        self.loose = loose;
    }

    // The next call at an end. It gives the one client, if any, of which something may be needed
    // only now.
    fn step_at<W: Wires>(&mut self, wires: &mut W, at: VirtEnd, event: &mut Event) -> usize
        requires fits { FitsEnds (W.ends wires.old) self.old }
        requires there { IsThere self.old.ends at }
        ensures fits { FitsEnds (W.ends wires.new) self.new }
        ensures same { SameI2cVirt self.old self.new }
        ensures stepped { Stepped I2cVirtStandsFor W.did wires.old wires.new
            self.old self.new event.new }
        ensures posted { PostedAt (virt_posts self.old.ends) (place_of self.old.ends at) (need_of
            (is_none self.old.work.stray) (is_owing self.old.work) (wants_at self.old.work)
            (gives_at self.old.work) at) event.new (virt_posts self.new.ends) }
        ensures still { is_mark event.new.op event.new.answer ≡ false
            → WorkIsStill self.old.work self.new.work }
        ensures kept { event.new.item ≡ None → WorkIsStill self.old.work self.new.work }
        ensures turn { self.new.ends.turn ≡ self.old.ends.turn }
        ensures lowest { self.new.lowest ≡ self.old.lowest }
        ensures loose { self.new.loose ≡ self.old.loose }
        ensures rises { RisesOnlyAt result self.old.work self.new.work }
        ensures within { result < 2 ^ 16 }
    {
        match at {
            VirtEnd::Input => self.step_response(wires, event),
            VirtEnd::Output => self.step_driver(wires, event),
            VirtEnd::FromClient(place) => {
                self.step_request(wires, place, event);
                place
            }
            VirtEnd::ToClient(place) => {
                self.step_answer(wires, place, event);
                place
            }
        }
    }

    /// Makes one call on one of its ends, which `event` tells then.
    pub fn step<W: Wires>(&mut self, wires: &mut W, event: &mut Event)
        requires { FitsI2cVirt (W.ends wires.old) self.old }
        ensures fits { FitsI2cVirt (W.ends wires.new) self.new }
        ensures same { SameI2cVirt self.old self.new }
        ensures stepped { Stepped I2cVirtStandsFor W.did wires.old wires.new
            self.old self.new event.new }
        ensures turned { Turned (i2c_virt_round self.old) event.new (i2c_virt_round self.new) }
    {
        // The end that is stepped is settled exactly where all are.
        let settled = self.at_rest();
        let at = self.choose();
        let client = self.step_at(wires, at, event);
        let moved = event.item.is_some();
        let same = self.is_same_at(at, settled, moved);
        self.look(at, moved, client, same);
    }
}

/// Whatever it stands for meets its row.
pub fn virt_law()
    ensures { (v : I2cVirt) (passed : Passed) → I2cVirtStandsFor v passed → VirtRow
        (length v.work.desks.items) v.ends.output.queue.0 v.ends.input.queue.0
        (from_queues v.ends) (to_queues v.ends) passed }
{}
