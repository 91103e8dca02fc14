//! The system at play: the queues of a layout with the actors at them, its steps, and what is seen
//! of it. It stands here, above actors and descriptions, since a plan and a trace say who acts.
ghost use Rattle.std.specs.Prelude.{◌≡◌, ◌<◌, ◌≤◌, ℕ, List, length, map, OnOk, OnErr, IfOk};
ghost use Rattle.std.specs.Prelude.{◌==◌, false, not, slice_get, Some, None, []};
ghost use Rattle.wire_core.specs.Queues.{is_pending, is_store, starts};
ghost use Rattle.wire_core.specs.Ends.{role_of, word_role};
ghost use Rattle.wire_core.specs.Journal.{EachMoment, start_history, owner_of};
ghost use Rattle.play_core.specs.Runs.{other_owner, reaches, reach_of};
ghost use Rattle.actor_set.specs.Actors.{actor_rests, part_of};
ghost use Rattle.trace_text.specs.Traces.{IsReadFor};
ghost use Rattle.region_layout.specs.Layouts.{layout_of};
ghost use Rattle.sdf_check.specs.Valid.{Valid};
ghost use Rattle.actor_set.specs.Laws.Kinds.{manner_of, idles};
ghost use Rattle.cast_law.specs.Pools.Places.{ArePooled};
ghost use Rattle.system_core.specs.Shows.{NamesTell, runs};
ghost use Rattle.system_core.specs.States.{history_of, begun_on, names_left, nobody, started};
ghost use Rattle.system_core.specs.States.{started_on};
ghost use Rattle.system_core.specs.Systems.{Holds, GoesOn};
ghost use Rattle.cast_law.specs.Seats.{AreSeated};
ghost use Rattle.system_core.specs.Lawful.{StandsLawful};
ghost use Rattle.system_core.specs.Reports.{report_of};
ghost use Rattle.player_kit.specs.Runnings.{removed_if, with_option};
ghost use Rattle.system_core.specs.Plays.{Played, IsSpent, StepsAt, runnable_now};
ghost use Rattle.system_core.specs.Asking.{IsAsked, store_word};
ghost use Rattle.system_core.specs.Builds.{IsBuilt};
ghost use Rattle.system_core.specs.PlanPlays.{IsSystemOf, IsOfItsPlan, StaysOfItsPlan};
ghost use Rattle.system_core.specs.PlanPlays.{IsPlayed, HasEnded};

mod apart;

use crate::crew::Crew;
use crate::crews::{blk_crew, net_crew, serial_crew};
use crate::lines::{bad, lines, pool_copies};
use crate::names::{keep_name, kept_queues, make_room, take_back};
use crate::records::{frame_records, line, records, replies, wire};
use actor_set::Actor;
use cargo_core::{Memory, Series, Word};
use cast_core::{cast, copies};
use expect_core::Report;
use plain_wires::World;
use player_kit::Running;
use player_kit::noted_wires::{Noted, NotedWires};
use region_layout::Layout;
use sdf_plan::Plan;
use serial_law::serial_law;
use spsc_queue::Ended;
use std::alloc::Global;
use std::marker::Model;
use std::snapshot::Snapshot;
use trace_text::Trace;
use turn_kit::event_place;
use wire_core::{ActorId, Entry, Op, PoolRow, QueueRow, next_seed, place_of};

/// How a play ended: no actor is runnable, or the steps are spent and some actor is runnable.
#[derive(Clone, Copy, Debug, PartialEq, Eq)]
pub enum Ending {
    Quiet,
    Spent,
}

/// A system at play: the queues of its rows with what stands in them, its actors, and the one
/// journal. Which actors are runnable is kept up to date, so that a step costs the ends of the
/// actor that makes it.
#[derive(Drop)]
pub struct System {
    alloc: Global,
    rows: Vec<QueueRow>,
    pools: Vec<PoolRow>,
    wires: NotedWires,
    // The names that are kept of what was put to queues with a hostile end.
    names: Vec<Noted>,
    actors: Vec<Actor>,
    net: Crew,
    serial: Crew,
    blk: Crew,
    running: Running,
    journal: Vec<Entry>,
    // The rings that the system was made from, with what their queues had before the journal
    // begins. It stands in proofs alone.
    past: Snapshot<Vec<Ended>>,
}

impl Model for System {
    ghost use Rattle.system_core.specs.Shows.{Shown};

    ghost Value = { Shown };

    ghost use Rattle.system_core.specs.Inside.{shown_of, IsSystem};

    ghost view = { shown_of };

    ghost invariant = { IsSystem };
}

// Whether the actor at a place isn't runnable. No notification makes a hostile client so.
#[inline(always)]
#[tactic(auto, using(crate::proofs::Stepping::idles_so))]
fn is_idle(actor: &Actor, world: &World, place: ActorId) -> bool
    ensures { result ≡ idles (manner_of (part_of actor.now)) (actor_rests actor.now)
        (is_pending place.0 world.now) }
{
    actor.at_rest() && (actor.is_hostile() || !world.is_pending(place))
}

// The other owner of a queue.
fn other_owner(row: &QueueRow, actor: u16) -> u16
    ensures { result ≡ other_owner row.now actor }
{
    if row.producer.0 == actor {
        row.consumer.0
    } else {
        row.producer.0
    }
}

// Whether a call at an end of its own may change for the other owner whether that one is runnable.
fn reaches(op: Op) -> bool
    ensures { result ≡ reaches op }
{
    matches!(op, Op::Ring(_))
}

// The word in which a call stores, if it does.
fn store_word(op: Op) -> Option<Word>
    ensures { result ≡ store_word op }
{
    match op {
        Op::Store(word, _) => Some(word),
        _ => None,
    }
}

// The owner of the end whose word it is.
fn word_owner(row: &QueueRow, word: Word) -> u16
    ensures { result ≡ owner_of row.now (word_role word) }
{
    match word {
        Word::Head | Word::Flag | Word::Pending => row.consumer.0,
        Word::Tail | Word::FlagBack | Word::PendingBack => row.producer.0,
    }
}

// Whether a call is made at the end of the other owner: a hostile actor's store may be.
#[inline(always)]
fn is_beside(op: Op, row: &QueueRow, caller: u16) -> bool
    requires { is_store op ≡ false → owner_of row.now (role_of op) ≡ caller }
    ensures { result ≡ not (owner_of row.now (role_of op) == caller) }
{
    match store_word(op) {
        Some(word) => word_owner(row, word) != caller,
        None => false,
    }
}

// The other owner of a queue, where a call may change whether that one is runnable.
#[inline(always)]
fn reach(op: Op, row: &QueueRow, caller: u16) -> Option<u16>
    requires { is_store op ≡ false → owner_of row.now (role_of op) ≡ caller }
    ensures { result ≡ reach_of op row.now caller }
{
    if reaches(op) || is_beside(op, row, caller) {
        Some(other_owner(row, caller))
    } else {
        None
    }
}

// Whether the other owner that a call reaches is runnable now.
fn is_runnable(actors: &[Actor], world: &World, other: Option<u16>) -> bool
    requires there { (k : ℕ) → other ≡ Some k → k < length actors.now }
    ensures { IsAsked actors.now world.now other result }
{
    match other {
        Some(actor) => !is_idle(&actors[actor as usize], world, ActorId(actor)),
        None => false,
    }
}

// The runnable actors before the first call, where the queues had this past.
fn first_running(
    alloc: Global,
    rows: &[QueueRow],
    world: &World,
    actors: &[Actor],
    past: &Snapshot<Vec<Ended>>,
) -> Result<Running, Memory>
    requires { Holds (history_of rows.now past.now.value.items) rows.now
        (names_left 0 past.now.value.items) world.now actors.now [] }
    ensures list { IfOk result (λ r. r.list
        ≡ runs (begun_on past.now.value.items rows.now [] actors.now nobody nobody nobody) []) }
    ensures room { IfOk result (λ r. length actors.now ≤ r.room) }
{
    let mut running = Running::with_room(alloc, actors.len())?;
    for k in 0..actors.len() {
        let actor = &actors[k];
        if !is_idle(actor, world, ActorId(k as u16)) {
            running.add(k as u16);
        }
    }
    Ok(running)
}

impl System {
    /// A system in its start state: actors in theirs, each with the ends that the rows give it.
    /// `pools` are the pools of its network and its block class by their numbers; `net`, `serial`
    /// and `blk` say which of the actors are the devices and the clients of the classes.
    pub fn start(
        alloc: Global,
        rows: Vec<QueueRow>,
        pools: Vec<PoolRow>,
        actors: Vec<Actor>,
        net: Crew,
        serial: Crew,
        blk: Crew,
    ) -> Result<System, Memory>
        requires seated { AreSeated rows.items actors.items }
        requires pooled { ArePooled rows.items pools.items (map part_of actors.items) }
        ensures state { IfOk result (λ s. s
            ≡ started (start_history rows.items) rows.items pools.items (starts rows.items)
            actors.items net serial blk) }
        ensures stands { IfOk result StandsLawful }
        ensures of_plan { IfOk result IsOfItsPlan }
    {
        let world = World::new(alloc, &rows)?;
        let none: Vec<Ended> = Vec::new(alloc);
        System::begin(
            alloc,
            rows,
            pools,
            world,
            actors,
            net,
            serial,
            blk,
            Snapshot::of(&none),
        )
    }

    // A system whose queues and actors go on from what rings had that came to their end; where
    // there are none, from the start state.
    fn begin(
        alloc: Global,
        rows: Vec<QueueRow>,
        pools: Vec<PoolRow>,
        world: World,
        actors: Vec<Actor>,
        net: Crew,
        serial: Crew,
        blk: Crew,
        past: Snapshot<Vec<Ended>>,
    ) -> Result<System, Memory>
        requires { GoesOn (begun_on past.value.items rows.items pools.items actors.items net serial
            blk) world actors.items }
        ensures state { IfOk result (λ s. s
            ≡ started_on past.value.items rows.items pools.items world actors.items net serial
            blk) }
        ensures stands { IfOk result StandsLawful }
        ensures of_plan { IfOk result IsOfItsPlan }
    {
        let running = first_running(alloc, &rows, &world, &actors, &past)?;
        let kept = kept_queues(alloc, &rows, &actors)?;
        let system = System {
            alloc,
            rows,
            pools,
            wires: NotedWires {
                world,
                kept,
                last: None,
            },
            names: Vec::new(alloc),
            actors,
            net,
            serial,
            blk,
            running,
            journal: Vec::new(alloc),
            past,
        };
        system.stand();
        Ok(system)
    }

    // What holds of every system; nothing is done.
    fn stand(&self)
        ensures stands { StandsLawful self.now }
        ensures of_plan { IsOfItsPlan self.now }
    {
        serial_law();
        let _made = self.journal.len();
    }

    /// The system of a plan in its start state: the actors and queues of its layout, with what a
    /// trace gives them, hostile clients among them.
    pub fn build(
        alloc: Global,
        plan: &Plan,
        layout: &Layout,
        trace: &Trace,
    ) -> Result<System, Memory>
        requires valid { Valid plan.now }
        requires layout { layout.now ≡ layout_of plan.now }
        requires trace { IsReadFor plan.now trace.now }
        ensures built { IfOk result (IsBuilt plan.now trace.now) }
        ensures system { IfOk result (IsSystemOf plan.now trace.now) }
        ensures stands { IfOk result StandsLawful }
    {
        let rows = copies(alloc, layout.queues())?;
        let actors = cast(alloc, plan, layout, trace)?;
        let net = net_crew(alloc, plan, &rows)?;
        let serial = serial_crew(alloc, plan, &rows)?;
        let blk = blk_crew(alloc, plan, &rows)?;
        let pools = pool_copies(alloc, layout.pools())?;
        System::start(alloc, rows, pools, actors, net, serial, blk)
    }

    /// What is seen of the system as it is.
    pub fn report(&self) -> Result<Report, Memory>
        ensures { IfOk result (λ r. r ≡ report_of self.now) }
    {
        Ok(Report {
            quiet: self.running.len() == 0,
            steps: self.journal.len() as u64,
            wire: wire(self.alloc, &self.actors, self.net.device())?,
            net: frame_records(self.alloc, &self.actors, self.net.clients())?,
            line: line(self.alloc, &self.actors, self.serial.device())?,
            serial: records(self.alloc, &self.actors, self.serial.clients())?,
            blk: replies(self.alloc, &self.actors, self.blk.clients())?,
            pools: lines(self.alloc, &self.pools, &self.wires.world, &self.actors)?,
            bad: bad(&self.actors),
        })
    }

    /// Ends the system, and gives what is seen of it as it was.
    pub fn into_report(self) -> Result<Report, Memory>
        ensures { IfOk result (λ r. r ≡ report_of self) }
    {
        let report = self.report();
        drop(self);
        report
    }

    /// All calls that were made, since the system was built.
    pub fn journal(&self) -> &[Entry]
        ensures { result.now ≡ self.now.journal }
    {
        &self.journal
    }

    fn runnable_count(&self) -> usize
        ensures count { result ≡ length (runnable_now self.now) }
        ensures told { EachMoment (NamesTell self.now.setting) self.now.journal }
    {
        self.running.len()
    }

    // One call of the actor at a place among the runnable ones.
    fn step_at(&mut self, place: usize) -> Result<(), Memory>
        requires { place < length (runnable_now self.old) }
        ensures ok { OnOk result (StepsAt place self.old self.new) }
        ensures err { OnErr result (self.new ≡ self.old) }
    {
        make_room(&mut self.journal, &mut self.names, &self.wires.kept)?;
        let number = self.running.at(place);
        // The actor writes its event where it stays, in the journal's entry.
        let last = self.journal.len();
        self.journal.push_reserved(Entry {
            actor: ActorId(number),
            event: event_place(),
        });
        let event = &mut self.journal[last].event;
        let actor = &mut self.actors[number as usize];
        match actor.step(&mut self.wires, event) {
            Ok(()) => {}
            Err(memory) => {
                take_back(&mut self.journal);
                return Err(memory);
            }
        }
        let (op, queue) = (event.op, event.queue);
        keep_name(&mut self.names, &mut self.wires.last, queue);
        let actor = &self.actors[number as usize];
        let idle = is_idle(actor, &self.wires.world, ActorId(number));
        let row = &self.rows[queue.0 as usize];
        let other = reach(op, row, number);
        let runs = is_runnable(&self.actors, &self.wires.world, other);
        self.running.note(place, idle, other, runs);
        Ok(())
    }

    /// Makes steps of actors that the seed picks, until none is runnable or so many were made. It
    /// goes on from the last journal, so a system may be played in any number of calls, each with a
    /// seed and a limit of its own. After want of memory the journal holds the steps that were
    /// made.
    pub fn play(&mut self, seed: u64, limit: u64) -> Result<Ending, Memory>
        ensures played { Played self.old self.new seed limit }
        ensures system { StaysOfItsPlan self.old self.new }
        ensures stands { StandsLawful self.new }
        ensures rests { runnable_now self.old ≡ [] → self.new ≡ self.old }
        ensures quiet { IfOk result (λ e. e ≡ Ending.Quiet → runnable_now self.new ≡ []) }
        ensures spent { IfOk result (λ e. e ≡ Ending.Spent → IsSpent self.old self.new limit) }
    {
        let ending = self.play_on(seed, limit);
        self.stand();
        ending
    }

    // Makes steps of actors that the seed picks, until none is runnable or so many were made.
    fn play_on(&mut self, seed: u64, limit: u64) -> Result<Ending, Memory>
        ensures played { Played self.old self.new seed limit }
        ensures rests { runnable_now self.old ≡ [] → self.new ≡ self.old }
        ensures quiet { IfOk result (λ e. e ≡ Ending.Quiet → runnable_now self.new ≡ []) }
        ensures spent { IfOk result (λ e. e ≡ Ending.Spent → IsSpent self.old self.new limit) }
    {
        let mut x = seed;
        for _step in 0..limit {
            let count = self.runnable_count();
            if count == 0 {
                return Ok(Ending::Quiet);
            }
            x = next_seed(x);
            self.step_at(place_of(x, count))?;
        }
        if self.runnable_count() == 0 {
            Ok(Ending::Quiet)
        } else {
            Ok(Ending::Spent)
        }
    }

    /// Builds the system of a plan and plays it by a seed until it is quiet or so many steps were
    /// made.
    pub fn played(
        alloc: Global,
        plan: &Plan,
        layout: &Layout,
        trace: &Trace,
        seed: u64,
        limit: u64,
    ) -> Result<(System, Ending), Memory>
        requires valid { Valid plan.now }
        requires layout { layout.now ≡ layout_of plan.now }
        requires trace { IsReadFor plan.now trace.now }
        ensures played { IfOk result (λ r. IsPlayed plan.now trace.now seed limit r.0) }
        ensures ended { IfOk result (λ r. HasEnded limit r.0 r.1) }
    {
        let mut system = System::build(alloc, plan, layout, trace)?;
        let ending = system.play(seed, limit)?;
        Ok((system, ending))
    }
}
