//! The player.
ghost use Rattle.std.specs.Prelude.{◌≡◌, ◌<◌, ◌≤◌, ◌-◌, ℕ, true, false, length, not, take};
ghost use Rattle.std.specs.Prelude.{slice_get, Some, [], OnOk, OnErr, IfOk};
ghost use Rattle.wire_core.specs.Queues.{starts};
ghost use Rattle.play_core.specs.Runs.{rung_at};
ghost use Rattle.small_system.specs.Meanings.{IsFit};
ghost use Rattle.small_system.specs.Tales.{start_of, is_runnable, running_in};
ghost use Rattle.small_system.specs.Standing.{Begins, IsLawful};
ghost use Rattle.small_system.specs.Shows.{shown, IsTold, Stands, IsQuiet, Played, IsSpent};
ghost use Rattle.small_system.specs.Shows.{StepsAt, IsAsked};
ghost use Rattle.player_kit.specs.Runnings.{removed_if, with_option};

use crate::SmallActor;
use cargo_core::{Memory, Text};
use plain_wires::World;
use player_kit::Running;
use std::alloc::Global;
use std::marker::Model;
use std::snapshot::Snapshot;
use turn_kit::event_place;
use wire_core::{ActorId, Entry, Op, QueueRow, Side, next_seed, place_of};

/// Actors of any kind at play: the queues of its rows with what stands in them, the actors, and the
/// one journal. Which actors are runnable is kept up to date, so that a step costs the ends of the
/// actor that makes it.
#[derive(Drop)]
pub struct Small<A: SmallActor> {
    rows: Vec<QueueRow>,
    // The actors as they were at the start. They stand in proofs alone.
    start: Snapshot<Vec<A>>,
    world: World,
    actors: Vec<A>,
    running: Running,
    journal: Vec<Entry>,
}

impl<A: SmallActor> Model for Small<A> {
    ghost use Rattle.small_system.specs.Shows.{Shown, shown};
    ghost use Rattle.small_system.specs.Inside.{IsSmall};

    ghost Value = { Shown A };

    ghost view = { λ s. shown s.rows.items s.start.value.items s.world s.actors.items
        s.journal.items };

    ghost invariant = { λ s. IsSmall A.means (shown s.rows.items s.start.value.items s.world
        s.actors.items s.journal.items) s.running };
}

// A copy of a row.
fn copy(alloc: Global, row: &QueueRow) -> Result<QueueRow, Memory>
    ensures { IfOk result (λ r. r ≡ row.now) }
{
    Ok(QueueRow {
        name: Text::new(alloc, row.name.as_str())?,
        kind: row.kind,
        capacity: row.capacity,
        producer: row.producer,
        consumer: row.consumer,
        region: row.region,
        offset: row.offset,
    })
}

// Copies of rows.
fn copies(alloc: Global, rows: &[QueueRow]) -> Result<Vec<QueueRow>, Memory>
    ensures { IfOk result (λ rs. rs.items ≡ rows.now) }
{
    let mut copies = Vec::with_capacity(alloc, rows.len())?;
    for row in rows {
        copies.push(copy(alloc, row)?)?;
    }
    Ok(copies)
}

// The actor whose pending word a call on a queue of this row sets, if it sets one.
#[inline(always)]
fn rung_at(op: Op, row: &QueueRow) -> Option<u16>
    ensures { result ≡ rung_at op row.now }
{
    match op {
        Op::Ring(Side::Forward) => Some(row.consumer.0),
        Op::Ring(Side::Backward) => Some(row.producer.0),
        _ => None,
    }
}

// Whether the actor at a place isn't runnable. What is pending for it is asked first, which is one
// look.
#[inline(always)]
fn is_idle<A: SmallActor>(actor: &A, world: &World, place: ActorId) -> bool
    requires { IsFit A.means actor.now }
    ensures { result ≡ not (is_runnable A.means world.now place.0 actor.now) }
{
    !world.is_pending(place) && actor.at_rest()
}

// Whether the actor that a call rings is runnable now.
fn is_woken<A: SmallActor>(actors: &[A], world: &World, rung: Option<u16>) -> bool
    requires there { (k : ℕ) → rung ≡ Some k → k < length actors.now }
    requires fit { (k : ℕ) (x : A) → slice_get actors.now k ≡ Some x → IsFit A.means x }
    ensures { IsAsked A.means actors.now world.now rung result }
{
    match rung {
        Some(actor) => !is_idle(&actors[actor as usize], world, ActorId(actor)),
        None => false,
    }
}

// Takes the last entry of a journal out again.
#[inline(never)]
fn take_back(journal: &mut Vec<Entry>)
    requires { 0 < length journal.old.items }
    ensures { journal.new.items ≡ take (length journal.old.items - 1) journal.old.items }
{
    let _ = journal.pop();
}

// The runnable actors before the first call.
fn first_running<A: SmallActor>(
    alloc: Global,
    rows: &[QueueRow],
    world: &World,
    actors: &[A],
) -> Result<Running, Memory>
    requires begins { Begins A.means rows.now actors.now }
    requires starts { world.now ≡ starts rows.now }
    ensures list { IfOk result (λ r. r.list ≡ running_in A.means (start_of rows.now actors.now)) }
    ensures room { IfOk result (λ r. length actors.now ≤ r.room) }
{
    let mut running = Running::with_room(alloc, actors.len())?;
    for k in 0..actors.len() {
        if !is_idle(&actors[k], world, ActorId(k as u16)) {
            running.add(k as u16);
        }
    }
    Ok(running)
}

impl<A: SmallActor> Small<A> {
    /// A player in its start state: queues can be made of the rows, each owner of a row is one of
    /// the actors, and each actor has just the ends that the rows give its place, in their start
    /// state.
    pub fn new(alloc: Global, rows: &[QueueRow], actors: Vec<A>) -> Result<Small<A>, Memory>
        requires { Begins A.means rows.now actors.items }
        ensures state { IfOk result (λ s. s ≡ shown rows.now actors.items (starts rows.now)
            actors.items []) }
        ensures told { IfOk result (IsTold A.means) }
    {
        let rows = copies(alloc, rows)?;
        let world = World::new(alloc, &rows)?;
        let running = first_running(alloc, &rows, &world, &actors)?;
        let start = Snapshot::of(&actors);
        let small = Small {
            rows,
            start,
            world,
            actors,
            running,
            journal: Vec::new(alloc),
        };
        small.tell();
        Ok(small)
    }

    // What holds of every player; nothing is done.
    fn tell(&self)
        ensures told { IsTold A.means self.now }
        ensures stands { Stands A.means self.now }
        ensures lawful { IsLawful self.now.rows self.now.journal }
    {
        let _made = self.journal.len();
    }

    fn running_count(&self) -> usize
        ensures { result ≡ length (running_in A.means self.now.moment) }
    {
        self.running.len()
    }

    // One turn of the actor at a place among the runnable ones.
    fn step_at(&mut self, place: usize) -> Result<(), Memory>
        requires { place < length (running_in A.means self.old.moment) }
        ensures ok { OnOk result (StepsAt A.means place self.old self.new) }
        ensures err { OnErr result (self.new ≡ self.old) }
    {
        self.journal.reserve(1)?;
        let number = self.running.at(place);
        // The actor writes its event into the journal itself.
        let last = self.journal.len();
        self.journal.push_reserved(Entry {
            actor: ActorId(number),
            event: event_place(),
        });
        let event = &mut self.journal[last].event;
        let actor = &mut self.actors[number as usize];
        match actor.step(&mut self.world, event) {
            Ok(()) => {}
            Err(memory) => {
                take_back(&mut self.journal);
                return Err(memory);
            }
        }
        let (op, queue) = (event.op, event.queue);
        let actor = &self.actors[number as usize];
        let idle = is_idle(actor, &self.world, ActorId(number));
        let row = &self.rows[queue.0 as usize];
        let rung = rung_at(op, row);
        let woken = is_woken(&self.actors, &self.world, rung);
        self.running.note(place, idle, rung, woken);
        Ok(())
    }

    /// Makes steps of actors that the seed picks, until none is runnable or so many were made, and
    /// answers whether none is. It goes on from the last journal, so it may be called any number of
    /// times, each with a seed and a limit of its own. After want of memory the journal holds the
    /// steps that were made.
    pub fn play(&mut self, seed: u64, limit: u64) -> Result<bool, Memory>
        ensures played { Played A.means self.old self.new seed limit }
        ensures told { IsTold A.means self.new }
        ensures stands { Stands A.means self.new }
        ensures lawful { IsLawful self.new.rows self.new.journal }
        ensures quiet { IfOk result (λ quiet. quiet ≡ true → IsQuiet A.means self.new) }
        ensures spent { IfOk result
            (λ quiet. quiet ≡ false → IsSpent A.means self.old self.new limit) }
    {
        let quiet = self.play_on(seed, limit);
        self.tell();
        quiet
    }

    // Makes steps of actors that the seed picks, until none is runnable or so many were made.
    fn play_on(&mut self, seed: u64, limit: u64) -> Result<bool, Memory>
        ensures played { Played A.means self.old self.new seed limit }
        ensures quiet { IfOk result (λ quiet. quiet ≡ true → IsQuiet A.means self.new) }
        ensures spent { IfOk result
            (λ quiet. quiet ≡ false → IsSpent A.means self.old self.new limit) }
    {
        let mut x = seed;
        for _step in 0..limit {
            let count = self.running_count();
            if count == 0 {
                return Ok(true);
            }
            x = next_seed(x);
            self.step_at(place_of(x, count))?;
        }
        Ok(self.running_count() == 0)
    }

    /// All calls that were made, since the player was made.
    pub fn journal(&self) -> &[Entry]
        ensures { result.now ≡ self.now.journal }
    {
        &self.journal
    }

    /// The queues as they are.
    pub fn world(&self) -> &World
        ensures { result.now ≡ self.now.moment.world }
    {
        &self.world
    }

    /// The actors as they are.
    pub fn actors(&self) -> &[A]
        ensures { result.now ≡ self.now.moment.actors }
    {
        &self.actors
    }

    /// Takes the player apart: the queues and the actors as they are, and all calls that were made
    /// since it was made.
    pub fn into_parts(self) -> (World, Vec<A>, Vec<Entry>)
        ensures world { result.0 ≡ self.moment.world }
        ensures actors { result.1.items ≡ self.moment.actors }
        ensures journal { result.2.items ≡ self.journal }
    {
        let Small {
            rows: _,
            start: _,
            world,
            actors,
            running: _,
            journal,
        } = self;
        (world, actors, journal)
    }
}
