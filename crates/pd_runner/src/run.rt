//! A thread for each actor.
ghost use Rattle.std.specs.Prelude.{◌≡◌, ◌≤◌, ◌⊎◌, IfOk, IfNone, true};
ghost use Rattle.pd_runner.specs.Running.{IsReady, HasNoWant, Came};
ghost use Rattle.pd_runner.specs.Begun.{BegunOf, JoinedOf, RanOf};
ghost use Rattle.pd_runner.specs.Each.{Each, Every, AnyOf, AnyPair};
ghost use Rattle.pd_runner.specs.Ends.{RanReady, SettledOf, LawfulOf, SpentOf, Rests};

use crate::floor::Floor;
use crate::gate::Gate;
use crate::part::{Part, Ran, Task};
use crate::work::{settle, work};
use cargo_core::Memory;
use crossbeam_utils::sync::Parker;
use spsc_queue::Ring;
use std::alloc::Global;
use std::snapshot::Snapshot;
use std::sync::Wait;
use std::thread;
use std::thread::{Promise, PromisedHandle, Scope, Threads};
use wire_core::QueueRow;

impl<'a> Promise<Ran> for Task<'a> {
    ghost kept_by = { λ t r. Came t.rings.now t.was.value r.made r.part × (r.made ≤ t.limit) };
}

/// An actor's thread, or the actor's part where none could be started.
#[derive(Drop)]
pub enum Begun<'a> {
    Started(PromisedHandle<Ran, Task<'a>>),
    Back(Ran),
}

/// Starts the thread of one actor.
pub fn begin<'s, E: 's, R: Threads + Wait + Sync, G: Gate + Sync>(
    scope: &'s Scope<'s, E>,
    rt: &'s R,
    rings: &'s [Ring],
    floor: &'s Floor,
    gate: &'s G,
    me: u16,
    parker: Parker,
    part: Part,
    limit: u64,
) -> Begun<'s>
    requires { IsReady rings.now part }
    ensures { BegunOf rings.entry.now limit part result }
{
    let task = Task {
        rings,
        was: Snapshot::of(&part),
        limit,
    };
    let job = move || -> Ran
        requires { IsReady rings.now part }
        ensures { Came rings.entry.now part result.made result.part × (result.made ≤ limit) }
    { work(rt, rings, floor, gate, me, parker, part, limit) };
    match scope.spawn_with(task, job) {
        Ok(handle) => Begun::Started(handle),
        Err(refused) => {
            floor.leave_unmanned(me);
            let job = refused.value;
            Begun::Back(job())
        }
    }
}

// The next parker, or a new one where there is none.
fn next_parker(alloc: Global, parkers: &mut Vec<Parker>) -> Result<Parker, Memory> {
    match parkers.pop() {
        Some(parker) => Ok(parker),
        None => Ok(Parker::new(alloc)?),
    }
}

// Starts them all. The parker of the first stands last.
fn begin_all<'s, E: 's, R: Threads + Wait + Sync, G: Gate + Sync>(
    scope: &'s Scope<'s, E>,
    rt: &'s R,
    alloc: Global,
    rings: &'s [Ring],
    floor: &'s Floor,
    gate: &'s G,
    mut parkers: Vec<Parker>,
    parts: Vec<Part>,
    limit: u64,
) -> Result<Vec<Begun<'s>>, Memory>
    requires { Every (IsReady rings.now) parts.items }
    ensures { IfOk result (λ v. Each (BegunOf rings.entry.now limit) parts.items v.items) }
{
    let mut begun = Vec::new(alloc);
    let mut me: u16 = 0;
    for part in parts {
        let parker = match next_parker(alloc, &mut parkers) {
            Ok(parker) => parker,
            Err(memory) => {
                drop(part);
                return Err(memory);
            }
        };
        let one = begin(scope, rt, rings, floor, gate, me, parker, part, limit);
        begun.push(one)?;
        me = me.wrapping_add(1);
    }
    Ok(begun)
}

fn join_one<'s, R: Threads>(rt: &R, begun: Begun<'s>) -> Ran
    ensures { JoinedOf begun.entry result }
{
    match begun {
        Begun::Started(handle) => handle.join(rt),
        Begun::Back(ran) => ran,
    }
}

fn join_all<'s, R: Threads>(
    rt: &R,
    alloc: Global,
    begun: Vec<Begun<'s>>,
) -> Result<Vec<Ran>, Memory>
    ensures { IfOk result (λ v. Each JoinedOf begun.entry.items v.items) }
{
    let mut all = Vec::new(alloc);
    for one in begun {
        all.push(join_one(rt, one))?;
    }
    Ok(all)
}

/// Runs each in a thread of its own until all are idle, one has made `limit` steps or memory runs
/// out.
pub fn in_threads<R: Threads + Wait + Sync, G: Gate + Sync>(
    rt: &R,
    alloc: Global,
    rings: &[Ring],
    floor: &Floor,
    gate: &G,
    parkers: Vec<Parker>,
    parts: Vec<Part>,
    limit: u64,
) -> Result<Vec<Ran>, Memory>
    requires { Every (IsReady rings.now) parts.items }
    ensures { IfOk result (λ v. Each (RanOf rings.entry.now limit) parts.items v.items) }
{
    thread::scope(
        thread::scope_env(),
        rt,
        move |scope| -> Result<Vec<Ran>, Memory>
            requires { Every (IsReady rings.now) parts.items }
            ensures { IfOk result (λ v. Each (RanOf rings.entry.now limit) parts.items v.items) }
        {
            match begin_all(scope, rt, alloc, rings, floor, gate, parkers, parts, limit) {
                Ok(begun) => join_all(rt, alloc, begun),
                Err(memory) => {
                    floor.end();
                    Err(memory)
                }
            }
        },
    )
}

// Whether one made all its steps.
fn is_spent(rans: &[Ran], limit: u64) -> bool
    ensures { result ≡ true → AnyOf (λ r. limit ≤ r.made) rans.now }
{
    for ran in rans {
        if ran.made >= limit {
            return true;
        }
    }
    false
}

// The first want of memory that one of them met.
fn first_want(rans: &[Ran]) -> Option<Memory>
    ensures { IfNone result (Every (λ r. HasNoWant r.part) rans.now) }
{
    for ran in rans {
        match ran.part.worker.wanted() {
            Some(memory) => return Some(memory),
            None => {}
        }
    }
    None
}

// The last pass: it steps what isn't at rest, unless one made all its steps.
fn settle_all<G: Gate>(
    alloc: Global,
    rings: &[Ring],
    gate: &G,
    rans: Vec<Ran>,
    limit: u64,
    stop: bool,
) -> Result<Vec<Part>, Memory>
    requires { Every (RanReady rings.now limit) rans.items }
    ensures { IfOk result (λ v. Each (SettledOf rings.entry.now limit stop) rans.items v.items) }
{
    let mut all = Vec::new(alloc);
    let mut me: u16 = 0;
    for ran in rans {
        let Ran { part, made } = ran;
        let (part, _) = settle(rings, gate, me, part, made, limit, stop)?;
        all.push(part)?;
        me = me.wrapping_add(1);
    }
    Ok(all)
}

/// Runs the actors in threads, and then makes the last pass, as `run_threads` says.
pub(crate) fn run_seated<R: Threads + Wait + Sync, G: Gate + Sync>(
    rt: &R,
    alloc: Global,
    rows: &[QueueRow],
    rings: &[Ring],
    parts: Vec<Part>,
    limit: u64,
    gate: &G,
) -> Result<Vec<Part>, Memory>
    requires { Every (IsReady rings.now) parts.items }
    ensures came { IfOk result (λ v. Each (LawfulOf rings.entry.now limit)
        parts.items v.items) }
    ensures ends { IfOk result (λ v. Every Rests v.items
        ⊎ AnyPair (SpentOf rings.entry.now limit) parts.items v.items) }
{
    let mut parkers = Vec::new(alloc);
    for _ in 0..parts.len() {
        parkers.push(Parker::new(alloc)?)?;
    }
    let floor = Floor::new(alloc, rows, &parkers)?;
    let rans = in_threads(rt, alloc, rings, &floor, gate, parkers, parts, limit)?;
    if let Some(memory) = first_want(&rans) {
        return Err(memory);
    }
    let stop = is_spent(&rans, limit);
    settle_all(alloc, rings, gate, rans, limit, stop)
}
