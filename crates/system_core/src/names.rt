//! The names that a system keeps of what is put to queues with a hostile end.
ghost use Rattle.std.specs.Prelude.{◌≡◌, ◌<◌, ◌-◌, ◌++◌, ℕ, true, false, is_some, length, map, take};
ghost use Rattle.std.specs.Prelude.{IfOk, None, OnOk, vec_len, vec_capacity};
ghost use Rattle.player_kit.specs.Calls.Noting.{kept_at, notes_in};
ghost use Rattle.play_core.specs.Names.{carries_pages, is_wild, wild_in};
ghost use Rattle.actor_set.specs.Actors.{part_of};
ghost use Rattle.actor_set.specs.Laws.Kinds.{AllCalm, hostiles};

use actor_set::Actor;
use cargo_core::{Memory, QueueKind};
use player_kit::noted_wires::{Noted, Tag};
use std::alloc::Global;
use wire_core::{ActorId, Entry, QueueId, QueueRow};

// Whether the actor of a number is hostile.
fn is_hostile(actors: &[Actor], number: ActorId) -> bool
    ensures { result ≡ hostiles (map part_of actors.now) number.0 }
{
    match actors.get(number.0 as usize) {
        Some(actor) => actor.is_hostile(),
        None => false,
    }
}

// Whether some actor is hostile.
fn has_hostile(actors: &[Actor]) -> bool
    ensures { result ≡ false → AllCalm (map part_of actors.now) }
{
    for actor in actors {
        if actor.is_hostile() {
            return true;
        }
    }
    false
}

// Whether the entries of queues of this kind may carry pages.
fn carries_pages(kind: QueueKind) -> bool
    ensures { result ≡ carries_pages kind }
{
    !matches!(kind, QueueKind::Byte)
}

// Whether names are kept of what is put to a queue of this row.
fn is_wild(actors: &[Actor], row: &QueueRow) -> bool
    ensures { result ≡ is_wild (hostiles (map part_of actors.now)) row.now }
{
    let hostile = is_hostile(actors, row.producer) || is_hostile(actors, row.consumer);
    hostile && carries_pages(row.kind)
}

/// Of which queues names are kept, where the rows give them these actors. Where nobody is hostile
/// it takes no memory.
pub fn kept_queues(alloc: Global, rows: &[QueueRow], actors: &[Actor]) -> Result<Vec<bool>, Memory>
    ensures { IfOk result (λ kept. (n : ℕ)
        → kept_at kept.items n ≡ wild_in (hostiles (map part_of actors.now)) rows.now n) }
{
    let mut kept = Vec::new(alloc);
    if has_hostile(actors) {
        for row in rows {
            kept.push(is_wild(actors, row))?;
        }
    }
    Ok(kept)
}

/// Makes room for one call more in a journal and, where names are kept of some queues, for one name
/// more. Memory is the answer for want of memory alone, and then all is as it was but for the room.
#[inline(always)]
pub fn make_room(
    journal: &mut Vec<Entry>,
    names: &mut Vec<Noted>,
    kept: &[bool],
) -> Result<(), Memory>
    ensures journal { journal.new.items ≡ journal.old.items }
    ensures names { names.new.items ≡ names.old.items }
    ensures room { OnOk result (vec_len journal.new < vec_capacity journal.new) }
    ensures name { OnOk result ((n : ℕ) → kept_at kept.now n ≡ true
        → vec_len names.new < vec_capacity names.new) }
{
    journal.reserve(1)?;
    if !kept.is_empty() {
        names.reserve(1)?;
    }
    Ok(())
}

/// Takes the last entry of a journal out again.
#[inline(never)]
pub fn take_back(journal: &mut Vec<Entry>)
    requires { 0 < length journal.old.items }
    ensures { journal.new.items ≡ take (length journal.old.items - 1) journal.old.items }
{
    drop(journal.pop());
}

/// Keeps the name of what was put last to this queue, where there is one.
#[inline(always)]
pub fn keep_name(names: &mut Vec<Noted>, last: &mut Option<Option<Tag>>, queue: QueueId)
    requires { is_some last.old ≡ true → vec_len names.old < vec_capacity names.old }
    ensures names { names.new.items ≡ names.old.items ++ notes_in queue.0 last.old }
    ensures none { last.new ≡ None }
{
    if last.is_some() {
        if let Some(name) = last.take() {
            names.push_reserved(Noted::new(queue, name));
        }
    }
}
