//! The class: two sources and a joiner at play.
ghost use Rattle.std.specs.Prelude.{◌≡◌, ℕ, true, false, List, length, map, IfOk};
ghost use Rattle.small_system.specs.Shows.{Shown, IsTold, IsQuiet};
ghost use Rattle.library_examples.specs.ClassExample.Members.{made_of, member_means};
ghost use Rattle.library_examples.specs.ClassExample.Pairs.{IsRow, pair_of, Keeps, IsPairPlay};

use crate::class_example::joiner::Joiner;
use crate::class_example::member::Member;
use crate::class_example::source::Source;
use cargo_core::{Bytes, Memory, QueueKind, Text};
use play_core::quiet_law;
use play_core::rests::rest_law;
use small_system::{Small, tale_law};
use std::alloc::Global;
use wire_core::{ActorId, QueueId, QueueRow};

/// How many entries each of the two queues holds.
const CAPACITY: u32 = 2;

/// What holds of two sources and a joiner, however they were played.
pub fn pair_law()
    ensures { (s : Shown Member) (one other : List ℕ) → IsTold member_means s
        → map made_of s.start ≡ pair_of one other → Keeps s one other }
{
    tale_law::<Member>();
    rest_law();
    quiet_law();
}

// A queue of bytes from a source to the joiner, which is actor 2.
fn row(alloc: Global, name: &str, source: u16) -> Result<QueueRow, Memory>
    ensures { IfOk result (IsRow source) }
{
    Ok(QueueRow {
        name: Text::new(alloc, name)?,
        kind: QueueKind::Byte,
        capacity: CAPACITY,
        producer: ActorId(source),
        consumer: ActorId(2),
        region: None,
        offset: 0,
    })
}

/// Plays the sources of two scripts with a joiner by a seed, until nobody is runnable or so many
/// steps were made, and gives the player as it is then, and whether nobody is runnable. Where
/// somebody is, its journal has as many entries as were allowed.
pub fn play_pair(
    alloc: Global,
    one: Bytes,
    other: Bytes,
    seed: u64,
    limit: u64,
) -> Result<(Small<Member>, bool), Memory>
    ensures played { IfOk result (λ r. IsPairPlay one other seed limit r.0) }
    ensures keeps { IfOk result (λ r. Keeps r.0 one other) }
    ensures quiet { IfOk result (λ r. r.1 ≡ true → IsQuiet member_means r.0) }
    ensures goes_on { IfOk result (λ r. r.1 ≡ false → IsQuiet member_means r.0 → ⊥) }
    ensures spent { IfOk result (λ r. r.1 ≡ false → length r.0.journal ≡ limit) }
{
    let from_first = row(alloc, "one", 0)?;
    let from_second = row(alloc, "other", 1)?;
    let rows = vec![in alloc; from_first, from_second]?;
    let first = Source::new(QueueId(0), one);
    let second = Source::new(QueueId(1), other);
    let joiner = Joiner::new(alloc, QueueId(0), QueueId(1));
    let actors = vec![in alloc;
        Member::Source(first),
        Member::Source(second),
        Member::Joiner(joiner),
    ]?;
    let mut small = Small::new(alloc, &rows, actors)?;
    let quiet = small.play(seed, limit)?;
    pair_law();
    Ok((small, quiet))
}
