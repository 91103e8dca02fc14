//! A bound on the length of a journal. It stands on the queues alone, so that it holds of whatever
//! actors, of this project or of another, whose journals are brisk.
#![tactic(auto)]

ghost use Rattle.std.specs.Prelude.{◌≡◌, ◌+◌, ◌*◌, ◌<◌, ◌≤◌, ◌^◌, ℕ, List, [], length};
ghost use Rattle.wire_core.specs.Journal.{History, Hostiles, LegalJournal, BellsHold, QueuesFlow};
ghost use Rattle.step_bound.specs.Calm.{AreCalm};
ghost use Rattle.wire_core.specs.Marks.{Drops, Brisk, AreOwned, ends_of, all_sent, dropped};

use wire_core::{Entry, QueueRow};

/// How many steps suffice where so many entries are put or dropped by so many actors, each of which
/// has at most `ends` ends of queues.
pub fn bound(hops: u64, actors: u64, ends: u64) -> u64
    requires { 32 * (hops + actors + 1) * (ends + 1) < 2 ^ 64 }
    ensures { result ≡ 32 * (hops + actors + 1) * (ends + 1) }
{
    let stretches = hops + actors + 1;
    32 * stretches * (ends + 1)
}

/// A journal that is legal and brisk is shorter than the bound, where the bells and the queues hold
/// before it begins: each put, drop, take and notification is a mark once, and between two marks an
/// actor makes few calls.
pub fn brisk_law()
    ensures bounded { (hostile : Hostiles) (drops : Drops) (history : History)
        (rows : List QueueRow) (journal : List Entry) (hops actors ends : ℕ)
        → AreCalm hostile rows → BellsHold hostile history rows []
        → QueuesFlow history rows [] → LegalJournal hostile history rows journal
        → Brisk hostile rows drops journal → AreOwned rows actors
        → ((a : ℕ) → ends_of a rows ≤ ends)
        → all_sent history rows journal + dropped drops journal ≤ hops → length journal < 32 *
        (hops + actors + 1) * (ends + 1) }
{}
