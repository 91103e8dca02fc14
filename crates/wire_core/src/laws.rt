//! What holds along every legal journal, as laws of definitions alone.
ghost use Rattle.std.specs.Prelude.{◌≡◌, ℕ, true, false, List, []};
ghost use Rattle.wire_core.specs.Deeds.{Deed};
ghost use Rattle.wire_core.specs.Ends.{Condition, role_of};
ghost use Rattle.wire_core.specs.Queues.{Queue, May, Finds, Tells, after, end_of, is_store};
ghost use Rattle.wire_core.specs.Queues.{is_filled, has_room};
ghost use Rattle.wire_core.specs.Journal.{Track, History, Hostiles, start_track, track_after};
ghost use Rattle.wire_core.specs.Journal.{start_history, is_sent, is_open, CarriesItem, TrackHolds};
ghost use Rattle.wire_core.specs.Journal.{Flows, BellsHold, QueuesFlow, LegalJournal, EachMoment};

use crate::{Entry, Event, QueueRow};

/// The bell law: its three parts together hold of a queue at the start, and each call that meets
/// its condition, and answers and moves what the queue law says, keeps them.
pub fn bell_law()
    ensures start { (row : QueueRow) → TrackHolds row start_track }
    ensures kept { (row : QueueRow) (t : Track) (e : Event) → TrackHolds row t
        → Condition (end_of true row.kind t.bells (role_of e.op)) e.op
        → Tells (is_sent t) (is_open row t) t.bells e.op e.answer
        → CarriesItem row.kind t e.op e.item → TrackHolds row (track_after t e) }
{}

/// At each moment of a legal journal the bell law holds of each queue with no hostile end; and of
/// every queue what was taken from it is a beginning of what was put, and what was put is at most
/// the capacity longer. Both where this is so of the history, as it is of one in which nothing
/// happened.
pub fn journal_law()
    ensures bells { (hostile : Hostiles) (history : History) (rows : List QueueRow)
        (journal : List Entry) → BellsHold hostile history rows []
        → LegalJournal hostile history rows journal
        → EachMoment (BellsHold hostile history rows) journal }
    ensures flows { (hostile : Hostiles) (history : History) (rows : List QueueRow)
        (journal : List Entry) → QueuesFlow history rows []
        → LegalJournal hostile history rows journal
        → EachMoment (QueuesFlow history rows) journal }
    ensures start_bells { (hostile : Hostiles) (rows : List QueueRow)
        → BellsHold hostile (start_history rows) rows [] }
    ensures start_flows { (rows : List QueueRow) → QueuesFlow (start_history rows) rows [] }
{}

/// One call on a queue on which words may be stored: whatever they hold, a look answers yes, and an
/// entry is moved, only where one stands there or has room; and as long as no word was stored, it
/// answers as the queue law says.
pub fn wild_law()
    ensures finds { (q : Queue) (d : Deed) → May q d
        → Finds (is_filled q) (has_room q) d.event.op d.event.answer }
    ensures tells { (q : Queue) (d : Deed) → May q d → q.indices.stored ≡ false
        → is_store d.event.op ≡ false
        → Tells (is_filled q) (has_room q) q.bells d.event.op d.event.answer }
    ensures stays { (q : Queue) (d : Deed) → is_store d.event.op ≡ false
        → (after q d).indices.stored ≡ q.indices.stored }
{}
