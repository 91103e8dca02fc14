//! When an actor is at rest, by the journal: of any kind of actor that takes its ends in turn.

ghost use Rattle.std.specs.Prelude.{◌≡◌, Bool, List, []};
ghost use Rattle.wire_core.specs.declared.names.Entry.{Entry};
ghost use Rattle.wire_core.specs.Queues.{Queue, end_at};
ghost use Rattle.wire_core.specs.Journal.{History};
ghost use Rattle.turn_kit.specs.Turns.{Post, settled_all};
ghost use Rattle.play_core.specs.Wants.{Want, all_settled};
ghost use Rattle.play_core.specs.Rests.Showing.{HaveBells};
ghost use Rattle.play_core.specs.Rests.Meeting.{Meet};

/// Where the ends of an actor, as it keeps them, are those that are wanted, all of them are settled
/// exactly where history and journal say so of what is wanted.
pub fn rest_law()
    ensures { (history : History) (journal : List Entry) (world : List Queue) (posts : List Post)
        (needs : List Bool) (wants : List Want)
        → HaveBells world history journal → Meet (end_at world) posts needs wants
        → settled_all posts needs ≡ all_settled history journal wants }
{}
