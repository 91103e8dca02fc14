//! What follows of the calls of a hostile client from its acts alone, and where its buffers are.
ghost use Rattle.std.specs.Prelude.{◌≡◌, ◌+◌, ◌≤◌, ◌++◌, false, List, [], ◌∷◌, length};
ghost use Rattle.cargo_core.specs.declared.item.QueueKind.{QueueKind};
ghost use Rattle.wire_core.specs.declared.names.QueueId.{QueueId};
ghost use Rattle.wire_core.specs.declared.names.Event.{Event};
ghost use Rattle.wire_core.specs.Lists.{Passed};
ghost use Rattle.client_programs.specs.declared.rogue.Rogue.{Rogue};
ghost use Rattle.client_programs.specs.Rogue.Acts.{Left, left_from, left_after, calls_left};
ghost use Rattle.client_programs.specs.Rogue.Acts.{Follows, IsNext, is_done};
ghost use Rattle.client_programs.specs.Rogue.Clients.{IsRogue, IsOwnCall, RogueStandsFor};
ghost use Rattle.client_programs.specs.Rogue.Clients.{RogueBalances, ends_of, left_of};

/// The calls that follow an account of acts, one by one: with each further one that is the next,
/// the calls still do, and what is left is told by the answers alone. There is a next call only
/// where not all is done, and it is one; and of an act come at most two. The next call is at one of
/// the client's own ends, or stores a word of a queue of which it has an end.
pub fn act_law()
    ensures more { (kind : QueueKind) (ends : List QueueId) (left : Left) (es : List Event)
        (e : Event) → Follows kind ends left es → IsNext kind ends (left_from left es) e
        → Follows kind ends left (es ++ e ∷ []) }
    ensures left { (left : Left) (es : List Event) (e : Event)
        → left_from left (es ++ e ∷ []) ≡ left_after (left_from left es) e.answer }
    ensures one { (kind : QueueKind) (ends : List QueueId) (left : Left) (e f : Event)
        → IsNext kind ends left e → IsNext kind ends left f
        → (e.queue.0 ≡ f.queue.0) × (e.op ≡ f.op) }
    ensures some { (kind : QueueKind) (ends : List QueueId) (left : Left) (e : Event)
        → IsNext kind ends left e → is_done left ≡ false }
    ensures bounded { (kind : QueueKind) (ends : List QueueId) (left : Left) (es : List Event)
        → Follows kind ends left es → length es + calls_left (left_from left es)
        ≤ calls_left left }
    ensures own { (r : Rogue) (e : Event) → IsRogue r → IsNext r.kind (ends_of r) (left_of r) e
        → IsOwnCall r e }
{}

/// What it had at the start and what came is what went and what it keeps.
pub fn hand_law()
    ensures { (r : Rogue) (passed : Passed) → RogueStandsFor r passed → RogueBalances r passed }
{}
