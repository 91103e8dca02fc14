//! What a system takes over from actors that were at work elsewhere: they forget their last looks,
//! since those who looked are gone.

ghost use Rattle.std.specs.Prelude.{ℕ};
ghost use Rattle.wire_core.specs.Ends.{Role, End};
ghost use Rattle.actor_set.specs.Actors.{FitsActor, ActorEnd, Forgot};
ghost use Rattle.actor_set.specs.declared.actor.Actor.{Actor};
ghost use Rattle.actor_set.specs.Adopting.Looks.{SameButLook};

/// An actor of any kind that forgot its last looks fits ends which are its own as before, whatever
/// the last looks there answered.
pub fn forget_law()
    ensures { (ends other : Role → ℕ → End) (old new : Actor) → Forgot old new
        → ((r : Role) (n : ℕ) → ActorEnd new r n → SameButLook (ends r n) (other r n))
        → FitsActor ends new → FitsActor other new }
{}
