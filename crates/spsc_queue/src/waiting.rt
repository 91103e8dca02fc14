//! What a look makes of the end that waits.
ghost use Rattle.std.specs.Prelude.{◌≡◌};
ghost use Rattle.wire_core.specs.Deeds.{answer_of};
ghost use Rattle.wire_core.specs.Ends.{looked_waiter};

use wire_core::Waiter;

// The waiter after a look: a no makes one that asked clear.
pub(crate) fn looked(waiter: Waiter, answer: bool) -> Waiter
    ensures { result ≡ looked_waiter waiter (answer_of answer) }
{
    match waiter {
        Waiter::Asked => { if answer { Waiter::Asked } else { Waiter::Clear } }
        Waiter::Busy => Waiter::Busy,
        Waiter::Clear => Waiter::Clear,
        Waiter::Off => Waiter::Off,
    }
}
