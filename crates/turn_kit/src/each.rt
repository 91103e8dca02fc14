//! What is asked of each end of a list: one loop serves consuming and producing ends.

ghost use Rattle.std.specs.Prelude.{◌≡◌, ◌<◌, ◌≤◌, ◌+◌, ◌^◌, length, map};
ghost use Rattle.wire_core.specs.declared.names.QueueId.{QueueId};
ghost use Rattle.turn_kit.specs.Lowests.{found};
ghost use Rattle.turn_kit.specs.ManyEnds.{needs_from};
ghost use Rattle.turn_kit.specs.Table.{is_settled};
ghost use Rattle.turn_kit.specs.Turns.{Post, offered_from, settled_all, unsettled_from};

use crate::{Choice, Lowest, Needs};
use wire_core::QueueId;

/// An end of a list of ends of one sort.
pub trait Listed {
    ghost post: { Self → Post };

    ghost queue: { Self → QueueId };

    /// Its queue.
    fn queue(&self) -> QueueId
        ensures queue { result ≡ queue self.now }
        ensures post { result.0 ≡ (post self.now).queue };

    /// Whether it is settled, where it is needed, or loaded, or not.
    fn is_settled(&self, need: bool) -> bool
        ensures { result ≡ is_settled (post self.now).state need };
}

/// Offers each end, the first of them at the place `base`; `needs` tells which are needed, or
/// loaded, by their places among these ends.
#[inline(always)]
pub fn offer_each<E: Listed, N: Needs>(
    ends: &[E],
    mut choice: Choice,
    base: usize,
    needs: &N,
) -> Choice
    requires { base + length ends.now ≤ choice.count }
    ensures { result ≡ offered_from choice base (map E.post ends.now)
        (needs_from (N.need needs.now) 0 (map E.queue ends.now)) }
{
    for (k, end) in ends.iter().enumerate() {
        choice = choice.offer(base + k, end.queue(), end.is_settled(needs.at(k)));
    }
    choice
}

/// Counts each end that isn't settled, the first of them at the place `base`; `needs` tells which
/// are needed, or loaded, by their places among these ends.
#[inline(always)]
pub fn unsettled_each<E: Listed, N: Needs>(
    ends: &[E],
    mut lowest: Lowest,
    base: usize,
    needs: &N,
) -> Lowest
    requires { base + length ends.now < 2 ^ 64 }
    ensures { found result ≡ unsettled_from (found lowest) base (map E.post ends.now)
        (needs_from (N.need needs.now) 0 (map E.queue ends.now)) }
{
    for (k, end) in ends.iter().enumerate() {
        lowest = lowest.unless_settled(base + k, end.queue(), end.is_settled(needs.at(k)));
    }
    lowest
}

/// Whether all ends are settled.
pub fn is_each_settled<E: Listed, N: Needs>(ends: &[E], needs: &N) -> bool
    ensures { result ≡ settled_all (map E.post ends.now)
        (needs_from (N.need needs.now) 0 (map E.queue ends.now)) }
{
    for (k, end) in ends.iter().enumerate() {
        if !end.is_settled(needs.at(k)) {
            return false;
        }
    }
    true
}
