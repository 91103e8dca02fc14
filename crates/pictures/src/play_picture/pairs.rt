//! Which put and which take belong together: the first put of a queue and its first take, the
//! second and the second, and so on, since queues keep their order.
ghost use Rattle.std.specs.Prelude.{◌≡◌, ◌≤◌, length, count_by};
ghost use Rattle.pictures.specs.PlayPicture.Pairs.{moves, other, place_of_nth, partner_of};

use wire_core::{Entry, Op};

/// Whether an entry is a put or, else, a take: the two ways in which entries of a queue move.
#[derive(Clone, Copy, Debug, PartialEq, Eq)]
pub enum Way {
    Put,
    Take,
}

/// Whether an entry of the journal moves an entry of a queue in this way.
pub fn moves(way: Way, queue: usize, entry: &Entry) -> bool
    ensures { result ≡ moves way queue entry.now }
{
    let same = entry.event.queue.0 as usize == queue;
    match (way, entry.event.op) {
        (Way::Put, Op::Put) => same,
        (Way::Take, Op::Take) => same,
        _ => false,
    }
}

/// How many of these entries move one of a queue in this way.
pub fn count(way: Way, queue: usize, journal: &[Entry]) -> usize
    ensures count { result ≡ count_by (moves way queue) journal.now }
    ensures within { result ≤ length journal.now }
{
    let mut n: usize = 0;
    for entry in journal {
        if moves(way, queue, entry) {
            n += 1;
        }
    }
    n
}

/// The place of the entry that moves one of a queue in this way and before which so many do.
pub fn place_of_nth(way: Way, queue: usize, n: usize, journal: &[Entry]) -> Option<usize>
    ensures { result ≡ place_of_nth (moves way queue) n journal.now }
{
    let mut left = n;
    for (k, entry) in journal.iter().enumerate() {
        if !moves(way, queue, entry) {
            continue;
        }
        if left == 0 {
            return Some(k);
        }
        left -= 1;
    }
    None
}

/// The place of the entry that takes what an entry at a place puts, or puts what it takes, if it
/// stands in this journal.
pub fn partner_of(way: Way, journal: &[Entry], k: usize, entry: &Entry) -> Option<usize>
    requires { k ≤ length journal.now }
    ensures { result ≡ partner_of way journal.now k entry.now }
{
    let queue = entry.event.queue.0 as usize;
    let before = count(way, queue, &journal[..k]);
    place_of_nth(other(way), queue, before, journal)
}

// The way back.
fn other(way: Way) -> Way
    ensures { result ≡ other way }
{
    match way {
        Way::Put => Way::Take,
        Way::Take => Way::Put,
    }
}
