//! The words and slots of a ring, and the rule that they meet between any two steps.
ghost use Rattle.std.specs.Prelude.{◌≡◌, ◌<◌};
ghost use Rattle.spsc_queue.specs.Rule.{place_of_word, stored_value};

use crate::view::View;
use atomic_table::{Seat, Table, TableRule};
use cargo_core::{Body, Item, QueueKind, Word};
use std::alloc::Global;

// The words that the consumer looks at most stand together, and so do the producer's, with fifteen
// between them and behind, so that no line of a cache of up to 128 bytes has words of both.

// How many entries were taken, by 16 bits.
pub(crate) const HEAD: usize = 0;

// 1 where a notification for the consumer stands there untaken.
pub(crate) const PENDING: usize = 1;

// The bell of room, on which the producer waits: 0 where it wants a notification.
pub(crate) const FLAG_BACK: usize = 2;

// How many entries were sent, by 16 bits.
pub(crate) const TAIL: usize = 18;

// The bell of entries: 0 where the consumer wants a notification.
pub(crate) const FLAG: usize = 19;

// 1 where a notification for the producer stands there untaken.
pub(crate) const PENDING_BACK: usize = 20;

// The guards of a wild ring, one for each of its places, stand behind the others: 1 where an entry
// was sent and isn't taken.
pub(crate) const GUARDS: usize = 36;

// The words of a new ring: the consumer wants a notification, the producer none.
pub(crate) const START: [u64; 36] = [
    0, 0, 1, 0, 0, 0, 0, 0, 0, 0, 0, 0, 0, 0, 0, 0, 0, 0, 0, 0, 0, 0, 0, 0, 0, 0, 0, 0, 0, 0, 0, 0,
    0, 0, 0, 0,
];

/// An empty place, or an entry.
pub type Slot = Option<(Item, Body)>;

/// What a ring is made for: what it carries, and whether it is wild.
#[derive(Drop)]
pub struct Terms {
    pub kind: QueueKind,
    pub wild: bool,
}

/// The ring rule.
pub struct RingRule;

impl TableRule<Slot, View, Terms> for RingRule {
    ghost use Rattle.spsc_queue.specs.Rule.{TermsHold, first_view};

    ghost holds = { TermsHold };

    ghost first = { first_view };
}

pub(crate) type Board = Table<Slot, View, Terms, RingRule, Global>;

pub(crate) type Place = Seat<Slot, View>;

// Where a word lies.
pub(crate) fn place_of(word: Word) -> usize
    ensures place { result ≡ place_of_word word }
    ensures low { result < 36 }
{
    match word {
        Word::Head => HEAD,
        Word::Tail => TAIL,
        Word::Flag => FLAG,
        Word::FlagBack => FLAG_BACK,
        Word::Pending => PENDING,
        Word::PendingBack => PENDING_BACK,
    }
}

// What it keeps of a value that is stored there.
pub(crate) fn kept_of(word: Word, value: u64) -> u64
    ensures { result ≡ stored_value word value }
{
    match word {
        Word::Head | Word::Tail => value % 65536,
        Word::Flag | Word::FlagBack | Word::Pending | Word::PendingBack => value % 2,
    }
}
