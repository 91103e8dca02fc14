//! What a hostile client does with its ends of queues.

/// A word of a queue, which a hostile end may store: the two indices, and of each of its two bells
/// the flag and the pending word. `Flag` and `Pending` are those of the forward bell, at which the
/// consumer waits.
#[derive(Clone, Copy, Debug, PartialEq, Eq)]
pub enum Word {
    Head,
    Tail,
    Flag,
    FlagBack,
    Pending,
    PendingBack,
}

/// An act of a hostile client. The first number names the queue, by its place among the client's
/// inputs and then its outputs.
#[derive(Clone, Copy, Debug, PartialEq, Eq)]
pub enum Act {
    /// Looks for an entry, takes it where there is one, and keeps it.
    Take(u8),
    /// Looks for room, and puts an item of this address and length without a body where there is
    /// some.
    Put(u8, u64, u64),
    /// The same with what it keeps at this place as the body; where it keeps nothing there it makes
    /// no call.
    Give(u8, u32, u64, u64),
    /// Stores this value in this word.
    Store(u8, Word, u64),
}
