//! Which of an actor's ends is stepped.

ghost use Rattle.std.specs.Prelude.{◌≡◌, ◌<◌, None, not};
ghost use Rattle.turn_kit.specs.Lowests.{found};
ghost use Rattle.turn_kit.specs.Turns.{choosing, lower, lower_if, choice_with, chosen_place};
ghost use Rattle.turn_kit.specs.Turns.{last_after};

use std::marker::Model;
use wire_core::QueueId;

/// An end that may be chosen: the number of its queue, and its place among the actor's ends.
#[derive(Clone, Copy, Debug, PartialEq, Eq)]
pub struct Stand {
    pub queue: u16,
    pub place: usize,
}

/// The order in which an actor steps its ends: the one that isn't settled and has the lowest queue
/// number; where all are settled, the next in rising queue number after the one that was last
/// stepped so, which is kept here.
#[derive(Clone, Copy, Debug, PartialEq, Eq)]
pub struct Turn {
    pub last: u16,
}

/// The lowest end that was found of a sort: the number of its queue, 65,536 where none was found
/// yet, and its place. Its fields fill it, so that it is moved as numbers.
#[derive(Clone, Copy, Debug)]
pub struct Lowest {
    pub queue: u64,
    pub place: usize,
}

/// What was found of the ends that were offered so far.
#[derive(Debug, Drop)]
pub struct Choice {
    count: usize,
    last: u64,
    unsettled: Lowest,
    after: Lowest,
    first: Lowest,
}

impl Model for Choice {
    ghost use Rattle.turn_kit.specs.Choices.{choosing_of, IsChoice};
    ghost use Rattle.turn_kit.specs.Turns.{Choosing};

    ghost Value = { Choosing };

    ghost view = { choosing_of };

    ghost invariant = { IsChoice };
}

impl Lowest {
    /// None was found yet.
    #[inline(always)]
    pub fn none() -> Lowest
        ensures { found result ≡ None }
    {
        Lowest {
            queue: 65536,
            place: 0,
        }
    }

    /// The end, if any was found.
    #[inline(always)]
    pub fn stand(&self) -> Option<Stand>
        ensures { result ≡ found self.now }
    {
        if self.queue < 65536 {
            Some(Stand {
                queue: self.queue as u16,
                place: self.place,
            })
        } else {
            None
        }
    }

    // The lower of the two, where the second is an end.
    #[inline(always)]
    fn lower(self, new: Lowest) -> Lowest
        requires { new.queue < 65536 }
        ensures { found result ≡ lower (found self)
            (record { queue = new.queue; place = new.place }) }
    {
        if new.queue < self.queue { new } else { self }
    }

    /// Counts the end at a place, unless it is settled.
    #[inline(always)]
    pub fn unless_settled(self, place: usize, queue: QueueId, settled: bool) -> Lowest
        ensures { found result ≡ lower_if (not settled) (found self)
            (record { queue = queue.0; place = place }) }
    {
        if settled {
            return self;
        }
        self.lower(Lowest {
            queue: u64::from(queue.0),
            place,
        })
    }
}

impl Choice {
    /// Offers the end at a place; `settled` tells whether it is settled.
    #[inline(always)]
    pub fn offer(mut self, place: usize, queue: QueueId, settled: bool) -> Choice
        requires { place < self.count }
        ensures { result ≡ choice_with self (record { queue = queue.0; place = place }) settled }
    {
        let end = Lowest {
            queue: u64::from(queue.0),
            place,
        };
        if !settled {
            self.unsettled = self.unsettled.lower(end);
        }
        if self.last < end.queue {
            self.after = self.after.lower(end);
        }
        self.first = self.first.lower(end);
        self
    }
}

impl Turn {
    /// The order at the start, in which the end with the lowest queue number comes first.
    pub fn new() -> Turn
        ensures { result.last ≡ 65535 }
    {
        Turn { last: u16::MAX }
    }

    /// Begins a choice among so many ends.
    pub fn begin(&self, count: usize) -> Choice
        ensures { result ≡ choosing count self.now.last }
    {
        Choice {
            count,
            last: u64::from(self.last),
            unsettled: Lowest::none(),
            after: Lowest::none(),
            first: Lowest::none(),
        }
    }

    /// The place of the end that is stepped now.
    #[inline(always)]
    pub fn pass(&mut self, choice: Choice) -> usize
        requires { 0 < choice.count }
        ensures place { result ≡ chosen_place choice }
        ensures within { result < choice.count }
        ensures last { self.new.last ≡ last_after choice }
    {
        self.last = choice.last as u16;
        if let Some(end) = choice.unsettled.stand() {
            return end.place;
        }
        let Some(end) = choice.after.stand().or(choice.first.stand()) else {
            return 0;
        };
        self.last = end.queue;
        end.place
    }
}
