//! Whose requests are at the driver, in the order in which they went there.
ghost use Rattle.std.specs.Prelude.{◌≡◌, ◌≤◌, ◌<◌, [], ◌∷◌, ◌++◌, IfOk, length, slice_get};
ghost use Rattle.std.specs.Option.{option_to_list};

use cargo_core::Memory;
use std::alloc::Global;
use std::collections::VecDeque;
use std::marker::Model;

/// The places of clients, each once, the first of them first.
#[derive(Drop)]
pub struct Line {
    places: VecDeque<usize>,
}

impl Model for Line {
    ghost use Rattle.std.specs.VecDeque.{deque_capacity};
    ghost use Rattle.blk_virt.specs.Lines.{Lined};

    ghost Value = { Lined };

    ghost view = { λ l. record { shown = l.places.items; room = deque_capacity l.places } };
}

impl Line {
    /// Nobody, with the memory for so many.
    pub fn new(alloc: Global, room: usize) -> Result<Line, Memory>
        ensures shown { IfOk result (λ l. l.shown ≡ []) }
        ensures room { IfOk result (λ l. room ≤ l.room) }
    {
        let places = VecDeque::with_capacity(alloc, room)?;
        Ok(Line { places })
    }

    /// Who is first. None where nobody is there.
    pub fn first(&self) -> Option<usize>
        ensures { result ≡ slice_get self.now.shown 0 }
    {
        match self.places.front() {
            Some(place) => Some(*place),
            None => None,
        }
    }

    /// One more comes, behind the others.
    pub fn push(&mut self, place: usize)
        requires { length self.old.shown < self.old.room }
        ensures shown { self.new.shown ≡ self.old.shown ++ place ∷ [] }
        ensures room { self.new.room ≡ self.old.room }
    {
        self.places.push_back_reserved(place);
    }

    /// The first goes. None where nobody is there.
    pub fn pop(&mut self) -> Option<usize>
        ensures shown { self.old.shown ≡ option_to_list result ++ self.new.shown }
        ensures first { result ≡ slice_get self.old.shown 0 }
        ensures room { self.new.room ≡ self.old.room }
    {
        self.places.pop_front()
    }
}
