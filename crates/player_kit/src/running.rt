//! The runnable actors, in ascending order.
ghost use Rattle.std.specs.Prelude.{◌≡◌, ◌<◌, ◌≤◌, length, remove, slice_get, Some, IfOk, []};
ghost use Rattle.player_kit.specs.Runnings.{with_number, without, with_option, removed_if};

use cargo_core::Memory;
use std::alloc::Global;
use std::marker::Model;

/// Ascending numbers of actors, with room for all.
#[derive(Drop)]
pub struct Running {
    list: Vec<u16>,
}

impl Model for Running {
    ghost use Rattle.player_kit.specs.Runnings.{Ascending, running_of, IsAscending};

    ghost Value = { Ascending };

    ghost view = { running_of };

    ghost invariant = { IsAscending };
}

impl Running {
    /// None, with room for so many.
    pub fn with_room(alloc: Global, room: usize) -> Result<Running, Memory>
        ensures { IfOk result (λ r. (r.list ≡ []) × (room ≤ r.room)) }
    {
        Ok(Running {
            list: Vec::with_capacity(alloc, room)?,
        })
    }

    pub fn len(&self) -> usize
        ensures { result ≡ length self.now.list }
    {
        self.list.len()
    }

    /// The number at a place.
    pub fn at(&self, place: usize) -> u16
        requires { place < length self.now.list }
        ensures { slice_get self.now.list place ≡ Some result }
    {
        self.list[place]
    }

    /// Removes the number at a place.
    #[inline(never)]
    pub fn remove(&mut self, place: usize)
        requires { place < length self.old.list }
        ensures { self.new ≡ record self.old { list = remove self.old.list place } }
    {
        self.list.remove(place);
    }

    /// Takes a number out, where it is there.
    #[inline(never)]
    pub fn take_out(&mut self, number: u16)
        ensures { self.new ≡ record self.old { list = without number self.old.list } }
    {
        if let Ok(place) = self.list.binary_search(&number) {
            self.remove(place);
        }
    }

    /// Adds a number, where it isn't there yet.
    #[inline(never)]
    pub fn add(&mut self, number: u16)
        requires { length (with_number number self.old.list) ≤ self.old.room }
        ensures { self.new ≡ record self.old { list = with_number number self.old.list } }
    {
        if let Err(place) = self.list.binary_search(&number) {
            self.list.insert(place, number).unwrap();
        }
    }

    /// Takes out the number at a place where that actor is idle, and keeps the other actor that a
    /// call reaches, if there is one, where it is runnable.
    #[inline(always)]
    pub fn note(&mut self, place: usize, idle: bool, other: Option<u16>, runs: bool)
        requires there { place < length self.old.list }
        requires room { length (with_option other runs (removed_if idle self.old.list place))
            ≤ self.old.room }
        ensures { self.new ≡ record self.old {
          list = with_option other runs (removed_if idle self.old.list place);
        } }
    {
        if idle {
            self.remove(place);
        }
        match other {
            Some(actor) if runs => self.add(actor),
            Some(actor) => self.take_out(actor),
            None => {}
        }
    }
}
