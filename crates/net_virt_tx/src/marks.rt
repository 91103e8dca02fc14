//! A mark for each buffer of a client, by its number.
ghost use Rattle.std.specs.Prelude.{◌≡◌, ◌<◌, false, IfOk, length, replicate, slice_index_or};
ghost use Rattle.std.specs.Prelude.{slice_set};

use cargo_core::Memory;
use std::alloc::Global;
use std::marker::Model;

/// A mark for each buffer.
#[derive(Debug, Drop)]
pub struct Marks {
    marks: Vec<bool>,
}

impl Model for Marks {
    ghost use Rattle.std.specs.Prelude.{Bool, List};

    ghost Value = { List Bool };

    ghost view = { λ m. m.marks.items };
}

impl Marks {
    /// None of so many buffers.
    pub fn new(alloc: Global, buffers: usize) -> Result<Marks, Memory>
        ensures { IfOk result (λ m. m ≡ replicate buffers false) }
    {
        let marks = vec![in alloc; false; buffers]?;
        Ok(Marks { marks })
    }

    /// Whether the buffer of a number has one.
    pub fn has(&self, number: usize) -> bool
        ensures { result ≡ slice_index_or self.now number false }
    {
        match self.marks.get(number) {
            Some(mark) => *mark,
            None => false,
        }
    }

    /// The buffer of a number has one now, or has none.
    pub fn set(&mut self, number: usize, mark: bool)
        requires { number < length self.old }
        ensures { self.new ≡ slice_set self.old number mark }
    {
        self.marks[number] = mark;
    }
}
