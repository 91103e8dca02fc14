//! The numbers that a seed draws.
ghost use Rattle.std.specs.Prelude.{◌≡◌, ◌/◌, ◌^◌};
ghost use Rattle.wire_core.specs.Picks.{next_seed};

use wire_core::next_seed;

/// A seed that numbers are drawn from.
#[derive(Drop)]
pub struct Draws {
    pub x: u64,
}

impl Draws {
    // Draws a number: moves x as a pick does, and gives all but its low 33 bits.
    pub fn draw(&mut self) -> u64
        ensures moved { self.new.x ≡ next_seed self.old.x }
        ensures given { result ≡ next_seed self.old.x / 2 ^ 33 }
    {
        self.x = next_seed(self.x);
        self.x >> 33
    }
}
