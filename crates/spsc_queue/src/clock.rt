//! The clock of those who put entries.
ghost use Rattle.std.specs.Prelude.{ℕ};

use std::marker::Brand;

/// The time at which an entry is put, a number that stands in proofs alone. The caller of `put`
/// picks it; who takes the entry learns it. A caller that needs none names `Brand`.
pub trait Clock {
    ghost time: { ℕ };
}

impl Clock for Brand {
    ghost time = { 0 };
}
