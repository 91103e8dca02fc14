//! The law that an input is pieces and a rest in one way only: what a client gets is well defined
//! by it.

ghost use Rattle.std.specs.Prelude.{◌≡◌, ℕ, List};
ghost use Rattle.class_expect.specs.SerialSwitch.Switching.{Split, IsSplit, split_of};

/// An input is pieces and a rest in just one way, and `split_of` gives it.
pub fn the_grammar()
    ensures total { (input : List ℕ) → IsSplit input (split_of input) }
    ensures single { (input : List ℕ) (s : Split) → IsSplit input s → s ≡ split_of input }
{}
