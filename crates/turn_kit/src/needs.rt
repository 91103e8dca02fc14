//! Which ends of a list are needed, or loaded: each by its place, since a virtualiser owes several
//! clients at once and needs some inputs only.

ghost use Rattle.std.specs.Prelude.{◌≡◌, ℕ, Bool, false, slice_index_or};
ghost use Rattle.turn_kit.specs.ManyEnds.{is_here};

/// Tells of each end of a list whether it is needed, or loaded.
pub trait Needs {
    ghost need: { Self → ℕ → Bool };

    /// Whether the end at this place is.
    fn at(&self, place: usize) -> bool
        ensures { result ≡ need self.now place };
}

/// All ends are, or none is.
impl Needs for bool {
    ghost need = { λ all place. all };

    fn at(&self, _place: usize) -> bool {
        *self
    }
}

/// The end at one place is, or none is.
impl Needs for Option<usize> {
    ghost need = { is_here };

    fn at(&self, place: usize) -> bool {
        match self {
            Some(here) => *here == place,
            None => false,
        }
    }
}

/// Each end is as the list tells, and one past its end isn't.
impl Needs for &[bool] {
    ghost need = { λ list place. slice_index_or list.now place false };

    fn at(&self, place: usize) -> bool {
        match self.get(place) {
            Some(need) => *need,
            None => false,
        }
    }
}
