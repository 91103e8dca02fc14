//! A list in which something may stand at each place.
ghost use Rattle.std.specs.Prelude.{◌≡◌, ◌≢◌, ◌<◌, ◌≤◌, ℕ, length, Some, None, OnOk, IfSome};
ghost use Rattle.std.specs.Prelude.{IfNone};
ghost use Rattle.seat_wires.specs.Places.{stands_at};

use std::alloc::AllocError;

// Makes room for a place. What stands where stays.
pub(crate) fn reach<T: Drop>(ends: &mut Vec<Option<T>>, place: usize) -> Result<(), AllocError>
    ensures others { (n : ℕ) → stands_at ends.new.items n ≡ stands_at ends.old.items n }
    ensures there { OnOk result (place < length ends.new.items) }
    ensures few { (n : ℕ) → place < n → length ends.old.items ≤ n → length ends.new.items ≤ n }
{
    while ends.len() <= place {
        ends.push(None)?;
    }
    Ok(())
}

// Takes out what stands at the last place at which something stands, and drops the places from
// there on.
#[tactic(auto, using(crate::proofs::Popping::past, crate::proofs::Popping::stood_last, crate::proofs::Popping::others_stay, crate::proofs::Popping::none_behind, crate::proofs::Popping::none_was_there, crate::proofs::Popping::one_fewer))]
pub(crate) fn last_end<T>(ends: &mut Vec<Option<T>>) -> Option<(usize, T)>
    ensures some { IfSome result (λ r. (stands_at ends.old.items r.0 ≡ Some r.1)
        × (r.0 < length ends.old.items)) }
    ensures taken { IfSome result (λ r. (stands_at ends.new.items r.0 ≡ None)
        × ((n : ℕ) → n ≢ r.0 → stands_at ends.new.items n ≡ stands_at ends.old.items n)) }
    ensures last { IfSome result (λ r. (n : ℕ) → r.0 < n → stands_at ends.old.items n ≡ None) }
    ensures none { IfNone result ((n : ℕ) → stands_at ends.old.items n ≡ None) }
    ensures left { IfNone result ((n : ℕ) → stands_at ends.new.items n ≡ None) }
    ensures few { length ends.new.items ≤ length ends.old.items }
{
    while let Some(last) = ends.pop() {
        if let Some(end) = last {
            return Some((ends.len(), end));
        }
    }
    None
}
