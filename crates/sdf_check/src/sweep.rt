//! The first of some ranges that meets an earlier one, found in one sweep.
ghost use Rattle.std.specs.Prelude.{◌≡◌, ◌+◌, ◌<◌, ◌≤◌, ℕ, Bool, List, Some, None, Option};
ghost use Rattle.std.specs.Prelude.{MatchOption, MatchBool, IfOk, OnErr, slice_get, length};
ghost use Rattle.std.specs.Ordering.{nat_cmp};
ghost use Rattle.std.specs.BTreeMap.{get};
ghost use Rattle.sdf_check.specs.Rules.{Range, MeetsEarlier};
ghost use Rattle.sdf_check.specs.Sweeps.{Holds};

use cargo_core::Memory;
use std::alloc::Global;
use std::collections::BTreeMap;

/// A range of addresses, from the first up to the second, wide enough that no sum wraps.
pub type Span = (u128, u128);

// Disjoint ranges, from their bases to their ends.
type Kept = BTreeMap<u128, u128>;

// Of the ranges that begin before an address, the one that begins last.
fn last_before(kept: &Kept, end: u128) -> Option<Span>
    ensures { MatchOption result
        ((base last : ℕ) → get nat_cmp kept.now base ≡ Some last → end ≤ base)
        (λ span. (get nat_cmp kept.now span.0 ≡ Some span.1) × (span.0 < end)
        × ((base last : ℕ) → get nat_cmp kept.now base ≡ Some last → base < end → base ≤ span.0)) }
{
    match kept.range(..end).next_back() {
        Some((base, last)) => Some((*base, *last)),
        None => None,
    }
}

// Keeps the range at the next place, unless it meets one that is kept.
fn keep(kept: &mut Kept, range: Option<Span>) -> Result<bool, Memory>
    ensures { IfOk result (λ free. (ranges : List (Option Range)) → (at : ℕ)
        → Holds (get nat_cmp kept.old) ranges at → slice_get ranges at ≡ Some range
        → MatchBool free (Holds (get nat_cmp kept.new) ranges (at + 1) × ¬ MeetsEarlier ranges at)
        (MeetsEarlier ranges at)) }
{
    let Some((base, end)) = range else {
        return Ok(true);
    };
    if end <= base {
        return Ok(true);
    }
    if meets_last(kept, base, end) {
        return Ok(false);
    }
    kept.insert(base, end)?;
    Ok(true)
}

// Whether the last range that begins before the end of this one ends above its base.
fn meets_last(kept: &Kept, base: u128, end: u128) -> bool
    ensures { MatchBool result
        ((start : ℕ) × (last : ℕ) × (get nat_cmp kept.now start ≡ Some last) × (start < end)
        × (base < last))
        ((start last : ℕ) → get nat_cmp kept.now start ≡ Some last → start < end
        → (top : ℕ) × (limit : ℕ) × (get nat_cmp kept.now top ≡ Some limit) × (start ≤ top)
        × (limit ≤ base)) }
{
    match last_before(kept, end) {
        Some((_, last)) => last > base,
        None => false,
    }
}

/// The first range that meets an earlier one.
pub fn first_meeting(alloc: Global, ranges: &[Option<Span>]) -> Result<Option<usize>, Memory>
    ensures { IfOk result (λ first. MatchOption first
        ((k : ℕ) → ¬ MeetsEarlier ranges.now k)
        (λ at. MeetsEarlier ranges.now at × ((k : ℕ) → k < at → ¬ MeetsEarlier ranges.now k))) }
{
    let mut kept = BTreeMap::new(alloc);
    for (at, range) in ranges.iter().enumerate() {
        if !keep(&mut kept, *range)? {
            return Ok(Some(at));
        }
    }
    Ok(None)
}
