//! What holds of the picks of a seed: they leave nobody out. No part of a
//! system asks for it.

ghost use Rattle.std.specs.Prelude.{◌≡◌, ◌<◌, ◌≤◌, ◌^◌, ℕ};
ghost use Rattle.wire_core.specs.Picks.{next_seed, place_of};

/// Each number of 64 bits is drawn after some seed, since the multiplier is odd. So among at most
/// 2^31 actors each place is picked by some seed: by plays of one step each, any schedule is
/// reached.
pub fn pick_law()
    ensures drawn { (x : ℕ) → x < 2 ^ 64 → (seed : ℕ) × (seed < 2 ^ 64) × (next_seed seed ≡ x) }
    ensures reached { (place count : ℕ) → place < count → count ≤ 2 ^ 31
        → (seed : ℕ) × (seed < 2 ^ 64) × (place_of (next_seed seed) count ≡ place) }
{}
