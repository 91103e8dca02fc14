//! Which actor a seed picks for each step.
ghost use Rattle.std.specs.Prelude.{◌≡◌, ◌<◌};
ghost use Rattle.wire_core.specs.Picks.{next_seed, place_of};

/// The number that is drawn after `x`, whose low 64 bits are kept. The two constants are those of
/// the linear congruential generator that Knuth's MMIX uses.
pub fn next_seed(x: u64) -> u64
    ensures { result ≡ next_seed x }
{
    x.wrapping_mul(6364136223846793005)
        .wrapping_add(1442695040888963407)
}

/// The place that a drawn number picks among `count`, counted from 0.
pub fn place_of(x: u64, count: usize) -> usize
    requires { 0 < count }
    ensures place { result ≡ place_of x count }
    ensures within { result < count }
{
    ((x >> 33) % count as u64) as usize
}
