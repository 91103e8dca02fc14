//! Questions on single numbers and texts: page sizes, multiples, ends of ranges, permissions.
ghost use Rattle.std.specs.Prelude.{◌≡◌, ◌↔◌, ◌+◌, ◌<◌, ◌≤◌, IsTrue};
ghost use Rattle.sdf_check.specs.Rules.{IsPageSize, IsMultiple, ArePermissions, count_of};

/// Whether the Microkit has pages of this size.
pub fn is_page_size(size: u64) -> bool
    ensures { IsTrue result ↔ IsPageSize size }
{
    size == 4096 || size == 2_097_152
}

/// Whether a number is so many times another.
pub fn is_multiple(number: u64, of: u64) -> bool
    ensures { IsTrue result ↔ IsMultiple number of }
{
    if of == 0 {
        number == 0
    } else {
        number % of == 0
    }
}

/// Whether a range ends above a limit.
pub fn ends_above(base: u64, size: u64, limit: u64) -> bool
    ensures { IsTrue result ↔ (limit < base + size) }
{
    base as u128 + size as u128 > limit as u128
}

/// Whether a text is made of `r`, `w` and `x`, each at most once, and is neither empty nor `w`
/// alone.
pub fn are_permissions(perms: &str) -> bool
    ensures { IsTrue result ↔ ArePermissions perms.now }
{
    let letters = perms.as_bytes();
    let reads = count_of(b'r', letters);
    let writes = count_of(b'w', letters);
    let runs = count_of(b'x', letters);
    are_once(reads, writes, runs, letters.len())
}

// Whether there is at most one of each letter and nothing else, and `r` or `x` among them.
fn are_once(reads: usize, writes: usize, runs: usize, len: usize) -> bool
    ensures { IsTrue result ↔ ((reads ≤ 1) × (writes ≤ 1) × (runs ≤ 1)
        × (reads + writes + runs ≡ len) × (0 < reads + runs)) }
{
    reads <= 1 && writes <= 1 && runs <= 1 && reads + writes + runs == len && reads + runs > 0
}

/// How often a letter stands in a text.
pub fn count_of(letter: u8, text: &[u8]) -> usize
    ensures { result ≡ count_of letter text.now }
{
    text.iter().filter(|byte| **byte == letter).count()
}
