//! The words that are a number: decimal text without a sign or leading zeros.

ghost use Rattle.std.specs.Prelude.{◌≡◌, ◌≢◌, ◌↔◌, ◌<◌, ◌^◌, ℕ, length, slice_index, IsTrue};
ghost use Rattle.std.specs.Prelude.{IfSome, IfNone, decimal};

// The number below 2^64 that a word spells in decimal, without leading zeros.
pub fn read_number(word: &str) -> Option<u64>
    ensures some { IfSome result (λ n. (word.now ≡ decimal n) × (n < 2 ^ 64)) }
    ensures none { IfNone result ((n : ℕ) → n < 2 ^ 64 → word.now ≢ decimal n) }
{
    if !is_plain(word.as_bytes()) {
        return None;
    }
    word.parse::<u64>().ok()
}

// Whether a word has no sign in front, and no leading zero but in `0`.
fn is_plain(word: &[u8]) -> bool
    ensures { IsTrue result ↔ ((slice_index word.now 0 ≢ 43)
        × (slice_index word.now 0 ≡ 48 → length word.now ≡ 1)) }
{
    word.is_empty() || (word[0] != b'+' && (word[0] != b'0' || word.len() == 1))
}
