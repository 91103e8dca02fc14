//! Numbers of a line: decimal digits without leading zeros.
ghost use Rattle.std.specs.Prelude.{◌≡◌, IfSome, IfNone, Some, nat_le, ◌+◌, ◌-◌, ◌*◌, ◌<◌, ◌^◌};
ghost use Rattle.std.specs.Prelude.{◌&&◌};
ghost use Rattle.std.specs.Option.{SomeIff};
ghost use Rattle.std.specs.List.{list_all};
ghost use Rattle.line_text.specs.Texts.{is_number, number_of, number_from};
ghost use Rattle.line_text.specs.Reading.{IsNoneOrFrom, IsNoneOrHuge};

/// The number that a word spells, where it is one of these.
pub fn read_between(word: &[u8], least: u8, most: u8) -> Option<u8>
    ensures { result ≡ number_from least most word.now }
{
    let number = read_number(word)?;
    if number < u64::from(least) || number > u64::from(most) {
        return None;
    }
    Some(number as u8)
}

/// The number that a word spells, where it is below a limit.
pub fn read_below(word: &[u8], limit: u64) -> Option<u64>
    ensures some { IfSome result (λ n. (number_of word.now ≡ Some n) × (n < limit)) }
    ensures none { IfNone result (IsNoneOrFrom limit (number_of word.now)) }
{
    match read_number(word) {
        Some(number) if number < limit => Some(number),
        _ => None,
    }
}

/// The number that a word spells, where it is below 2 ^ 64.
#[tactic(auto, using(crate::proofs::Numbers::no_number, crate::proofs::Numbers::number_of_some))]
pub fn read_number(word: &[u8]) -> Option<u64>
    ensures some { IfSome result (λ n. number_of word.now ≡ Some n) }
    ensures none { IfNone result (IsNoneOrHuge (number_of word.now)) }
{
    if !is_number(word) {
        return None;
    }
    let mut value: u64 = 0;
    for c in word {
        match with_digit(value, *c) {
            Some(more) => value = more,
            None => return None,
        }
    }
    Some(value)
}

// A number with one more digit; None where it isn't below 2 ^ 64.
fn with_digit(value: u64, digit: u8) -> Option<u64>
    ensures { SomeIff result (10 * value + (digit - 48) < 2 ^ 64) (10 * value + (digit - 48)) }
{
    value
        .checked_mul(10)?
        .checked_add(u64::from(digit.saturating_sub(b'0')))
}

// Whether a word is a number.
fn is_number(word: &[u8]) -> bool
    ensures { result ≡ is_number word.now }
{
    if word.is_empty() || !all_digits(word) {
        return false;
    }
    word.len() == 1 || word[0] != b'0'
}

fn all_digits(word: &[u8]) -> bool
    ensures { result ≡ list_all (λ c. nat_le 48 c && nat_le c 57) word.now }
{
    word.iter().all(|c| 48 <= *c && *c <= 57)
}
