//! Addresses and sizes as the Microkit manual writes them.
ghost use Rattle.std.specs.Prelude.{◌≡◌, ◌++◌, OnOk, IfOk};
ghost use Rattle.export_text.specs.Numbers.{ends_group, digit_text, grouped, hex_text};

use cargo_core::{Bytes, Memory};
use std::alloc::Global;

// Whether a group of digits ends in front of so many others.
fn ends_group(left: usize) -> bool
    ensures { result ≡ ends_group left }
{
    left > 0 && left % 3 == 0
}

// Appends a digit in front of so many others.
fn push_digit(to: &mut Bytes, digit: u8, left: usize) -> Result<(), Memory>
    ensures { OnOk result (to.new ≡ to.old ++ digit_text left digit) }
{
    to.push(digit)?;
    if ends_group(left) {
        to.push(b'_')?;
    }
    Ok(())
}

// Appends digits with an underscore between groups of three from the right.
fn push_grouped(to: &mut Bytes, digits: &[u8]) -> Result<(), Memory>
    ensures { OnOk result (to.new ≡ to.old ++ grouped digits.now) }
{
    for (at, digit) in digits.iter().enumerate() {
        push_digit(to, *digit, digits.len() - at - 1)?;
    }
    Ok(())
}

/// A number in lower-case hexadecimal, with an underscore between groups of three digits from the
/// right, as `0x2_000_000`.
pub fn write_hex(alloc: Global, number: u64) -> Result<Bytes, Memory>
    ensures { IfOk result (λ text. text ≡ hex_text number) }
{
    let digits = format!(in alloc; "{number:x}")?;
    let mut text = Bytes::from_slice(alloc, b"0x")?;
    push_grouped(&mut text, digits.as_str().as_bytes())?;
    Ok(text)
}
