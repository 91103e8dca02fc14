//! How a name of a description stands in the name of a constant.
ghost use Rattle.std.specs.Prelude.{◌≡◌, ◌++◌, OnOk};
ghost use Rattle.export_text.specs.ConfigText.Code.{stays, mark_of, code_byte, code};

use cargo_core::{Bytes, Memory};

// Whether a byte is a letter or a digit.
fn stays(byte: u8) -> bool
    ensures { result ≡ stays byte }
{
    byte.is_ascii_lowercase() || byte.is_ascii_uppercase() || byte.is_ascii_digit()
}

// The code of another byte.
fn mark_of(byte: u8) -> u8
    ensures { result ≡ mark_of byte }
{
    match byte {
        b'_' => b'u',
        b'-' => b'h',
        b'.' => b'd',
        b'@' => b'a',
        other => other,
    }
}

// Appends a byte of a name.
fn push_byte(to: &mut Bytes, byte: u8) -> Result<(), Memory>
    ensures { OnOk result (to.new ≡ to.old ++ code_byte byte) }
{
    if stays(byte) {
        return to.push(byte);
    }
    to.push(b'_')?;
    to.push(mark_of(byte))
}

/// Appends a name as it stands in the name of a constant: letters and digits stay, and `_`, `-`,
/// `.` and `@` become `_u`, `_h`, `_d` and `_a`. The code is this project's own; the only error is
/// want of memory.
pub fn push_code(to: &mut Bytes, name: &[u8]) -> Result<(), Memory>
    ensures { OnOk result (to.new ≡ to.old ++ code name.now) }
{
    for byte in name {
        push_byte(to, *byte)?;
    }
    Ok(())
}
