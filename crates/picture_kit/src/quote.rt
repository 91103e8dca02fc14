//! The quotes of DOT, in which each text of a graph stands.
ghost use Rattle.std.specs.Prelude.{◌≡◌, ◌++◌, OnOk};
ghost use Rattle.picture_kit.specs.Quotes.{quoted_byte, quoted};

use cargo_core::{Bytes, Memory};

// Appends one byte of a quoted text.
fn push_byte(to: &mut Bytes, byte: u8) -> Result<(), Memory>
    ensures { OnOk result (to.new ≡ to.old ++ quoted_byte byte) }
{
    match byte {
        b'"' => to.extend_from_slice(b"\\\""),
        b'\\' => to.extend_from_slice(b"\\\\"),
        b'\n' => to.extend_from_slice(b"\\n"),
        _ => to.push(byte),
    }
}

/// Appends a text in the quotes of DOT, as Graphviz reads it in a label: a backslash stands before
/// each quote and each backslash, and the end of a line is written `\n`. The only error is want of
/// memory.
pub fn push_quoted(to: &mut Bytes, text: &[u8]) -> Result<(), Memory>
    ensures { OnOk result (to.new ≡ to.old ++ quoted text.now) }
{
    to.push(b'"')?;
    for byte in text {
        push_byte(to, *byte)?;
    }
    to.push(b'"')
}
