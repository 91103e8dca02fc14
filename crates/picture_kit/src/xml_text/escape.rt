//! The escapes of texts in XML, this program's one place for them.
ghost use Rattle.std.specs.Prelude.{◌≡◌, ◌++◌, None, Some, OnOk, MatchOption};
ghost use Rattle.picture_kit.specs.XmlText.Spelling.{entity_of, escaped_byte, escaped};

use cargo_core::{Bytes, Memory};

// The name of the entity that stands for a byte, where it may not stand for itself.
fn entity_of(byte: u8) -> Option<&'static str>
    ensures { MatchOption result (entity_of byte ≡ None) (λ name. entity_of byte ≡ Some name.now) }
{
    match byte {
        b'&' => Some("amp"),
        b'<' => Some("lt"),
        b'>' => Some("gt"),
        b'"' => Some("quot"),
        b'\'' => Some("apos"),
        b'\t' => Some("#9"),
        b'\n' => Some("#10"),
        b'\r' => Some("#13"),
        _ => None,
    }
}

// Appends one byte, escaped.
fn push_byte(to: &mut Bytes, byte: u8) -> Result<(), Memory>
    ensures { OnOk result (to.new ≡ to.old ++ escaped_byte byte) }
{
    match entity_of(byte) {
        Some(name) => {
            to.push(b'&')?;
            to.extend_from_slice(name.as_bytes())?;
            to.push(b';')
        }
        None => to.push(byte),
    }
}

/// Appends a text with the five characters of markup escaped by their names, and tabs and ends of
/// lines by their numbers, since a reader of XML would make spaces of them in an attribute. All
/// other bytes stay. The escapes are those of the XML recommendation; the only error is want of
/// memory.
pub fn push_escaped(to: &mut Bytes, text: &[u8]) -> Result<(), Memory>
    ensures { OnOk result (to.new ≡ to.old ++ escaped text.now) }
{
    for byte in text {
        push_byte(to, *byte)?;
    }
    Ok(())
}
