//! The definitions of single constants.
ghost use Rattle.std.specs.Prelude.{◌≡◌, ◌++◌, IfOk, OnOk};
ghost use Rattle.std.specs.Fmt.{decimal};
ghost use Rattle.export_text.specs.ConfigText.Code.{code};
ghost use Rattle.export_text.specs.ConfigText.Lines.{constant_of, definition, hex_value};
ghost use Rattle.export_text.specs.ConfigText.Config.{decimal_of, hex_of, class_number, part};

use crate::config_text::code::push_code;
use cargo_core::{Bytes, Memory};
use std::alloc::Global;

/// The constants of one thing, by what it is and its name.
#[derive(Clone, Copy)]
pub struct Thing<'a> {
    pub kind: &'a str,
    pub name: &'a str,
}

// Appends the name of a constant.
fn push_name(to: &mut Bytes, thing: &Thing<'_>, rest: &[u8]) -> Result<(), Memory>
    ensures { OnOk result (to.new
        ≡ to.old ++ constant_of thing.now.kind.now thing.now.name.now rest.now) }
{
    to.extend_from_slice(thing.kind.as_bytes())?;
    push_code(to, thing.name.as_bytes())?;
    to.extend_from_slice(rest)
}

// Appends the definition of a constant of a thing.
fn push_definition(
    to: &mut Bytes,
    thing: &Thing<'_>,
    rest: &[u8],
    value: &str,
) -> Result<(), Memory>
    ensures { OnOk result (to.new ≡ to.old
        ++ definition (constant_of thing.now.kind.now thing.now.name.now rest.now) value.now) }
{
    to.extend_from_slice(b"#define ")?;
    push_name(to, thing, rest)?;
    to.push(b' ')?;
    to.extend_from_slice(value.as_bytes())?;
    to.push(b'\n')
}

/// Appends a constant of a thing whose value is decimal.
#[tactic(auto, unfolding(crate::specs::ConfigText::Config::decimal_of))]
pub fn push_decimal(
    alloc: Global,
    to: &mut Bytes,
    thing: &Thing<'_>,
    rest: &[u8],
    value: u64,
) -> Result<(), Memory>
    ensures { OnOk result (to.new ≡ to.old
        ++ decimal_of thing.now.kind.now thing.now.name.now rest.now value) }
{
    let digits = format!(in alloc; "{value}")?;
    push_definition(to, thing, rest, digits.as_str())
}

/// Appends a constant of a thing whose value is an address or a size.
#[tactic(auto, unfolding(crate::specs::ConfigText::Config::hex_of))]
pub fn push_hex(
    alloc: Global,
    to: &mut Bytes,
    thing: &Thing<'_>,
    rest: &[u8],
    value: u64,
) -> Result<(), Memory>
    ensures { OnOk result (to.new ≡ to.old
        ++ hex_of thing.now.kind.now thing.now.name.now rest.now value) }
{
    let digits = format!(in alloc; "0x{value:x}")?;
    push_definition(to, thing, rest, digits.as_str())
}

/// Appends a constant of a class.
#[tactic(auto, unfolding(crate::specs::ConfigText::Config::class_number))]
pub fn push_class(alloc: Global, to: &mut Bytes, constant: &str, value: u64) -> Result<(), Memory>
    ensures { OnOk result (to.new ≡ to.old ++ class_number constant.now value) }
{
    let digits = format!(in alloc; "{value}")?;
    to.extend_from_slice(b"#define ")?;
    to.extend_from_slice(constant.as_bytes())?;
    to.push(b' ')?;
    to.extend_from_slice(digits.as_str().as_bytes())?;
    to.push(b'\n')
}

/// What the name of a constant of a part of a domain ends with: the sort of the part, its number,
/// and the name of what it leads to.
pub fn part(alloc: Global, sort: &str, number: usize, name: &str) -> Result<Bytes, Memory>
    ensures { IfOk result (λ rest. rest ≡ part sort.now number name.now) }
{
    let digits = format!(in alloc; "{number}")?;
    let mut rest = Bytes::from_slice(alloc, sort.as_bytes())?;
    rest.extend_from_slice(digits.as_str().as_bytes())?;
    rest.push(b'_')?;
    push_code(&mut rest, name.as_bytes())?;
    Ok(rest)
}
