//! Numbers, in decimal and as attributes.
ghost use Rattle.std.specs.Prelude.{◌≡◌, ◌++◌, OnOk};
ghost use Rattle.std.specs.Fmt.{decimal};
ghost use Rattle.picture_kit.specs.Svg.{number_text};

use cargo_core::{Bytes, Memory};
use std::alloc::Global;

/// Appends a number in decimal.
pub fn push_decimal(alloc: Global, to: &mut Bytes, n: u64) -> Result<(), Memory>
    ensures { OnOk result (to.new ≡ to.old ++ decimal n) }
{
    let text = format!(in alloc; "{n}")?;
    to.extend_from_slice(text.as_bytes())
}

/// Appends an attribute with a number.
pub fn push_number(alloc: Global, to: &mut Bytes, name: &str, n: u64) -> Result<(), Memory>
    ensures { OnOk result (to.new ≡ to.old ++ number_text name.now n) }
{
    to.push(b' ')?;
    to.extend_from_slice(name.as_bytes())?;
    to.extend_from_slice(b"=\"")?;
    push_decimal(alloc, to, n)?;
    to.push(b'"')
}
