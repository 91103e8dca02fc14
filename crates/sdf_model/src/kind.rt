//! Whether the value of a key is of its kind, in its set and its form.
ghost use Rattle.std.specs.Prelude.{◌≡◌};
ghost use Rattle.std.specs.List.{list_any, list_all};
ghost use Rattle.std.specs.Str.{bytes_eq};
ghost use Rattle.toml.specs.View.{view, items_view};
ghost use Rattle.toml.specs.Text.{are_tables};
ghost use Rattle.sdf_model.specs.Keys.{is_kind, is_name, is_name_byte, is_pair};

use crate::key::Kind;
use toml::Value;

/// The programs that a domain may run.
const PROGRAMS: [&str; 19] = [
    "eth_driver",
    "net_virt_rx",
    "net_virt_tx",
    "net_copier",
    "net_sink",
    "net_source",
    "net_echo",
    "net_rogue",
    "uart_driver",
    "serial_virt_rx",
    "serial_virt_tx",
    "serial_reader",
    "serial_speaker",
    "serial_rogue",
    "blk_driver",
    "blk_virt",
    "blk_script",
    "blk_rogue",
    "idle",
];

/// Whether a value is of a kind, in its set and its form.
pub(crate) fn is_kind(value: &Value, kind: Kind) -> bool
    ensures { result ≡ is_kind kind (view value.now) }
{
    match kind {
        Kind::Version => value.as_integer().is_some_and(|n| n == 1 || n == 2),
        Kind::Number => value.as_integer().is_some_and(|n| n >= 0),
        Kind::Name => value.as_str().is_some_and(is_name),
        Kind::Text => value.is_str(),
        Kind::Program => value.as_str().is_some_and(|s| is_among(&PROGRAMS, s)),
        Kind::Trigger => value
            .as_str()
            .is_some_and(|s| is_among(&["edge", "level"], s)),
        Kind::Policy => value
            .as_str()
            .is_some_and(|s| is_among(&["hold", "drop"], s)),
        Kind::Truth => value.is_bool(),
        Kind::List => value.as_array().is_some_and(|items| are_tables(items)),
        Kind::Pair => value.as_array().is_some_and(|items| is_pair(items)),
        Kind::Table => value.is_table(),
    }
}

/// Whether a list holds tables alone.
fn are_tables(items: &[Value]) -> bool
    ensures { result ≡ are_tables (items_view items.now) }
{
    for item in items {
        if !item.is_table() {
            return false;
        }
    }
    true
}

/// Whether a list holds two tables.
fn is_pair(items: &[Value]) -> bool
    ensures { result ≡ is_pair (items_view items.now) }
{
    are_tables(items) && items.len() == 2
}

/// Whether a text is one of these.
fn is_among(texts: &[&str], text: &str) -> bool
    ensures { result ≡ list_any (λ one. bytes_eq one.now text.now) texts.now }
{
    texts.iter().any(|one| *one == text)
}

/// Whether a text is a name: 1 to 64 letters, digits, `_`, `-` or `.` in ASCII.
fn is_name(text: &str) -> bool
    ensures { result ≡ is_name text.now }
{
    !text.is_empty() && text.len() <= 64 && has_name_bytes(text)
}

fn has_name_bytes(text: &str) -> bool
    ensures { result ≡ list_all is_name_byte text.now }
{
    text.as_bytes().iter().all(|b| is_name_byte(*b))
}

fn is_name_byte(b: u8) -> bool
    ensures { result ≡ is_name_byte b }
{
    let letter = (b'a' <= b && b <= b'z') || (b'A' <= b && b <= b'Z');
    let digit = b'0' <= b && b <= b'9';
    letter || digit || b == b'_' || b == b'-' || b == b'.'
}
