//! The address of a station, read from text. The judge of descriptions and the routing of frames
//! rest on the same reading.

ghost use Rattle.std.specs.Prelude.{◌≡◌, ◌+◌, ◌<◌, ◌≤◌, length, slice_index, IsTrue};
ghost use Rattle.frame_core.specs.Macs.{is_digit, digit_value, has_pair, has_colon, byte_at};
ghost use Rattle.frame_core.specs.Macs.{is_mac_text, mac_bytes, mac_of};

/// The address of a station: six bytes, in the order in which they stand in a frame.
#[derive(Clone, Copy, Debug, PartialEq, Eq)]
pub struct Mac(pub [u8; 6]);

/// Reads an address: six pairs of hexadecimal digits of either case, joined by colons. None exactly
/// where the text isn't of this form, or where the low bit of the first byte is 1, which marks the
/// address of a group.
#[tactic(auto, unfolding(crate::specs::Macs::mac_of))]
pub fn read_mac(text: &str) -> Option<Mac>
    ensures { result ≡ mac_of text.now }
{
    let text = text.as_bytes();
    if is_mac_text(text) && byte_at(text, 0) % 2 == 0 {
        Some(Mac(mac_bytes(text)))
    } else {
        None
    }
}

// Whether the text has the form of an address.
#[tactic(auto, unfolding(crate::specs::Macs::is_mac_text))]
fn is_mac_text(text: &[u8]) -> bool
    ensures value { result ≡ is_mac_text text.now }
    ensures long { IsTrue result → length text.now ≡ 17 }
{
    text.len() == 17
        && has_pair(text, 0)
        && has_colon(text, 2)
        && has_pair(text, 3)
        && has_colon(text, 5)
        && has_pair(text, 6)
        && has_colon(text, 8)
        && has_pair(text, 9)
        && has_colon(text, 11)
        && has_pair(text, 12)
        && has_colon(text, 14)
        && has_pair(text, 15)
}

// The six bytes of a text that has the form of an address.
#[tactic(auto, unfolding(crate::specs::Macs::mac_bytes))]
fn mac_bytes(text: &[u8]) -> [u8; 6]
    requires { length text.now ≡ 17 }
    ensures { result ≡ mac_bytes text.now }
{
    [
        byte_at(text, 0),
        byte_at(text, 3),
        byte_at(text, 6),
        byte_at(text, 9),
        byte_at(text, 12),
        byte_at(text, 15),
    ]
}

// Whether two digits stand at a place.
fn has_pair(text: &[u8], at: usize) -> bool
    requires { at + 1 < length text.now }
    ensures { result ≡ has_pair text.now at }
{
    is_digit(text[at]) && is_digit(text[at + 1])
}

// Whether a colon stands at a place.
fn has_colon(text: &[u8], at: usize) -> bool
    requires { at < length text.now }
    ensures { result ≡ has_colon text.now at }
{
    text[at] == b':'
}

// The byte that the two digits at a place stand for.
fn byte_at(text: &[u8], at: usize) -> u8
    requires { at + 1 < length text.now }
    ensures { result ≡ byte_at text.now at }
{
    16 * digit_value(text[at]) + digit_value(text[at + 1])
}

fn is_digit(c: u8) -> bool
    ensures { result ≡ is_digit c }
{
    c.is_ascii_hexdigit()
}

// The number that a digit stands for, and 0 for any other byte.
fn digit_value(c: u8) -> u8
    ensures value { result ≡ digit_value c }
    ensures small { result ≤ 15 }
{
    match c {
        b'0'..=b'9' => c - b'0',
        b'A'..=b'F' => c - b'A' + 10,
        b'a'..=b'f' => c - b'a' + 10,
        _ => 0,
    }
}
