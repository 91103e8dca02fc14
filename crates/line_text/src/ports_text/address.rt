//! The address that a word spells.
ghost use Rattle.std.specs.Prelude.{◌≡◌};
ghost use Rattle.frame_core.specs.Macs.{mac_of};

use frame_core::{Mac, read_mac};
use std::str;

// The address of a station that a word spells; None where it spells none, or that of a group.
pub fn read_address(word: &[u8]) -> Option<Mac>
    ensures { result ≡ mac_of word.now }
{
    match str::from_utf8(word) {
        Ok(text) => read_mac(text),
        Err(_) => None,
    }
}
