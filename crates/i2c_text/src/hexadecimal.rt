//! The bytes of a line: hexadecimal digits.
ghost use Rattle.std.specs.Prelude.{◌≡◌, IfOk};
ghost use Rattle.i2c_text.specs.Texts.{bytes_of};

use cargo_core::{Bytes, Memory};
use std::alloc::Global;

/// The most bytes of one request.
pub const BYTES: u8 = 32;

/// The same, as a length.
const MOST: usize = 32;

// The bytes that a word spells, where there are 1 to 32.
pub fn read_bytes(alloc: Global, word: &[u8]) -> Result<Option<Bytes>, Memory>
    ensures { IfOk result (λ bytes. bytes ≡ bytes_of word.now) }
{
    if word.is_empty() {
        return Ok(None);
    }
    let count = word.len() / 2;
    if count > MOST {
        return Ok(None);
    }
    let mut bytes = vec![in alloc; 0u8; count]?;
    let room = bytes.as_mut_slice();
    match hex::decode_to_slice(word, room) {
        Ok(()) => {
            let read = Bytes::from_slice(alloc, room)?;
            Ok(Some(read))
        }
        Err(_) => Ok(None),
    }
}
