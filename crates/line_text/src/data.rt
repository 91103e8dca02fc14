//! DATA of a line: pieces of hexadecimal digits.
ghost use Rattle.std.specs.Prelude.{◌≡◌, ◌≤◌, ◌==◌, ◌∷◌, length, IfOk, None, if◌then◌else◌};
ghost use Rattle.line_text.specs.Texts.{digits_meaning, parts_of};
ghost use Rattle.line_text.specs.Data.{data_of, piece_of, piece_meaning};
ghost use Rattle.line_text.specs.Data.{repeated};
ghost use Rattle.line_text.specs.Reading.{IsData, IsTaken};

use crate::number::read_number;
use crate::text::split_once;
use cargo_core::{Bytes, Memory};
use hex::FromHex;
use std::alloc::Global;

/// The bytes that a word stands for; None where it stands for none, or for more than so many.
pub fn read_data(alloc: Global, word: &[u8], most: usize) -> Result<Option<Bytes>, Memory>
    ensures { IfOk result (IsData (data_of word.now) most) }
{
    let mut data = Bytes::new(alloc);
    let mut rest = word;
    while let Some((piece, after)) = split_once(rest, b',') {
        if !read_piece(alloc, &mut data, piece, most)? {
            return Ok(None);
        }
        rest = after;
    }
    if read_piece(alloc, &mut data, rest, most)? {
        Ok(Some(data))
    } else {
        Ok(None)
    }
}

// Appends the bytes that a piece stands for; false where it stands for none, or where they would be
// more than so many.
fn read_piece(alloc: Global, into: &mut Bytes, piece: &[u8], most: usize) -> Result<bool, Memory>
    requires { length into.old ≤ most }
    ensures { IfOk result (IsTaken (piece_of piece.now) into.old into.new most) }
{
    match split_once(piece, b'*') {
        None => read_digits(alloc, into, piece, most),
        Some((count, digits)) => read_repeated(alloc, into, count, digits, most),
    }
}

// Appends the bytes of a piece that is digits alone.
fn read_digits(alloc: Global, into: &mut Bytes, digits: &[u8], most: usize) -> Result<bool, Memory>
    requires { length into.old ≤ most }
    ensures { IfOk result (IsTaken
        (if length digits.now == 0 then None else digits_meaning digits.now)
        into.old into.new most) }
{
    if digits.is_empty() {
        return Ok(false);
    }
    if digits.len() / 2 > most - into.len() {
        return Ok(false);
    }
    let mut bytes = vec![in alloc; 0u8; digits.len() / 2]?;
    let room = bytes.as_mut_slice();
    match hex::decode_to_slice(digits, room) {
        Ok(()) => {
            into.extend_from_slice(room)?;
            Ok(true)
        }
        Err(_) => Ok(false),
    }
}

// Appends the bytes of a piece that has a `*` after a count.
fn read_repeated(
    alloc: Global,
    into: &mut Bytes,
    count: &[u8],
    digits: &[u8],
    most: usize,
) -> Result<bool, Memory>
    requires { length into.old ≤ most }
    ensures { IfOk result (IsTaken (piece_meaning (count.now ∷ parts_of 42 digits.now))
        into.old into.new most) }
{
    match split_once(digits, b'*') {
        Some(_) => Ok(false),
        None => append_repeated(alloc, into, count, digits, most),
    }
}

// Appends one byte as often as a number says, and takes no memory before the number is known to be
// small enough.
fn append_repeated(
    alloc: Global,
    into: &mut Bytes,
    count: &[u8],
    digits: &[u8],
    most: usize,
) -> Result<bool, Memory>
    requires { length into.old ≤ most }
    ensures { IfOk result (IsTaken (repeated count.now digits.now) into.old into.new most) }
{
    let Some(times) = read_number(count) else {
        return Ok(false);
    };
    if times == 0 || times > (most - into.len()) as u64 {
        return Ok(false);
    }
    let Ok(byte) = <[u8; 1] as FromHex>::from_hex(digits) else {
        return Ok(false);
    };
    let bytes = vec![in alloc; byte[0]; times as usize]?;
    into.extend_from_slice(&bytes)?;
    Ok(true)
}
