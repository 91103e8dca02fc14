//! A client's part of an input, by a plain and slow program: tests compare the switch with it.

ghost use Rattle.std.specs.Prelude.{◌≡◌, ◌<◌, ◌≤◌, IfOk, OnOk, if◌then◌else◌, [], ◌++◌, ◌+◌};
ghost use Rattle.std.specs.Prelude.{option_to_list, MatchOption, length, take, drop, Some, false};
ghost use Rattle.std.specs.Prelude.{slice_get};
ghost use Rattle.std.specs.Char.{is_ascii_digit};
ghost use Rattle.class_expect.specs.SerialSwitch.Switching.{AreDigits, IsRest, number_of, number_in, byte_in};
ghost use Rattle.class_expect.specs.SerialSwitch.Switching.{ended, last_client, input_of};
ghost use Rattle.class_expect.specs.SerialSwitch.Finding.{Finds, StopsAt};

use cargo_core::{Bytes, Memory};
use std::alloc::Global;

// The byte at a place, if the input goes so far.
fn byte_at(input: &[u8], at: usize) -> Option<u8>
    ensures { result ≡ slice_get input.now at }
{
    input.get(at).copied()
}

// The input from a place on.
fn after(input: &[u8], at: usize) -> &[u8]
    requires { at ≤ length input.now }
    ensures { result.now ≡ drop at input.now }
{
    &input[at..]
}

// How many digits stand in front, at most four.
fn digits_in_front(input: &[u8]) -> usize
    ensures few { result ≤ 4 }
    ensures within { result ≤ length input.now }
    ensures digits { AreDigits (take result input.now) }
    ensures stops { StopsAt result input.now }
{
    let mut count = 0;
    while count < 4 && count < input.len() && input[count].is_ascii_digit() {
        count += 1;
    }
    count
}

// The number that up to four digits write.
fn number(digits: &[u8]) -> u32
    requires few { length digits.now ≤ 4 }
    requires digits { AreDigits digits.now }
    ensures { result ≡ number_of digits.now }
{
    let mut number = 0;
    for digit in digits {
        number = 10 * number + u32::from(*digit - b'0');
    }
    number
}

// A piece of switched input: how many bytes it has, the byte that it gives, and the number that it
// selects.
#[derive(Clone, Copy, Debug, PartialEq, Eq)]
struct Found {
    length: usize,
    gives: Option<u8>,
    selects: Option<u32>,
}

// The piece of an open selection, from its digits and the byte that ends it.
fn ended_selection(digits: &[u8], end: u8) -> Found
    requires few { length digits.now ≤ 4 }
    requires digits { AreDigits digits.now }
    ensures length { result.length ≡ length digits.now + 2 }
    ensures gives { option_to_list result.gives ≡ byte_in (ended digits.now end) }
    ensures selects { option_to_list result.selects ≡ number_in (ended digits.now end) }
{
    if digits.is_empty() {
        Found {
            length: 2,
            gives: (end == 28).then_some(28),
            selects: None,
        }
    } else {
        Found {
            length: digits.len() + 2,
            gives: None,
            selects: (end == 13).then_some(number(digits)),
        }
    }
}

// The piece in front, or None where the input is cut off in it.
fn first_piece(input: &[u8]) -> Option<Found>
    ensures { MatchOption result (IsRest input.now) (λ f. Finds f input.now) }
{
    let first = byte_at(input, 0)?;
    if first != 28 {
        return Some(Found {
            length: 1,
            gives: Some(first),
            selects: None,
        });
    }
    let inside = after(input, 1);
    let count = digits_in_front(inside);
    let end = byte_at(inside, count)?;
    Some(ended_selection(&inside[..count], end))
}

// What a client gets of a piece.
fn given_byte(piece: Found, is_selected: bool) -> Option<u8>
    ensures { option_to_list result ≡ (if is_selected then option_to_list piece.gives else []) }
{
    if is_selected { piece.gives } else { None }
}

fn append(given: &mut Bytes, byte: Option<u8>) -> Result<(), Memory>
    ensures { OnOk result (given.new ≡ given.old ++ option_to_list byte) }
{
    if let Some(byte) = byte {
        given.push(byte)?;
    }
    Ok(())
}

// The client that is selected after a piece.
fn selected_after(piece: Found, clients: u32, selected: u32) -> u32
    ensures { result ≡ last_client clients selected (option_to_list piece.selects) }
{
    match piece.selects {
        Some(number) if number < clients => number,
        _ => selected,
    }
}

/// The part of an input that is for a client, read piece by piece: a slow program, for tests.
pub fn plain_input_of(
    alloc: Global,
    input: &[u8],
    clients: u32,
    client: u32,
) -> Result<Bytes, Memory>
    ensures { IfOk result (λ b. b ≡ input_of clients client input.now) }
{
    let mut given = Bytes::new(alloc);
    let mut selected = 0;
    let mut at = 0;
    while let Some(piece) = first_piece(after(input, at)) {
        append(&mut given, given_byte(piece, selected == client))?;
        selected = selected_after(piece, clients, selected);
        at += piece.length;
    }
    Ok(given)
}
