//! A line of the text: its words, and what they say.
ghost use Rattle.std.specs.Prelude.{◌≡◌, [], ◌∷◌, IfOk};
ghost use Rattle.i2c_text.specs.Lines.{words_say, meaning, read_said, write_said};
ghost use Rattle.line_text.specs.Texts.{words_of};

use crate::bus::BusAsk;
use crate::hexadecimal::{BYTES, read_bytes};
use cargo_core::Memory;
use line_text::{is_skipped, read_between, same_text, split_once};
use std::alloc::Global;

/// The most clients.
const CLIENTS: u8 = 8;

/// The greatest number of a client.
const LAST_CLIENT: u8 = 7;

/// The least address of a device.
const LEAST: u8 = 8;

/// The greatest address of a device.
const GREATEST: u8 = 119;

// What a line says.
#[derive(Drop)]
pub enum Line {
    // Nothing.
    Skipped,
    // There are so many clients.
    Clients(u8),
    // There is a device of this address.
    Device(u8),
    // The next request of a client.
    Ask(u8, BusAsk),
}

// What a line says; None where it is bad by itself.
pub fn read_line(alloc: Global, line: &[u8]) -> Result<Option<Line>, Memory>
    ensures { IfOk result (λ said. said ≡ meaning line.now) }
{
    if is_skipped(line) {
        return Ok(Some(Line::Skipped));
    }
    match split_once(line, b' ') {
        None => Ok(None),
        Some((name, rest)) => read_named(alloc, name, rest),
    }
}

// What two words or more say.
fn read_named(alloc: Global, name: &[u8], rest: &[u8]) -> Result<Option<Line>, Memory>
    ensures { IfOk result (λ said. said ≡ words_say (name.now ∷ words_of rest.now)) }
{
    match split_once(rest, b' ') {
        None => Ok(read_two(name, rest)),
        Some((second, rest)) => read_longer(alloc, name, second, rest),
    }
}

// What three words or more say.
fn read_longer(
    alloc: Global,
    name: &[u8],
    second: &[u8],
    rest: &[u8],
) -> Result<Option<Line>, Memory>
    ensures { IfOk result (λ said. said
        ≡ words_say (name.now ∷ second.now ∷ words_of rest.now)) }
{
    match split_once(rest, b' ') {
        None => Ok(read_three(name, second, rest)),
        Some((third, rest)) => match split_once(rest, b' ') {
            None => read_four(alloc, name, second, third, rest),
            Some(_) => Ok(None),
        },
    }
}

// What two words say.
fn read_two(name: &[u8], word: &[u8]) -> Option<Line>
    ensures { result ≡ words_say (name.now ∷ word.now ∷ []) }
{
    if same_text(name, "clients") {
        let count = read_between(word, 1, CLIENTS)?;
        return Some(Line::Clients(count));
    }
    if same_text(name, "device") {
        let address = read_between(word, LEAST, GREATEST)?;
        return Some(Line::Device(address));
    }
    None
}

// What three words say.
fn read_three(name: &[u8], client: &[u8], address: &[u8]) -> Option<Line>
    ensures { result ≡ words_say (name.now ∷ client.now ∷ address.now ∷ []) }
{
    if !same_text(name, "claim") {
        return None;
    }
    let client = read_between(client, 0, LAST_CLIENT)?;
    let address = read_between(address, LEAST, GREATEST)?;
    Some(Line::Ask(client, BusAsk::Claim(address)))
}

// What four words say.
fn read_four(
    alloc: Global,
    name: &[u8],
    client: &[u8],
    address: &[u8],
    word: &[u8],
) -> Result<Option<Line>, Memory>
    ensures { IfOk result (λ said. said
        ≡ words_say (name.now ∷ client.now ∷ address.now ∷ word.now ∷ [])) }
{
    if same_text(name, "read") {
        return Ok(read_read(client, address, word));
    }
    if same_text(name, "write") {
        return read_write(alloc, client, address, word);
    }
    Ok(None)
}

// `read C A N`
fn read_read(client: &[u8], address: &[u8], word: &[u8]) -> Option<Line>
    ensures { result ≡ read_said client.now address.now word.now }
{
    let client = read_between(client, 0, LAST_CLIENT)?;
    let address = read_between(address, LEAST, GREATEST)?;
    let count = read_between(word, 1, BYTES)?;
    Some(Line::Ask(client, BusAsk::Read(address, count)))
}

// `write C A HEX`
fn read_write(
    alloc: Global,
    client: &[u8],
    address: &[u8],
    word: &[u8],
) -> Result<Option<Line>, Memory>
    ensures { IfOk result (λ said. said ≡ write_said client.now address.now word.now) }
{
    let client = match read_between(client, 0, LAST_CLIENT) {
        Some(client) => client,
        None => return Ok(None),
    };
    let address = match read_between(address, LEAST, GREATEST) {
        Some(address) => address,
        None => return Ok(None),
    };
    let bytes = match read_bytes(alloc, word)? {
        Some(bytes) => bytes,
        None => return Ok(None),
    };
    Ok(Some(Line::Ask(client, BusAsk::Write(address, bytes))))
}
