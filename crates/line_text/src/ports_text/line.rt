//! A line of the text: its words, and what they say.
ghost use Rattle.std.specs.Prelude.{◌≡◌, [], ◌∷◌, IfOk};
ghost use Rattle.line_text.specs.Texts.{words_of};
ghost use Rattle.line_text.specs.PortsText.Lines.{frame_of, words_say, meaning};

use crate::ports_text::address::read_address;
use crate::{is_skipped, read_between, read_data, same_text, split_once};
use cargo_core::{Bytes, Memory};
use frame_core::{Mac, is_frame};
use std::alloc::Global;

/// The greatest number of a port.
const LAST_PORT: u8 = 7;

/// The longest frame, in bytes.
const LONGEST: u16 = 1514;

// What a line says.
#[derive(Drop)]
pub enum Line {
    // Nothing.
    Skipped,
    // There is a port of this address.
    Port(Mac),
    // The next frame that a port sends.
    Send(u8, Bytes),
}

// What a line says; None where it is bad by itself.
pub fn read_line(alloc: Global, line: &[u8]) -> Result<Option<Line>, Memory>
    ensures { IfOk result (λ said. said ≡ meaning line.now) }
{
    if is_skipped(line) {
        return Ok(Some(Line::Skipped));
    }
    match split_once(line, b' ') {
        None => Ok(None),
        Some((name, rest)) => read_named(alloc, name, rest),
    }
}

// What two words or more say.
fn read_named(alloc: Global, name: &[u8], rest: &[u8]) -> Result<Option<Line>, Memory>
    ensures { IfOk result (λ said. said ≡ words_say (name.now ∷ words_of rest.now)) }
{
    match split_once(rest, b' ') {
        None => Ok(read_two(name, rest)),
        Some((second, rest)) => match split_once(rest, b' ') {
            None => read_three(alloc, name, second, rest),
            Some(_) => Ok(None),
        },
    }
}

// What two words say.
fn read_two(name: &[u8], word: &[u8]) -> Option<Line>
    ensures { result ≡ words_say (name.now ∷ word.now ∷ []) }
{
    if !same_text(name, "port") {
        return None;
    }
    let mac = read_address(word)?;
    Some(Line::Port(mac))
}

// What three words say.
fn read_three(alloc: Global, name: &[u8], port: &[u8], word: &[u8]) -> Result<Option<Line>, Memory>
    ensures { IfOk result (λ said. said ≡ words_say (name.now ∷ port.now ∷ word.now ∷ [])) }
{
    if !same_text(name, "send") {
        return Ok(None);
    }
    let port = match read_between(port, 0, LAST_PORT) {
        Some(port) => port,
        None => return Ok(None),
    };
    let frame = match read_frame(alloc, word)? {
        Some(frame) => frame,
        None => return Ok(None),
    };
    Ok(Some(Line::Send(port, frame)))
}

// The frame that a word stands for.
fn read_frame(alloc: Global, word: &[u8]) -> Result<Option<Bytes>, Memory>
    ensures { IfOk result (λ frame. frame ≡ frame_of word.now) }
{
    let frame = match read_data(alloc, word, LONGEST as usize)? {
        Some(frame) => frame,
        None => return Ok(None),
    };
    if !is_frame(frame.as_slice(), LONGEST) {
        return Ok(None);
    }
    Ok(Some(frame))
}
