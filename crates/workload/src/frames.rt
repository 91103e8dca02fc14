//! The lines of frames, those that are received and those that a client sends.
ghost use Rattle.std.specs.Prelude.{◌≡◌, ◌++◌, ◌<◌, IfOk, OnOk, string_bytes};
ghost use Rattle.workload.specs.Draws.{moved, drawn};
ghost use Rattle.workload.specs.Lines.{frame, destination, rx_line, send_line};
ghost use Rattle.workload.specs.Generated.{numbered};

use crate::draws::Draws;
use cargo_core::{Bytes, Memory};
use std::alloc::Global;

// The stations: the two clients of the full example, and two that it doesn't have.
const FIRST_CLIENT: [u8; 6] = [2, 0, 0, 0, 0, 1];

const SECOND_CLIENT: [u8; 6] = [2, 0, 0, 0, 0, 2];

const NOBODY: [u8; 6] = [2, 0, 0, 0, 0, 0x63];

const OUTSIDE: [u8; 6] = [2, 0, 0, 0, 0, 0x99];

const EVERYBODY: [u8; 6] = [0xff; 6];

// A frame of the type 08 00, with some bytes of one value behind its header.
fn frame(
    alloc: Global,
    destination: [u8; 6],
    source: [u8; 6],
    many: usize,
    value: u8,
) -> Result<Bytes, Memory>
    requires { many < 64 }
    ensures { IfOk result (λ f. f ≡ frame destination source many value) }
{
    let mut frame = Bytes::from_slice(alloc, &destination)?;
    frame.extend_from_slice(&source)?;
    frame.extend_from_slice(&[8, 0])?;
    frame.extend_from_slice(&vec![in alloc; value; many]?)?;
    Ok(frame)
}

// Where the received frame of a number goes.
fn destination(i: u64) -> [u8; 6]
    ensures { result ≡ destination i }
{
    match i % 4 {
        0 => FIRST_CLIENT,
        1 => SECOND_CLIENT,
        2 => EVERYBODY,
        _ => NOBODY,
    }
}

// Appends the line of a received frame.
#[tactic(auto, unfolding(crate::specs::Lines::rx_line))]
fn add_rx(alloc: Global, to: &mut String, i: u8, d: u64) -> Result<(), Memory>
    ensures { OnOk result (string_bytes to.new ≡ string_bytes to.old ++ rx_line i d) }
{
    let frame = frame(alloc, destination(i as u64), OUTSIDE, (d % 64) as usize, i)?;
    let digits = hex::encode(alloc, frame.as_slice())?;
    write!(to, "rx {}\n", digits.as_str())?;
    Ok(())
}

// Appends the line of a frame that is sent.
#[tactic(auto, unfolding(crate::specs::Lines::send_line))]
fn add_send(alloc: Global, to: &mut String, i: u8, d: u64) -> Result<(), Memory>
    ensures { OnOk result (string_bytes to.new ≡ string_bytes to.old ++ send_line i d) }
{
    let frame = frame(alloc, OUTSIDE, FIRST_CLIENT, (d % 64) as usize, i)?;
    let digits = hex::encode(alloc, frame.as_slice())?;
    write!(to, "send 0 {}\n", digits.as_str())?;
    Ok(())
}

// Appends the lines of 256 received frames.
pub fn add_received(alloc: Global, to: &mut String, draws: &mut Draws) -> Result<(), Memory>
    ensures text { OnOk result (string_bytes to.new
        ≡ string_bytes to.old ++ numbered rx_line 0 (drawn draws.old.x 256)) }
    ensures draws { OnOk result (draws.new.x ≡ moved draws.old.x 256) }
{
    for i in 0..256u64 {
        let d = draws.draw();
        add_rx(alloc, to, i as u8, d)?;
    }
    Ok(())
}

// Appends the lines of 32 frames that are sent.
pub fn add_sent(alloc: Global, to: &mut String, draws: &mut Draws) -> Result<(), Memory>
    ensures text { OnOk result (string_bytes to.new
        ≡ string_bytes to.old ++ numbered send_line 0 (drawn draws.old.x 32)) }
    ensures draws { OnOk result (draws.new.x ≡ moved draws.old.x 32) }
{
    for i in 0..32u64 {
        let d = draws.draw();
        add_send(alloc, to, i as u8, d)?;
    }
    Ok(())
}
