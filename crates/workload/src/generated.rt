//! The whole trace.
ghost use Rattle.std.specs.Prelude.{◌≡◌, IfOk, string_bytes};
ghost use Rattle.workload.specs.Generated.{generated_text};

use crate::draws::Draws;
use crate::frames::{add_received, add_sent};
use crate::requests::{add_asked, add_disk};
use crate::streams::{add_input, add_said};
use cargo_core::Memory;
use std::alloc::Global;

/// The text of the trace that a number generates for the full example: frames, received and
/// sent, serial input and output, and a disk with requests. The only error is want of memory.
pub fn generate(alloc: Global, number: u64) -> Result<String, Memory>
    ensures { IfOk result (λ text. string_bytes text ≡ generated_text number) }
{
    let mut draws = Draws { x: number };
    let mut text = String::new(alloc);
    add_received(alloc, &mut text, &mut draws)?;
    add_sent(alloc, &mut text, &mut draws)?;
    add_input(alloc, &mut text, &mut draws)?;
    add_said(alloc, &mut text, &mut draws)?;
    add_disk(&mut text)?;
    add_asked(alloc, &mut text, &mut draws)?;
    Ok(text)
}
