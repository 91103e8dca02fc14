//! The lines of the serial input, and of what a client says.
ghost use Rattle.std.specs.Prelude.{◌≡◌, ◌++◌, OnOk, string_bytes};
ghost use Rattle.workload.specs.Draws.{moved, drawn};
ghost use Rattle.workload.specs.Lines.{letters, in_line, say_line};

use crate::draws::Draws;
use cargo_core::{Bytes, Memory};
use std::alloc::Global;

// Appends small letters, one for each draw.
fn add_letters(to: &mut Bytes, draws: &mut Draws, many: usize) -> Result<(), Memory>
    ensures letters { OnOk result (to.new ≡ to.old ++ letters (drawn draws.old.x many)) }
    ensures draws { OnOk result (draws.new.x ≡ moved draws.old.x many) }
{
    for _at in 0..many {
        let d = draws.draw();
        to.push(97 + (d % 26) as u8)?;
    }
    Ok(())
}

// Appends the line of the input: letters for client 0, the selection of client 1, and letters for
// that one.
#[tactic(auto, unfolding(crate::specs::Lines::in_line))]
pub fn add_input(alloc: Global, to: &mut String, draws: &mut Draws) -> Result<(), Memory>
    ensures text { OnOk result (string_bytes to.new ≡ string_bytes to.old
        ++ in_line (drawn draws.old.x 1024) (drawn (moved draws.old.x 1024) 1024)) }
    ensures draws { OnOk result (draws.new.x ≡ moved (moved draws.old.x 1024) 1024) }
{
    let mut input = Bytes::new(alloc);
    add_letters(&mut input, draws, 1024)?;
    input.extend_from_slice(&[28, 49, 13])?;
    add_letters(&mut input, draws, 1024)?;
    let digits = hex::encode(alloc, input.as_slice())?;
    write!(to, "in {}\n", digits.as_str())?;
    Ok(())
}

// Appends the line of what client 0 says.
#[tactic(auto, unfolding(crate::specs::Lines::say_line))]
pub fn add_said(alloc: Global, to: &mut String, draws: &mut Draws) -> Result<(), Memory>
    ensures text { OnOk result (string_bytes to.new
        ≡ string_bytes to.old ++ say_line (drawn draws.old.x 512)) }
    ensures draws { OnOk result (draws.new.x ≡ moved draws.old.x 512) }
{
    let mut said = Bytes::new(alloc);
    add_letters(&mut said, draws, 512)?;
    let digits = hex::encode(alloc, said.as_slice())?;
    write!(to, "say 0 {}\n", digits.as_str())?;
    Ok(())
}
