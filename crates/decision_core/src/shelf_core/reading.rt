//! A text is read from a shelf to its end.
ghost use Rattle.std.specs.Prelude.{◌≡◌, ◌+◌, ◌<◌, ◌≤◌, IfOk, length};
ghost use Rattle.decision_core.specs.ShelfCore.Outside.{IsRead, read_most};
ghost use Rattle.decision_core.specs.ShelfCore.Reading.{ReadsOn};
ghost use Rattle.decision_core.specs.ShelfCore.Shelves.{ReadsFrom, Opens, OpensNone, LeavesRest};

use crate::shelf_core::{Failed, Shelf};
use cargo_core::{Bytes, Memory};
use sdf_model::TEXT_MOST;
use std::alloc::Global;

/// How many bytes of a text are read at most: one more than a text may have.
pub const READ_MOST: usize = TEXT_MOST + 1;

/// Why a text wasn't read to its end.
#[derive(Clone, Copy, Debug, PartialEq, Eq)]
pub enum ReadStop {
    /// The shelf failed.
    Failed,
    /// Memory was refused.
    Memory(Memory),
}

impl From<Failed> for ReadStop {
    ghost use Rattle.std.specs.Prelude.{◌≡◌};
    ghost use Rattle.decision_core.specs.declared.shelf_core.reading.ReadStop.TheVariants as Stop;

    ghost from_gives = { λ _ stop. stop ≡ Stop.Failed };

    fn from(_: Failed) -> Self {
        ReadStop::Failed
    }
}

impl From<Memory> for ReadStop {
    ghost use Rattle.std.specs.Prelude.{◌≡◌};
    ghost use Rattle.decision_core.specs.declared.shelf_core.reading.ReadStop.TheVariants as Stop;

    ghost from_gives = { λ memory stop. stop ≡ Stop.Memory memory };

    fn from(memory: Memory) -> Self {
        ReadStop::Memory(memory)
    }
}

/// Reads one more piece of the open text, of at most `most` bytes, and answers how many they are.
fn read_piece<F: Shelf>(shelf: &mut F, text: &mut Bytes, most: usize) -> Result<usize, ReadStop>
    requires { 0 < most }
    ensures more { IfOk result (λ n. length text.new ≡ length text.old + n) }
    ensures within { IfOk result (λ n. n ≤ most) }
    ensures reads { ReadsFrom F.text F.left F.opens F.faults F.failed OpensNone
        (λ n left left' _ _. ReadsOn left text.old n left' text.new) shelf.old shelf.new result }
{
    let mut piece = [0u8; 4096];
    let room = most.min(4096);
    let into = &mut piece[..room];
    let n = shelf.read(into)?;
    text.extend_from_slice(&into[..n])?;
    Ok(n)
}

/// Reads the text of a name to its end, or its first 16,777,217 bytes.
pub fn read_text<F: Shelf>(alloc: Global, shelf: &mut F, name: &str) -> Result<Bytes, ReadStop>
    ensures bytes { IfOk result (IsRead (F.text shelf.old name.now)) }
    ensures within { IfOk result (λ bytes. length bytes ≤ read_most) }
    ensures reads { ReadsFrom F.text F.left F.opens F.faults F.failed (Opens name.now)
        (LeavesRest (F.text shelf.old) name.now) shelf.old shelf.new result }
{
    shelf.open(name)?;
    let mut text = Bytes::new(alloc);
    while text.len() < READ_MOST {
        let most = READ_MOST - text.len();
        if read_piece(shelf, &mut text, most)? == 0 {
            break;
        }
    }
    Ok(text)
}
