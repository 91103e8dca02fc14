//! The call over a shelf and a sink that never fail.
ghost use Rattle.command_words.specs.Words.{texts_of, BeginsRun};
ghost use Rattle.sddf_top.specs.Sure.{IsSure};

use crate::{Played, serve_alone};
use decision_core::Status;
use decision_core::shelf_core::{SureShelf, SureSink};
use std::alloc::Global;

/// What `serve_alone` does, over a shelf and a sink that never fail: so it answers no fault of
/// reading or writing.
pub fn serve_surely(
    alloc: Global,
    words: &[String],
    shelf: &mut SureShelf,
    sink: &mut SureSink,
    played: &mut Played,
) -> Status
    requires { BeginsRun (texts_of words.now) → ⊥ }
    ensures { IsSure (texts_of words.now) shelf.old result }
{
    serve_alone(alloc, words, shelf, sink, played)
}
