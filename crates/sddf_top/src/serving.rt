//! The program as one call: the answer is made whole, and then written.
ghost use Rattle.std.specs.Prelude.{◌≡◌, ◌⊎◌, ◌<◌, ℕ, Option, List, string_bytes};
ghost use Rattle.command_words.specs.Words.{texts_of, BeginsRun};
ghost use Rattle.decision_core.specs.ShelfCore.Outside.{FailsLast};
ghost use Rattle.sddf_top.specs.Answers.{Answers, Serves};
ghost use Rattle.decision_core.specs.ShelfCore.Reading.{WasRead};
ghost use Rattle.sddf_top.specs.Outcomes.{HasTold};
ghost use Rattle.sddf_top.specs.Served.{IsServed};

use crate::Played;
use crate::answering::{Outcome, answer_words, answer_words_alone};
use command_words::begins_run;
use decision_core::Status;
use decision_core::shelf_core::{ReadStop, Shelf, Sink, write_text};
use pd_runner::Gate;
use std::alloc::Global;
use std::sync::Wait;
use std::thread::Threads;

/// Writes an answer, and answers its status, or that it couldn't be written.
fn write_outcome<K: Sink>(sink: &mut K, outcome: Outcome, played: &mut Played) -> Status
    ensures served { (told : List ℕ → Option (List ℕ)) (words : List (List ℕ))
        → Answers (WasRead told) words outcome.status (string_bytes outcome.text) outcome.played
        → Serves (WasRead told) words (K.written sink.old) (K.written sink.new) result played.new }
    ensures faulty { (outcome.status ≡ Status.WriteFault → ⊥) → result ≡ Status.WriteFault
        → FailsLast (K.faults sink.old) (K.faults sink.new) (K.failed sink.new) }
    ensures calm { (result ≡ Status.WriteFault → ⊥) → K.faults sink.new ≡ K.faults sink.old }
    ensures always { K.faults sink.old < K.faults sink.new → result ≡ Status.WriteFault }
    ensures other { (result ≡ outcome.status) ⊎ (result ≡ Status.WriteFault) }
{
    let Outcome {
        status,
        text,
        played: was,
    } = outcome;
    played.put(was);
    match write_text(sink, text.as_bytes()) {
        Ok(()) => status,
        Err(_) => Status::WriteFault,
    }
}

/// Writes an answer, where there is one, and answers the status.
fn tell<K: Sink>(sink: &mut K, answer: Result<Outcome, ReadStop>, played: &mut Played) -> Status
    ensures { HasTold K.written K.faults K.failed answer sink.old sink.new result played.new }
{
    played.put(Played::Nothing);
    match answer {
        Ok(outcome) => write_outcome(sink, outcome, played),
        Err(ReadStop::Failed) => Status::ReadFault,
        Err(ReadStop::Memory(memory)) => Status::Memory(memory),
    }
}

/// Does what the words ask for, where the first isn't `run`, over a shelf of texts and a sink for
/// the answer, and tells the system that was played. It takes no runtime and waits for no thread.
///
/// The words are judged first, then the description is read and judged, then the trace, and then
/// the system is played; of a bus or a switch the one text is read, and then it is played. The
/// first thing that goes wrong is the answer. `Memory` may come at any point after the words were
/// judged. The whole text is made before the first of it is written.
pub fn serve_alone<F: Shelf, K: Sink>(
    alloc: Global,
    words: &[String],
    shelf: &mut F,
    sink: &mut K,
    played: &mut Played,
) -> Status
    requires { BeginsRun (texts_of words.now) → ⊥ }
    ensures { IsServed F.text F.left F.opens F.faults F.failed K.written K.faults K.failed
        (texts_of words.now) shelf.old shelf.new
        sink.old sink.new result played.new }
{
    let answer = answer_words_alone(alloc, words, shelf);
    tell(sink, answer, played)
}

/// Does what the words ask for, whichever they are: what `serve_alone` does, and for `run` the same
/// with a thread for each actor. `rt` is the runtime that threads take, and the gate may hold an
/// actor back before each of its steps in a thread.
pub fn serve<R: Threads + Wait + Sync, F: Shelf, K: Sink, G: Gate + Sync>(
    rt: &R,
    alloc: Global,
    words: &[String],
    shelf: &mut F,
    sink: &mut K,
    gate: &G,
    played: &mut Played,
) -> Status
    ensures { IsServed F.text F.left F.opens F.faults F.failed K.written K.faults K.failed
        (texts_of words.now) shelf.old shelf.new
        sink.old sink.new result played.new }
{
    if !begins_run(words) {
        return serve_alone(alloc, words, shelf, sink, played);
    }
    let answer = answer_words(rt, alloc, words, shelf, gate);
    tell(sink, answer, played)
}
