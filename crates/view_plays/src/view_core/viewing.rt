//! The program as one call: the answer is made whole, and then written.
ghost use Rattle.command_words.specs.Words.{texts_of};
ghost use Rattle.view_plays.specs.ViewCore.Deciding.{decision_of};
ghost use Rattle.view_plays.specs.ViewCore.Viewed.{IsViewed, IsTold, IsWritten, EndsFor};

use crate::view_core::answer::Answer;
use crate::view_core::deciding::decide_view;
use crate::view_core::ended::Ended;
use decision_core::shelf_core::{ReadStop, Shelf, Sink, write_text};
use std::alloc::Global;

// Writes a text to its end, and answers this status, or that it couldn't be written.
fn write_to<K: Sink>(sink: &mut K, text: &[u8], ended: Ended) -> Ended
    ensures { IsTold K.written K.faults K.failed sink.old sink.new text.now ended result }
{
    match write_text(sink, text) {
        Ok(()) => ended,
        Err(_) => Ended::WriteFault,
    }
}

// Writes an answer to the sink that it goes to, and answers the status.
fn write_answer<K: Sink, E: Sink>(answer: Answer, out: &mut K, err: &mut E) -> Ended
    ensures written { IsWritten K.written K.faults K.failed E.written E.faults E.failed
        (decision_of answer) out.old out.new err.old err.new result }
    ensures ends { EndsFor (decision_of answer) result }
{
    match answer {
        Answer::Show(text) => write_to(out, text.as_slice(), Ended::Ok),
        Answer::Refuse(ended, line) => write_to(err, line.as_bytes(), ended),
    }
}

/// Shows what the words ask for of a description on a shelf. What is shown goes to the first sink;
/// the line of a refusal goes to the second, and then nothing goes to the first.
///
/// The words are judged first, and then the description is read and judged; the first thing that
/// goes wrong is the answer. `Memory` may come at any point after the words were judged.
pub fn view<F: Shelf, K: Sink, E: Sink>(
    alloc: Global,
    words: &[String],
    shelf: &mut F,
    out: &mut K,
    err: &mut E,
) -> Ended
    ensures { IsViewed F.text F.opens F.faults F.failed K.written K.faults K.failed
        E.written E.faults E.failed (texts_of words.now) shelf.old shelf.new
        out.old out.new err.old err.new result }
{
    match decide_view(alloc, words, shelf) {
        Ok(answer) => write_answer(answer, out, err),
        Err(ReadStop::Failed) => Ended::ReadFault,
        Err(ReadStop::Memory(memory)) => Ended::Memory(memory),
    }
}
