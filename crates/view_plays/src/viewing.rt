//! The words that draw plays, as one call: the answer is made whole, and then written; and all
//! words of the program.
ghost use Rattle.std.specs.Prelude.{◌≡◌, ◌↔◌, IsTrue};
ghost use Rattle.command_words.specs.Words.{texts_of};
ghost use Rattle.decision_core.specs.Codes.{code_of};
ghost use Rattle.view_plays.specs.ViewCore.Viewed.{IsViewed};
ghost use Rattle.view_plays.specs.ViewCore.Codes.{code_of as view_code};
ghost use Rattle.view_plays.specs.declared.view_core.ended.Ended.{Ended};
ghost use Rattle.view_plays.specs.Deciding.{decided_of};
ghost use Rattle.view_plays.specs.Viewed.{IsTold, IsWritten, EndsFor, IsDrawn, BeginsPlay};

use crate::playing::{Reply, decide_play};
use command_words::{is_word, word_at};
use decision_core::Status;
use decision_core::shelf_core::{ReadStop, Shelf, Sink, write_text};
use std::alloc::Global;
use crate::view_core::view;

// Writes a text to its end, and answers this status, or that it couldn't be written.
fn write_to<K: Sink>(sink: &mut K, text: &[u8], status: Status) -> Status
    ensures { IsTold K.written K.faults K.failed sink.old sink.new text.now status result }
{
    match write_text(sink, text) {
        Ok(()) => status,
        Err(_) => Status::WriteFault,
    }
}

// Writes a reply to the sink that it goes to, and answers the status.
fn write_reply<K: Sink, E: Sink>(reply: Reply, out: &mut K, err: &mut E) -> Status
    ensures written { IsWritten K.written K.faults K.failed E.written E.faults E.failed
        (decided_of reply) out.old out.new err.old err.new result }
    ensures ends { EndsFor (decided_of reply) result }
{
    match reply {
        Reply::Show(status, text) => write_to(out, text.as_slice(), status),
        Reply::Refuse(status, line) => write_to(err, line.as_bytes(), status),
    }
}

/// Draws what the words ask for of a play. What is drawn goes to the first sink; the line of a
/// refusal goes to the second, and then nothing goes to the first. While a long play is made, lines
/// of progress go to the second.
pub fn view_play<F: Shelf, K: Sink, E: Sink>(
    alloc: Global,
    words: &[String],
    shelf: &mut F,
    out: &mut K,
    err: &mut E,
) -> Status
    ensures { IsDrawn F.text F.opens F.faults F.failed K.written K.faults K.failed
        E.written E.faults E.failed (texts_of words.now) shelf.old shelf.new
        out.old out.new err.old err.new result }
{
    match decide_play(alloc, words, shelf, err) {
        Ok(reply) => write_reply(reply, out, err),
        Err(ReadStop::Failed) => Status::ReadFault,
        Err(ReadStop::Memory(memory)) => Status::Memory(memory),
    }
}

// Whether the first word asks for a drawing of a play.
fn begins_play(words: &[String]) -> bool
    ensures { IsTrue result ↔ BeginsPlay (texts_of words.now) }
{
    if words.is_empty() {
        return false;
    }
    let word = word_at(words, 0);
    is_word(word, "play") || is_word(word, "html")
}

/// Does what the words ask for, and answers the status with which the program ends: draws a play
/// behind `play` and `html`, and else shows what `view` shows.
pub fn view_any<F: Shelf, K: Sink, E: Sink>(
    alloc: Global,
    words: &[String],
    shelf: &mut F,
    out: &mut K,
    err: &mut E,
) -> u8
    ensures play { BeginsPlay (texts_of words.now) → (status : Status)
        × (result ≡ code_of status) × IsDrawn F.text F.opens F.faults F.failed
        K.written K.faults K.failed E.written E.faults E.failed (texts_of words.now)
        shelf.old shelf.new out.old out.new err.old err.new status }
    ensures other { (BeginsPlay (texts_of words.now) → ⊥) → (ended : Ended)
        × (result ≡ view_code ended) × IsViewed F.text F.opens F.faults F.failed
        K.written K.faults K.failed E.written E.faults E.failed (texts_of words.now)
        shelf.old shelf.new out.old out.new err.old err.new ended }
{
    if begins_play(words) {
        view_play(alloc, words, shelf, out, err).code()
    } else {
        view(alloc, words, shelf, out, err).code()
    }
}
