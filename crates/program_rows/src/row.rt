//! A row over shelves and sinks in memory: its words and texts, and what a call answers to it.
use crate::words::words_of;
use cargo_core::Memory;
use sddf_top::{MemShelf, MemSink, Played, begins_run, serve_alone};
use std::alloc::Global;
use std::io;
use std::rt::Files;

/// How many bytes an answer may have.
pub const ROOM: usize = 65_536;

/// A memory that is refused, as an error.
pub fn ample<T>(made: Result<T, Memory>) -> io::Result<T> {
    match made {
        Ok(value) => Ok(value),
        Err(_) => Err(io::Error::from(io::ErrorKind::OutOfMemory)),
    }
}

/// The words of a call, and the texts of its description and its trace. Of two words the second
/// names the one text, unless the first is `gen`.
#[derive(Drop)]
pub struct Row {
    words: Vec<String>,
    desc: Vec<u8>,
    trace: Vec<u8>,
}

// Whether words name a text.
fn has_text(words: &[String]) -> bool {
    words.len() > 2 || (words.len() > 1 && words[0].as_str() != "gen")
}

// The text of the file that a word names; none where there is no such word.
fn text_at<R: Files + AllocGlobal>(rt: &R, words: &[String], place: usize) -> io::Result<Vec<u8>> {
    if place < words.len() && has_text(words) {
        return std::fs::read(rt, words[place].as_str());
    }
    Ok(Vec::new(rt.alloc()))
}

impl Row {
    /// The row of these words, whose texts are files.
    pub fn new<R: Files + AllocGlobal>(rt: &R, line: &str) -> io::Result<Row> {
        let words = words_of(rt.alloc(), line, None)?;
        let desc = text_at(rt, &words, 1)?;
        let trace = text_at(rt, &words, 2)?;
        Ok(Row { words, desc, trace })
    }

    /// The row of these words, with its texts.
    pub fn with_texts(alloc: Global, line: &str, desc: Vec<u8>, trace: Vec<u8>) -> io::Result<Row> {
        let words = words_of(alloc, line, None)?;
        Ok(Row { words, desc, trace })
    }

    /// How many bytes the description has.
    pub fn desc_len(&self) -> usize {
        self.desc.len()
    }

    /// How many bytes the trace has.
    pub fn trace_len(&self) -> usize {
        self.trace.len()
    }

    /// A shelf of the first bytes of both texts, which gives so many bytes in a call.
    pub fn shelf(
        &self,
        alloc: Global,
        desc: usize,
        trace: usize,
        piece: usize,
    ) -> io::Result<MemShelf> {
        let mut shelf = MemShelf::new(alloc);
        if self.words.len() > 2 {
            let trace = &self.trace[..trace.min(self.trace.len())];
            ample(shelf.add(self.words[2].as_str(), trace))?;
        }
        if self.words.len() > 1 && has_text(&self.words) {
            let desc = &self.desc[..desc.min(self.desc.len())];
            ample(shelf.add(self.words[1].as_str(), desc))?;
        }
        shelf.piece(piece.max(1));
        Ok(shelf)
    }

    /// The status of the answer to the row over a shelf and a sink.
    pub fn status(&self, alloc: Global, shelf: &mut MemShelf, sink: &mut MemSink) -> u8 {
        if begins_run(&self.words) {
            return u8::MAX;
        }
        let mut played = Played::Nothing;
        let status = serve_alone(alloc, &self.words, shelf, sink, &mut played);
        played.forget();
        status.code()
    }
}
