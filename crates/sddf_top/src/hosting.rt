//! The program on a machine: its words are the arguments behind its name, its texts are files, and
//! its answer goes to standard output.

use crate::{FileShelf, OpenGate, OutSink, Played, serve};
use std::rt::{Env, Files};
use std::sync::Wait;
use std::thread::Threads;
use std::{env, io};

/// The status where the system doesn't give the words as texts: memory was refused, or one isn't in
/// UTF-8. No word can be judged then.
const NO_WORDS: u8 = 9;

// The words of the program: the arguments behind its name.
fn words_of<R: Env + AllocGlobal>(rt: &R) -> io::Result<Vec<String>> {
    let mut words = Vec::new(rt.alloc());
    for word in env::args(rt)?.skip(1) {
        words.push(word)?;
    }
    Ok(words)
}

/// Does what the arguments behind the program's name ask for, over files and standard output, and
/// answers the status with which the program ends. No contract tells what arguments, files and
/// standard output hold: what is promised stands at `serve`, which it calls on them.
pub fn serve_host<R: Threads + Wait + Sync + Env + Files + Print + AllocGlobal>(rt: &R) -> u8 {
    let Ok(words) = words_of(rt) else {
        return NO_WORDS;
    };
    let mut shelf = FileShelf::new(rt);
    let mut sink = OutSink::new(rt);
    let mut played = Played::Nothing;
    let status = serve(
        rt,
        rt.alloc(),
        &words,
        &mut shelf,
        &mut sink,
        &OpenGate,
        &mut played,
    );
    played.forget();
    status.code()
}
