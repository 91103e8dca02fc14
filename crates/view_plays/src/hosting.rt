//! The program on a machine: its words are the arguments behind its name, its texts are files, what
//! it shows goes to standard output, and lines of refusal and of progress to standard error.
use crate::viewing::view_any;
use decision_core::shelf_core::{FileShelf, OutSink};
use std::rt::{Env, Files};
use std::{env, io};
use crate::view_core::ErrSink;

/// The status where the system doesn't give the words as texts: memory was refused, or one isn't in
/// UTF-8. No word can be judged then.
const NO_WORDS: u8 = 9;

// The words of the program: the arguments behind its name.
fn words_of<R: Env + AllocGlobal>(rt: &R) -> io::Result<Vec<String>> {
    let mut words = Vec::new(rt.alloc());
    for word in env::args(rt)?.skip(1) {
        words.push(word)?;
    }
    Ok(words)
}

/// Does what the arguments behind the program's name ask for, over files, standard output and
/// standard error, and answers the status with which the program ends. No contract tells what
/// arguments, files and streams hold: what is promised stands at `view_any`, which it calls on
/// them.
pub fn plays_host<R: Env + Files + Print + Eprint + AllocGlobal>(rt: &R) -> u8 {
    let Ok(words) = words_of(rt) else {
        return NO_WORDS;
    };
    let mut shelf = FileShelf::new(rt);
    let mut out = OutSink::new(rt);
    let mut err = ErrSink::new(rt);
    view_any(rt.alloc(), &words, &mut shelf, &mut out, &mut err)
}
