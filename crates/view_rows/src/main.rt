//! Runs the program beside the main one over files, with two sinks in memory, on rows of words. For
//! each row it writes the words, the status, and either the line of the refusal or what was shown:
//! how many bytes, or for a row `WORDS = FILE` whether they are those of the file.
#![tactic(auto)]

use cargo_core::Memory;
use decision_core::shelf_core::{FileShelf, MemSink};
use std::alloc::{AllocError, Global};
use std::{fs, io, str};
use view_plays::view_any;

/// How many bytes each sink has room for.
const ROOM: usize = 2_000_000;

// The words of a row.
fn words_of(alloc: Global, row: &str) -> Result<Vec<String>, AllocError> {
    let mut words = Vec::new(alloc);
    for word in row.split(' ') {
        if !word.is_empty() {
            words.push(String::from_str(alloc, word)?)?;
        }
    }
    Ok(words)
}

// Two sinks.
fn sinks(alloc: Global) -> Result<(MemSink, MemSink), Memory> {
    Ok((MemSink::new(alloc, ROOM)?, MemSink::new(alloc, ROOM)?))
}

// Prints what was shown.
fn print_shown(rt: &HostRuntime, shown: &[u8], kept: Option<&str>) -> io::Result<()> {
    let Some(file) = kept else {
        return println!(rt; "{} bytes", shown.len());
    };
    let text = fs::read_to_string(rt, file)?;
    if text.as_bytes() == shown {
        println!(rt; "what {file} has")
    } else {
        println!(rt; "something else than {file} has")
    }
}

// Prints the answer at a row.
fn print_row(rt: &HostRuntime, row: &str) -> io::Result<()> {
    let (asked, kept) = match row.split_once(" = ") {
        Some((asked, file)) => (asked, Some(file)),
        None => (row, None),
    };
    let words = words_of(rt.alloc(), asked)?;
    let Ok((mut out, mut err)) = sinks(rt.alloc()) else {
        return rt.println("no memory");
    };
    let mut shelf = FileShelf::new(rt);
    let status = view_any(rt.alloc(), &words, &mut shelf, &mut out, &mut err);
    print!(rt; "{asked}: {status} ")?;
    if err.written().is_empty() {
        return print_shown(rt, out.written(), kept);
    }
    let line = str::from_utf8(err.written()).unwrap_or("no text\n");
    print!(rt; "{} bytes, {line}", out.written().len())
}

fn main(rt: HostRuntime) -> io::Result<()> {
    for line in rt.lines(rt.alloc()) {
        print_row(&rt, line?.as_str())?;
    }
    Ok(())
}
