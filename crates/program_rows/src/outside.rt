//! The program's call with a shelf and a sink of which one call fails, with texts at the limit, and
//! over an outside that never fails; and what files and standard output give and take.

use crate::row::{Row, ample};
use crate::words::words_of;
use cargo_core::{Memory, Text};
use sddf_top::{
    FileShelf, MemSink, OutSink, Played, SureShelf, SureSink, begins_run, read_text, serve_surely,
    write_text,
};
use std::alloc::Global;
use std::io;
use std::rt::Files;

/// A description without a class, whose play is quiet at once.
const DESC: &str = "protection_domain = []\n";

/// How many bytes the answer to a call may have.
const ROOM: usize = 1_000;

// The play of that description with a trace.
fn play_of(alloc: Global, trace: Vec<u8>) -> io::Result<Row> {
    Row::with_texts(alloc, "play S T", DESC.as_bytes().to_vec(alloc)?, trace)
}

// The play of a bus with such a text.
fn bus_of(alloc: Global, text: Vec<u8>) -> io::Result<Row> {
    Row::with_texts(alloc, "i2c T", text, Vec::new(alloc))
}

// Prints a status, and what was written.
fn print_answer<R: Print>(rt: &R, status: u8, sink: &MemSink) -> io::Result<()> {
    let written = std::str::from_utf8(sink.written()).unwrap_or("no text");
    println!(rt; "status {status}, {} bytes: {written:?}", written.len())
}

fn a_failing_read_writes_nothing<R: Print + AllocGlobal>(rt: &R) -> io::Result<()> {
    println!(rt; "# a failing read writes nothing")?;
    let alloc = rt.alloc();
    let row = play_of(alloc, Vec::new(alloc))?;
    let mut shelf = row.shelf(alloc, row.desc_len(), 0, 16)?;
    ample(shelf.fail_at(2))?;
    let mut sink = ample(MemSink::new(alloc, ROOM))?;
    let status = row.status(alloc, &mut shelf, &mut sink);
    print_answer(rt, status, &sink)
}

fn a_failing_write_leaves_the_beginning<R: Print + AllocGlobal>(rt: &R) -> io::Result<()> {
    println!(rt; "# a failing write leaves the beginning")?;
    let alloc = rt.alloc();
    let row = play_of(alloc, Vec::new(alloc))?;
    let mut shelf = row.shelf(alloc, row.desc_len(), 0, 4096)?;
    let mut sink = ample(MemSink::new(alloc, ROOM))?;
    sink.piece(4);
    ample(sink.fail_at(1))?;
    let status = row.status(alloc, &mut shelf, &mut sink);
    print_answer(rt, status, &sink)
}

// Prints the answer to a row whose texts are read in large pieces.
fn print_row<R: Print + AllocGlobal>(rt: &R, row: &Row) -> io::Result<()> {
    let alloc = rt.alloc();
    let mut shelf = row.shelf(alloc, row.desc_len(), row.trace_len(), 65_536)?;
    let mut sink = ample(MemSink::new(alloc, ROOM))?;
    let status = row.status(alloc, &mut shelf, &mut sink);
    print_answer(rt, status, &sink)
}

// Prints the answer to the play with a trace of so many bytes `#`.
fn print_comment<R: Print + AllocGlobal>(rt: &R, bytes: usize) -> io::Result<()> {
    let alloc = rt.alloc();
    print_row(rt, &play_of(alloc, vec![in alloc; b'#'; bytes]?)?)
}

// Prints the answer to the play of a bus whose text is so many bytes `#`.
fn print_bus<R: Print + AllocGlobal>(rt: &R, bytes: usize) -> io::Result<()> {
    let alloc = rt.alloc();
    print_row(rt, &bus_of(alloc, vec![in alloc; b'#'; bytes]?)?)
}

fn a_text_of_16777216_bytes_is_read<R: Print + AllocGlobal>(rt: &R) -> io::Result<()> {
    println!(rt; "# a text of 16777216 bytes is read")?;
    print_comment(rt, 16_777_216)
}

fn a_text_of_16777217_bytes_is_too_long<R: Print + AllocGlobal>(rt: &R) -> io::Result<()> {
    println!(rt; "# a text of 16777217 bytes is too long")?;
    print_comment(rt, 16_777_217)
}

fn the_text_of_a_bus_has_the_same_limit<R: Print + AllocGlobal>(rt: &R) -> io::Result<()> {
    println!(rt; "# the text of a bus has the same limit")?;
    print_bus(rt, 16_777_216)?;
    print_bus(rt, 16_777_217)
}

// A shelf that never fails, with the description and an empty trace.
fn sure_shelf(alloc: Global) -> Result<SureShelf, Memory> {
    let desc = Text::new(alloc, DESC)?;
    Ok(SureShelf::new(Text::new(alloc, "S")?, desc, Text::new(alloc, "")?))
}

// The status with which `serve_surely` answers words; none where they ask for a run.
fn sure_status(
    alloc: Global,
    words: &[String],
    shelf: &mut SureShelf,
    sink: &mut SureSink,
) -> Option<u8> {
    if begins_run(words) {
        return None;
    }
    let mut played = Played::Nothing;
    let status = serve_surely(alloc, words, shelf, sink, &mut played);
    played.forget();
    Some(status.code())
}

fn a_sure_outside_has_no_faults<R: Print + AllocGlobal>(rt: &R) -> io::Result<()> {
    println!(rt; "# a sure outside has no faults")?;
    let alloc = rt.alloc();
    let words = words_of(alloc, "play S T", None)?;
    let mut shelf = ample(sure_shelf(alloc))?;
    let mut sink = SureSink::new();
    match sure_status(alloc, &words, &mut shelf, &mut sink) {
        Some(status) => println!(rt; "status {status}, {} bytes", sink.bytes()),
        None => Ok(()),
    }
}

// Prints how many bytes the file of a name has, where it is read.
fn print_read<R: Files + Print + AllocGlobal>(rt: &R, name: &str) -> io::Result<()> {
    match read_text(rt.alloc(), &mut FileShelf::new(rt), name) {
        Ok(text) => println!(rt; "{name}: {} bytes", text.as_slice().len()),
        Err(_) => println!(rt; "{name}: not read"),
    }
}

fn files_are_read_by_their_paths<R: Files + Print + AllocGlobal>(rt: &R) -> io::Result<()> {
    println!(rt; "# files are read by their paths")?;
    print_read(rt, "hello.trace")?;
    print_read(rt, "no such file")
}

fn standard_output_takes_a_text<R: Print>(rt: &R) -> io::Result<()> {
    println!(rt; "# standard output takes a text")?;
    match write_text(&mut OutSink::new(rt), b"taken\n".as_slice()) {
        Ok(()) => Ok(()),
        Err(_) => println!(rt; "not taken"),
    }
}

/// Prints what these calls answer and write.
pub fn print_outsides<R: Files + Print + AllocGlobal>(rt: &R) -> io::Result<()> {
    a_failing_read_writes_nothing(rt)?;
    a_failing_write_leaves_the_beginning(rt)?;
    a_sure_outside_has_no_faults(rt)?;
    a_text_of_16777216_bytes_is_read(rt)?;
    a_text_of_16777217_bytes_is_too_long(rt)?;
    the_text_of_a_bus_has_the_same_limit(rt)?;
    files_are_read_by_their_paths(rt)?;
    standard_output_takes_a_text(rt)
}
