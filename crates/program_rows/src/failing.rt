//! The program's call over an outside that fails once, at each place in turn. A table is named by
//! what fails:
//!
//! - `shelf`: a call of the shelf, which gives 16 bytes in a call
//! - `sink`: a call of the sink, which takes 4 bytes in a call
//! - `room`: the sink has room for so many bytes
//! - `description`, `trace`: that text ends behind so many bytes; in pieces of 1 and of 4,096
//! - `text`: the same of the one text of a bus or a switch
use crate::row::{ROOM, Row, ample};
use sddf_top::MemSink;
use std::alloc::Global;
use std::io;
use std::rt::Files;

// The statuses of the answers.
const OK: u8 = 0;

const REFUSED: u8 = 3;

const BAD_TRACE: u8 = 4;

const READ_FAULT: u8 = 5;

const WRITE_FAULT: u8 = 6;

// More places than any row has.
const PLACES: usize = 1_000_000;

// What the row answers where nothing fails: its status and its text.
fn right_text(alloc: Global, row: &Row) -> io::Result<Vec<u8>> {
    let mut shelf = row.shelf(alloc, row.desc_len(), row.trace_len(), 4096)?;
    let mut sink = ample(MemSink::new(alloc, ROOM))?;
    row.status(alloc, &mut shelf, &mut sink);
    Ok(sink.written().to_vec(alloc)?)
}

// Whether a call of the shelf that fails is told, and nothing written; none where no call failed.
fn is_read_fault(alloc: Global, row: &Row, call: usize) -> io::Result<Option<bool>> {
    let mut shelf = row.shelf(alloc, row.desc_len(), row.trace_len(), 16)?;
    ample(shelf.fail_at(call as u64))?;
    let mut sink = ample(MemSink::new(alloc, ROOM))?;
    match row.status(alloc, &mut shelf, &mut sink) {
        OK => Ok(None),
        status => Ok(Some(status == READ_FAULT && sink.written().is_empty())),
    }
}

// Whether a call of the sink that fails is told, and what came before it written; none where no
// call failed.
fn is_write_fault(alloc: Global, row: &Row, text: &[u8], call: usize) -> io::Result<Option<bool>> {
    let mut shelf = row.shelf(alloc, row.desc_len(), row.trace_len(), 4096)?;
    let mut sink = ample(MemSink::new(alloc, ROOM))?;
    sink.piece(4);
    ample(sink.fail_at(call as u64))?;
    match row.status(alloc, &mut shelf, &mut sink) {
        OK => Ok(None),
        status => {
            let begun = &text[..text.len().min(call.saturating_mul(4))];
            Ok(Some(status == WRITE_FAULT && sink.written() == begun))
        }
    }
}

// Whether a sink that is full is told, and a beginning written; none where it had room.
fn is_full(alloc: Global, row: &Row, text: &[u8], room: usize) -> io::Result<Option<bool>> {
    let mut shelf = row.shelf(alloc, row.desc_len(), row.trace_len(), 4096)?;
    let mut sink = ample(MemSink::new(alloc, room))?;
    match row.status(alloc, &mut shelf, &mut sink) {
        OK => Ok(None),
        status => {
            let begun = &text[..text.len().min(room)];
            Ok(Some(status == WRITE_FAULT && sink.written() == begun))
        }
    }
}

// Whether texts that end early give the same in pieces of 1 and of 4,096, and `Ok` or one other
// status alone.
fn is_cut(alloc: Global, row: &Row, desc: usize, trace: usize, other: u8) -> io::Result<bool> {
    let mut one = row.shelf(alloc, desc, trace, 1)?;
    let mut first = ample(MemSink::new(alloc, ROOM))?;
    let status = row.status(alloc, &mut one, &mut first);
    let mut many = row.shelf(alloc, desc, trace, 4096)?;
    let mut second = ample(MemSink::new(alloc, ROOM))?;
    let same = row.status(alloc, &mut many, &mut second) == status;
    Ok(same && first.written() == second.written() && (status == OK || status == other))
}

// How one case went; none behind the last.
fn case(
    alloc: Global,
    row: &Row,
    text: &[u8],
    table: &str,
    place: usize,
) -> io::Result<Option<bool>> {
    match table {
        "shelf" => is_read_fault(alloc, row, place),
        "sink" => is_write_fault(alloc, row, text, place),
        "room" => is_full(alloc, row, text, place),
        "description" if place <= row.desc_len() => {
            Ok(Some(is_cut(alloc, row, place, row.trace_len(), REFUSED)?))
        }
        "text" if place <= row.desc_len() => Ok(Some(is_cut(alloc, row, place, 0, BAD_TRACE)?)),
        "trace" if place <= row.trace_len() => {
            Ok(Some(is_cut(alloc, row, row.desc_len(), place, BAD_TRACE)?))
        }
        _ => Ok(None),
    }
}

/// Prints how many cases of a table there were, each `every`th place being one, and of how
/// many the
/// answer and all bytes that were written were the right ones.
pub fn print_cases<R: Files + Print + AllocGlobal>(
    rt: &R,
    table: &str,
    every: usize,
    line: &str,
) -> io::Result<()> {
    let row = Row::new(rt, line)?;
    let text = right_text(rt.alloc(), &row)?;
    let mut cases = 0u64;
    let mut right = 0u64;
    for place in (0..PLACES).step_by(every.max(1)) {
        let Some(is_right) = case(rt.alloc(), &row, &text, table, place)? else {
            break;
        };
        cases = cases.saturating_add(1);
        right = right.saturating_add(u64::from(is_right));
    }
    println!(rt; "{table}: {right} of {cases} are right")
}
