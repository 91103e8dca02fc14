//! The worked rows of the program.
//!
//! First it is the program itself, as `sddf_cli` is: what no contract can say of files and standard
//! output is shown by its words, whose description is longer than two pieces of reading and counts
//! to its last byte, and whose answer is longer than a pipe holds.
//!
//! Each line of standard input is the name of a row, behind `#`; the words of one, whose texts are
//! the files beside it; `COUNT | WORDS`, a play for each seed below a count, and `COUNT bad MOST |
//! WORDS` where the schedule decides how many entries are counted as bad, at most so many; `COUNT at
//! ACTORS | WORDS`, so many runs in threads behind a gate that holds each actor's first step until
//! so many have arrived there; or `TABLE EVERY | WORDS`, a table of what fails, of which each
//! EVERYth place is tried. Standard output has each name, what `serve` writes to these words, and
//! the status code; of many seeds or runs what the first one gives, and how many give the same; of
//! runs how many actors waited in vain; and of a table how many cases it has, and how many are right.
//!
//! Behind the rows come an example, and calls with other outsides.
#![tactic(auto)]

mod arrivals;
mod example;
mod failing;
mod outside;
mod row;
mod words;

use arrivals::Arrivals;
use example::{print_example, status_of};
use failing::print_cases;
use outside::print_outsides;
use sddf_top::{FileShelf, MemSink, serve_host};
use std::alloc::Global;
use std::io;
use std::rt::Files;
use std::sync::Wait;
use std::thread::Threads;
use words::words_of;

/// How many bytes the answer to a row may have.
const ROOM: usize = 8_388_608;

/// The longest line that is written whole.
const LINE: usize = 100;

// Writes the line of a pool while a play goes on: its buffers, and how many of them stand in a
// queue, in a hand or are lent.
fn add_pool(to: &mut String, line: &str) -> io::Result<()> {
    let mut total = 0u64;
    let mut words = 0u64;
    for word in line.split(' ') {
        if words > 4 {
            total = total.saturating_add(word.parse::<u64>().unwrap_or(0));
        }
        if words < 4 {
            write!(to, "{word} ")?;
        }
        words = words.saturating_add(1);
    }
    write!(to, "of {total}\n")?;
    Ok(())
}

// How many steps are written as they are. How many a play makes until it gets quiet depends on its
// schedule: above 9 the number stands as N then. After threads any number does.
fn counted_steps(is_run: bool) -> usize {
    if is_run { 0 } else { "steps 9".len() }
}

// Writes a line of an answer. A longer line than `LINE` stands as how many bytes it has.
fn add_line(
    to: &mut String,
    line: &str,
    is_quiet: bool,
    is_spent: bool,
    is_run: bool,
) -> io::Result<()> {
    if is_quiet && line.starts_with("steps ") && line.len() > counted_steps(is_run) {
        to.push_str("steps N\n")?;
    } else if is_spent && line.starts_with("pool ") {
        add_pool(to, line)?;
    } else if line.len() > LINE {
        write!(to, "a line of {} bytes\n", line.len())?;
    } else {
        write!(to, "{line}\n")?;
    }
    Ok(())
}

// Writes the lines of an answer. Of a journal behind a quiet report only the actor of the first
// step is written.
fn add_lines(to: &mut String, text: &str, is_run: bool) -> io::Result<()> {
    let is_quiet = text.starts_with("quiet\n");
    let is_spent = text.starts_with("spent\n");
    let mut is_report = true;
    for line in text.lines() {
        if !is_report {
            let actor = line.split(' ').next().unwrap_or("");
            write!(to, "the first step is by {actor}\n")?;
            return Ok(());
        }
        add_line(to, line, is_quiet, is_spent, is_run)?;
        is_report = !is_quiet || !line.starts_with("bad ");
    }
    Ok(())
}

// What these words give, with a gate before each step in a thread.
fn told<R: Threads + Wait + Sync + Files + AllocGlobal>(
    rt: &R,
    row: &str,
    seed: Option<u64>,
    gate: &Arrivals,
) -> io::Result<String> {
    let words = words_of(rt.alloc(), row, seed)?;
    let mut shelf = FileShelf::new(rt);
    let Ok(mut sink) = MemSink::new(rt.alloc(), ROOM) else {
        return Ok(String::from_str(rt.alloc(), "no memory\n")?);
    };
    let status = status_of(rt, rt.alloc(), &words, &mut shelf, &mut sink, gate);
    let mut text = String::new(rt.alloc());
    let written = std::str::from_utf8(sink.written()).unwrap_or("no text");
    add_lines(&mut text, written, row.starts_with("run "))?;
    write!(text, "status {status}\n")?;
    Ok(text)
}

// Whether a line tells how many entries were bad, and not more than this.
fn is_bad_within(line: &str, most: u64) -> bool {
    match line.strip_prefix("bad ") {
        Some(count) => count.parse::<u64>().unwrap_or(u64::MAX) <= most,
        None => false,
    }
}

// A text in which the number of bad entries stands as what it may be at most.
fn with_bad_within(alloc: Global, text: &str, most: u64) -> io::Result<String> {
    let mut to = String::new(alloc);
    for line in text.lines() {
        if is_bad_within(line, most) {
            write!(to, "bad at most {most}\n")?;
        } else {
            write!(to, "{line}\n")?;
        }
    }
    Ok(to)
}

// What these words give by a seed. Where the schedule decides how many entries are bad, that many
// at most.
fn told_by<R: Threads + Wait + Sync + Files + AllocGlobal>(
    rt: &R,
    row: &str,
    seed: u64,
    bad_most: Option<u64>,
    gate: &Arrivals,
) -> io::Result<String> {
    let text = told(rt, row, Some(seed), gate)?;
    match bad_most {
        Some(most) => with_bad_within(rt.alloc(), text.as_str(), most),
        None => Ok(text),
    }
}

// Prints what these words give for each seed below a count.
fn print_plays<R: Threads + Wait + Sync + Files + Print + AllocGlobal>(
    rt: &R,
    count: u64,
    bad_most: Option<u64>,
    row: &str,
    gate: &Arrivals,
) -> io::Result<()> {
    let first = told_by(rt, row, 0, bad_most, gate)?;
    rt.print(first.as_str())?;
    let mut same = 0u64;
    for seed in 0..count {
        let text = told_by(rt, row, seed, bad_most, gate)?;
        if text.as_str() == first.as_str() {
            same = same.saturating_add(1);
        }
    }
    println!(rt; "the same for {same} of {count} seeds")
}

// Prints what these words give in so many runs, each behind a gate that waits for so many actors.
fn print_runs<R: Threads + Wait + Sync + Files + Print + AllocGlobal>(
    rt: &R,
    count: u64,
    actors: u64,
    row: &str,
) -> io::Result<()> {
    let mut first = String::new(rt.alloc());
    let mut same = 0u64;
    let mut late = 0u64;
    for run in 0..count {
        let Ok(gate) = Arrivals::new(rt.alloc(), actors) else {
            return println!(rt; "no memory");
        };
        let text = told(rt, row, None, &gate)?;
        late = late.saturating_add(gate.late());
        if run == 0 {
            rt.print(text.as_str())?;
            first = text;
            same = 1;
        } else if text.as_str() == first.as_str() {
            same = same.saturating_add(1);
        }
    }
    println!(rt; "the same for {same} of {count} runs, in which {late} actors waited in vain")
}

// Does what a line asks for that has a head before its words; this gate holds nobody back.
fn print_many<R: Threads + Wait + Sync + Files + Print + AllocGlobal>(
    rt: &R,
    head: &str,
    row: &str,
    gate: &Arrivals,
) -> io::Result<()> {
    if let Some((runs, actors)) = head.split_once(" at ") {
        let runs = runs.parse::<u64>().unwrap_or(0);
        return print_runs(rt, runs, actors.parse::<u64>().unwrap_or(0), row);
    }
    if let Some((count, most)) = head.split_once(" bad ") {
        let count = count.parse::<u64>().unwrap_or(0);
        return print_plays(rt, count, most.parse::<u64>().ok(), row, gate);
    }
    match head.split_once(' ') {
        Some((table, every)) => print_cases(rt, table, every.parse::<usize>().unwrap_or(1), row),
        None => print_plays(rt, head.parse::<u64>().unwrap_or(0), None, row, gate),
    }
}

// Does what a line asks for; this gate holds nobody back.
fn print_row<R: Threads + Wait + Sync + Files + Print + AllocGlobal>(
    rt: &R,
    row: &str,
    gate: &Arrivals,
) -> io::Result<()> {
    if row.starts_with('#') {
        return println!(rt; "{row}");
    }
    match row.split_once(" | ") {
        Some((head, row)) => print_many(rt, head, row, gate),
        None => rt.print(told(rt, row, None, gate)?.as_str()),
    }
}

fn main(rt: HostRuntime) -> io::Result<()> {
    let status = serve_host(&rt);
    println!(rt; "status {status}")?;
    let Ok(gate) = Arrivals::new(rt.alloc(), 0) else {
        return println!(rt; "no memory");
    };
    for line in rt.lines(rt.alloc()) {
        print_row(&rt, line?.as_str(), &gate)?;
    }
    print_example(&rt)?;
    print_outsides(&rt)
}
