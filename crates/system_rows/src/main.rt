//! Plays descriptions. A row of the input is `FILE | SEED | STEPS | LINE | LINE`: a description,
//! the seed, the most steps, and the lines of a trace for it. `FILE with NAME as OTHER` stands for
//! the plan in which a domain has another name, also one that no text spells, as `@uart`, the
//! serial device's own. Several seeds, as `1 2 3`, stand for as many plays in a row of one system,
//! each by its seed and of so many steps at most. For each row one line is written: how the play
//! ended, what was sent on the line, what each serial client recorded, and how many replies each
//! block client got. Bytes are written as runs, `3*61` for 616161; where several clients speak,
//! the line is written as how often each byte stands in it, since their bytes come in any order.
//! Where a quiet play left a record or replies that the trace doesn't give the client, the line
//! says so.
//!
//! A row `network FILE | TRACE | FIRST | COUNT` stands for plays of a description with a network and
//! a trace by so many seeds from the first on, a line for each; with `| pools` behind it the line
//! has also where the buffers of each pool are.
//!
//! A row `hostile FILE | TRACE | CLASSES | FIRST | COUNT` stands for so many plays beside hostile
//! clients of these classes, whose acts are drawn by the number of the play, from the first on. The
//! line says how many were right, how many of those with ample steps got quiet, and whether there
//! were bad entries. Right is a play within its limit in which each other client's record is a
//! beginning of what the trace gives it, and so is what it sends, each all of it where the play is
//! quiet and no client of its class is hostile; in which the lines of the pools add up, what goes to
//! a driver names a buffer of a client, and of each client's no more than it put, and the disk is
//! asked for blocks of the client's own partition; and in which, where it is quiet, the buffers of
//! other clients are in queues and with them.
#![tactic(auto)]

mod blocks;
mod hostile;
mod judging;
mod naming;
mod network;
mod numbering;
mod placing;
mod playing;
mod plays;
mod scripts;
mod serial;
mod telling;

use cargo_core::Memory;
use hostile::calmed;
use plays::{Asked, Numbers, play_text};
use std::alloc::Global;
use std::{fs, io};

// The seeds that a text has.
fn seeds_of(alloc: Global, text: &str) -> Result<Vec<u64>, Memory> {
    let mut seeds = Vec::new(alloc);
    for seed in text.split(" ") {
        seeds.push(number_of(seed))?;
    }
    Ok(seeds)
}

fn number_of(word: &str) -> u64 {
    word.parse::<u64>().unwrap_or(0)
}

// Prints what plays of a description come to.
fn print_plays(
    rt: &HostRuntime,
    text: &str,
    names: Option<&str>,
    lines: &str,
    asked: Asked<'_>,
    numbers: Numbers,
) -> io::Result<()> {
    let mut told = String::new(rt.alloc());
    match play_text(rt.alloc(), &mut told, text, names, lines, asked, numbers) {
        Ok(()) => rt.print(told.as_str()),
        Err(_) => rt.println("no memory"),
    }
}

// Prints the answer at a row `FILE | SEED | STEPS | LINE | LINE`.
fn print_in_a_row(rt: &HostRuntime, name: &str, row: &str) -> io::Result<()> {
    let (seeds, rest) = row.split_once(" | ").unwrap_or((row, ""));
    let (steps, lines) = rest.split_once(" | ").unwrap_or((rest, ""));
    let (name, names) = match name.split_once(" with ") {
        Some((name, names)) => (name, Some(names)),
        None => (name, None),
    };
    let text = fs::read_to_string(rt, name)?;
    let lines = lines.replace(rt.alloc(), " | ", "\n")?;
    let Ok(seeds) = seeds_of(rt.alloc(), seeds) else {
        return rt.println("no memory");
    };
    let asked = Asked::Row(&seeds, number_of(steps));
    let once = Numbers { first: 0, count: 1 };
    print_plays(rt, text.as_str(), names, lines.as_str(), asked, once)
}

// So many numbers from the first on, by words `FIRST | COUNT`.
fn numbers_of(words: &str) -> Numbers {
    let (first, count) = words.split_once(" | ").unwrap_or((words, ""));
    Numbers {
        first: number_of(first),
        count: number_of(count),
    }
}

// Prints the answer at a row `FILE | TRACE | FIRST | COUNT`, which may have `| pools` behind it.
fn print_network(rt: &HostRuntime, name: &str, row: &str) -> io::Result<()> {
    let (row, pools) = match row.strip_suffix(" | pools") {
        Some(row) => (row, true),
        None => (row, false),
    };
    let (trace, words) = row.split_once(" | ").unwrap_or((row, ""));
    let text = fs::read_to_string(rt, name)?;
    let lines = fs::read_to_string(rt, trace)?;
    let asked = Asked::Network(pools);
    print_plays(
        rt,
        text.as_str(),
        None,
        lines.as_str(),
        asked,
        numbers_of(words),
    )
}

// Prints the answer at a row `FILE | TRACE | CLASSES | FIRST | COUNT`.
fn print_hostile(rt: &HostRuntime, name: &str, row: &str) -> io::Result<()> {
    let (trace, row) = row.split_once(" | ").unwrap_or((row, ""));
    let (classes, words) = row.split_once(" | ").unwrap_or((row, ""));
    let text = fs::read_to_string(rt, name)?;
    let lines = fs::read_to_string(rt, trace)?;
    match calmed(rt.alloc(), text.as_str(), classes) {
        Ok(calm) => print_plays(
            rt,
            calm.as_str(),
            None,
            lines.as_str(),
            Asked::Hostile,
            numbers_of(words),
        ),
        Err(_) => rt.println("no memory"),
    }
}

// Prints the answer at a row.
fn print_row(rt: &HostRuntime, row: &str) -> io::Result<()> {
    let Some((name, rest)) = row.split_once(" | ") else {
        return rt.println("no row");
    };
    if let Some(name) = name.strip_prefix("network ") {
        return print_network(rt, name, rest);
    }
    match name.strip_prefix("hostile ") {
        Some(name) => print_hostile(rt, name, rest),
        None => print_in_a_row(rt, name, rest),
    }
}

fn main(rt: HostRuntime) -> io::Result<()> {
    for line in rt.lines(rt.alloc()) {
        print_row(&rt, line?.as_str())?;
    }
    Ok(())
}
