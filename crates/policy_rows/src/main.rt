//! Plays of the serial class under mixed policies: each record is told by the journal.
//!
//! A row `FIRST COUNT | CLASS | CLIENT, CLIENT | LINE | LINE` of standard input stands for so many
//! plays, by seeds from the first on, with a trace of these lines. The description is
//! `data/serial.txt` with the words of the row: CLASS is `RX TX`, the places of the driver's queues,
//! and CLIENT is `RX TX PROGRAM POLICY`, with the policy as a line of a description. Its answer is
//! how many plays were right, how many got quiet, whether a byte was dropped in any, and of each
//! client how many bytes it recorded, at least and at most, of those that the trace gives it.
//!
//! A play is right where each record is a part, in order, of what the trace gives its client, and a
//! beginning of what is left of that without the bytes that were dropped: a byte was, if its client
//! has the policy `drop` and a look for room in its queue answered no, by the journal. Likewise each
//! client's bytes on the line are a beginning of those that it says, and a hostile client records
//! nothing. In a quiet play a record and what is said are all of it, if no client is hostile, or
//! such a one drops.
//!
//! A row `drawn FIRST COUNT` stands for as many plays, of which the clients with their policies, the
//! trace and the seed are drawn by a number; in each third one clients may be hostile, and each third
//! one has a limit of steps that it may meet. Where no client is hostile, the others must get quiet
//! within their budget. A row behind `#` is the name of the next ones.
#![tactic(auto)]

mod describing;
mod drawing;
mod judging;
mod marks;
mod playing;
mod tally;
mod watching;

use cargo_core::Memory;
use describing::description;
use drawing::{Draws, draw_clients, draw_lines};
use playing::{Seeds, play_text};
use std::alloc::Global;
use std::{fs, io};
use tally::Tally;

// Plays a row's description and trace; where it is refused, it answers so.
fn play_row(
    alloc: Global,
    form: &str,
    class: &str,
    clients: &str,
    lines: &str,
    seeds: Seeds,
    tally: &mut Tally,
) -> Result<bool, Memory> {
    let text = description(alloc, form, class, clients)?;
    play_text(alloc, text.as_str(), lines, seeds, tally)
}

// Plays what a number draws; a description that is refused is wrong.
fn play_drawn(
    alloc: Global,
    form: &str,
    acts: &[&str],
    number: u64,
    tally: &mut Tally,
) -> Result<(), Memory> {
    let mut draws = Draws { x: number };
    let class = draws.word(&["1 1", "2 4", "8 2", "16 16"]);
    let clients = draw_clients(alloc, &mut draws, number % 3 == 1)?;
    let lines = draw_lines(alloc, &mut draws, acts, clients.as_str())?;
    let seeds = Seeds {
        first: number,
        count: 1,
        limited: number % 3 == 2,
    };
    if !play_row(
        alloc,
        form,
        class,
        clients.as_str(),
        lines.as_str(),
        seeds,
        tally,
    )? {
        tally.add(number, false);
    }
    Ok(())
}

// The seeds that words spell.
fn seeds_of(words: &str) -> Seeds {
    let (first, count) = words.split_once(" ").unwrap_or((words, "1"));
    Seeds {
        first: first.parse::<u64>().unwrap_or(0),
        count: count.parse::<u64>().unwrap_or(0),
        limited: false,
    }
}

// Plays what so many numbers draw.
fn play_all_drawn(
    alloc: Global,
    form: &str,
    acts: &str,
    seeds: Seeds,
    tally: &mut Tally,
) -> Result<(), Memory> {
    let acts: Vec<&str> = acts.lines().collect(alloc)?;
    for k in 0..seeds.count {
        play_drawn(alloc, form, &acts, seeds.first.saturating_add(k), tally)?;
    }
    Ok(())
}

// Prints how many bytes a client recorded.
fn print_client(rt: &HostRuntime, tally: &Tally, client: usize) -> io::Result<()> {
    let Some(range) = tally.ranges.get(client) else {
        return Ok(());
    };
    print!(rt; " client {client} {}", range.least)?;
    if range.least < range.most {
        print!(rt; " to {}", range.most)?;
    }
    print!(rt; " of {}", range.came)
}

// Prints what plays came to, and of so many clients how many bytes they recorded.
fn print_tally(rt: &HostRuntime, tally: &Tally, clients: usize) -> io::Result<()> {
    print!(rt; "{} of {} right, ", tally.right, tally.plays)?;
    print!(rt; "{} of {} quiet", tally.quiet, tally.ample)?;
    if tally.dropped {
        rt.print(", with drops")?;
    }
    if let Some(number) = tally.wrong {
        print!(rt; ", and {number} is wrong")?;
    }
    for client in 0..clients {
        print_client(rt, tally, client)?;
    }
    rt.println("")
}

// Prints the answer at a row of drawn plays.
fn print_drawn(rt: &HostRuntime, form: &str, words: &str) -> io::Result<()> {
    let acts = fs::read_to_string(rt, "acts.txt")?;
    let mut tally = Tally::new();
    match play_all_drawn(rt.alloc(), form, acts.as_str(), seeds_of(words), &mut tally) {
        Ok(()) => print_tally(rt, &tally, 0),
        Err(_) => rt.println("no memory"),
    }
}

// Prints the answer at a row.
fn print_row(rt: &HostRuntime, form: &str, row: &str) -> io::Result<()> {
    if let Some(words) = row.strip_prefix("drawn ") {
        return print_drawn(rt, form, words);
    }
    let Some((seeds, rest)) = row.split_once(" | ") else {
        return rt.println(row);
    };
    let Some((class, rest)) = rest.split_once(" | ") else {
        return rt.println("no row");
    };
    let (clients, lines) = rest.split_once(" | ").unwrap_or((rest, ""));
    let lines = lines.replace(rt.alloc(), " | ", "\n")?;
    let mut tally = Tally::new();
    let played = play_row(
        rt.alloc(),
        form,
        class,
        clients,
        lines.as_str(),
        seeds_of(seeds),
        &mut tally,
    );
    match played {
        Ok(true) => print_tally(rt, &tally, clients.split(", ").count()),
        Ok(false) => rt.println("refused"),
        Err(_) => rt.println("no memory"),
    }
}

fn main(rt: HostRuntime) -> io::Result<()> {
    let form = fs::read_to_string(&rt, "serial.txt")?;
    for line in rt.lines(rt.alloc()) {
        print_row(&rt, form.as_str(), line?.as_str())?;
    }
    Ok(())
}
