//! Clients of the serial class and traces for them, drawn by a number. A client has any program of
//! its class, small queues, and any policy or none.
ghost use Rattle.std.specs.Prelude.{◌<◌};

use cargo_core::Memory;
use std::alloc::Global;
use wire_core::{next_seed, place_of};

/// The words for the places of a queue.
const PLACES: [&str; 5] = ["1", "2", "4", "8", "16"];

/// The words for policies, of which half is `drop`; behind `#` stands none.
const POLICIES: [&str; 4] = ["#", "policy=\"hold\"", "policy=\"drop\"", "policy=\"drop\""];

/// Numbers that are drawn one after another.
#[derive(Clone, Copy)]
pub struct Draws {
    pub x: u64,
}

impl Draws {
    // The next number below a count.
    fn below(&mut self, count: usize) -> usize
        requires { 0 < count }
        ensures { result < count }
    {
        self.x = next_seed(self.x);
        place_of(self.x, count)
    }

    /// The next of some words.
    pub fn word<'a>(&mut self, words: &[&'a str]) -> &'a str {
        if words.is_empty() {
            return "";
        }
        words[self.below(words.len())]
    }

    fn program(&mut self, hostile: bool) -> &'static str {
        if hostile {
            self.word(&["serial_reader", "serial_speaker", "serial_rogue"])
        } else {
            self.word(&["serial_reader", "serial_speaker"])
        }
    }
}

/// The words of one to eight clients.
pub fn draw_clients(alloc: Global, draws: &mut Draws, hostile: bool) -> Result<String, Memory> {
    let mut text = String::new(alloc);
    for k in 0..draws.below(8) + 1 {
        if k > 0 {
            text.push_str(", ")?;
        }
        let (rx, tx) = (draws.word(&PLACES), draws.word(&PLACES));
        let program = draws.program(hostile);
        let policy = draws.word(&POLICIES);
        write!(text, "{rx} {tx} {program} {policy}")?;
    }
    Ok(text)
}

// A line of input that selects a client, which may be one that isn't there, and one of bytes that
// follow one another, among them those that select.
fn add_input(to: &mut String, draws: &mut Draws) -> Result<(), Memory> {
    write!(to, "in 1c3{}0d\nin ", draws.below(9))?;
    let first = draws.below(256);
    for k in 0..draws.below(48) + 1 {
        write!(to, "{:02x}", first.saturating_add(k) % 256)?;
    }
    to.push_str("\n")?;
    Ok(())
}

// What a client says, if it is one that speaks, and the acts of a hostile one. No two of them say
// the same byte, and none is one that an act puts.
fn add_client(
    to: &mut String,
    draws: &mut Draws,
    acts: &[&str],
    words: &str,
    client: usize,
) -> Result<(), Memory> {
    if words.contains("serial_speaker") {
        let times = draws.below(24) + 1;
        let byte = client.saturating_add(97);
        write!(to, "say {client} {times}*{byte:02x}\n")?;
    }
    if words.contains("serial_rogue") {
        for _ in 0..draws.below(48) {
            let act = draws.word(acts);
            write!(to, "rogue serial {client} {act}\n")?;
        }
    }
    Ok(())
}

/// The lines of a trace for clients with these words.
pub fn draw_lines(
    alloc: Global,
    draws: &mut Draws,
    acts: &[&str],
    clients: &str,
) -> Result<String, Memory> {
    let mut text = String::new(alloc);
    for _ in 0..draws.below(8) {
        add_input(&mut text, draws)?;
    }
    for (client, words) in clients.split(", ").enumerate() {
        add_client(&mut text, draws, acts, words, client)?;
    }
    Ok(text)
}
