//! A description of the serial class, by a text in which `$N$` stands for the word N of the driver or
//! of a client. A line behind `N| ` is there where there is a client N, for which its words are.

use cargo_core::Memory;
use std::alloc::Global;

// The piece of a text at the place that a number spells, if there is one.
fn piece<'a>(text: &'a str, between: &str, place: &str) -> Option<&'a str> {
    let place = place.parse::<usize>().ok()?;
    for (k, piece) in text.split(between).enumerate() {
        if k == place {
            return Some(piece);
        }
    }
    None
}

// Adds a line with its words.
fn add_line(to: &mut String, line: &str, words: &str) -> Result<(), Memory> {
    for part in line.split("$") {
        to.push_str(piece(words, " ", part).unwrap_or(part))?;
    }
    to.push_str("\n")?;
    Ok(())
}

// Adds a line where it is there.
fn add(to: &mut String, line: &str, class: &str, clients: &str) -> Result<(), Memory> {
    match line.split_once("| ") {
        Some((client, line)) => match piece(clients, ", ", client) {
            Some(words) => add_line(to, line, words),
            None => Ok(()),
        },
        None => add_line(to, line, class),
    }
}

/// The description with these words for the driver and for the clients.
pub fn description(
    alloc: Global,
    form: &str,
    class: &str,
    clients: &str,
) -> Result<String, Memory> {
    let mut text = String::new(alloc);
    for line in form.lines() {
        add(&mut text, line, class, clients)?;
    }
    Ok(text)
}
