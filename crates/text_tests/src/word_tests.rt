//! Words with their commands and their first bad words.

use command_words::{Command, Options, Schedule, read_words};
use std::alloc::Global;
use std::test::Fail;

// What words ask for that are parted by a space, or the place of the first bad one.
fn read(alloc: Global, all: &str) -> Result<Result<Command, u32>, Fail> {
    let mut words = Vec::new(alloc);
    if !all.is_empty() {
        for word in all.split(' ') {
            words.push(String::from_str(alloc, word)?)?;
        }
    }
    Ok(read_words(&words))
}

fn play(seed: u64, steps: Option<u64>, journal: bool) -> Result<Command, u32> {
    Ok(Command::Play(Options {
        seed,
        steps,
        journal,
    }))
}

#[test]
fn the_first_bad_word_is_told(rt: HostRuntime) -> Result<(), Fail> {
    for (words, place) in [
        ("", 0),
        ("play S", 2),
        ("check S x", 2),
        ("play S T --seed", 4),
        ("gen", 1),
        ("gen 01", 1),
        ("gen 18446744073709551616", 1),
        ("gen 1 --seed", 2),
        ("play S T --steps 0", 4),
        ("play S T --seed 1 --seed 2", 5),
        ("run S", 2),
        ("run S T --seed 1", 3),
        ("run S T --steps 0", 4),
        ("run S T --steps 9 --journal", 5),
        ("i2c", 1),
        ("i2c --seed", 1),
        ("i2c T U", 2),
        ("i2c T --journal", 2),
        ("i2c T --seed 1 --journal", 4),
        ("i2c T --steps 0", 3),
        ("switch", 1),
        ("switch T --seed", 3),
        ("switch T --steps 9 --steps 9", 4),
        ("i2", 0),
    ] {
        assert!(rt; read(rt.alloc(), words)? == Err(place), "{words}");
    }
    Ok(())
}

fn schedule(seed: u64, steps: Option<u64>) -> Schedule {
    Schedule { seed, steps }
}

// A run has a limit alone, the options of a play stand in any order, and a bus and a switch have
// one text and no journal.
#[test]
fn words_ask_for_commands(rt: HostRuntime) -> Result<(), Fail> {
    for (words, command) in [
        ("run S T", Ok(Command::Run(None))),
        ("run S T --steps 9", Ok(Command::Run(Some(9)))),
        ("gen 7", Ok(Command::Gen(7))),
        ("layout S", Ok(Command::Layout)),
        ("i2c T", Ok(Command::I2c(schedule(0, None)))),
        (
            "i2c T --steps 9 --seed 7",
            Ok(Command::I2c(schedule(7, Some(9)))),
        ),
        ("switch T --seed 7", Ok(Command::Switch(schedule(7, None)))),
        ("play S T", play(0, None, false)),
        (
            "play S T --seed 7 --steps 9 --journal",
            play(7, Some(9), true),
        ),
        (
            "play S T --journal --steps 9 --seed 7",
            play(7, Some(9), true),
        ),
    ] {
        assert!(rt; read(rt.alloc(), words)? == command, "{words}");
    }
    Ok(())
}
