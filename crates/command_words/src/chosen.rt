//! The options of `play`, `i2c` and `switch` as they are read: each at most once, in any order.

ghost use Rattle.std.specs.Prelude.{◌≡◌, ◌≢◌, ◌↔◌, ◌<◌, ◌≤◌, ℕ, Option, List, Some, None, true};
ghost use Rattle.std.specs.Prelude.{false, length, IfOk, IfErr, IfSome, IfNone, unwrap_or};
ghost use Rattle.command_words.specs.Words.{texts_of};
ghost use Rattle.command_words.specs.Reading.{text_of, IsUnset, IsNumberAt, IsBadFrom, MayFollow};
ghost use Rattle.command_words.specs.Reading.{HasRead};

use crate::command::{MOST_STEPS, Options, Schedule};
use crate::name::word_at;
use crate::number::read_number;

// An option by its name.
#[derive(Clone, Copy)]
pub enum Name {
    Seed,
    Steps,
    Journal,
}

// What the options that were read so far set.
#[derive(Clone, Copy)]
pub struct Chosen {
    pub seed: Option<u64>,
    pub steps: Option<u64>,
    pub journal: bool,
}

impl Chosen {
    // No option was read.
    pub fn nothing() -> Chosen
        ensures { result ≡ record { seed = None; steps = None; journal = false } }
    {
        Chosen {
            seed: None,
            steps: None,
            journal: false,
        }
    }

    // No option was read, and the journal can't be asked for.
    pub fn without_journal() -> Chosen
        ensures { result ≡ record { seed = None; steps = None; journal = true } }
    {
        Chosen {
            seed: None,
            steps: None,
            journal: true,
        }
    }

    // What seed and limit set.
    pub fn schedule(&self) -> Schedule
        ensures { result ≡ record {
          seed = unwrap_or self.now.seed 0;
          steps = self.now.steps;
        } }
    {
        let seed = self.seed.unwrap_or(0);
        Schedule {
            seed,
            steps: self.steps,
        }
    }

    // What all options set.
    pub fn options(&self) -> Options
        ensures { result ≡ record {
          seed = unwrap_or self.now.seed 0;
          steps = self.now.steps;
          journal = self.now.journal;
        } }
    {
        Options {
            seed: self.seed.unwrap_or(0),
            steps: self.steps,
            journal: self.journal,
        }
    }

    // Reads the option at a place, and gives the place behind it, or that of the first bad word.
    pub fn read(&mut self, words: &[String], at: usize) -> Result<usize, usize>
        requires { at < length words.now }
        ensures ok { IfOk result (HasRead self.old self.new (texts_of words.now) at) }
        ensures err { IfErr result (IsBadFrom at (MayFollow self.old) (texts_of words.now)) }
    {
        match self.unset(word_at(words, at)) {
            None => Err(at),
            Some(Name::Seed) => {
                let Some(seed) = number_at(words, at + 1, 0, u64::MAX) else {
                    return Err(at + 1);
                };
                self.seed = Some(seed);
                Ok(at + 2)
            }
            Some(Name::Steps) => {
                let Some(steps) = number_at(words, at + 1, 1, MOST_STEPS) else {
                    return Err(at + 1);
                };
                self.steps = Some(steps);
                Ok(at + 2)
            }
            Some(Name::Journal) => {
                self.journal = true;
                Ok(at + 1)
            }
        }
    }

    // The option that a word names, where it wasn't set yet.
    fn unset(&self, word: &str) -> Option<Name>
        ensures some { IfSome result (λ name. (word.now ≡ text_of name) × IsUnset name self.now) }
        ensures none { IfNone result ((name : Name) → IsUnset name self.now
            → word.now ≢ text_of name) }
    {
        if word == "--seed" && self.seed.is_none() {
            return Some(Name::Seed);
        }
        if word == "--steps" && self.steps.is_none() {
            return Some(Name::Steps);
        }
        if word == "--journal" && !self.journal {
            return Some(Name::Journal);
        }
        None
    }
}

/// The number within limits that the word at a place spells, in decimal without leading zeros.
pub fn number_at(words: &[String], at: usize, least: u64, most: u64) -> Option<u64>
    ensures some { IfSome result (IsNumberAt (texts_of words.now) at least most) }
    ensures none { IfNone result ((n : ℕ) → IsNumberAt (texts_of words.now) at least most n → ⊥) }
{
    if at >= words.len() {
        return None;
    }
    let number = read_number(word_at(words, at))?;
    if number < least || most < number {
        return None;
    }
    Some(number)
}
