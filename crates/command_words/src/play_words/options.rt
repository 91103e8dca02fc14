//! The options of a play that is drawn: each at most once, in any order.
ghost use Rattle.std.specs.Prelude.{◌≡◌, ◌≢◌, ◌<◌, ℕ, List, Some, None, IfOk, IfErr, IfSome, IfNone};
ghost use Rattle.std.specs.Prelude.{length, slice_get};
ghost use Rattle.command_words.specs.Words.{texts_of};
ghost use Rattle.command_words.specs.Reading.{IsBadFrom};
ghost use Rattle.command_words.specs.PlayWords.Words.{text_of, takes_number, least_of, most_of, same_name};
ghost use Rattle.command_words.specs.PlayWords.Words.{number_of, AreFit};
ghost use Rattle.command_words.specs.PlayWords.Reading.{MayFollow, HasRead};

use crate::{MOST_STEPS, number_at, word_at};

/// An option by its name.
#[derive(Clone, Copy, Debug, PartialEq, Eq)]
pub enum Name {
    /// `--seed N`: the seed of the picks, below 2^64.
    Seed,
    /// `--steps N`: the limit of steps, from 1 to `MOST_STEPS`.
    Steps,
    /// `--from N`: the first step that is drawn.
    From,
    /// `--to N`: the step up to which is drawn, which isn't drawn itself.
    To,
    /// `--counts`: how full the queues are is drawn.
    Counts,
}

/// An option, with the number that it takes; 0 where it takes none.
#[derive(Clone, Copy, Debug, PartialEq, Eq)]
pub struct Setting {
    pub name: Name,
    pub number: u64,
}

// The word by which an option is named.
fn text_of(name: Name) -> &'static str
    ensures { result.now ≡ text_of name }
{
    match name {
        Name::Seed => "--seed",
        Name::Steps => "--steps",
        Name::From => "--from",
        Name::To => "--to",
        Name::Counts => "--counts",
    }
}

// Whether it takes a number.
fn takes_number(name: Name) -> bool
    ensures { result ≡ takes_number name }
{
    match name {
        Name::Counts => false,
        _ => true,
    }
}

// The least number that it takes.
fn least_of(name: Name) -> u64
    ensures { result ≡ least_of name }
{
    match name {
        Name::Steps => 1,
        _ => 0,
    }
}

// The greatest.
fn most_of(name: Name) -> u64
    ensures { result ≡ most_of name }
{
    match name {
        Name::Steps => MOST_STEPS,
        Name::Counts => 0,
        _ => u64::MAX,
    }
}

// Whether two options have one name.
fn same_name(a: Name, b: Name) -> bool
    ensures { result ≡ same_name a b }
{
    text_of(a) == text_of(b)
}

/// The number of the option of a name, where it stands among these.
pub fn number_of(settings: &[Setting], name: Name) -> Option<u64>
    ensures { result ≡ number_of name settings.now }
{
    for setting in settings {
        if same_name(setting.name, name) {
            return Some(setting.number);
        }
    }
    None
}

// The option that a word names.
fn named(word: &str) -> Option<Name>
    ensures some { IfSome result (λ name. word.now ≡ text_of name) }
    ensures none { IfNone result ((name : Name) → word.now ≢ text_of name) }
{
    if word == "--seed" {
        return Some(Name::Seed);
    }
    if word == "--steps" {
        return Some(Name::Steps);
    }
    if word == "--from" {
        return Some(Name::From);
    }
    if word == "--to" {
        return Some(Name::To);
    }
    if word == "--counts" {
        return Some(Name::Counts);
    }
    None
}

// The option that the word at a place names, where it doesn't stand among these yet.
fn unset(words: &[String], at: usize, settings: &[Setting]) -> Option<Name>
    requires { at < length words.now }
    ensures some { IfSome result (λ name. (slice_get (texts_of words.now) at ≡ Some (text_of name))
        × (number_of name settings.now ≡ None)) }
    ensures none { IfNone result ((name : Name)
        → slice_get (texts_of words.now) at ≡ Some (text_of name)
        → number_of name settings.now ≢ None) }
{
    let name = named(word_at(words, at))?;
    if number_of(settings, name).is_some() {
        return None;
    }
    Some(name)
}

/// Reads the option at a place, behind others that were read, and gives it and the place behind it,
/// or the place of the first bad word.
pub fn read_setting(
    words: &[String],
    at: usize,
    settings: &[Setting],
) -> Result<(Setting, usize), usize>
    requires inside { at < length words.now }
    requires fit { AreFit settings.now }
    ensures ok { IfOk result (λ read. HasRead settings.now (texts_of words.now) at
        read.0 read.1) }
    ensures err { IfErr result (IsBadFrom at (MayFollow settings.now) (texts_of words.now)) }
{
    let Some(name) = unset(words, at, settings) else {
        return Err(at);
    };
    if !takes_number(name) {
        return Ok((Setting { name, number: 0 }, at + 1));
    }
    let Some(number) = number_at(words, at + 1, least_of(name), most_of(name)) else {
        return Err(at + 1);
    };
    Ok((Setting { name, number }, at + 2))
}
