//! The words of a play that is drawn: `play` or `html`, the names of a description and a trace, and
//! options.
ghost use Rattle.std.specs.Prelude.{◌≡◌, ◌≤◌, ◌++◌, IfOk, IfErr, OnOk, length, drop};
ghost use Rattle.command_words.specs.Words.{texts_of};
ghost use Rattle.command_words.specs.Reading.{IsBadFrom};
ghost use Rattle.command_words.specs.PlayWords.Words.{Spells, IsBadWord, IsKind};
ghost use Rattle.command_words.specs.PlayWords.Words.{main_words, number_words};
ghost use Rattle.command_words.specs.PlayWords.Reading.{OptionsAre, MayBeOptions, MayAsk, Asks};

use crate::play_words::options::{Name, Setting, number_of, read_setting};
use crate::{is_word, read_names, word_at};
use cargo_core::{Memory, Series};
use std::alloc::Global;

/// What is drawn of a play: a page, or a picture alone; and the options, in the order in which they
/// stand.
#[derive(Debug, Drop)]
pub struct Drawing {
    pub page: bool,
    pub settings: Series<Setting>,
}

// Whether a page is asked for by the first word, or a picture alone.
fn read_kind(words: &[String]) -> Result<bool, usize>
    ensures ok { IfOk result (IsKind (texts_of words.now)) }
    ensures err { IfErr result (IsBadWord (texts_of words.now)) }
{
    if words.is_empty() {
        return Err(0);
    }
    let word = word_at(words, 0);
    if is_word(word, "play") {
        return Ok(false);
    }
    if is_word(word, "html") {
        return Ok(true);
    }
    Err(0)
}

// Reads the options, which stand behind three words.
fn read_options(alloc: Global, words: &[String]) -> Result<Result<Series<Setting>, usize>, Memory>
    requires { 3 ≤ length words.now }
    ensures ok { IfOk result (λ read. IfOk read
        (OptionsAre (drop 3 (texts_of words.now)))) }
    ensures err { IfOk result (λ read. IfErr read
        (IsBadFrom 3 MayBeOptions (texts_of words.now))) }
{
    let mut settings = Series::new(alloc);
    let mut at = 3;
    while at < words.len() {
        match read_setting(words, at, settings.as_slice()) {
            Ok((setting, next)) => {
                settings.push(setting)?;
                at = next;
            }
            Err(place) => return Ok(Err(place)),
        }
    }
    Ok(Ok(settings))
}

// Reads what stands behind the first word: two names and options.
fn read_behind(alloc: Global, words: &[String]) -> Result<Result<Series<Setting>, usize>, Memory>
    ensures ok { IfOk result (λ read. IfOk read
        (Asks (drop 1 (texts_of words.now)))) }
    ensures err { IfOk result (λ read. IfErr read
        (IsBadFrom 1 MayAsk (texts_of words.now))) }
{
    if let Err(place) = read_names(words) {
        return Ok(Err(place));
    }
    read_options(alloc, words)
}

// What the words ask for, or the place of the first bad word.
fn read_all(alloc: Global, words: &[String]) -> Result<Result<Drawing, usize>, Memory>
    ensures ok { IfOk result (λ read. IfOk read (Spells (texts_of words.now))) }
    ensures err { IfOk result (λ read. IfErr read (IsBadWord (texts_of words.now))) }
{
    let page = match read_kind(words) {
        Ok(page) => page,
        Err(place) => return Ok(Err(place)),
    };
    match read_behind(alloc, words)? {
        Ok(settings) => Ok(Ok(Drawing { page, settings })),
        Err(place) => Ok(Err(place)),
    }
}

/// What the words ask for, or the place of the first bad word, counted from 0: the least place such
/// that neither form begins with the words up to it, or the number of the words where a form begins
/// with all of them and they are none.
pub fn read_drawing(alloc: Global, words: &[String]) -> Result<Result<Drawing, u32>, Memory>
    ensures ok { IfOk result (λ read. IfOk read (Spells (texts_of words.now))) }
    ensures err { IfOk result (λ read. IfErr read (IsBadWord (texts_of words.now))) }
{
    match read_all(alloc, words)? {
        Ok(drawing) => Ok(Ok(drawing)),
        Err(place) => Ok(Err(place as u32)),
    }
}

// Appends the words of an option of the main program, where it is set.
fn add_option(
    alloc: Global,
    main: &mut Vec<String>,
    name: &str,
    number: Option<u64>,
) -> Result<(), Memory>
    ensures { OnOk result (texts_of main.new.items
        ≡ texts_of main.old.items ++ number_words name.now number) }
{
    if let Some(number) = number {
        main.push(String::from_str(alloc, name)?)?;
        main.push(format!(in alloc; "{number}")?)?;
    }
    Ok(())
}

/// The words by which the main program plays the same: `play`, the two names, and the seed and the
/// limit of steps where they are set.
pub fn main_words(
    alloc: Global,
    words: &[String],
    settings: &[Setting],
) -> Result<Vec<String>, Memory>
    requires { 3 ≤ length words.now }
    ensures { IfOk result (λ main. texts_of main.items
        ≡ main_words (texts_of words.now) settings.now) }
{
    let mut main = Vec::new(alloc);
    main.push(String::from_str(alloc, "play")?)?;
    main.push(String::from_str(alloc, word_at(words, 1))?)?;
    main.push(String::from_str(alloc, word_at(words, 2))?)?;
    add_option(alloc, &mut main, "--seed", number_of(settings, Name::Seed))?;
    add_option(
        alloc,
        &mut main,
        "--steps",
        number_of(settings, Name::Steps),
    )?;
    Ok(main)
}
