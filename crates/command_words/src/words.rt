//! The reading of all words, command by command.

ghost use Rattle.std.specs.Prelude.{◌≡◌, ◌↔◌, ◌<◌, ◌≤◌, ℕ, List, Ok, Err, length, drop, OnOk, IfOk};
ghost use Rattle.std.specs.Prelude.{IfErr, IsTrue};
ghost use Rattle.command_words.specs.Options.{IsLimit};
ghost use Rattle.command_words.specs.Words.{texts_of, Spells, IsBadWord, BeginsRun, last_name};
ghost use Rattle.command_words.specs.Reading.{IsBadFrom, IsOneName, IsTheNumber, IsOneNumber};
ghost use Rattle.command_words.specs.Reading.{AreNamed, IsBadName, AsksToPlay, MayAskToPlay};
ghost use Rattle.command_words.specs.Reading.{AsksToRun, MayAskToRun, OptionsAre, MayBeOptions};
ghost use Rattle.command_words.specs.Reading.{MayBeLimit, AsksAlone, MayAskAlone, ScheduleIs};
ghost use Rattle.command_words.specs.Reading.{MayBeSchedule, Follow, MayFollow};

use crate::chosen::{Chosen, number_at};
use crate::command::{Command, MOST_STEPS, Options, Schedule};
use crate::name::{is_name_at, is_word, word_at};

/// The command that the words spell, or the place of the first bad word: the least place such that
/// no command begins with the words up to it, or the number of the words where a command begins
/// with all of them and they are none.
///
/// An option's number that is none, or past its limits, is the bad word; of an option that stands
/// there twice the second name is.
pub fn read_words(words: &[String]) -> Result<Command, u32>
    ensures command { IfOk result (Spells (texts_of words.now)) }
    ensures bad { IfErr result (IsBadWord (texts_of words.now)) }
    // Words spell one command at most, and have a bad word exactly where they spell none.
    ensures unique { (command : Command) → Spells (texts_of words.now) command
        → result ≡ Ok command }
    ensures bad_unique { (k : ℕ) → IsBadWord (texts_of words.now) k → result ≡ Err k }
    ensures names { IfOk result (λ command. last_name command < length words.now) }
{
    match read_command(words) {
        Ok(command) => Ok(command),
        Err(place) => Err(place as u32),
    }
}

/// Whether the first word is `run`.
pub fn begins_run(words: &[String]) -> bool
    ensures { IsTrue result ↔ BeginsRun (texts_of words.now) }
{
    !words.is_empty() && is_word(word_at(words, 0), "run")
}

// The command that the words spell, or the place of the first bad word.
fn read_command(words: &[String]) -> Result<Command, usize>
    ensures command { IfOk result (Spells (texts_of words.now)) }
    ensures bad { IfErr result (IsBadWord (texts_of words.now)) }
{
    if words.is_empty() {
        return Err(0);
    }
    let name = word_at(words, 0);
    if is_word(name, "check") {
        read_name(words)?;
        return Ok(Command::Check);
    }
    if is_word(name, "layout") {
        read_name(words)?;
        return Ok(Command::Layout);
    }
    if is_word(name, "play") {
        return Ok(Command::Play(read_play(words)?));
    }
    if is_word(name, "run") {
        return Ok(Command::Run(read_run(words)?));
    }
    if is_word(name, "gen") {
        return Ok(Command::Gen(read_one_number(words)?));
    }
    if is_word(name, "i2c") {
        return Ok(Command::I2c(read_one_text(words)?));
    }
    if is_word(name, "switch") {
        return Ok(Command::Switch(read_one_text(words)?));
    }
    Err(0)
}

// Reads the one number behind the first word.
fn read_one_number(words: &[String]) -> Result<u64, usize>
    ensures ok { IfOk result (IsTheNumber (drop 1 (texts_of words.now))) }
    ensures err { IfErr result (IsBadFrom 1 IsOneNumber (texts_of words.now)) }
{
    let Some(number) = number_at(words, 1, 0, u64::MAX) else {
        return Err(1);
    };
    if words.len() != 2 {
        return Err(2);
    }
    Ok(number)
}

// Reads the one name behind the first word.
fn read_name(words: &[String]) -> Result<(), usize>
    ensures ok { OnOk result (IsOneName (drop 1 (texts_of words.now))) }
    ensures err { IfErr result (IsBadFrom 1 IsOneName (texts_of words.now)) }
{
    if !is_name_at(words, 1) {
        return Err(1);
    }
    if words.len() > 2 {
        return Err(2);
    }
    Ok(())
}

// Reads what stands behind `i2c` or `switch`: one name and a schedule.
fn read_one_text(words: &[String]) -> Result<Schedule, usize>
    ensures ok { IfOk result (AsksAlone (drop 1 (texts_of words.now))) }
    ensures err { IfErr result (IsBadFrom 1 MayAskAlone (texts_of words.now)) }
{
    if !is_name_at(words, 1) {
        return Err(1);
    }
    read_schedule(words)
}

// Reads what stands behind `play`: two names and options.
fn read_play(words: &[String]) -> Result<Options, usize>
    ensures ok { IfOk result (AsksToPlay (drop 1 (texts_of words.now))) }
    ensures err { IfErr result (IsBadFrom 1 MayAskToPlay (texts_of words.now)) }
{
    read_names(words)?;
    read_options(words)
}

// Reads what stands behind `run`: two names and a limit.
fn read_run(words: &[String]) -> Result<Option<u64>, usize>
    ensures ok { IfOk result (AsksToRun (drop 1 (texts_of words.now))) }
    ensures err { IfErr result (IsBadFrom 1 MayAskToRun (texts_of words.now)) }
{
    read_names(words)?;
    read_limit(words)
}

/// Reads the names of a description and a trace, which stand behind the first word. The only error
/// is the place of the first that is none.
pub fn read_names(words: &[String]) -> Result<(), usize>
    ensures ok { OnOk result (AreNamed (texts_of words.now)) }
    ensures err { IfErr result (IsBadName (texts_of words.now)) }
{
    if !is_name_at(words, 1) {
        return Err(1);
    }
    if !is_name_at(words, 2) {
        return Err(2);
    }
    Ok(())
}

// Reads the options of `play`, which stand behind three words.
fn read_options(words: &[String]) -> Result<Options, usize>
    requires { 3 ≤ length words.now }
    ensures ok { IfOk result (OptionsAre (drop 3 (texts_of words.now))) }
    ensures err { IfErr result (IsBadFrom 3 MayBeOptions (texts_of words.now)) }
{
    let chosen = read_chosen(words, 3, Chosen::nothing())?;
    Ok(chosen.options())
}

// Reads a schedule, which stands behind two words.
fn read_schedule(words: &[String]) -> Result<Schedule, usize>
    requires { 2 ≤ length words.now }
    ensures ok { IfOk result (ScheduleIs (drop 2 (texts_of words.now))) }
    ensures err { IfErr result (IsBadFrom 2 MayBeSchedule (texts_of words.now)) }
{
    let chosen = read_chosen(words, 2, Chosen::without_journal())?;
    Ok(chosen.schedule())
}

// Reads all options from a place on, behind those that count as chosen.
fn read_chosen(words: &[String], from: usize, first: Chosen) -> Result<Chosen, usize>
    requires { from ≤ length words.now }
    ensures ok { IfOk result (Follow first (drop from (texts_of words.now))) }
    ensures err { IfErr result (IsBadFrom from (MayFollow first) (texts_of words.now)) }
{
    let mut chosen = first;
    let mut at = from;
    while at < words.len() {
        at = chosen.read(words, at)?;
    }
    Ok(chosen)
}

// Reads the limit of `run`, which stands behind three words, where it is there.
fn read_limit(words: &[String]) -> Result<Option<u64>, usize>
    requires { 3 ≤ length words.now }
    ensures ok { IfOk result (IsLimit (drop 3 (texts_of words.now))) }
    ensures err { IfErr result (IsBadFrom 3 MayBeLimit (texts_of words.now)) }
{
    if words.len() == 3 {
        return Ok(None);
    }
    if !is_word(word_at(words, 3), "--steps") {
        return Err(3);
    }
    let Some(steps) = number_at(words, 4, 1, MOST_STEPS) else {
        return Err(4);
    };
    if words.len() != 5 {
        return Err(5);
    }
    Ok(Some(steps))
}
