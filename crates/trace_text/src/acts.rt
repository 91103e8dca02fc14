//! The acts of hostile clients, as the words of their lines say them.
ghost use Rattle.std.specs.Prelude.{◌≡◌, ◌∷◌, [], ℕ, List, MatchOption};
ghost use Rattle.trace_text.specs.Events.{number_where, is_input, is_output, is_queue, is_value};
ghost use Rattle.trace_text.specs.Events.{is_place, word_named, take_said, put_said, give_said};
ghost use Rattle.trace_text.specs.Events.{store_said, act_said};
ghost use Rattle.line_text.specs.Texts.{words_of};

use crate::class::{Class, inputs_of};
use cargo_core::{Act, Word};
use line_text::{read_below, read_number, same_text, split_once};

/// How many places there may be among what a hostile client keeps.
const PLACES: u64 = 4294967296;

// The act that words say; None where they say none.
pub fn read_act(class: Class, words: &[u8]) -> Option<Act>
    ensures { result ≡ act_said class (words_of words.now) }
{
    let (name, rest) = split_once(words, b' ')?;
    if same_text(name, "take") {
        return read_take(class, rest);
    }
    if same_text(name, "put") {
        return read_put(class, rest);
    }
    if same_text(name, "give") {
        return read_give(class, rest);
    }
    if same_text(name, "store") {
        return read_store(class, rest);
    }
    None
}

// `take K`
fn read_take(class: Class, words: &[u8]) -> Option<Act>
    ensures { result ≡ take_said class (words_of words.now) }
{
    match split_once(words, b' ') {
        Some(_) => None,
        None => Some(Act::Take(read_input(class, words)?)),
    }
}

// `put K A L`
fn read_put(class: Class, words: &[u8]) -> Option<Act>
    ensures { result ≡ put_said class (words_of words.now) }
{
    let (queue, address, long) = three_words(words)?;
    let queue = read_output(class, queue)?;
    let address = read_value(address)?;
    let long = read_value(long)?;
    Some(Act::Put(queue, address, long))
}

// `give K P A L`
fn read_give(class: Class, words: &[u8]) -> Option<Act>
    ensures { result ≡ give_said class (words_of words.now) }
{
    let (queue, rest) = split_once(words, b' ')?;
    let (place, address, long) = three_words(rest)?;
    let queue = read_output(class, queue)?;
    let place = read_place(place)?;
    let address = read_value(address)?;
    let long = read_value(long)?;
    Some(Act::Give(queue, place, address, long))
}

// `store K W V`
fn read_store(class: Class, words: &[u8]) -> Option<Act>
    ensures { result ≡ store_said class (words_of words.now) }
{
    let (queue, word, value) = three_words(words)?;
    let queue = read_queue(class, queue)?;
    let word = word_named(word)?;
    let value = read_value(value)?;
    Some(Act::Store(queue, word, value))
}

// The words of a text that has three.
fn three_words<'a>(text: &'a [u8]) -> Option<(&'a [u8], &'a [u8], &'a [u8])>
    ensures { MatchOption result
        ((a b c : List ℕ) → words_of text.now ≡ a ∷ b ∷ c ∷ [] → ⊥)
        (λ x. words_of text.now ≡ x.0.now ∷ x.1.now ∷ x.2.now ∷ []) }
{
    let (first, rest) = split_once(text, b' ')?;
    let (second, third) = split_once(rest, b' ')?;
    match split_once(third, b' ') {
        Some(_) => None,
        None => Some((first, second, third)),
    }
}

// The number of an input.
fn read_input(class: Class, word: &[u8]) -> Option<u8>
    ensures { result ≡ number_where (is_input class) word.now }
{
    let queue = read_below(word, inputs_of(class))?;
    Some(queue as u8)
}

// The number of an output.
fn read_output(class: Class, word: &[u8]) -> Option<u8>
    ensures { result ≡ number_where (is_output class) word.now }
{
    let queue = read_below(word, 2 * inputs_of(class))?;
    if queue < inputs_of(class) {
        return None;
    }
    Some(queue as u8)
}

// The number of a queue of either sort.
fn read_queue(class: Class, word: &[u8]) -> Option<u8>
    ensures { result ≡ number_where (is_queue class) word.now }
{
    let queue = read_below(word, 2 * inputs_of(class))?;
    Some(queue as u8)
}

// A place among what is kept.
fn read_place(word: &[u8]) -> Option<u32>
    ensures { result ≡ number_where is_place word.now }
{
    let place = read_below(word, PLACES)?;
    Some(place as u32)
}

// An address, a length or a value to be stored.
fn read_value(word: &[u8]) -> Option<u64>
    ensures { result ≡ number_where is_value word.now }
{
    read_number(word)
}

// The word of a queue that has a name.
fn word_named(name: &[u8]) -> Option<Word>
    ensures { result ≡ word_named name.now }
{
    if same_text(name, "head") {
        Some(Word::Head)
    } else if same_text(name, "tail") {
        Some(Word::Tail)
    } else if same_text(name, "flag") {
        Some(Word::Flag)
    } else if same_text(name, "flag_back") {
        Some(Word::FlagBack)
    } else if same_text(name, "pending") {
        Some(Word::Pending)
    } else if same_text(name, "pending_back") {
        Some(Word::PendingBack)
    } else {
        None
    }
}
