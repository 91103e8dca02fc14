//! The words that name a text.

ghost use Rattle.std.specs.Prelude.{◌≡◌, ◌<◌, ◌↔◌, Some, length, IsTrue, slice_get};
ghost use Rattle.command_words.specs.Words.{texts_of, IsName};
ghost use Rattle.command_words.specs.Reading.{IsNameAt};

/// The word at a place.
pub fn word_at(words: &[String], at: usize) -> &str
    requires { at < length words.now }
    ensures { slice_get (texts_of words.now) at ≡ Some result.now }
{
    words[at].as_str()
}

/// Whether a word is this one.
pub fn is_word(word: &str, other: &str) -> bool
    ensures { IsTrue result ↔ (word.now ≡ other.now) }
{
    word == other
}

// Whether a word at a place may name a text.
pub fn is_name_at(words: &[String], at: usize) -> bool
    ensures { IsTrue result ↔ IsNameAt (texts_of words.now) at }
{
    words.get(at).is_some_and(|w| is_name(w.as_str()))
}

// Whether a word may name a text.
fn is_name(word: &str) -> bool
    ensures { IsTrue result ↔ IsName word.now }
{
    !word.is_empty() && !word.starts_with("--")
}
