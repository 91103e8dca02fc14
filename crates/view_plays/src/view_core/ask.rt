//! The words of the program: what they ask for, or which of them is the first bad one.
ghost use Rattle.std.specs.Prelude.{◌≡◌, ◌↔◌, ◌<◌, IsTrue, IfOk, IfErr, IfSome, Some, None, length};
ghost use Rattle.std.specs.Prelude.{slice_get};
ghost use Rattle.command_words.specs.Words.{texts_of, IsName};
ghost use Rattle.view_plays.specs.ViewCore.Words.{Spells, IsBadWord, IsNameAt, HasWordAt, BeginsAlone};
ghost use Rattle.view_plays.specs.ViewCore.Words.{BeginsNone, GoesOn};

/// What the words ask for. The description's name is word 1.
#[derive(Clone, Copy, Debug, PartialEq, Eq)]
pub enum View {
    /// `export DESC`: the Microkit's system file.
    System,
    /// `export DESC --config`: the constants of classes, queues and pools, as a header of C.
    Config,
    /// `layout DESC`: a picture of the layout, as SVG.
    Layout,
    /// `system DESC`: the layout as a graph in DOT, for those who lay out with Graphviz.
    Graph,
}

// Whether a word may name a text.
fn is_name(word: &str) -> bool
    ensures { IsTrue result ↔ IsName word.now }
{
    !word.is_empty() && !word.starts_with("--")
}

// Whether a word at a place may name a text.
fn is_name_at(words: &[String], at: usize) -> bool
    ensures { IsTrue result ↔ IsNameAt (texts_of words.now) at }
{
    words.get(at).is_some_and(|w| is_name(w.as_str()))
}

// Whether a word is this one.
fn is_word(word: &str, other: &str) -> bool
    ensures { IsTrue result ↔ (word.now ≡ other.now) }
{
    word == other
}

// Whether there is a word at a place, and it is this one.
fn has_word_at(words: &[String], at: usize, word: &str) -> bool
    ensures { IsTrue result ↔ HasWordAt (texts_of words.now) at word.now }
{
    words.get(at).is_some_and(|w| is_word(w.as_str(), word))
}

// Whether the word at a place is this one.
fn is_word_at(words: &[String], at: usize, word: &str) -> bool
    ensures { IsTrue result ↔ (slice_get (texts_of words.now) at ≡ Some word.now) }
{
    has_word_at(words, at, word)
}

// How many words there are.
fn count(words: &[String]) -> usize
    ensures { result ≡ length (texts_of words.now) }
{
    words.len()
}

// What the first word and a name ask for.
#[tactic(auto, using(crate::proofs::ViewCore::WordLemmas::word_lemmas))]
fn first_view(words: &[String]) -> Option<View>
    ensures some { IfSome result (BeginsAlone (texts_of words.now)) }
    ensures none { result ≡ None → BeginsNone (texts_of words.now) }
{
    if is_word_at(words, 0, "export") {
        return Some(View::System);
    }
    if is_word_at(words, 0, "layout") {
        return Some(View::Layout);
    }
    if is_word_at(words, 0, "system") {
        return Some(View::Graph);
    }
    None
}

// Whether a third word may stand behind this first one: it is `--config` behind `export`.
fn goes_on(words: &[String], view: View) -> bool
    ensures { IsTrue result ↔ GoesOn (texts_of words.now) view }
{
    match view {
        View::System => is_word_at(words, 2, "--config"),
        _ => false,
    }
}

// What the words ask for whose first asks for this with a name alone.
#[tactic(auto, using(crate::proofs::ViewCore::WordLemmas::word_lemmas))]
fn read_behind(words: &[String], view: View) -> Result<View, u32>
    requires { BeginsAlone (texts_of words.now) view }
    ensures view { IfOk result (Spells (texts_of words.now)) }
    ensures bad { IfErr result (IsBadWord (texts_of words.now)) }
{
    if !is_name_at(words, 1) {
        return Err(1);
    }
    if count(words) == 2 {
        return Ok(view);
    }
    if !goes_on(words, view) {
        return Err(2);
    }
    if count(words) > 3 {
        return Err(3);
    }
    Ok(View::Config)
}

/// What the words ask for, or the place of the first bad word, counted from 0: the least place such
/// that none of the program's forms begins with the words up to it, or the number of the words
/// where a form begins with all of them and they are none.
pub fn read_words(words: &[String]) -> Result<View, u32>
    ensures view { IfOk result (Spells (texts_of words.now)) }
    ensures bad { IfErr result (IsBadWord (texts_of words.now)) }
{
    match first_view(words) {
        Some(view) => read_behind(words, view),
        None => Err(0),
    }
}

/// The word that names the description.
pub fn name_of(words: &[String]) -> &str
    requires { 1 < length (texts_of words.now) }
    ensures { slice_get (texts_of words.now) 1 ≡ Some result.now }
{
    words[1].as_str()
}
