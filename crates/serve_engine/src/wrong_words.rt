//! Which word of a line that asks for nothing is not right.
ghost use Rattle.std.specs.Prelude.{◌≡◌, ◌≤◌, ⊤, length, Some, None, MatchOption};
ghost use Rattle.script_text.specs.Words.{words_of};
ghost use Rattle.serve_engine.specs.BadWords.{is_fit, kinds_behind, right_words, wrong_word};

use merge_core::Layout;
use script_text::{cut_word, number_word, record_word, short_word};

/// What may stand as a word behind a verb.
#[derive(Clone, Copy, Debug, PartialEq, Eq)]
pub(crate) enum Kind {
    /// A record's name.
    Name,
    /// A holder, or a number of seats.
    Number,
    /// A site.
    Site,
}

const HOLDER: [Kind; 2] = [Kind::Name, Kind::Number];

const GIFT: [Kind; 3] = [Kind::Name, Kind::Site, Kind::Number];

const RECORD: [Kind; 1] = [Kind::Name];

const NOTHING: [Kind; 0] = [];

/// The place of the first word that is not right in a line that asks for nothing, counted from 1: the verb where there is
/// no such verb, else the first word behind it that can't stand there, is missing, or is one too many. At most 5. One pass
/// over the words up to it, and a look at the records for the name.
pub(crate) fn wrong_word(layout: &Layout, line: &[u8]) -> u16
    ensures { result ≡ wrong_word layout.now.records line.now }
{
    let (verb, words) = cut_word(line);
    let Some(kinds) = kinds_behind(verb) else {
        return 1;
    };
    match words {
        Some(words) => 2 + right_words(layout, kinds, words),
        None => 2,
    }
}

// What stands behind a verb, where there is such a verb. Nothing behind `take`: its text is what is at fault.
fn kinds_behind(verb: &[u8]) -> Option<&'static [Kind]>
    ensures kinds { MatchOption result (kinds_behind verb.now ≡ None) (λ kinds. kinds_behind verb.now ≡ Some kinds.now) }
    ensures few { MatchOption result ⊤ (λ kinds. length kinds.now ≤ 3) }
{
    if verb == b"read".as_slice()
        || verb == b"announce".as_slice()
        || verb == b"write".as_slice()
        || verb == b"leave".as_slice()
        || verb == b"fence".as_slice()
    {
        return Some(&HOLDER);
    }
    if verb == b"give".as_slice() {
        return Some(&GIFT);
    }
    if verb == b"help".as_slice() || verb == b"show".as_slice() || verb == b"sessions".as_slice() {
        return Some(&RECORD);
    }
    if verb == b"send".as_slice() || verb == b"take".as_slice() {
        return Some(&NOTHING);
    }
    None
}

// How many of these words are right before the first that is not, is missing, or is one too many.
fn right_words(layout: &Layout, kinds: &[Kind], words: &[u8]) -> u16
    requires few { length kinds.now ≤ 3 }
    ensures counted { result ≡ right_words layout.now.records kinds.now (words_of words.now) }
    ensures most { result ≤ length kinds.now }
{
    let [kind, later @ ..] = kinds else {
        return 0;
    };
    let (word, behind) = cut_word(words);
    if !is_fit(layout, *kind, word) {
        return 0;
    }
    match behind {
        Some(behind) => 1 + right_words(layout, later, behind),
        None => 1,
    }
}

// Whether a word is of this kind.
fn is_fit(layout: &Layout, kind: Kind, word: &[u8]) -> bool
    ensures { result ≡ is_fit layout.now.records kind word.now }
{
    match kind {
        Kind::Name => record_word(layout, word).is_some(),
        Kind::Number => number_word(word).is_some(),
        Kind::Site => short_word(word).is_some(),
    }
}
