//! What a line of a script asks.
ghost use Rattle.std.specs.Prelude.{◌≡◌};
ghost use Rattle.script_text.specs.Words.{words_of};
ghost use Rattle.script_text.specs.Asks.{record_in, holder_in, gift_in, ask_behind, ask_in};

use crate::words::{cut_word, number_word, record_word, short_word};
use admission_model::Ask;
use merge_core::Layout;

// The only word: a record's name.
fn record_in(layout: &Layout, words: &[u8]) -> Option<u16>
    ensures { result ≡ record_in layout.now.records (words_of words.now) }
{
    match cut_word(words) {
        (name, None) => record_word(layout, name),
        (_, Some(_)) => None,
    }
}

// The two words: a record's name and a holder.
fn holder_in(layout: &Layout, words: &[u8]) -> Option<(u16, u64)>
    ensures { result ≡ holder_in layout.now.records (words_of words.now) }
{
    let (name, Some(rest)) = cut_word(words) else {
        return None;
    };
    match cut_word(rest) {
        (holder, None) => {
            let r = record_word(layout, name)?;
            let h = number_word(holder)?;
            Some((r, h))
        }
        (_, Some(_)) => None,
    }
}

// The two words behind a record: a site, and a number of seats.
fn gift_in(layout: &Layout, words: &[u8]) -> Option<(u16, u16, u64)>
    ensures { result ≡ gift_in layout.now.records (words_of words.now) }
{
    let (name, Some(rest)) = cut_word(words) else {
        return None;
    };
    let (site, Some(rest)) = cut_word(rest) else {
        return None;
    };
    match cut_word(rest) {
        (seats, None) => {
            let r = record_word(layout, name)?;
            let to = short_word(site)?;
            let n = number_word(seats)?;
            Some((r, to, n))
        }
        (_, Some(_)) => None,
    }
}

/// What the words behind a verb ask, as [`ask_in`] says. One pass over them.
pub fn ask_behind(layout: &Layout, verb: &[u8], words: &[u8]) -> Option<Ask>
    ensures { result ≡ ask_behind layout.now.records verb.now (words_of words.now) }
{
    if verb == b"read".as_slice() {
        let (r, h) = holder_in(layout, words)?;
        return Some(Ask::Read { r, h });
    }
    if verb == b"announce".as_slice() {
        let (r, h) = holder_in(layout, words)?;
        return Some(Ask::Announce { r, h });
    }
    if verb == b"write".as_slice() {
        let (r, h) = holder_in(layout, words)?;
        return Some(Ask::Quill { r, h });
    }
    if verb == b"leave".as_slice() {
        let (r, h) = holder_in(layout, words)?;
        return Some(Ask::Leave { r, h });
    }
    if verb == b"give".as_slice() {
        let (r, to, seats) = gift_in(layout, words)?;
        return Some(Ask::Give { r, to, seats });
    }
    if verb == b"help".as_slice() {
        let r = record_in(layout, words)?;
        return Some(Ask::Help { r });
    }
    None
}

/// What a line asks, its site aside: `read NAME H`, `announce NAME H`, `write NAME H`, `leave NAME H`, `give NAME J N`
/// or `help NAME`, with a single blank between words, where a holder H and a number of seats N are below 2^64 and a
/// site J is below 2^16. A name that no record has stands for record 65,535. None for every other line. One pass over
/// the line, and a look at the records for the name; takes no memory.
pub fn ask_in(layout: &Layout, line: &[u8]) -> Option<Ask>
    ensures { result ≡ ask_in layout.now.records (words_of line.now) }
{
    let (verb, Some(words)) = cut_word(line) else {
        return None;
    };
    ask_behind(layout, verb, words)
}
