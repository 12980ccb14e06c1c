//! The words of a line, and what single words stand for.
ghost use Rattle.std.specs.Prelude.{◌≡◌, ◌++◌, ◌∷◌, [], if◌then◌else◌, Some, None, MatchOption};
ghost use Rattle.std.specs.List.{position};
ghost use Rattle.merge_core.specs.Layout.{is_record_name};
ghost use Rattle.script_text.specs.Words.{words_of, number_word, short_word, has_this_name, no_record, record_word};

use memchr::memchr;
use merge_core::{Layout, RecordSpec, is_record_name};
use text_parts::{Unread, number_at, short_at};

// Stands for every name that no record has: no layout has so many records.
const NO_RECORD: u16 = u16::MAX;

// `memchr` searches a line of so many bytes by vectors, and a shorter one byte by byte.
const WIDE: usize = 32;

/// The first word of a line, and what stands behind its blank, if there is one. Linear in the word.
pub fn cut_word(line: &[u8]) -> (&[u8], Option<&[u8]>)
    ensures words { MatchOption result.1
        (words_of line.now ≡ result.0.now ∷ [])
        (λ rest. words_of line.now ≡ result.0.now ∷ words_of rest.now) }
    ensures bytes { MatchOption result.1
        (line.now ≡ result.0.now)
        (λ rest. line.now ≡ result.0.now ++ 32 ∷ rest.now) }
{
    if WIDE <= line.len() {
        return match memchr(b' ', line) {
            Some(end) => (&line[..end], Some(&line[end + 1..])),
            None => (line, None),
        };
    }
    for end in 0..line.len() {
        if line[end] == b' ' {
            return (&line[..end], Some(&line[end + 1..]));
        }
    }
    (line, None)
}

/// The number that the whole word is, in decimal digits without a sign or a leading zero. None from 2^64 on.
pub fn number_word(word: &[u8]) -> Option<u64>
    ensures { result ≡ number_word word.now }
{
    match number_at(word) {
        Ok((number, [])) => Some(number),
        Ok((_, [_, ..])) => None,
        Err(Unread::Refused) => None,
        Err(Unread::Memory) => None,
    }
}

/// The number that the whole word is, where it is below 2^16.
pub fn short_word(word: &[u8]) -> Option<u16>
    ensures { result ≡ short_word word.now }
{
    match short_at(word) {
        Ok((short, [])) => Some(short),
        Ok((_, [_, ..])) => None,
        Err(Unread::Refused) => None,
        Err(Unread::Memory) => None,
    }
}

/// The number of the record of that name; 65,535, which no record has, for any other word that could be a name. None
/// for a word that could be none. Compares the word with each record's name until it is found.
pub fn record_word(layout: &Layout, word: &[u8]) -> Option<u16>
    ensures { result ≡ record_word layout.now.records word.now }
{
    match place_of(layout.records(), word) {
        Some(place) => Some(place as u16),
        None => unknown_record(word),
    }
}

fn place_of(records: &[RecordSpec], word: &[u8]) -> Option<usize>
    ensures { result ≡ position (has_this_name word.now) records.now }
{
    records
        .iter()
        .position(|record| record.name.as_str().as_bytes() == word)
}

fn unknown_record(word: &[u8]) -> Option<u16>
    ensures { result ≡ (if is_record_name word.now then Some no_record else None) }
{
    if is_record_name(word) {
        return Some(NO_RECORD);
    }
    None
}
