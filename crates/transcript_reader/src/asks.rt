//! Calls of a site from their texts.
ghost use Rattle.std.specs.Prelude.{◌≡◌, ◌≢◌, ◌++◌, ℕ, List, codes, length, nat_lt, MatchOption};
ghost use Rattle.std.specs.List.{position};
ghost use Rattle.merge_core.specs.declared.layout.RecordSpec.{RecordSpec};
ghost use Rattle.text_parts.specs.Readers.{Gives};
ghost use Rattle.script_text.specs.Words.{has_this_name};
ghost use Rattle.transcript_text.specs.Texts.{call_text};
ghost use Rattle.transcript_reader.specs.Fits.{FitsCall};
ghost use Rattle.transcript_reader.specs.Quoted.{ReadsQuoted};
ghost use Rattle.transcript_reader.specs.Words.{record_numbered, logged_record, record_at};
ghost use Rattle.transcript_reader.specs.CallReaders.{verb_behind, verb_at, held_ask, ask_behind, ask_at, snapshot_call, ask_call, worded_call};

use crate::deltas::told_at;
use crate::numbers::{gift_at, last_number};
use crate::words::word_at;
use admission_core::{Ask, Call};
use merge_core::{Layout, RecordSpec};
use script_text::short_word;
use std::alloc::Global;
use text_parts::{Unread, after};

/// What is asked with a holder.
#[derive(Clone, Copy)]
pub(crate) enum Held {
    Read,
    Announce,
    Write,
    Leave,
}

/// What is asked.
#[derive(Clone, Copy)]
pub(crate) enum Verb {
    Held(Held),
    Give,
    Help,
}

// Whether the layout has a record of that number.
fn has_record(layout: &Layout, r: u16) -> bool
    ensures { result ≡ nat_lt r (length layout.now.records) }
{
    usize::from(r) < layout.records().len()
}

fn place_of(records: &[RecordSpec], name: &[u8]) -> Option<usize>
    ensures { result ≡ position (has_this_name name.now) records.now }
{
    records
        .iter()
        .position(|record| record.name.as_str().as_bytes() == name)
}

// The record of that name, if there is one.
fn record_named(layout: &Layout, name: &[u8]) -> Option<u16>
    ensures { result ≡ position (has_this_name name.now) layout.now.records }
{
    match place_of(layout.records(), name) {
        Some(place) => Some(place as u16),
        None => None,
    }
}

// The number in these digits, if no record has it.
fn record_numbered(layout: &Layout, digits: &[u8]) -> Option<u16>
    ensures { result ≡ record_numbered layout.now.records digits.now }
{
    let r = short_word(digits)?;
    if has_record(layout, r) {
        return None;
    }
    Some(r)
}

// The record of a word, which no other word stands for: its name, or `?` and a number that no record has.
fn logged_record(layout: &Layout, word: &[u8]) -> Option<u16>
    ensures { result ≡ logged_record layout.now.records word.now }
{
    match word {
        [b'?', digits @ ..] => record_numbered(layout, digits),
        _ => record_named(layout, word),
    }
}

// The record whose word stands at the front, and the bytes behind it.
#[tactic(auto, unfolding(crate::specs::Words::record_at))]
fn record_at<'a>(layout: &Layout, bytes: &'a [u8]) -> Result<(u16, &'a [u8]), Unread>
    ensures { Gives (λ x. (x.0, x.1.now)) result (record_at layout.now.records bytes.now) }
{
    let Some((word, rest)) = word_at(bytes) else {
        return Err(Unread::Refused);
    };
    match logged_record(layout, word) {
        Some(r) => Ok((r, rest)),
        None => Err(Unread::Refused),
    }
}

// A verb behind its first letter.
#[inline(always)]
fn verb_behind<'a>(literal: &[u8], verb: Verb, bytes: &'a [u8]) -> Result<(Verb, &'a [u8]), Unread>
    ensures { Gives (λ x. (x.0, x.1.now)) result (verb_behind literal.now verb bytes.now) }
{
    let rest = after(literal, bytes)?;
    Ok((verb, rest))
}

// The verb at the front, which its first letter tells, and the bytes behind it.
#[tactic(auto, unfolding(crate::specs::CallReaders::verb_at))]
fn verb_at(bytes: &[u8]) -> Result<(Verb, &[u8]), Unread>
    ensures { Gives (λ x. (x.0, x.1.now)) result (verb_at bytes.now) }
{
    match bytes {
        [b'r', rest @ ..] => verb_behind(b"ead ", Verb::Held(Held::Read), rest),
        [b'l', rest @ ..] => verb_behind(b"eave ", Verb::Held(Held::Leave), rest),
        [b'a', rest @ ..] => verb_behind(b"nnounce ", Verb::Held(Held::Announce), rest),
        [b'w', rest @ ..] => verb_behind(b"rite ", Verb::Held(Held::Write), rest),
        [b'h', rest @ ..] => verb_behind(b"elp ", Verb::Help, rest),
        [b'g', rest @ ..] => verb_behind(b"ive ", Verb::Give, rest),
        _ => Err(Unread::Refused),
    }
}

// What is asked with a holder.
fn held_ask(held: Held, r: u16, h: u64) -> Ask
    ensures { result ≡ held_ask held r h }
{
    match held {
        Held::Read => Ask::Read { r, h },
        Held::Announce => Ask::Announce { r, h },
        Held::Write => Ask::Quill { r, h },
        Held::Leave => Ask::Leave { r, h },
    }
}

// What is asked, behind its record.
fn ask_behind(verb: Verb, r: u16, bytes: &[u8]) -> Result<(Ask, &[u8]), Unread>
    ensures { Gives (λ x. (x.0, x.1.now)) result (ask_behind verb r bytes.now) }
{
    match verb {
        Verb::Held(held) => {
            let rest = after(b" ", bytes)?;
            let (h, rest) = last_number(rest)?;
            Ok((held_ask(held, r, h), rest))
        }
        Verb::Give => {
            let rest = after(b" ", bytes)?;
            let (to, seats, rest) = gift_at(rest)?;
            Ok((Ask::Give { r, to, seats }, rest))
        }
        Verb::Help => {
            let rest = after(b"\"", bytes)?;
            Ok((Ask::Help { r }, rest))
        }
    }
}

// What is asked of a site: a verb, a record, and numbers.
#[tactic(auto, unfolding(crate::specs::CallReaders::ask_at))]
fn ask_at<'a>(layout: &Layout, bytes: &'a [u8]) -> Result<(Ask, &'a [u8]), Unread>
    ensures { Gives (λ x. (x.0, x.1.now)) result (ask_at layout.now.records bytes.now) }
{
    let (verb, rest) = verb_at(bytes)?;
    let (r, rest) = record_at(layout, rest)?;
    ask_behind(verb, r, rest)
}

fn snapshot_call(bytes: &[u8]) -> Result<(Call, &[u8]), Unread>
    ensures { Gives (λ x. (x.0, x.1.now)) result (snapshot_call bytes.now) }
{
    let rest = after(b"end\"", bytes)?;
    Ok((Call::Snapshot, rest))
}

fn ask_call<'a>(layout: &Layout, bytes: &'a [u8]) -> Result<(Call, &'a [u8]), Unread>
    ensures { Gives (λ x. (x.0, x.1.now)) result (ask_call layout.now.records bytes.now) }
{
    let (ask, rest) = ask_at(layout, bytes)?;
    Ok((Call::Ask(ask), rest))
}

// A call without a delta.
#[tactic(auto, unfolding(crate::specs::CallReaders::worded_call))]
fn worded_call<'a>(layout: &Layout, bytes: &'a [u8]) -> Result<(Call, &'a [u8]), Unread>
    ensures { Gives (λ x. (x.0, x.1.now)) result (worded_call layout.now.records bytes.now) }
{
    match bytes {
        [b's', rest @ ..] => snapshot_call(rest),
        _ => ask_call(layout, bytes),
    }
}

// The bytes behind the verb that takes a delta.
fn taken_text(bytes: &[u8]) -> Option<&[u8]>
    ensures { MatchOption result
        ((text : List ℕ) → bytes.now ≢ codes "take " ++ text)
        (λ text. bytes.now ≡ codes "take " ++ text.now) }
{
    match bytes {
        [b't', rest @ ..] => rest.strip_prefix(b"ake "),
        _ => None,
    }
}

// The call that takes the delta whose text stands up to the closing quote, and the bytes behind it.
fn merge_at(alloc: Global, bytes: &[u8]) -> Result<(Call, &[u8]), Unread>
    ensures { (records : List RecordSpec) → ReadsQuoted (λ x. (x.0, x.1.now)) FitsCall (call_text records) (codes "take " ++ bytes.now) result }
{
    match told_at(alloc, bytes) {
        Ok((delta, rest)) => Ok((Call::Merge(delta), rest)),
        Err(e) => Err(e),
    }
}

/// The call whose text stands up to the closing quote, and the bytes behind it. Linear in the text, and for an ask in the
/// records, among which its name is looked up. Just one text is read as a call.
pub(crate) fn call_at<'a>(
    alloc: Global,
    layout: &Layout,
    bytes: &'a [u8],
) -> Result<(Call, &'a [u8]), Unread>
    ensures { ReadsQuoted (λ x. (x.0, x.1.now)) FitsCall (call_text layout.now.records) bytes.now result }
{
    let _ = layout.sites(); // tells the invariant: no two records have one name
    if let Some(delta) = taken_text(bytes) {
        return merge_at(alloc, delta);
    }
    worded_call(layout, bytes)
}
