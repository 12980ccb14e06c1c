//! What a line asks of the service.
ghost use Rattle.std.specs.Prelude.{◌≡◌, ◌++◌, codes, Some, None, List, IfOk, MatchOption};
ghost use Rattle.merge_core.specs.declared.layout.RecordSpec.{RecordSpec};
ghost use Rattle.script_text.specs.Words.{words_of};
ghost use Rattle.script_text.specs.Asks.{holder_in, record_in};
ghost use Rattle.serve_engine.specs.Requests.{Asks, AsksUnmarked, Terms, holder_behind, record_behind, rest_behind, AsksBehind};
ghost use Rattle.serve_engine.specs.Steps.{AreTerms};
ghost use Rattle.site_script.specs.Lines.{SaysNothing};

use crate::marks::{MarkFault, Marker, Marking};
use crate::taking::text_taken;
use admission_core::Call;
use delta_codec::DecodeError;
use merge_core::Layout;
use script_text::{cut_word, number_word, record_word};
use site_script::{Said, said_by_text, said_in};
use std::alloc::{AllocError, Global};

/// What a line asks: a call; to take a text that is no delta's, by the name of its first fault; to show a record's
/// counts or its sessions, or to tell the number of a holder inside it, where a name that no record has stands for record
/// 65,535; or to take a text that is not behind the site's own mark, by the first fault of what stands in front of it.
#[derive(Debug, Drop)]
pub enum Request {
    Asked(Call),
    Unread(DecodeError),
    Show(u16),
    Sessions(u16),
    Fence(u16, u64),
    Unmarked(MarkFault),
}

/// What a line asks: what a line of a site's script says (`site_script::said_in`), `show NAME`, `sessions NAME` or
/// `fence NAME H`, with a single blank between the words. Nothing where it asks none of these. Where deltas are marked, a line that begins with
/// `take ` asks what `take TEXT` asks where the site's own mark and TEXT stand behind that blank, and else for `Unmarked`.
/// Linear in the line; the mark is cut off without copying the text.
pub(crate) fn request_in(
    alloc: Global,
    layout: &Layout,
    marker: &Marker,
    line: &[u8],
) -> Result<Option<Request>, AllocError>
    ensures { IfOk result (λ request. (terms : Terms) → AreTerms terms layout.now marker.now → Asks terms line.now request) }
{
    match marker.marking {
        Marking::Plain => unmarked_in(alloc, layout, line),
        Marking::Marked => marked_in(alloc, layout, marker, line),
    }
}

// What a line asks where deltas are marked.
fn marked_in(
    alloc: Global,
    layout: &Layout,
    marker: &Marker,
    line: &[u8],
) -> Result<Option<Request>, AllocError>
    ensures { IfOk result (λ request. (terms : Terms) → AreTerms terms layout.now marker.now
        → AsksBehind terms line.now (rest_behind (codes "take ") line.now) request) }
{
    let Some(bytes) = behind(b"take ", line) else {
        return unmarked_in(alloc, layout, line);
    };
    match text_taken(marker, bytes) {
        Ok(text) => taken_text(alloc, text),
        Err(fault) => Ok(Some(Request::Unmarked(fault))),
    }
}

// What stands behind a prefix.
fn behind<'a>(prefix: &[u8], bytes: &'a [u8]) -> Option<&'a [u8]>
    ensures { MatchOption result (rest_behind prefix.now bytes.now ≡ None) (λ rest. rest_behind prefix.now bytes.now ≡ Some rest.now) }
{
    bytes.strip_prefix(prefix)
}

// What the line `take TEXT` asks, by its TEXT.
fn taken_text(alloc: Global, text: &[u8]) -> Result<Option<Request>, AllocError>
    ensures { IfOk result (λ request. (records : List RecordSpec) → AsksUnmarked records (codes "take " ++ text.now) request) }
{
    match said_by_text(alloc, text)? {
        Some(Said::Asked(call)) => Ok(Some(Request::Asked(call))),
        Some(Said::Unread(error)) => Ok(Some(Request::Unread(error))),
        None => Ok(None),
    }
}

// What a line asks in which no mark is wanted.
fn unmarked_in(alloc: Global, layout: &Layout, line: &[u8]) -> Result<Option<Request>, AllocError>
    ensures { IfOk result (AsksUnmarked layout.now.records line.now) }
{
    match said_in(alloc, layout, line)? {
        Some(Said::Asked(call)) => Ok(Some(Request::Asked(call))),
        Some(Said::Unread(error)) => Ok(Some(Request::Unread(error))),
        None => Ok(look_in(layout, line)),
    }
}

// What a line asks that says nothing in a script.
fn look_in(layout: &Layout, line: &[u8]) -> Option<Request>
    requires { SaysNothing layout.now.records line.now }
    ensures { AsksUnmarked layout.now.records line.now result }
{
    if let Some(r) = record_behind(layout, b"show", line) {
        return Some(Request::Show(r));
    }
    if let Some(r) = record_behind(layout, b"sessions", line) {
        return Some(Request::Sessions(r));
    }
    if let Some((r, h)) = holder_behind(layout, b"fence", line) {
        return Some(Request::Fence(r, h));
    }
    None
}

// The record that stands behind this verb, where the line has nothing else.
fn record_behind(layout: &Layout, verb: &[u8], line: &[u8]) -> Option<u16>
    ensures { result ≡ record_behind layout.now.records verb.now (words_of line.now) }
{
    let (word, Some(words)) = cut_word(line) else {
        return None;
    };
    if word != verb {
        return None;
    }
    record_in(layout, words)
}

// The record and the holder that stand behind this verb, where the line has nothing else.
fn holder_behind(layout: &Layout, verb: &[u8], line: &[u8]) -> Option<(u16, u64)>
    ensures { result ≡ holder_behind layout.now.records verb.now (words_of line.now) }
{
    let (word, Some(words)) = cut_word(line) else {
        return None;
    };
    if word != verb {
        return None;
    }
    holder_in(layout, words)
}

// The two words: a record's name and a holder.
fn holder_in(layout: &Layout, words: &[u8]) -> Option<(u16, u64)>
    ensures { result ≡ holder_in layout.now.records (words_of words.now) }
{
    let (name, Some(rest)) = cut_word(words) else {
        return None;
    };
    match cut_word(rest) {
        (holder, None) => {
            let r = record_word(layout, name)?;
            let h = number_word(holder)?;
            Some((r, h))
        }
        (_, Some(_)) => None,
    }
}

// The only word: a record's name.
fn record_in(layout: &Layout, words: &[u8]) -> Option<u16>
    ensures { result ≡ record_in layout.now.records (words_of words.now) }
{
    match cut_word(words) {
        (name, None) => record_word(layout, name),
        (_, Some(_)) => None,
    }
}
