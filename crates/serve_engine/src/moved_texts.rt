//! The text that a move of a site to the next generation of its group prints, and texts of which a site is built again.
ghost use Rattle.std.specs.Prelude.{◌≡◌, ◌↔◌, ◌++◌, [], ◌∷◌, string_bytes, Some, IfOk, IsTrue, MatchResult};
ghost use Rattle.merge_core.specs.Delta.{IsDelta};
ghost use Rattle.delta_codec.specs.DeltaText.{delta_text};
ghost use Rattle.serve_engine.specs.declared.marks.MarkFault.TheVariants.{WrongGroup};
ghost use Rattle.serve_engine.specs.Moved.{IsTextStop, IsTold, IsUntoldStop, moved_text, moved_word};
ghost use Rattle.serve_engine.specs.Marks.{IsFault, IsMarked, mark_of, records_digest, text_digest};

use crate::digests::{record_digits, text_digits};
use crate::marks::{MarkFault, Marking, marker_of};
use crate::taking::text_taken;
use delta_codec::{DecodeError, decode, encode};
use merge_core::{Delta, Layout};
use std::alloc::{AllocError, Global};

/// A whole delta of a site of a layout behind the mark of a move to the group of this name. Linear in both.
pub fn moved_text(
    alloc: Global,
    layout: &Layout,
    name: &str,
    delta: &Delta,
) -> Result<String, AllocError>
    ensures { IfOk result (λ text. string_bytes text ≡ moved_text layout.now.records name.now delta.now) }
{
    let text = encode(alloc, delta)?;
    let mut marked = moved_word(alloc, name)?;
    marked.push_str(" ")?;
    let records = record_digits(alloc, layout)?;
    marked.push_str(records.as_str())?;
    push_digits(&mut marked, text.as_bytes())?;
    marked.push_str(text.as_str())?;
    Ok(marked)
}

// The first word of the mark of a move to the group of this name.
fn moved_word(alloc: Global, name: &str) -> Result<String, AllocError>
    ensures { IfOk result (λ word. string_bytes word ≡ moved_word name.now) }
{
    let mut word = String::from_str(alloc, name)?;
    word.push_str(":moved")?;
    Ok(word)
}

// Writes the digits of a text's digest between two blanks.
fn push_digits(marked: &mut String, text: &[u8]) -> Result<(), AllocError>
    ensures { IfOk result (λ _. string_bytes marked.new ≡ string_bytes marked.old ++ 32 ∷ (text_digest text.now ++ 32 ∷ [])) }
{
    let digits = text_digits(text);
    let Ok(digits) = std::str::from_utf8(&digits) else {
        return Ok(()); // digits are text
    };
    marked.push_str(" ")?;
    marked.push_str(digits)?;
    marked.push_str(" ")
}

/// Why a line is no text of which a site is built again.
#[derive(Clone, Copy, Debug, PartialEq, Eq)]
pub enum TextFault {
    /// It is not behind the mark that it has to have.
    Unmarked(MarkFault),
    /// What stands behind its mark is no delta's text.
    Unread(DecodeError),
}

/// Why a line gives no delta.
#[derive(Clone, Copy, Debug, PartialEq, Eq)]
pub enum TextStop {
    /// Memory ran out.
    NoRoom,
    /// The line is refused.
    Refused(TextFault),
}

/// The delta of a line of which a lost site is built again, in the group of this name: one behind the mark of a move to the
/// group; or, where the site is lost alone, behind that of a text that a site of the group sends. Linear in the line and in the
/// layout.
pub fn read_delta(
    alloc: Global,
    layout: &Layout,
    name: &str,
    alone: bool,
    line: &[u8],
) -> Result<Delta, TextStop>
    ensures { MatchResult result
        (λ d. IsDelta d × IsTold layout.now.records name.now alone line.now (delta_text d))
        (λ stop. IsTextStop layout.now.records name.now alone line.now stop) }
{
    let text = match told_text(alloc, layout, name, alone, line) {
        Ok(text) => text,
        Err(stop) => return Err(stop),
    };
    match decode(alloc, text) {
        Ok(delta) => Ok(delta),
        Err(DecodeError::Memory) => Err(TextStop::NoRoom),
        Err(error) => Err(TextStop::Refused(TextFault::Unread(error))),
    }
}

// The text of a line behind its mark.
fn told_text<'a>(
    alloc: Global,
    layout: &Layout,
    name: &str,
    alone: bool,
    line: &'a [u8],
) -> Result<&'a [u8], TextStop>
    ensures { MatchResult result
        (λ text. IsTold layout.now.records name.now alone line.now text.now)
        (λ stop. IsUntoldStop layout.now.records name.now alone line.now stop) }
{
    let Ok(word) = moved_word(alloc, name) else {
        return Err(TextStop::NoRoom);
    };
    let Ok(taken) = text_behind(alloc, layout, word.as_str(), line) else {
        return Err(TextStop::NoRoom);
    };
    match taken {
        Ok(text) => Ok(text),
        Err(fault) => sent_text(alloc, layout, name, alone, line, fault),
    }
}

// The text of a line that is not behind the mark of a move, for this fault.
fn sent_text<'a>(
    alloc: Global,
    layout: &Layout,
    name: &str,
    alone: bool,
    line: &'a [u8],
    moved: MarkFault,
) -> Result<&'a [u8], TextStop>
    requires { IsFault (Some (moved_word name.now)) (records_digest layout.now.records) line.now moved }
    ensures { MatchResult result
        (λ text. IsTold layout.now.records name.now alone line.now text.now)
        (λ stop. IsUntoldStop layout.now.records name.now alone line.now stop) }
{
    if !alone {
        return Err(TextStop::Refused(TextFault::Unmarked(moved)));
    }
    if !is_other_group(moved) {
        return Err(TextStop::Refused(TextFault::Unmarked(moved)));
    }
    let Ok(taken) = text_behind(alloc, layout, name, line) else {
        return Err(TextStop::NoRoom);
    };
    match taken {
        Ok(text) => Ok(text),
        Err(fault) => Err(TextStop::Refused(TextFault::Unmarked(fault))),
    }
}

// Whether a mark is that of another group.
fn is_other_group(fault: MarkFault) -> bool
    ensures { IsTrue result ↔ (fault ≡ WrongGroup) }
{
    match fault {
        MarkFault::WrongGroup => true,
        MarkFault::NoMark => false,
        MarkFault::OtherRecords => false,
        MarkFault::Damaged => false,
    }
}

// The text of a line behind a mark of this first word, or its first fault.
fn text_behind<'a>(
    alloc: Global,
    layout: &Layout,
    word: &str,
    line: &'a [u8],
) -> Result<Result<&'a [u8], MarkFault>, AllocError>
    ensures { IfOk result (λ taken. MatchResult taken
        (λ text. IsMarked line.now (mark_of (Some word.now) (records_digest layout.now.records) text.now) text.now)
        (λ fault. IsFault (Some word.now) (records_digest layout.now.records) line.now fault)) }
{
    let marker = marker_of(alloc, layout, Some(word), Marking::Marked)?;
    Ok(text_taken(&marker, line))
}
