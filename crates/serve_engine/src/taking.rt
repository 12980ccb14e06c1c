//! What stands in front of a text that is taken.
ghost use Rattle.std.specs.Prelude.{◌≡◌, ◌≢◌, ◌↔◌, ◌<◌, ◌++◌, ◌∷◌, ℕ, List, IsTrue, MatchOption, MatchResult};
ghost use Rattle.std.specs.List.{list_all};
ghost use Rattle.merge_core.specs.Layout.{LayoutState};
ghost use Rattle.serve_engine.specs.Marks.{Mark, AreDigits, IsFault, IsMarked, IsWord, is_digit, mark_of, records_digest};
ghost use Rattle.serve_engine.specs.Requests.{Terms};
ghost use Rattle.serve_engine.specs.Steps.{AreTerms, mark_in};

use crate::digests::text_digits;
use crate::marks::{MarkFault, Marker};
use script_text::cut_word;
use text_parts::is_same;

/// The words of a mark, and the text behind it.
#[derive(Clone, Copy)]
pub(crate) struct Parts<'a> {
    pub(crate) group: &'a [u8],
    pub(crate) records: &'a [u8],
    pub(crate) checksum: &'a [u8],
    pub(crate) text: &'a [u8],
}

/// The text behind this site's mark, or the first fault of what stands there. Linear in the bytes.
pub(crate) fn text_taken<'a>(marker: &Marker, bytes: &'a [u8]) -> Result<&'a [u8], MarkFault>
    ensures { (terms : Terms) (layout : LayoutState) → AreTerms terms layout marker.now → MatchResult result
        (λ text. IsMarked bytes.now (mark_of terms.group (records_digest terms.records) text.now) text.now)
        (λ fault. IsFault terms.group (records_digest terms.records) bytes.now fault) }
{
    let Some(parts) = parts_of(bytes) else {
        return Err(MarkFault::NoMark);
    };
    if !is_same(parts.group, marker.group.as_bytes()) {
        return Err(MarkFault::WrongGroup);
    }
    if !is_same(parts.records, marker.records.as_bytes()) {
        return Err(MarkFault::OtherRecords);
    }
    let digits = text_digits(parts.text);
    if !is_same(parts.checksum, &digits) {
        return Err(MarkFault::Damaged);
    }
    Ok(parts.text)
}

// The words of the mark that the bytes begin with, and the text behind it.
fn parts_of(bytes: &[u8]) -> Option<Parts<'_>>
    ensures { MatchOption result ((mark : Mark) → (text : List ℕ) → ¬ IsMarked bytes.now mark text) (λ parts. IsMarked bytes.now (mark_in parts) parts.text.now) }
{
    let Some((group, rest)) = word_at(bytes) else {
        return None;
    };
    let Some((records, more)) = digits_at(rest, 16) else {
        return None;
    };
    let Some((checksum, text)) = digits_at(more, 8) else {
        return None;
    };
    Some(Parts {
        group,
        records,
        checksum,
        text,
    })
}

// The word that the bytes begin with, and what stands behind its blank.
fn word_at(bytes: &[u8]) -> Option<(&[u8], &[u8])>
    ensures { MatchOption result
        ((word rest : List ℕ) → IsWord word → bytes.now ≢ word ++ 32 ∷ rest)
        (λ cut. IsWord cut.0.now × (bytes.now ≡ cut.0.now ++ 32 ∷ cut.1.now)) }
{
    let (word, behind) = cut_word(bytes);
    let Some(rest) = behind else {
        return None;
    };
    if word.is_empty() {
        return None;
    }
    Some((word, rest))
}

// So many digits that the bytes begin with, and what stands behind their blank.
fn digits_at(bytes: &[u8], count: usize) -> Option<(&[u8], &[u8])>
    requires { 0 < count }
    ensures { MatchOption result
        ((word rest : List ℕ) → AreDigits count word → bytes.now ≢ word ++ 32 ∷ rest)
        (λ cut. AreDigits count cut.0.now × (bytes.now ≡ cut.0.now ++ 32 ∷ cut.1.now)) }
{
    let Some((word, rest)) = word_at(bytes) else {
        return None;
    };
    if word.len() != count {
        return None;
    }
    if !are_digits(word) {
        return None;
    }
    Some((word, rest))
}

// Whether each byte is a lowercase hexadecimal digit.
fn are_digits(word: &[u8]) -> bool
    ensures { result ≡ list_all is_digit word.now }
{
    word.iter().all(|b| (*b >= b'0' && *b <= b'9') || (*b >= b'a' && *b <= b'f'))
}
