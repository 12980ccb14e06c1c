//! The digest of a text, written into the mark in front of it.
ghost use Rattle.std.specs.Prelude.{◌≡◌, ◌≤◌, ◌-◌, ◌++◌, ◌∷◌, [], ℕ, List, length, take, drop, codes, string_bytes};
ghost use Rattle.std.specs.String.Boundary.{IsSplitPoint};
ghost use Rattle.serve_engine.specs.Marks.{text_digest};

use crate::digests::text_digits;

// How many digits a text's digest has in a mark.
const DIGITS: usize = 8;

/// Writes the digits of the digest of the text that ends a line into its mark, in place of the zeros at this place. In
/// place, and without taking memory.
pub(crate) fn fill_checksum(line: &mut String, place: usize)
    ensures { (before text : List ℕ) → length before ≡ place → string_bytes line.old ≡ before ++ (codes "00000000 " ++ (text ++ 10 ∷ []))
        → string_bytes line.new ≡ before ++ (text_digest text ++ 32 ∷ (text ++ 10 ∷ [])) }
{
    let digits = text_digits(text_behind(line.as_bytes(), place));
    if let Ok(digits) = std::str::from_utf8(&digits) {
        set_digits(line, place, digits);
    }
}

// The text of a line behind its mark's digits and the blank there, without the LF.
fn text_behind(line: &[u8], place: usize) -> &[u8]
    ensures { (before text : List ℕ) → length before ≡ place → line.now ≡ before ++ (codes "00000000 " ++ (text ++ 10 ∷ [])) → result.now ≡ text }
{
    let from = place.saturating_add(DIGITS + 1);
    if line.len() <= from {
        return b"";
    }
    &line[from..line.len() - 1]
}

// Writes digits in place of as many zeros.
fn set_digits(line: &mut String, place: usize, digits: &str)
    ensures { (before behind : List ℕ) → length before ≡ place → length digits.now ≡ 8 → string_bytes line.old ≡ before ++ (codes "00000000 " ++ behind)
        → string_bytes line.new ≡ before ++ (digits.now ++ 32 ∷ behind) }
{
    let end = place.saturating_add(DIGITS);
    if line.is_char_boundary(place) {
        if line.is_char_boundary(end) {
            replace_digits(line, place, end, digits);
        }
    }
}

// Puts digits in the place of a part of a line that is at least as long. That makes room first, so that it needs no memory.
fn replace_digits(line: &mut String, from: usize, to: usize, digits: &str)
    requires from { IsSplitPoint (string_bytes line.old) from }
    requires to { IsSplitPoint (string_bytes line.old) to }
    requires order { from ≤ to }
    ensures { length digits.now ≤ to - from → IsSplitPoint (take from (string_bytes line.old) ++ drop to (string_bytes line.old)) from
        → string_bytes line.new ≡ take from (string_bytes line.old) ++ (digits.now ++ drop to (string_bytes line.old)) }
{
    if line.replace_range(from..to, "").is_err() {
        return;
    }
    if line.is_char_boundary(from) {
        let _ = line.insert_str(from, digits);
    }
}
