//! Entries whose replies are a core's own snapshot, compared where they stand: nothing is made of their texts.
ghost use Rattle.std.specs.Prelude.{◌≡◌, ◌++◌, ◌<◌, codes, decimal, false, length, true, IsTrue, MatchOption};
ghost use Rattle.merge_core.specs.Book.{book_shape, counter_of};
ghost use Rattle.merge_core.specs.Lent.{lent_row};
ghost use Rattle.merge_core.specs.Moved.{told_row, has_moved, row_if, moved_rows, all_moved};
ghost use Rattle.text_parts.specs.Lists.{joined};
ghost use Rattle.text_parts.specs.Readers.{Gives};
ghost use Rattle.delta_codec.specs.DeltaText.{row_text, delta_text};
ghost use Rattle.transcript_text.specs.Quoted.{escaped};
ghost use Rattle.transcript_reader.specs.Quoted.{quoted};
ghost use Rattle.transcript_reader.specs.Shown.{BeginsWithRows, IsOwnSnapshot, book_snapshot, pass_of_send};

use crate::entries::pass_behind;
use admission_core::SiteCore;
use delta_codec::number_behind;
use merge_core::{Book, LentRow};
use text_parts::{Unread, after, is_same};

// The bytes behind a literal, if it stands in front.
#[inline(always)]
fn behind<'a>(literal: &[u8], bytes: &'a [u8]) -> Option<&'a [u8]>
    ensures { MatchOption result (Unit {0}) (λ rest. bytes.now ≡ literal.now ++ rest.now) }
{
    match after(literal, bytes) {
        Ok(rest) => Some(rest),
        Err(_) => None,
    }
}

// The bytes behind a literal and the digits of a number, if these stand in front.
#[inline(always)]
fn behind_field<'a>(literal: &[u8], n: u64, bytes: &'a [u8]) -> Option<&'a [u8]>
    ensures { MatchOption result (Unit {0}) (λ rest. bytes.now ≡ literal.now ++ (escaped (decimal n) ++ rest.now)) }
{
    let Ok((m, rest)) = number_behind(literal, bytes) else {
        return None;
    };
    if m != n {
        return None;
    }
    Some(rest)
}

// The bytes behind a literal and numbers with commas between them, if these stand in front.
#[inline(always)]
fn behind_list<'a>(literal: &[u8], numbers: &[u64], bytes: &'a [u8]) -> Option<&'a [u8]>
    ensures { MatchOption result (Unit {0}) (λ rest. bytes.now ≡ literal.now ++ (escaped (joined decimal numbers.now) ++ rest.now)) }
{
    if numbers.is_empty() {
        return None;
    }
    let mut rest = behind_field(literal, numbers[0], bytes)?;
    for i in 1..numbers.len() {
        rest = behind_field(b",", numbers[i], rest)?;
    }
    Some(rest)
}

// The bytes behind the text of a row, if it stands in front.
fn behind_row<'a>(row: &LentRow<'_>, bytes: &'a [u8]) -> Option<&'a [u8]>
    ensures { MatchOption result (Unit {0}) (λ rest. bytes.now ≡ escaped (row_text (lent_row row.now)) ++ rest.now) }
{
    let rest = behind_field(b"{\\\"ann\\\":", row.ann, bytes)?;
    let rest = behind_field(b",\\\"fin\\\":", row.fin, rest)?;
    let rest = behind_list(b",\\\"out\\\":[", row.out, rest)?;
    let rest = behind_field(b"],\\\"r\\\":", u64::from(row.r), rest)?;
    let rest = behind_field(b",\\\"s\\\":", u64::from(row.s), rest)?;
    let rest = behind_field(b",\\\"taken\\\":", row.taken, rest)?;
    behind(b"}", rest)
}

// The bytes behind the comma in front of a row, which the first row has not.
#[inline(always)]
fn behind_gap(first: bool, bytes: &[u8]) -> Option<&[u8]>
    ensures first { first ≡ true → MatchOption result (Unit {0}) (λ rest. bytes.now ≡ rest.now) }
    ensures later { first ≡ false → MatchOption result (Unit {0}) (λ rest. bytes.now ≡ codes "," ++ rest.now) }
{
    if first {
        return Some(bytes);
    }
    behind(b",", bytes)
}

// Whether no row is in front of what follows the row of site `s` for record `r`, and the bytes behind that, if the row stands in
// front or has not left its start.
fn behind_site<'a>(
    book: &Book,
    r: u16,
    s: u16,
    first: bool,
    bytes: &'a [u8],
) -> Option<(bool, &'a [u8])>
    requires record { r < length book.now.records }
    requires site { s < book.now.sites }
    ensures { MatchOption result (Unit {0})
        (λ x. BeginsWithRows first (row_if (has_moved (book_shape book.now) (counter_of book.now) r s) (told_row book.now.sites (counter_of book.now) r s)) bytes.now x.0 x.1.now) }
{
    let Some(row) = book.moved_row(r, s) else {
        return Some((first, bytes));
    };
    let rest = behind_gap(first, bytes)?;
    let rest = behind_row(&row, rest)?;
    Some((false, rest))
}

// The same of all rows of record `r`.
fn behind_record<'a>(book: &Book, r: u16, first: bool, bytes: &'a [u8]) -> Option<(bool, &'a [u8])>
    requires { r < length book.now.records }
    ensures { MatchOption result (Unit {0})
        (λ x. BeginsWithRows first (moved_rows (book_shape book.now) (counter_of book.now) r book.now.sites) bytes.now x.0 x.1.now) }
{
    let mut still = first;
    let mut rest = bytes;
    for s in 0..book.sites() {
        let (next, more) = behind_site(book, r, s, still, rest)?;
        still = next;
        rest = more;
    }
    Some((still, rest))
}

// The bytes behind all rows that have left their start, if these stand in front.
fn behind_rows<'a>(book: &Book, bytes: &'a [u8]) -> Option<&'a [u8]>
    ensures { MatchOption result (Unit {0}) (λ rest. bytes.now ≡ escaped (joined row_text (all_moved (book_shape book.now) (counter_of book.now))) ++ rest.now) }
{
    let mut first = true;
    let mut rest = bytes;
    for r in 0..book.records() {
        let (next, more) = behind_record(book, r, first, rest)?;
        first = next;
        rest = more;
    }
    Some(rest)
}

// The bytes behind a core's own snapshot and its closing quote, if these stand in front.
fn behind_snapshot<'a>(core: &SiteCore, bytes: &'a [u8]) -> Option<&'a [u8]>
    ensures { MatchOption result (Unit {0}) (λ rest. bytes.now ≡ quoted (delta_text (book_snapshot core.now)) rest.now) }
{
    let rest = behind_field(b"{\\\"from\\\":", u64::from(core.site()), bytes)?;
    let rest = behind(b",\\\"rows\\\":[", rest)?;
    let rest = behind_rows(core.book(), rest)?;
    behind(b"],\\\"v\\\":1}\"", rest)
}

// The pass of an entry that asks for a snapshot, and the bytes from its reply on.
#[tactic(auto, unfolding(crate::specs::Shown::pass_of_send))]
#[inline(always)]
fn pass_of_send(line: &[u8]) -> Result<(u16, &[u8]), Unread>
    ensures { Gives (λ x. (x.0, x.1.now)) result (pass_of_send line.now) }
{
    let rest = after(b"{\"call\":\"", line)?;
    let rest = after(b"send\"", rest)?;
    pass_behind(rest)
}

/// Whether a line is seen to be an entry that asks for a snapshot and is answered by the core's own. Takes no memory. Linear in
/// the line and the book.
pub fn shows_snapshot(core: &SiteCore, line: &[u8]) -> bool
    ensures { IsTrue result → IsOwnSnapshot core.now line.now }
{
    let _ = core.layout().sites(); // tells the invariant: it is a layout
    let Ok((_pass, rest)) = pass_of_send(line) else {
        return false;
    };
    match behind_snapshot(core, rest) {
        Some(rest) => is_same(rest, b"}"),
        None => false,
    }
}
