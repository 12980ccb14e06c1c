//! Deltas between quotes: in front of each quote of the text of a delta stands a backslash.
ghost use Rattle.std.specs.Prelude.{◌≡◌};
ghost use Rattle.merge_core.specs.Delta.{IsDelta};
ghost use Rattle.delta_codec.specs.DeltaText.{delta_text};
ghost use Rattle.text_parts.specs.Readers.{Gives};
ghost use Rattle.transcript_reader.specs.Quoted.{ReadsQuoted};
ghost use Rattle.transcript_reader.specs.Deltas.{row_at, rows_at, delta_at};

use delta_codec::{number_behind, numbers_behind, short_behind};
use grow_counters::Counts;
use merge_core::{Delta, MOST_RECORDS, MOST_SITES, Row};
use std::alloc::Global;
use text_parts::{Element, Unread, after, joined_at};

// Behind the first row of a delta there are at most so many.
const MORE_ROWS: u16 = MOST_SITES * MOST_RECORDS as u16 - 1;

#[tactic(auto, unfolding(crate::specs::Deltas::row_at))]
#[inline(always)]
fn row_at(alloc: Global, bytes: &[u8]) -> Result<(Row, &[u8]), Unread>
    ensures { Gives (λ x. (x.0, x.1.now)) result (row_at bytes.now) }
{
    let (ann, rest) = number_behind(b"{\\\"ann\\\":", bytes)?;
    let (fin, rest) = number_behind(b",\\\"fin\\\":", rest)?;
    let (out, rest) = numbers_behind(alloc, b",\\\"out\\\":[", rest)?;
    let (r, rest) = short_behind(b"],\\\"r\\\":", rest)?;
    let (s, rest) = short_behind(b",\\\"s\\\":", rest)?;
    let (taken, rest) = number_behind(b",\\\"taken\\\":", rest)?;
    let rest = after(b"}", rest)?;
    let out = Counts::from_vec(out);
    let row = Row {
        r,
        s,
        out,
        taken,
        ann,
        fin,
    };
    Ok((row, rest))
}

// The text of a row between quotes, as a way to read one.
enum QuotedRow {}

impl Element<Row> for QuotedRow {
    ghost use Rattle.transcript_reader.specs.Deltas.{row_at};

    ghost at = { row_at };

    #[inline(always)]
    fn read_front(alloc: Global, bytes: &[u8]) -> Result<(Row, &[u8]), Unread> {
        row_at(alloc, bytes)
    }
}

// The rows up to the closing bracket, and the bytes from there on.
#[tactic(auto, unfolding(crate::specs::Deltas::rows_at))]
fn rows_at(alloc: Global, bytes: &[u8]) -> Result<(Vec<Row>, &[u8]), Unread>
    ensures { Gives (λ x. (x.0.items, x.1.now)) result (rows_at bytes.now) }
{
    match bytes {
        [] => Err(Unread::Refused),
        [b']', ..] => Ok((Vec::new(alloc), bytes)),
        [_, ..] => joined_at::<QuotedRow, Row>(alloc, MORE_ROWS, bytes),
    }
}

// The parts of a delta, and the bytes behind the closing quote. Whether the rows rise is not judged here.
#[tactic(auto, unfolding(crate::specs::Deltas::delta_at))]
fn parts_at(alloc: Global, bytes: &[u8]) -> Result<(u16, Vec<Row>, &[u8]), Unread>
    ensures { Gives (λ x. (record { from = x.0; rows = x.1.items }, x.2.now)) result (delta_at bytes.now) }
{
    let (from, rest) = short_behind(b"{\\\"from\\\":", bytes)?;
    let rest = after(b",\\\"rows\\\":[", rest)?;
    let (rows, rest) = rows_at(alloc, rest)?;
    let rest = after(b"],\\\"v\\\":1}\"", rest)?;
    Ok((from, rows, rest))
}

/// The delta whose text stands up to the closing quote, and the bytes behind it. One pass over the text and no copy of it.
pub(crate) fn told_at(alloc: Global, bytes: &[u8]) -> Result<(Delta, &[u8]), Unread>
    ensures { ReadsQuoted (λ x. (x.0, x.1.now)) IsDelta delta_text bytes.now result }
{
    let (from, rows, rest) = parts_at(alloc, bytes)?;
    match Delta::new(from, rows) {
        Ok(delta) => Ok((delta, rest)),
        Err(_) => Err(Unread::Refused),
    }
}
