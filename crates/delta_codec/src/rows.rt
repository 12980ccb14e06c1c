// Rows of a delta's text.
ghost use Rattle.std.specs.Prelude.{◌≡◌, ℕ, List, Some};
ghost use Rattle.text_parts.specs.Readers.{Gives, joined_at, number_at};
ghost use Rattle.delta_codec.specs.DeltaReaders.{number_behind, short_behind, numbers_behind, row_at, rows_at};

use grow_counters::Counts;
use merge_core::{MOST_RECORDS, MOST_SITES, Row};
use std::alloc::Global;
use text_parts::{Element, Unread, after, behind_comma, joined_at, number_at, short_at};

// Behind the first counter of a row there are at most so many.
const MORE_COUNTERS: usize = MOST_SITES as usize - 1;

// Behind the first row of a delta there are at most so many.
const MORE_ROWS: u16 = MOST_SITES * MOST_RECORDS as u16 - 1;

/// The number behind a literal at the front, and the bytes behind it.
#[tactic(auto, unfolding(crate::specs::DeltaReaders::number_behind))]
#[inline(always)]
pub fn number_behind<'a>(literal: &[u8], bytes: &'a [u8]) -> Result<(u64, &'a [u8]), Unread>
    ensures { Gives (λ x. (x.0, x.1.now)) result (number_behind literal.now bytes.now) }
{
    number_at(after(literal, bytes)?)
}

/// The number below 2^16 behind a literal at the front, and the bytes behind it.
#[tactic(auto, unfolding(crate::specs::DeltaReaders::short_behind))]
#[inline(always)]
pub fn short_behind<'a>(literal: &[u8], bytes: &'a [u8]) -> Result<(u16, &'a [u8]), Unread>
    ensures { Gives (λ x. (x.0, x.1.now)) result (short_behind literal.now bytes.now) }
{
    short_at(after(literal, bytes)?)
}

// A list of these numbers, and the bytes behind them.
#[inline(always)]
fn listed<'a>(
    alloc: Global,
    numbers: &[u64],
    rest: &'a [u8],
) -> Result<(Vec<u64>, &'a [u8]), Unread>
    ensures { Gives {Y = List ℕ × List ℕ} (λ x. (x.0.items, x.1.now)) result (Some (numbers.now, rest.now)) }
{
    Ok((Vec::from_slice(alloc, numbers)?, rest))
}

// 1 to 16 numbers with commas between them, and the bytes behind them. The list has a place for each and no more.
#[tactic(auto, unfolding(text_parts::specs::Readers::joined_at))]
#[inline(always)]
fn counters_at(alloc: Global, bytes: &[u8]) -> Result<(Vec<u64>, &[u8]), Unread>
    ensures { Gives (λ x. (x.0.items, x.1.now)) result (joined_at number_at 15 bytes.now) }
{
    let mut numbers = [0; MOST_SITES as usize];
    let (first, mut rest) = number_at(bytes)?;
    numbers[0] = first;
    for i in 0..MORE_COUNTERS {
        let Some(tail) = behind_comma(rest) else {
            return listed(alloc, &numbers[..i + 1], rest);
        };
        let (number, behind) = number_at(tail)?;
        numbers[i + 1] = number;
        rest = behind;
    }
    listed(alloc, &numbers, rest)
}

/// The list of 1 to 16 numbers behind a literal at the front, and the bytes behind it.
#[tactic(auto, unfolding(crate::specs::DeltaReaders::numbers_behind))]
#[inline(always)]
pub fn numbers_behind<'a>(
    alloc: Global,
    literal: &[u8],
    bytes: &'a [u8],
) -> Result<(Vec<u64>, &'a [u8]), Unread>
    ensures { Gives (λ x. (x.0.items, x.1.now)) result (numbers_behind literal.now bytes.now) }
{
    counters_at(alloc, after(literal, bytes)?)
}

#[tactic(auto, unfolding(crate::specs::DeltaReaders::row_at))]
#[inline(always)]
fn row_at(alloc: Global, bytes: &[u8]) -> Result<(Row, &[u8]), Unread>
    ensures { Gives (λ x. (x.0, x.1.now)) result (row_at bytes.now) }
{
    let (ann, rest) = number_behind(b"{\"ann\":", bytes)?;
    let (fin, rest) = number_behind(b",\"fin\":", rest)?;
    let (out, rest) = numbers_behind(alloc, b",\"out\":[", rest)?;
    let (r, rest) = short_behind(b"],\"r\":", rest)?;
    let (s, rest) = short_behind(b",\"s\":", rest)?;
    let (taken, rest) = number_behind(b",\"taken\":", rest)?;
    let rest = after(b"}", rest)?;
    let out = Counts::from_vec(out);
    let row = Row {
        r,
        s,
        out,
        taken,
        ann,
        fin,
    };
    Ok((row, rest))
}

/// The text of a row, as a way to read and write one.
pub enum RowText {}

impl Element<Row> for RowText {
    ghost use Rattle.delta_codec.specs.DeltaReaders.{row_at};

    ghost at = { row_at };

    #[inline(always)]
    fn read_front(alloc: Global, bytes: &[u8]) -> Result<(Row, &[u8]), Unread> {
        row_at(alloc, bytes)
    }
}

/// The rows up to the closing bracket, and the bytes from there on.
#[tactic(auto, unfolding(crate::specs::DeltaReaders::rows_at))]
pub fn rows_at(alloc: Global, bytes: &[u8]) -> Result<(Vec<Row>, &[u8]), Unread>
    ensures { Gives (λ x. (x.0.items, x.1.now)) result (rows_at bytes.now) }
{
    match bytes {
        [] => Err(Unread::Refused),
        [b']', ..] => Ok((Vec::new(alloc), bytes)),
        [_, ..] => joined_at::<RowText, Row>(alloc, MORE_ROWS, bytes),
    }
}
