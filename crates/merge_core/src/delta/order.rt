ghost use Rattle.std.specs.Prelude.{◌≡◌, ℕ, ◌+◌, ◌^◌, ◌<◌, ◌≤◌, ◌↔◌, length, All, IsTrue, IfOk};
ghost use Rattle.std.specs.List.{AllByRecursion};
ghost use Rattle.merge_core.specs.Delta.{IsRow, IsRising, ComesBefore};

use super::Row;
use crate::layout::{MOST_RECORDS, MOST_SITES};
use std::alloc::{AllocError, Global};

/// Whether the rows rise strictly and each is a row of some layout. Linear in the rows.
pub fn are_rows(rows: &[Row]) -> bool
    ensures { IsTrue result ↔ (IsRising rows.now × AllByRecursion IsRow rows.now) }
{
    all_rows(rows) && are_rising(rows)
}

fn all_rows(rows: &[Row]) -> bool
    ensures { IsTrue result ↔ All IsRow rows.now }
{
    rows.iter().all(|row| is_row(row))
}

fn are_rising(rows: &[Row]) -> bool
    ensures { IsTrue result ↔ IsRising rows.now }
{
    for i in 1..rows.len() {
        if !comes_before(&rows[i - 1], &rows[i]) {
            return false;
        }
    }
    true
}

/// An equal list of rows.
pub fn copied(alloc: Global, rows: &[Row]) -> Result<Vec<Row>, AllocError>
    ensures { IfOk result (λ copy. copy.items ≡ rows.now) }
{
    let mut copy = Vec::with_capacity(alloc, rows.len())?;
    for row in rows {
        copy.push(row.try_copy(alloc)?)?;
    }
    Ok(copy)
}

/// Whether row `p` stands before row `q`: by record, then by site.
pub fn comes_before(p: &Row, q: &Row) -> bool
    ensures { IsTrue result ↔ ComesBefore p.now q.now }
{
    p.r < q.r || (p.r == q.r && p.s < q.s)
}

fn is_row(row: &Row) -> bool
    ensures { IsTrue result ↔ IsRow row.now }
{
    let out = row.out.as_slice();
    let _taken = row.taken; // read, so that it is known to fit 64 bits
    let _ann = row.ann; // likewise
    let _fin = row.fin; // likewise
    if usize::from(row.r) >= MOST_RECORDS || row.s >= MOST_SITES {
        return false;
    }
    if out.is_empty() || out.len() > usize::from(MOST_SITES) {
        return false;
    }
    true
}
