ghost use Rattle.std.specs.Prelude.{◌≡◌, ℕ, ◌<◌, ◌≤◌, length, IfOk, slice_index_or};
ghost use Rattle.merge_core.specs.declared.delta.Row.{Row};
ghost use Rattle.merge_core.specs.Delta.{IsRising, ComesBefore};
ghost use Rattle.merge_core.specs.Thin.{is_same_row, is_same_in, thin_rows};

use super::Row;
use super::order::comes_before;
use std::alloc::{AllocError, Global};

/// The rows for which the earlier ones have no equal row. Both rise, so one pass over each is enough.
pub fn thin_rows(alloc: Global, rows: &[Row], earlier: &[Row]) -> Result<Vec<Row>, AllocError>
    requires rising { IsRising rows.now }
    requires earlier_rising { IsRising earlier.now }
    ensures { IfOk result (λ thin. thin.items ≡ thin_rows rows.now earlier.now) }
{
    let mut thin = Vec::new(alloc);
    let mut next = 0;
    for row in rows {
        next = first_not_before(earlier, next, row);
        if !is_same_at(earlier, next, row) {
            thin.push(row.try_copy(alloc)?)?;
        }
    }
    Ok(thin)
}

// The least index from `start` on at which a row does not stand before this one.
fn first_not_before(rows: &[Row], start: usize, row: &Row) -> usize
    requires { start ≤ length rows.now }
    ensures within { result ≤ length rows.now }
    ensures onward { start ≤ result }
    ensures passed { (k : ℕ) (d : Row) → start ≤ k → k < result → ComesBefore (slice_index_or rows.now k d) row.now }
    ensures here { (d : Row) → result < length rows.now → ¬ ComesBefore (slice_index_or rows.now result d) row.now }
{
    for i in start..rows.len() {
        if !comes_before(&rows[i], row) {
            return i;
        }
    }
    rows.len()
}

// Whether there is a row at `i` that is equal to this one.
fn is_same_at(rows: &[Row], i: usize, row: &Row) -> bool
    ensures { result ≡ is_same_in rows.now i row.now }
{
    if i >= rows.len() {
        return false;
    }
    is_same(row, &rows[i])
}

// Whether two rows have one place and the same counters.
fn is_same(p: &Row, q: &Row) -> bool
    ensures { result ≡ is_same_row p.now q.now }
{
    p.r == q.r
        && p.s == q.s
        && p.out.as_slice() == q.out.as_slice()
        && p.taken == q.taken
        && p.ann == q.ann
        && p.fin == q.fin
}
