//! Rows that tell no more than a site was seen to do.
ghost use Rattle.std.specs.Prelude.{◌<◌, ◌≤◌, ℕ, IsTrue, length, slice_index, slice_index_or};
ghost use Rattle.merge_core.specs.declared.cell.Cell.{Cell as CellThere};
ghost use Rattle.merge_core.specs.declared.delta.Row.{Row as RowThere};
ghost use Rattle.merge_core.specs.Rows.{counter_in, counters_of};
ghost use Rattle.admission_model.specs.Account.{Account, own};
ghost use Rattle.admission_core.specs.Core.{Stands};

use crate::own::OwnRows;
use admission_core::SiteCore;
use merge_core::Row;

/// Whether a row of a site tells no more than it has done, by its core. Linear in the sites.
#[inline(always)]
pub(crate) fn is_done_by(row: &Row, core: &SiteCore) -> bool
    ensures { IsTrue result → (a : Account) → Stands a core.now → (cell : CellThere) → counter_in (counters_of row.now) cell ≤ own a row.now.r cell }
{
    if row.s != core.site() {
        return false;
    }
    core.book().covers(row)
}

// Whether no number of a list is above the other's at its place.
fn is_within(xs: &[u64], ys: &[u64]) -> bool
    ensures { IsTrue result → (j : ℕ) → slice_index xs.now j ≤ slice_index ys.now j }
{
    if xs.len() > ys.len() {
        return false;
    }
    'numbers: for k in 0..xs.len() {
        if xs[k] > ys[k] {
            return false;
        }
    }
    true
}

/// Whether a row tells no more than the own row of its record. Linear in the sites.
pub(crate) fn is_done_in(row: &Row, own: &OwnRows) -> bool
    ensures { IsTrue result → (row.now.r < length own.now)
        × ((none : RowThere) (cell : CellThere) → counter_in (counters_of row.now) cell ≤ counter_in (counters_of (slice_index_or own.now row.now.r none)) cell) }
{
    let own = own.as_slice();
    let r = usize::from(row.r);
    if r >= own.len() {
        return false;
    }
    let it = &own[r];
    if row.taken > it.taken {
        return false;
    }
    if row.ann > it.ann {
        return false;
    }
    if row.fin > it.fin {
        return false;
    }
    is_within(row.out.as_slice(), it.out.as_slice())
}
