//! Which merges may tell more than their sites were seen to do, so that they have to be kept.
ghost use Rattle.std.specs.Prelude.{◌≡◌, ◌≤◌, false, true};
ghost use Rattle.merge_core.specs.declared.cell.Cell.{Cell as CellThere};
ghost use Rattle.merge_core.specs.Rows.{counter_in, counters_of};
ghost use Rattle.admission_model.specs.Account.{own};
ghost use Rattle.log_judge.specs.Cut.{is_accepted, rows_brought};
ghost use Rattle.log_judge.specs.Stream.{AreDone, AreOfSome, AtTheirCut};

use crate::excess::is_accepted;
use crate::keeping::Keeping;
use crate::stream::Logs;
use admission_core::Call;
use desk_log::Entry;
use merge_core::Row;

// Whether a row may tell more than its site has done at the cut, by what was seen of its log.
fn is_open(row: &Row, logs: &Logs) -> bool
    requires { AreOfSome logs.now }
    ensures { result ≡ false → AtTheirCut logs.now (λ accounts. (cell : CellThere) → counter_in (counters_of row.now) cell ≤ own (accounts row.now.s) row.now.r cell) }
{
    let s = usize::from(row.s);
    if s >= logs.sites.len() {
        return true;
    }
    let log = &logs.sites[s];
    !log.replay.has_done(row)
}

// Whether some row does.
fn some_open(rows: &[Row], logs: &Logs) -> bool
    requires { AreOfSome logs.now }
    ensures { result ≡ false → AtTheirCut logs.now (λ accounts. AreDone accounts rows.now) }
{
    let mut rest = rows;
    'rows: while let [row, later @ ..] = rest {
        if is_open(row, logs) {
            return true;
        }
        rest = later;
    }
    false
}

// Whether an entry is a merge that was carried out, of which some row does.
fn is_open_merge(entry: &Entry, logs: &Logs) -> bool
    requires { AreOfSome logs.now }
    ensures done { result ≡ false → AtTheirCut logs.now (λ accounts. AreDone accounts (rows_brought false entry.now)) }
    ensures merged { result ≡ true → is_accepted false entry.now.reply ≡ true }
{
    if !is_accepted(false, &entry.reply) {
        return false;
    }
    match &entry.call {
        Call::Merge(delta) => some_open(delta.rows(), logs),
        _ => false,
    }
}

/// Whether an entry is a merge that was carried out and may have to be kept. By own rows at the cut that is told later.
pub(crate) fn is_wanted(entry: &Entry, logs: &Logs) -> bool
    requires { AreOfSome logs.now }
    ensures done { result ≡ false → AtTheirCut logs.now (λ accounts. AreDone accounts (rows_brought false entry.now)) }
    ensures merged { result ≡ true → is_accepted false entry.now.reply ≡ true }
{
    match &logs.keeping {
        Keeping::Above(_) => is_accepted(false, &entry.reply),
        _ => is_open_merge(entry, logs),
    }
}
