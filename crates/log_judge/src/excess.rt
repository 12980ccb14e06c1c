//! Merged rows, compared with what their sites had done at the cut.
ghost use Rattle.std.specs.Prelude.{◌≡◌, ◌↔◌, ◌<◌, ◌≤◌, ℕ, IsTrue, MatchOption, length, map, slice_index};
ghost use Rattle.merge_core.specs.Delta.{IsRising};
ghost use Rattle.merge_core.specs.Rows.{counters_of};
ghost use Rattle.log_judge.specs.Cut.{is_accepted, rows_brought};
ghost use Rattle.log_judge.specs.Excess.{IsAbove, IsAhead, IsFoundIn, IsFoundAt, brought_by, first_flag, later_flags, no_row, own_in};

use admission_core::{Call, Refusal, Reply};
use desk_log::{Entry, Run};
use log_replay::OwnRows;
use merge_core::Row;

/// The record and the site of a row.
#[derive(Clone, Copy, Debug)]
pub(crate) struct Named {
    pub rec: u16,
    pub origin: u16,
}

/// An entry, and the record and the site of a row that it brought.
#[derive(Clone, Copy, Debug)]
pub(crate) struct Place {
    pub at: u64,
    pub rec: u16,
    pub origin: u16,
}

// Whether some number of a list is above the other's at its place, where one that is not there counts as 0.
fn is_above(xs: &[u64], ys: &[u64]) -> bool
    ensures { IsTrue result ↔ ((k : ℕ) × (slice_index ys.now k < slice_index xs.now k)) }
{
    'numbers: for k in 0..xs.len() {
        let other = if k < ys.len() { ys[k] } else { 0 };
        if xs[k] > other {
            return true;
        }
    }
    false
}

// Whether some counter of a row is above these.
pub(crate) fn is_row_above(row: &Row, out: &[u64], taken: u64, ann: u64, fin: u64) -> bool
    ensures { IsTrue result ↔ IsAbove (counters_of row.now) (record { out = out.now; taken = taken; ann = ann; fin = fin }) }
{
    if row.taken > taken {
        return true;
    }
    if row.ann > ann {
        return true;
    }
    if row.fin > fin {
        return true;
    }
    is_above(row.out.as_slice(), out)
}

// The own row of a site and a record, if there is one.
fn own_row(tables: &[OwnRows], s: u16, r: u16) -> Option<&Row>
    ensures { MatchOption result (own_in tables.now s r ≡ no_row) (λ own. own.now ≡ own_in tables.now s r) }
{
    let own = tables.get(usize::from(s))?;
    own.as_slice().get(usize::from(r))
}

// Whether a row is above what its site had done; without an own row it had done nothing.
fn is_ahead(row: &Row, tables: &[OwnRows]) -> bool
    ensures { IsTrue result ↔ IsAhead tables.now row.now }
{
    match own_row(tables, row.s, row.r) {
        Some(own) => is_row_above(row, own.out.as_slice(), own.taken, own.ann, own.fin),
        None => is_row_above(row, &[], 0, 0, 0),
    }
}

// The first of rising rows that is above what its site had done.
pub(crate) fn first_ahead(rows: &[Row], tables: &[OwnRows]) -> Option<Named>
    requires { IsRising rows.now }
    ensures { IsFoundIn tables.now rows.now result }
{
    let mut rest = rows;
    'rows: while let [row, later @ ..] = rest {
        if is_ahead(row, tables) {
            return Some(Named {
                rec: row.r,
                origin: row.s,
            });
        }
        rest = later;
    }
    None
}

// Whether a merge was carried out.
pub(crate) fn is_accepted(kept: bool, reply: &Reply) -> bool
    ensures { result ≡ is_accepted kept reply.now }
{
    match reply {
        Reply::Merged(_) => true,
        Reply::Refused(Refusal::StoreFault) => kept,
        _ => false,
    }
}

// The first row that an entry brought and that is above what its site had done.
fn entry_excess(kept: bool, entry: &Entry, tables: &[OwnRows]) -> Option<Named>
    ensures { IsFoundIn tables.now (rows_brought kept entry.now) result }
{
    if !is_accepted(kept, &entry.reply) {
        return None;
    }
    match &entry.call {
        Call::Merge(delta) => first_ahead(delta.rows(), tables),
        _ => None,
    }
}

// The same of a run's entries, of which so many are before the cut.
fn run_excess(kept: bool, entries: &[Entry], left: u64, tables: &[OwnRows]) -> Option<Place>
    ensures { IsFoundAt tables.now (map (rows_brought kept) entries.now) left result }
{
    let mut at = 0;
    let mut rest = entries;
    'entries: while let [entry, later @ ..] = rest {
        if at >= left {
            return None;
        }
        if let Some(it) = entry_excess(kept, entry, tables) {
            return Some(Place {
                at,
                rec: it.rec,
                origin: it.origin,
            });
        }
        at += 1;
        rest = later;
    }
    None
}

// The first flag, and those behind it.
fn split_flags(flags: &[bool]) -> (bool, &[bool])
    ensures first { result.0 ≡ first_flag flags.now }
    ensures later { result.1.now ≡ later_flags flags.now }
{
    match flags {
        [flag, later @ ..] => (*flag, later),
        [] => (false, flags),
    }
}

/// The first row above what its site had done, of those that a site's merges before the cut brought. Linear in the
/// entries, a merge in its rows.
pub(crate) fn site_excess(
    flags: &[bool],
    runs: &[Run],
    cut: u64,
    tables: &[OwnRows],
) -> Option<Place>
    ensures { IsFoundAt tables.now (brought_by flags.now runs.now) cut result }
{
    let mut left = cut;
    let mut at = 0;
    let mut rest = runs;
    let mut flags_left = flags;
    'runs: while let [run, later @ ..] = rest {
        let (kept, later_flags) = split_flags(flags_left);
        if let Some(it) = run_excess(kept, run.entries.as_slice(), left, tables) {
            return Some(Place {
                at: at + it.at,
                rec: it.rec,
                origin: it.origin,
            });
        }
        let here = run.entries.len() as u64;
        if left <= here {
            return None;
        }
        left -= here;
        at += here;
        rest = later;
        flags_left = later_flags;
    }
    None
}
