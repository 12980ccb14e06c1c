//! Deltas: which rows make one, and which rows a thin one has.
use grow_counters::Counts;
use merge_core::*;
use std::alloc::Global;

/// A row for record 0: its site, its counters of rights, and what was taken, announced and finished.
pub type Line = (u16, &'static [u64], u64, u64, u64);

/// The row of a line.
pub fn row(alloc: Global, line: &Line) -> Option<Row> {
    let out = Vec::from_slice(alloc, line.1).ok()?;
    Some(Row {
        r: 0,
        s: line.0,
        out: Counts::from_vec(out),
        taken: line.2,
        ann: line.3,
        fin: line.4,
    })
}

/// The delta of these rows, from site 0.
pub fn delta(alloc: Global, lines: &[Line]) -> Option<Delta> {
    let mut rows = Vec::new(alloc);
    for line in lines {
        rows.push(row(alloc, line)?).ok()?;
    }
    Delta::new(0, rows).ok()
}

// How many rows the first delta has for which the other has no equal one.
fn thin_size(alloc: Global, one: &Delta, other: &Delta) -> Option<usize> {
    Some(one.thin(alloc, other).ok()?.rows().len())
}

// The same in both directions.
fn apart(alloc: Global, first: &[Line], second: &[Line]) -> Option<(usize, usize)> {
    let first = delta(alloc, first)?;
    let second = delta(alloc, second)?;
    let forth = thin_size(alloc, &second, &first)?;
    Some((forth, thin_size(alloc, &first, &second)?))
}

// What a site tells that helps a waiting writer twice: its own row, which moves, and the writer's.
const FIRST: [Line; 2] = [(0, &[3, 2, 0], 1, 0, 0), (1, &[0, 0, 0], 0, 1, 0)];

const SECOND: [Line; 2] = [(0, &[4, 3, 0], 1, 0, 0), (1, &[0, 0, 0], 0, 1, 0)];

fn thin_of_second(alloc: Global) -> Option<Delta> {
    let first = delta(alloc, &FIRST)?;
    let second = delta(alloc, &SECOND)?;
    second.thin(alloc, &first).ok()
}

// Whether a row is of site 0, whose seats taken are 1, and has these counters of rights.
fn is_own_row(row: &Row, rights: &[u64]) -> bool {
    row.s == 0 && row.taken == 1 && row.out.as_slice() == rights
}

// How many rows the thin delta has, and how many of them are the one that changed.
fn thin_rows(alloc: Global) -> Option<(usize, usize)> {
    let thin = thin_of_second(alloc)?;
    let mut changed = 0usize;
    for row in thin.rows() {
        if is_own_row(row, &[4, 3, 0]) {
            changed = changed.saturating_add(1);
        }
    }
    Some((thin.rows().len(), changed))
}

#[test]
fn a_thin_delta_has_the_rows_that_changed(rt: HostRuntime) {
    assert!(rt; thin_rows(rt.alloc()) == Some((1, 1)));
}

#[test]
fn a_delta_is_thin_against_itself(rt: HostRuntime) {
    assert!(rt; apart(rt.alloc(), &SECOND, &SECOND) == Some((0, 0)));
}

// Rows that differ from the first in one thing alone.
const OTHERS: [Line; 6] = [
    (0, &[2, 1], 1, 1, 0),
    (0, &[2, 0, 0], 1, 1, 0),
    (0, &[2, 0], 2, 1, 0),
    (0, &[2, 0], 1, 2, 0),
    (0, &[2, 0], 1, 1, 1),
    (1, &[2, 0], 1, 1, 0),
];

// The first of these rows that is not another.
fn first_same(alloc: Global) -> Option<usize> {
    for (k, other) in OTHERS.iter().enumerate() {
        if apart(alloc, &[(0, &[2, 0], 1, 1, 0)], &[*other]) != Some((1, 1)) {
            return Some(k);
        }
    }
    None
}

#[test]
fn each_counter_makes_a_row_another(rt: HostRuntime) {
    assert_eq!(rt; first_same(rt.alloc()), None);
}

#[test]
fn rows_rise(rt: HostRuntime) {
    let falling = [(1, [0].as_slice(), 0, 0, 0), (0, [2].as_slice(), 0, 0, 0)];
    assert!(rt;
        delta(rt.alloc(), &falling).is_none(),
        "rows that fall are a delta"
    );
}

fn is_label(alloc: Global, site: u16) -> bool {
    Delta::new(site, Vec::new(alloc)).is_ok()
}

#[test]
fn labels_are_sites(rt: HostRuntime) {
    assert!(rt; [is_label(rt.alloc(), 15), is_label(rt.alloc(), 16)] == [true, false]);
}
