//! Layouts and deltas that the tests of this crate begin with.
use grow_counters::Counts;
use merge_core::{Delta, Layout, RecordName, RecordSpec, Row};
use std::alloc::Global;

/// A record: its name, its seats, its home and its problem.
pub type Line = (&'static str, u32, u16, u16);

fn push_record(
    records: &mut Vec<RecordSpec>,
    text: String,
    seats: u32,
    home: u16,
    problem: u16,
) -> bool {
    let name = RecordName::from_string(text);
    records
        .push(RecordSpec {
            name,
            seats,
            home,
            problem,
        })
        .is_ok()
}

fn push_line(alloc: Global, records: &mut Vec<RecordSpec>, line: &Line) -> bool {
    match String::from_str(alloc, line.0) {
        Ok(text) => push_record(records, text, line.1, line.2, line.3),
        Err(_) => false,
    }
}

/// The layout of these records.
pub fn layout_of(alloc: Global, sites: u16, lines: &[Line]) -> Option<Layout> {
    let mut records = Vec::new(alloc);
    for line in lines {
        if !push_line(alloc, &mut records, line) {
            return None;
        }
    }
    Layout::new(sites, records).ok()
}

/// The layout of one record `a`, whose seats start at site 0.
pub fn one_record(alloc: Global, sites: u16, seats: u32, problem: u16) -> Option<Layout> {
    layout_of(alloc, sites, &[("a", seats, 0, problem)])
}

fn push_greatest(alloc: Global, records: &mut Vec<RecordSpec>, r: u16, home: u16) -> bool {
    match format!(in alloc; "record-number{r:03}") {
        Ok(text) => push_record(records, text, 65_535, home, 2),
        Err(_) => false,
    }
}

/// 16 sites, and 256 records with names of 16 bytes and as many seats as there may be, under problem 2.
pub fn greatest_layout(alloc: Global, home: u16) -> Option<Layout> {
    let mut records = Vec::new(alloc);
    for r in 0..256 {
        if !push_greatest(alloc, &mut records, r, home) {
            return None;
        }
    }
    Layout::new(16, records).ok()
}

/// A row: its record and site, its counters of rights, and what was taken, announced and finished.
pub type Counters = (u16, u16, &'static [u64], [u64; 3]);

/// The row of these counters.
fn row(alloc: Global, counters: Counters) -> Option<Row> {
    let [taken, ann, fin] = counters.3;
    Some(Row {
        r: counters.0,
        s: counters.1,
        out: Counts::from_vec(Vec::from_slice(alloc, counters.2).ok()?),
        taken,
        ann,
        fin,
    })
}

fn one_row(alloc: Global, row: Row) -> Option<Delta> {
    let from = row.s;
    let mut rows = Vec::new(alloc);
    rows.push(row).ok()?;
    Delta::new(from, rows).ok()
}

/// The delta of one row, from its own site.
pub fn delta(alloc: Global, counters: Counters) -> Option<Delta> {
    one_row(alloc, row(alloc, counters)?)
}

fn push_full(alloc: Global, rows: &mut Vec<Row>, r: u16, s: u16, most: u64) -> bool {
    let Ok(out) = vec![in alloc; most; 16] else {
        return false;
    };
    rows.push(Row {
        r,
        s,
        out: Counts::from_vec(out),
        taken: most,
        ann: most,
        fin: most,
    })
    .is_ok()
}

/// The rows of 256 records at 16 sites, from a first site on, all of whose counters are the same.
pub fn full_delta(alloc: Global, first: u16, most: u64) -> Option<Delta> {
    let mut rows = Vec::new(alloc);
    for k in 0..4096u16 {
        if k % 16 >= first && !push_full(alloc, &mut rows, k / 16, k % 16, most) {
            return None;
        }
    }
    Delta::new(15, rows).ok()
}

/// Whether two deltas have one label and, row by row, the same counters.
pub fn same_delta(alloc: Global, one: &Delta, other: &Delta) -> Option<bool> {
    let apart = one.thin(alloc, other).ok()?;
    Some(
        one.from_site() == other.from_site()
            && one.rows().len() == other.rows().len()
            && apart.rows().is_empty(),
    )
}
