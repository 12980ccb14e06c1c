//! Layouts: which fault one has, and what it tells.
use merge_core::*;
use std::alloc::Global;

/// A record: its name, its seats, its home and its problem.
pub type Line = (&'static str, u32, u16, u16);

/// The record of a line.
pub fn spec(alloc: Global, line: &Line) -> Option<RecordSpec> {
    let text = String::from_str(alloc, line.0).ok()?;
    Some(RecordSpec {
        name: RecordName::from_string(text),
        seats: line.1,
        home: line.2,
        problem: line.3,
    })
}

fn push_spec(alloc: Global, records: &mut Vec<RecordSpec>, line: &Line) -> bool {
    match spec(alloc, line) {
        Some(record) => records.push(record).is_ok(),
        None => false,
    }
}

fn specs(alloc: Global, lines: &[Line]) -> Option<Vec<RecordSpec>> {
    let mut records = Vec::new(alloc);
    for line in lines {
        if !push_spec(alloc, &mut records, line) {
            return None;
        }
    }
    Some(records)
}

/// The layout of these records at so many sites, or its fault.
pub fn layout(alloc: Global, sites: u16, lines: &[Line]) -> Option<Result<Layout, LayoutError>> {
    Some(Layout::new(sites, specs(alloc, lines)?))
}

// Sites, records, and the fault that is told: the first kind of those that some record has.
const FAULTS: [(u16, &'static [Line], LayoutError); 12] = [
    (0, &[], LayoutError::TooFewSites),
    (17, &[], LayoutError::TooManySites),
    (2, &[], LayoutError::NoRecords),
    (2, &[("a", 0, 2, 3), ("", 0, 2, 3)], LayoutError::BadName),
    (2, &[("a", 0, 2, 3), ("1a", 0, 2, 3)], LayoutError::BadName),
    (2, &[("A", 0, 2, 3), ("a", 0, 2, 3)], LayoutError::BadName),
    (2, &[("a234567890123456x", 0, 2, 3)], LayoutError::BadName),
    (2, &[("a", 0, 2, 3), ("a", 0, 2, 3)], LayoutError::SameName),
    (2, &[("a", 0, 2, 3), ("b", 1, 0, 1)], LayoutError::BadSeats),
    (2, &[("a", 65_536, 2, 3)], LayoutError::BadSeats),
    (2, &[("a", 2, 2, 3)], LayoutError::BadHome),
    (2, &[("a", 2, 0, 3)], LayoutError::BadProblem),
];

fn fault_of(alloc: Global, sites: u16, lines: &[Line]) -> Option<LayoutError> {
    layout(alloc, sites, lines)?.err()
}

// The first of these layouts that has another fault.
fn first_wrong(alloc: Global) -> Option<usize> {
    for (k, (sites, lines, fault)) in FAULTS.iter().enumerate() {
        if fault_of(alloc, *sites, *lines) != Some(*fault) {
            return Some(k);
        }
    }
    None
}

#[test]
fn faults_come_kind_by_kind(rt: HostRuntime) {
    assert_eq!(rt; first_wrong(rt.alloc()), None);
}

#[test]
fn a_record_too_many(rt: HostRuntime) {
    let lines = [("", 0, 2, 3); 257];
    assert!(rt; fault_of(rt.alloc(), 2, &lines) == Some(LayoutError::TooManyRecords));
}

fn copy_of(alloc: Global, sites: u16, lines: &[Line]) -> Option<Layout> {
    let layout = layout(alloc, sites, lines)?.ok()?;
    layout.try_copy(alloc).ok()
}

fn is_spec(record: &RecordSpec, line: &Line) -> bool {
    record.name.as_str() == line.0
        && (record.seats, record.home, record.problem) == (line.1, line.2, line.3)
}

// The sites of the copy of a layout of one record, how many records it has, and how many of them are that one.
fn copied(alloc: Global, sites: u16, line: &Line) -> Option<(u16, usize, usize)> {
    let copy = copy_of(alloc, sites, &[*line])?;
    let mut same = 0usize;
    for record in copy.records() {
        if is_spec(record, line) {
            same = same.saturating_add(1);
        }
    }
    Some((copy.sites(), copy.records().len(), same))
}

#[test]
fn a_layout_tells_its_records(rt: HostRuntime) {
    let copy = copied(rt.alloc(), 16, &("a-9", 65_535, 15, 2));
    assert!(rt; copy == Some((16, 1, 1)));
}

// Whether a name of this text gives the text back.
fn is_given_back(alloc: Global, text: &str) -> Option<bool> {
    let name = RecordName::from_string(String::from_str(alloc, text).ok()?);
    Some(name.into_string().as_str() == text)
}

#[test]
fn a_name_gives_its_text_back(rt: HostRuntime) {
    assert!(rt; is_given_back(rt.alloc(), "a") == Some(true));
    assert!(rt; is_given_back(rt.alloc(), "a-23456789012345") == Some(true));
}

fn sites_when_cut(alloc: Global, sites: u16) -> Option<Option<u16>> {
    let layout = layout(alloc, 3, &[("a", 2, 1, 1)])?.ok()?;
    let cut = layout.at_sites(alloc, sites).ok()?;
    Some(cut.map(|earlier| earlier.sites()))
}

// A layout whose home is site 1 may be cut to two sites, and not to one.
#[test]
fn a_layout_is_cut(rt: HostRuntime) {
    assert!(rt; sites_when_cut(rt.alloc(), 2) == Some(Some(2)));
    assert_eq!(rt; sites_when_cut(rt.alloc(), 1), Some(None));
}
