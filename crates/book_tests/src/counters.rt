//! Counters of one row: what each call answers, and the counters that it leaves.
use grow_counters::{CounterError, Counts};
use std::alloc::Global;

// A call of a row of counters, and its answer, where it has one. Another row stands as its counters.
// Raises and room are of the first counter.
enum Step {
    Count(usize),
    IsEmpty(bool),
    HasRoom {
        by: u64,
        most: u64,
        answer: bool,
    },
    Holds(&'static [u64], bool),
    Raise {
        by: u64,
        most: u64,
        answer: Result<(), CounterError>,
    },
    Join(&'static [u64], u64),
    KeepOne {
        until: usize,
        kept: usize,
    },
    Reset {
        at: usize,
        value: u64,
    },
}

// A call and the counters after it.
type Line = (Step, &'static [u64]);

const FULL: Result<(), CounterError> = Err(CounterError::CounterFull);

// Two counters, raised, merged and lowered.
const TWO: [Line; 11] = [
    (Step::Count(2), &[0, 0]),
    (
        Step::Raise {
            by: 3,
            most: 10,
            answer: Ok(()),
        },
        &[3, 0],
    ),
    (
        Step::Raise {
            by: 8,
            most: 10,
            answer: FULL,
        },
        &[3, 0],
    ),
    (Step::Holds(&[1, 5], false), &[3, 0]),
    (Step::Join(&[1, 5], 1), &[3, 5]),
    (Step::Holds(&[1, 5], true), &[3, 5]),
    (Step::Count(2), &[3, 5]),
    (Step::KeepOne { until: 2, kept: 1 }, &[0, 5]),
    (Step::IsEmpty(false), &[0, 5]),
    (Step::Reset { at: 1, value: 4 }, &[0, 4]),
    (Step::Count(2), &[0, 4]),
];

const MOST: u64 = u64::MAX;

// A counter at the greatest number that it can hold.
const GREATEST: [Line; 5] = [
    (Step::Count(1), &[0]),
    (
        Step::Raise {
            by: MOST,
            most: MOST,
            answer: Ok(()),
        },
        &[MOST],
    ),
    (
        Step::HasRoom {
            by: 0,
            most: MOST,
            answer: true,
        },
        &[MOST],
    ),
    (
        Step::HasRoom {
            by: 1,
            most: MOST,
            answer: false,
        },
        &[MOST],
    ),
    (
        Step::Raise {
            by: 1,
            most: MOST,
            answer: FULL,
        },
        &[MOST],
    ),
];

// The row of a list, if it has as many counters.
fn counts(alloc: Global, counters: &[u64]) -> Option<Counts> {
    let row = Counts::from_vec(Vec::from_slice(alloc, counters).ok()?);
    if row.len() == counters.len() {
        Some(row)
    } else {
        None
    }
}

fn has_room(row: &Counts, by: u64, most: u64) -> Option<bool> {
    if row.is_empty() {
        return None;
    }
    Some(row.has_room(0, by, most))
}

fn raise(row: &mut Counts, by: u64, most: u64) -> Option<Result<(), CounterError>> {
    if row.is_empty() {
        return None;
    }
    Some(row.raise(0, by, most))
}

fn holds(alloc: Global, row: &Counts, counters: &[u64]) -> Option<bool> {
    Some(counts(alloc, counters)?.within(row))
}

fn join(alloc: Global, row: &mut Counts, counters: &[u64]) -> Option<u64> {
    let other = counts(alloc, counters)?;
    if other.len() > row.len() {
        return None;
    }
    Some(row.join(&other))
}

fn keep_one(row: &mut Counts, until: usize, kept: usize) -> bool {
    if until > row.len() {
        return false;
    }
    row.keep_one(0, until, kept);
    true
}

fn reset(row: &mut Counts, at: usize, value: u64) -> bool {
    if at >= row.len() || row.get(at) < value {
        return false;
    }
    row.reset(at, value);
    true
}

// Whether a call has its answer.
fn is_answered(alloc: Global, row: &mut Counts, step: &Step) -> bool {
    match step {
        Step::Count(count) => row.len() == *count,
        Step::IsEmpty(answer) => row.is_empty() == *answer,
        Step::HasRoom { by, most, answer } => has_room(row, *by, *most) == Some(*answer),
        Step::Holds(other, answer) => holds(alloc, row, *other) == Some(*answer),
        Step::Raise { by, most, answer } => raise(row, *by, *most) == Some(*answer),
        Step::Join(other, risen) => join(alloc, row, *other) == Some(*risen),
        Step::KeepOne { until, kept } => keep_one(row, *until, *kept),
        Step::Reset { at, value } => reset(row, *at, *value),
    }
}

// The first of these calls that goes otherwise, on so many counters that begin at 0, and the counters at the end.
fn run(alloc: Global, size: usize, lines: &[Line]) -> Option<(Option<usize>, Vec<u64>)> {
    let mut row = Counts::new(alloc, size).ok()?;
    for (k, (step, left)) in lines.iter().enumerate() {
        if !is_answered(alloc, &mut row, step) || row.as_slice() != *left {
            return Some((Some(k), row.into_vec()));
        }
    }
    Some((None, row.into_vec()))
}

// The first of these calls that goes otherwise; the number of calls where the counters come out otherwise.
fn first_wrong(alloc: Global, size: usize, lines: &[Line], left: &[u64]) -> Option<Option<usize>> {
    let (wrong, counters) = run(alloc, size, lines)?;
    if wrong.is_none() && counters.as_slice() != left {
        return Some(Some(lines.len()));
    }
    Some(wrong)
}

#[test]
fn counts_grow_and_merge(rt: HostRuntime) {
    assert_eq!(rt; first_wrong(rt.alloc(), 2, &TWO, &[0, 4]), Some(None));
}

#[test]
fn a_full_counter_is_refused(rt: HostRuntime) {
    assert_eq!(rt; first_wrong(rt.alloc(), 1, &GREATEST, &[MOST]), Some(None));
}
