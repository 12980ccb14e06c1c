//! A rights matrix: what each call answers.
use grow_counters::{COUNTER_LIMIT, Counts};
use rights_matrix::{MOST_SITES, Rights, TransferError};
use std::alloc::Global;

// A call of a matrix, and its answer, where it has one. No site has taken seats.
enum Step {
    Sites(u16),
    Entry(u16, u16, u64),
    Row(u16, [u64; 2]),
    Rights(u16, u64),
    Balance(u16, i64),
    Transfer(u16, u16, u64, Result<(), TransferError>),
    // The giver has these rights.
    TransferFrom(u16, u16, u64, u64, Result<(), TransferError>),
    // The counters of a row of two sites, and how many rose.
    JoinRow(u16, [u64; 2], u64),
    // Another matrix is joined, and so many counters rise.
    Join(u64),
    Keep(u16),
}

// All ten seats of three sites begin at site 1.
const AT_HOME: [Step; 6] = [
    Step::Sites(3),
    Step::Entry(1, 1, 10),
    Step::Entry(0, 1, 0),
    Step::Rights(1, 10),
    Step::Rights(2, 0),
    Step::Transfer(1, 2, 11, Err(TransferError::TooFewRights { rights: 10 })),
];

// A row that was received is joined.
const HERE: [Step; 4] = [
    Step::JoinRow(0, [5, 2], 2),
    Step::Row(0, [5, 2]),
    Step::Balance(0, 3),
    Step::Balance(1, 2),
];

// Another copy is joined, and a restart forgets what was received.
const THERE: [Step; 7] = [
    Step::JoinRow(1, [1, 0], 1),
    Step::Balance(1, -1),
    Step::Join(2),
    Step::Row(0, [5, 2]),
    Step::Row(1, [1, 0]),
    Step::Keep(1),
    Step::Row(0, [3, 2]),
];

const WIDEST: [Step; 3] = [
    Step::TransferFrom(15, 14, COUNTER_LIMIT, u64::MAX, Ok(())),
    Step::Entry(15, 14, COUNTER_LIMIT),
    Step::TransferFrom(15, 14, 1, u64::MAX, Err(TransferError::CounterFull)),
];

fn matrix(alloc: Global, sites: u16, home: u16, seats: u32) -> Option<Rights> {
    if sites > MOST_SITES || home >= sites {
        return None;
    }
    Rights::new(alloc, sites, home, seats).ok()
}

fn entry(matrix: &Rights, i: u16, j: u16) -> Option<u64> {
    if i >= matrix.sites() || j >= matrix.sites() {
        return None;
    }
    Some(matrix.get(i, j))
}

fn is_row(matrix: &Rights, i: u16, row: &[u64]) -> bool {
    i < matrix.sites() && matrix.row(i) == row
}

fn balance(matrix: &Rights, i: u16) -> Option<i64> {
    if i >= matrix.sites() {
        return None;
    }
    Some(matrix.balance(i))
}

fn rights(alloc: Global, matrix: &Rights, i: u16) -> Option<u64> {
    let taken = Counts::new(alloc, usize::from(matrix.sites())).ok()?;
    if i >= matrix.sites() || matrix.balance(i) < 0 {
        return None;
    }
    Some(matrix.rights(i, &taken))
}

fn transfer(
    alloc: Global,
    matrix: &mut Rights,
    i: u16,
    j: u16,
    n: u64,
) -> Option<Result<(), TransferError>> {
    let taken = Counts::new(alloc, usize::from(matrix.sites())).ok()?;
    if i >= matrix.sites() || j >= matrix.sites() || matrix.balance(i) < 0 {
        return None;
    }
    Some(matrix.transfer(i, j, n, &taken))
}

fn transfer_from(
    matrix: &mut Rights,
    i: u16,
    j: u16,
    n: u64,
    rights: u64,
) -> Option<Result<(), TransferError>> {
    if i >= matrix.sites() || j >= matrix.sites() {
        return None;
    }
    Some(matrix.transfer_from(i, j, n, rights))
}

// Joins a row of the first of two sites.
fn join_first(matrix: &mut Rights, own: u64, sent: u64) -> Option<u64> {
    if matrix.sites() != 2 || own < matrix.grant(0) {
        return None;
    }
    if own > COUNTER_LIMIT || sent > COUNTER_LIMIT {
        return None;
    }
    Some(matrix.join_row(0, &[own, sent]))
}

// Joins a row of the second of two sites.
fn join_second(matrix: &mut Rights, sent: u64, own: u64) -> Option<u64> {
    if matrix.sites() != 2 || own < matrix.grant(1) {
        return None;
    }
    if own > COUNTER_LIMIT || sent > COUNTER_LIMIT {
        return None;
    }
    Some(matrix.join_row(1, &[sent, own]))
}

fn join_row(matrix: &mut Rights, s: u16, row: [u64; 2]) -> Option<u64> {
    match s {
        0 => join_first(matrix, row[0], row[1]),
        1 => join_second(matrix, row[0], row[1]),
        _ => None,
    }
}

fn join(matrix: &mut Rights, other: &Rights) -> Option<u64> {
    if matrix.sites() != other.sites() || matrix.home() != other.home() {
        return None;
    }
    if matrix.seats() != other.seats() {
        return None;
    }
    Some(matrix.join(other))
}

fn keep(matrix: &mut Rights, site: u16) -> bool {
    if site >= matrix.sites() {
        return false;
    }
    matrix.keep(site);
    true
}

// Whether a call has its answer.
fn is_answered(alloc: Global, matrix: &mut Rights, other: &Rights, step: &Step) -> bool {
    match step {
        Step::Sites(sites) => matrix.sites() == *sites,
        Step::Entry(i, j, value) => entry(matrix, *i, *j) == Some(*value),
        Step::Row(i, row) => is_row(matrix, *i, row.as_slice()),
        Step::Rights(i, value) => rights(alloc, matrix, *i) == Some(*value),
        Step::Balance(i, value) => balance(matrix, *i) == Some(*value),
        Step::Transfer(i, j, n, answer) => transfer(alloc, matrix, *i, *j, *n) == Some(*answer),
        Step::TransferFrom(i, j, n, rights, answer) => {
            transfer_from(matrix, *i, *j, *n, *rights) == Some(*answer)
        }
        Step::JoinRow(s, row, risen) => join_row(matrix, *s, *row) == Some(*risen),
        Step::Join(risen) => join(matrix, other) == Some(*risen),
        Step::Keep(site) => keep(matrix, *site),
    }
}

// The first of these calls that is answered otherwise.
fn first_wrong(
    alloc: Global,
    matrix: &mut Rights,
    other: &Rights,
    steps: &[Step],
) -> Option<usize> {
    for (k, step) in steps.iter().enumerate() {
        if !is_answered(alloc, matrix, other, step) {
            return Some(k);
        }
    }
    None
}

// The same for a matrix of so many sites at the start, all of whose seats are at home.
fn wrong_from_start(
    alloc: Global,
    (sites, home, seats): (u16, u16, u32),
    steps: &[Step],
) -> Option<Option<usize>> {
    let mut matrix = matrix(alloc, sites, home, seats)?;
    let other = self::matrix(alloc, sites, home, seats)?;
    Some(first_wrong(alloc, &mut matrix, &other, steps))
}

#[test]
fn all_seats_begin_at_home(rt: HostRuntime) {
    assert_eq!(rt;
        wrong_from_start(rt.alloc(), (3, 1, 10), &AT_HOME),
        Some(None)
    );
}

#[test]
fn the_widest_matrix(rt: HostRuntime) {
    let shape = (MOST_SITES, 15, u32::MAX);
    assert_eq!(rt; wrong_from_start(rt.alloc(), shape, &WIDEST), Some(None));
}

// The same for two copies of a matrix of two sites, the second of which joins the first.
fn wrong_at_two_copies(alloc: Global) -> Option<[Option<usize>; 2]> {
    let mut here = matrix(alloc, 2, 0, 3)?;
    let mut there = matrix(alloc, 2, 0, 3)?;
    let first = first_wrong(alloc, &mut here, &there, &HERE);
    let second = first_wrong(alloc, &mut there, &here, &THERE);
    Some([first, second])
}

#[test]
fn rows_are_received_and_forgotten(rt: HostRuntime) {
    assert!(rt; wrong_at_two_copies(rt.alloc()) == Some([None, None]));
}
