//! The seats of one record: what each call answers, and the numbers of free seats.
use grow_counters::COUNTER_LIMIT;
use rights_matrix::{MOST_SITES, TransferError};
use seat_rows::{SeatError, SeatRow};
use std::alloc::Global;

// A call of the seats of a record, and its answer, where it has one.
enum Step {
    Take(u16, u64, Result<(), SeatError>),
    Give(u16, u64),
    Transfer(u16, u16, u64, Result<(), TransferError>),
    Rights(u16, u64),
    Inside(u16, u64),
    Entry(u16, u16, u64),
    // The rights of a site as a signed number.
    Number(u16, i64),
    // The counters of a row of two sites, the seats taken there, and how many counters rose.
    JoinRow(u16, [u64; 2], u64, u64),
    // A row of 16 sites whose counters are at their limits, and how many rose.
    JoinFull(u16, u64),
    // Another copy is joined, and so many counters rise.
    Join(u64),
    Keep(u16),
}

const TAKEN_AND_GIVEN: [Step; 8] = [
    Step::Take(0, 2, Ok(())),
    Step::Rights(0, 0),
    Step::Take(0, 1, Err(SeatError::NoSeat { rights: 0 })),
    Step::Inside(0, 2),
    Step::Give(0, 2),
    Step::Entry(0, 0, 4),
    Step::Rights(0, 2),
    Step::Inside(0, 0),
];

const FULL_COUNTER: [Step; 3] = [
    Step::JoinRow(0, [1_000_000_000_002, 0], 1_000_000_000_000, 2),
    Step::Rights(0, 2),
    Step::Take(0, 1, Err(SeatError::CounterFull)),
];

// Site 1 took a seat that site 0 had sent to it, and the row of site 0 comes later.
const ROW_COMES_LATER: [Step; 5] = [
    Step::JoinRow(1, [0, 0], 1, 1),
    Step::Number(1, -1),
    Step::JoinRow(0, [2, 1], 0, 1),
    Step::Number(1, 0),
    Step::Number(0, 1),
];

// The limit as a signed number.
const LIMIT: i64 = 1_000_000_000_000;

const FULL_COPY: [Step; 1] = [Step::JoinFull(1, 17)];

// Sixteen sites whose counters are at their limits: the rows of two of them came, to two copies that are joined.
// The last site then takes seats, gives one back, and sends some to the site before it; it sends the last right
// that it has, and no other, and a restart drops what came of the other sites.
const FULL: [Step; 17] = [
    Step::JoinFull(0, 17),
    Step::Join(17),
    Step::Number(15, 2 * LIMIT),
    Step::Number(14, 2 * LIMIT),
    Step::Number(0, -14 * LIMIT),
    Step::Take(15, COUNTER_LIMIT, Ok(())),
    Step::Give(15, 1),
    Step::Transfer(15, 14, COUNTER_LIMIT, Ok(())),
    Step::Number(15, 1),
    Step::Number(14, 3 * LIMIT),
    Step::Number(0, -14 * LIMIT),
    Step::Transfer(15, 13, 1, Ok(())),
    Step::Transfer(15, 13, 1, Err(TransferError::TooFewRights { rights: 0 })),
    Step::Keep(15),
    Step::Number(15, 0),
    Step::Number(14, LIMIT),
    Step::Number(0, 5 - LIMIT),
];

fn seats_of(alloc: Global, sites: u16, seats: u32) -> Option<SeatRow> {
    if sites > MOST_SITES || sites == 0 {
        return None;
    }
    SeatRow::new(alloc, sites, 0, seats).ok()
}

fn take(row: &mut SeatRow, i: u16, w: u64) -> Option<Result<(), SeatError>> {
    if i >= row.sites() || row.cached(i) < 0 {
        return None;
    }
    Some(row.take(i, w))
}

fn give(row: &mut SeatRow, i: u16, w: u64) -> bool {
    if i >= row.sites() || w > row.inside(i) {
        return false;
    }
    row.give(i, w);
    true
}

fn transfer(row: &mut SeatRow, i: u16, j: u16, n: u64) -> Option<Result<(), TransferError>> {
    if i >= row.sites() || j >= row.sites() || row.cached(i) < 0 {
        return None;
    }
    Some(row.transfer(i, j, n))
}

fn rights(row: &SeatRow, i: u16) -> Option<u64> {
    if i >= row.sites() || row.cached(i) < 0 {
        return None;
    }
    Some(row.rights(i))
}

fn inside(row: &SeatRow, i: u16) -> Option<u64> {
    if i >= row.sites() {
        return None;
    }
    Some(row.inside(i))
}

fn entry(row: &SeatRow, i: u16, j: u16) -> Option<u64> {
    if i >= row.sites() || j >= row.sites() {
        return None;
    }
    Some(row.get(i, j))
}

fn number(row: &SeatRow, i: u16) -> Option<i64> {
    if i >= row.sites() {
        return None;
    }
    Some(row.cached(i))
}

// Joins a row of the first of two sites.
fn join_first(row: &mut SeatRow, own: u64, sent: u64, taken: u64) -> Option<u64> {
    if row.sites() != 2 || own < row.grant(0) || own - row.grant(0) > taken {
        return None;
    }
    if taken > COUNTER_LIMIT || sent > COUNTER_LIMIT {
        return None;
    }
    Some(row.join_row(0, &[own, sent], taken))
}

// Joins a row of the second of two sites.
fn join_second(row: &mut SeatRow, sent: u64, own: u64, taken: u64) -> Option<u64> {
    if row.sites() != 2 || own < row.grant(1) || own - row.grant(1) > taken {
        return None;
    }
    if taken > COUNTER_LIMIT || sent > COUNTER_LIMIT {
        return None;
    }
    Some(row.join_row(1, &[sent, own], taken))
}

fn join_row(row: &mut SeatRow, s: u16, given: [u64; 2], taken: u64) -> Option<u64> {
    match s {
        0 => join_first(row, given[0], given[1], taken),
        1 => join_second(row, given[0], given[1], taken),
        _ => None,
    }
}

fn join_full(row: &mut SeatRow, s: u16) -> Option<u64> {
    let full = [COUNTER_LIMIT; 16];
    if s >= row.sites() || row.sites() < 16 {
        return None;
    }
    Some(row.join_row(s, &full, COUNTER_LIMIT))
}

fn join(row: &mut SeatRow, other: &SeatRow) -> Option<u64> {
    if row.sites() != other.sites() || row.home() != other.home() || row.seats() != other.seats() {
        return None;
    }
    Some(row.join(other))
}

fn keep(row: &mut SeatRow, i: u16) -> bool {
    if i >= row.sites() {
        return false;
    }
    row.keep(i);
    true
}

// Whether a call has its answer.
fn is_answered(row: &mut SeatRow, other: &SeatRow, step: &Step) -> bool {
    match step {
        Step::Take(i, w, answer) => take(row, *i, *w) == Some(*answer),
        Step::Give(i, w) => give(row, *i, *w),
        Step::Transfer(i, j, n, answer) => transfer(row, *i, *j, *n) == Some(*answer),
        Step::Rights(i, value) => rights(row, *i) == Some(*value),
        Step::Inside(i, value) => inside(row, *i) == Some(*value),
        Step::Entry(i, j, value) => entry(row, *i, *j) == Some(*value),
        Step::Number(i, value) => number(row, *i) == Some(*value),
        Step::JoinRow(s, given, taken, risen) => {
            join_row(row, *s, *given, *taken) == Some(*risen)
        }
        Step::JoinFull(s, risen) => join_full(row, *s) == Some(*risen),
        Step::Join(risen) => join(row, other) == Some(*risen),
        Step::Keep(i) => keep(row, *i),
    }
}

// The first of these calls that is answered otherwise.
fn first_wrong(row: &mut SeatRow, other: &SeatRow, steps: &[Step]) -> Option<usize> {
    for (k, step) in steps.iter().enumerate() {
        if !is_answered(row, other, step) {
            return Some(k);
        }
    }
    None
}

// The same for two copies at the start, when all seats are at site 0: the first of their calls, one copy's and then
// the other's, that is answered otherwise.
fn wrong_at_two_copies(
    alloc: Global,
    (sites, seats): (u16, u32),
    copy_steps: &[Step],
    steps: &[Step],
) -> Option<[Option<usize>; 2]> {
    let mut row = seats_of(alloc, sites, seats)?;
    let mut copy = seats_of(alloc, sites, seats)?;
    let first = first_wrong(&mut copy, &row, copy_steps);
    Some([first, first_wrong(&mut row, &copy, steps)])
}

const NONE: Option<[Option<usize>; 2]> = Some([None, None]);

// The same for one row of two sites with two seats.
fn wrong_at_one(alloc: Global, steps: &[Step]) -> Option<[Option<usize>; 2]> {
    wrong_at_two_copies(alloc, (2, 2), &[], steps)
}

#[test]
fn seats_are_taken_and_given(rt: HostRuntime) {
    assert!(rt; wrong_at_one(rt.alloc(), &TAKEN_AND_GIVEN) == NONE);
}

#[test]
fn a_full_counter_refuses(rt: HostRuntime) {
    assert!(rt; wrong_at_one(rt.alloc(), &FULL_COUNTER) == NONE);
}

#[test]
fn a_number_is_below_0_until_the_row_comes(rt: HostRuntime) {
    assert!(rt; wrong_at_one(rt.alloc(), &ROW_COMES_LATER) == NONE);
}

#[test]
fn full_rows_are_joined_used_and_restarted(rt: HostRuntime) {
    let wrong = wrong_at_two_copies(rt.alloc(), (MOST_SITES, 5), &FULL_COPY, &FULL);
    assert!(rt; wrong == NONE);
}
