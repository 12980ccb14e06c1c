//! A book: what it answers to deltas and to calls, and the counters that they leave.
ghost use Rattle.std.specs.Prelude.{ℕ, IfSome};
ghost use Rattle.seat_rows.specs.Seats.{HasSeatRights};
ghost use Rattle.merge_core.specs.Book.{seats_at};

use super::deltas::{Line, delta};
use super::layouts::layout;
use merge_core::*;
use rights_matrix::TransferError;
use seat_rows::SeatError;
use std::alloc::Global;

// The book of two sites with one record of two seats at site 0, before any operation.
fn genesis(alloc: Global) -> Option<Book>
    ensures { IfSome result (λ b. HasSeatRights (seats_at b 0) 0) }
{
    let layout = layout(alloc, 2, &[("a", 2, 0, 1)])?.ok()?;
    match Book::genesis(alloc, &layout) {
        Ok(book) => Some(book),
        Err(_) => None,
    }
}

/// What a book answers to a delta: how many counters rose, or why it does not take it.
pub fn merged(book: &mut Book, delta: &Delta) -> Result<u64, CheckError> {
    book.check(delta)?;
    Ok(book.join(delta))
}

// The counters of a site for record 0, at two sites.
fn counters(book: &Book, s: u16) -> Option<[u64; 5]> {
    if book.records() == 0 || book.sites() != 2 || s >= 2 {
        return None;
    }
    Some([
        book.counter(0, s, Cell::Out(0)),
        book.counter(0, s, Cell::Out(1)),
        book.counter(0, s, Cell::Taken),
        book.counter(0, s, Cell::Ann),
        book.counter(0, s, Cell::Fin),
    ])
}

const ANNOUNCED: Line = (0, &[2, 0], 0, 1, 0);

const GAVE: Line = (0, &[2, 1], 0, 0, 0);

// How many counters two deltas raise, the first of which comes twice.
fn merged_three(book: &mut Book, first: &Delta, second: &Delta) -> Option<[u64; 3]> {
    let one = merged(book, first).ok()?;
    let two = merged(book, second).ok()?;
    let again = merged(book, first).ok()?;
    Some([one, two, again])
}

// The same, and the counters then.
fn joined(alloc: Global, first: &Line, second: &Line) -> Option<([u64; 3], [u64; 5])> {
    let first = delta(alloc, &[*first])?;
    let second = delta(alloc, &[*second])?;
    let mut book = genesis(alloc)?;
    let risen = merged_three(&mut book, &first, &second)?;
    Some((risen, counters(&book, 0)?))
}

// Two deltas that each know more in one counter join to the greater of both, in either order.
#[test]
fn deltas_join_counter_by_counter(rt: HostRuntime) {
    let one = joined(rt.alloc(), &ANNOUNCED, &GAVE);
    let other = joined(rt.alloc(), &GAVE, &ANNOUNCED);
    let both = Some(([1, 1, 0], [2, 1, 0, 1, 0]));
    assert!(rt; one == both && other == both);
}

fn answer(alloc: Global, line: &Line) -> Option<Result<u64, CheckError>> {
    let delta = delta(alloc, &[*line])?;
    let mut book = genesis(alloc)?;
    Some(merged(&mut book, &delta))
}

const BAD_ROW: Result<u64, CheckError> = Err(CheckError::BadRow { row: 0 });

const OTHER_LAYOUT: Result<u64, CheckError> = Err(CheckError::OtherLayout { row: 0 });

// Rows that no site can have; rows of another layout; and a row that lacks the last site.
const ROWS: [(Line, Result<u64, CheckError>); 6] = [
    ((0, &[1, 0], 0, 0, 0), BAD_ROW),
    ((0, &[3, 0], 0, 0, 0), BAD_ROW),
    ((0, &[2, 0], 0, 0, 1), BAD_ROW),
    ((0, &[2, 1, 0], 0, 0, 0), OTHER_LAYOUT),
    ((1, &[0], 0, 0, 0), OTHER_LAYOUT),
    ((0, &[2], 1, 0, 0), Ok(1)),
];

// The first row that is answered otherwise.
fn first_wrong_row(alloc: Global) -> Option<usize> {
    for (k, (line, want)) in ROWS.iter().enumerate() {
        if answer(alloc, line) != Some(*want) {
            return Some(k);
        }
    }
    None
}

#[test]
fn rows_are_judged(rt: HostRuntime) {
    assert!(rt; first_wrong_row(rt.alloc()).is_none());
}

// The home site takes both seats, no third, and gives one back.
fn takes_seats(book: &mut Book) -> Option<Result<(), SeatError>>
    requires { HasSeatRights (seats_at book.old 0) 0 }
{
    if book.sites() == 0 || book.records() == 0 || book.rights(0, 0) != 2 {
        return None;
    }
    book.take(0, 0, 2).ok()?;
    let third = book.take(0, 0, 1);
    if book.inside(0, 0) > 0 {
        book.give(0, 0, 1);
    }
    Some(third)
}

// The answer to the third seat, and the counters then.
fn after_taking(alloc: Global) -> Option<(Result<(), SeatError>, [u64; 5])> {
    let mut book = genesis(alloc)?;
    let third = takes_seats(&mut book)?;
    Some((third, counters(&book, 0)?))
}

#[test]
fn seats_are_taken_and_given(rt: HostRuntime) {
    let none = Err(SeatError::NoSeat { rights: 0 });
    assert!(rt; after_taking(rt.alloc()) == Some((none, [3, 0, 2, 0, 0])));
}

// The home site sends one right to the other site, after three were refused.
fn sends_rights(book: &mut Book) -> Option<Result<(), TransferError>>
    requires { HasSeatRights (seats_at book.old 0) 0 }
{
    if book.sites() != 2 || book.records() == 0 {
        return None;
    }
    let refused = book.transfer(0, 0, 1, 3);
    book.transfer(0, 0, 1, 1).ok()?;
    Some(refused)
}

// Announces a writer at the second site, and tells which site has one.
fn announces(book: &mut Book) -> Option<u16> {
    if book.sites() != 2 || book.records() == 0 {
        return None;
    }
    book.announce(0, 1).ok()?;
    if book.records() == 0 {
        return None;
    }
    book.unfinished(0)
}

// The announced writer of the second site finishes, and the unfinished ones are told.
fn finishes(book: &mut Book) -> Option<u64> {
    if book.sites() != 2 || book.records() == 0 {
        return None;
    }
    let before = book.open_at(0, 1);
    if before > 0 {
        book.finish(0, 1);
    }
    Some(before)
}

// The answer to three rights, and the counters of the first site then.
fn after_sending(alloc: Global) -> Option<(Result<(), TransferError>, [u64; 5])> {
    let mut book = genesis(alloc)?;
    let refused = sends_rights(&mut book)?;
    Some((refused, counters(&book, 0)?))
}

// The site with an announced writer, how many writers it has, and its counters after the writer finished.
fn after_announcing(alloc: Global) -> Option<(u16, u64, [u64; 5])> {
    let mut book = genesis(alloc)?;
    if sends_rights(&mut book)?.is_ok() {
        return None;
    }
    let site = announces(&mut book)?;
    let writers = finishes(&mut book)?;
    Some((site, writers, counters(&book, 1)?))
}

#[test]
fn rights_are_sent_and_writers_announced(rt: HostRuntime) {
    let refused = Err(TransferError::TooFewRights { rights: 2 });
    assert!(rt; after_sending(rt.alloc()) == Some((refused, [2, 1, 0, 0, 0])));
    assert!(rt; after_announcing(rt.alloc()) == Some((1, 1, [0, 0, 0, 1, 1])));
}

// The rows of both sites.
const BOTH: [Line; 2] = [(0, &[3, 1], 2, 1, 0), (1, &[1, 0], 1, 2, 1)];

fn book_of_both(alloc: Global) -> Option<Book> {
    let delta = delta(alloc, &BOTH)?;
    let mut book = genesis(alloc)?;
    merged(&mut book, &delta).ok()?;
    Some(book)
}

// The counters of both sites after a restart of one.
fn kept(alloc: Global, site: u16) -> Option<([u64; 5], [u64; 5])> {
    let mut book = book_of_both(alloc)?;
    if site >= book.sites() {
        return None;
    }
    book.keep(site);
    Some((counters(&book, 0)?, counters(&book, 1)?))
}

// A restart keeps the site's own row, the rights sent to it, and every notice.
#[test]
fn a_restart_keeps_row_column_and_notices(rt: HostRuntime) {
    let first = Some(([3, 1, 2, 1, 0], [1, 0, 0, 2, 1]));
    let second = Some(([2, 1, 0, 1, 0], [1, 0, 1, 2, 1]));
    assert!(rt; kept(rt.alloc(), 0) == first);
    assert!(rt; kept(rt.alloc(), 1) == second);
}
