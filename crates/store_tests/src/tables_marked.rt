//! Tables that are marked as outdated: they are found so, what they hold stays, and a stop at each call leaves them marked
//! or as they were.
use crate::databases::{COUNTER, FIRST, SECOND};
use crate::files::{Work, empty_files, fused};
use crate::stores::{EMPTY, HERE, Step as Opening, are_told};
use crate::tables::{Step, idle, sizes};
use crate::tables_stopped::{files_after, played_over};
use sqlite::{Alter, Connection};
use std::alloc::Global;
use std::sync::Wait;

/// A store of the second version that holds a counter.
static STORE: [&str; 3] = [FIRST, COUNTER, SECOND];

/// How many rows there are of the mark's name, and with its value.
static ROWS: [&str; 2] = [
    "SELECT value FROM meta WHERE name = 'outdated'",
    "SELECT name FROM meta WHERE name = 'outdated' AND value = '1'",
];

fn rows_of<S: Alter>(connection: &mut Connection<S>, text: &str) -> Option<usize> {
    let rows = connection.query_all(text, &[]).ok()?;
    Some(rows.len())
}

/// Whether a store is found to be marked, how many counters, sessions and notices it holds, and how many rows of its
/// mark there are.
type Found = (bool, [usize; 3], [usize; 2]);

#[derive(Drop)]
struct Marks;

impl Work for Marks {
    type Found = Found;

    fn over<S: Alter + Drop, R: Wait>(
        &self,
        _rt: &R,
        alloc: Global,
        connection: Connection<S>,
    ) -> Option<(Found, Connection<S>)> {
        let mut tables = idle(connection)?;
        let is_marked = tables.is_outdated().ok()?;
        let held = sizes(alloc, &mut tables)?;
        let mut connection = tables.into_connection();
        let named = rows_of(&mut connection, ROWS[0])?;
        let valued = rows_of(&mut connection, ROWS[1])?;
        Some(((is_marked, held, [named, valued]), connection))
    }
}

const UNMARKED: Found = (false, [1, 0, 0], [0, 0]);

const MARKED: Found = (true, [1, 0, 0], [1, 1]);

/// The steps that were done before a file stopped after so many calls, and what is found after a crash.
fn marked<R: Wait>(
    rt: &R,
    alloc: Global,
    steps: &[Step],
    log: u64,
    db: u64,
) -> Option<(usize, Found)> {
    let first = files_after(rt, alloc, empty_files(alloc), &STORE)?;
    played_over(rt, alloc, fused(first, log, db), steps, &Marks)
}

#[test]
fn a_mark_is_found_again(rt: HostRuntime) {
    let none = marked(&rt, rt.alloc(), &[], 10000, 10000);
    assert!(rt; none == Some((0, UNMARKED)));
    let twice = marked(&rt, rt.alloc(), &[Step::Mark, Step::Mark], 10000, 10000);
    assert!(rt; twice == Some((2, MARKED)));
}

/// Whether this was left by a stop: a mark that was told is there.
fn is_left(done: usize, found: Found) -> bool {
    found == MARKED || (done == 0 && found == UNMARKED)
}

/// At how many calls of one file the marking was stopped until it was done, if each stop left what it may.
fn stops<R: Wait>(rt: &R, alloc: Global, of_log: bool) -> Option<u64> {
    for calls in 0..400u64 {
        let (log, db) = if of_log {
            (calls, 10000)
        } else {
            (10000, calls)
        };
        let (done, found) = marked(rt, alloc, &[Step::Mark], log, db)?;
        if !is_left(done, found) {
            return None;
        }
        if done == 1 {
            return Some(calls);
        }
    }
    None
}

#[test]
fn a_mark_survives_each_stop_of_the_log(rt: HostRuntime) {
    let count = stops(&rt, rt.alloc(), true);
    assert!(rt; count >= Some(5), "{count:?}");
}

#[test]
fn a_mark_survives_each_stop_of_the_file(rt: HostRuntime) {
    let count = stops(&rt, rt.alloc(), false);
    assert!(rt; count >= Some(1), "{count:?}");
}

/// A store that is marked is opened by `site` as before.
static OPENED: [Opening; 3] = [
    Opening::Open(HERE, EMPTY),
    Opening::Run("INSERT INTO meta VALUES ('outdated', '1')"),
    Opening::Open(HERE, EMPTY),
];

#[test]
fn a_marked_store_is_opened_as_before(rt: HostRuntime) {
    assert!(rt; are_told(rt.alloc(), &OPENED));
}
