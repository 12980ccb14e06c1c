//! Stores that are moved, and stores of sites that are built again, over files that stop at each call in turn.
use crate::databases::layout;
use crate::files::{Work, closed_after, empty_files, found_after_crash, fused, left_after};
use crate::moves::{
    Came, EAST, EAST_2, GAVE, LOST, READ, Step, TAKEN, after, built_at, is_open, moved_at,
};
use crate::stores::{At, held_by};
use site_store::{Permission, ServedError, SqlKeeper};
use sqlite::{Alter, Connection};
use std::alloc::Global;
use std::sync::Wait;

/// Steps over a database on files.
#[derive(Drop)]
struct Steps(&'static [Step]);

impl Work for Steps {
    type Found = bool;

    fn over<S: Alter + Drop, R: Wait>(
        &self,
        _rt: &R,
        alloc: Global,
        connection: Connection<S>,
    ) -> Option<(bool, Connection<S>)> {
        let connection = go_through(alloc, connection, self.0)?;
        Some((true, connection))
    }
}

/// The connection after steps, if they go as they are told.
fn go_through<S: Alter + Drop>(
    alloc: Global,
    connection: Connection<S>,
    steps: &[Step],
) -> Option<Connection<S>> {
    let mut held = connection;
    for step in steps {
        held = after(alloc, held, *step)?;
    }
    Some(held)
}

/// The store of site 0 is moved, or a store is made of site 1, whatever comes of it: whether it did.
#[derive(Drop)]
struct Changes(bool);

impl Work for Changes {
    type Found = bool;

    fn over<S: Alter + Drop, R: Wait>(
        &self,
        _rt: &R,
        alloc: Global,
        connection: Connection<S>,
    ) -> Option<(bool, Connection<S>)> {
        if self.0 {
            let (told, back) = moved_at(alloc, connection, EAST)?;
            return Some((told.is_ok(), back));
        }
        let (ended, back) = built_at(alloc, connection, LOST, &[1], GAVE)?;
        Some((ended.is_none(), back))
    }
}

/// What was not changed by a stop is as it was, and is changed now.
static MOVED_NOW: [Step; 2] = [
    Step::Open(EAST, Came::Open(1, 1)),
    Step::Move(EAST, Came::Text(TAKEN)),
];

static BUILT_NOW: [Step; 2] = [
    Step::Open(LOST, Came::Refused(ServedError::NoStore)),
    Step::Build(LOST, &[1], GAVE, Came::Rebuilt),
];

/// Whether a database is as the change leaves it; else it is as it was before, and the change goes well now.
#[derive(Drop)]
struct FindsOrChanges(bool);

impl Work for FindsOrChanges {
    type Found = bool;

    fn over<S: Alter + Drop, R: Wait>(
        &self,
        _rt: &R,
        alloc: Global,
        connection: Connection<S>,
    ) -> Option<(bool, Connection<S>)> {
        let (at, cells, sessions) = if self.0 { (EAST_2, 1, 1) } else { (LOST, 1, 0) };
        let (found, back) = is_there(alloc, connection, at, cells, sessions)?;
        if found {
            return Some((true, back));
        }
        let back = go_through(alloc, back, if self.0 { &MOVED_NOW } else { &BUILT_NOW })?;
        Some((false, back))
    }
}

/// Whether a database is a store with so many counters and sessions, and the connection.
fn is_there<S: Alter + Drop>(
    alloc: Global,
    connection: Connection<S>,
    at: At,
    cells: usize,
    sessions: usize,
) -> Option<(bool, Connection<S>)> {
    let layout = layout(alloc, at.sites, at.seats)?;
    if !connection.is_autocommit() {
        return None;
    }
    let permission = Permission {
        create: false,
        grow: false,
    };
    match SqlKeeper::open_served(alloc, connection, &layout, at.site, at.group, permission) {
        Ok((mut keeper, _)) => {
            let held = held_by(alloc, &mut keeper);
            Some((
                is_open(held, Came::Open(cells, sessions)),
                keeper.into_connection(),
            ))
        }
        Err((_, back)) => Some((false, back)),
    }
}

/// What the database holds before.
static BEFORE: [Step; 2] = [Step::Make(EAST), Step::Run(READ)];

/// What a change comes to over files of which each stops after so many calls, if they open, and whether they are changed once
/// they have crashed.
fn stopped<R: Wait>(
    rt: &R,
    alloc: Global,
    moves: bool,
    log: u64,
    db: u64,
) -> Option<(Option<bool>, bool)> {
    let files = if moves {
        let (_, files) = closed_after(rt, alloc, empty_files(alloc), &Steps(&BEFORE))?;
        files
    } else {
        empty_files(alloc)
    };
    let (came, left) = left_after(rt, alloc, fused(files, log, db), &Changes(moves))?;
    let found = found_after_crash(rt, alloc, left, &FindsOrChanges(moves))?;
    Some((came, found))
}

/// At how many calls of one file a change was stopped until it went well, if each stop left what was there before or all of
/// the change, and a change that was told is there.
fn stops<R: Wait>(rt: &R, alloc: Global, moves: bool, of_log: bool) -> Option<u64> {
    for calls in 0..400u64 {
        let (log, db) = if of_log {
            (calls, 10000)
        } else {
            (10000, calls)
        };
        match stopped(rt, alloc, moves, log, db)? {
            (Some(true), true) => return Some(calls),
            (Some(true), false) => return None,
            _ => {}
        }
    }
    None
}

/// Whether it was stopped at several calls.
fn survives<R: Wait>(rt: &R, alloc: Global, moves: bool, of_log: bool) -> Option<bool> {
    Some(stops(rt, alloc, moves, of_log)? >= 3)
}

#[test]
fn a_move_survives_each_stop_of_the_log(rt: HostRuntime) {
    assert!(rt; survives(&rt, rt.alloc(), true, true) == Some(true));
}

#[test]
fn a_move_survives_each_stop_of_the_file(rt: HostRuntime) {
    assert!(rt; survives(&rt, rt.alloc(), true, false) == Some(true));
}

#[test]
fn a_rebuild_survives_each_stop_of_the_log(rt: HostRuntime) {
    assert!(rt; survives(&rt, rt.alloc(), false, true) == Some(true));
}

#[test]
fn a_rebuild_survives_each_stop_of_the_file(rt: HostRuntime) {
    assert!(rt; survives(&rt, rt.alloc(), false, false) == Some(true));
}
