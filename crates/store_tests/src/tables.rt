//! What is done to the tables of a store, step by step.
use crate::databases::LAYOUT;
use sqlite::{Alter, Connection};
use std::alloc::Global;
use store_tables::{
    SessionEdit, Stage, StoredCell, StoredNotice, StoredSession, TableError, Tables, Version,
};

pub const CELL: StoredCell = StoredCell {
    r: 0,
    slot: 200,
    n: 1,
};

pub const NOTICE: StoredNotice = StoredNotice {
    r: 0,
    site: 1,
    announced: 2,
    finished: 1,
};

pub const READER: StoredSession = StoredSession {
    r: 0,
    h: 7,
    stage: Stage::Reader,
    place: 1,
};

/// The counter once it has risen.
pub const MORE: StoredCell = StoredCell {
    r: 0,
    slot: 200,
    n: 2,
};

/// The notice once the other writer has finished too.
pub const FINISHED: StoredNotice = StoredNotice {
    r: 0,
    site: 1,
    announced: 2,
    finished: 2,
};

/// A writer at the place that the reader had.
pub const WRITER: StoredSession = StoredSession {
    r: 0,
    h: 8,
    stage: Stage::Writer,
    place: 1,
};

/// A change of the tables.
#[derive(Clone, Copy)]
pub enum Step {
    /// An empty store of site 0 is made.
    Make,
    /// A counter, a notice and a session are put.
    Put,
    /// The session is dropped.
    Leave,
    /// A store of this version gets the second, and this layout line.
    Renew(Version, &'static str),
    /// It is marked as outdated.
    Mark,
    /// The rows of several changes are put at once: a reader comes and leaves, a writer takes its place, and the counter and
    /// the notice rise.
    Round,
}

/// A store is made, rows are put, and the session is dropped.
pub const MADE: [Step; 3] = [Step::Make, Step::Put, Step::Leave];

/// The tables over a connection that has no transaction open.
pub fn idle<S: Alter + Drop>(connection: Connection<S>) -> Option<Tables<S>> {
    if !connection.is_autocommit() {
        return None;
    }
    Some(Tables::over(connection))
}

pub fn is_made<S: Alter>(tables: &mut Tables<S>) -> bool {
    tables.make("0", LAYOUT).is_ok()
}

fn is_put<S: Alter>(tables: &mut Tables<S>) -> bool {
    tables
        .commit(&[CELL], &[NOTICE], Some(SessionEdit::Put(READER)))
        .is_ok()
}

fn is_left<S: Alter>(tables: &mut Tables<S>) -> bool {
    tables
        .commit(&[], &[], Some(SessionEdit::Dropped { r: 0, h: 7 }))
        .is_ok()
}

pub fn is_renewed<S: Alter>(tables: &mut Tables<S>, version: Version, line: &str) -> bool {
    tables.renew(version, line).is_ok()
}

fn is_marked<S: Alter>(tables: &mut Tables<S>) -> bool {
    tables.mark_outdated().is_ok()
}

fn is_round<S: Alter>(tables: &mut Tables<S>) -> bool {
    tables
        .commit_all(
            &[CELL, MORE],
            &[NOTICE, FINISHED],
            &[
                SessionEdit::Put(READER),
                SessionEdit::Dropped { r: 0, h: 7 },
                SessionEdit::Put(WRITER),
            ],
        )
        .is_ok()
}

fn is_done<S: Alter>(tables: &mut Tables<S>, step: Step) -> bool {
    match step {
        Step::Make => is_made(tables),
        Step::Put => is_put(tables),
        Step::Leave => is_left(tables),
        Step::Renew(version, line) => is_renewed(tables, version, line),
        Step::Mark => is_marked(tables),
        Step::Round => is_round(tables),
    }
}

/// How many steps are done before one is refused.
pub fn steps_done<S: Alter>(tables: &mut Tables<S>, steps: &[Step]) -> usize {
    let mut done = 0usize;
    for step in steps {
        if !is_done(tables, *step) {
            return done;
        }
        done = done.saturating_add(1);
    }
    done
}

/// What a look at a database finds.
#[derive(Clone, Copy, PartialEq, Eq)]
pub enum Found {
    Blank,
    Store,
    BadStore,
    Fault,
    /// No look was taken, since a statement before it was refused.
    Refused,
    /// There was no database.
    Missing,
}

pub fn look<S: Alter>(alloc: Global, tables: &mut Tables<S>) -> Found {
    match tables.look(alloc) {
        Ok(None) => Found::Blank,
        Ok(Some(_)) => Found::Store,
        Err(TableError::BadStore) => Found::BadStore,
        Err(_) => Found::Fault,
    }
}

/// How many counters, sessions and notices a store holds.
pub fn sizes<S: Alter>(alloc: Global, tables: &mut Tables<S>) -> Option<[usize; 3]> {
    let content = tables.load(alloc).ok()?;
    Some([
        content.cells.len(),
        content.sessions.len(),
        content.notices.len(),
    ])
}
