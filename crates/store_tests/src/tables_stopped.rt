//! Tables over files that stop at each call in turn: what is found then is what a step left, or what the step in hand
//! leaves.
use crate::databases::{COUNTER, FIRST, LAYOUT, NEXT, SECOND};
use crate::files::{
    Texts, Work, empty_files, found_after_crash, found_over, fused, left_after, opened,
};
use crate::tables::{
    CELL, FINISHED, MADE, MORE, NOTICE, READER, Step, WRITER, idle, sizes, steps_done,
};
use sqlite::{Alter, Connection, FileStore, Files, Options};
use sqlite_disk::Crash;
use std::alloc::Global;
use std::sync::Wait;
use store_tables::restart::restart;
use store_tables::{Content, StoredCell, StoredNotice, StoredSession, Tables, Version};

/// What a store holds.
#[derive(Clone, Copy)]
pub struct Held {
    pub version: Version,
    pub layout: &'static str,
    pub cells: &'static [StoredCell],
    pub notices: &'static [StoredNotice],
    pub sessions: &'static [StoredSession],
}

/// A run: what its database begins with, its steps, and what is found after none of them, one, two and so on; `None`
/// where there is no store.
struct Story {
    first: &'static [&'static str],
    steps: &'static [Step],
    left: &'static [Option<Held>],
}

/// What a store of one counter holds at this version and layout line.
macro_rules! counter {
    ($version:ident, $layout:expr) => {
        Some(Held {
            version: Version::$version,
            layout: $layout,
            cells: &[CELL],
            notices: &[],
            sessions: &[],
        })
    };
}

/// What a store of the second version holds that was made in the run.
macro_rules! made {
    ($cells:expr, $notices:expr, $sessions:expr) => {
        Some(Held {
            version: Version::Second,
            layout: LAYOUT,
            cells: $cells,
            notices: $notices,
            sessions: $sessions,
        })
    };
}

static STORIES: [Story; 5] = [
    // A store is made, a counter, a notice and a session are put, the session is dropped.
    Story {
        first: &[],
        steps: &MADE,
        left: &[
            None,
            made!(&[], &[], &[]),
            made!(&[CELL], &[NOTICE], &[READER]),
            made!(&[CELL], &[NOTICE], &[]),
        ],
    },
    // A store is made, and the rows of several changes are put at once, which depend on each other.
    Story {
        first: &[],
        steps: &[Step::Make, Step::Round],
        left: &[
            None,
            made!(&[], &[], &[]),
            made!(&[MORE], &[FINISHED], &[WRITER]),
        ],
    },
    // A store of the first version is migrated.
    Story {
        first: &[FIRST, COUNTER],
        steps: &[Step::Renew(Version::First, LAYOUT)],
        left: &[counter!(First, LAYOUT), counter!(Second, LAYOUT)],
    },
    // A layout line is changed.
    Story {
        first: &[FIRST, COUNTER, SECOND],
        steps: &[Step::Renew(Version::Second, NEXT)],
        left: &[counter!(Second, LAYOUT), counter!(Second, NEXT)],
    },
    // Both at once.
    Story {
        first: &[FIRST, COUNTER],
        steps: &[Step::Renew(Version::First, NEXT)],
        left: &[counter!(First, LAYOUT), counter!(Second, NEXT)],
    },
];

fn has_rows(content: &Content, held: &Held) -> bool {
    content.cells.as_slice() == held.cells
        && content.notices.as_slice() == held.notices
        && content.sessions.as_slice() == held.sessions
}

pub fn is_held(content: Option<&Content>, held: Option<&Held>) -> bool {
    match (content, held) {
        (None, None) => true,
        (Some(content), Some(held)) => {
            content.version == held.version
                && content.layout.as_slice() == held.layout.as_bytes()
                && has_rows(content, held)
        }
        _ => false,
    }
}

/// The number of steps after which tables hold what they do.
fn step_found<S: Alter>(
    alloc: Global,
    left: &[Option<Held>],
    tables: &mut Tables<S>,
) -> Option<usize> {
    let found = tables.look(alloc).ok()?;
    let mut step = 0usize;
    for held in left {
        if is_held(found.as_ref(), held.as_ref()) {
            return Some(step);
        }
        step = step.saturating_add(1);
    }
    None
}

/// The step after which a database holds what it does.
#[derive(Drop)]
struct Finds(&'static [Option<Held>]);

impl Work for Finds {
    type Found = usize;

    fn over<S: Alter + Drop, R: Wait>(
        &self,
        _rt: &R,
        alloc: Global,
        connection: Connection<S>,
    ) -> Option<(usize, Connection<S>)> {
        let mut tables = idle(connection)?;
        let step = step_found(alloc, self.0, &mut tables)?;
        Some((step, tables.into_connection()))
    }
}

/// The steps that are done over a database, and its tables then.
fn played<S: Alter + Drop>(
    steps: &[Step],
    connection: Connection<S>,
) -> Option<(usize, Tables<S>)> {
    let mut tables = idle(connection)?;
    let done = steps_done(&mut tables, steps);
    Some((done, tables))
}

/// What is found in tables once their files have crashed.
fn found_again<D: Crash + Drop, W: Work, R: Wait>(
    rt: &R,
    alloc: Global,
    tables: Tables<FileStore<D>>,
    work: &W,
) -> Option<W::Found> {
    match restart(alloc, tables, Options::new(1)) {
        Ok(again) => found_over(rt, alloc, again.into_connection(), work),
        Err(left) => found_after_crash(rt, alloc, left, work),
    }
}

/// The steps that are done over a database, and what is found after a crash.
fn played_again<D: Crash + Drop, W: Work, R: Wait>(
    rt: &R,
    alloc: Global,
    connection: Connection<FileStore<D>>,
    steps: &[Step],
    work: &W,
) -> Option<(usize, W::Found)> {
    match played(steps, connection) {
        Some((done, tables)) => Some((done, found_again(rt, alloc, tables, work)?)),
        None => None,
    }
}

/// The same over files, which may not open.
pub fn played_over<D: Crash + Drop, W: Work, R: Wait>(
    rt: &R,
    alloc: Global,
    files: Files<D>,
    steps: &[Step],
    work: &W,
) -> Option<(usize, W::Found)> {
    match opened(alloc, files) {
        Ok(connection) => played_again(rt, alloc, connection, steps, work),
        Err(left) => Some((0, found_after_crash(rt, alloc, left, work)?)),
    }
}

/// Empty files after these statements; without one, no database is opened on them.
pub fn files_after<D: Crash + Drop, R: Wait>(
    rt: &R,
    alloc: Global,
    empty: Files<D>,
    texts: &'static [&'static str],
) -> Option<Files<D>> {
    if texts.is_empty() {
        return Some(empty);
    }
    let (ran, left) = left_after(rt, alloc, empty, &Texts(texts))?;
    if ran.is_some() { Some(left) } else { None }
}

/// The steps that were done before a file stopped after so many calls, and the step that is found after a crash.
fn stopped<R: Wait>(
    rt: &R,
    alloc: Global,
    story: &Story,
    log: u64,
    db: u64,
) -> Option<(usize, usize)> {
    let first = files_after(rt, alloc, empty_files(alloc), story.first)?;
    played_over(
        rt,
        alloc,
        fused(first, log, db),
        story.steps,
        &Finds(story.left),
    )
}

/// At how many calls of one file a story was stopped until it ran to its end, if each stop left what was done, or that
/// and the step in hand.
fn stops<R: Wait>(rt: &R, alloc: Global, story: &Story, of_log: bool) -> Option<u64> {
    for calls in 0..400u64 {
        let (log, db) = if of_log {
            (calls, 10000)
        } else {
            (10000, calls)
        };
        let (done, found) = stopped(rt, alloc, story, log, db)?;
        if found != done && found != done.saturating_add(1) {
            return None;
        }
        if done == story.steps.len() {
            return Some(calls);
        }
    }
    None
}

/// The same of both files.
fn all_stops<R: Wait>(rt: &R, alloc: Global, story: usize) -> Option<u64> {
    let story = STORIES.get(story)?;
    let of_log = stops(rt, alloc, story, true)?;
    Some(of_log.saturating_add(stops(rt, alloc, story, false)?))
}

/// Whether a story is stopped often, and each stop leaves what it may.
fn survives<R: Wait>(rt: &R, alloc: Global, story: usize) -> bool {
    match all_stops(rt, alloc, story) {
        Some(count) => count >= 10,
        None => false,
    }
}

#[test]
fn a_store_that_is_made_survives_each_stop(rt: HostRuntime) {
    assert!(rt; survives(&rt, rt.alloc(), 0));
}

#[test]
fn a_round_survives_each_stop(rt: HostRuntime) {
    assert!(rt; survives(&rt, rt.alloc(), 1));
}

#[test]
fn a_migration_survives_each_stop(rt: HostRuntime) {
    for story in 2..5usize {
        assert!(rt; survives(&rt, rt.alloc(), story), "{story}");
    }
}

// ---- what other programs make later

/// A table with a key, an index and a view, and a table that counts its rows.
const LATER: &str = "CREATE TABLE other (x INTEGER PRIMARY KEY, y TEXT UNIQUE);
CREATE INDEX by_name ON other (y, x);
CREATE VIEW fives AS SELECT y FROM other WHERE x = 5;
CREATE TABLE counted (n INTEGER PRIMARY KEY AUTOINCREMENT, y TEXT);
INSERT INTO other VALUES (5, 'five'), (6, 'six');
INSERT INTO counted (y) VALUES ('one'), ('two'), ('three');";

/// What is done to the store then: rows are put, its line is changed, and its session is dropped.
const AFTERWARDS: [Step; 3] = [Step::Put, Step::Renew(Version::Second, NEXT), Step::Leave];

/// The same of a store of the first version, which becomes one of the second.
const MIGRATED: [Step; 3] = [Step::Renew(Version::First, NEXT), Step::Put, Step::Leave];

/// How many rows each of these has.
static OTHERS: [&str; 3] = [
    "SELECT x FROM other",
    "SELECT y FROM fives",
    "SELECT n FROM counted WHERE n < 4",
];

fn rows_of<S: Alter>(connection: &mut Connection<S>, text: &str) -> Option<usize> {
    let rows = connection.query_all(text, &[]).ok()?;
    Some(rows.len())
}

fn other_rows<S: Alter>(connection: &mut Connection<S>) -> Option<[usize; 3]> {
    let mut found = [0usize; 3];
    for i in 0..3usize {
        found[i] = rows_of(connection, OTHERS[i])?;
    }
    Some(found)
}

/// How many counters, sessions and notices a store holds, and how many rows the others have.
#[derive(Drop)]
struct Counts;

impl Work for Counts {
    type Found = ([usize; 3], [usize; 3]);

    fn over<S: Alter + Drop, R: Wait>(
        &self,
        _rt: &R,
        alloc: Global,
        connection: Connection<S>,
    ) -> Option<(([usize; 3], [usize; 3]), Connection<S>)> {
        let mut tables = idle(connection)?;
        let held = sizes(alloc, &mut tables)?;
        let mut connection = tables.into_connection();
        let others = other_rows(&mut connection)?;
        Some(((held, others), connection))
    }
}

/// What a store and the others hold after both have served on and the files have crashed.
fn beside_after_a_crash<R: Wait>(
    rt: &R,
    alloc: Global,
    first: &'static [&'static str],
    steps: &[Step],
) -> Option<([usize; 3], [usize; 3])> {
    let files = files_after(rt, alloc, empty_files(alloc), first)?;
    let (done, found) = played_over(rt, alloc, files, steps, &Counts)?;
    (done == steps.len()).then_some(found)
}

#[test]
fn what_other_programs_make_later_stays(rt: HostRuntime) {
    let wanted = Some(([1, 0, 1], [2, 1, 3]));
    assert!(rt;
        beside_after_a_crash(&rt, rt.alloc(), &[FIRST, SECOND, LATER], &AFTERWARDS) == wanted
    );
    assert!(rt; beside_after_a_crash(&rt, rt.alloc(), &[FIRST, LATER], &MIGRATED) == wanted);
}
