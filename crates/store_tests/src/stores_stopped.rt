//! Stores with sessions and notices that are opened over files that stop at each call in turn: each is found as it was
//! before, or with the second version and the layout's own line, and opens then.
use crate::databases::{FIRST, LAYOUT, SECOND, layout};
use crate::desks::{Part, is_part};
use crate::files::{Texts, Work, closed_after, empty_files, found_after_crash, fused, left_after};
use crate::tables::idle;
use crate::tables_stopped::{Held, is_held};
use admission_core::{DurableCell, Phase, Session};
use site_store::{Keeper, KeeperError, SqlKeeper, StoreOpenError};
use sqlite::{Alter, Connection};
use std::alloc::Global;
use std::sync::Wait;
use store_tables::{Stage, StoredCell, StoredNotice, StoredSession, Tables, Version};

/// A reader is inside, and a writer waits.
const ROWS: &str =
    "INSERT INTO cells VALUES (0, 200, 1), (0, 201, 1); INSERT INTO sessions VALUES (0, 7, 1, 5), (0, 9, 2, 7)";

/// Site 1 has announced two writers, of which one has finished.
const NOTICES: &str = "INSERT INTO notices VALUES (0, 1, 2, 1)";

/// The line of the layout at three sites.
const GROWN: &str = "3;a,2,0,1";

macro_rules! stored {
    ($slot:expr) => {
        StoredCell {
            r: 0,
            slot: $slot,
            n: 1,
        }
    };
}

macro_rules! placed {
    ($h:expr, $stage:ident, $place:expr) => {
        StoredSession {
            r: 0,
            h: $h,
            stage: Stage::$stage,
            place: $place,
        }
    };
}

/// What a store of these rows holds, at this version and layout line.
macro_rules! held {
    ($version:ident, $layout:expr, $notices:expr) => {
        Held {
            version: Version::$version,
            layout: $layout,
            cells: &[stored!(200), stored!(201)],
            notices: $notices,
            sessions: &[placed!(7, Reader, 5), placed!(9, Waiting, 7)],
        }
    };
}

macro_rules! noticed {
    () => {
        &[StoredNotice {
            r: 0,
            site: 1,
            announced: 2,
            finished: 1,
        }]
    };
}

macro_rules! cell {
    ($slot:expr, $value:expr) => {
        DurableCell {
            r: 0,
            slot: $slot,
            value: $value,
        }
    };
}

macro_rules! part {
    ($($cell:expr),+) => {
        Part {
            cells: &[$($cell),+],
            sessions: &[
                Session {
                    r: 0,
                    h: 7,
                    phase: Phase::Reader,
                },
                Session {
                    r: 0,
                    h: 9,
                    phase: Phase::Waiting,
                },
            ],
        }
    };
}

/// What a database begins with, the number of sites of the layout under which it is opened, what it holds before and
/// after, and the durable part that a keeper reads then.
struct Story {
    first: &'static [&'static str],
    sites: u16,
    before: Held,
    after: Held,
    part: Part,
}

static STORIES: [Story; 3] = [
    // A store of the first version is migrated.
    Story {
        first: &[FIRST, ROWS],
        sites: 2,
        before: held!(First, LAYOUT, &[]),
        after: held!(Second, LAYOUT, &[]),
        part: part!(cell!(200, 1), cell!(201, 1)),
    },
    // A store gets a new layout line.
    Story {
        first: &[FIRST, ROWS, SECOND, NOTICES],
        sites: 3,
        before: held!(Second, LAYOUT, noticed!()),
        after: held!(Second, GROWN, noticed!()),
        part: part!(cell!(200, 1), cell!(201, 1), cell!(301, 2), cell!(401, 1)),
    },
    // Both at once.
    Story {
        first: &[FIRST, ROWS],
        sites: 3,
        before: held!(First, LAYOUT, &[]),
        after: held!(Second, GROWN, &[]),
        part: part!(cell!(200, 1), cell!(201, 1)),
    },
];

/// What an opening comes to over files that may stop: it is refused for a fault, it is opened and the reading fails, or
/// the durable part is read.
#[derive(Clone, Copy, PartialEq, Eq)]
enum Came {
    Stopped,
    Unread,
    Read,
    Other,
}

fn read_by<K: Keeper>(alloc: Global, keeper: &mut K, part: Part) -> Came {
    match keeper.load(alloc) {
        Ok(durable) if is_part(&durable, part) => Came::Read,
        Err(KeeperError::StoreFault) => Came::Unread,
        _ => Came::Other,
    }
}

/// Opens a database as the store of site 0 and reads it.
fn opened_over<S: Alter + Drop>(
    alloc: Global,
    story: &Story,
    connection: Connection<S>,
) -> (Came, Connection<S>) {
    let Some(layout) = layout(alloc, story.sites, 2) else {
        return (Came::Other, connection);
    };
    if !connection.is_autocommit() {
        return (Came::Other, connection);
    }
    match SqlKeeper::open(alloc, connection, &layout, 0, None) {
        Ok(mut keeper) => {
            let came = read_by(alloc, &mut keeper, story.part);
            (came, keeper.into_connection())
        }
        Err((StoreOpenError::StoreFault, back)) => (Came::Stopped, back),
        Err((_, back)) => (Came::Other, back),
    }
}

/// Whether tables hold what they are to after the opening, or what they did before.
fn is_after<S: Alter>(alloc: Global, story: &Story, tables: &mut Tables<S>) -> Option<bool> {
    let found = tables.look(alloc).ok()?;
    if is_held(found.as_ref(), Some(&story.after)) {
        return Some(true);
    }
    is_held(found.as_ref(), Some(&story.before)).then_some(false)
}

/// What an opening over a database comes to.
#[derive(Drop)]
struct Opens(&'static Story);

impl Work for Opens {
    type Found = Came;

    fn over<S: Alter + Drop, R: Wait>(
        &self,
        _rt: &R,
        alloc: Global,
        connection: Connection<S>,
    ) -> Option<(Came, Connection<S>)> {
        Some(opened_over(alloc, self.0, connection))
    }
}

/// Whether a database that opens and is read then held what it is to after the opening, or what it did before.
#[derive(Drop)]
struct Finds(&'static Story);

impl Work for Finds {
    type Found = bool;

    fn over<S: Alter + Drop, R: Wait>(
        &self,
        _rt: &R,
        alloc: Global,
        connection: Connection<S>,
    ) -> Option<(bool, Connection<S>)> {
        let mut tables = idle(connection)?;
        let after = is_after(alloc, self.0, &mut tables)?;
        match opened_over(alloc, self.0, tables.into_connection()) {
            (Came::Read, connection) => Some((after, connection)),
            _ => None,
        }
    }
}

/// What an opening comes to over files of which each stops after so many calls, and whether they hold what they are to
/// once they have crashed, or what they did.
fn stopped<R: Wait>(
    rt: &R,
    alloc: Global,
    story: &'static Story,
    log: u64,
    db: u64,
) -> Option<(Came, bool)> {
    let (_, first) = closed_after(rt, alloc, empty_files(alloc), &Texts(story.first))?;
    let (came, left) = left_after(rt, alloc, fused(first, log, db), &Opens(story))?;
    let found = found_after_crash(rt, alloc, left, &Finds(story))?;
    Some((came.unwrap_or(Came::Stopped), found))
}

/// At how many calls of one file an opening was stopped until the store was read, if each stop left the store as it was or
/// as the opening makes it. A store that was opened is as the opening makes it.
fn stops<R: Wait>(rt: &R, alloc: Global, story: &'static Story, of_log: bool) -> Option<u64> {
    for calls in 0..400u64 {
        let (log, db) = if of_log {
            (calls, 10000)
        } else {
            (10000, calls)
        };
        match stopped(rt, alloc, story, log, db)? {
            (Came::Read, true) => return Some(calls),
            (Came::Stopped, _) | (Came::Unread, true) => {}
            _ => return None,
        }
    }
    None
}

/// Whether the opening of a story was stopped at several calls of each file, and each stop left what it may.
fn survives<R: Wait>(rt: &R, alloc: Global, story: usize) -> Option<bool> {
    let story = STORIES.get(story)?;
    let of_log = stops(rt, alloc, story, true)?;
    let of_file = stops(rt, alloc, story, false)?;
    Some(of_log >= 5 && of_file >= 5)
}

// A test for each story, since each has a minute.

#[test]
fn a_migration_with_sessions_survives_each_stop(rt: HostRuntime) {
    assert!(rt; survives(&rt, rt.alloc(), 0) == Some(true));
}

#[test]
fn a_new_layout_line_with_sessions_survives_each_stop(rt: HostRuntime) {
    assert!(rt; survives(&rt, rt.alloc(), 1) == Some(true));
}

#[test]
fn a_migration_to_a_new_layout_line_survives_each_stop(rt: HostRuntime) {
    assert!(rt; survives(&rt, rt.alloc(), 2) == Some(true));
}
