//! Databases that are opened for a service: stores, empty databases, and those of other programs; and creations that stop.
use crate::databases::{FIRST, SECOND, after_texts, in_memory, layout};
use crate::files::{Work, empty_files, found_after_crash, fused, left_after};
use crate::stores::{At, EMPTY, HERE, Opened, held_by};
use site_store::{Permission, ServedError, SqlKeeper};
use sqlite::{Alter, Connection};
use std::alloc::Global;
use std::sync::Wait;

const SITE_1: At = At {
    sites: 2,
    seats: 2,
    site: 1,
    group: None,
};

const MORE_SITES: At = At {
    sites: 3,
    seats: 2,
    site: 0,
    group: None,
};

const OTHER_SEATS: At = At {
    sites: 2,
    seats: 3,
    site: 0,
    group: None,
};

const PAYROLL: At = At {
    sites: 2,
    seats: 2,
    site: 0,
    group: Some("payroll"),
};

const NEITHER: Permission = Permission {
    create: false,
    grow: false,
};

const CREATE: Permission = Permission {
    create: true,
    grow: false,
};

const GROW: Permission = Permission {
    create: false,
    grow: true,
};

const BOTH: Permission = Permission {
    create: true,
    grow: true,
};

/// What an opening for a service comes to.
#[derive(Clone, Copy, PartialEq, Eq)]
enum Served {
    Refused(ServedError),
    /// The store was made, and what it holds.
    Made(Opened),
    /// It was there.
    Found(Opened),
    /// There was no layout to open it under, or a transaction was open.
    Untried,
}

const MADE: Served = Served::Made(EMPTY);

const FOUND: Served = Served::Found(EMPTY);

const NOT_A_STORE: Served = Served::Refused(ServedError::NotAStore);

const NO_STORE: Served = Served::Refused(ServedError::NoStore);

const EXISTS: Served = Served::Refused(ServedError::Exists);

const BAD_STORE: Served = Served::Refused(ServedError::BadStore);

const WRONG_SITE: Served = Served::Refused(ServedError::WrongSite);

const WRONG_GROUP: Served = Served::Refused(ServedError::WrongGroup);

const WRONG_LAYOUT: Served = Served::Refused(ServedError::WrongLayout);

const OUTDATED: Served = Served::Refused(ServedError::Outdated);

/// Whether the call made the store, and what that holds.
fn told(made: bool, held: Opened) -> Served {
    if made {
        Served::Made(held)
    } else {
        Served::Found(held)
    }
}

/// Opens a database for a service, and hands its connection back.
fn served_at<S: Alter + Drop>(
    alloc: Global,
    connection: Connection<S>,
    at: At,
    permission: Permission,
) -> (Served, Connection<S>) {
    let Some(layout) = layout(alloc, at.sites, at.seats) else {
        return (Served::Untried, connection);
    };
    if !connection.is_autocommit() {
        return (Served::Untried, connection);
    }
    match SqlKeeper::open_served(alloc, connection, &layout, at.site, at.group, permission) {
        Ok((mut keeper, made)) => {
            let held = held_by(alloc, &mut keeper);
            (told(made, held), keeper.into_connection())
        }
        Err((error, back)) => (Served::Refused(error), back),
    }
}

/// A step of a database.
#[derive(Clone, Copy)]
enum Step {
    /// It takes these statements.
    Run(&'static str),
    /// It is opened for a service, or refused.
    Serve(At, Permission, Served),
}

fn serves<S: Alter + Drop>(
    alloc: Global,
    connection: Connection<S>,
    at: At,
    permission: Permission,
    wanted: Served,
) -> Option<Connection<S>> {
    let (found, back) = served_at(alloc, connection, at, permission);
    if found == wanted { Some(back) } else { None }
}

/// The connection after a step, if that goes as it is told.
fn after<S: Alter + Drop>(
    alloc: Global,
    connection: Connection<S>,
    step: Step,
) -> Option<Connection<S>> {
    match step {
        Step::Run(texts) => after_texts(connection, &[texts]),
        Step::Serve(at, permission, wanted) => serves(alloc, connection, at, permission, wanted),
    }
}

/// Whether steps over a database go as they are told.
fn go_on<S: Alter + Drop>(alloc: Global, connection: Connection<S>, steps: &[Step]) -> bool {
    let mut held = connection;
    for step in steps {
        match after(alloc, held, *step) {
            Some(next) => held = next,
            None => return false,
        }
    }
    true
}

/// Whether steps over a new database in memory go as they are told.
fn are_told(alloc: Global, steps: &[Step]) -> bool {
    match in_memory(alloc) {
        Some(empty) => go_on(alloc, empty, steps),
        None => false,
    }
}

/// Steps from one of a database's beginnings: the statements that it takes first, and how it is opened then. What it takes
/// in the end shows that no table was made.
static STORIES: [&[Step]; 22] = [
    // Another program's table, or a view alone.
    &[
        Step::Run("CREATE TABLE other (x INTEGER)"),
        Step::Serve(HERE, NEITHER, NOT_A_STORE),
        Step::Serve(HERE, CREATE, NOT_A_STORE),
        Step::Serve(HERE, BOTH, NOT_A_STORE),
        Step::Run("CREATE TABLE meta (x INTEGER)"),
    ],
    &[
        Step::Run("CREATE VIEW other AS SELECT 1"),
        Step::Serve(HERE, CREATE, NOT_A_STORE),
        Step::Run("CREATE TABLE meta (x INTEGER)"),
    ],
    // A table of one of a store's names.
    &[
        Step::Run("CREATE TABLE cells (x INTEGER)"),
        Step::Serve(HERE, NEITHER, NOT_A_STORE),
        Step::Serve(HERE, CREATE, NOT_A_STORE),
    ],
    // Nothing.
    &[
        Step::Serve(HERE, NEITHER, NO_STORE),
        Step::Serve(HERE, GROW, NO_STORE),
        Step::Run("CREATE TABLE meta (x INTEGER)"),
    ],
    // A table that was made and dropped.
    &[
        Step::Run("CREATE TABLE other (x INTEGER); DROP TABLE other"),
        Step::Serve(HERE, NEITHER, NO_STORE),
        Step::Serve(HERE, CREATE, MADE),
    ],
    // A new store, which is there then, whichever site asks for one.
    &[
        Step::Serve(HERE, CREATE, MADE),
        Step::Serve(HERE, CREATE, EXISTS),
        Step::Serve(SITE_1, CREATE, EXISTS),
        Step::Serve(HERE, NEITHER, FOUND),
        Step::Serve(SITE_1, NEITHER, WRONG_SITE),
        Step::Serve(PAYROLL, NEITHER, WRONG_GROUP),
        Step::Serve(OTHER_SEATS, GROW, WRONG_LAYOUT),
    ],
    &[
        Step::Serve(PAYROLL, BOTH, MADE),
        Step::Serve(HERE, GROW, WRONG_GROUP),
        Step::Serve(PAYROLL, GROW, FOUND),
    ],
    // An earlier layout.
    &[
        Step::Serve(HERE, CREATE, MADE),
        Step::Serve(MORE_SITES, NEITHER, WRONG_LAYOUT),
        Step::Serve(MORE_SITES, BOTH, EXISTS),
        Step::Serve(HERE, NEITHER, FOUND),
        Step::Serve(MORE_SITES, GROW, FOUND),
        Step::Serve(MORE_SITES, NEITHER, FOUND),
        Step::Serve(HERE, GROW, WRONG_LAYOUT),
    ],
    // An earlier layout at another site, and with a content that no store has.
    &[
        Step::Serve(SITE_1, CREATE, MADE),
        Step::Serve(MORE_SITES, NEITHER, WRONG_SITE),
    ],
    &[
        Step::Serve(HERE, CREATE, MADE),
        Step::Run("INSERT INTO cells VALUES (65536, 200, 1)"),
        Step::Serve(MORE_SITES, NEITHER, BAD_STORE),
        Step::Serve(HERE, CREATE, EXISTS),
    ],
    // The first version gets the second, as the row of a notice shows, which is two counters of a site.
    &[
        Step::Run(FIRST),
        Step::Serve(HERE, CREATE, EXISTS),
        Step::Serve(HERE, NEITHER, FOUND),
        Step::Run("INSERT INTO notices VALUES (0, 1, 2, 1)"),
        Step::Serve(HERE, NEITHER, Served::Found(Opened::Holds(2, 0, false))),
    ],
    // Of an earlier layout it does not, and keeps its tables.
    &[
        Step::Run(FIRST),
        Step::Serve(MORE_SITES, NEITHER, WRONG_LAYOUT),
        Step::Run("CREATE TABLE notices (x INTEGER)"),
    ],
    &[
        Step::Run(FIRST),
        Step::Serve(MORE_SITES, GROW, FOUND),
        Step::Run("INSERT INTO notices VALUES (0, 1, 2, 1)"),
    ],
    // Tables of other names, made after those of the store.
    &[
        Step::Serve(HERE, CREATE, MADE),
        Step::Run(
            "CREATE TABLE other (x INTEGER); CREATE INDEX other_x ON other (x); CREATE VIEW others AS SELECT x FROM other",
        ),
        Step::Serve(HERE, NEITHER, FOUND),
        Step::Serve(HERE, CREATE, EXISTS),
    ],
    // Such a table beside a store of the first version, or made before the store's own.
    &[
        Step::Run(FIRST),
        Step::Run("CREATE TABLE other (x INTEGER)"),
        Step::Serve(HERE, NEITHER, NOT_A_STORE),
        Step::Run("CREATE TABLE notices (x INTEGER)"),
    ],
    &[
        Step::Run("CREATE TABLE other (x INTEGER)"),
        Step::Run(FIRST),
        Step::Run(SECOND),
        Step::Serve(HERE, NEITHER, NOT_A_STORE),
    ],
    // An index more on a table of the store, and a table that refers to one.
    &[
        Step::Serve(HERE, CREATE, MADE),
        Step::Run("CREATE INDEX cells_n ON cells (n)"),
        Step::Serve(HERE, NEITHER, NOT_A_STORE),
        Step::Run("DROP INDEX cells_n"),
        Step::Serve(HERE, NEITHER, FOUND),
    ],
    &[
        Step::Serve(HERE, CREATE, MADE),
        Step::Run("CREATE TABLE other (x TEXT REFERENCES META (name))"),
        Step::Serve(HERE, NEITHER, NOT_A_STORE),
    ],
    // Rows of `meta` that are missing, and a version that is not known.
    &[
        Step::Serve(HERE, CREATE, MADE),
        Step::Run("DELETE FROM meta WHERE name = 'layout'"),
        Step::Serve(HERE, NEITHER, BAD_STORE),
    ],
    &[
        Step::Serve(HERE, CREATE, MADE),
        Step::Run("UPDATE meta SET value = '9' WHERE name = 'version'"),
        Step::Serve(HERE, GROW, BAD_STORE),
    ],
    // A mark of an outdated store, behind the site and the group and before the layout; nothing is written.
    &[
        Step::Serve(HERE, CREATE, MADE),
        Step::Run("INSERT INTO meta VALUES ('outdated', '1')"),
        Step::Serve(HERE, NEITHER, OUTDATED),
        Step::Serve(HERE, CREATE, EXISTS),
        Step::Serve(SITE_1, NEITHER, WRONG_SITE),
        Step::Serve(PAYROLL, NEITHER, WRONG_GROUP),
        Step::Serve(OTHER_SEATS, GROW, OUTDATED),
        Step::Serve(MORE_SITES, NEITHER, OUTDATED),
        Step::Serve(MORE_SITES, GROW, OUTDATED),
        Step::Run("DELETE FROM meta WHERE name = 'outdated'"),
        Step::Serve(HERE, NEITHER, FOUND),
    ],
    // Another value of it, and a row of another name.
    &[
        Step::Serve(HERE, CREATE, MADE),
        Step::Run("INSERT INTO meta VALUES ('outdated2', '1')"),
        Step::Serve(HERE, NEITHER, FOUND),
        Step::Run(
            "INSERT INTO meta VALUES ('outdated', '0'); INSERT INTO cells VALUES (65536, 200, 1)",
        ),
        Step::Serve(HERE, NEITHER, BAD_STORE),
        Step::Run("DELETE FROM cells"),
        Step::Serve(HERE, NEITHER, OUTDATED),
    ],
];

/// The first of the stories that goes otherwise.
fn first_other(alloc: Global) -> Option<usize> {
    for at in 0..STORIES.len() {
        if !are_told(alloc, STORIES[at]) {
            return Some(at);
        }
    }
    None
}

#[test]
fn a_database_is_judged_before_it_is_served(rt: HostRuntime) {
    assert!(rt; first_other(rt.alloc()) == None);
}

/// A store is made in a database.
#[derive(Drop)]
struct Creates;

impl Work for Creates {
    type Found = Served;

    fn over<S: Alter + Drop, R: Wait>(
        &self,
        _rt: &R,
        alloc: Global,
        connection: Connection<S>,
    ) -> Option<(Served, Connection<S>)> {
        Some(served_at(alloc, connection, HERE, CREATE))
    }
}

/// Whether a database is a store with nothing in it; else it is empty, and is made one.
#[derive(Drop)]
struct FindsOrCreates;

impl Work for FindsOrCreates {
    type Found = bool;

    fn over<S: Alter + Drop, R: Wait>(
        &self,
        _rt: &R,
        alloc: Global,
        connection: Connection<S>,
    ) -> Option<(bool, Connection<S>)> {
        let (found, connection) = served_at(alloc, connection, HERE, NEITHER);
        if found == FOUND {
            return Some((true, connection));
        }
        if found != NO_STORE {
            return None;
        }
        let connection = serves(alloc, connection, HERE, CREATE, MADE)?;
        Some((false, connection))
    }
}

/// What a creation comes to over files of which each stops after so many calls, and whether they are a store once they have
/// crashed.
fn stopped<R: Wait>(rt: &R, alloc: Global, log: u64, db: u64) -> Option<(Served, bool)> {
    let (came, left) = left_after(rt, alloc, fused(empty_files(alloc), log, db), &Creates)?;
    let found = found_after_crash(rt, alloc, left, &FindsOrCreates)?;
    Some((
        came.unwrap_or(Served::Refused(ServedError::StoreFault)),
        found,
    ))
}

/// At how many calls of one file a creation was stopped until the store was read, if each stop left a store with nothing in
/// it or an empty database. A store that was told to be made is there.
fn stops<R: Wait>(rt: &R, alloc: Global, of_log: bool) -> Option<u64> {
    for calls in 0..400u64 {
        let (log, db) = if of_log {
            (calls, 10000)
        } else {
            (10000, calls)
        };
        match stopped(rt, alloc, log, db)? {
            (Served::Made(Opened::Holds(0, 0, false)), true) => return Some(calls),
            (Served::Made(Opened::Failed), true) => {}
            (Served::Refused(ServedError::StoreFault), _) => {}
            _ => return None,
        }
    }
    None
}

/// Whether a creation was stopped at several calls of a file, and each stop left what it may.
fn survives<R: Wait>(rt: &R, alloc: Global, of_log: bool) -> Option<bool> {
    Some(stops(rt, alloc, of_log)? >= 5)
}

#[test]
fn a_creation_survives_each_stop_of_the_log(rt: HostRuntime) {
    assert!(rt; survives(&rt, rt.alloc(), true) == Some(true));
}

#[test]
fn a_creation_survives_each_stop_of_the_file(rt: HostRuntime) {
    assert!(rt; survives(&rt, rt.alloc(), false) == Some(true));
}
