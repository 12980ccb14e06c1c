//! Databases that are opened as the store of a site, and those that are not.
use crate::databases::{COUNTER, FIRST, after_texts, layout};
use crate::files::{empty_files, opened};
use crate::stores::{At, EMPTY, HERE, Opened, Step, are_told, held_by};
use site_store::restart::restart;
use site_store::{MemoryKeeper, SqlKeeper, StoreOpenError};
use sqlite::{Alter, Connection, FileStore, Files, Options};
use sqlite_disk::Crash;
use std::alloc::Global;

const OTHER_SITE: At = At {
    sites: 2,
    seats: 2,
    site: 1,
    group: None,
};

const OTHER_SEATS: At = At {
    sites: 2,
    seats: 3,
    site: 0,
    group: None,
};

const MORE_SITES: At = At {
    sites: 3,
    seats: 2,
    site: 0,
    group: None,
};

/// The same site in groups of sites, one of which has a name that begins as the other's, and one of which has a name of 32 bytes.
const PAYROLL: At = At {
    sites: 2,
    seats: 2,
    site: 0,
    group: Some("payroll"),
};

const PAYROLL_2: At = At {
    sites: 2,
    seats: 2,
    site: 0,
    group: Some("payroll-2"),
};

const LONG: At = At {
    sites: 2,
    seats: 2,
    site: 0,
    group: Some("long-name-of-a-group-of-32-bytes"),
};

const PAYROLL_SITE_1: At = At {
    sites: 2,
    seats: 2,
    site: 1,
    group: Some("payroll"),
};

const PAYROLL_SEATS: At = At {
    sites: 2,
    seats: 3,
    site: 0,
    group: Some("payroll"),
};

const PAYROLL_SITES: At = At {
    sites: 3,
    seats: 2,
    site: 0,
    group: Some("payroll"),
};

const WRONG_SITE: Opened = Opened::Refused(StoreOpenError::WrongSite);

const WRONG_GROUP: Opened = Opened::Refused(StoreOpenError::WrongGroup);

const WRONG_LAYOUT: Opened = Opened::Refused(StoreOpenError::WrongLayout);

const BAD_STORE: Opened = Opened::Refused(StoreOpenError::BadStore);

/// One store, new at site 0 of two sites: again, at site 1, with other seats, at three sites, and then at two again.
static IN_TURN: [Step; 6] = [
    Step::Open(HERE, EMPTY),
    Step::Open(HERE, EMPTY),
    Step::Open(OTHER_SITE, WRONG_SITE),
    Step::Open(OTHER_SEATS, WRONG_LAYOUT),
    Step::Open(MORE_SITES, EMPTY),
    Step::Open(HERE, WRONG_LAYOUT),
];

/// A new store of a group: again; in no group, in another one, and under a name that the group's begins with; at site 1; with
/// other seats, also in another group; at three sites; and then at two again.
static IN_A_GROUP: [Step; 10] = [
    Step::Open(PAYROLL, EMPTY),
    Step::Open(PAYROLL, EMPTY),
    Step::Open(HERE, WRONG_GROUP),
    Step::Open(LONG, WRONG_GROUP),
    Step::Open(PAYROLL_2, WRONG_GROUP),
    Step::Open(PAYROLL_SITE_1, WRONG_SITE),
    Step::Open(PAYROLL_SEATS, WRONG_LAYOUT),
    Step::Open(OTHER_SEATS, WRONG_GROUP),
    Step::Open(PAYROLL_SITES, EMPTY),
    Step::Open(PAYROLL, WRONG_LAYOUT),
];

/// A new store of no group, and one of a group with a longer name, opened in a group; and what the row of the site has then.
static IN_ANOTHER: [Step; 4] = [
    Step::Open(HERE, EMPTY),
    Step::Open(PAYROLL, WRONG_GROUP),
    Step::Run("UPDATE meta SET value = '0 payroll-2' WHERE name = 'site'"),
    Step::Open(PAYROLL, WRONG_GROUP),
];

static NAMED: [Step; 5] = [
    Step::Open(LONG, EMPTY),
    Step::Run(
        "UPDATE meta SET value = '0 payroll' WHERE name = 'site' AND value = '0 long-name-of-a-group-of-32-bytes'",
    ),
    Step::Open(PAYROLL, EMPTY),
    Step::Run("UPDATE meta SET value = '0payroll' WHERE name = 'site'"),
    Step::Open(PAYROLL, WRONG_SITE),
];

static BESIDE: [Step; 2] = [
    Step::Run("CREATE TABLE other (x INTEGER)"),
    Step::Open(HERE, EMPTY),
];

/// The only table has the name of one of a store's, and other columns.
static ONLY_CELLS: [Step; 2] = [
    Step::Run("CREATE TABLE cells (x INTEGER)"),
    Step::Open(HERE, BAD_STORE),
];

/// Changes of a store of the first version, and what its opening comes to then.
static CHANGED: [(&str, Opened); 15] = [
    (
        "INSERT INTO cells VALUES (0, 200, 1), (0, 100, 3); INSERT INTO sessions VALUES (0, 7, 1, 5), (0, 9, 2, 2)",
        Opened::Holds(2, 2, false),
    ),
    (
        "INSERT INTO sessions VALUES (0, 7, 1, 4611686018427387904)",
        Opened::Holds(0, 1, true),
    ),
    (
        "UPDATE meta SET value = '9' WHERE name = 'version'",
        BAD_STORE,
    ),
    ("DELETE FROM meta WHERE name = 'site'", BAD_STORE),
    ("DELETE FROM meta WHERE name = 'layout'", BAD_STORE),
    (
        "INSERT INTO cells VALUES (0, 300, 1)",
        Opened::Holds(1, 0, false),
    ),
    ("INSERT INTO cells VALUES (65536, 200, 1)", BAD_STORE),
    ("INSERT INTO cells VALUES (0, 200, 'x')", BAD_STORE),
    ("INSERT INTO sessions VALUES (0, 7, 4, 1)", BAD_STORE),
    ("INSERT INTO sessions VALUES (0, 7, 1, 0)", BAD_STORE),
    ("INSERT INTO sessions VALUES (0, -1, 1, 1)", BAD_STORE),
    ("CREATE TABLE notices (x INTEGER)", BAD_STORE),
    (
        "UPDATE meta SET value = '1' WHERE name = 'site'; INSERT INTO cells VALUES (65536, 0, 1)",
        BAD_STORE,
    ),
    (
        "UPDATE meta SET value = '1' WHERE name = 'site'; UPDATE meta SET value = 'x' WHERE name = 'layout'",
        WRONG_SITE,
    ),
    (
        "UPDATE meta SET value = 'x' WHERE name = 'layout'",
        WRONG_LAYOUT,
    ),
];

fn is_opened_so(alloc: Global, text: &'static str, wanted: Opened) -> bool {
    are_told(
        alloc,
        &[Step::Run(FIRST), Step::Run(text), Step::Open(HERE, wanted)],
    )
}

/// The first of these changes after which an opening comes to something else.
fn first_other(alloc: Global) -> Option<&'static str> {
    for (text, wanted) in CHANGED {
        if !is_opened_so(alloc, text, wanted) {
            return Some(text);
        }
    }
    None
}

#[test]
fn a_store_is_judged_before_it_is_opened(rt: HostRuntime) {
    assert!(rt; first_other(rt.alloc()) == None);
}

#[test]
fn a_store_of_a_group_is_its_own(rt: HostRuntime) {
    let alloc = rt.alloc();
    assert!(rt;
        [
            are_told(alloc, &IN_A_GROUP),
            are_told(alloc, &IN_ANOTHER),
            are_told(alloc, &NAMED)
        ] == [true, true, true]
    );
}

#[test]
fn a_new_store_is_its_own(rt: HostRuntime) {
    let alloc = rt.alloc();
    assert!(rt;
        [
            are_told(alloc, &IN_TURN),
            are_told(alloc, &BESIDE),
            are_told(alloc, &ONLY_CELLS)
        ] == [true, true, true]
    );
}

fn held_in_memory_by(alloc: Global, keeper: MemoryKeeper) -> Opened {
    let mut keeper = keeper;
    held_by(alloc, &mut keeper)
}

/// What a new keeper in memory holds.
fn held_in_memory(alloc: Global) -> Option<Opened> {
    let layout = layout(alloc, 2, 2)?;
    match MemoryKeeper::new(alloc, &layout, 0) {
        Ok(keeper) => Some(held_in_memory_by(alloc, keeper)),
        Err(_) => None,
    }
}

/// The keeper of site 0 of two over a database.
fn keeper_over<S: Alter + Drop>(alloc: Global, connection: Connection<S>) -> Option<SqlKeeper<S>> {
    let layout = layout(alloc, 2, 2)?;
    if !connection.is_autocommit() {
        return None;
    }
    SqlKeeper::open(alloc, connection, &layout, 0, None).ok()
}

/// A keeper of a store with one counter and one session.
fn keeper_of_one<S: Alter + Drop>(alloc: Global, empty: Connection<S>) -> Option<SqlKeeper<S>> {
    let texts = [FIRST, COUNTER, "INSERT INTO sessions VALUES (0, 7, 1, 5)"];
    match after_texts(empty, &texts) {
        Some(connection) => keeper_over(alloc, connection),
        None => None,
    }
}

fn held_in<S: Alter + Drop>(alloc: Global, keeper: SqlKeeper<S>) -> Opened {
    let mut keeper = keeper;
    held_by(alloc, &mut keeper)
}

/// What a keeper over files holds after both have crashed.
fn held_again<D: Crash + Drop>(alloc: Global, keeper: SqlKeeper<FileStore<D>>) -> Option<Opened> {
    match restart(alloc, keeper, Options::new(1)) {
        Some(again) => Some(held_in(alloc, again)),
        None => None,
    }
}

fn held_after_a_crash<D: Crash + Drop>(
    alloc: Global,
    empty: Connection<FileStore<D>>,
) -> Option<Opened> {
    match keeper_of_one(alloc, empty) {
        Some(keeper) => held_again(alloc, keeper),
        None => None,
    }
}

fn held_over<D: Crash + Drop>(alloc: Global, empty: Files<D>) -> Option<Opened> {
    match opened(alloc, empty) {
        Ok(connection) => held_after_a_crash(alloc, connection),
        Err(_) => None,
    }
}

fn held_over_files(alloc: Global) -> Option<Opened> {
    held_over(alloc, empty_files(alloc))
}

#[test]
fn a_keeper_is_opened_again_after_a_crash(rt: HostRuntime) {
    assert!(rt; held_over_files(rt.alloc()) == Some(Opened::Holds(1, 1, true)));
    assert!(rt; held_in_memory(rt.alloc()) == Some(EMPTY));
}
