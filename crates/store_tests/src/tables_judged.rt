//! Each kind of database that is no store is told from one, and a full store is read.
use crate::databases::{FIRST, LAYOUT, NEXT, SECOND, in_memory, run, run_all};
use crate::tables::{Found, MADE, idle, is_made, is_renewed, look, sizes, steps_done};
use sqlite::{Alter, Connection};
use std::alloc::Global;
use store_tables::{SessionEdit, Stage, StoredCell, StoredNotice, StoredSession, Tables, Version};

// ---- what is a store

/// What is found in a database after these statements.
fn found_after<S: Alter + Drop>(
    alloc: Global,
    empty: Connection<S>,
    texts: &[&str],
) -> Option<Found> {
    let mut connection = empty;
    if !run_all(&mut connection, texts) {
        return Some(Found::Refused);
    }
    let mut tables = idle(connection)?;
    Some(look(alloc, &mut tables))
}

fn found_in_memory(alloc: Global, texts: &[&str]) -> Option<Found> {
    found_after(alloc, in_memory(alloc)?, texts)
}

/// The first of these changes of a store of the second version after which something else is found.
fn first_other(alloc: Global, changes: &[&'static str], wanted: Found) -> Option<&'static str> {
    for change in changes {
        if found_in_memory(alloc, &[FIRST, SECOND, change]) != Some(wanted) {
            return Some(change);
        }
    }
    None
}

// Statements that the tables of a store refuse.
const UNWRITABLE: [&str; 5] = [
    "SELECT_NOTHING",
    "INSERT INTO sessions VALUES (0, 7, 1, 5), (0, 8, 1, 5)",
    "INSERT INTO cells VALUES (0, 0, -1)",
    "INSERT INTO notices VALUES (0, 0, -1, 0)",
    "INSERT INTO notices VALUES (0, 0, 0, -1)",
];

// Changes that leave a store.
const HARMLESS: [&str; 3] = [
    "",
    "CREATE TABLE other (x INTEGER); INSERT INTO other VALUES (1)",
    "INSERT INTO meta VALUES ('more', 'x')",
];

// Changes after which a table, a column or a row of `meta` is missing or wrong.
const MISSING: [&str; 15] = [
    "DROP TABLE meta",
    "DROP TABLE cells",
    "DROP TABLE sessions",
    "DROP TABLE notices",
    "DROP TABLE cells; CREATE TABLE cells (record INTEGER, slot INTEGER)",
    "DROP TABLE sessions; CREATE TABLE sessions (record INTEGER, holder INTEGER, phase INTEGER)",
    "DROP TABLE notices; CREATE TABLE notices (record INTEGER, site INTEGER, ann INTEGER)",
    "DROP TABLE meta; CREATE TABLE meta (name TEXT)",
    "DELETE FROM meta WHERE name = 'version'",
    "DELETE FROM meta WHERE name = 'site'",
    "DELETE FROM meta WHERE name = 'layout'",
    "UPDATE meta SET value = '1' WHERE name = 'version'",
    "UPDATE meta SET value = '9' WHERE name = 'version'",
    "UPDATE meta SET value = '' WHERE name = 'version'",
    "UPDATE meta SET value = x'32' WHERE name = 'version'",
];

// Rows with a value outside its range.
const OUTSIDE: [&str; 28] = [
    "INSERT INTO cells VALUES ('x', 0, 1)",
    "INSERT INTO cells VALUES (-1, 0, 1)",
    "INSERT INTO cells VALUES (65536, 0, 1)",
    "INSERT INTO cells VALUES (0, 'x', 1)",
    "INSERT INTO cells VALUES (0, -1, 1)",
    "INSERT INTO cells VALUES (0, 65536, 1)",
    "INSERT INTO cells VALUES (0, 0, 'x')",
    "INSERT INTO cells VALUES (0, 0, 1.5)",
    "INSERT INTO sessions VALUES ('x', 7, 1, 1)",
    "INSERT INTO sessions VALUES (-1, 7, 1, 1)",
    "INSERT INTO sessions VALUES (65536, 7, 1, 1)",
    "INSERT INTO sessions VALUES (0, 'x', 1, 1)",
    "INSERT INTO sessions VALUES (0, -1, 1, 1)",
    "INSERT INTO sessions VALUES (0, 7, 0, 1)",
    "INSERT INTO sessions VALUES (0, 7, 4, 1)",
    "INSERT INTO sessions VALUES (0, 7, 'x', 1)",
    "INSERT INTO sessions VALUES (0, 7, 1, 0)",
    "INSERT INTO sessions VALUES (0, 7, 1, -1)",
    "INSERT INTO sessions VALUES (0, 7, 1, 4611686018427387905)",
    "INSERT INTO sessions VALUES (0, 7, 1, 'x')",
    "INSERT INTO notices VALUES ('x', 0, 1, 1)",
    "INSERT INTO notices VALUES (-1, 0, 1, 1)",
    "INSERT INTO notices VALUES (65536, 0, 1, 1)",
    "INSERT INTO notices VALUES (0, 'x', 1, 1)",
    "INSERT INTO notices VALUES (0, -1, 1, 1)",
    "INSERT INTO notices VALUES (0, 16, 1, 1)",
    "INSERT INTO notices VALUES (0, 0, 'x', 1)",
    "INSERT INTO notices VALUES (0, 0, 1, 'x')",
];

// Rows whose values are the greatest.
const AT_LIMITS: [&str; 3] = [
    "INSERT INTO cells VALUES (65535, 65535, 9223372036854775807)",
    "INSERT INTO sessions VALUES (65535, 9223372036854775807, 3, 4611686018427387904)",
    "INSERT INTO notices VALUES (65535, 15, 9223372036854775807, 9223372036854775807)",
];

// What is found after other beginnings.
static BEGINNINGS: [(&[&str], Found); 4] = [
    (&[FIRST], Found::Store),
    (&[], Found::Blank),
    (&["CREATE TABLE other (x INTEGER)"], Found::Blank),
    (&["CREATE TABLE cells (x INTEGER)"], Found::BadStore),
];

/// The first beginning after which something else is found.
fn other_beginning(alloc: Global) -> Option<usize> {
    let mut at = 0usize;
    for (texts, wanted) in BEGINNINGS {
        if found_in_memory(alloc, texts) != Some(wanted) {
            return Some(at);
        }
        at = at.saturating_add(1);
    }
    None
}

// What is found after each kind of change.
static JUDGED: [(&[&'static str], Found); 5] = [
    (&UNWRITABLE, Found::Refused),
    (&HARMLESS, Found::Store),
    (&MISSING, Found::BadStore),
    (&OUTSIDE, Found::BadStore),
    (&AT_LIMITS, Found::Store),
];

/// The first change after which something else is found.
fn other_change(alloc: Global) -> Option<&'static str> {
    for (changes, wanted) in JUDGED {
        let other = first_other(alloc, changes, wanted);
        if other.is_some() {
            return other;
        }
    }
    None
}

#[test]
fn tables_marks_and_values_are_judged(rt: HostRuntime) {
    assert_eq!(rt; other_change(rt.alloc()), None);
    assert_eq!(rt; other_beginning(rt.alloc()), None);
}

// ---- beside another table, and at the limits

/// How many rows another table has.
fn other_rows<S: Alter>(connection: &mut Connection<S>) -> Option<usize> {
    let rows = connection
        .query_all("SELECT x FROM other WHERE x = 5", &[])
        .ok()?;
    Some(rows.len())
}

/// How much a store holds that is made in a database, and how many rows another table has then.
fn made_in<S: Alter + Drop>(
    alloc: Global,
    connection: Connection<S>,
) -> Option<([usize; 3], usize)> {
    let mut tables = idle(connection)?;
    if steps_done(&mut tables, &MADE) != 3 {
        return None;
    }
    let held = sizes(alloc, &mut tables)?;
    let mut connection = tables.into_connection();
    Some((held, other_rows(&mut connection)?))
}

fn made_beside<S: Alter + Drop>(
    alloc: Global,
    empty: Connection<S>,
) -> Option<([usize; 3], usize)> {
    let mut connection = empty;
    if !run(
        &mut connection,
        "CREATE TABLE other (x INTEGER); INSERT INTO other VALUES (5)",
    ) {
        return None;
    }
    made_in(alloc, connection)
}

/// How much a store holds that is made beside another table, and how many rows that has then.
fn beside(alloc: Global) -> Option<([usize; 3], usize)> {
    made_beside(alloc, in_memory(alloc)?)
}

fn put_cell<S: Alter>(tables: &mut Tables<S>, r: u16, slot: u16) -> bool {
    let n = u64::from(slot) + 1;
    tables
        .commit(&[StoredCell { r, slot, n }], &[], None)
        .is_ok()
}

fn put_notice<S: Alter>(tables: &mut Tables<S>, r: u16, site: u16) -> bool {
    let announced = u64::from(site) + 1;
    let notice = StoredNotice {
        r,
        site,
        announced,
        finished: 1,
    };
    tables.commit(&[], &[notice], None).is_ok()
}

fn put_waiting<S: Alter>(tables: &mut Tables<S>, r: u16, place: u16) -> bool {
    let session = StoredSession {
        r,
        h: u64::from(place),
        stage: Stage::Waiting,
        place: u64::from(place) + 1,
    };
    tables
        .commit(&[], &[], Some(SessionEdit::Put(session)))
        .is_ok()
}

/// The slots of what a site took, left and withdrew, beside those of what it gave and was given.
static OWN_SLOTS: [u16; 3] = [200, 201, 202];

fn fill_slots<S: Alter>(tables: &mut Tables<S>, r: u16) -> bool {
    for slot in OWN_SLOTS {
        if !put_cell(tables, r, slot) {
            return false;
        }
    }
    true
}

/// The counters and notices of a record.
fn fill_record<S: Alter>(tables: &mut Tables<S>, r: u16) -> bool {
    for k in 0..16u16 {
        if !put_cell(tables, r, k) || !put_cell(tables, r, 100 + k) || !put_notice(tables, r, k) {
            return false;
        }
    }
    fill_slots(tables, r)
}

fn fill_records<S: Alter>(tables: &mut Tables<S>) -> bool {
    for r in 0..256u16 {
        if !fill_record(tables, r) {
            return false;
        }
    }
    true
}

fn fill_sessions<S: Alter>(tables: &mut Tables<S>) -> bool {
    for place in 0..2000u16 {
        if !put_waiting(tables, place % 256, place) {
            return false;
        }
    }
    true
}

/// How much a store holds once it is made and filled.
fn filled<S: Alter>(alloc: Global, tables: &mut Tables<S>) -> Option<[usize; 3]> {
    if is_made(tables) && fill_records(tables) && fill_sessions(tables) {
        sizes(alloc, tables)
    } else {
        None
    }
}

/// How much a store holds that goes back to the first version, and comes from there to the second.
fn renewed<S: Alter + Drop>(alloc: Global, connection: Connection<S>) -> Option<[usize; 3]> {
    let mut connection = connection;
    if !run(
        &mut connection,
        "DROP TABLE notices; UPDATE meta SET value = '1' WHERE name = 'version'",
    ) {
        return None;
    }
    let mut tables = idle(connection)?;
    if !is_renewed(&mut tables, Version::First, NEXT) {
        return None;
    }
    sizes(alloc, &mut tables)
}

fn full_over<S: Alter + Drop>(alloc: Global, empty: Connection<S>) -> Option<[[usize; 3]; 2]> {
    let mut tables = idle(empty)?;
    let held = filled(alloc, &mut tables)?;
    Some([held, renewed(alloc, tables.into_connection())?])
}

/// How much a full store holds once it is filled, and once it has come from the first version.
fn full(alloc: Global) -> Option<[[usize; 3]; 2]> {
    full_over(alloc, in_memory(alloc)?)
}

/// Whether a session is put at the greatest place.
fn put_last<S: Alter>(tables: &mut Tables<S>) -> bool {
    let session = StoredSession {
        r: 0,
        h: 9223372036854775807,
        stage: Stage::Writer,
        place: 4611686018427387904,
    };
    tables
        .commit(&[], &[], Some(SessionEdit::Put(session)))
        .is_ok()
}

/// The place of the last session of a store.
fn last_place<S: Alter>(alloc: Global, tables: &mut Tables<S>) -> Option<u64> {
    let content = tables.load(alloc).ok()?;
    Some(content.sessions.as_slice().last()?.place)
}

fn last_place_over<S: Alter + Drop>(alloc: Global, empty: Connection<S>) -> Option<u64> {
    let mut tables = idle(empty)?;
    if is_made(&mut tables) && put_last(&mut tables) {
        last_place(alloc, &mut tables)
    } else {
        None
    }
}

/// The place of the last session that is put at the greatest place.
fn greatest_place(alloc: Global) -> Option<u64> {
    last_place_over(alloc, in_memory(alloc)?)
}

#[test]
fn limits_are_reached(rt: HostRuntime) {
    assert_eq!(rt; beside(rt.alloc()), Some(([1, 0, 1], 1)));
    assert_eq!(rt; greatest_place(rt.alloc()), Some(4611686018427387904));
    assert_eq!(rt;
        full(rt.alloc()),
        Some([[8960, 2000, 4096], [8960, 2000, 0]])
    );
}
