//! Databases that tests begin with: in memory, and with the tables of a store as they are documented.
use merge_core::{Layout, RecordName, RecordSpec};
use sqlite::{Alter, Connection, MemStore};
use std::alloc::Global;

/// The line of the layout of two sites with record `a` of two seats at site 0.
pub const LAYOUT: &str = "2;a,2,0,1";

/// That of a later layout, which has one more record.
pub const NEXT: &str = "2;a,2,0,1;b,3,1,1";

/// The tables of the first version with their marks, those of site 0.
pub const FIRST: &str = "CREATE TABLE meta (name TEXT PRIMARY KEY NOT NULL, value TEXT NOT NULL);
CREATE TABLE cells (record INTEGER NOT NULL, slot INTEGER NOT NULL, n INTEGER NOT NULL CHECK (n >= 0), PRIMARY KEY (record, slot));
CREATE TABLE sessions (record INTEGER NOT NULL, holder INTEGER NOT NULL, phase INTEGER NOT NULL, place INTEGER NOT NULL UNIQUE, PRIMARY KEY (record, holder));
INSERT INTO meta VALUES ('version', '1'), ('site', '0'), ('layout', '2;a,2,0,1');";

/// What makes it one of the second version.
pub const SECOND: &str =
    "CREATE TABLE notices (record INTEGER NOT NULL, site INTEGER NOT NULL, ann INTEGER NOT NULL CHECK (ann >= 0), fin INTEGER NOT NULL CHECK (fin >= 0), PRIMARY KEY (record, site));
UPDATE meta SET value = '2' WHERE name = 'version';";

/// What counts one seat of record `a` as taken.
pub const COUNTER: &str = "INSERT INTO cells VALUES (0, 200, 1)";

/// Record `a` of so many seats at site 0.
fn record(alloc: Global, seats: u32) -> Option<RecordSpec> {
    let name = String::from_str(alloc, "a").ok()?;
    Some(RecordSpec {
        name: RecordName::from_string(name),
        seats,
        home: 0,
        problem: 1,
    })
}

/// The layout of so many sites with this record alone.
pub fn layout(alloc: Global, sites: u16, seats: u32) -> Option<Layout> {
    let mut records = Vec::new(alloc);
    records.push(record(alloc, seats)?).ok()?;
    Layout::new(sites, records).ok()
}

/// A new database in memory.
pub fn in_memory(alloc: Global) -> Option<Connection<MemStore>> {
    Connection::open_in_memory(alloc).ok()
}

/// Whether a database takes these statements.
pub fn run<S: Alter>(connection: &mut Connection<S>, texts: &str) -> bool {
    connection.execute_batch(texts).is_ok()
}

/// Whether it takes all of these.
pub fn run_all<S: Alter>(connection: &mut Connection<S>, texts: &[&str]) -> bool {
    for text in texts {
        if !run(connection, text) {
            return false;
        }
    }
    true
}

/// A database after all of these.
pub fn after_texts<S: Alter + Drop>(
    connection: Connection<S>,
    texts: &[&str],
) -> Option<Connection<S>> {
    let mut connection = connection;
    if run_all(&mut connection, texts) {
        Some(connection)
    } else {
        None
    }
}
