//! The content of a store.
use crate::digest::Digest;
use sqlite::types::ValueRef;
use sqlite::{Alter, Connection, Row};

// Every row of the tables, in an order that does not depend on how they lie in the file.
const TABLES: [&str; 4] = [
    "SELECT name, value FROM meta ORDER BY name",
    "SELECT record, slot, n FROM cells ORDER BY record, slot",
    "SELECT record, holder, phase, place FROM sessions ORDER BY place",
    "SELECT record, site, ann, fin FROM notices ORDER BY record, site",
];

// Adds one value; there are numbers and texts alone.
fn add_value(value: ValueRef<'_>, all: &mut Digest) -> Option<()> {
    match value {
        ValueRef::Int(n) => all.add(&n.to_le_bytes()),
        ValueRef::Text(text) => all.add(text),
        _ => return None,
    }
    Some(())
}

// Adds the values of a row.
fn add_row(row: &Row, all: &mut Digest) -> Option<()> {
    for at in 0..row.column_count() {
        add_value(row.get_ref(at).ok()?, all)?;
    }
    Some(())
}

// Adds the rows that a query gives, and how many there are.
fn add_rows<S: Alter>(connection: &mut Connection<S>, query: &str, all: &mut Digest) -> Option<()> {
    let rows = connection.query_all(query, &[]).ok()?;
    for row in &rows {
        add_row(row, all)?;
    }
    all.add(&rows.len().to_le_bytes());
    Some(())
}

/// Adds all that the tables of a site's store hold.
pub(crate) fn add_content<S: Alter>(
    connection: &mut Connection<S>,
    all: &mut Digest,
) -> Option<()> {
    for query in TABLES {
        add_rows(connection, query, all)?;
    }
    Some(())
}
