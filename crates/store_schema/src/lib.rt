//! The tables of a site's store: the schema of each version, and which version a schema is.
#![tactic(auto)]

ghost use Rattle.std.specs.Prelude.{◌≡◌, codes};
ghost use Rattle.store_schema.specs.Found.{has_columns, presence_of, found_by, found_in};

pub use laws::behind_law;

mod laws;

use sqlite_schema::schema::{Schema, Table};

/// The versions of a store: the first has the tables `meta`, `cells` and `sessions`, the second `notices` besides.
#[derive(Clone, Copy, Debug, PartialEq, Eq)]
pub enum Version {
    First,
    Second,
}

/// What a schema holds of a store: none of its tables, all tables of a version with their columns, or something
/// else. Other tables and further columns do not count.
#[derive(Clone, Copy, Debug, PartialEq, Eq)]
pub enum Found {
    Blank,
    Store(Version),
    Other,
}

/// Whether a table is there with its columns.
#[derive(Clone, Copy, Debug, PartialEq, Eq)]
pub enum Presence {
    Missing,
    Whole,
    /// A column is missing.
    Partial,
}

fn has_columns(table: &Table, a: &[u8], b: &[u8], c: &[u8], d: &[u8]) -> bool
    ensures { result ≡ has_columns table.now a.now b.now c.now d.now }
{
    table.column_named(a).is_some()
        && table.column_named(b).is_some()
        && table.column_named(c).is_some()
        && table.column_named(d).is_some()
}

/// Whether the table of this name has columns of these names, some of which may be the same.
fn look_for(schema: &Schema, name: &[u8], a: &[u8], b: &[u8], c: &[u8], d: &[u8]) -> Presence
    ensures { result ≡ presence_of schema.now name.now a.now b.now c.now d.now }
{
    let Some(at) = schema.table_named(name) else {
        return Presence::Missing;
    };
    let Some(table) = schema.tables.get(at) else {
        return Presence::Missing;
    };
    if has_columns(table, a, b, c, d) {
        return Presence::Whole;
    }
    Presence::Partial
}

/// What the presence of the four tables comes to.
fn found_by(meta: Presence, cells: Presence, sessions: Presence, notices: Presence) -> Found
    ensures { result ≡ found_by meta cells sessions notices }
{
    match (meta, cells, sessions, notices) {
        (Presence::Missing, Presence::Missing, Presence::Missing, Presence::Missing) =>
            Found::Blank,
        (Presence::Whole, Presence::Whole, Presence::Whole, Presence::Missing) => {
            Found::Store(Version::First)
        }
        (Presence::Whole, Presence::Whole, Presence::Whole, Presence::Whole) => {
            Found::Store(Version::Second)
        }
        _ => Found::Other,
    }
}

/// What a schema holds of a store, by the names of tables and columns.
pub fn found_in(schema: &Schema) -> Found
    ensures { result ≡ found_in schema.now }
{
    let meta = look_for(schema, b"meta", b"name", b"value", b"value", b"value");
    let cells = look_for(schema, b"cells", b"record", b"slot", b"n", b"n");
    let sessions = look_for(
        schema,
        b"sessions",
        b"record",
        b"holder",
        b"phase",
        b"place",
    );
    let notices = look_for(schema, b"notices", b"record", b"site", b"ann", b"fin");
    found_by(meta, cells, sessions, notices)
}
