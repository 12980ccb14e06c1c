//! Whether a schema is one that this program makes.
#![tactic(auto)]

ghost use Rattle.std.specs.Prelude.{◌≡◌, ◌↔◌, IsTrue};
ghost use Rattle.store_schema.specs.declared.Version.{Version};
ghost use Rattle.store_schema.specs.declared.Version.TheVariants.{Second};
ghost use Rattle.store_schema.specs.Tables.{no_schema, schema_3};
ghost use Rattle.own_schema.specs.Made.{IsForeign, IsMadeHere};

pub use laws::own_law_examples;

mod checks;
mod columns;
mod indexes;
mod keys;
mod laws;
mod others;
mod parts;
mod tables;

use crate::indexes::{are_first_indexes, other_indexes};
use crate::others::{are_apart, are_elsewhere};
use crate::tables::{are_first_tables, other_tables};
use sqlite_schema::schema::Schema;
use store_schema::Version;

/// Where the tables of a database come from.
#[derive(Clone, Copy, Debug, PartialEq, Eq)]
pub enum Origin {
    /// The database has no table, index or view at all.
    Nothing,
    /// The tables are those of a store of this version, as this program makes them. Behind those of the second version
    /// there may be other tables, indexes and views, which leave the store's own alone.
    Store(Version),
    /// Anything else.
    Foreign,
}

/// Where the tables of a database come from, by its schema: by every name, tree, type and rule of each table and index.
/// Takes no memory. Linear in the schema.
pub fn origin_of(schema: &Schema) -> Origin
    ensures nothing { (result ≡ Origin.Nothing) ↔ (schema.now ≡ no_schema) }
    ensures store { (v : Version) → ((result ≡ Origin.Store v) ↔ IsMadeHere v schema.now) }
    ensures foreign { (result ≡ Origin.Foreign) ↔ IsForeign schema.now }
{
    if is_empty(schema) {
        return Origin::Nothing;
    }
    if is_first(schema) {
        return Origin::Store(Version::First);
    }
    if is_second(schema) {
        return Origin::Store(Version::Second);
    }
    Origin::Foreign
}

fn is_empty(schema: &Schema) -> bool
    ensures { IsTrue result ↔ (schema.now ≡ no_schema) }
{
    schema.tables.is_empty() && schema.indexes.is_empty() && schema.views.is_empty()
}

fn is_first(schema: &Schema) -> bool
    ensures { IsTrue result ↔ (schema.now ≡ schema_3) }
{
    are_first_tables(schema.tables.as_slice())
        && are_first_indexes(schema.indexes.as_slice())
        && schema.views.is_empty()
}

fn is_second(schema: &Schema) -> bool
    ensures { IsTrue result ↔ IsMadeHere Second schema.now }
{
    let Some(tables) = other_tables(schema.tables.as_slice()) else {
        return false;
    };
    let Some(indexes) = other_indexes(schema.indexes.as_slice()) else {
        return false;
    };
    are_apart(tables) && are_elsewhere(indexes)
}
