//! Whether tables are those of a store.
ghost use Rattle.std.specs.Prelude.{◌≡◌, ◌≢◌, ◌↔◌, ◌++◌, List, IsTrue, MatchOption};
ghost use Rattle.sqlite_schema.specs.declared.schema.Table.{Table};
ghost use Rattle.store_schema.specs.Tables.{cells_table, cells_tree, meta_table, notices_table, notices_tree, schema_3, schema_4, sessions_table, sessions_tree};
ghost use Rattle.own_schema.specs.Parts.{IsPlainTable, no_stamps};

use crate::checks::{are_two_checks, is_no_check, is_one_check};
use crate::columns::{are_four_numbers, are_texts, are_three_numbers};
use crate::keys::{are_two_keys, are_two_plain, is_one_plain, is_only_key};
use crate::parts::{are_places, is_same};
use sqlite_schema::schema::{Stamps, Table};

/// Whether no default reads the time.
fn are_no_stamps(stamps: &Stamps) -> bool
    ensures { IsTrue result ↔ (stamps.now ≡ no_stamps) }
{
    stamps.places.is_empty() && is_no_check(&stamps.terms) && stamps.formats.is_empty()
}

/// Whether the table is made of its name, tree, columns, keys and checks alone.
fn is_plain_table(table: &Table) -> bool
    ensures { IsTrue result ↔ IsPlainTable table.now }
{
    table.key.is_none()
        && table.references.is_empty()
        && table.computed.is_empty()
        && are_no_stamps(&table.stamps)
        && !table.is_counted
}

fn is_meta(table: &Table) -> bool
    ensures { IsTrue result ↔ (table.now ≡ meta_table) }
{
    is_plain_table(table)
        && is_same(table.name.as_slice(), b"meta")
        && table.tree == 0
        && are_texts(table.columns.as_slice(), b"name", b"value")
        && are_places(table.primary.as_slice(), &[1])
        && is_only_key(table.uniques.as_slice(), &[1])
        && is_one_plain(table.orders.as_slice())
        && is_no_check(&table.checks)
}

fn is_cells(table: &Table) -> bool
    ensures { IsTrue result ↔ (table.now ≡ record cells_table { tree = cells_tree }) }
{
    is_plain_table(table)
        && is_same(table.name.as_slice(), b"cells")
        && table.tree == 2
        && are_three_numbers(table.columns.as_slice(), b"record", b"slot", b"n")
        && are_places(table.primary.as_slice(), &[1, 2])
        && is_only_key(table.uniques.as_slice(), &[1, 2])
        && is_one_plain(table.orders.as_slice())
        && is_one_check(&table.checks, 3)
}

fn is_sessions(table: &Table) -> bool
    ensures { IsTrue result ↔ (table.now ≡ record sessions_table { tree = sessions_tree }) }
{
    is_plain_table(table)
        && is_same(table.name.as_slice(), b"sessions")
        && table.tree == 4
        && are_four_numbers(
            table.columns.as_slice(),
            b"record",
            b"holder",
            b"phase",
            b"place",
        )
        && are_places(table.primary.as_slice(), &[1, 2])
        && are_two_keys(table.uniques.as_slice(), &[4], &[1, 2])
        && are_two_plain(table.orders.as_slice())
        && is_no_check(&table.checks)
}

fn is_notices(table: &Table) -> bool
    ensures { IsTrue result ↔ (table.now ≡ record notices_table { tree = notices_tree }) }
{
    is_plain_table(table)
        && is_same(table.name.as_slice(), b"notices")
        && table.tree == 7
        && are_four_numbers(table.columns.as_slice(), b"record", b"site", b"ann", b"fin")
        && are_places(table.primary.as_slice(), &[1, 2])
        && is_only_key(table.uniques.as_slice(), &[1, 2])
        && is_one_plain(table.orders.as_slice())
        && are_two_checks(&table.checks, 3, 4)
}

/// Whether the tables are those of a store of the first version.
pub(crate) fn are_first_tables(tables: &[Table]) -> bool
    ensures { IsTrue result ↔ (tables.now ≡ schema_3.tables) }
{
    let [meta, cells, sessions] = tables else {
        return false;
    };
    is_meta(meta) && is_cells(cells) && is_sessions(sessions)
}

/// The tables behind those of a store of the second version, if these are there.
pub(crate) fn other_tables(tables: &[Table]) -> Option<&[Table]>
    ensures { MatchOption result
        ((others : List Table) → tables.now ≢ schema_4.tables ++ others)
        (λ others. tables.now ≡ schema_4.tables ++ others.now) }
{
    let [meta, cells, sessions, notices, others @ ..] = tables else {
        return None;
    };
    if is_meta(meta) && is_cells(cells) && is_sessions(sessions) && is_notices(notices) {
        return Some(others);
    }
    None
}
