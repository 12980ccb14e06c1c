//! Whether other tables and indexes leave those of a store alone.
ghost use Rattle.std.specs.Prelude.{◌≡◌, ◌≤◌, ◌↔◌, false, IsTrue};
ghost use Rattle.std.specs.List.{AllByRecursion};
ghost use Rattle.store_schema.specs.Tables.{ReferElsewhere, first_other_tree, is_own_name};

use sqlite_schema::names::same_name;
use sqlite_schema::schema::{Index, Reference, Table};

/// The first tree that is none of a store's.
const OTHER_TREES: u32 = 9;

/// Whether this is the name of a store's table, in any case of its letters.
fn is_own_name(name: &[u8]) -> bool
    ensures { result ≡ is_own_name name.now }
{
    same_name(b"meta", name)
        || same_name(b"cells", name)
        || same_name(b"sessions", name)
        || same_name(b"notices", name)
}

fn is_to_another(reference: &Reference) -> bool
    ensures { IsTrue result ↔ (is_own_name reference.now.parent ≡ false) }
{
    !is_own_name(reference.parent.as_slice())
}

/// Whether no foreign key of the table refers to a table of a store.
fn refers_elsewhere(table: &Table) -> bool
    ensures { IsTrue result ↔ ReferElsewhere table.now }
{
    table
        .references
        .as_slice()
        .iter()
        .all(|reference| is_to_another(reference))
}

fn have_other_trees(tables: &[Table]) -> bool
    ensures { IsTrue result ↔ AllByRecursion (λ t. first_other_tree ≤ t.tree) tables.now }
{
    tables.iter().all(|table| table.tree >= OTHER_TREES)
}

fn refer_elsewhere(tables: &[Table]) -> bool
    ensures { IsTrue result ↔ AllByRecursion ReferElsewhere tables.now }
{
    tables.iter().all(|table| refers_elsewhere(table))
}

/// Whether the tables have trees of their own, and their foreign keys refer to no table of a store.
pub(crate) fn are_apart(tables: &[Table]) -> bool
    ensures { IsTrue result ↔ (AllByRecursion (λ t. first_other_tree ≤ t.tree) tables.now × AllByRecursion ReferElsewhere tables.now) }
{
    have_other_trees(tables) && refer_elsewhere(tables)
}

/// Whether no index is on a table of a store.
pub(crate) fn are_elsewhere(indexes: &[Index]) -> bool
    ensures { IsTrue result ↔ AllByRecursion (λ i. first_other_tree ≤ i.table) indexes.now }
{
    indexes.iter().all(|index| index.table >= OTHER_TREES)
}
