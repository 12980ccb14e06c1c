//! Whether indexes are those of a store.
ghost use Rattle.std.specs.Prelude.{◌≡◌, ◌≢◌, ◌↔◌, ◌++◌, List, [], ◌∷◌, IsTrue, MatchOption, codes};
ghost use Rattle.sqlite_schema.specs.declared.schema.Index.{Index};
ghost use Rattle.store_schema.specs.Tables.{index_of, schema_3, schema_4};

use crate::parts::{are_places, is_plain, is_same};
use sqlite_schema::schema::Index;

/// Whether the index is one that SQLite makes for a key: of this name and tree, over these columns of the table in that
/// tree.
fn is_key_index(index: &Index, name: &[u8], tree: u32, table: u32, columns: &[usize]) -> bool
    ensures { IsTrue result ↔ (index.now ≡ index_of name.now tree table columns.now) }
{
    is_same(index.name.as_slice(), name)
        && index.tree == tree
        && index.table == table
        && are_places(index.columns.as_slice(), columns)
        && is_plain(index.order)
        && index.is_unique
}

fn is_meta_index(index: &Index) -> bool
    ensures { IsTrue result ↔ (index.now ≡ index_of (codes "sqlite_autoindex_meta_1") 1 0 (1 ∷ [])) }
{
    is_key_index(index, b"sqlite_autoindex_meta_1", 1, 0, &[1])
}

fn is_cells_index(index: &Index) -> bool
    ensures { IsTrue result ↔ (index.now ≡ index_of (codes "sqlite_autoindex_cells_1") 3 2 (1 ∷ 2 ∷ [])) }
{
    is_key_index(index, b"sqlite_autoindex_cells_1", 3, 2, &[1, 2])
}

fn is_place_index(index: &Index) -> bool
    ensures { IsTrue result ↔ (index.now ≡ index_of (codes "sqlite_autoindex_sessions_1") 5 4 (4 ∷ [])) }
{
    is_key_index(index, b"sqlite_autoindex_sessions_1", 5, 4, &[4])
}

fn is_sessions_index(index: &Index) -> bool
    ensures { IsTrue result ↔ (index.now ≡ index_of (codes "sqlite_autoindex_sessions_2") 6 4 (1 ∷ 2 ∷ [])) }
{
    is_key_index(index, b"sqlite_autoindex_sessions_2", 6, 4, &[1, 2])
}

fn is_notices_index(index: &Index) -> bool
    ensures { IsTrue result ↔ (index.now ≡ index_of (codes "sqlite_autoindex_notices_1") 8 7 (1 ∷ 2 ∷ [])) }
{
    is_key_index(index, b"sqlite_autoindex_notices_1", 8, 7, &[1, 2])
}

/// Whether the indexes are those of a store of the first version.
pub(crate) fn are_first_indexes(indexes: &[Index]) -> bool
    ensures { IsTrue result ↔ (indexes.now ≡ schema_3.indexes) }
{
    let [meta, cells, place, sessions] = indexes else {
        return false;
    };
    is_meta_index(meta)
        && is_cells_index(cells)
        && is_place_index(place)
        && is_sessions_index(sessions)
}

/// The indexes behind those of a store of the second version, if these are there.
pub(crate) fn other_indexes(indexes: &[Index]) -> Option<&[Index]>
    ensures { MatchOption result
        ((others : List Index) → indexes.now ≢ schema_4.indexes ++ others)
        (λ others. indexes.now ≡ schema_4.indexes ++ others.now) }
{
    let [meta, cells, place, sessions, notices, others @ ..] = indexes else {
        return None;
    };
    if is_meta_index(meta)
        && is_cells_index(cells)
        && is_place_index(place)
        && is_sessions_index(sessions)
        && is_notices_index(notices)
    {
        return Some(others);
    }
    None
}
