//! Whether the columns of a table are the wanted ones.
ghost use Rattle.std.specs.Prelude.{◌≡◌, ◌↔◌, [], ◌∷◌, IsTrue, codes};
ghost use Rattle.sqlite_schema.specs.declared.schema.Kind.TheVariants.{Integer, Text};
ghost use Rattle.store_schema.specs.Tables.{column_of};

use crate::parts::{is_null, is_same};
use sqlite_schema::schema::{Column, Kind};
use sqlite_value::keys::Collation;

/// Whether it is a column of this name and kind that holds no NULL, and has nothing else.
fn is_column(column: &Column, name: &[u8], kind: Kind) -> bool
    ensures { IsTrue result ↔ (column.now ≡ column_of name.now kind) }
{
    is_same(column.name.as_slice(), name)
        && column.kind == kind
        && !column.is_strict
        && column.not_null
        && is_null(&column.default)
        && column.collation == Collation::Binary
}

/// Whether there are two such columns of texts, of these names.
pub(crate) fn are_texts(columns: &[Column], a: &[u8], b: &[u8]) -> bool
    ensures { IsTrue result ↔ (columns.now ≡ column_of a.now Text ∷ column_of b.now Text ∷ []) }
{
    let [first, second] = columns else {
        return false;
    };
    is_column(first, a, Kind::Text) && is_column(second, b, Kind::Text)
}

/// Whether there are three such columns of numbers, of these names.
pub(crate) fn are_three_numbers(columns: &[Column], a: &[u8], b: &[u8], c: &[u8]) -> bool
    ensures { IsTrue result ↔ (columns.now ≡ column_of a.now Integer ∷ column_of b.now Integer ∷ column_of c.now Integer ∷ []) }
{
    let [first, second, third] = columns else {
        return false;
    };
    is_column(first, a, Kind::Integer)
        && is_column(second, b, Kind::Integer)
        && is_column(third, c, Kind::Integer)
}

/// Whether there are four such columns of numbers, of these names.
pub(crate) fn are_four_numbers(columns: &[Column], a: &[u8], b: &[u8], c: &[u8], d: &[u8]) -> bool
    ensures { IsTrue result ↔ (columns.now ≡ column_of a.now Integer ∷ column_of b.now Integer ∷ column_of c.now Integer ∷ column_of d.now Integer ∷ []) }
{
    let [first, second, third, fourth] = columns else {
        return false;
    };
    is_column(first, a, Kind::Integer)
        && is_column(second, b, Kind::Integer)
        && is_column(third, c, Kind::Integer)
        && is_column(fourth, d, Kind::Integer)
}
