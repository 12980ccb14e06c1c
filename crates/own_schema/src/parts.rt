//! Whether a part of a table or of an index is the wanted one.
ghost use Rattle.std.specs.Prelude.{◌≡◌, ◌↔◌, IsTrue};
ghost use Rattle.sqlite_value.specs.declared.value.Value.TheVariants.{Null};
ghost use Rattle.sqlite_value.specs.Keys.{plain};

use sqlite_value::keys::Order;
use sqlite_value::value::Value;

pub(crate) fn is_same(text: &[u8], wanted: &[u8]) -> bool
    ensures { IsTrue result ↔ (text.now ≡ wanted.now) }
{
    text == wanted
}

pub(crate) fn are_places(places: &[usize], wanted: &[usize]) -> bool
    ensures { IsTrue result ↔ (places.now ≡ wanted.now) }
{
    places == wanted
}

pub(crate) fn is_null(value: &Value) -> bool
    ensures { IsTrue result ↔ (value.now ≡ Null) }
{
    matches!(value, Value::Null)
}

/// Whether each column ascends by its bytes.
pub(crate) fn is_plain(order: Order) -> bool
    ensures { IsTrue result ↔ (order ≡ plain) }
{
    order.digits == 0
}
