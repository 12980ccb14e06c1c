//! Whether the keys of a table are the wanted ones.
ghost use Rattle.std.specs.Prelude.{◌≡◌, ◌↔◌, [], ◌∷◌, IsTrue};
ghost use Rattle.sqlite_value.specs.Keys.{plain};

use crate::parts::{are_places, is_plain};
use sqlite_items::Items;
use sqlite_value::keys::Order;

/// Whether there is this key alone.
pub(crate) fn is_only_key(keys: &[Items<usize>], key: &[usize]) -> bool
    ensures { IsTrue result ↔ (keys.now ≡ key.now ∷ []) }
{
    let [only] = keys else {
        return false;
    };
    are_places(only.as_slice(), key)
}

/// Whether there are these two keys, in this order.
pub(crate) fn are_two_keys(keys: &[Items<usize>], a: &[usize], b: &[usize]) -> bool
    ensures { IsTrue result ↔ (keys.now ≡ a.now ∷ b.now ∷ []) }
{
    let [first, second] = keys else {
        return false;
    };
    are_places(first.as_slice(), a) && are_places(second.as_slice(), b)
}

/// Whether there is one order, the plain one.
pub(crate) fn is_one_plain(orders: &[Order]) -> bool
    ensures { IsTrue result ↔ (orders.now ≡ plain ∷ []) }
{
    let [only] = orders else {
        return false;
    };
    is_plain(*only)
}

/// Whether there are two orders, each the plain one.
pub(crate) fn are_two_plain(orders: &[Order]) -> bool
    ensures { IsTrue result ↔ (orders.now ≡ plain ∷ plain ∷ []) }
{
    let [first, second] = orders else {
        return false;
    };
    is_plain(*first) && is_plain(*second)
}
