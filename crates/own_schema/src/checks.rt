//! Whether the CHECK clauses of a table are the wanted ones.
ghost use Rattle.std.specs.Prelude.{◌≡◌, ◌≢◌, ◌↔◌, ℕ, [], ◌∷◌, IsTrue, MatchOption, pos};
ghost use Rattle.sqlite_schema.specs.Code.{term_in};
ghost use Rattle.store_schema.specs.Tables.{at_least_0};
ghost use Rattle.own_schema.specs.Parts.{node_at};

use sqlite_items::Items;
use sqlite_schema::code::{Op, Terms};
use sqlite_sql::ops::{BinaryOp, CompareOp};
use sqlite_value::keys::Collation;
use sqlite_value::value::Value;

/// The places of both sides, if the node is a comparison `>=` of numbers and bytes.
fn sides_of(op: &Op) -> Option<(usize, usize)>
    ensures { MatchOption result
        ((a b : ℕ) → op.now ≢ Op.Binary (BinaryOp.Compare CompareOp.Ge Collation.Binary) a b)
        (λ sides. op.now ≡ Op.Binary (BinaryOp.Compare CompareOp.Ge Collation.Binary) sides.0 sides.1) }
{
    let Op::Binary(by, a, b) = op else {
        return None;
    };
    if *by == BinaryOp::Compare(CompareOp::Ge, Collation::Binary) {
        return Some((*a, *b));
    }
    None
}

/// Whether the node is the column of a row at this place.
fn is_column(op: &Op, place: usize) -> bool
    ensures { IsTrue result ↔ (op.now ≡ Op.Column 1 place) }
{
    let Op::Column(slot, at) = op else {
        return false;
    };
    *slot == 1 && *at == place
}

/// Whether the value is the number 0.
fn is_zero(value: &Value) -> bool
    ensures { IsTrue result ↔ (value.now ≡ Value.Int (pos 0)) }
{
    let Value::Int(n) = value else {
        return false;
    };
    *n == 0
}

/// Whether the node is the number 0.
fn is_zero_node(op: &Op) -> bool
    ensures { IsTrue result ↔ (op.now ≡ Op.Literal (Value.Int (pos 0))) }
{
    let Op::Literal(value) = op else {
        return false;
    };
    is_zero(value)
}

/// The node at a place.
fn find_node(nodes: &Items<Op>, at: usize) -> Option<&Op>
    ensures { MatchOption result (node_at nodes.now at ≡ Op.Literal Value.Null) (λ op. node_at nodes.now at ≡ op.now) }
{
    nodes.get(at)
}

/// Whether the node at a place is the column of a row at this place.
fn has_column_at(nodes: &Items<Op>, at: usize, place: usize) -> bool
    ensures { IsTrue result ↔ (node_at nodes.now at ≡ Op.Column 1 place) }
{
    let Some(op) = find_node(nodes, at) else {
        return false;
    };
    is_column(op, place)
}

/// Whether the node at a place is the number 0.
fn has_zero_at(nodes: &Items<Op>, at: usize) -> bool
    ensures { IsTrue result ↔ (node_at nodes.now at ≡ Op.Literal (Value.Int (pos 0))) }
{
    let Some(op) = find_node(nodes, at) else {
        return false;
    };
    is_zero_node(op)
}

/// The places of both sides, if the node at a place is such a comparison.
fn sides_at(nodes: &Items<Op>, at: usize) -> Option<(usize, usize)>
    ensures { MatchOption result
        ((a b : ℕ) → node_at nodes.now at ≢ Op.Binary (BinaryOp.Compare CompareOp.Ge Collation.Binary) a b)
        (λ sides. node_at nodes.now at ≡ Op.Binary (BinaryOp.Compare CompareOp.Ge Collation.Binary) sides.0 sides.1) }
{
    let Some(op) = find_node(nodes, at) else {
        return None;
    };
    sides_of(op)
}

/// Whether the term with this root says that the column at a place is 0 or more.
fn is_at_least_0(nodes: &Items<Op>, root: usize, place: usize) -> bool
    ensures { IsTrue result ↔ (term_in nodes.now root ≡ at_least_0 place) }
{
    // A term is read no deeper than there are nodes.
    if nodes.len() < 2 {
        return false;
    }
    let Some((a, b)) = sides_at(nodes, root) else {
        return false;
    };
    has_column_at(nodes, a, place) && has_zero_at(nodes, b)
}

/// Whether there is no term.
pub(crate) fn is_no_check(terms: &Terms) -> bool
    ensures { IsTrue result ↔ (terms.now ≡ []) }
{
    terms.roots.is_empty()
}

/// Whether there is one term: the column at this place is 0 or more.
pub(crate) fn is_one_check(terms: &Terms, place: usize) -> bool
    ensures { IsTrue result ↔ (terms.now ≡ at_least_0 place ∷ []) }
{
    let [root] = terms.roots.as_slice() else {
        return false;
    };
    is_at_least_0(&terms.nodes, *root, place)
}

/// Whether there are two terms: the column at each of these places is 0 or more, in this order.
pub(crate) fn are_two_checks(terms: &Terms, a: usize, b: usize) -> bool
    ensures { IsTrue result ↔ (terms.now ≡ at_least_0 a ∷ at_least_0 b ∷ []) }
{
    let [first, second] = terms.roots.as_slice() else {
        return false;
    };
    is_at_least_0(&terms.nodes, *first, a) && is_at_least_0(&terms.nodes, *second, b)
}
