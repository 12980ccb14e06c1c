// The rule of the channel: the parcels put so far are those taken so far, and behind them those that it still holds, at most
// 16.
ghost use Rattle.std.specs.Prelude.{◌≡◌, ◌≤◌, ⊤, true, false, [], ◌∷◌, ◌++◌, length};
ghost use Rattle.ordered_link.specs.Rule.{log, InOrder, link_capacity};

use crossbeam_channel::protocol::{Join, Lesson, Outcome, Protocol, Split};
use std::collections::LinkedList;

/// What travels: a text, or the word that no text will follow.
#[derive(Debug, Drop)]
pub enum Parcel {
    Text(String),
    Last,
}

/// What a pass of the channel may do, what it has put, and what it has taken. It exists in proofs alone.
pub struct Log {
    pub puts: bool,
    pub takes: bool,
    pub put: LinkedList<Parcel>,
    pub taken: LinkedList<Parcel>,
}

/// The rule.
pub struct Order;

impl Protocol<Parcel, Log> for Order {
    ghost holds = { InOrder };

    ghost first = { log true true [] [] };
}

/// One pass puts and another takes.
pub struct Roles;

impl Split<Log> for Roles {
    ghost left = { λ v. log true false v.put [] };

    ghost right = { λ v. log false true [] v.taken };
}

impl Join<Log> for Roles {
    ghost both = { λ v w. log true true v.put w.taken };

    ghost spent = { log false false [] [] };
}

/// A put: the parcel is what was put last. A put learns nothing of what the channel holds.
pub struct PutStep;

impl Outcome<Parcel, Log> for PutStep {
    ghost then = { λ v x w. w ≡ log v.puts v.takes (v.put ++ x ∷ []) v.taken };
}

impl Lesson<Parcel, Log> for PutStep {
    ghost fact = { λ v items. ⊤ };
}

/// A take: the parcel is what was taken last.
pub struct TakeStep;

impl Outcome<Parcel, Log> for TakeStep {
    ghost then = { λ v x w. w ≡ log v.puts v.takes v.put (v.taken ++ x ∷ []) };
}

impl Lesson<Parcel, Log> for TakeStep {
    ghost fact = { λ v items. ⊤ };
}

/// What the rule tells a pass that has both roles.
pub struct Total;

impl Lesson<Parcel, Log> for Total {
    ghost fact = { λ v items. (v.put ≡ v.taken ++ items) × (length items ≤ link_capacity) };
}
