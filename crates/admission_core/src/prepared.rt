use crate::change::Change;
use admission_model::{Operation, Refusal, Reply};
use merge_core::Delta;
use std::alloc::Global;
use std::marker::Model;

/// A call that has its answer and is not carried out yet: what a store has to keep before it is.
#[derive(Debug, Drop)]
pub struct Prepared<'c> {
    reply: Reply,
    change: Change,
    operation: Option<Operation>,
    heard: Option<&'c Delta>,
}

// Contracts see the answer, the change, and what carries the call out.
impl<'c> Model for Prepared<'c> {
    ghost use Rattle.admission_core.specs.Prepared.{Prepared as State};
    ghost use Rattle.std.specs.Prelude.{option_map};

    ghost Value = { State };

    ghost view = { λ p. record { reply = p.reply; change = p.change; operation = p.operation; heard = option_map (λ d. d.now.rows) p.heard } };
}

impl<'c> Prepared<'c> {
    ghost use Rattle.std.specs.Prelude.{◌≡◌, [], Some, None, option_map};
    ghost use Rattle.admission_core.specs.Prepared.{refused_with};

    /// The answer.
    pub fn reply(&self) -> &Reply
        ensures { result.now ≡ self.now.reply }
    {
        &self.reply
    }

    /// What changes of what a store keeps.
    pub fn change(&self) -> &Change
        ensures { result.now ≡ self.now.change }
    {
        &self.change
    }

    /// A call that changes nothing. Takes no memory.
    pub(crate) fn answered(alloc: Global, reply: Reply) -> Prepared<'c>
        ensures { result ≡ record { reply = reply; change = record { cells = []; session = None }; operation = None; heard = None } }
    {
        Prepared {
            reply,
            change: Change::new(Vec::new(alloc), None),
            operation: None,
            heard: None,
        }
    }

    /// A call that is refused. Takes no memory.
    pub(crate) fn refused(alloc: Global, refusal: Refusal) -> Prepared<'c>
        ensures { result ≡ refused_with refusal }
    {
        Prepared::answered(alloc, Reply::Refused(refusal))
    }

    /// An operation to carry out.
    pub(crate) fn doing(reply: Reply, change: Change, operation: Operation) -> Prepared<'c>
        ensures { result ≡ record { reply = reply; change = change; operation = Some operation; heard = None } }
    {
        Prepared {
            reply,
            change,
            operation: Some(operation),
            heard: None,
        }
    }

    /// A delta to join.
    pub(crate) fn hearing(reply: Reply, change: Change, delta: &'c Delta) -> Prepared<'c>
        ensures { result ≡ record { reply = reply; change = change; operation = None; heard = Some delta.now.rows } }
    {
        Prepared {
            reply,
            change,
            operation: None,
            heard: Some(delta),
        }
    }

    /// The answer, the operation to carry out, and the delta to join.
    pub(crate) fn into_steps(self) -> (Reply, Option<Operation>, Option<&'c Delta>)
        ensures reply { result.0 ≡ self.entry.reply }
        ensures operation { result.1 ≡ self.entry.operation }
        ensures heard { option_map (λ d. d.now.rows) result.2 ≡ self.entry.heard }
    {
        let Prepared {
            reply,
            operation,
            heard,
            ..
        } = self;
        (reply, operation, heard)
    }
}
