//! What an ask comes to: its operation and its answer, or why it is refused.
ghost use Rattle.std.specs.Prelude.{◌≡◌, None, Some, MatchResult};
ghost use Rattle.admission_model.specs.declared.ask.Call.TheVariants.{Ask as AskCall};
ghost use Rattle.admission_model.specs.Serving.{reason};
ghost use Rattle.admission_core.specs.Core.{core_view};
ghost use Rattle.admission_core.specs.Decided.{IsDecision};

use super::SiteCore;
use admission_model::{Ask, Operation, Phase, Refusal, Reply};

/// An operation that nothing refuses, and its answer. `ended` is the phase of the session that it ends, if it ends one.
#[derive(Debug, Drop)]
pub struct Decision {
    pub operation: Operation,
    pub answer: Reply,
    pub ended: Option<Phase>,
}

impl Decision {
    // An operation that ends no session.
    fn new(operation: Operation, answer: Reply) -> Decision
        ensures { result ≡ record { operation = operation; answer = answer; ended = None } }
    {
        Decision {
            operation,
            answer,
            ended: None,
        }
    }
}

impl SiteCore {
    /// The operation of an ask and its answer, or why it is refused, want of memory aside. What a refusal and the answer need is
    /// looked up once.
    pub(super) fn decide(&self, ask: Ask) -> Result<Decision, Refusal>
        ensures { MatchResult result (IsDecision (core_view self.now) ask) (λ refusal. reason (core_view self.now) (AskCall ask) ≡ Some refusal) }
    {
        match ask {
            Ask::Read { r, h } => {
                let refusal = self.read_reason(r, h);
                unless_refused(refusal, Operation::EnteredRead { r, h }, Reply::Admitted)
            }
            Ask::Announce { r, h } => {
                let number = self.number_to_announce(r, h)?;
                Ok(Decision::new(
                    Operation::AnnouncedWriter { r, h },
                    Reply::Announced(number),
                ))
            }
            Ask::Quill { r, h } => {
                let refusal = self.write_reason(r, h);
                unless_refused(refusal, Operation::EnteredWrite { r, h }, Reply::Admitted)
            }
            Ask::Leave { r, h } => {
                let phase = self.phase_to_leave(r, h)?;
                Ok(Decision {
                    operation: Operation::LeftRecord { r, h },
                    answer: Reply::Left(phase),
                    ended: Some(phase),
                })
            }
            Ask::Give { r, to, seats } => {
                let refusal = self.give_reason(r, to, seats);
                unless_refused(refusal, Operation::GaveSeats { r, to, seats }, Reply::Given)
            }
            Ask::Help { r } => {
                let plan = self.plan_to_help(r)?;
                let (to, seats) = (plan.to, plan.seats);
                Ok(Decision::new(
                    Operation::GaveSeats { r, to, seats },
                    Reply::Gave { to, seats },
                ))
            }
        }
    }
}

// An operation that ends no session, where nothing refuses it.
fn unless_refused(
    refusal: Option<Refusal>,
    operation: Operation,
    answer: Reply,
) -> Result<Decision, Refusal>
    ensures { MatchResult result
        (λ it. (refusal ≡ None) × (it ≡ record { operation = operation; answer = answer; ended = None }))
        (λ why. refusal ≡ Some why) }
{
    match refusal {
        Some(why) => Err(why),
        None => Ok(Decision::new(operation, answer)),
    }
}
