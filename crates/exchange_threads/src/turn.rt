// What a reply means for the turn that met it.
ghost use Rattle.std.specs.Prelude.{◌≡◌};
ghost use Rattle.exchange_threads.specs.Turns.{turn_after};

use admission_core::{Refusal, Reply};

/// How a runner goes on.
#[derive(Clone, Copy, Debug, PartialEq, Eq)]
pub enum Turn {
    /// With the same turn.
    GoesOn,
    /// With the next turn.
    IsOver,
    /// Not at all.
    EndsRun,
}

/// How a runner goes on after a reply: want of memory ends the turn, a stopped site and a full log end the run.
pub fn turn_after(reply: &Reply) -> Turn
    ensures { result ≡ turn_after reply.now }
{
    match reply {
        Reply::Refused(Refusal::Memory) => Turn::IsOver,
        Reply::Refused(Refusal::Frozen) => Turn::EndsRun,
        Reply::Refused(Refusal::LogFull) => Turn::EndsRun,
        _ => Turn::GoesOn,
    }
}
