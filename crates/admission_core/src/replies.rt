//! What becomes of a call that found no memory.
ghost use Rattle.std.specs.Prelude.{◌≡◌};
ghost use Rattle.admission_core.specs.Core.{is_memory};

use admission_model::{Refusal, Reply};

/// Whether a reply is want of memory.
pub fn is_memory(reply: &Reply) -> bool
    ensures { result ≡ is_memory reply.now }
{
    matches!(reply, Reply::Refused(Refusal::Memory))
}
