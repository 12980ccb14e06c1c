// What came of a text that an inbox took.
ghost use Rattle.std.specs.Prelude.{◌≡◌};
ghost use Rattle.exchange_threads.specs.Fates.{merge_fate, unread_fate};

use admission_core::{Refusal, Reply};
use delta_codec::DecodeError;

/// What came of a text that an inbox took.
#[derive(Clone, Copy, Debug, PartialEq, Eq)]
pub enum Fate {
    /// The site answered a merge of its delta; the receipt stands at this place of the pass, from 0.
    Merge(u64),
    /// No delta has this text.
    NoDelta,
    /// Memory ran out over it.
    Memory,
    /// The site had stopped, or its log was full; the run ended with it.
    Ended,
}

/// What came of a text whose delta the site was handed. The receipt, if there is one, stands at that place.
pub fn merge_fate(reply: &Reply, place: u64) -> Fate
    ensures { result ≡ merge_fate reply.now place }
{
    match reply {
        Reply::Refused(Refusal::Memory) => Fate::Memory,
        Reply::Refused(Refusal::Frozen) => Fate::Ended,
        Reply::Refused(Refusal::LogFull) => Fate::Ended,
        _ => Fate::Merge(place),
    }
}

/// What came of a text that could not be read.
pub fn unread_fate(error: DecodeError) -> Fate
    ensures { result ≡ unread_fate error }
{
    match error {
        DecodeError::Memory => Fate::Memory,
        _ => Fate::NoDelta,
    }
}
