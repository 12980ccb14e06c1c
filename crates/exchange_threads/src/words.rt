// What the refusals that an inbox meets are called.
ghost use Rattle.std.specs.Prelude.{◌≡◌};
ghost use Rattle.exchange_threads.specs.Names.{unread_name, merge_name};

use crate::names::RefusalName;
use admission_core::{Refusal, Reply};
use delta_codec::DecodeError;

/// The name of what is wrong with a text that is no delta's, if it is not want of memory.
pub fn unread_name(error: DecodeError) -> Option<RefusalName>
    ensures { result ≡ unread_name error }
{
    match error {
        DecodeError::TooLong => Some(RefusalName::TooLong),
        DecodeError::NotUtf8 => Some(RefusalName::NotUtf8),
        DecodeError::NotJson => Some(RefusalName::NotJson),
        DecodeError::NotCanonical => Some(RefusalName::NotCanonical),
        DecodeError::Memory => None,
    }
}

/// The name of what refused a merge, if something did that is counted.
pub fn merge_name(reply: &Reply) -> Option<RefusalName>
    ensures { result ≡ merge_name reply.now }
{
    match reply {
        Reply::Refused(Refusal::OtherLayout { .. }) => Some(RefusalName::OtherLayout),
        Reply::Refused(Refusal::BadRow { .. }) => Some(RefusalName::BadRow),
        Reply::Refused(Refusal::OwnRowAhead { .. }) => Some(RefusalName::OwnRowAhead),
        Reply::Refused(Refusal::StoreFault) => Some(RefusalName::StoreFault),
        _ => None,
    }
}
