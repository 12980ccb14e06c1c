//! Numbers up to the closing quote.
ghost use Rattle.text_parts.specs.Readers.{Gives};
ghost use Rattle.transcript_reader.specs.Words.{middle_at, last_number, last_short, last_middle, gift_at, shortage_at};

use text_parts::{Unread, after, number_at, short_at};

// The number at the front and the bytes behind it. Refused from 2^32 on.
#[tactic(auto, unfolding(crate::specs::Words::middle_at))]
fn middle_at(bytes: &[u8]) -> Result<(u32, &[u8]), Unread>
    ensures { Gives (λ x. (x.0, x.1.now)) result (middle_at bytes.now) }
{
    let (number, rest) = number_at(bytes)?;
    match u32::try_from(number) {
        Ok(middle) => Ok((middle, rest)),
        Err(_) => Err(Unread::Refused),
    }
}

/// A number up to the closing quote, and the bytes behind it.
#[tactic(auto, unfolding(crate::specs::Words::last_number))]
pub(crate) fn last_number(bytes: &[u8]) -> Result<(u64, &[u8]), Unread>
    ensures { Gives (λ x. (x.0, x.1.now)) result (last_number bytes.now) }
{
    let (number, rest) = number_at(bytes)?;
    let rest = after(b"\"", rest)?;
    Ok((number, rest))
}

/// Such a number below 2^16.
#[tactic(auto, unfolding(crate::specs::Words::last_short))]
pub(crate) fn last_short(bytes: &[u8]) -> Result<(u16, &[u8]), Unread>
    ensures { Gives (λ x. (x.0, x.1.now)) result (last_short bytes.now) }
{
    let (short, rest) = short_at(bytes)?;
    let rest = after(b"\"", rest)?;
    Ok((short, rest))
}

#[tactic(auto, unfolding(crate::specs::Words::last_middle))]
fn last_middle(bytes: &[u8]) -> Result<(u32, &[u8]), Unread>
    ensures { Gives (λ x. (x.0, x.1.now)) result (last_middle bytes.now) }
{
    let (middle, rest) = middle_at(bytes)?;
    let rest = after(b"\"", rest)?;
    Ok((middle, rest))
}

/// A site and a number of seats for it up to the closing quote, and the bytes behind it.
#[tactic(auto, unfolding(crate::specs::Words::gift_at))]
pub(crate) fn gift_at(bytes: &[u8]) -> Result<(u16, u64, &[u8]), Unread>
    ensures { Gives (λ x. (x.0, x.1, x.2.now)) result (gift_at bytes.now) }
{
    let (to, rest) = short_at(bytes)?;
    let rest = after(b" ", rest)?;
    let (seats, rest) = last_number(rest)?;
    Ok((to, seats, rest))
}

/// Rights and the seats of a record up to the closing quote, and the bytes behind it.
#[tactic(auto, unfolding(crate::specs::Words::shortage_at))]
pub(crate) fn shortage_at(bytes: &[u8]) -> Result<(u64, u32, &[u8]), Unread>
    ensures { Gives (λ x. (x.0, x.1, x.2.now)) result (shortage_at bytes.now) }
{
    let (rights, rest) = number_at(bytes)?;
    let rest = after(b" ", rest)?;
    let (seats, rest) = last_middle(rest)?;
    Ok((rights, seats, rest))
}
