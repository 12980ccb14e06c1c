//! Lists whose elements stand with commas between them.
ghost use Rattle.std.specs.Prelude.{◌≡◌, ℕ, List, Option};
ghost use Rattle.text_parts.specs.Readers.{Gives, number_at, joined_at};

use crate::literals::behind_comma;
use crate::numbers::{Number, number_at};
use crate::unread::Unread;
use std::alloc::Global;

/// How an element of type `T` is read off the front of a text. A type without values stands for the way, so that a
/// crate can say it of types that are not its own.
pub trait Element<T> {
    // The value at the front and the bytes behind it, where one stands there.
    ghost at: { List ℕ → Option (T × List ℕ) };

    /// The value at the front of a text, and the bytes behind it; or that no element stands there, or that memory is lacking.
    fn read_front(alloc: Global, bytes: &[u8]) -> Result<(T, &[u8]), Unread>
        ensures { Gives (λ x. (x.0, x.1.now)) result (at bytes.now) };
}

impl Element<u64> for Number {
    ghost at = { number_at };

    fn read_front(_alloc: Global, bytes: &[u8]) -> Result<(u64, &[u8]), Unread> {
        number_at(bytes)
    }
}

// Places made at once for the elements of a list.
const FIRST_PLACES: usize = 16;

/// One element and at most `more` further ones, and the bytes behind them.
#[tactic(auto, unfolding(crate::specs::Readers::joined_at))]
pub fn joined_at<E: Element<T>, T: Drop>(
    alloc: Global,
    more: u16,
    bytes: &[u8],
) -> Result<(Vec<T>, &[u8]), Unread>
    ensures { Gives (λ x. (x.0.items, x.1.now)) result (joined_at E.at more bytes.now) }
{
    let mut elements = Vec::with_capacity(alloc, FIRST_PLACES)?;
    let (first, mut rest) = E::read_front(alloc, bytes)?;
    elements.push(first)?;
    for _ in 0..more {
        let Some(tail) = behind_comma(rest) else {
            return Ok((elements, rest));
        };
        let (element, behind) = E::read_front(alloc, tail)?;
        elements.push(element)?;
        rest = behind;
    }
    Ok((elements, rest))
}
