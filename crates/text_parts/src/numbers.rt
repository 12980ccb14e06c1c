//! Numbers in decimal digits, without a sign or a leading zero.
ghost use Rattle.std.specs.Prelude.{◌≡◌, ◌+◌, ◌-◌, ◌*◌, ◌^◌, ◌<◌, ◌≤◌, nat_lt, if◌then◌else◌, Option, Some, None, IfErr};
ghost use Rattle.text_parts.specs.Readers.{Gives, digits_at, number_at, short_at};

use crate::unread::Unread;

// Below this number there is room for any further digit, at it for those up to `MOST_LAST`, above it for none.
const MOST_TENS: u64 = u64::MAX / 10;

const MOST_LAST: u64 = u64::MAX % 10;

/// Numbers below 2^64 in decimal digits, as a way to read and write them.
pub enum Number {}

#[inline(always)]
fn with_digit(number: u64, digit: u8) -> Option<u64>
    requires { digit < 10 }
    ensures { result ≡ (if nat_lt (number * 10 + digit) (2 ^ 64) then Some (number * 10 + digit) else None) }
{
    let digit = u64::from(digit);
    if number >= MOST_TENS && (number > MOST_TENS || digit > MOST_LAST) {
        return None;
    }
    Some(number * 10 + digit)
}

#[inline(always)]
fn digits(first: u64, bytes: &[u8]) -> Result<(u64, &[u8]), Unread>
    ensures read { Gives (λ x. (x.0, x.1.now)) result (digits_at first bytes.now) }
    ensures no_memory { IfErr result (λ e. e ≡ Unread.Refused) }
{
    let mut number = first;
    for i in 0..bytes.len() {
        let byte = bytes[i];
        if !byte.is_ascii_digit() {
            return Ok((number, &bytes[i..]));
        }
        match with_digit(number, byte - b'0') {
            Some(more) => number = more,
            None => return Err(Unread::Refused),
        }
    }
    Ok((number, &bytes[bytes.len()..]))
}

/// The number at the front and the bytes behind it. Refused from 2^64 on.
#[tactic(auto, unfolding(crate::specs::Readers::number_at))]
#[inline(always)]
pub fn number_at(bytes: &[u8]) -> Result<(u64, &[u8]), Unread>
    ensures read { Gives (λ x. (x.0, x.1.now)) result (number_at bytes.now) }
    ensures no_memory { IfErr result (λ e. e ≡ Unread.Refused) }
{
    match bytes {
        [b'0', rest @ ..] => Ok((0, rest)),
        [b @ b'1'..=b'9', rest @ ..] => digits(u64::from(*b - b'0'), rest),
        _ => Err(Unread::Refused),
    }
}

/// The number at the front and the bytes behind it. Refused from 2^16 on.
#[tactic(auto, unfolding(crate::specs::Readers::short_at))]
#[inline(always)]
pub fn short_at(bytes: &[u8]) -> Result<(u16, &[u8]), Unread>
    ensures read { Gives (λ x. (x.0, x.1.now)) result (short_at bytes.now) }
    ensures no_memory { IfErr result (λ e. e ≡ Unread.Refused) }
{
    let (number, rest) = number_at(bytes)?;
    match u16::try_from(number) {
        Ok(short) => Ok((short, rest)),
        Err(_) => Err(Unread::Refused),
    }
}
