//! Where a text ends.
ghost use Rattle.text_parts.specs.Readers.{Gives};
ghost use Rattle.transcript_reader.specs.Readers.{cut_at};

use memchr::memchr;
use text_parts::Unread;

/// The bytes up to the first of a kind, and those behind it.
pub(crate) fn cut_at(byte: u8, bytes: &[u8]) -> Result<(&[u8], &[u8]), Unread>
    ensures { Gives (λ x. (x.0.now, x.1.now)) result (cut_at byte bytes.now) }
{
    match memchr(byte, bytes) {
        Some(end) => Ok((&bytes[..end], &bytes[end + 1..])),
        None => Err(Unread::Refused),
    }
}
