//! Words between quotes, read off the front.
ghost use Rattle.std.specs.Prelude.{◌≡◌, option_map};
ghost use Rattle.transcript_reader.specs.Words.{ends_word, word_at};

#[inline(always)]
fn ends_word(byte: u8) -> bool
    ensures { result ≡ ends_word byte }
{
    byte == b' ' || byte == b'"'
}

/// The word up to the first blank or quote, and the bytes from there on. Linear in the word.
#[inline(always)]
pub(crate) fn word_at(bytes: &[u8]) -> Option<(&[u8], &[u8])>
    ensures { option_map (λ x. (x.0.now, x.1.now)) result ≡ word_at bytes.now }
{
    for end in 0..bytes.len() {
        if ends_word(bytes[end]) {
            return Some((&bytes[..end], &bytes[end..]));
        }
    }
    None
}
