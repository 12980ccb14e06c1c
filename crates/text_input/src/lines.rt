ghost use Rattle.std.specs.Prelude.{◌≡◌, ◌<◌, ◌∷◌, ◌++◌, length, MatchOption};
ghost use Rattle.text_input.specs.Lines.{lines_of, EndsLine, HasNoLf};

use memchr::{memchr, memrchr};

/// The first line of bytes that are not empty, without its LF, and what follows. Linear in the line.
pub fn cut_line(bytes: &[u8]) -> (&[u8], &[u8])
    requires { 0 < length bytes.now }
    ensures lines { lines_of bytes.now ≡ result.0.now ∷ lines_of result.1.now }
    ensures shorter { length result.1.now < length bytes.now }
{
    match memchr(b'\n', bytes) {
        Some(end) => (&bytes[..end], &bytes[end + 1..]),
        None => (bytes, &bytes[bytes.len()..]),
    }
}

/// The whole lines of bytes, with their LFs, and what follows the last of them; nothing where there is no LF. Linear in
/// what follows.
pub fn cut_whole_lines(bytes: &[u8]) -> Option<(&[u8], &[u8])>
    ensures { MatchOption result (HasNoLf bytes.now) (λ it. (bytes.now ≡ it.0.now ++ it.1.now) × EndsLine it.0.now × HasNoLf it.1.now) }
{
    match memrchr(b'\n', bytes) {
        Some(end) => Some((&bytes[..=end], &bytes[end + 1..])),
        None => None,
    }
}
