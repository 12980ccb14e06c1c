//! Text between quotes.
ghost use Rattle.std.specs.Prelude.{◌≡◌, ◌++◌, ◌==◌, ◌||◌, string_bytes, IfOk};
ghost use Rattle.transcript_text.specs.Quoted.{escaped};

use std::alloc::AllocError;

// Whether a backslash stands in front of the byte.
fn is_special(byte: u8) -> bool
    ensures { result ≡ ((byte == 34) || (byte == 92)) }
{
    byte == b'"' || byte == b'\\'
}

/// Writes a text as it stands between quotes. Linear in it.
pub(crate) fn push_escaped(text: &mut String, part: &str) -> Result<(), AllocError>
    ensures { IfOk result (λ _. string_bytes text.new ≡ string_bytes text.old ++ escaped part.now) }
{
    let bytes = part.as_bytes();
    let mut from = 0; // the bytes from here on are still to be written
    for i in 0..bytes.len() {
        if is_special(bytes[i]) {
            text.push_str(&part[from..i])?;
            text.push_str("\\")?;
            from = i;
        }
    }
    text.push_str(&part[from..])
}
