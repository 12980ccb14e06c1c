//! Fixed pieces of a canonical text.
ghost use Rattle.std.specs.Prelude.{◌≡◌, codes, option_map, IfErr};
ghost use Rattle.text_parts.specs.Readers.{Gives, after};

use crate::unread::Unread;

/// The bytes behind a literal, which has to stand at the front. All its bytes are compared before the answer: of a constant
/// literal that is a comparison or two of whole words.
#[inline(always)]
pub fn after<'a>(literal: &[u8], bytes: &'a [u8]) -> Result<&'a [u8], Unread>
    ensures read { Gives (λ rest. rest.now) result (after literal.now bytes.now) }
    ensures no_memory { IfErr result (λ e. e ≡ Unread.Refused) }
{
    if bytes.len() < literal.len() {
        return Err(Unread::Refused);
    }
    let mut same = true;
    for i in 0..literal.len() {
        same &= bytes[i] == literal[i];
    }
    if !same {
        return Err(Unread::Refused);
    }
    Ok(&bytes[literal.len()..])
}

/// The bytes behind a comma, if one stands at the front.
#[inline(always)]
pub fn behind_comma(bytes: &[u8]) -> Option<&[u8]>
    ensures { option_map (λ rest. rest.now) result ≡ after (codes ",") bytes.now }
{
    match bytes {
        [b',', rest @ ..] => Some(rest),
        _ => None,
    }
}
