//! The digests in marks.
ghost use Rattle.std.specs.Prelude.{◌≡◌, string_bytes, IfOk};
ghost use Rattle.layout_line.specs.Line.{line_of, records_text};
ghost use Rattle.serve_engine.specs.Marks.{first_digits, records_digest, text_digest};

use layout_line::layout_line;
use merge_core::Layout;
use sha2::{Digest, Sha256};
use std::alloc::{AllocError, Global};
use text_parts::number_at;

/// The digits of the digest of a layout's records. Linear in the layout.
pub(crate) fn record_digits(alloc: Global, layout: &Layout) -> Result<String, AllocError>
    ensures { IfOk result (λ digits. string_bytes digits ≡ records_digest layout.now.records) }
{
    let line = layout_line(alloc, layout)?;
    digest_digits(alloc, records_in(layout, line.as_bytes()))
}

/// The first 16 hexadecimal digits of the SHA-256 digest of a text. Linear in it.
pub fn digest_digits(alloc: Global, text: &[u8]) -> Result<String, AllocError>
    ensures { IfOk result (λ digits. string_bytes digits ≡ first_digits 8 text.now) }
{
    let digest = Sha256::digest(text);
    hex::encode(alloc, &digest[..8])
}

// The records in the line of a layout: what stands behind its number of sites.
fn records_in<'a>(layout: &Layout, line: &'a [u8]) -> &'a [u8]
    requires { line.now ≡ line_of layout.now }
    ensures { result.now ≡ records_text layout.now.records }
{
    let _sites = layout.sites(); // tells that the layout is one
    match number_at(line) {
        Ok((_, records)) => records,
        Err(_) => b"",
    }
}

/// The digits of the digest of a text. Linear in the text, of which no copy is made.
pub(crate) fn text_digits(text: &[u8]) -> [u8; 8]
    ensures { result ≡ text_digest text.now }
{
    let digest = Sha256::digest(text);
    let mut digits = [0u8; 8];
    let _ = hex::encode_to_slice(&digest[..4], &mut digits);
    digits
}
