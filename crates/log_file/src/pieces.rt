//! The whole lines of a log file, and the last of them.
ghost use Rattle.std.specs.Prelude.{◌≡◌, ◌++◌, [], ℕ, List, IfOk};
ghost use Rattle.log_file.specs.Pieces.{AreWhole, HasLastLine, IsTorn};

use std::alloc::{AllocError, Global};
use text_input::cut_whole_lines;

/// The whole lines of bytes. Linear in what follows them.
pub(crate) fn whole_lines(bytes: &[u8]) -> &[u8]
    ensures { (torn : List ℕ) × IsTorn bytes.now result.now torn }
{
    match cut_whole_lines(bytes) {
        Some((whole, _torn)) => whole,
        None => &bytes[..0],
    }
}

/// What stands before the last of whole lines. Linear in that one.
pub(crate) fn before_last(whole: &[u8]) -> &[u8]
    requires { AreWhole whole.now }
    ensures { ¬ (whole.now ≡ []) → (line : List ℕ) × HasLastLine whole.now result.now line }
{
    let [lines @ .., _lf] = whole else {
        return whole;
    };
    match cut_whole_lines(lines) {
        Some((front, _line)) => front,
        None => &lines[..0],
    }
}

/// Bytes, and a text behind them.
pub(crate) fn with_tail(alloc: Global, front: &[u8], tail: &str) -> Result<Vec<u8>, AllocError>
    ensures { IfOk result (λ bytes. bytes.items ≡ front.now ++ tail.now) }
{
    let mut bytes = Vec::from_slice(alloc, front)?;
    bytes.extend_from_slice(tail.as_bytes())?;
    Ok(bytes)
}
