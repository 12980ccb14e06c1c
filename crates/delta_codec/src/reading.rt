ghost use Rattle.std.specs.Prelude.{◌≡◌, ◌≤◌, ◌⊎◌, length, Ok, Err, MatchResult};
ghost use Rattle.merge_core.specs.Delta.{DeltaState, IsDelta};
ghost use Rattle.delta_codec.specs.Decodes.{Decodes, HasNoDelta, text_limit};
ghost use Rattle.delta_codec.specs.DeltaReaders.{delta_at};
ghost use Rattle.delta_codec.specs.DeltaText.{delta_text};
ghost use Rattle.text_parts.specs.Readers.{Gives};

use crate::TEXT_LIMIT;
use crate::fault::DecodeError;
use crate::rows::{rows_at, short_behind};
use merge_core::{Delta, Row};
use serde_json::Value;
use std::alloc::Global;
use text_parts::{Unread, after};

// The parts of a delta, all of the bytes. Whether the rows rise is not judged here.
#[tactic(auto, unfolding(crate::specs::DeltaReaders::delta_at))]
fn parts_at(alloc: Global, bytes: &[u8]) -> Result<(u16, Vec<Row>), Unread>
    ensures { Gives (λ x. record { from = x.0; rows = x.1.items }) result (delta_at bytes.now) }
{
    let (from, rest) = short_behind(b"{\"from\":", bytes)?;
    let rest = after(b",\"rows\":[", rest)?;
    let (rows, rest) = rows_at(alloc, rest)?;
    let rest = after(b"],\"v\":1}", rest)?;
    if !rest.is_empty() {
        return Err(Unread::Refused);
    }
    Ok((from, rows))
}

// The delta whose text the bytes are.
fn read(alloc: Global, bytes: &[u8]) -> Result<Delta, Unread>
    ensures { MatchResult result
        (λ d. IsDelta d × (bytes.now ≡ delta_text d))
        (λ e. e ≡ Unread.Refused → HasNoDelta bytes.now) }
{
    let (from, rows) = parts_at(alloc, bytes)?;
    match Delta::new(from, rows) {
        Ok(delta) => Ok(delta),
        Err(_) => Err(Unread::Refused),
    }
}

// What is wrong with bytes that are no delta's text. Only here `serde_json` reads them.
fn fault_of(alloc: Global, bytes: &[u8]) -> DecodeError
    requires short { length bytes.now ≤ text_limit }
    requires none { HasNoDelta bytes.now }
    ensures { Decodes bytes.now (Err result) }
{
    let Ok(text) = std::str::from_utf8(bytes) else {
        return DecodeError::NotUtf8;
    };
    match Value::from_str(alloc, text) {
        Ok(_) => DecodeError::NotCanonical,
        Err(error) => {
            if error.is_memory() {
                return DecodeError::Memory;
            }
            DecodeError::NotJson
        }
    }
}

// What to tell of bytes where memory ran out before they were judged. Looking for UTF-8 takes none.
fn unjudged(bytes: &[u8]) -> DecodeError
    requires short { length bytes.now ≤ text_limit }
    ensures { Decodes bytes.now (Err result) }
{
    match std::str::from_utf8(bytes) {
        Ok(_) => DecodeError::Memory,
        Err(_) => DecodeError::NotUtf8,
    }
}

/// The delta whose text the bytes are. One pass over the bytes and no tree; `serde_json` judges only what
/// is refused. `Memory` may come before a text is judged, but only for a text: neither for too many bytes nor
/// for bytes that are not UTF-8.
pub fn decode(alloc: Global, bytes: &[u8]) -> Result<Delta, DecodeError>
    ensures exact { Decodes bytes.now result }
    ensures only { (d : DeltaState) → IsDelta d → bytes.now ≡ delta_text d
        → (result ≡ Ok d) ⊎ (result ≡ Err DecodeError.Memory) }
{
    if bytes.len() > TEXT_LIMIT {
        return Err(DecodeError::TooLong);
    }
    match read(alloc, bytes) {
        Ok(delta) => Ok(delta),
        Err(Unread::Memory) => Err(unjudged(bytes)),
        Err(Unread::Refused) => Err(fault_of(alloc, bytes)),
    }
}
