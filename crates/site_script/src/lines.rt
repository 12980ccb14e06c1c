//! What a line of a site's script says.
ghost use Rattle.std.specs.Prelude.{◌≡◌, ◌≢◌, ℕ, List, ◌++◌, codes, IfOk, MatchOption};
ghost use Rattle.merge_core.specs.declared.layout.RecordSpec.{RecordSpec};
ghost use Rattle.site_script.specs.Lines.{Says};

use admission_core::Call;
use delta_codec::{DecodeError, decode};
use merge_core::Layout;
use script_text::ask_in;
use std::alloc::{AllocError, Global};

/// What a line says: a call, or to take a text that is no delta's, by the name of its first fault.
#[derive(Debug, Drop)]
pub enum Said {
    Asked(Call),
    Unread(DecodeError),
}

/// What a line says: what a caller asks (`script_text::ask_in`), `send`, or `take TEXT`, where TEXT is the rest of the
/// line behind the blank, whatever its blanks, even empty. Nothing where the line says none of these; a line that takes
/// a text which is not UTF-8 says nothing, whatever its length. Linear in the line, and a record is looked up by its
/// name.
pub fn said_in(alloc: Global, layout: &Layout, line: &[u8]) -> Result<Option<Said>, AllocError>
    ensures { IfOk result (Says layout.now.records line.now) }
{
    if let Some(text) = taken_text(line) {
        return said_by_text(alloc, text);
    }
    if line == b"send".as_slice() {
        return Ok(Some(Said::Asked(Call::Snapshot)));
    }
    let Some(ask) = ask_in(layout, line) else {
        return Ok(None);
    };
    Ok(Some(Said::Asked(Call::Ask(ask))))
}

// The text that a line takes, were it UTF-8.
fn taken_text(line: &[u8]) -> Option<&[u8]>
    ensures { MatchOption result
        ((text : List ℕ) → line.now ≢ codes "take " ++ text)
        (λ text. line.now ≡ codes "take " ++ text.now) }
{
    line.strip_prefix(b"take ")
}

/// What the line `take TEXT` says, by its TEXT alone, as [`said_in`] says. Linear in the text.
pub fn said_by_text(alloc: Global, bytes: &[u8]) -> Result<Option<Said>, AllocError>
    ensures { IfOk result (λ said. (records : List RecordSpec) → Says records (codes "take " ++ bytes.now) said) }
{
    if std::str::from_utf8(bytes).is_err() {
        return Ok(None);
    }
    match decode(alloc, bytes) {
        Ok(delta) => Ok(Some(Said::Asked(Call::Merge(delta)))),
        Err(DecodeError::Memory) => Err(AllocError),
        Err(error) => Ok(Some(Said::Unread(error))),
    }
}
