//! One line of closed logs.
ghost use Rattle.std.specs.Prelude.{◌≡◌, Err, IfOk, IsTrue};
ghost use Rattle.transcript_reader.specs.Reading.{BeginsNoRun, IsLine, IsNoEntry};

use crate::entries::entry_in;
use crate::openings::{Opening, opening_in};
use desk_log::Entry;
use merge_core::Layout;
use std::alloc::Global;
use text_parts::Unread;

/// What a line of closed logs says.
#[derive(Debug, Drop)]
pub enum Line {
    /// A run begins.
    Begins(Opening),
    /// The run before it has one entry more.
    Adds(Entry),
}

/// What a line says; an entry is read only behind the line that begins a run. Linear in the line, in the layout's slots where
/// it begins a run, and for each name of a record in the records.
pub fn line_in(alloc: Global, layout: &Layout, begun: bool, line: &[u8]) -> Result<Line, Unread>
    ensures sound { IfOk result (IsLine layout.now begun line.now) }
    ensures no_run { result ≡ Err Unread.Refused → BeginsNoRun layout.now line.now }
    ensures no_entry { result ≡ Err Unread.Refused → IsTrue begun → IsNoEntry layout.now.records line.now }
{
    if !begun {
        let opening = opening_in(alloc, layout, line)?;
        return Ok(Line::Begins(opening));
    }
    match entry_in(alloc, layout, line) {
        Ok(entry) => Ok(Line::Adds(entry)),
        Err(Unread::Memory) => Err(Unread::Memory),
        Err(Unread::Refused) => {
            let opening = opening_in(alloc, layout, line)?;
            Ok(Line::Begins(opening))
        }
    }
}
