//! The lines of entries.
ghost use Rattle.std.specs.Prelude.{◌≡◌, ◌++◌, ◌≤◌, Err, length, map, IfOk};
ghost use Rattle.std.specs.List.{All};
ghost use Rattle.text_parts.specs.Readers.{Gives};
ghost use Rattle.text_input.specs.Lines.{lines_of};
ghost use Rattle.transcript_text.specs.Texts.{entry_text};
ghost use Rattle.transcript_reader.specs.Fits.{FitsEntry};
ghost use Rattle.transcript_reader.specs.Readers.{pass_behind};
ghost use Rattle.transcript_reader.specs.Reading.{IsNoEntry};
ghost use Rattle.transcript_reader.specs.Lines.{StopsAt};

use crate::asks::call_at;
use crate::replies::reply_at;
use desk_log::Entry;
use merge_core::Layout;
use std::alloc::{AllocError, Global};
use text_input::cut_line;
use text_parts::{Unread, after, is_same, short_at};

// The pass of an entry, and the bytes from its reply on.
#[tactic(auto, unfolding(crate::specs::Readers::pass_behind))]
#[inline(always)]
pub(crate) fn pass_behind(bytes: &[u8]) -> Result<(u16, &[u8]), Unread>
    ensures { Gives (λ x. (x.0, x.1.now)) result (pass_behind bytes.now) }
{
    let rest = after(b",\"pass\":", bytes)?;
    let (pass, rest) = short_at(rest)?;
    let rest = after(b",\"reply\":\"", rest)?;
    Ok((pass, rest))
}

// The entry of a line. Linear in it and in the records. Nothing is copied but what the entry keeps. Not inlined: its callers'
// variables would take registers from it.
#[inline(never)]
pub(crate) fn entry_in(alloc: Global, layout: &Layout, line: &[u8]) -> Result<Entry, Unread>
    ensures sound { IfOk result (λ e. line.now ≡ entry_text layout.now.records e) }
    ensures fits { IfOk result FitsEntry }
    ensures refused { result ≡ Err Unread.Refused → IsNoEntry layout.now.records line.now }
{
    let rest = after(b"{\"call\":\"", line)?;
    let (call, rest) = call_at(alloc, layout, rest)?;
    let (pass, rest) = pass_behind(rest)?;
    let (reply, rest) = reply_at(alloc, rest)?;
    if is_same(rest, b"}") {
        return Ok(Entry { pass, call, reply });
    }
    Err(Unread::Refused)
}

/// The entries of the first lines, up to one that is no entry, and the bytes from there on. Linear in their
/// lines, and for each in the records.
pub(crate) fn entries_in<'a>(
    alloc: Global,
    layout: &Layout,
    bytes: &'a [u8],
) -> Result<(Vec<Entry>, &'a [u8]), AllocError>
    ensures lines { IfOk result (λ x. lines_of bytes.now ≡ map (entry_text layout.now.records) x.0.items ++ lines_of x.1.now) }
    ensures fit { IfOk result (λ x. All FitsEntry x.0.items) }
    ensures stops { IfOk result (λ x. StopsAt layout.now.records (lines_of x.1.now)) }
    ensures shorter { IfOk result (λ x. length x.1.now ≤ length bytes.now) }
{
    let mut entries = Vec::new(alloc);
    let mut rest = bytes;
    while !rest.is_empty() {
        let (line, behind) = cut_line(rest);
        match entry_in(alloc, layout, line) {
            Ok(entry) => entries.push(entry)?,
            Err(Unread::Refused) => return Ok((entries, rest)),
            Err(Unread::Memory) => return Err(AllocError),
        }
        rest = behind;
    }
    Ok((entries, rest))
}
