//! The last entry of a log, as it is written where its change was not kept.
ghost use Rattle.std.specs.Prelude.{◌≡◌, ◌++◌, codes, string_bytes, IfOk, MatchOption};
ghost use Rattle.desk_log.specs.declared.entry.Entry.{Entry as EntryThere};
ghost use Rattle.log_file.specs.Runs.{EndsWith, HasNoLast, in_doubt};
ghost use Rattle.log_file.specs.Mending.{entry_line};

use admission_core::{Call, Refusal, Reply};
use desk_log::{Entry, Run};
use merge_core::Layout;
use std::alloc::{AllocError, Global};
use transcript_text::push_entry;

/// The line of the last entry of these runs, with the store's fault for its reply; nothing where the last run has no
/// entry. Linear in it.
pub(crate) fn doubted_line(
    alloc: Global,
    layout: &Layout,
    runs: &[Run],
) -> Result<Option<String>, AllocError>
    ensures { IfOk result (λ found. MatchOption found (HasNoLast runs.now)
        (λ text. (e : EntryThere) × (EndsWith runs.now e × (string_bytes text ≡ entry_line layout.now (in_doubt e))))) }
{
    let Some(last) = last_entry(runs) else {
        return Ok(None);
    };
    let doubted = Reply::Refused(Refusal::StoreFault);
    let mut text = String::new(alloc);
    push_line(alloc, &mut text, layout, last.pass, &last.call, &doubted)?;
    Ok(Some(text))
}

// The last entry of the last run.
fn last_entry(runs: &[Run]) -> Option<&Entry>
    ensures { MatchOption result (HasNoLast runs.now) (λ e. EndsWith runs.now e.now) }
{
    let (run, _) = runs.split_last()?;
    let (entry, _) = run.entries.as_slice().split_last()?;
    Some(entry)
}

/// Writes the line of an entry, which is this pass with its call and the reply, with its LF.
pub(crate) fn push_line(
    alloc: Global,
    text: &mut String,
    layout: &Layout,
    pass: u16,
    call: &Call,
    reply: &Reply,
) -> Result<(), AllocError>
    ensures { IfOk result (λ _. string_bytes text.new ≡ string_bytes text.old ++ entry_line layout.now
        (record { pass = pass; call = call.now; reply = reply.now })) }
{
    push_entry(alloc, text, layout, pass, call, reply)?;
    text.push_str("\n")
}
