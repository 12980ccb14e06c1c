//! What a run writes: the replies that callers got, and the verdict on the closed logs.
ghost use Rattle.std.specs.Prelude.{◌≡◌, ◌++◌, string_bytes, IfOk};
ghost use Rattle.log_judge.specs.Verdict.{AreOfSites};
ghost use Rattle.run_engine.specs.Replies.{IsOutput, entries_text, entry_text, replies_text, site_text};

use desk_log::{Entry, Transcript};
use judge_engine::verdict_line;
use log_judge::{full_cut, judge};
use merge_core::Layout;
use script_text::push_reply;
use std::alloc::{AllocError, Global};
use text_parts::push_field;

/// The replies to the callers of all sites, a line for each, and the line of the verdict on the logs at their ends. Linear in
/// the text, and in what the judge takes.
pub fn output_text(
    alloc: Global,
    layout: &Layout,
    transcripts: &[Transcript],
) -> Result<String, AllocError>
    requires { AreOfSites layout.now transcripts.now }
    ensures { IfOk result (λ text. IsOutput layout.now transcripts.now (string_bytes text)) }
{
    let mut text = String::new(alloc);
    push_replies(&mut text, transcripts)?;
    let cut = full_cut(alloc, transcripts)?;
    let verdict = judge(alloc, layout, transcripts, cut.as_slice())?;
    let line = verdict_line(alloc, layout, verdict)?;
    text.push_str(line.as_str())?;
    Ok(text)
}

// Writes the replies to the callers of all sites.
fn push_replies(text: &mut String, transcripts: &[Transcript]) -> Result<(), AllocError>
    ensures { IfOk result (λ _. string_bytes text.new ≡ string_bytes text.old ++ replies_text transcripts.now) }
{
    for transcript in transcripts {
        push_site(text, transcript)?;
    }
    Ok(())
}

// Writes those of one site.
fn push_site(text: &mut String, transcript: &Transcript) -> Result<(), AllocError>
    ensures { IfOk result (λ _. string_bytes text.new ≡ string_bytes text.old ++ site_text transcript.now) }
{
    for run in transcript.runs.as_slice() {
        push_entries(text, transcript.site, run.entries.as_slice())?;
    }
    Ok(())
}

// Writes those of one log.
fn push_entries(text: &mut String, site: u16, entries: &[Entry]) -> Result<(), AllocError>
    ensures { IfOk result (λ _. string_bytes text.new ≡ string_bytes text.old ++ entries_text site entries.now) }
{
    for entry in entries {
        push_entry(text, site, entry)?;
    }
    Ok(())
}

// Writes the reply of an entry, where it is the caller's.
fn push_entry(text: &mut String, site: u16, entry: &Entry) -> Result<(), AllocError>
    ensures { IfOk result (λ _. string_bytes text.new ≡ string_bytes text.old ++ entry_text site entry.now) }
{
    if entry.pass != 0 {
        return Ok(());
    }
    push_field(text, "", u64::from(site))?;
    text.push_str(": ")?;
    push_reply(text, &entry.reply)?;
    text.push_str("\n")
}
