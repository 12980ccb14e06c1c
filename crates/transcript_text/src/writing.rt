//! The text of a transcript.
ghost use Rattle.std.specs.Prelude.{◌≡◌, ◌++◌, ◌↔◌, All, IsTrue, string_bytes, IfOk};
ghost use Rattle.transcript_text.specs.Texts.{run_text, transcript_text, MayBegin};

use crate::entries::push_entries;
use crate::openings::push_opening;
use crate::told::book_told;
use desk_log::{Run, Transcript};
use merge_core::Layout;
use std::alloc::{AllocError, Global};

// Writes a run.
fn push_run(
    alloc: Global,
    text: &mut String,
    layout: &Layout,
    site: u16,
    run: &Run,
) -> Result<(), AllocError>
    requires { MayBegin layout.now site run.now.sites run.now.first }
    ensures { IfOk result (λ _. string_bytes text.new ≡ string_bytes text.old ++ run_text layout.now site run.now) }
{
    push_opening(alloc, text, layout, site, run.sites, &run.first)?;
    text.push_str("\n")?;
    push_entries(alloc, text, layout, run.entries.as_slice())
}

/// The lines of a transcript, each with LF behind it: for each run its opening, and then a line for each entry. The
/// caller shows that each run may begin as it does: the layout has its site, and its first part is one that
/// `SiteCore::restore` takes. Linear in the text, and in the layout's slots for each run.
pub fn transcript_text(
    alloc: Global,
    layout: &Layout,
    transcript: &Transcript,
) -> Result<String, AllocError>
    requires { All (λ run. MayBegin layout.now transcript.now.site run.sites run.first) transcript.now.runs }
    ensures { IfOk result (λ text. string_bytes text ≡ transcript_text layout.now transcript.now) }
{
    let mut text = String::new(alloc);
    for run in transcript.runs.as_slice() {
        push_run(alloc, &mut text, layout, transcript.site, run)?;
    }
    Ok(text)
}

/// Whether each run of a transcript may begin as it does, so that [`transcript_text`] writes it. Linear for each run
/// in the layout's slots, and in the counters and sessions that it begins with.
pub fn may_be_written(
    alloc: Global,
    layout: &Layout,
    transcript: &Transcript,
) -> Result<bool, AllocError>
    ensures { IfOk result (λ b. IsTrue b ↔ All (λ run. MayBegin layout.now transcript.now.site run.sites run.first) transcript.now.runs) }
{
    for run in transcript.runs.as_slice() {
        if !may_begin(alloc, layout, transcript.site, run)? {
            return Ok(false);
        }
    }
    Ok(true)
}

// Whether the run may begin as it does.
fn may_begin(alloc: Global, layout: &Layout, site: u16, run: &Run) -> Result<bool, AllocError>
    ensures { IfOk result (λ b. IsTrue b ↔ MayBegin layout.now site run.now.sites run.now.first) }
{
    match book_told(alloc, layout, site, run.sites, &run.first)? {
        Some(_) => Ok(true),
        None => Ok(false),
    }
}
