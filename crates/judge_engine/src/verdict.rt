//! The line of a verdict.
ghost use Rattle.std.specs.Prelude.{◌≡◌, string_bytes, IfOk};
ghost use Rattle.judge_engine.specs.Verdicts.{verdict_line};
ghost use Rattle.transcript_text.specs.Texts.{record_text};

use log_judge::Verdict;
use merge_core::Layout;
use std::alloc::{AllocError, Global};
use transcript_text::push_record;

/// The line of a verdict: its name in small letters, and then each number behind a word that says what it is; a record
/// stands by its name.
pub fn verdict_line(alloc: Global, layout: &Layout, verdict: Verdict) -> Result<String, AllocError>
    ensures { IfOk result (λ text. string_bytes text ≡ verdict_line layout.now.records verdict) }
{
    match verdict {
        Verdict::BadCut => String::from_str(alloc, "bad cut\n"),
        Verdict::BadJoint { site } => format!(in alloc; "bad joint site {site}\n"),
        Verdict::BadReply { site, at } => format!(in alloc; "bad reply site {site} at {at}\n"),
        Verdict::Exceeds {
            site,
            at,
            rec,
            origin,
        } => {
            let name = record_name(alloc, layout, rec)?;
            let name = name.as_str();
            format!(in alloc; "exceeds site {site} at {at} record {name} origin {origin}\n")
        }
        Verdict::Consistent => String::from_str(alloc, "consistent\n"),
    }
}

// A record: its name, or `?` and its number.
fn record_name(alloc: Global, layout: &Layout, rec: u16) -> Result<String, AllocError>
    ensures { IfOk result (λ text. string_bytes text ≡ record_text layout.now.records rec) }
{
    let mut name = String::new(alloc);
    push_record(&mut name, layout, rec)?;
    Ok(name)
}
