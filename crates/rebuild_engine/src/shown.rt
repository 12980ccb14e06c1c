//! What a rebuild prints.
ghost use Rattle.std.specs.Prelude.{◌≡◌, ◌++◌, ◌<◌, length, string_bytes, IfOk};
ghost use Rattle.admission_model.specs.Account.{Account};
ghost use Rattle.admission_core.specs.Core.{IsCore, Stands};
ghost use Rattle.rebuild_engine.specs.Shown.{counts_below, digest_line, record_counts, shown_text, text_of, texts_below, texts_digest, texts_of};

use admission_core::SiteCore;
use delta_codec::encode;
use merge_core::Delta;
use serve_engine::{digest_digits, push_counts};
use std::alloc::{AllocError, Global};

/// The counts of each record of a site that was built again, a line each; and, where it was not lost alone, the line of the
/// digest of the texts of which it was built. Linear in the layout and the deltas, and cubic in the number of sites.
pub(crate) fn shown_text(
    alloc: Global,
    core: &SiteCore,
    alone: bool,
    deltas: &[Delta],
) -> Result<String, AllocError>
    requires { IsCore core.now }
    ensures { IfOk result (λ text. (a : Account) → Stands a core.now → string_bytes text ≡ shown_text a core.now.layout alone deltas.now) }
{
    let mut text = String::new(alloc);
    push_records(&mut text, core)?;
    if !alone {
        push_digest(alloc, &mut text, core.layout().sites(), deltas)?;
    }
    Ok(text)
}

// Writes the counts of all records.
fn push_records(text: &mut String, core: &SiteCore) -> Result<(), AllocError>
    requires { IsCore core.now }
    ensures { IfOk result (λ _. (a : Account) → Stands a core.now
        → string_bytes text.new ≡ string_bytes text.old ++ counts_below a core.now.layout.records (length core.now.layout.records)) }
{
    let few = core.layout().records().len() as u16;
    for r in 0..few {
        push_record(text, core, r)?;
    }
    Ok(())
}

// Writes the counts of a record behind its name and a blank.
fn push_record(text: &mut String, core: &SiteCore, r: u16) -> Result<(), AllocError>
    requires core { IsCore core.now }
    requires there { r < length core.now.layout.records }
    ensures { IfOk result (λ _. (a : Account) → Stands a core.now → string_bytes text.new ≡ string_bytes text.old ++ record_counts a core.now.layout.records r) }
{
    let spec = &core.layout().records()[usize::from(r)];
    text.push_str(spec.name.as_str())?;
    text.push_str(" ")?;
    push_counts(text, core, r)
}

// Writes the line of the digest of all texts.
fn push_digest(
    alloc: Global,
    text: &mut String,
    sites: u16,
    deltas: &[Delta],
) -> Result<(), AllocError>
    ensures { IfOk result (λ _. string_bytes text.new ≡ string_bytes text.old ++ digest_line sites deltas.now) }
{
    let digits = texts_digest(alloc, sites, deltas)?;
    text.push_str("texts ")?;
    text.push_str(digits.as_str())?;
    text.push_str("\n")
}

// The digits of the digest of all texts, in order of sites.
fn texts_digest(alloc: Global, sites: u16, deltas: &[Delta]) -> Result<String, AllocError>
    ensures { IfOk result (λ digits. string_bytes digits ≡ texts_digest sites deltas.now) }
{
    let mut texts = String::new(alloc);
    for site in 0..sites {
        push_texts(alloc, &mut texts, site, deltas)?;
    }
    digest_digits(alloc, texts.as_bytes())
}

// Writes the texts of the deltas of a site, each with LF.
fn push_texts(
    alloc: Global,
    texts: &mut String,
    site: u16,
    deltas: &[Delta],
) -> Result<(), AllocError>
    ensures { IfOk result (λ _. string_bytes texts.new ≡ string_bytes texts.old ++ texts_of site deltas.now) }
{
    for delta in deltas {
        push_text(alloc, texts, site, delta)?;
    }
    Ok(())
}

// Writes the text of a delta, if it is of this site, and LF.
fn push_text(alloc: Global, texts: &mut String, site: u16, delta: &Delta) -> Result<(), AllocError>
    ensures { IfOk result (λ _. string_bytes texts.new ≡ string_bytes texts.old ++ text_of site delta.now) }
{
    if delta.from_site() != site {
        return Ok(());
    }
    let text = encode(alloc, delta)?;
    texts.push_str(text.as_str())?;
    texts.push_str("\n")
}
