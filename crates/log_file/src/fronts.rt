//! What a crash may leave of a log's first line.
ghost use Rattle.std.specs.Prelude.{◌≡◌, ◌↔◌, ℕ, List, IfOk, IsTrue, MatchBool, MatchOption};
ghost use Rattle.transcript_text.specs.Told.{FitsSites};
ghost use Rattle.log_file.specs.Pieces.{IsTorn};
ghost use Rattle.log_file.specs.Fronts.{IsFrontOfRun, IsNoFront, MayBeLog};
ghost use Rattle.log_file.specs.Fronting.{start_part, IsFrontAt, IsFrontIn};

use admission_core::{Durable, SiteCore};
use merge_core::Layout;
use std::alloc::{AllocError, Global};
use transcript_text::{book_told, layout_of_run, push_front, push_sites};

/// Whether bytes with these whole lines may be left of a log of the site: they have a whole line, or are the front of one
/// with which the log can begin. Linear in the layout's slots, for each of its sites.
pub(crate) fn may_be_log(
    alloc: Global,
    layout: &Layout,
    site: u16,
    bytes: &[u8],
    whole: &[u8],
) -> Result<bool, AllocError>
    requires { (torn : List ℕ) × IsTorn bytes.now whole.now torn }
    ensures { IfOk result (λ b. MatchBool b (MayBeLog layout.now site bytes.now) (IsNoFront layout.now site bytes.now)) }
{
    if !whole.is_empty() {
        return Ok(true);
    }
    is_front_of_run(alloc, layout, site, bytes)
}

// Whether bytes are the front of a line with which a log of the site can begin.
fn is_front_of_run(
    alloc: Global,
    layout: &Layout,
    site: u16,
    bytes: &[u8],
) -> Result<bool, AllocError>
    ensures { IfOk result (λ b. IsTrue b ↔ IsFrontOfRun layout.now site bytes.now) }
{
    'sites: for n in 0..layout.sites() {
        if is_front_at(alloc, layout, site, n + 1, bytes)? {
            return Ok(true);
        }
    }
    Ok(false)
}

// Whether they are the front of a line that begins the first run of a site that knows so many sites.
fn is_front_at(
    alloc: Global,
    layout: &Layout,
    site: u16,
    sites: u16,
    bytes: &[u8],
) -> Result<bool, AllocError>
    ensures { IfOk result (λ b. IsTrue b ↔ IsFrontAt layout.now site sites bytes.now) }
{
    match start_part(alloc, layout, site, sites)? {
        Some(first) => is_front_with(alloc, layout, site, sites, &first, bytes),
        None => Ok(false),
    }
}

// What the site keeps before its first run, if it may know so many sites.
fn start_part(
    alloc: Global,
    layout: &Layout,
    site: u16,
    sites: u16,
) -> Result<Option<Durable>, AllocError>
    ensures { IfOk result (λ found. MatchOption found
        (¬ FitsSites layout.now site sites)
        (λ d. FitsSites layout.now site sites × (d ≡ start_part layout.now site sites))) }
{
    let Some(under) = layout_of_run(alloc, layout, site, sites)? else {
        return Ok(None);
    };
    let core = SiteCore::new(alloc, under, site)?;
    let first = core.durable()?;
    Ok(Some(first))
}

// Whether they are the front of such a line, in either spelling.
fn is_front_with(
    alloc: Global,
    layout: &Layout,
    site: u16,
    sites: u16,
    first: &Durable,
    bytes: &[u8],
) -> Result<bool, AllocError>
    requires { first.now ≡ start_part layout.now site sites }
    ensures { IfOk result (λ b. IsTrue b ↔ IsFrontAt layout.now site sites bytes.now) }
{
    if is_front_in(alloc, layout, site, sites, first, Some(sites), bytes)? {
        return Ok(true);
    }
    if sites != layout.sites() {
        return Ok(false);
    }
    is_front_in(alloc, layout, site, sites, first, None, bytes)
}

// Whether they are the front of the line in one spelling with which a run begins so.
fn is_front_in(
    alloc: Global,
    layout: &Layout,
    site: u16,
    sites: u16,
    first: &Durable,
    spelled: Option<u16>,
    bytes: &[u8],
) -> Result<bool, AllocError>
    ensures { IfOk result (λ b. IsTrue b ↔ IsFrontIn layout.now site sites first.now spelled bytes.now) }
{
    let Some(told) = book_told(alloc, layout, site, sites, first)? else {
        return Ok(false);
    };
    let mut text = String::new(alloc);
    push_front(alloc, &mut text, layout, site, &told, first.sessions())?;
    push_sites(&mut text, spelled)?;
    Ok(text.as_bytes().starts_with(bytes))
}
