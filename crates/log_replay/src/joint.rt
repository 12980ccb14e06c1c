//! The joint between two runs: whether the later one begins with what the earlier one left.
ghost use Rattle.std.specs.Prelude.{◌≡◌, ◌↔◌, ◌<◌, ◌≤◌, IfOk, IsTrue, MatchOption, [], List};
ghost use Rattle.merge_core.specs.Layout.{LayoutState, at_sites};
ghost use Rattle.admission_model.specs.Account.{Account};
ghost use Rattle.admission_model.specs.Serving.{after};
ghost use Rattle.admission_core.specs.Core.{Stands};
ghost use Rattle.admission_core.specs.Kept.{durable_of};
ghost use Rattle.log_replay.specs.Legal.{begins_with, start_account};
ghost use Rattle.log_replay.specs.Replay.{FitsNext, FitsSites, IsFirstCore, IsJoint, IsKept, tried_at};

use admission_core::{Call, Durable, SiteCore, is_memory};
use desk_log::same::same_durable;
use desk_log::{Entry, Run};
use merge_core::Layout;
use std::alloc::{AllocError, Global};

// The layout of a run at a site, if the site may know so many sites. Linear in the records.
fn layout_of_run(
    alloc: Global,
    layout: &Layout,
    site: u16,
    sites: u16,
) -> Result<Option<Layout>, AllocError>
    ensures { IfOk result (λ found. MatchOption found (¬ FitsSites layout.now site sites) (λ l. FitsSites layout.now site sites × (l ≡ at_sites sites layout.now))) }
{
    if site >= sites || sites > layout.sites() {
        return Ok(None);
    }
    layout.at_sites(alloc, sites)
}

// What a stop leaves of a site after a call.
fn part_after(core: SiteCore, call: &Call) -> Result<Durable, AllocError>
    ensures { IfOk result (λ part. (a : Account) → Stands a core → part ≡ durable_of (after a call.now)) }
{
    let mut core = core;
    let prepared = core.prepare(call);
    if is_memory(prepared.reply()) {
        return Err(AllocError);
    }
    let _ = core.apply(prepared);
    core.durable()
}

// Whether a durable part is what a stop leaves after the call in doubt, if there is one.
fn is_tried(
    core: SiteCore,
    left: &[Entry],
    part: &Durable,
    first: &Durable,
) -> Result<bool, AllocError>
    requires { (a : Account) → Stands a core → part.now ≡ durable_of a }
    ensures { IfOk result (λ b. (a : Account) → Stands a core → IsTrue b ↔ (first.now ≡ durable_of (tried_at a left.now))) }
{
    let [entry, ..] = left else {
        return Ok(same_durable(first, part));
    };
    Ok(same_durable(first, &part_after(core, &entry.call)?))
}

// The layout of a run that follows at the site of a core, if the site may then know so many sites.
fn layout_of_next(
    alloc: Global,
    layout: &Layout,
    core: &SiteCore,
    sites: u16,
) -> Result<Option<Layout>, AllocError>
    ensures { IfOk result (λ found. MatchOption found (¬ FitsNext layout.now core.now sites) (λ l. FitsNext layout.now core.now sites × (l ≡ at_sites sites layout.now))) }
{
    if sites < core.layout().sites() {
        return Ok(None);
    }
    layout_of_run(alloc, layout, core.site(), sites)
}

// Whether a call in doubt was carried out, by the durable part that stands afterwards; `None` where that is neither what the
// call leaves nor what the site had before it.
fn kept_by(core: SiteCore, left: &[Entry], first: &Durable) -> Result<Option<bool>, AllocError>
    ensures { IfOk result (λ kept. (a : Account) → Stands a core → IsKept a (tried_at a left.now) first.now kept) }
{
    let part = core.durable()?;
    if is_tried(core, left, &part, first)? {
        return Ok(Some(true));
    }
    if same_durable(first, &part) {
        return Ok(Some(false));
    }
    Ok(None)
}

// The core of a run at as many sites as before, behind a run without a call in doubt, if it begins where the site was: it is
// started again where it is.
fn restarted_core(core: SiteCore, run: &Run) -> Result<Option<(SiteCore, bool)>, AllocError>
    requires { core.layout.sites ≡ run.now.sites }
    ensures { IfOk result (λ found. (layout : LayoutState) (a : Account) → Stands a core → core.layout.records ≡ layout.records → FitsNext layout core run.now.sites
        → IsJoint layout core.site a a run.now found) }
{
    let part = core.durable()?;
    if !same_durable(&run.first, &part) {
        return Ok(None);
    }
    let mut core = core;
    core.restart();
    Ok(Some((core, true)))
}

/// The core of a run that begins where the site was, and whether the call in doubt was carried out.
pub(crate) fn begun_core(
    alloc: Global,
    layout: &Layout,
    core: SiteCore,
    left: &[Entry],
    run: &Run,
) -> Result<Option<(SiteCore, bool)>, AllocError>
    requires { core.layout.records ≡ layout.now.records }
    ensures { IfOk result (λ found. (a : Account) → Stands a core → IsJoint layout.now core.site a (tried_at a left.now) run.now found) }
{
    let site = core.site();
    let Some(under) = layout_of_next(alloc, layout, &core, run.sites)? else {
        return Ok(None);
    };
    if left.is_empty() && core.layout().sites() == run.sites {
        return restarted_core(core, run);
    }
    let Some(kept) = kept_by(core, left, &run.first)? else {
        return Ok(None);
    };
    let first = run.first.try_copy(alloc)?;
    // The part is the site's own, so that only want of memory refuses it.
    let Ok(core) = SiteCore::restore(alloc, under, site, first) else {
        return Err(AllocError);
    };
    Ok(Some((core, kept)))
}

/// The core before the first run of a site, if that begins where the site was.
pub(crate) fn first_core(
    alloc: Global,
    layout: &Layout,
    site: u16,
    runs: &[Run],
) -> Result<Option<SiteCore>, AllocError>
    requires { site < layout.now.sites }
    ensures { IfOk result (IsFirstCore layout.now site (start_account layout.now site runs.now) runs.now) }
{
    let [run, ..] = runs else {
        let core = SiteCore::new(alloc, layout.try_copy(alloc)?, site)?;
        return Ok(Some(core));
    };
    let Some(first) = layout_of_run(alloc, layout, site, run.sites)? else {
        return Ok(None);
    };
    let start = SiteCore::new(alloc, first, site)?;
    let none: &[Entry] = &[];
    match begun_core(alloc, layout, start, none, run)? {
        Some((core, _)) => Ok(Some(core)),
        None => Ok(None),
    }
}
