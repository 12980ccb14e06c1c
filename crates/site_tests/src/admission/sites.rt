//! A site at the start, and what it answers, keeps and sends.
use crate::layouts::one_record;
use admission_core::*;
use merge_core::{Delta, Layout};
use std::alloc::Global;

/// A layout of one record, whose seats start at site 0: its sites, the seats, and the problem.
pub type Shape = (u16, u32, u16);

/// Two sites, and two seats under problem 1.
pub const TWO_SITES: Shape = (2, 2, 1);

/// The layout of one record.
pub fn layout(alloc: Global, shape: Shape) -> Option<Layout> {
    one_record(alloc, shape.0, shape.1, shape.2)
}

/// A site of this layout before any operation.
pub fn site_of(alloc: Global, layout: Layout, site: u16) -> Option<SiteCore> {
    if site >= layout.sites() {
        return None;
    }
    SiteCore::new(alloc, layout, site).ok()
}

/// A site of the layout of one record, before any operation.
pub fn site(alloc: Global, shape: Shape, site: u16) -> Option<SiteCore> {
    site_of(alloc, layout(alloc, shape)?, site)
}

/// A reply, of whose delta the number of rows is told.
#[derive(Clone, Copy, PartialEq)]
pub enum Answer {
    Admitted,
    Announced(u64),
    Left(Phase),
    Given,
    Gave { to: u16, seats: u64 },
    Merged(u64),
    Rows(usize),
    Refused(Refusal),
}

/// What a reply tells.
pub fn told(reply: &Reply) -> Answer {
    match reply {
        Reply::Admitted => Answer::Admitted,
        Reply::Announced(number) => Answer::Announced(*number),
        Reply::Left(phase) => Answer::Left(*phase),
        Reply::Given => Answer::Given,
        Reply::Gave { to, seats } => Answer::Gave {
            to: *to,
            seats: *seats,
        },
        Reply::Merged(risen) => Answer::Merged(*risen),
        Reply::Snapshot(delta) => Answer::Rows(delta.rows().len()),
        Reply::Refused(refusal) => Answer::Refused(*refusal),
    }
}

/// What the public call of this name answers.
pub fn serve(core: &mut SiteCore, ask: Ask) -> Answer {
    let reply = match ask {
        Ask::Read { r, h } => core.enter_read(r, h),
        Ask::Announce { r, h } => core.announce(r, h),
        Ask::Quill { r, h } => core.enter_write(r, h),
        Ask::Leave { r, h } => core.leave(r, h),
        Ask::Give { r, to, seats } => core.transfer(r, to, seats),
        Ask::Help { r } => core.help(r),
    };
    told(&reply)
}

/// The first of these asks that is answered otherwise, with that answer.
pub fn first_wrong(core: &mut SiteCore, steps: &[(Ask, Answer)]) -> Option<(usize, Answer)> {
    for (k, (ask, want)) in steps.iter().enumerate() {
        let answer = serve(core, *ask);
        if answer != *want {
            return Some((k, answer));
        }
    }
    None
}

/// What the site tells.
pub fn said(core: &SiteCore) -> Option<Delta> {
    core.snapshot().ok()
}

/// What it keeps.
pub fn kept(core: &SiteCore) -> Option<Durable> {
    core.durable().ok()
}

/// Whether two sites keep the same.
pub fn is_same(one: &Durable, other: &Durable) -> bool {
    one.cells() == other.cells() && one.sessions() == other.sessions()
}

/// How many rows the site tells.
pub fn rows_said(core: &SiteCore) -> Option<usize> {
    Some(said(core)?.rows().len())
}

fn sizes_kept(core: &SiteCore) -> Option<(usize, usize)> {
    let kept = kept(core)?;
    Some((kept.cells().len(), kept.sessions().len()))
}

/// How many rows the site tells, and how many counters and sessions it keeps.
pub fn sizes(core: &SiteCore) -> Option<[usize; 3]> {
    let rows = rows_said(core)?;
    let (cells, sessions) = sizes_kept(core)?;
    Some([rows, cells, sessions])
}

/// The same after a restart.
pub fn sizes_after_restart(core: &mut SiteCore) -> Option<[usize; 3]> {
    core.restart();
    sizes(core)
}
