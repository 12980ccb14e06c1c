//! Stories of several sites, step by step, and the logs that they leave.
use admission_core::{Ask, Call, Durable, Reply};
use desk_log::{Desk, Run, Runs, Transcript};
use grow_counters::Counts;
use merge_core::{Delta, Layout, Row};
use std::alloc::Global;
use std::mem;
use test_keepers::{Fake, Fault, layout_of, store_with};

/// The sites, the seats and the problem of a layout with one record, and how many sites its first ones know at first;
/// the others know all.
#[derive(Clone, Copy)]
pub struct Plan {
    pub sites: u16,
    pub seats: u32,
    pub problem: u16,
    pub first: u16,
}

/// One step of a site, whose number comes first.
#[derive(Clone, Copy)]
pub enum Step {
    Read(u16, u64),
    Announce(u16, u64),
    Quill(u16, u64),
    Leave(u16, u64),
    /// So many seats for another site.
    Give(u16, u16, u64),
    Help(u16),
    /// The site tells what it knows. The messages are numbered from 0.
    Send(u16),
    /// The site hears a message.
    Take(u16, usize),
    /// The site hears that site 0 gave so many of its seats to site 1, and took so many.
    Claim(u16, u64, u64),
    /// The site is opened again on what it kept, and knows so many sites.
    Open(u16, u16),
    /// The site is opened again on a new keeper.
    Renew(u16),
}

/// Sites at work, the runs that their earlier openings left, and what was told.
#[derive(Drop)]
pub struct Story {
    layout: Layout,
    desks: Vec<Desk<Fake>>,
    closed: Vec<Vec<Run>>,
    messages: Vec<Delta>,
}

// An opening of a site that knows so many sites.
fn opened(
    alloc: Global,
    layout: &Layout,
    (site, sites): (u16, u16),
    first: Option<Durable>,
) -> Option<Desk<Fake>> {
    let layout = layout.at_sites(alloc, sites).ok()??;
    let mut store = store_with(0, Fault::Never);
    store.first = first;
    let keeper = Fake::new(alloc, &layout, site, store)?;
    Desk::open(alloc, keeper, layout, site, 64).ok()
}

// Sites that have done nothing yet.
fn begun(alloc: Global, plan: Plan) -> Option<Story> {
    let layout = layout_of(alloc, plan.sites, plan.seats, plan.problem)?;
    let mut desks = Vec::new(alloc);
    let mut closed = Vec::new(alloc);
    for site in 0..plan.sites {
        let sites = if site < plan.first {
            plan.first
        } else {
            plan.sites
        };
        desks
            .push(opened(alloc, &layout, (site, sites), None)?)
            .ok()?;
        closed.push(Vec::new(alloc)).ok()?;
    }
    Some(Story {
        layout,
        desks,
        closed,
        messages: Vec::new(alloc),
    })
}

// What the site 0 of two sites would tell.
fn claim(alloc: Global, given: u64, taken: u64) -> Option<Delta> {
    let out = Counts::from_vec(Vec::from_slice(alloc, &[2u64, given]).ok()?);
    let mut rows = Vec::new(alloc);
    rows.push(Row {
        r: 0,
        s: 0,
        out,
        taken,
        ann: 0,
        fin: 0,
    })
    .ok()?;
    Delta::new(0, rows).ok()
}

// What a site is asked, if a step asks anything.
fn ask_of(step: Step) -> Option<Ask> {
    match step {
        Step::Read(_, h) => Some(Ask::Read { r: 0, h }),
        Step::Announce(_, h) => Some(Ask::Announce { r: 0, h }),
        Step::Quill(_, h) => Some(Ask::Quill { r: 0, h }),
        Step::Leave(_, h) => Some(Ask::Leave { r: 0, h }),
        Step::Give(_, to, seats) => Some(Ask::Give { r: 0, to, seats }),
        Step::Help(_) => Some(Ask::Help { r: 0 }),
        _ => None,
    }
}

/// The call of a step, if it is one.
pub fn call_of(alloc: Global, messages: &[Delta], step: Step) -> Option<Call> {
    match step {
        Step::Send(_) => Some(Call::Snapshot),
        Step::Take(_, k) => Some(Call::Merge(messages.get(k)?.try_copy(alloc).ok()?)),
        Step::Claim(_, given, taken) => Some(Call::Merge(claim(alloc, given, taken)?)),
        _ => Some(Call::Ask(ask_of(step)?)),
    }
}

/// The site of a step.
pub fn site_of(step: Step) -> usize {
    let site = match step {
        Step::Read(i, _) | Step::Announce(i, _) | Step::Quill(i, _) | Step::Leave(i, _) => i,
        Step::Give(i, _, _) | Step::Claim(i, _, _) => i,
        Step::Help(i) | Step::Send(i) | Step::Renew(i) => i,
        Step::Take(i, _) => i,
        Step::Open(i, _) => i,
    };
    usize::from(site)
}

// The run that an opening leaves.
fn run_of(desk: Desk<Fake>) -> Run {
    let sites = desk.core().layout().sites();
    let (first, entries, _keeper) = desk.into_parts();
    Run {
        sites,
        first,
        entries,
    }
}

// What the next opening of a site begins with.
fn kept_by(desk: &Desk<Fake>, renew: bool) -> Option<Option<Durable>> {
    if renew {
        return Some(None);
    }
    Some(Some(desk.core().durable().ok()?))
}

// Ends an opening of a site and begins the next one.
fn open_again(
    alloc: Global,
    story: &mut Story,
    (site, sites): (u16, u16),
    renew: bool,
) -> Option<()> {
    let desk = story.desks.get_mut(usize::from(site))?;
    let first = kept_by(desk, renew)?;
    let next = opened(alloc, &story.layout, (site, sites), first)?;
    let run = run_of(mem::replace(desk, next));
    story.closed.get_mut(usize::from(site))?.push(run).ok()
}

// Makes a call, and keeps what the site tells.
fn serve(alloc: Global, story: &mut Story, step: Step) -> Option<()> {
    let call = call_of(alloc, story.messages.as_slice(), step)?;
    let desk = story.desks.get_mut(site_of(step))?;
    match desk.serve(0, &call) {
        Reply::Snapshot(delta) => story.messages.push(delta).ok(),
        _ => Some(()),
    }
}

// Goes on by one step.
fn go(alloc: Global, story: &mut Story, step: Step) -> Option<()> {
    match step {
        Step::Open(site, sites) => open_again(alloc, story, (site, sites), false),
        Step::Renew(site) => {
            let sites = story.layout.sites();
            open_again(alloc, story, (site, sites), true)
        }
        _ => serve(alloc, story, step),
    }
}

// Closes all sites.
fn closed(alloc: Global, desks: Vec<Desk<Fake>>, runs: Vec<Vec<Run>>) -> Option<Vec<Transcript>> {
    let mut all = Vec::new(alloc);
    let mut site = 0u16;
    for (desk, runs) in desks.into_iter().zip(runs) {
        let mut runs = runs;
        runs.push(run_of(desk)).ok()?;
        let runs = Runs::from_vec(runs);
        all.push(Transcript { site, runs }).ok()?;
        site = site.saturating_add(1);
    }
    Some(all)
}

/// The layout, the closed logs of all sites, and the messages of a story.
pub fn told(
    alloc: Global,
    plan: Plan,
    steps: &[Step],
) -> Option<(Layout, Vec<Transcript>, Vec<Delta>)> {
    let mut story = begun(alloc, plan)?;
    for step in steps {
        go(alloc, &mut story, *step)?;
    }
    let Story {
        layout,
        desks,
        closed: runs,
        messages,
    } = story;
    Some((layout, closed(alloc, desks, runs)?, messages))
}
