//! Sites behind their locks, each with one pass: three that tell each other what they know, and openings of one, and the
//! logs that they leave.
ghost use Rattle.std.specs.Prelude.{◌≡◌};
ghost use Rattle.admission_core.specs.Kept.{DurableState};

use crate::stories::{Plan, Step, call_of, site_of};
use admission_core::{Call, Durable, Reply};
use desk_log::Transcript;
use durable_keeper::Keeper;
use merge_core::{Delta, Layout};
use session_book::{CloseError, Opening, Pass, Site};
use std::alloc::Global;
use std::marker::Brand;
use std::sync::Wait;
use std::sync::ledger::Blank;
use test_keepers::{Fake, Fault, Store, layout_of, store_with};

// A site behind its lock, and its pass.
#[derive(Drop)]
struct Post<L: Opening> {
    site: Site<Fake, L>,
    passes: Vec<Pass<L>>,
}

// A site over a new keeper.
fn opened<L: Opening>(
    alloc: Global,
    blank: Blank,
    layout: Layout,
    site: u16,
    store: Store,
) -> Option<Post<L>>
    requires name { blank.name ≡ L.name }
    requires parts { blank.parts ≡ L.parts }
    requires unknown { (d : DurableState) → ¬ L.kept d }
    requires one { blank.parts ≡ 1 }
{
    let keeper = Fake::new(alloc, &layout, site, store)?;
    let (site, passes) = Site::<Fake, L>::open(alloc, blank, keeper, layout, site, 1, 64).ok()?;
    Some(Post { site, passes })
}

// A site over a new keeper that does not fail.
fn new_post<L: Opening>(alloc: Global, blank: Blank, layout: &Layout, site: u16) -> Option<Post<L>>
    requires name { blank.name ≡ L.name }
    requires parts { blank.parts ≡ L.parts }
    requires unknown { (d : DurableState) → ¬ L.kept d }
    requires one { blank.parts ≡ 1 }
{
    let layout = layout.try_copy(alloc).ok()?;
    opened::<L>(alloc, blank, layout, site, store_with(0, Fault::Never))
}

// What a site answers.
fn served<L: Opening, R: Wait>(rt: &R, post: &mut Post<L>, call: Call) -> Option<Reply> {
    let pass = post.passes.get_mut(0)?;
    Some(post.site.call(rt, pass, call))
}

// Closes a site, again where the first closing found no memory.
fn closed<L: Opening, R: Wait>(rt: &R, post: Post<L>) -> Option<(Transcript, Fake)> {
    let Post { site, passes } = post;
    match site.close(rt, passes) {
        Ok(left) => Some(left),
        Err((CloseError::Memory, site, passes)) => site.close(rt, passes).ok(),
        Err(_) => None,
    }
}

// Three sites at work, and what they told.
#[derive(Drop)]
struct Trio<L: Opening, M: Opening, N: Opening> {
    first: Post<L>,
    second: Post<M>,
    third: Post<N>,
    messages: Vec<Delta>,
}

// What one of three sites answers.
fn answered<L: Opening, M: Opening, N: Opening, R: Wait>(
    rt: &R,
    trio: &mut Trio<L, M, N>,
    site: usize,
    call: Call,
) -> Option<Reply> {
    match site {
        0 => served(rt, &mut trio.first, call),
        1 => served(rt, &mut trio.second, call),
        2 => served(rt, &mut trio.third, call),
        _ => None,
    }
}

// Goes on by one step, which is a call.
fn go<L: Opening, M: Opening, N: Opening, R: Wait>(
    rt: &R,
    alloc: Global,
    trio: &mut Trio<L, M, N>,
    step: Step,
) -> Option<()> {
    let call = call_of(alloc, trio.messages.as_slice(), step)?;
    match answered(rt, trio, site_of(step), call)? {
        Reply::Snapshot(delta) => trio.messages.push(delta).ok(),
        _ => Some(()),
    }
}

// Closes a site and keeps its log.
fn push_closed<L: Opening, R: Wait>(
    rt: &R,
    all: &mut Vec<Transcript>,
    post: Post<L>,
) -> Option<()> {
    let (transcript, _keeper) = closed(rt, post)?;
    all.push(transcript).ok()
}

// Closes three sites.
fn all_closed<L: Opening, M: Opening, N: Opening, R: Wait>(
    rt: &R,
    alloc: Global,
    trio: Trio<L, M, N>,
) -> Option<Vec<Transcript>> {
    let Trio {
        first,
        second,
        third,
        messages: _,
    } = trio;
    let mut all = Vec::new(alloc);
    push_closed(rt, &mut all, first)?;
    push_closed(rt, &mut all, second)?;
    push_closed(rt, &mut all, third)?;
    Some(all)
}

// Goes through the steps. One that can't be gone, for want of memory or of the message that it takes, ends the story where
// it has to go on, and is left out else.
fn go_all<L: Opening, M: Opening, N: Opening, R: Wait>(
    rt: &R,
    alloc: Global,
    trio: &mut Trio<L, M, N>,
    (steps, has_all): (&[Step], bool),
) -> Option<()> {
    for step in steps {
        if go(rt, alloc, trio, *step).is_none() && has_all {
            return None;
        }
    }
    Some(())
}

fn trio_over<L: Opening, M: Opening, N: Opening, R: Wait>(
    rt: &R,
    alloc: Global,
    plan: Plan,
    blank_0: Blank,
    blank_1: Blank,
    blank_2: Blank,
    steps: (&[Step], bool),
) -> Option<Vec<Transcript>>
    requires first { (blank_0.name ≡ L.name) × (blank_0.parts ≡ L.parts) × (blank_0.parts ≡ 1) × ((d : DurableState) → ¬ L.kept d) }
    requires second { (blank_1.name ≡ M.name) × (blank_1.parts ≡ M.parts) × (blank_1.parts ≡ 1) × ((d : DurableState) → ¬ M.kept d) }
    requires third { (blank_2.name ≡ N.name) × (blank_2.parts ≡ N.parts) × (blank_2.parts ≡ 1) × ((d : DurableState) → ¬ N.kept d) }
{
    let layout = layout_of(alloc, plan.sites, plan.seats, plan.problem)?;
    let first = new_post::<L>(alloc, blank_0, &layout, 0)?;
    let second = new_post::<M>(alloc, blank_1, &layout, 1)?;
    let third = new_post::<N>(alloc, blank_2, &layout, 2)?;
    let mut trio = Trio {
        first,
        second,
        third,
        messages: Vec::new(alloc),
    };
    go_all(rt, alloc, &mut trio, steps)?;
    all_closed(rt, alloc, trio)
}

/// The logs that three sites leave of a story whose steps are calls: of all of them, or, without the flag, of those for which
/// there is memory.
pub fn three_closed<R: Wait>(
    rt: &R,
    alloc: Global,
    plan: Plan,
    steps: (&[Step], bool),
) -> Option<Vec<Transcript>> {
    let blank_0 = Blank::new(1);
    let blank_1 = Blank::new(1);
    let blank_2 = Blank::new(1);
    trio_over::<Brand, Brand, Brand, R>(rt, alloc, plan, blank_0, blank_1, blank_2, steps)
}

/// The store of an opening.
#[derive(Clone, Copy)]
pub enum Device {
    New,
    /// It has what the opening before left.
    Left,
    /// A new one that fails at its second change, and has kept that where the flag says so.
    Stops(bool),
}

/// An opening of site 0: how many sites it knows, its store, and its calls.
pub type Opened = (u16, Device, &'static [Step]);

// The store, if what the opening before left is known.
fn store_of(device: Device, left: Option<Durable>) -> Store {
    let mut store = match device {
        Device::Stops(keeps) => store_with(1, Fault::Refused(keeps)),
        _ => store_with(0, Fault::Never),
    };
    if let Device::Left = device {
        store.first = left;
    }
    store
}

fn opening_over<L: Opening, R: Wait>(
    rt: &R,
    alloc: Global,
    blank: Blank,
    layout: Layout,
    site: u16,
    store: Store,
    steps: &[Step],
) -> Option<(Transcript, Fake)>
    requires name { blank.name ≡ L.name }
    requires parts { blank.parts ≡ L.parts }
    requires unknown { (d : DurableState) → ¬ L.kept d }
    requires one { blank.parts ≡ 1 }
{
    let mut post = opened::<L>(alloc, blank, layout, site, store)?;
    for step in steps {
        let _ = served(rt, &mut post, call_of(alloc, &[], *step)?)?;
    }
    closed(rt, post)
}

// Opens a site, makes the calls and closes it.
fn run_opening<R: Wait>(
    rt: &R,
    alloc: Global,
    layout: Layout,
    site: u16,
    store: Store,
    steps: &[Step],
) -> Option<(Transcript, Fake)> {
    let blank = Blank::new(1);
    opening_over::<Brand, R>(rt, alloc, blank, layout, site, store, steps)
}

// What an opening of site 0 leaves.
fn run_first<R: Wait>(
    rt: &R,
    alloc: Global,
    layout: &Layout,
    (sites, device, steps): Opened,
    left: Option<Durable>,
) -> Option<(Transcript, Fake)> {
    let layout = layout.at_sites(alloc, sites).ok()??;
    run_opening(rt, alloc, layout, 0, store_of(device, left), steps)
}

// The log of site 0, which is opened twice: that of the second opening stands behind that of the first.
fn first_twice<R: Wait>(
    rt: &R,
    alloc: Global,
    layout: &Layout,
    (first, second): (Opened, Opened),
) -> Option<Transcript> {
    let (mut all, mut keeper) = run_first(rt, alloc, layout, first, None)?;
    let left = keeper.kept.load(alloc).ok()?;
    let (later, _keeper) = run_first(rt, alloc, layout, second, Some(left))?;
    all.append(later).ok()?;
    Some(all)
}

// The log of site 1, which is opened and does nothing.
fn idle_second<R: Wait>(rt: &R, alloc: Global, layout: &Layout) -> Option<Transcript> {
    let layout = layout.try_copy(alloc).ok()?;
    let store = store_of(Device::New, None);
    let (transcript, _keeper) = run_opening(rt, alloc, layout, 1, store, &[])?;
    Some(transcript)
}

/// The logs of two sites: site 0 is opened twice, and the second log is put behind the first; site 1 is opened and does
/// nothing.
pub fn opened_twice<R: Wait>(
    rt: &R,
    alloc: Global,
    layout: &Layout,
    openings: (Opened, Opened),
) -> Option<Vec<Transcript>> {
    let mut transcripts = Vec::with_capacity(alloc, 2).ok()?;
    transcripts
        .push(first_twice(rt, alloc, layout, openings)?)
        .ok()?;
    transcripts.push(idle_second(rt, alloc, layout)?).ok()?;
    Some(transcripts)
}
