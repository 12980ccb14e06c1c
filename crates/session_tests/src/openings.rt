//! An opening of a site behind its lock, from its beginning to its transcript: the one way by which all tests open one.
ghost use Rattle.std.specs.Prelude.{◌≡◌, IfOk};
ghost use Rattle.admission_core.specs.Kept.{DurableState};

use crate::asked::{Asked, Numbers, call_of, numbers};
use admission_core::{Ask, Call};
use durable_keeper::Keeper;
use session_book::{CloseError, OpenError, Opening, Pass, Site, Transcript};
use std::alloc::Global;
use std::marker::Brand;
use std::sync::Wait;
use std::sync::ledger::Blank;
use std::thread;
use std::thread::Threads;
use test_keepers::{Fake, Store, layout_of};

/// A site of a layout of one record, its passes, and the places of its log. Where `in_threads` says so, each of two
/// passes makes calls in a thread of its own first.
#[derive(Clone, Copy)]
pub struct Plan {
    pub sites: u16,
    pub seats: u32,
    pub problem: u16,
    pub site: u16,
    pub passes: u16,
    pub limit: usize,
    pub in_threads: bool,
}

/// What came of an opening.
#[derive(Drop)]
pub struct Outcome {
    /// The site's number, its records, and the sites of its layout.
    pub seen: (u16, u16, u16),
    /// The replies.
    pub told: Vec<Numbers>,
    /// The replies in the receipts, pass by pass.
    pub receipts: Vec<Numbers>,
    /// How many passes have the mark of a full log, and how many that of a stopped site.
    pub marks: (u64, u64),
    /// What closing without the last pass met.
    pub missing: CloseError,
    pub transcript: Transcript,
    pub keeper: Fake,
}

/// Why there is no outcome.
#[derive(Clone, Copy, PartialEq, Eq)]
pub enum Stop {
    Memory,
    Opening(OpenError),
    Closing,
}

// What the site answers to a call of this pass.
fn called<K: Keeper, L: Opening, R: Wait>(
    rt: &R,
    site: &Site<K, L>,
    pass: &mut Pass<L>,
    call: Call,
) -> Numbers {
    numbers(&site.call(rt, pass, call))
}

// Eight readers of one thread.
fn read_eight<K: Keeper, L: Opening, R: Wait>(
    rt: &R,
    site: &Site<K, L>,
    from: u16,
    pass: &mut Pass<L>,
) {
    for h in 0..8u64 {
        let ask = Ask::Read {
            r: 0,
            h: u64::from(from) + h,
        };
        let _ = called(rt, site, pass, Call::Ask(ask));
    }
}

// Eight readers of each pass, in threads of their own.
fn read_in_threads<K: Keeper + Send, L: Opening + Send + Sync, R: Threads + Wait + Sync>(
    rt: &R,
    site: &Site<K, L>,
    passes: &mut [Pass<L>],
) {
    thread::for_each_mut(
        rt,
        passes,
        2,
        &|i, pass| { read_eight(rt, site, if i == 0 { 0 } else { 8 }, pass) },
    );
}

// A site over a new keeper, and its passes.
fn opened<L: Opening>(
    alloc: Global,
    blank: Blank,
    plan: Plan,
    store: Store,
) -> Result<(Site<Fake, L>, Vec<Pass<L>>), Stop>
    requires name { blank.name ≡ L.name }
    requires parts { blank.parts ≡ L.parts }
    requires unknown { (d : DurableState) → ¬ L.kept d }
    requires one_each { blank.parts ≡ plan.passes }
    ensures { IfOk result (λ p. p.0.passes ≡ L.parts) }
{
    let Some(layout) = layout_of(alloc, plan.sites, plan.seats, plan.problem) else {
        return Err(Stop::Memory);
    };
    let Some(keeper) = Fake::new(alloc, &layout, plan.site, store) else {
        return Err(Stop::Memory);
    };
    match Site::<Fake, L>::open(
        alloc,
        blank,
        keeper,
        layout,
        plan.site,
        plan.passes,
        plan.limit,
    ) {
        Ok(opened) => Ok(opened),
        Err((error, _keeper)) => Err(Stop::Opening(error)),
    }
}

// What the site answers to call `k`, by the passes in turn. There may be no memory for the call.
fn answer<L: Opening, R: Wait>(
    rt: &R,
    alloc: Global,
    site: &Site<Fake, L>,
    passes: &mut [Pass<L>],
    k: usize,
    asked: Asked,
) -> Numbers {
    if passes.is_empty() {
        return (0, 0, 0);
    }
    let at = k % passes.len();
    match call_of(alloc, asked) {
        Some(call) => called(rt, site, &mut passes[at], call),
        None => (0, 0, 0),
    }
}

// What the site answers to all calls.
fn answers<L: Opening, R: Wait>(
    rt: &R,
    alloc: Global,
    site: &Site<Fake, L>,
    passes: &mut [Pass<L>],
    all: &[Asked],
) -> Option<Vec<Numbers>> {
    let mut told = Vec::new(alloc);
    for (k, asked) in all.iter().enumerate() {
        told.push(answer(rt, alloc, site, passes, k, *asked)).ok()?;
    }
    Some(told)
}

// The replies in the receipts of all passes.
fn receipt_numbers<L: Opening>(alloc: Global, passes: &[Pass<L>]) -> Option<Vec<Numbers>> {
    let mut all = Vec::new(alloc);
    for pass in passes {
        for receipt in pass.receipts() {
            all.push(numbers(&receipt.reply)).ok()?;
        }
    }
    Some(all)
}

// How many passes have the mark of a full log, and how many that of a stopped site.
fn mark_counts<L: Opening>(passes: &[Pass<L>]) -> (u64, u64) {
    let mut full = 0u64;
    let mut frozen = 0u64;
    for pass in passes {
        full = full.saturating_add(u64::from(pass.was_full()));
        frozen = frozen.saturating_add(u64::from(pass.was_frozen()));
    }
    (full, frozen)
}

// Closes a site, again where the first closing found no memory.
fn closed<L: Opening, R: Wait>(
    rt: &R,
    site: Site<Fake, L>,
    passes: Vec<Pass<L>>,
) -> Option<(Transcript, Fake)>
    requires { site.passes ≡ L.parts }
{
    match site.close(rt, passes) {
        Ok(left) => Some(left),
        Err((CloseError::Memory, site, passes)) => site.close(rt, passes).ok(),
        Err(_) => None,
    }
}

// Closes a site without its last pass, and then with all.
fn closed_twice<L: Opening, R: Wait>(
    rt: &R,
    site: Site<Fake, L>,
    passes: Vec<Pass<L>>,
) -> Option<(CloseError, Transcript, Fake)>
    requires { site.passes ≡ L.parts }
{
    let mut passes = passes;
    let last = passes.pop()?;
    let Err((missing, site, mut passes)) = site.close(rt, passes) else {
        return None;
    };
    passes.push(last).ok()?;
    let (transcript, keeper) = closed(rt, site, passes)?;
    Some((missing, transcript, keeper))
}

fn opening_over<L: Opening + Send + Sync, R: Threads + Wait + Sync>(
    rt: &R,
    alloc: Global,
    blank: Blank,
    plan: Plan,
    store: Store,
    all: &[Asked],
) -> Result<Outcome, Stop>
    requires name { blank.name ≡ L.name }
    requires parts { blank.parts ≡ L.parts }
    requires unknown { (d : DurableState) → ¬ L.kept d }
    requires one_each { blank.parts ≡ plan.passes }
{
    let (site, mut passes) = opened::<L>(alloc, blank, plan, store)?;
    let seen = (site.site(), site.records(), site.layout().sites());
    if plan.in_threads {
        read_in_threads(rt, &site, passes.as_mut_slice());
    }
    let Some(told) = answers(rt, alloc, &site, passes.as_mut_slice(), all) else {
        return Err(Stop::Memory);
    };
    let Some(receipts) = receipt_numbers(alloc, passes.as_slice()) else {
        return Err(Stop::Memory);
    };
    let marks = mark_counts(passes.as_slice());
    let Some((missing, transcript, keeper)) = closed_twice(rt, site, passes) else {
        return Err(Stop::Closing);
    };
    Ok(Outcome {
        seen,
        told,
        receipts,
        marks,
        missing,
        transcript,
        keeper,
    })
}

/// Opens a site, makes the calls by its passes in turn, and closes it.
pub fn run_opening<R: Threads + Wait + Sync>(
    rt: &R,
    alloc: Global,
    plan: Plan,
    store: Store,
    all: &[Asked],
) -> Result<Outcome, Stop> {
    let blank = Blank::new(u64::from(plan.passes));
    opening_over::<Brand, R>(rt, alloc, blank, plan, store, all)
}
