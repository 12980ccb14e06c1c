//! The sites of a run: each is opened, works, and is closed on a thread of its own.
ghost use Rattle.std.specs.Prelude.{◌≡◌, ℕ, ◌+◌, ◌≤◌, ◌<◌, List, ◌++◌, ◌∷◌, [], All, IfOk, length};
ghost use Rattle.admission_core.specs.Kept.{DurableState};
ghost use Rattle.session_book.specs.Passes.{new_pass};
ghost use Rattle.session_book.specs.Sites.{new_passes};
ghost use Rattle.admission_model.specs.declared.ask.Ask.{Ask as AskThere};
ghost use Rattle.run_engine.specs.Tasks.{EndsInCaller, EndsInCalled, IsReady};
ghost use Rattle.run_engine.specs.Scripts.{asks_of};
ghost use Rattle.run_engine.specs.Callers.{HasAsked};
ghost use Rattle.run_engine.specs.Runs.{AreAnswers, AreJobs, AreSiteRuns, IsClosedWith, IsOpenedFor, IsSiteRun};

use crate::links::{Ends, ends_of};
use crate::pairs::run_two;
use crate::script::Asked;
use crate::site_threads::run_jobs;
use crate::tasks::{Caller, Task, run_tasks};
use admission_core::Ask;
use durable_keeper::MemoryKeeper;
use exchange_threads::Port;
use merge_core::Layout;
use session_book::{Opening, Pass, Site, Transcript};
use std::alloc::{AllocError, Global};
use std::marker::Brand;
use std::sync::Wait;
use std::sync::ledger::Blank;
use std::thread::Threads;

// How many calls the log of a site has places for: more than a script of the most lines and runners of the most turns make.
const LOG_PLACES: usize = 65_536;

/// A site that is to run: what a script asks of it, and the ends of its links.
#[derive(Drop)]
pub struct Job {
    pub layout: Layout,
    pub site: u16,
    pub asks: Vec<Ask>,
    pub ends: Ends,
}

/// Carries out a script at all sites of a layout at the same time, each over a new keeper in memory, with links between all
/// whose runners take so many turns, at most 10^9. What each site leaves, in order of sites, once all have ended. `Err`
/// where memory was refused outside a runner's turn. Where a thread can't be started, its links are closed, so that all
/// others end, and the answer is `Err`; only at two sites are the tasks then carried out one after another, of which none
/// waits for a later one. May wait.
pub fn run_sites<R: Threads + Wait + Sync>(
    rt: &R,
    alloc: Global,
    layout: &Layout,
    turns: u64,
    asked: &[Asked],
) -> Result<Vec<Transcript>, AllocError>
    requires few { turns ≤ 1000000000 }
    ensures { IfOk result (λ transcripts. AreSiteRuns layout.now asked.now transcripts.items) }
{
    if layout.sites() == 2 {
        return run_two(rt, alloc, layout, turns, asked);
    }
    let jobs = jobs_of(alloc, layout, asked)?;
    let answers = run_jobs(rt, alloc, jobs, turns)?;
    all_answers(alloc, answers)
}

// A job for each site of a layout, in order of sites.
fn jobs_of(alloc: Global, layout: &Layout, asked: &[Asked]) -> Result<Vec<Job>, AllocError>
    ensures { IfOk result (λ jobs. AreJobs layout.now asked.now jobs.items) }
{
    let mut all_ends = ends_of(alloc, layout)?;
    let mut jobs = Vec::new(alloc);
    'sites: for site in 0..layout.sites() {
        let Some(ends) = all_ends.pop() else {
            return Err(AllocError);
        };
        jobs.push(Job {
            layout: layout.try_copy(alloc)?,
            site,
            asks: asks_of(alloc, site, asked)?,
            ends,
        })?;
    }
    Ok(jobs)
}

/// What a script asks of a site.
pub fn asks_of(alloc: Global, site: u16, asked: &[Asked]) -> Result<Vec<Ask>, AllocError>
    ensures { IfOk result (λ asks. asks.items ≡ asks_of site asked.now) }
{
    let mut asks = Vec::new(alloc);
    let mut rest = asked;
    'asked: while let [one, later @ ..] = rest {
        if one.site == site {
            asks.push(one.ask)?;
        }
        rest = later;
    }
    Ok(asks)
}

// The transcripts, where there is one of each job.
fn all_answers(
    alloc: Global,
    answers: Vec<Result<Transcript, AllocError>>,
) -> Result<Vec<Transcript>, AllocError>
    ensures { IfOk result (λ transcripts. AreAnswers answers.items transcripts.items) }
{
    let mut all = Vec::new(alloc);
    'answers: for answer in answers {
        all.push(answer?)?;
    }
    Ok(all)
}

/// Opens a site, has it run, and closes it. On every path the ends of its links are dropped before it returns.
pub fn run_site<R: Threads + Wait + Sync>(
    rt: &R,
    alloc: Global,
    job: Job,
    turns: u64,
) -> Result<Transcript, AllocError>
    requires few { turns ≤ 1000000000 }
    ensures { IfOk result (IsSiteRun job.layout job.site job.asks.items) }
{
    let Ok(links) = u16::try_from(job.ends.len()) else {
        return Err(AllocError);
    };
    let Some(passes) = links.checked_add(1) else {
        return Err(AllocError);
    };
    let blank = Blank::new(u64::from(passes));
    run_over::<Brand, R>(rt, alloc, blank, passes, job, turns)
}

// The same over the ledger of this opening.
fn run_over<L: Opening + Send + Sync, R: Threads + Wait + Sync>(
    rt: &R,
    alloc: Global,
    blank: Blank,
    passes: u16,
    job: Job,
    turns: u64,
) -> Result<Transcript, AllocError>
    requires name { blank.name ≡ L.name }
    requires parts { blank.parts ≡ L.parts }
    requires unknown { (d : DurableState) → ¬ L.kept d }
    requires one_each { blank.parts ≡ passes }
    requires all { passes ≡ length job.ends.items + 1 }
    requires few { turns ≤ 1000000000 }
    ensures { IfOk result (IsSiteRun job.layout job.site job.asks.items) }
{
    let Job {
        layout,
        site: number,
        asks,
        ends,
    } = job;
    let (site, all) = opened::<L>(alloc, blank, layout, number, passes)?;
    let tasks = tasks_of(alloc, all, asks, ends)?;
    let mut done = run_tasks(rt, alloc, &site, tasks, turns)?;
    let pass = caller_pass(&mut done)?;
    closed(rt, alloc, site, pass, done)
}

/// A site over a new keeper in memory, and its passes.
pub fn opened<L: Opening>(
    alloc: Global,
    blank: Blank,
    layout: Layout,
    number: u16,
    passes: u16,
) -> Result<(Site<MemoryKeeper, L>, Vec<Pass<L>>), AllocError>
    requires name { blank.name ≡ L.name }
    requires parts { blank.parts ≡ L.parts }
    requires unknown { (d : DurableState) → ¬ L.kept d }
    requires one_each { blank.parts ≡ passes }
    ensures { IfOk result (λ opened. IsOpenedFor layout number passes opened.0 opened.1.items) }
{
    let keeper = MemoryKeeper::new(alloc, &layout, number)?;
    match Site::<MemoryKeeper, L>::open(alloc, blank, keeper, layout, number, passes, LOG_PLACES) {
        Ok(opened) => Ok(opened),
        Err(_) => Err(AllocError),
    }
}

// A task for each end, each with a pass, and behind them the caller's, with pass 0.
fn tasks_of<L: Opening>(
    alloc: Global,
    passes: Vec<Pass<L>>,
    asks: Vec<Ask>,
    ends: Ends,
) -> Result<Vec<Task<L>>, AllocError>
    requires { passes.items ≡ new_passes (length ends.items + 1) }
    ensures ready { IfOk result (λ tasks. All IsReady tasks.items) }
    ensures last { IfOk result (λ tasks. EndsInCaller asks.items tasks.items) }
{
    let mut passes = passes;
    let mut ends = ends;
    let mut tasks = Vec::new(alloc);
    'ends: while let Some(end) = ends.pop() {
        let Some(pass) = passes.pop() else {
            return Err(AllocError);
        };
        let link = Some(end);
        let report = None;
        tasks.push(Task::Link(Port { pass, link, report }))?;
    }
    let Some(pass) = passes.pop() else {
        return Err(AllocError);
    };
    let answered = false;
    tasks.push(Task::Calls(Caller {
        pass,
        asks,
        answered,
    }))?;
    Ok(tasks)
}

// The caller's pass, which is taken out of its task behind all others, where each reply was logged.
fn caller_pass<L: Opening>(tasks: &mut Vec<Task<L>>) -> Result<Pass<L>, AllocError>
    ensures { IfOk result (λ pass. (asks : List AskThere) → EndsInCalled asks tasks.old.items → HasAsked asks (new_pass 0) pass) }
{
    let Some(Task::Calls(caller)) = tasks.pop() else {
        return Err(AllocError);
    };
    let Caller {
        pass,
        asks: _,
        answered,
    } = caller;
    if !answered {
        return Err(AllocError);
    }
    Ok(pass)
}

// Closes a site: what it leaves.
fn closed<L: Opening, R: Wait>(
    rt: &R,
    alloc: Global,
    site: Site<MemoryKeeper, L>,
    pass: Pass<L>,
    tasks: Vec<Task<L>>,
) -> Result<Transcript, AllocError>
    ensures { IfOk result (IsClosedWith site pass) }
{
    let mut passes = link_passes(alloc, tasks)?;
    passes.push(pass)?;
    match site.close(rt, passes) {
        Ok((transcript, _keeper)) => Ok(transcript),
        Err(_) => Err(AllocError),
    }
}

// The passes of tasks.
fn link_passes<L: Opening>(alloc: Global, tasks: Vec<Task<L>>) -> Result<Vec<Pass<L>>, AllocError> {
    let mut passes = Vec::new(alloc);
    for task in tasks {
        let pass = match task {
            Task::Calls(caller) => caller.pass,
            Task::Link(port) => port.pass,
        };
        passes.push(pass)?;
    }
    Ok(passes)
}
