//! A thread for each site of a run.
ghost use Rattle.std.specs.Prelude.{◌≡◌, ◌≤◌, true, [], IfOk, IfSome, map};
ghost use denote.Param.Send.{IsSync};
ghost use Rattle.run_engine.specs.Runs.{CameOfEach, GivesRun};
ghost use Rattle.run_engine.specs.Threads.{AreSiteThreads};

use crate::joins::join_all;
use crate::sites::{Job, run_site};
use session_book::Transcript;
use std::alloc::{AllocError, Global};
use std::snapshot::Snapshot;
use std::sync::Wait;
use std::thread;
use std::thread::{Promise, PromisedHandle, Scope, Threads};

/// What a site's thread promises: where it doesn't fail, it gives what the site leaves.
#[derive(Drop)]
pub struct SitePromise {
    job: Snapshot<Job>,
}

impl Promise<Result<Transcript, AllocError>> for SitePromise {
    ghost kept_by = { λ promise answer. GivesRun promise.job.value answer };
}

// The thread of a site.
type Handle = PromisedHandle<Result<Transcript, AllocError>, SitePromise>;

// Starts the thread of a site. Where it can't be started, the job is dropped, and with it the ends of the site's links.
fn start_job<'s, E, R: Threads + Wait + Sync>(
    scope: &Scope<'s, E>,
    rt: &'s R,
    alloc: Global,
    job: Job,
    turns: u64,
) -> Option<Handle>
    requires few { turns ≤ 1000000000 }
    ensures { IfSome result (λ handle. handle.promise.job.value ≡ job) }
{
    let promise = SitePromise {
        job: Snapshot::of(&job),
    };
    let work = move || -> Result<Transcript, AllocError>
        requires { turns ≤ 1000000000 }
        ensures { GivesRun job result }
    { run_site(rt, alloc, job, turns) };
    match scope.spawn_with(promise, work) {
        Ok(handle) => Some(handle),
        Err(_) => None,
    }
}

// Starts a thread for each job. Whether all were started. The first that can't be started, and those behind it, are dropped.
fn start_jobs<'s, E, R: Threads + Wait + Sync>(
    scope: &Scope<'s, E>,
    rt: &'s R,
    alloc: Global,
    jobs: Vec<Job>,
    turns: u64,
    handles: &mut Vec<Handle>,
) -> bool
    requires few { turns ≤ 1000000000 }
    requires none { handles.old.items ≡ [] }
    ensures { result ≡ true → AreSiteThreads jobs.items handles.new.items }
{
    for job in jobs {
        let Some(handle) = start_job(scope, rt, alloc, job, turns) else {
            return false;
        };
        let Ok(()) = handles.push(handle) else {
            return false;
        };
    }
    true
}

// Carries out the jobs in threads of a scope. The memory for their handles is taken before the first is started, and none is
// joined before each is started or dropped: a job that is kept back holds ends of links, for which others wait.
fn run_in_scope<'s, E, R: Threads + Wait + Sync>(
    scope: &Scope<'s, E>,
    rt: &'s R,
    alloc: Global,
    jobs: Vec<Job>,
    turns: u64,
) -> Result<Vec<Result<Transcript, AllocError>>, AllocError>
    requires few { turns ≤ 1000000000 }
    ensures { IfOk result (λ answers. CameOfEach jobs.items answers.items) }
{
    let mut handles = Vec::with_capacity(alloc, jobs.len())?;
    let all_started = start_jobs(scope, rt, alloc, jobs, turns, &mut handles);
    let answers = join_all(rt, handles)?;
    if !all_started {
        return Err(AllocError);
    }
    Ok(answers)
}

/// Carries out jobs, a thread for each, and gives what came of them, in order, once every one has ended. Where a thread can't
/// be started, its links are closed, so that all others end, and the answer is `Err`; so it is where memory is refused for
/// the threads' handles or for what they give back. May wait.
pub fn run_jobs<R: Threads + Wait + Sync>(
    rt: &R,
    alloc: Global,
    jobs: Vec<Job>,
    turns: u64,
) -> Result<Vec<Result<Transcript, AllocError>>, AllocError>
    requires few { turns ≤ 1000000000 }
    ensures { IfOk result (λ answers. CameOfEach jobs.items answers.items) }
{
    thread::scope(
        thread::scope_env(),
        rt,
        |scope| -> Result<Vec<Result<Transcript, AllocError>>, AllocError>
            requires { IsSync R.row × (turns ≤ 1000000000) }
            ensures { IfOk result (λ answers. CameOfEach jobs.items answers.items) }
        { run_in_scope(scope, rt, alloc, jobs, turns) },
    )
}
