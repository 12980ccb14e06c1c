//! What the threads of one site do: its caller, and a runner for each end of its links.
ghost use Rattle.std.specs.Prelude.{◌≡◌, ◌≤◌, true, [], All, IfOk, IfSome, length};
ghost use denote.Param.Send.{IsSend, IsSync};
ghost use Rattle.run_engine.specs.Gates.{always_answers};
ghost use Rattle.run_engine.specs.Tasks.{HasCalled, HasRunTask, HaveRun, IsReady};
ghost use Rattle.run_engine.specs.Threads.{AreTaskThreads, IsTaskThread};

use crate::callers::ask_all;
use crate::joins::join_all;
use admission_core::Ask;
use durable_keeper::Keeper;
use exchange_threads::{Gate, Port, run_port};
use session_book::{Opening, Pass, Site};
use std::alloc::{AllocError, Global};
use std::snapshot::Snapshot;
use std::sync::Wait;
use std::sync::ledger::Ledger;
use std::thread;
use std::thread::{Promise, PromisedHandle, Scope, Threads};

/// A gate that is open at every turn.
#[derive(Drop)]
pub struct AlwaysOpen;

impl Gate for AlwaysOpen {
    ghost answers = { always_answers };

    fn open(&mut self, _turn: u64) -> bool {
        true
    }
}

/// A caller: its pass, what it asks, and whether each reply was logged.
#[derive(Drop)]
pub struct Caller<L: Ledger> {
    pub pass: Pass<L>,
    pub asks: Vec<Ask>,
    pub answered: bool,
}

/// What one thread does.
#[derive(Drop)]
pub enum Task<L: Ledger> {
    Calls(Caller<L>),
    Link(Port<L, AlwaysOpen>),
}

/// Makes a caller's calls. May wait, for the site's lock.
pub fn run_caller<K: Keeper, L: Opening, R: Wait>(rt: &R, site: &Site<K, L>, caller: &mut Caller<L>)
    ensures { HasCalled caller.old caller.new }
{
    let Caller {
        pass,
        asks,
        answered,
    } = caller;
    *answered = ask_all(rt, site, pass, asks.as_slice());
}

// Carries out one task.
fn run_task<K: Keeper, L: Opening, R: Wait>(
    rt: &R,
    alloc: Global,
    site: &Site<K, L>,
    task: &mut Task<L>,
    turns: u64,
)
    requires few { turns ≤ 1000000000 }
    requires ready { IsReady task.old }
    ensures { HasRunTask (length site.now.layout.records) turns task.old task.new }
{
    match task {
        Task::Calls(caller) => run_caller(rt, site, caller),
        Task::Link(port) => run_port(rt, alloc, site, port, turns),
    }
}

// The same at a task of the caller's own.
fn carry_out<K: Keeper, L: Opening, R: Wait>(
    rt: &R,
    alloc: Global,
    site: &Site<K, L>,
    task: Task<L>,
    turns: u64,
) -> Task<L>
    requires few { turns ≤ 1000000000 }
    requires ready { IsReady task }
    ensures { HasRunTask (length site.now.layout.records) turns task result }
{
    let mut task = task;
    run_task(rt, alloc, site, &mut task, turns);
    task
}

/// What a task's thread promises: it gives the task back, carried out.
#[derive(Drop)]
pub struct TaskPromise<L: Ledger> {
    task: Snapshot<Task<L>>,
    records: u16,
    turns: u64,
}

impl<L: Ledger> Promise<Task<L>> for TaskPromise<L> {
    ghost kept_by = { λ promise task. HasRunTask promise.records promise.turns promise.task.value task };
}

// Starts the thread of a task. Where it can't be started, the task is dropped, and with it the end of its link.
fn start_task<'s, E, K: Keeper + Send, L: Opening + Send + Sync, R: Threads + Wait + Sync>(
    scope: &Scope<'s, E>,
    rt: &'s R,
    alloc: Global,
    site: &'s Site<K, L>,
    task: Task<L>,
    turns: u64,
) -> Option<PromisedHandle<Task<L>, TaskPromise<L>>>
    requires few { turns ≤ 1000000000 }
    requires ready { IsReady task }
    ensures { IfSome result (IsTaskThread (length site.now.layout.records) turns task) }
{
    let promise = TaskPromise {
        task: Snapshot::of(&task),
        records: site.records(),
        turns,
    };
    match scope.spawn_with(promise, move || carry_out(rt, alloc, site, task, turns)) {
        Ok(handle) => Some(handle),
        Err(_) => None,
    }
}

// Starts a thread for each task. Whether all were started. The first that can't be started, and those behind it, are dropped.
fn start_tasks<'s, E, K: Keeper + Send, L: Opening + Send + Sync, R: Threads + Wait + Sync>(
    scope: &Scope<'s, E>,
    rt: &'s R,
    alloc: Global,
    site: &'s Site<K, L>,
    tasks: Vec<Task<L>>,
    turns: u64,
    handles: &mut Vec<PromisedHandle<Task<L>, TaskPromise<L>>>,
) -> bool
    requires few { turns ≤ 1000000000 }
    requires ready { All IsReady tasks.items }
    requires none { handles.old.items ≡ [] }
    ensures { result ≡ true → AreTaskThreads (length site.now.layout.records) turns tasks.items handles.new.items }
{
    for task in tasks {
        let Some(handle) = start_task(scope, rt, alloc, site, task, turns) else {
            return false;
        };
        let Ok(()) = handles.push(handle) else {
            return false;
        };
    }
    true
}

// Carries out the tasks in threads of a scope. The memory for their handles is taken before the first is started, and none
// is joined before each is started or dropped: a task that is kept back holds an end of a link, for which others wait.
fn run_in_scope<'s, E, K: Keeper + Send, L: Opening + Send + Sync, R: Threads + Wait + Sync>(
    scope: &Scope<'s, E>,
    rt: &'s R,
    alloc: Global,
    site: &'s Site<K, L>,
    tasks: Vec<Task<L>>,
    turns: u64,
) -> Result<Vec<Task<L>>, AllocError>
    requires few { turns ≤ 1000000000 }
    requires ready { All IsReady tasks.items }
    ensures { IfOk result (λ done. HaveRun (length site.now.layout.records) turns tasks.items done.items) }
{
    let mut handles = Vec::with_capacity(alloc, tasks.len())?;
    let all_started = start_tasks(scope, rt, alloc, site, tasks, turns, &mut handles);
    let done = join_all(rt, handles)?;
    if !all_started {
        return Err(AllocError);
    }
    Ok(done)
}

/// Carries out the tasks of a site, a thread for each, and gives them back once every one has ended. Where a thread can't be
/// started, its links are closed, so that all others end, and the answer is `Err`; so it is where memory is refused for
/// the threads' handles or for what they give back. May wait.
pub fn run_tasks<K: Keeper + Send, L: Opening + Send + Sync, R: Threads + Wait + Sync>(
    rt: &R,
    alloc: Global,
    site: &Site<K, L>,
    tasks: Vec<Task<L>>,
    turns: u64,
) -> Result<Vec<Task<L>>, AllocError>
    requires few { turns ≤ 1000000000 }
    requires ready { All IsReady tasks.items }
    ensures { IfOk result (λ done. HaveRun (length site.now.layout.records) turns tasks.items done.items) }
{
    thread::scope(
        thread::scope_env(),
        rt,
        |scope| -> Result<Vec<Task<L>>, AllocError>
            requires { IsSend K.row × IsSend L.row × IsSync L.row × IsSync R.row × (turns ≤ 1000000000) × All IsReady tasks.items }
            ensures { IfOk result (λ done. HaveRun (length site.entry.now.layout.records) turns tasks.items done.items) }
        { run_in_scope(scope, rt, alloc, site, tasks, turns) },
    )
}
