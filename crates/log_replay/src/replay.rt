//! The transcript of one site, replayed from the start.
ghost use Rattle.std.specs.Prelude.{◌≡◌, ℕ, ◌<◌, ◌+◌, ◌∷◌, [], List, IfOk, length};
ghost use Rattle.desk_log.specs.declared.transcript.Run.{Run as RunThere};
ghost use Rattle.admission_model.specs.Account.{Account};
ghost use Rattle.admission_core.specs.Core.{Stands};
ghost use Rattle.log_replay.specs.Legal.{started, after_run};
ghost use Rattle.log_replay.specs.Replay.{tried_at, IsGood, IsMarked, IsNext, IsOnPath, IsRunEnd, IsReplayed, IsStep, TellsOwn};

use crate::entries::{Mark, follow_past, may_end};
use crate::joint::{begun_core, first_core};
use crate::own::{OwnRows, own_rows};
use admission_core::SiteCore;
use desk_log::{Entry, Run};
use merge_core::Layout;
use std::alloc::{AllocError, Global};
use std::marker::Model;

/// For each run of a transcript, whether its call in doubt was carried out.
#[derive(Debug, Drop)]
pub struct Flags {
    items: Vec<bool>,
}

// Contracts see the list.
impl Model for Flags {
    ghost use Rattle.std.specs.Prelude.{Bool, List};

    ghost Value = { List Bool };

    ghost view = { λ f. f.items.items };
}

impl Flags {
    ghost use Rattle.std.specs.Prelude.{◌≡◌};

    /// The flags.
    pub fn as_slice(&self) -> &[bool]
        ensures { result.now ≡ self.now }
    {
        self.items.as_slice()
    }
}

/// What is kept of a legal transcript: the own rows at the cut, and for each run whether its call in doubt was
/// carried out.
#[derive(Debug, Drop)]
pub struct History {
    pub own: OwnRows,
    pub kept: Flags,
}

/// What came of a transcript: what is kept of it, or its first fault.
#[derive(Debug, Drop)]
pub enum Replayed {
    Legal(History),
    BadJoint,
    BadReply(u64),
}

/// How a run ended: with the first entry that cannot stand, before a run that does not begin where it left the site,
/// or with the core for what comes next and whether its call in doubt was carried out.
#[derive(Debug, Drop)]
pub(crate) enum RunEnd {
    NoReply(usize),
    NoJoint,
    Passed(SiteCore, bool),
}

/// What is carried along a transcript: how far the cut is, and of the runs so far, which calls in doubt were carried out and
/// how many entries there are.
#[derive(Debug, Drop)]
pub(crate) struct Trail {
    pub mark: Mark,
    pub kept: Vec<bool>,
    pub at: u64,
}

/// How it goes on behind a run: with the core for what comes next, or not at all.
#[derive(Debug, Drop)]
pub(crate) enum Step {
    Goes(SiteCore),
    Ends(Replayed),
}

// The sum of two numbers of entries. No memory holds so many that it does not fit.
fn sum(at: u64, n: usize) -> Result<u64, AllocError>
    ensures { IfOk result (λ m. m ≡ at + n) }
{
    match at.checked_add(n as u64) {
        Some(m) => Ok(m),
        None => Err(AllocError),
    }
}

// What comes after a run that may end: the core before the next one, if that begins where the site was.
fn next_core(
    alloc: Global,
    layout: &Layout,
    core: SiteCore,
    left: &[Entry],
    later: &[Run],
) -> Result<RunEnd, AllocError>
    requires { core.layout.records ≡ layout.now.records }
    ensures { IfOk result (λ end. (a : Account) → Stands a core → IsNext layout.now core.site a (tried_at a left.now) later.now end) }
{
    let [run, ..] = later else {
        return Ok(RunEnd::Passed(core, false));
    };
    match begun_core(alloc, layout, core, left, run)? {
        Some((next, kept)) => Ok(RunEnd::Passed(next, kept)),
        None => Ok(RunEnd::NoJoint),
    }
}

// Replays a run at its core, which these runs follow.
fn replay_run(
    alloc: Global,
    layout: &Layout,
    core: SiteCore,
    run: &Run,
    later: &[Run],
    mark: &mut Mark,
) -> Result<RunEnd, AllocError>
    requires there { (a : Account) × Stands a core }
    requires records { core.layout.records ≡ layout.now.records }
    ensures end { IfOk result (λ end. (a : Account) → Stands (started a run.now) core → IsRunEnd layout.now core.site a run.now later.now end) }
    ensures mark { IfOk result (λ end. (a target : Account) → Stands (started a run.now) core → IsGood end
        → IsMarked (length layout.now.records) target a (run.now ∷ later.now) mark.old.left mark.old.own
        → IsMarked (length layout.now.records) target (after_run a run.now later.now) later.now mark.new.left mark.new.own) }
{
    let mut core = core;
    let entries = run.entries.as_slice();
    let n = follow_past(alloc, &mut core, entries, mark)?;
    let left = &entries[n..];
    if !may_end(&mut core, left)? {
        return Ok(RunEnd::NoReply(n));
    }
    next_core(alloc, layout, core, left, later)
}

// Replays a run at its core, and goes on to the next one.
fn replay_next(
    alloc: Global,
    layout: &Layout,
    core: SiteCore,
    run: &Run,
    later: &[Run],
    trail: &mut Trail,
) -> Result<Step, AllocError>
    requires { (i : ℕ) × (runs : List RunThere) × (cut : ℕ) × IsOnPath layout.now i runs cut (run.now ∷ later.now) core trail.old.kept.items trail.old.at trail.old.mark.left trail.old.mark.own }
    ensures { IfOk result (λ step. (i : ℕ) (runs : List RunThere) (cut : ℕ)
        → IsOnPath layout.now i runs cut (run.now ∷ later.now) core trail.old.kept.items trail.old.at trail.old.mark.left trail.old.mark.own
        → IsStep layout.now i runs cut later.now trail.new.kept.items trail.new.at trail.new.mark.left trail.new.mark.own step) }
{
    match replay_run(alloc, layout, core, run, later, &mut trail.mark)? {
        RunEnd::NoReply(n) => Ok(Step::Ends(Replayed::BadReply(sum(trail.at, n)?))),
        RunEnd::NoJoint => Ok(Step::Ends(Replayed::BadJoint)),
        RunEnd::Passed(next, was_kept) => {
            trail.at = sum(trail.at, run.entries.len())?;
            trail.kept.push(was_kept)?;
            Ok(Step::Goes(next))
        }
    }
}

/// Replays a transcript with a cut through it; one core is held. Linear in the entries, a merge in its rows and a snapshot
/// in the layout's slots; for each run linear in the layout's slots, and `n log n` in the sessions that it begins with.
pub fn replay_runs(
    alloc: Global,
    layout: &Layout,
    site: u16,
    runs: &[Run],
    cut: u64,
) -> Result<Replayed, AllocError>
    requires { site < layout.now.sites }
    ensures { IfOk result (IsReplayed layout.now site runs.now cut) }
{
    let Some(mut core) = first_core(alloc, layout, site, runs)? else {
        return Ok(Replayed::BadJoint);
    };
    let mut trail = Trail {
        mark: Mark {
            left: cut,
            own: None,
        },
        kept: Vec::new(alloc),
        at: 0,
    };
    let mut rest = runs;
    'runs: while let [run, later @ ..] = rest {
        match replay_next(alloc, layout, core, run, later, &mut trail)? {
            Step::Goes(next) => core = next,
            Step::Ends(replayed) => return Ok(replayed),
        }
        rest = later;
    }
    let own = own_at_end(alloc, &core, trail.mark)?;
    let kept = Flags { items: trail.kept };
    Ok(Replayed::Legal(History { own, kept }))
}

// The own rows at the cut, which is at the end where none were taken before.
fn own_at_end(alloc: Global, core: &SiteCore, mark: Mark) -> Result<OwnRows, AllocError>
    requires { (a : Account) × Stands a core.now }
    ensures { IfOk result (λ own. (a target : Account) → Stands a core.now → IsMarked (length core.now.layout.records) target a [] mark.left mark.own
        → TellsOwn (length core.now.layout.records) own target) }
{
    match mark.own {
        Some(own) => Ok(own),
        None => own_rows(alloc, core),
    }
}
