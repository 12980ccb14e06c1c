//! The transcript of one site, replayed entry by entry as it comes.
ghost use Rattle.std.specs.Prelude.{◌≡◌, ◌≢◌, ◌+◌, ◌<◌, ◌≤◌, ◌∷◌, [], None, false, true, ℕ, List, IfOk, IsSome, IsTrue, MatchOption, if◌then◌else◌, length};
ghost use Rattle.merge_core.specs.Layout.{LayoutState};
ghost use Rattle.merge_core.specs.declared.cell.Cell.{Cell as CellThere};
ghost use Rattle.merge_core.specs.Rows.{counter_in, counters_of};
ghost use Rattle.admission_model.specs.Account.{Account, own};
ghost use Rattle.admission_core.specs.Core.{Core as CoreThere, Stands};
ghost use Rattle.desk_log.specs.declared.entry.Entry.{Entry as EntryThere};
ghost use Rattle.desk_log.specs.declared.transcript.Run.{Run as RunThere};
ghost use Rattle.desk_log.specs.Log.{is_fault};
ghost use Rattle.log_replay.specs.Legal.{start_account, account_at};
ghost use Rattle.log_replay.specs.Replay.{TellsOwn};
ghost use Rattle.log_replay.specs.declared.stream.Stage.{Stage as StageThere};
ghost use Rattle.log_replay.specs.declared.stream.Stage.TheVariants.{Ended as EndedThere};
ghost use Rattle.log_replay.specs.Stream.{CarriesOut, HasEnded, IsClear, IsDoubted, IsDoubtKept, IsHandedBack, IsInRun, IsMarkedAt, IsReplaying, IsSettled, IsShownBy, IsStage, IsTried, count_of, left_of, length_by, stage_behind, stage_or};

use crate::done::{is_done_by, is_done_in};
use crate::entries::{follow_one, may_end};
use crate::joint::{begun_core, first_core};
use crate::own::{OwnRows, no_rows, own_rows};
use admission_core::{Durable, SiteCore};
use desk_log::{Entries, Entry, Run};
use merge_core::{Layout, Row};
use std::alloc::{AllocError, Global};
use std::mem;

/// The first fault of a transcript.
#[derive(Clone, Copy, Debug, PartialEq, Eq)]
pub enum LogFault {
    /// A run does not begin where the site was.
    BadJoint,
    /// The entry of this number can't stand.
    BadReply(u64),
}

/// How far the replay of a site has come.
#[derive(Debug, Drop)]
pub enum Stage {
    /// No run has begun.
    Fresh,
    /// A run has begun: its core, and the last entry where that is in doubt.
    Open(SiteCore, Vec<Entry>),
    /// There is a fault.
    Ended(LogFault),
}

/// The replay of a site, up to some entry.
#[derive(Debug, Drop)]
pub struct SiteReplay {
    /// How many entries are before the cut, if it is not at the end.
    pub cut: Option<u64>,
    /// How many entries there were.
    pub at: u64,
    /// How many runs there were.
    pub runs: u64,
    /// The own rows at the cut, where that is behind.
    pub own: Option<OwnRows>,
    /// How far it has come.
    pub stage: Stage,
}

// One more. No memory holds so many that it does not fit.
fn one_more(n: u64) -> Result<u64, AllocError>
    ensures { IfOk result (λ m. m ≡ n + 1) }
{
    match n.checked_add(1) {
        Some(m) => Ok(m),
        None => Err(AllocError),
    }
}

// The stage once the first run has begun.
fn first_stage(alloc: Global, layout: &Layout, site: u16, run: &[Run]) -> Result<Stage, AllocError>
    requires { site < layout.now.sites }
    ensures stage { IfOk result (λ stage. (it : RunThere) → run.now ≡ it ∷ [] → (es : List EntryThere) (later : List RunThere)
        → IsStage layout.now site (record it { entries = es } ∷ later) es later 0 stage) }
    ensures none { IfOk result (λ stage. left_of stage ≡ []) }
{
    match first_core(alloc, layout, site, run)? {
        Some(core) => Ok(Stage::Open(core, Vec::new(alloc))),
        None => Ok(Stage::Ended(LogFault::BadJoint)),
    }
}

// The stage once a run has begun behind another one, and the call that was in doubt, if it was carried out.
fn next_stage(
    alloc: Global,
    layout: &Layout,
    core: SiteCore,
    left: Vec<Entry>,
    run: &Run,
) -> Result<(Stage, Vec<Entry>), AllocError>
    requires { (i : ℕ) × (runs : List RunThere) × (es : List EntryThere) × (later : List RunThere) × (at : ℕ)
        × IsInRun layout.now i runs [] (record run.now { entries = es } ∷ later) core left.items at }
    ensures stage { IfOk result (λ x. (i : ℕ) (runs : List RunThere) (es : List EntryThere) (later : List RunThere) (at : ℕ)
        → IsInRun layout.now i runs [] (record run.now { entries = es } ∷ later) core left.items at → IsStage layout.now i runs es later at x.0) }
    ensures none { IfOk result (λ x. left_of x.0 ≡ []) }
    ensures idle { IfOk result (λ x. left.items ≡ [] → x.1.items ≡ []) }
    ensures kept { IfOk result (λ x. (i : ℕ) (runs : List RunThere) (es : List EntryThere) (later : List RunThere) (at : ℕ) (d : EntryThere)
        → left.items ≡ d ∷ [] → IsInRun layout.now i runs [] (record run.now { entries = es } ∷ later) core left.items at
        → (¬ HasEnded x.0) → IsSettled layout.now i runs (record run.now { entries = es } ∷ later) at d x.1.items) }
{
    match begun_core(alloc, layout, core, left.as_slice(), run)? {
        Some((next, kept)) => Ok((
            Stage::Open(next, Vec::new(alloc)),
            kept_entries(alloc, kept, left),
        )),
        None => Ok((Stage::Ended(LogFault::BadJoint), Vec::new(alloc))),
    }
}

// The entries, if they are kept.
fn kept_entries(alloc: Global, kept: bool, entries: Vec<Entry>) -> Vec<Entry>
    ensures { result.items ≡ (if kept then entries.items else []) }
{
    if kept {
        return entries;
    }
    Vec::new(alloc)
}

// The same behind any stage.
fn begun_stage(
    alloc: Global,
    layout: &Layout,
    site: u16,
    stage: Stage,
    run: &[Run],
) -> Result<(Stage, Vec<Entry>), AllocError>
    requires site { site < layout.now.sites }
    requires there { (it : RunThere) × (run.now ≡ it ∷ []) × ((runs : List RunThere) × (es : List EntryThere) × (later : List RunThere) × (at : ℕ)
        × IsStage layout.now site runs [] (record it { entries = es } ∷ later) at stage) }
    ensures stage { IfOk result (λ x. (it : RunThere) → run.now ≡ it ∷ [] → (runs : List RunThere) (es : List EntryThere) (later : List RunThere) (at : ℕ)
        → IsStage layout.now site runs [] (record it { entries = es } ∷ later) at stage → IsStage layout.now site runs es later at x.0) }
    ensures none { IfOk result (λ x. left_of x.0 ≡ []) }
    ensures idle { IfOk result (λ x. left_of stage ≡ [] → x.1.items ≡ []) }
    ensures kept { IfOk result (λ x. (it : RunThere) → run.now ≡ it ∷ [] → (runs : List RunThere) (es : List EntryThere) (later : List RunThere) (at : ℕ) (d : EntryThere)
        → left_of stage ≡ d ∷ [] → IsStage layout.now site runs [] (record it { entries = es } ∷ later) at stage
        → (¬ HasEnded x.0) → IsSettled layout.now site runs (record it { entries = es } ∷ later) at d x.1.items) }
    ensures ended { IfOk result (λ x. HasEnded stage → HasEnded x.0) }
{
    match stage {
        Stage::Fresh => {
            let first = first_stage(alloc, layout, site, run)?;
            Ok((first, Vec::new(alloc)))
        }
        Stage::Open(core, left) => next_stage(alloc, layout, core, left, &run[0]),
        Stage::Ended(fault) => Ok((Stage::Ended(fault), Vec::new(alloc))),
    }
}

// An entry whose reply is not the model's is in doubt, or can't stand: the fault then.
fn doubted(
    core: &mut SiteCore,
    left: &mut Vec<Entry>,
    entry: Entry,
    at: u64,
) -> Result<Option<LogFault>, AllocError>
    requires { left.old.items ≡ [] }
    ensures answer { IfOk result (λ fault. (a : Account) → (is_fault entry.reply ≡ true → Stands a core.old) → IsDoubted a entry (stage_behind core.new left.new fault)) }
    ensures kept { IfOk result (λ fault. IsDoubtKept entry at (stage_behind core.new left.new fault)) }
{
    left.push(entry)?;
    if may_end(core, left.as_slice())? {
        return Ok(None);
    }
    Ok(Some(LogFault::BadReply(at)))
}

// Follows one entry more, unless a call is in doubt: whether its reply is the model's.
fn followed(core: &mut SiteCore, left: &[Entry], entry: &Entry) -> Result<bool, AllocError>
    ensures clear { IfOk result (λ ok. left.now ≡ [] → CarriesOut core.old core.new entry.now ok) }
    ensures doubt { IfOk result (λ ok. left.now ≢ [] → (ok ≡ false) × (core.new ≡ core.old)) }
{
    if !left.is_empty() {
        return Ok(false);
    }
    follow_one(core, entry)
}

// The same at any stage.
fn followed_at(stage: &mut Stage, entry: &Entry) -> Result<bool, AllocError>
    ensures { IfOk result (λ ok. IsTried stage.old entry.now ok stage.new) }
{
    match stage {
        Stage::Open(core, left) => followed(core, left.as_slice(), entry),
        Stage::Fresh => Ok(false),
        Stage::Ended(_) => Ok(false),
    }
}

// An entry that was tried in vain is in doubt, or can't stand: the fault then.
fn refused(
    core: &mut SiteCore,
    left: &mut Vec<Entry>,
    entry: Entry,
    at: u64,
) -> Result<Option<LogFault>, AllocError>
    ensures stage { IfOk result (λ fault. (before : CoreThere) → (left.old.items ≡ [] → CarriesOut before core.old entry false) → (left.old.items ≢ [] → core.old ≡ before)
        → (layout : LayoutState) (i : ℕ) (runs : List RunThere) (more : List EntryThere) (later : List RunThere)
        → IsInRun layout i runs (entry ∷ more) later before left.old.items at → IsStage layout i runs more later (at + 1) (stage_behind core.new left.new fault)) }
    ensures back { IfOk result (λ fault. IsHandedBack entry (stage_behind core.new left.new fault) None) }
    ensures free { IfOk result (λ fault. (¬ HasEnded (stage_behind core.new left.new fault)) → left.old.items ≡ []) }
{
    if !left.is_empty() {
        return Ok(Some(LogFault::BadReply(at.saturating_sub(1))));
    }
    doubted(core, left, entry, at)
}

// The same at any stage.
fn refused_at(stage: &mut Stage, entry: Entry, at: u64) -> Result<Option<LogFault>, AllocError>
    ensures stage { IfOk result (λ fault. (before : StageThere) → IsTried before entry false stage.old
        → (layout : LayoutState) (i : ℕ) (runs : List RunThere) (more : List EntryThere) (later : List RunThere)
        → IsStage layout i runs (entry ∷ more) later at before → IsStage layout i runs more later (at + 1) (stage_or stage.new fault)) }
    ensures back { IfOk result (λ fault. IsHandedBack entry (stage_or stage.new fault) None) }
    ensures free { IfOk result (λ fault. (¬ HasEnded (stage_or stage.new fault)) → left_of stage.old ≡ []) }
    ensures ended { IfOk result (λ fault. HasEnded stage.old → HasEnded (stage_or stage.new fault)) }
{
    match stage {
        Stage::Open(core, left) => refused(core, left, entry, at),
        Stage::Fresh => Ok(None),
        Stage::Ended(_) => Ok(None),
    }
}

// Keeps such an entry as the one in doubt, or ends the run there.
fn refuse_at(stage: &mut Stage, entry: Entry, at: u64) -> Result<(), AllocError>
    ensures stage { IfOk result (λ _. (before : StageThere) → IsTried before entry false stage.old
        → (layout : LayoutState) (i : ℕ) (runs : List RunThere) (more : List EntryThere) (later : List RunThere)
        → IsStage layout i runs (entry ∷ more) later at before → IsStage layout i runs more later (at + 1) stage.new) }
    ensures back { IfOk result (λ _. IsHandedBack entry stage.new None) }
    ensures free { IfOk result (λ _. (¬ HasEnded stage.new) → left_of stage.old ≡ []) }
    ensures ended { IfOk result (λ _. HasEnded stage.old → HasEnded stage.new) }
{
    if let Some(fault) = refused_at(stage, entry, at)? {
        *stage = Stage::Ended(fault);
    }
    Ok(())
}

impl SiteReplay {
    /// Before the first run.
    pub fn new(cut: Option<u64>) -> SiteReplay
        ensures replaying { (layout : LayoutState) (i : ℕ) (runs : List RunThere) → IsReplaying layout i runs [] runs result }
        ensures cut { result.cut ≡ cut }
        ensures start { result.at ≡ 0 }
        ensures none { left_of result.stage ≡ [] }
    {
        SiteReplay {
            cut,
            at: 0,
            runs: 0,
            own: None,
            stage: Stage::Fresh,
        }
    }

    /// A run begins. The call that was in doubt is handed back, if it was carried out, as the run shows.
    pub fn begin_run(
        &mut self,
        alloc: Global,
        layout: &Layout,
        site: u16,
        sites: u16,
        first: Durable,
    ) -> Result<Vec<Entry>, AllocError>
        requires site { site < layout.now.sites }
        requires there { (runs : List RunThere) × (es : List EntryThere) × (later : List RunThere)
            × IsReplaying layout.now site runs [] (record { sites = sites; first = first; entries = es } ∷ later) self.old }
        ensures replaying { IfOk result (λ kept. (runs : List RunThere) (es : List EntryThere) (later : List RunThere)
            → IsReplaying layout.now site runs [] (record { sites = sites; first = first; entries = es } ∷ later) self.old
            → IsReplaying layout.now site runs es later self.new) }
        ensures none { IfOk result (λ kept. left_of self.new.stage ≡ []) }
        ensures idle { IfOk result (λ kept. left_of self.old.stage ≡ [] → kept.items ≡ []) }
        ensures kept { IfOk result (λ kept. (runs : List RunThere) (es : List EntryThere) (later : List RunThere) (d : EntryThere)
            → left_of self.old.stage ≡ d ∷ [] → IsReplaying layout.now site runs [] (record { sites = sites; first = first; entries = es } ∷ later) self.old
            → (¬ HasEnded self.new.stage) → IsSettled layout.now site runs (record { sites = sites; first = first; entries = es } ∷ later) self.old.at d kept.items) }
        ensures ended { IfOk result (λ kept. HasEnded self.old.stage → HasEnded self.new.stage) }
        ensures counts { IfOk result (λ kept. (self.new.cut ≡ self.old.cut) × (self.new.at ≡ self.old.at)) }
    {
        let run = [Run {
            sites,
            first,
            entries: Entries::from_vec(Vec::new(alloc)),
        }];
        self.runs = one_more(self.runs)?;
        let stage = mem::replace(&mut self.stage, Stage::Fresh);
        let (stage, kept) = begun_stage(alloc, layout, site, stage, &run)?;
        self.stage = stage;
        Ok(kept)
    }

    // Takes the own rows, where the cut is here.
    #[inline(always)]
    fn mark_cut(&mut self, alloc: Global) -> Result<(), AllocError>
        requires { (layout : LayoutState) × (i : ℕ) × (runs : List RunThere) × (e : EntryThere) × (more : List EntryThere) × (later : List RunThere)
            × IsReplaying layout i runs (e ∷ more) later self.old }
        ensures same { IfOk result (λ _. (self.new.cut ≡ self.old.cut) × ((self.new.at ≡ self.old.at) × ((self.new.runs ≡ self.old.runs) × (self.new.stage ≡ self.old.stage)))) }
        ensures mark { IfOk result (λ _. (layout : LayoutState) (i : ℕ) (runs : List RunThere) (e : EntryThere) (more : List EntryThere) (later : List RunThere)
            → IsReplaying layout i runs (e ∷ more) later self.old → (¬ HasEnded self.old.stage) → left_of self.old.stage ≡ [] → IsMarkedAt layout i runs self.old.cut (self.old.at + 1) self.new.own) }
    {
        if self.cut != Some(self.at) {
            return Ok(());
        }
        if let Stage::Open(core, _) = &self.stage {
            self.own = Some(own_rows(alloc, core)?);
        }
        Ok(())
    }

    /// The run has one entry more. It is handed back if its reply is the model's.
    pub fn add_entry(&mut self, alloc: Global, entry: Entry) -> Result<Option<Entry>, AllocError>
        requires { (layout : LayoutState) × (i : ℕ) × (runs : List RunThere) × (more : List EntryThere) × (later : List RunThere)
            × IsReplaying layout i runs (entry ∷ more) later self.old }
        ensures replaying { IfOk result (λ back. (layout : LayoutState) (i : ℕ) (runs : List RunThere) (more : List EntryThere) (later : List RunThere)
            → IsReplaying layout i runs (entry ∷ more) later self.old → IsReplaying layout i runs more later self.new) }
        ensures back { IfOk result (λ back. IsHandedBack entry self.new.stage back) }
        ensures free { IfOk result (λ back. (¬ HasEnded self.new.stage) → left_of self.old.stage ≡ []) }
        ensures ended { IfOk result (λ back. HasEnded self.old.stage → HasEnded self.new.stage) }
        ensures counts { IfOk result (λ back. (self.new.cut ≡ self.old.cut) × (self.new.at ≡ self.old.at + 1)) }
    {
        self.mark_cut(alloc)?;
        let at = self.at;
        self.at = one_more(at)?;
        if followed_at(&mut self.stage, &entry)? {
            return Ok(Some(entry));
        }
        refuse_at(&mut self.stage, entry, at)?;
        Ok(None)
    }

    /// The core of the run that has begun, where no call is in doubt.
    pub fn clear_core(&self) -> Option<&SiteCore>
        ensures { MatchOption result (Unit {0}) (λ core. IsClear core.now self.now.stage) }
    {
        match &self.stage {
            Stage::Open(core, left) if left.is_empty() => Some(core),
            _ => None,
        }
    }

    /// The run has one entry more, which asks for a snapshot and is answered by the one that the core makes. Nothing is made
    /// of it.
    pub fn add_snapshot(&mut self, alloc: Global) -> Result<(), AllocError>
        requires { (layout : LayoutState) × (i : ℕ) × (runs : List RunThere) × (e : EntryThere) × (more : List EntryThere) × (later : List RunThere)
            × IsReplaying layout i runs (e ∷ more) later self.old }
        ensures replaying { IfOk result (λ _. (core : CoreThere) (layout : LayoutState) (i : ℕ) (runs : List RunThere) (e : EntryThere) (more : List EntryThere) (later : List RunThere)
            → IsClear core self.old.stage → IsShownBy core e → IsReplaying layout i runs (e ∷ more) later self.old → IsReplaying layout i runs more later self.new) }
        ensures stage { IfOk result (λ _. self.new.stage ≡ self.old.stage) }
        ensures counts { IfOk result (λ _. (self.new.cut ≡ self.old.cut) × (self.new.at ≡ self.old.at + 1)) }
    {
        self.mark_cut(alloc)?;
        self.at = one_more(self.at)?;
        Ok(())
    }

    /// The first fault, if there is one.
    pub fn fault(&self) -> Option<LogFault>
        ensures { MatchOption result (¬ HasEnded self.now.stage) (λ fault. self.now.stage ≡ EndedThere fault) }
    {
        match &self.stage {
            Stage::Ended(fault) => Some(*fault),
            _ => None,
        }
    }

    /// Whether the site was seen to do all that a row of it tells, before the cut. Linear in the sites.
    pub fn has_done(&self, row: &Row) -> bool
        requires { (layout : LayoutState) × (i : ℕ) × (runs : List RunThere) × (more : List EntryThere) × (later : List RunThere) × IsReplaying layout i runs more later self.now }
        ensures { IsTrue result → (layout : LayoutState) (i : ℕ) (runs : List RunThere) (more : List EntryThere) (later : List RunThere) → IsReplaying layout i runs more later self.now
            → (cell : CellThere) → counter_in (counters_of row.now) cell ≤ own (account_at (start_account layout i runs) (length_by self.now.cut (count_of runs)) runs) row.now.r cell }
    {
        let Stage::Open(core, _) = &self.stage else {
            return false;
        };
        match &self.own {
            Some(own) => is_done_in(row, own),
            None => is_done_by(row, core),
        }
    }

    /// The own rows at the cut, once all runs are replayed without a fault. Linear in the records and the sites.
    pub fn own_rows(&self, alloc: Global, layout: &Layout, site: u16) -> Result<OwnRows, AllocError>
        requires site { site < layout.now.sites }
        requires there { (runs : List RunThere) × IsReplaying layout.now site runs [] [] self.now }
        ensures { IfOk result (λ rows. (runs : List RunThere) → IsReplaying layout.now site runs [] [] self.now → (¬ HasEnded self.now.stage)
            → length_by self.now.cut self.now.at ≤ self.now.at
            → TellsOwn (length layout.now.records) rows (account_at (start_account layout.now site runs) (length_by self.now.cut self.now.at) runs)) }
    {
        match &self.own {
            Some(rows) => rows.try_copy(alloc),
            None => rows_at_end(alloc, layout, site, &self.stage),
        }
    }
}

// The own rows behind all runs.
fn rows_at_end(
    alloc: Global,
    layout: &Layout,
    site: u16,
    stage: &Stage,
) -> Result<OwnRows, AllocError>
    requires site { site < layout.now.sites }
    requires there { (runs : List RunThere) × (at : ℕ) × IsStage layout.now site runs [] [] at stage.now }
    ensures { IfOk result (λ rows. (runs : List RunThere) (at : ℕ) → IsStage layout.now site runs [] [] at stage.now → (¬ HasEnded stage.now)
        → TellsOwn (length layout.now.records) rows (account_at (start_account layout.now site runs) at runs)) }
{
    match stage {
        Stage::Open(core, _) => own_rows(alloc, core),
        Stage::Fresh => rows_of_none(alloc, layout, site),
        Stage::Ended(_) => Ok(no_rows(alloc)),
    }
}

// The core of a site without runs.
fn start_core(alloc: Global, layout: &Layout, site: u16) -> Result<SiteCore, AllocError>
    requires { site < layout.now.sites }
    ensures { IfOk result (Stands (start_account layout.now site [])) }
{
    SiteCore::new(alloc, layout.try_copy(alloc)?, site)
}

// The own rows of a site without runs.
fn rows_of_none(alloc: Global, layout: &Layout, site: u16) -> Result<OwnRows, AllocError>
    requires { site < layout.now.sites }
    ensures { IfOk result (λ rows. TellsOwn (length layout.now.records) rows (start_account layout.now site [])) }
{
    let core = start_core(alloc, layout, site)?;
    own_rows(alloc, &core)
}
