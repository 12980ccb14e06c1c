//! The closed logs of all sites, judged entry by entry as they come.
ghost use Rattle.std.specs.Prelude.{◌≡◌, ◌≢◌, ◌<◌, ◌↔◌, ◌∷◌, [], ℕ, List, IfOk, IsSome, IsTrue, MatchOption, None, Some, false, true, length, slice_index, string_bytes};
ghost use Rattle.merge_core.specs.Layout.{LayoutState};
ghost use Rattle.merge_core.specs.declared.delta.Row.{Row as RowThere};
ghost use Rattle.admission_model.specs.Account.{Account as AccountThere, own};
ghost use Rattle.desk_log.specs.declared.entry.Entry.{Entry as EntryThere};
ghost use Rattle.desk_log.specs.declared.transcript.Run.{Run as RunThere};
ghost use Rattle.desk_log.specs.declared.transcript.Transcript.{Transcript as TranscriptThere};
ghost use Rattle.admission_core.specs.Core.{Core as CoreThere, Stands};
ghost use Rattle.log_replay.specs.Stream.{IsClear, IsShownBy, count_of, length_by};
ghost use Rattle.log_judge.specs.Cut.{cut_account, full_cut, is_accepted, merge_rows, rows_brought, runs_at};
ghost use Rattle.log_judge.specs.Table.{cut_table};
ghost use Rattle.log_judge.specs.Verdict.{AreOfSites, IsCut, IsVerdict};
ghost use Rattle.log_judge.specs.Excess.{IsFoundAt};
ghost use Rattle.log_judge.specs.declared.keeping.Keeping.{Keeping as KeepingThere};
ghost use Rattle.log_judge.specs.declared.keeping.Keeping.TheVariants.{All as KeepsAll};
ghost use Rattle.log_judge.specs.Stream.{AreAllLogs, AreDone, AreLogs, AreNotAhead, AreOfSome, AreTaken, HasNoFault, IsClearAt, IsGuess, IsLog, IsOpen, IsUntold, Keeps, KeepsWithin, Pushes, Takes, TakesBack, TakesKept, TellAll, no_entries};

use crate::excess::{Place, first_ahead};
use crate::keeping::Keeping;
use crate::table::{push_counts, table_header};
use crate::verdict::Verdict;
use crate::wanted::is_wanted;
use admission_core::{Call, Durable, SiteCore};
use desk_log::Entry;
use log_replay::{LogFault, OwnRows, SiteReplay};
use merge_core::{Delta, Layout};
use std::alloc::{AllocError, Global};

/// A merge that was carried out before the cut and may tell more than its sites had done: the number of its entry, and its
/// delta.
#[derive(Debug, Drop)]
pub struct Taken {
    pub at: u64,
    pub delta: Delta,
}

/// What is kept of the log of one site.
#[derive(Debug, Drop)]
pub struct SiteLog {
    pub replay: SiteReplay,
    pub taken: Vec<Taken>,
    /// The number of the first merge that was not kept for want of room, if there is one.
    pub dropped: Option<u64>,
}

/// What is kept of the closed logs of all sites: the core of each, its own rows at the cut, and merges.
#[derive(Debug, Drop)]
pub struct Logs {
    pub sites: Vec<SiteLog>,
    pub keeping: Keeping,
}

// Whether an entry of this number is before the cut.
fn is_before(at: u64, cut: Option<u64>) -> bool
    ensures { IsTrue result ↔ MatchOption cut (Unit {0}) (λ length. at < length) }
{
    match cut {
        Some(length) => at < length,
        None => true,
    }
}

// The first row above what its site had done, of merges that were carried out.
fn first_taken(taken: &[Taken], tables: &[OwnRows]) -> Option<Place>
    ensures none { MatchOption result (AreNotAhead tables.now taken.now) (λ _. Unit {0}) }
    ensures found { (accounts : ℕ → AccountThere) (lists : List (List RowThere)) (to : ℕ) → AreTaken accounts lists 0 to taken.now
        → TellAll tables.now accounts → IsFoundAt tables.now lists to result }
{
    let mut rest = taken;
    'taken: while let [it, later @ ..] = rest {
        if let Some(named) = first_ahead(it.delta.rows(), tables) {
            return Some(Place {
                at: it.at,
                rec: named.rec,
                origin: named.origin,
            });
        }
        rest = later;
    }
    None
}

impl SiteLog {
    // Keeps a merge behind those that are kept.
    fn push(&mut self, at: u64, delta: Delta) -> Result<(), AllocError>
        ensures { IfOk result (λ _. Pushes self.old self.new at delta.rows) }
    {
        self.taken.push(Taken { at, delta })?;
        Ok(())
    }

    // Keeps a merge where fewer than so many are kept; else remembers its number, if it is the first one that is not kept.
    fn keep_within(&mut self, most: usize, at: u64, delta: Delta) -> Result<(), AllocError>
        ensures { IfOk result (λ _. KeepsWithin most self.old self.new at delta.rows) }
    {
        if self.dropped.is_some() {
            return Ok(());
        }
        if self.taken.len() >= most {
            self.dropped = Some(at);
            return Ok(());
        }
        self.push(at, delta)
    }

    // Keeps a merge, as is asked for.
    fn keep(&mut self, keeping: &Keeping, at: u64, delta: Delta) -> Result<(), AllocError>
        ensures { IfOk result (λ _. Keeps keeping.now self.old self.new at delta.rows) }
    {
        match keeping {
            Keeping::All => self.push(at, delta),
            Keeping::First(most) => self.keep_within(*most, at, delta),
            Keeping::Above(tables) => match first_ahead(delta.rows(), tables.as_slice()) {
                Some(_) => self.keep_within(1, at, delta),
                None => Ok(()),
            },
        }
    }

    // Keeps the rows of an entry that was carried out, if it is before the cut.
    fn take(&mut self, keeping: &Keeping, at: u64, entry: Entry) -> Result<(), AllocError>
        ensures { IfOk result (λ _. Takes keeping.now self.old self.new at (merge_rows entry.call)) }
    {
        if !is_before(at, self.replay.cut) {
            return Ok(());
        }
        let Entry { call, .. } = entry;
        match call {
            Call::Merge(delta) => self.keep(keeping, at, delta),
            Call::Ask(_) => Ok(()),
            Call::Snapshot => Ok(()),
        }
    }

    // Keeps those of a call in doubt that was carried out, if there is one, of so many entries the last.
    fn take_kept(&mut self, keeping: &Keeping, at: u64, kept: Vec<Entry>) -> Result<(), AllocError>
        ensures { IfOk result (λ _. TakesKept keeping.now self.old self.new at kept.items) }
    {
        let mut kept = kept;
        match kept.pop() {
            Some(entry) => self.take(keeping, at.saturating_sub(1), entry),
            None => Ok(()),
        }
    }

    // Keeps those of an entry that was handed back, if they are asked for.
    fn take_back(
        &mut self,
        keeping: &Keeping,
        at: u64,
        wanted: bool,
        back: Option<Entry>,
    ) -> Result<(), AllocError>
        ensures { IfOk result (λ _. TakesBack keeping.now self.old self.new at wanted back) }
    {
        if !wanted {
            return Ok(());
        }
        match back {
            Some(entry) => self.take(keeping, at, entry),
            None => Ok(()),
        }
    }

    // A run begins.
    fn begin_run(
        &mut self,
        alloc: Global,
        keeping: &Keeping,
        layout: &Layout,
        site: u16,
        sites: u16,
        first: Durable,
    ) -> Result<(), AllocError>
        requires site { site < layout.now.sites }
        requires there { (ts : List TranscriptThere) × (cut : List ℕ) × (es : List EntryThere) × (later : List RunThere)
            × IsLog layout.now ts cut site keeping.now [] (record { sites = sites; first = first; entries = es } ∷ later) self.old }
        ensures { IfOk result (λ _. (ts : List TranscriptThere) (cut : List ℕ) (es : List EntryThere) (later : List RunThere)
            → IsLog layout.now ts cut site keeping.now [] (record { sites = sites; first = first; entries = es } ∷ later) self.old
            → IsLog layout.now ts cut site keeping.now es later self.new) }
    {
        let at = self.replay.at;
        let kept = self.replay.begin_run(alloc, layout, site, sites, first)?;
        self.take_kept(keeping, at, kept)
    }

    // The last run has one entry more; its rows are kept where they may tell more than was done.
    fn add_entry(
        &mut self,
        alloc: Global,
        keeping: &Keeping,
        entry: Entry,
        wanted: bool,
    ) -> Result<(), AllocError>
        requires { (layout : LayoutState) × (ts : List TranscriptThere) × (cut : List ℕ) × (i : ℕ) × (more : List EntryThere) × (later : List RunThere)
            × IsLog layout ts cut i keeping.now (entry ∷ more) later self.old }
        ensures { IfOk result (λ _. (layout : LayoutState) (ts : List TranscriptThere) (cut : List ℕ) (i : ℕ) (more : List EntryThere) (later : List RunThere)
            → (wanted ≡ false → AreDone (cut_account layout ts cut) (rows_brought false entry)) → (wanted ≡ true → is_accepted false entry.reply ≡ true)
            → IsLog layout ts cut i keeping.now (entry ∷ more) later self.old → IsLog layout ts cut i keeping.now more later self.new) }
    {
        let at = self.replay.at;
        let back = self.replay.add_entry(alloc, entry)?;
        self.take_back(keeping, at, wanted, back)
    }

    // The last run has one entry more, which is answered by the snapshot that its core makes: it brought no rows.
    fn add_snapshot(&mut self, alloc: Global) -> Result<(), AllocError>
        requires { (layout : LayoutState) × (ts : List TranscriptThere) × (cut : List ℕ) × (i : ℕ) × (keeping : KeepingThere) × (e : EntryThere) × (more : List EntryThere) × (later : List RunThere)
            × IsLog layout ts cut i keeping (e ∷ more) later self.old }
        ensures { IfOk result (λ _. (core : CoreThere) (layout : LayoutState) (ts : List TranscriptThere) (cut : List ℕ) (i : ℕ) (keeping : KeepingThere)
            (e : EntryThere) (more : List EntryThere) (later : List RunThere)
            → IsClear core self.old.replay.stage → IsShownBy core e → IsLog layout ts cut i keeping (e ∷ more) later self.old → IsLog layout ts cut i keeping more later self.new) }
    {
        self.replay.add_snapshot(alloc)
    }
}

// The length of a cut at a site; 0 where it has none.
fn length_at(lengths: &[u64], i: usize) -> u64
    ensures { result ≡ slice_index lengths.now i }
{
    if i < lengths.len() {
        return lengths[i];
    }
    0
}

// The log of a site before its first line.
fn fresh_log(alloc: Global, cut: Option<u64>) -> SiteLog
    ensures { (keeping : KeepingThere) (layout : LayoutState) (ts : List TranscriptThere) (lengths : List ℕ) (i : ℕ) → slice_index lengths i ≡ length_by cut (count_of (runs_at ts i))
        → IsLog layout ts lengths i keeping [] (runs_at ts i) result }
{
    SiteLog {
        replay: SiteReplay::new(cut),
        taken: Vec::new(alloc),
        dropped: None,
    }
}

// The logs before the first line, for the cut at the end of each.
fn sites_at_end(alloc: Global, layout: &Layout) -> Result<Vec<SiteLog>, AllocError>
    ensures { IfOk result (λ sites. (keeping : KeepingThere) (ts : List TranscriptThere) → length ts ≡ layout.now.sites
        → AreLogs layout.now ts (full_cut ts) no_entries (runs_at ts) (record { sites = sites; keeping = keeping })) }
{
    let mut sites = Vec::with_capacity(alloc, usize::from(layout.sites()))?;
    'sites: for _i in 0..layout.sites() {
        sites.push(fresh_log(alloc, None))?;
    }
    Ok(sites)
}

// The same for a cut of these lengths.
fn sites_at_lengths(
    alloc: Global,
    layout: &Layout,
    lengths: &[u64],
) -> Result<Vec<SiteLog>, AllocError>
    ensures { IfOk result (λ sites. (keeping : KeepingThere) (ts : List TranscriptThere) → length ts ≡ layout.now.sites
        → AreLogs layout.now ts lengths.now no_entries (runs_at ts) (record { sites = sites; keeping = keeping })) }
{
    let mut sites = Vec::with_capacity(alloc, usize::from(layout.sites()))?;
    'sites: for i in 0..layout.sites() {
        let length = length_at(lengths, usize::from(i));
        sites.push(fresh_log(alloc, Some(length)))?;
    }
    Ok(sites)
}

impl Logs {
    /// Before the first line, for the cut at the end of each log.
    pub fn at_end(alloc: Global, layout: &Layout, keeping: Keeping) -> Result<Logs, AllocError>
        ensures keeping { IfOk result (λ logs. logs.keeping ≡ keeping) }
        ensures logs { IfOk result (λ logs. (ts : List TranscriptThere) → length ts ≡ layout.now.sites → AreLogs layout.now ts (full_cut ts) no_entries (runs_at ts) logs) }
    {
        let sites = sites_at_end(alloc, layout)?;
        Ok(Logs { sites, keeping })
    }

    /// Before the first line, for a cut of these lengths.
    pub fn at_lengths(
        alloc: Global,
        layout: &Layout,
        lengths: &[u64],
        keeping: Keeping,
    ) -> Result<Logs, AllocError>
        ensures keeping { IfOk result (λ logs. logs.keeping ≡ keeping) }
        ensures logs { IfOk result (λ logs. (ts : List TranscriptThere) → length ts ≡ layout.now.sites → AreLogs layout.now ts lengths.now no_entries (runs_at ts) logs) }
    {
        let sites = sites_at_lengths(alloc, layout, lengths)?;
        Ok(Logs { sites, keeping })
    }

    /// A run of a site begins.
    pub fn begin_run(
        &mut self,
        alloc: Global,
        layout: &Layout,
        site: u16,
        sites: u16,
        first: Durable,
    ) -> Result<(), AllocError>
        requires site { site < layout.now.sites }
        requires there { (ts : List TranscriptThere) × (cut : List ℕ) × (more : ℕ → List EntryThere) × (later : ℕ → List RunThere) × (es : List EntryThere) × (rest : List RunThere)
            × (more site ≡ []) × (later site ≡ record { sites = sites; first = first; entries = es } ∷ rest) × AreLogs layout.now ts cut more later self.old }
        ensures keeping { IfOk result (λ _. self.new.keeping ≡ self.old.keeping) }
        ensures logs { IfOk result (λ _. (ts : List TranscriptThere) (cut : List ℕ) (more more2 : ℕ → List EntryThere) (later later2 : ℕ → List RunThere) (es : List EntryThere) (rest : List RunThere)
            → more site ≡ [] → later site ≡ record { sites = sites; first = first; entries = es } ∷ rest → more2 site ≡ es → later2 site ≡ rest
            → ((j : ℕ) → j ≢ site → (more2 j ≡ more j) × (later2 j ≡ later j))
            → AreLogs layout.now ts cut more later self.old → AreLogs layout.now ts cut more2 later2 self.new) }
    {
        self.sites[usize::from(site)].begin_run(alloc, &self.keeping, layout, site, sites, first)
    }

    /// The last run of a site has one entry more. Linear in a merge's rows, for each in the sites.
    pub fn add_entry(&mut self, alloc: Global, site: u16, entry: Entry) -> Result<(), AllocError>
        requires { (layout : LayoutState) × (ts : List TranscriptThere) × (cut : List ℕ) × (more : ℕ → List EntryThere) × (later : ℕ → List RunThere) × (rest : List EntryThere)
            × (site < layout.sites) × (more site ≡ entry ∷ rest) × AreLogs layout ts cut more later self.old }
        ensures keeping { IfOk result (λ _. self.new.keeping ≡ self.old.keeping) }
        ensures logs { IfOk result (λ _. (layout : LayoutState) (ts : List TranscriptThere) (cut : List ℕ) (more more2 : ℕ → List EntryThere) (later : ℕ → List RunThere) (rest : List EntryThere)
            → site < layout.sites → more site ≡ entry ∷ rest → more2 site ≡ rest → ((j : ℕ) → j ≢ site → more2 j ≡ more j)
            → AreLogs layout ts cut more later self.old → AreLogs layout ts cut more2 later self.new) }
    {
        let wanted = is_wanted(&entry, self);
        self.sites[usize::from(site)].add_entry(alloc, &self.keeping, entry, wanted)
    }

    /// The core of the last run of a site, where no call is in doubt.
    pub fn clear_core(&self, site: u16) -> Option<&SiteCore>
        requires site { site < length self.now.sites.items }
        requires some { AreOfSome self.now }
        ensures clear { MatchOption result (Unit {0}) (λ core. IsClearAt core.now site self.now) }
        ensures stands { MatchOption result (Unit {0}) (λ core. (a : AccountThere) × Stands a core.now) }
    {
        self.sites[usize::from(site)].replay.clear_core()
    }

    /// The last run of a site has one entry more, which asks for a snapshot and is answered by the one that its core makes.
    /// Nothing is made of it.
    pub fn add_snapshot(&mut self, alloc: Global, site: u16) -> Result<(), AllocError>
        requires { (layout : LayoutState) × (ts : List TranscriptThere) × (cut : List ℕ) × (more : ℕ → List EntryThere) × (later : ℕ → List RunThere) × (e : EntryThere) × (rest : List EntryThere)
            × (site < layout.sites) × (more site ≡ e ∷ rest) × AreLogs layout ts cut more later self.old }
        ensures keeping { IfOk result (λ _. self.new.keeping ≡ self.old.keeping) }
        ensures logs { IfOk result (λ _. (core : CoreThere) (e : EntryThere) → IsClearAt core site self.old → IsShownBy core e
            → (layout : LayoutState) (ts : List TranscriptThere) (cut : List ℕ) (more more2 : ℕ → List EntryThere) (later : ℕ → List RunThere) (rest : List EntryThere)
            → site < layout.sites → more site ≡ e ∷ rest → more2 site ≡ rest → ((j : ℕ) → j ≢ site → more2 j ≡ more j)
            → AreLogs layout ts cut more later self.old → AreLogs layout ts cut more2 later self.new) }
    {
        self.sites[usize::from(site)].add_snapshot(alloc)
    }

    /// The cut at the end of each log, once all entries came.
    pub fn full_cut(&self, alloc: Global) -> Result<Vec<u64>, AllocError>
        ensures { (layout : LayoutState) (ts : List TranscriptThere) (cut : List ℕ) → AreAllLogs layout ts cut self.now → IfOk result (λ lengths. lengths.items ≡ full_cut ts) }
    {
        let mut cut = Vec::with_capacity(alloc, self.sites.len())?;
        'sites: for i in 0..self.sites.len() {
            let log = &self.sites[i];
            cut.push(log.replay.at)?;
        }
        Ok(cut)
    }

    /// Whether these lengths are a cut through the logs.
    pub fn is_cut(&self, lengths: &[u64]) -> bool
        ensures { (layout : LayoutState) (ts : List TranscriptThere) (cut : List ℕ) → AreAllLogs layout ts cut self.now → IsTrue result ↔ IsCut ts lengths.now }
    {
        if lengths.len() != self.sites.len() {
            return false;
        }
        'sites: for i in 0..lengths.len() {
            let log = &self.sites[i];
            if lengths[i] > log.replay.at {
                return false;
            }
        }
        true
    }

    /// Where a cut goes through the logs, of which the caller shows that it is one.
    pub fn cut_table(&self, alloc: Global, lengths: &[u64]) -> Result<String, AllocError>
        requires { length lengths.now ≡ length self.now.sites.items }
        ensures { (layout : LayoutState) (ts : List TranscriptThere) (cut : List ℕ) → AreOfSites layout ts → AreAllLogs layout ts cut self.now
            → IfOk result (λ text. string_bytes text ≡ cut_table ts lengths.now) }
    {
        let mut text = table_header(alloc)?;
        'sites: for i in 0..lengths.len() {
            let log = &self.sites[i];
            push_counts(
                &mut text,
                i as u64,
                lengths[i],
                log.replay.at,
                log.replay.runs,
            )?;
        }
        Ok(text)
    }

    // The first fault of a log.
    fn first_fault(&self, sites: u16) -> Option<Verdict>
        requires { sites ≡ length self.now.sites.items }
        ensures { MatchOption result (HasNoFault self.now.sites.items)
            (λ verdict. (layout : LayoutState) (ts : List TranscriptThere) (cut : List ℕ) → AreAllLogs layout ts cut self.now → IsCut ts cut → IsVerdict layout ts cut verdict) }
    {
        'sites: for site in 0..sites {
            let log = &self.sites[usize::from(site)];
            match log.replay.fault() {
                Some(LogFault::BadJoint) => return Some(Verdict::BadJoint { site }),
                Some(LogFault::BadReply(at)) => return Some(Verdict::BadReply { site, at }),
                None => {}
            }
        }
        None
    }

    /// The own rows of all sites at the cut, once all entries came and where no log has a fault: for `Keeping::Above` of a
    /// next reading. Linear in the records of all sites, for each in the sites.
    pub fn own_tables(&self, alloc: Global, layout: &Layout) -> Result<Vec<OwnRows>, AllocError>
        requires { (ts : List TranscriptThere) × (cut : List ℕ) × AreAllLogs layout.now ts cut self.now }
        ensures { IfOk result (λ tables. (ts : List TranscriptThere) (cut : List ℕ) → AreAllLogs layout.now ts cut self.now → IsCut ts cut → HasNoFault self.now.sites.items
            → TellAll tables.items (cut_account layout.now ts cut)) }
    {
        let mut tables = Vec::with_capacity(alloc, self.sites.len())?;
        'sites: for site in 0..layout.sites() {
            let log = &self.sites[usize::from(site)];
            tables.push(log.replay.own_rows(alloc, layout, site)?)?;
        }
        Ok(tables)
    }

    // Compares what was merged before the cut with what was done there, unless a merge is lacking.
    fn compared(&self, layout: &Layout, tables: &[OwnRows]) -> Option<Verdict>
        requires { length self.now.sites.items ≡ layout.now.sites }
        ensures { MatchOption result (IsOpen tables.now self.now.sites.items)
            (λ verdict. (ts : List TranscriptThere) (cut : List ℕ) → AreAllLogs layout.now ts cut self.now → IsCut ts cut → HasNoFault self.now.sites.items
            → TellAll tables.now (cut_account layout.now ts cut) → IsGuess self.now.keeping (cut_account layout.now ts cut) → IsVerdict layout.now ts cut verdict) }
    {
        'sites: for site in 0..layout.sites() {
            let log = &self.sites[usize::from(site)];
            if let Some(it) = first_taken(log.taken.as_slice(), tables) {
                return Some(Verdict::Exceeds {
                    site,
                    at: it.at,
                    rec: it.rec,
                    origin: it.origin,
                });
            }
            if log.dropped.is_some() {
                return None;
            }
        }
        Some(Verdict::Consistent)
    }

    /// The verdict on the logs and the cut, once all entries came and where the cut is one; `None` where it is not known.
    ///
    /// With `Keeping::All` it is known; with `First`, unless a merge was not kept for want of room and none that was kept of
    /// its site and those before it tells more than was done; with `Above`, where the own rows are those at the cut. A fault
    /// of a log is always known. Linear in what is kept.
    pub fn verdict(&self, alloc: Global, layout: &Layout) -> Result<Option<Verdict>, AllocError>
        requires { (ts : List TranscriptThere) × (cut : List ℕ) × AreAllLogs layout.now ts cut self.now }
        ensures right { IfOk result (λ answer. (ts : List TranscriptThere) (cut : List ℕ) → AreAllLogs layout.now ts cut self.now → IsCut ts cut
            → MatchOption answer (Unit {0}) (IsVerdict layout.now ts cut)) }
        ensures untold { IfOk result (λ answer. (ts : List TranscriptThere) (cut : List ℕ) → AreAllLogs layout.now ts cut self.now → IsCut ts cut
            → MatchOption answer (IsUntold self.now.keeping self.now.sites.items (cut_account layout.now ts cut)) (λ _. Unit {0})) }
        ensures legal { IfOk result (λ answer. MatchOption answer (HasNoFault self.now.sites.items) (λ _. Unit {0})) }
        ensures all { IfOk result (λ answer. self.now.keeping ≡ KeepsAll → IsSome answer) }
    {
        if let Some(verdict) = self.first_fault(layout.sites()) {
            return Ok(Some(verdict));
        }
        let tables = self.own_tables(alloc, layout)?;
        if !self.keeping.is_guess(tables.as_slice()) {
            return Ok(None);
        }
        Ok(self.compared(layout, tables.as_slice()))
    }
}
