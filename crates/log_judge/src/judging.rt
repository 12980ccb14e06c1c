ghost use Rattle.std.specs.Prelude.{◌≡◌, ◌↔◌, ◌<◌, ℕ, IfOk, IsTrue, Ok, length};
ghost use Rattle.log_judge.specs.declared.verdict.Verdict.TheVariants.{BadCut, Consistent};
ghost use Rattle.log_judge.specs.Verdict.{AreOfSites, IsCut, IsSafeCut, IsVerdict};
ghost use Rattle.log_judge.specs.Judging.{AreHistories, IsJudged};

use crate::cut::is_cut;
use crate::excess::site_excess;
use crate::verdict::Verdict;
use desk_log::Transcript;
use log_replay::{Flags, OwnRows, Replayed, replay_runs};
use merge_core::Layout;
use std::alloc::{AllocError, Global};

/// What is kept of legal transcripts, by site: the own rows at the cut, and which calls in doubt were carried out.
#[derive(Debug, Drop)]
pub(crate) struct Histories {
    own: Vec<OwnRows>,
    kept: Vec<Flags>,
}

/// What came of all transcripts.
#[derive(Debug, Drop)]
pub(crate) enum Judged {
    Legal(Histories),
    Faulty(Verdict),
}

/// Whether there is one transcript for each site of the layout, in order of sites. Linear in the sites.
pub fn are_of_sites(layout: &Layout, transcripts: &[Transcript]) -> bool
    ensures { IsTrue result ↔ AreOfSites layout.now transcripts.now }
{
    if transcripts.len() != usize::from(layout.sites()) {
        return false;
    }
    'sites: for i in 0..transcripts.len() {
        let transcript = &transcripts[i];
        if usize::from(transcript.site) != i {
            return false;
        }
    }
    true
}

/// Judges the closed logs of all sites, wherever they came from, and a cut through them.
///
/// The caller shows one transcript for each site of the layout, in order of sites, as [`are_of_sites`] tests. The verdict
/// is the first that applies: `BadCut`; the first `BadJoint` or `BadReply`, by site and then by entry, entries behind the
/// cut included; the least `Exceeds`; else `Consistent`.
///
/// Each site is replayed by one core, run by run; beside it stand the own rows of the sites at the cut. Linear in the
/// entries, a merge in its rows and a snapshot in the layout's slots; for each run linear in the layout's slots, and
/// `n log n` in the sessions that it begins with.
///
/// `BadCut` takes no memory. `Err` is answered only where memory was refused, or where a transcript has 2^64 entries,
/// which no memory holds.
pub fn judge(
    alloc: Global,
    layout: &Layout,
    transcripts: &[Transcript],
    cut: &[u64],
) -> Result<Verdict, AllocError>
    requires { AreOfSites layout.now transcripts.now }
    ensures verdict { IfOk result (IsVerdict layout.now transcripts.now cut.now) }
    ensures bad_cut { ¬ IsCut transcripts.now cut.now → result ≡ Ok BadCut }
    ensures safe { result ≡ Ok Consistent → (r : ℕ) → IsSafeCut layout.now transcripts.now cut.now r }
{
    let _ = layout.sites(); // tells the invariant: it is a layout
    if !is_cut(transcripts, cut) {
        return Ok(Verdict::BadCut);
    }
    match replay_all(alloc, layout, transcripts, cut)? {
        Judged::Faulty(verdict) => Ok(verdict),
        Judged::Legal(histories) => Ok(compared(layout, &histories, transcripts, cut)),
    }
}

// Replays the transcripts of all sites.
fn replay_all(
    alloc: Global,
    layout: &Layout,
    transcripts: &[Transcript],
    cut: &[u64],
) -> Result<Judged, AllocError>
    requires number { length transcripts.now ≡ layout.now.sites }
    requires cut { IsCut transcripts.now cut.now }
    ensures { IfOk result (IsJudged layout.now transcripts.now cut.now) }
{
    let mut own = Vec::new(alloc);
    let mut kept = Vec::new(alloc);
    'sites: for i in 0..layout.sites() {
        let transcript = &transcripts[usize::from(i)];
        let runs = transcript.runs.as_slice();
        match replay_runs(alloc, layout, i, runs, cut[usize::from(i)])? {
            Replayed::BadJoint => return Ok(Judged::Faulty(Verdict::BadJoint { site: i })),
            Replayed::BadReply(at) => {
                return Ok(Judged::Faulty(Verdict::BadReply { site: i, at }));
            }
            Replayed::Legal(history) => {
                own.push(history.own)?;
                kept.push(history.kept)?;
            }
        }
    }
    Ok(Judged::Legal(Histories { own, kept }))
}

// Compares what was merged before the cut with what was done there.
fn compared(
    layout: &Layout,
    histories: &Histories,
    transcripts: &[Transcript],
    cut: &[u64],
) -> Verdict
    requires number { length transcripts.now ≡ layout.now.sites }
    requires cut { IsCut transcripts.now cut.now }
    requires histories { AreHistories layout.now transcripts.now cut.now (length transcripts.now) histories.now.own.items histories.now.kept.items }
    ensures { IsVerdict layout.now transcripts.now cut.now result }
{
    let own = histories.own.as_slice();
    'sites: for i in 0..layout.sites() {
        let at = usize::from(i);
        let transcript = &transcripts[at];
        let flags = histories.kept[at].as_slice();
        if let Some(it) = site_excess(flags, transcript.runs.as_slice(), cut[at], own) {
            return Verdict::Exceeds {
                site: i,
                at: it.at,
                rec: it.rec,
                origin: it.origin,
            };
        }
    }
    Verdict::Consistent
}
