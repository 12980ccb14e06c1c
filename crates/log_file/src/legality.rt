//! Whether the runs of a log fit what the store kept.
ghost use Rattle.std.specs.Prelude.{◌≡◌, ◌∷◌, ◌++◌, [], ℕ, List, ◌<◌, ◌↔◌, IfOk, IsTrue, length, slice_index};
ghost use Rattle.transcript_reader.specs.declared.runs.SiteRun.{SiteRun};
ghost use Rattle.transcript_reader.specs.Reading.{transcripts_below};
ghost use Rattle.transcript_text.specs.Texts.{MayBegin};
ghost use Rattle.log_judge.specs.Cut.{runs_at};
ghost use Rattle.log_file.specs.Runs.{Fits, IsOnlyOf, new_run, with_new};
ghost use Rattle.log_judge.specs.Verdict.{IsLegalSite};
ghost use Rattle.log_judge.specs.declared.verdict.Verdict.TheVariants.{Consistent};

use admission_core::Durable;
use desk_log::{Entries, Run, Runs, Transcript};
use log_judge::{Verdict, judge};
use merge_core::Layout;
use std::alloc::{AllocError, Global};
use transcript_text::book_told;

/// Whether no other site has a run. Linear in the sites.
pub(crate) fn is_only_of(transcripts: &[Transcript], site: u16) -> bool
    ensures { IsTrue result ↔ IsOnlyOf site transcripts.now }
{
    'sites: for k in 0..transcripts.len() {
        let transcript = &transcripts[k];
        if k != usize::from(site) && transcript.runs.len() > 0 {
            return false;
        }
    }
    true
}

/// The runs of a site: none where there is no such site.
pub(crate) fn runs_of(transcripts: &[Transcript], site: u16) -> &[Run]
    ensures { result.now ≡ runs_at transcripts.now site }
{
    match transcripts.get(usize::from(site)) {
        Some(transcript) => transcript.runs.as_slice(),
        None => &[],
    }
}

/// Whether the runs of a site fit a durable part. Linear in the entries, a merge in its rows, and in the runs times the
/// layout's slots.
pub(crate) fn fits(
    alloc: Global,
    layout: &Layout,
    site: u16,
    transcripts: Vec<Transcript>,
    first: &Durable,
) -> Result<bool, AllocError>
    requires read { (rs : List SiteRun) × (transcripts.items ≡ transcripts_below rs layout.now.sites) }
    requires only { IsOnlyOf site transcripts.items }
    ensures { IfOk result (λ b. IsTrue b ↔ Fits layout.now site (runs_at transcripts.items site) first.now) }
{
    if !may_begin(alloc, layout, site, first)? {
        return Ok(false);
    }
    let run = Run {
        sites: layout.sites(),
        first: first.try_copy(alloc)?,
        entries: Entries::from_vec(Vec::new(alloc)),
    };
    let longer = with_run(alloc, transcripts, site, run)?;
    let legal = are_legal(alloc, layout, site, longer.as_slice())?;
    Ok(legal)
}

// Whether a run under the whole layout may begin with a durable part.
fn may_begin(alloc: Global, layout: &Layout, site: u16, first: &Durable) -> Result<bool, AllocError>
    ensures { IfOk result (λ b. IsTrue b ↔ MayBegin layout.now site layout.now.sites first.now) }
{
    match book_told(alloc, layout, site, layout.sites(), first)? {
        Some(_) => Ok(true),
        None => Ok(false),
    }
}

// The transcripts with a run more behind those of its site.
fn with_run(
    alloc: Global,
    transcripts: Vec<Transcript>,
    site: u16,
    run: Run,
) -> Result<Vec<Transcript>, AllocError>
    requires { (rs : List SiteRun) × (n : ℕ) × (site < n) × (transcripts.items ≡ transcripts_below rs n) }
    ensures { IfOk result (λ ts. (rs : List SiteRun) (n : ℕ) → site < n → transcripts.items ≡ transcripts_below rs n
        → ts.items ≡ transcripts_below (rs ++ record { site = site; run = run } ∷ []) n) }
{
    let mut transcripts = transcripts;
    let mut runs = Vec::new(alloc);
    runs.push(run)?;
    let later = Transcript {
        site,
        runs: Runs::from_vec(runs),
    };
    match transcripts[usize::from(site)].append(later) {
        Ok(()) => Ok(transcripts),
        Err(_) => Err(AllocError),
    }
}

// Whether the runs of a site, which alone has some, are legal.
fn are_legal(
    alloc: Global,
    layout: &Layout,
    site: u16,
    transcripts: &[Transcript],
) -> Result<bool, AllocError>
    requires read { (rs : List SiteRun) × (transcripts.now ≡ transcripts_below rs layout.now.sites) }
    requires only { IsOnlyOf site transcripts.now }
    requires there { site < layout.now.sites }
    ensures { IfOk result (λ b. IsTrue b ↔ IsLegalSite layout.now transcripts.now site) }
{
    let nothing = vec![in alloc; 0u64; transcripts.len()]?;
    let verdict = judge(alloc, layout, transcripts, nothing.as_slice())?;
    Ok(is_consistent(verdict))
}

// Whether this is the verdict.
fn is_consistent(verdict: Verdict) -> bool
    ensures { IsTrue result ↔ (verdict ≡ Consistent) }
{
    matches!(verdict, Verdict::Consistent)
}
