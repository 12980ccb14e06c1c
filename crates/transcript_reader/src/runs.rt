//! Runs of all sites, and the transcripts that they make.
ghost use Rattle.std.specs.Prelude.{◌≡◌, ◌<◌, ◌++◌, ◌∷◌, [], ℕ, List, IfOk, OnOk};
ghost use Rattle.transcript_reader.specs.declared.runs.SiteRun.{SiteRun as SiteRunThere};
ghost use Rattle.transcript_reader.specs.Reading.{transcripts_below};

use desk_log::{Run, Runs, Transcript};
use std::alloc::{AllocError, Global};

/// A run of a site.
#[derive(Debug, Drop)]
pub struct SiteRun {
    pub site: u16,
    pub run: Run,
}

/// Empty transcripts of so many sites.
pub(crate) fn no_runs(alloc: Global, sites: u16) -> Result<Vec<Transcript>, AllocError>
    ensures { IfOk result (λ transcripts. transcripts.items ≡ transcripts_below [] sites) }
{
    let mut transcripts = Vec::with_capacity(alloc, usize::from(sites))?;
    for site in 0..sites {
        let runs = Runs::from_vec(Vec::new(alloc));
        transcripts.push(Transcript { site, runs })?;
    }
    Ok(transcripts)
}

/// Puts a run behind those of its site.
pub(crate) fn add_run(
    alloc: Global,
    transcripts: &mut Vec<Transcript>,
    run: SiteRun,
) -> Result<(), AllocError>
    requires { (rs : List SiteRunThere) × (n : ℕ) × (run.site < n) × (transcripts.old.items ≡ transcripts_below rs n) }
    ensures { OnOk result ((rs : List SiteRunThere) (n : ℕ) → run.site < n → transcripts.old.items ≡ transcripts_below rs n
        → transcripts.new.items ≡ transcripts_below (rs ++ run ∷ []) n) }
{
    let SiteRun { site, run } = run;
    let mut runs = Vec::new(alloc);
    runs.push(run)?;
    let later = Transcript {
        site,
        runs: Runs::from_vec(runs),
    };
    match transcripts[usize::from(site)].append(later) {
        Ok(()) => Ok(()),
        Err(_) => Err(AllocError),
    }
}
