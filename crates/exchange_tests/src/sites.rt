//! One site from its opening to its transcript: a call before its links run, the run, a call behind it, and what the
//! site knows then. The one way by which all tests run one.
ghost use Rattle.std.specs.Prelude.{◌≡◌, ◌+◌, All, IsSome, IfSome, length};
ghost use Rattle.admission_core.specs.Kept.{DurableState};

use crate::gates::{Shared, TestGate};
use admission_core::{Ask, Call, Reply};
use exchange_threads::{End, Port, Report, run_links};
use merge_core::{Delta, Layout, RecordName, RecordSpec};
use session_book::{CloseError, Opening, Pass, Site, Transcript};
use std::alloc::Global;
use std::marker::Brand;
use std::sync::ledger::Blank;
use std::sync::{Arc, Wait};
use std::thread::Threads;
use test_keepers::{Fake, Fault, store_with};

/// The sites, and the records with as many seats each, all at one site.
#[derive(Clone, Copy)]
pub struct Shape {
    pub sites: u16,
    pub records: u16,
    pub seats: u32,
    pub home: u16,
    pub problem: u16,
}

/// Two sites with one record of two seats, where readers may go before a waiting writer.
pub const TWO: Shape = Shape {
    sites: 2,
    records: 1,
    seats: 2,
    home: 0,
    problem: 1,
};

/// The same where they may not.
pub const WRITER_FIRST: Shape = Shape {
    sites: 2,
    records: 1,
    seats: 2,
    home: 0,
    problem: 2,
};

/// A site with the ends of its links, and what happens to it.
#[derive(Drop)]
pub struct Job {
    pub shape: Shape,
    pub site: u16,
    pub limit: usize,
    /// Its store fails behind so many changes.
    pub left: Option<u64>,
    /// In place of that, it has no memory for that one change, and counts this here.
    pub lacks: Option<Shared>,
    pub before: Option<Ask>,
    pub ends: Vec<End<TestGate>>,
    pub turns: u64,
    pub after: Option<Ask>,
}

/// What came of it. Ports have the numbers of their passes; the last pass is the caller's.
#[derive(Drop)]
pub struct Outcome {
    pub before: Option<Reply>,
    pub reports: Vec<Report>,
    pub after: Option<Reply>,
    /// What the site told at the end.
    pub known: Option<Delta>,
    /// How many passes of ports have the mark of a stopped site, and how many that of a full log.
    pub marks: (u64, u64),
    pub transcript: Transcript,
}

/// A job of a site whose store does not fail, without calls.
pub fn job_of(shape: Shape, site: u16, ends: Vec<End<TestGate>>, turns: u64) -> Job {
    Job {
        shape,
        site,
        limit: 1024,
        left: None,
        lacks: None,
        before: None,
        ends,
        turns,
        after: None,
    }
}

// A record with a name of one letter.
fn spec_of(alloc: Global, name: &str, shape: Shape) -> Option<RecordSpec> {
    let name = RecordName::from_string(String::from_str(alloc, name).ok()?);
    Some(RecordSpec {
        name,
        seats: shape.seats,
        home: shape.home,
        problem: shape.problem,
    })
}

/// The layout of this shape. Its records are a, b, and from there on r2, r3 ..
pub fn layout_of(alloc: Global, shape: Shape) -> Option<Layout> {
    let mut records = Vec::new(alloc);
    records.push(spec_of(alloc, "a", shape)?).ok()?;
    if shape.records >= 2 {
        records.push(spec_of(alloc, "b", shape)?).ok()?;
    }
    for r in 2..shape.records {
        let name = format!(in alloc; "r{r}").ok()?;
        records.push(spec_of(alloc, name.as_str(), shape)?).ok()?;
    }
    Layout::new(shape.sites, records).ok()
}

/// A site over a new keeper, and its passes.
pub fn opened<L: Opening>(
    alloc: Global,
    blank: Blank,
    job: &Job,
    passes: u16,
) -> Option<(Site<Fake, L>, Vec<Pass<L>>)>
    requires name { blank.name ≡ L.name }
    requires parts { blank.parts ≡ L.parts }
    requires unknown { (d : DurableState) → ¬ L.kept d }
    requires one_each { blank.parts ≡ passes }
{
    let layout = layout_of(alloc, job.shape)?;
    let store = match (job.left, &job.lacks) {
        (Some(left), Some(count)) => store_with(left, Fault::Lacks(Arc::try_clone(count).ok()?)),
        (Some(left), None) => store_with(left, Fault::Refused(false)),
        (None, _) => store_with(0, Fault::Never),
    };
    let keeper = Fake::new(alloc, &layout, job.site, store)?;
    Site::<Fake, L>::open(alloc, blank, keeper, layout, job.site, passes, job.limit).ok()
}

// A port for each end, each with the pass of its number.
fn ports_of<L: Opening>(
    alloc: Global,
    passes: &mut Vec<Pass<L>>,
    ends: Vec<End<TestGate>>,
) -> Option<Vec<Port<L, TestGate>>>
    ensures { IfSome result (λ ports. All (λ p. IsSome p.link) ports.items) }
{
    let mut ports = Vec::new(alloc);
    let mut ends = ends;
    'ends: while let Some(link) = ends.pop() {
        let pass = passes.pop()?;
        let link = Some(link);
        let report = None;
        ports.push(Port { pass, link, report }).ok()?;
    }
    Some(ports)
}

// The passes and the reports of ports that came in the order of the greatest number first.
fn parts_of<L: Opening>(
    alloc: Global,
    ports: Vec<Port<L, TestGate>>,
) -> Option<(Vec<Pass<L>>, Vec<Report>)> {
    let mut passes = Vec::new(alloc);
    let mut reports = Vec::new(alloc);
    let mut ports = ports;
    'ports: while let Some(port) = ports.pop() {
        let Port {
            pass,
            link: _,
            report,
        } = port;
        passes.push(pass).ok()?;
        reports.push(report?).ok()?;
    }
    Some((passes, reports))
}

/// How many passes have the mark of a stopped site, and how many that of a full log.
pub fn marks_of<L: Opening>(passes: &[Pass<L>]) -> (u64, u64) {
    let mut frozen = 0u64;
    let mut full = 0u64;
    for pass in passes {
        frozen = frozen.saturating_add(u64::from(pass.was_frozen()));
        full = full.saturating_add(u64::from(pass.was_full()));
    }
    (frozen, full)
}

/// What the site answers to an ask, if there is one.
pub fn answered<L: Opening, R: Wait>(
    rt: &R,
    site: &Site<Fake, L>,
    pass: &mut Pass<L>,
    ask: Option<Ask>,
) -> Option<Reply> {
    match ask {
        Some(ask) => Some(site.call(rt, pass, Call::Ask(ask))),
        None => None,
    }
}

/// What the site tells.
pub fn told<L: Opening, R: Wait>(
    rt: &R,
    site: &Site<Fake, L>,
    pass: &mut Pass<L>,
) -> Option<Delta> {
    match site.call(rt, pass, Call::Snapshot) {
        Reply::Snapshot(delta) => Some(delta),
        _ => None,
    }
}

/// Closes a site, again where the first closing found no memory.
pub fn closed<L: Opening, R: Wait>(
    rt: &R,
    site: Site<Fake, L>,
    passes: Vec<Pass<L>>,
) -> Option<Transcript> {
    match site.close(rt, passes) {
        Ok((transcript, _keeper)) => Some(transcript),
        Err((CloseError::Memory, site, passes)) => match site.close(rt, passes) {
            Ok((transcript, _keeper)) => Some(transcript),
            Err(_) => None,
        },
        Err(_) => None,
    }
}

fn run_over<L: Opening + Send + Sync, R: Threads + Wait + Sync>(
    rt: &R,
    alloc: Global,
    blank: Blank,
    passes: u16,
    job: Job,
) -> Option<Outcome>
    requires name { blank.name ≡ L.name }
    requires parts { blank.parts ≡ L.parts }
    requires unknown { (d : DurableState) → ¬ L.kept d }
    requires one_each { blank.parts ≡ passes }
{
    let (site, mut all) = opened::<L>(alloc, blank, &job, passes)?;
    let turns = job.turns.min(1_000_000_000);
    let mut caller = all.pop()?;
    let before = answered(rt, &site, &mut caller, job.before);
    let mut ports = ports_of(alloc, &mut all, job.ends)?;
    run_links(rt, alloc, &site, ports.as_mut_slice(), turns);
    let (mut all, reports) = parts_of(alloc, ports)?;
    let marks = marks_of(all.as_slice());
    let after = answered(rt, &site, &mut caller, job.after);
    let known = told(rt, &site, &mut caller);
    all.push(caller).ok()?;
    let transcript = closed(rt, site, all)?;
    Some(Outcome {
        before,
        reports,
        after,
        known,
        marks,
        transcript,
    })
}

/// Opens a site, runs its links and closes it; `None` where there was no memory to do so.
pub fn run_site<R: Threads + Wait + Sync>(rt: &R, alloc: Global, job: Job) -> Option<Outcome> {
    let Ok(ends) = u16::try_from(job.ends.len()) else {
        return None;
    };
    let passes = ends.checked_add(1)?;
    let blank = Blank::new(u64::from(passes));
    run_over::<Brand, R>(rt, alloc, blank, passes, job)
}
