//! Closed logs of sites at work.
use crate::texts::{Record, TWO_RECORDS, TWO_SEATS, are_kept, layout_of, written};
use admission_core::{Ask, Call, Reply, SiteCore};
use desk_log::{Entries, Entry, Run, Runs, Transcript};
use merge_core::{Delta, Layout};
use std::alloc::Global;

// One step of a site, whose number comes first; the record comes second.
#[derive(Clone, Copy)]
enum Step {
    Read(usize, u16, u64),
    Announce(usize, u16, u64),
    Quill(usize, u16, u64),
    Leave(usize, u16, u64),
    /// Seats for another site.
    Give(usize, u16, u16, u64),
    Help(usize, u16),
    /// The site tells what it knows; the last such text is the message.
    Send(usize),
    /// The site hears the message.
    Take(usize),
    /// The site begins again with what it kept, and knows so many sites.
    Open(usize, u16),
}

// Sites that know so many sites at first, and what they do.
#[derive(Clone, Copy)]
struct Story {
    records: &'static [Record],
    sites: &'static [u16],
    steps: &'static [Step],
}

// A site at work: its core, its run, and the runs before it.
#[derive(Drop)]
struct Worker {
    core: SiteCore,
    run: Run,
    runs: Vec<Run>,
}

// Three sites, of which two are told of the third one later.
static TOLD: [Step; 26] = [
    Step::Read(0, 0, 7),
    Step::Read(1, 1, 1_000_000_000_000),
    Step::Announce(1, 0, 5),
    Step::Give(0, 0, 1, 1),
    Step::Give(0, 0, 2, 1),
    Step::Send(0),
    Step::Take(1),
    Step::Send(1),
    Step::Take(0),
    Step::Open(0, 3),
    Step::Read(0, 0, 8),
    Step::Read(0, 9, 8),
    Step::Give(0, 0, 2, 1),
    Step::Leave(0, 0, 7),
    Step::Help(0, 0),
    Step::Send(0),
    Step::Take(1),
    Step::Quill(1, 0, 5),
    Step::Open(1, 3),
    Step::Quill(1, 0, 5),
    Step::Leave(1, 0, 5),
    Step::Send(1),
    Step::Take(2),
    Step::Announce(2, 1, 3),
    Step::Open(2, 3),
    Step::Open(2, 3),
];

// A site that knows itself alone, and then another one.
static GROWN: [Step; 4] = [
    Step::Read(0, 0, 7),
    Step::Give(0, 0, 1, 1),
    Step::Open(0, 2),
    Step::Give(0, 0, 1, 1),
];

// The lines of both sites then.
const GROWN_TEXT: &str =
    "{\"book\":\"{\\\"from\\\":0,\\\"rows\\\":[],\\\"v\\\":1}\",\"sessions\":[],\"site\":0,\"sites\":1}
{\"call\":\"read a 7\",\"pass\":0,\"reply\":\"admitted\"}
{\"call\":\"give a 1 1\",\"pass\":0,\"reply\":\"refused NoSite\"}
{\"book\":\"{\\\"from\\\":0,\\\"rows\\\":[{\\\"ann\\\":0,\\\"fin\\\":0,\\\"out\\\":[2,0],\\\"r\\\":0,\\\"s\\\":0,\\\"taken\\\":1}],\\\"v\\\":1}\",\"sessions\":[\"a 7 reader\"],\"site\":0,\"sites\":2}
{\"call\":\"give a 1 1\",\"pass\":0,\"reply\":\"given\"}
{\"book\":\"{\\\"from\\\":1,\\\"rows\\\":[],\\\"v\\\":1}\",\"sessions\":[],\"site\":1,\"sites\":2}
";

// A run without entries that begins with what the site has.
fn run_of(alloc: Global, core: &SiteCore) -> Option<Run> {
    Some(Run {
        sites: core.layout().sites(),
        first: core.durable().ok()?,
        entries: Entries::from_vec(Vec::new(alloc)),
    })
}

fn workers(alloc: Global, story: Story) -> Option<Vec<Worker>> {
    let mut all = Vec::new(alloc);
    for (site, sites) in story.sites.iter().enumerate() {
        let layout = layout_of(alloc, *sites, story.records)?;
        let site = u16::try_from(site).ok()?;
        if site >= layout.sites() {
            return None;
        }
        let core = SiteCore::new(alloc, layout, site).ok()?;
        let run = run_of(alloc, &core)?;
        let runs = Vec::new(alloc);
        all.push(Worker { core, run, runs }).ok()?;
    }
    Some(all)
}

// A call is answered and logged.
fn serve(worker: Worker, call: Call) -> Option<Worker> {
    let Worker {
        mut core,
        run,
        runs,
    } = worker;
    let Run {
        sites,
        first,
        entries,
    } = run;
    let prepared = core.prepare(&call);
    let reply = core.apply(prepared);
    let mut entries = entries.into_vec();
    entries
        .push(Entry {
            pass: 0,
            call,
            reply,
        })
        .ok()?;
    let entries = Entries::from_vec(entries);
    let run = Run {
        sites,
        first,
        entries,
    };
    Some(Worker { core, run, runs })
}

// The run ends, and another one begins.
fn begin_again(alloc: Global, worker: Worker, layout: Layout) -> Option<Worker> {
    let Worker {
        core,
        run,
        mut runs,
    } = worker;
    let part = core.durable().ok()?;
    let core = SiteCore::restore(alloc, layout, core.site(), part).ok()?;
    runs.push(run).ok()?;
    let run = run_of(alloc, &core)?;
    Some(Worker { core, run, runs })
}

// The site of a step.
fn site_of(step: Step) -> usize {
    match step {
        Step::Read(i, ..) | Step::Announce(i, ..) | Step::Quill(i, ..) | Step::Leave(i, ..) => i,
        Step::Give(i, ..) => i,
        Step::Help(i, _) | Step::Open(i, _) => i,
        Step::Send(i) | Step::Take(i) => i,
    }
}

// The call of a step that is one.
fn call_of(alloc: Global, message: &Option<Delta>, step: Step) -> Option<Call> {
    Some(match step {
        Step::Read(_, r, h) => Call::Ask(Ask::Read { r, h }),
        Step::Announce(_, r, h) => Call::Ask(Ask::Announce { r, h }),
        Step::Quill(_, r, h) => Call::Ask(Ask::Quill { r, h }),
        Step::Leave(_, r, h) => Call::Ask(Ask::Leave { r, h }),
        Step::Give(_, r, to, seats) => Call::Ask(Ask::Give { r, to, seats }),
        Step::Help(_, r) => Call::Ask(Ask::Help { r }),
        Step::Send(_) => Call::Snapshot,
        Step::Take(_) => Call::Merge(message.as_ref()?.try_copy(alloc).ok()?),
        Step::Open(..) => return None,
    })
}

// The message that the last reply of a worker is, if it is one.
fn message_of(alloc: Global, worker: &Worker) -> Option<Delta> {
    match &worker.run.entries.as_slice().last()?.reply {
        Reply::Snapshot(delta) => delta.try_copy(alloc).ok(),
        _ => None,
    }
}

// The transcript that a worker leaves.
fn transcript_of(worker: Worker) -> Option<Transcript> {
    let Worker {
        core,
        run,
        mut runs,
    } = worker;
    runs.push(run).ok()?;
    Some(Transcript {
        site: core.site(),
        runs: Runs::from_vec(runs),
    })
}

// A worker after a step.
fn worked(
    alloc: Global,
    story: Story,
    worker: Worker,
    message: &Option<Delta>,
    step: Step,
) -> Option<Worker> {
    if let Step::Open(_, sites) = step {
        return begin_again(alloc, worker, layout_of(alloc, sites, story.records)?);
    }
    serve(worker, call_of(alloc, message, step)?)
}

// The transcripts that a story leaves.
fn played(alloc: Global, story: Story) -> Option<Vec<Transcript>> {
    let mut all = workers(alloc, story)?;
    let mut message = None;
    for step in story.steps {
        let at = site_of(*step);
        if at >= all.len() {
            return None;
        }
        let worker = worked(alloc, story, all.remove(at), &message, *step)?;
        if let Step::Send(_) = step {
            message = message_of(alloc, &worker);
        }
        all.insert(at, worker).ok()?;
    }
    let mut transcripts = Vec::new(alloc);
    for worker in all {
        transcripts.push(transcript_of(worker)?).ok()?;
    }
    Some(transcripts)
}

// Whether the logs of three sites come back from their text.
fn come_back(alloc: Global) -> Option<bool> {
    let story = Story {
        records: &TWO_RECORDS,
        sites: &[2, 2, 3],
        steps: &TOLD,
    };
    let layout = layout_of(alloc, 3, story.records)?;
    let transcripts = played(alloc, story)?;
    let text = written(alloc, &layout, transcripts.as_slice())?;
    are_kept(alloc, &layout, transcripts.as_slice(), text.as_str())
}

// Whether the logs of a site that grew, and of the other one, have these lines and come back.
fn grown_come_back(alloc: Global) -> Option<bool> {
    let story = Story {
        records: &TWO_SEATS,
        sites: &[1, 2],
        steps: &GROWN,
    };
    let layout = layout_of(alloc, 2, story.records)?;
    let transcripts = played(alloc, story)?;
    are_kept(alloc, &layout, transcripts.as_slice(), GROWN_TEXT)
}

#[test]
fn closed_logs_come_back(rt: HostRuntime) {
    assert!(rt; come_back(rt.alloc()) == Some(true));
    assert!(rt; grown_come_back(rt.alloc()) == Some(true));
}
