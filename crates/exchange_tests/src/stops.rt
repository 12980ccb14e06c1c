//! One of two linked sites stops in the middle of a run, and how many turns the four runners may make behind that.
use crate::gates::{Shared, TestGate};
use crate::sites::{Job, Outcome, Shape, WRITER_FIRST, job_of};
use admission_core::{Ask, Call};
use ruled_pair::PairReport;
use std::alloc::Global;
use std::sync::Arc;
use std::sync::atomic::AtomicU64;

/// What stops a site.
#[derive(Clone, Copy, Debug)]
pub enum Stop {
    /// Its log is full behind 16 entries.
    Full,
    /// Its store keeps that its caller announces a writer. It fails as the inbox hears of a seat that the other site gave.
    Hears,
    /// Its store keeps what the inbox hears of the other site's writer. It fails as the outbox gives that site a seat.
    Gives,
}

// The turns of each runner. The turns before the stop are fewer.
const TURNS: u64 = 400;

// The other one of two sites.
fn other_of(site: u16) -> u16 {
    1u16.saturating_sub(site)
}

// The records, and the site that has their seats. A site with one seat of a record keeps it, unless the other site has a
// writer there.
fn shape_of(stops: u16, stop: Stop) -> Shape {
    match stop {
        Stop::Full => WRITER_FIRST,
        Stop::Hears => Shape {
            home: other_of(stops),
            ..WRITER_FIRST
        },
        Stop::Gives => Shape {
            records: 2,
            seats: 1,
            home: stops,
            ..WRITER_FIRST
        },
    }
}

// The site whose caller announces a writer, and the record.
fn writer_of(stops: u16, stop: Stop) -> (u16, u16) {
    match stop {
        Stop::Full => (1, 0),
        Stop::Hears => (stops, 0),
        Stop::Gives => (other_of(stops), 1),
    }
}

// The job of a site, where that site or the other one stops.
fn stopping_job(alloc: Global, site: u16, stops: u16, stop: Stop) -> Job {
    let mut job = job_of(shape_of(stops, stop), site, Vec::new(alloc), TURNS);
    let (announces, r) = writer_of(stops, stop);
    if site == announces {
        job.before = Some(Ask::Announce { r, h: 5 });
    }
    if site == stops {
        match stop {
            Stop::Full => job.limit = 16,
            Stop::Hears | Stop::Gives => job.left = Some(1),
        }
    }
    job
}

/// The jobs of site 0 and of site 1.
pub fn stopping_jobs(alloc: Global, stops: u16, stop: Stop) -> (Job, Job) {
    let first = stopping_job(alloc, 0, stops, stop);
    let second = stopping_job(alloc, 1, stops, stop);
    (first, second)
}

// The gate of the site that gives a seat, and that of the other one. The first waits at turn 0 until the second was asked 19
// times. Then 18 texts were put, of which the link holds 16, so the site took two, and has merged the first, with which it
// hears of the writer. At turn 1 it gives the seat, and its store fails. The second gate waits at turn 18 until the first was
// asked behind that. So both outboxes have turns left when the store fails.
fn giving_gates(alloc: Global) -> Option<(TestGate, TestGate)> {
    let first: Shared = Arc::new(alloc, AtomicU64::new(0)).ok()?;
    let second: Shared = Arc::new(alloc, AtomicU64::new(0)).ok()?;
    let gives = TestGate::Follows {
        asked: Arc::try_clone(&first).ok()?,
        at: 0,
        other: Arc::try_clone(&second).ok()?,
        often: 19,
    };
    let hears = TestGate::Follows {
        asked: second,
        at: 18,
        other: first,
        often: 2,
    };
    Some((gives, hears))
}

/// The gates of site 0 and of site 1.
pub fn stopping_gates(alloc: Global, stops: u16, stop: Stop) -> Option<(TestGate, TestGate)> {
    match (stop, stops) {
        (Stop::Full | Stop::Hears, _) => Some((TestGate::Always, TestGate::Always)),
        (Stop::Gives, 0) => giving_gates(alloc),
        (Stop::Gives, _) => {
            let (gives, hears) = giving_gates(alloc)?;
            Some((hears, gives))
        }
    }
}

// How many calls of a site's runners its log has: how often the outbox asked for help and took a snapshot, and how many texts
// the inbox merged.
#[derive(Clone, Copy)]
struct Logged {
    helps: u64,
    snapshots: u64,
    merges: u64,
}

fn logged_calls(ended: &Outcome) -> Option<Logged> {
    let mut logged = Logged {
        helps: 0,
        snapshots: 0,
        merges: 0,
    };
    for entry in ended.transcript.runs.as_slice().first()?.entries.as_slice() {
        match (entry.pass, &entry.call) {
            (0, Call::Ask(_)) => logged.helps = logged.helps.saturating_add(1),
            (0, Call::Snapshot) => logged.snapshots = logged.snapshots.saturating_add(1),
            (1, Call::Merge(_)) => logged.merges = logged.merges.saturating_add(1),
            _ => {}
        }
    }
    Some(logged)
}

// The other site's outbox makes so many turns at most whose texts the stopped site doesn't merge. Its inbox takes one text
// more, and closes the link as it can't merge that. The link holds 16, and the text of the last turn is lost.
const LATE_TURNS: u64 = 18;

// Whether each runner ended as soon as it can, whatever the schedule. A call that the stopped site's log has was made before
// the stop, or met it. Behind these each runner of this site makes one call, which tells it that the site has stopped. Its
// outbox sent the texts of snapshots that the log has and no others, so the other site's inbox took no more.
fn ends_soon(stopped: &Outcome, sends: &PairReport, hears: &PairReport) -> Option<bool> {
    let logged = logged_calls(stopped)?;
    let outbox = sends.out.turns <= logged.helps.saturating_add(1);
    let sent = sends.out.sent <= logged.snapshots && sends.got.taken <= logged.snapshots;
    let inbox = hears.got.taken <= logged.merges.saturating_add(1);
    let late = hears.out.turns <= logged.merges.saturating_add(LATE_TURNS);
    Some(outbox && sent && inbox && late)
}

// Whether both outboxes had turns left. Where a site stops as it hears, its outbox may be through before.
fn had_turns_left(stop: Stop, sends: &PairReport, hears: &PairReport) -> bool {
    let own = matches!(stop, Stop::Hears) || sends.out.turns < TURNS;
    own && hears.out.turns < TURNS
}

// Whether the marks of the stopped site's runners say what stopped it.
fn is_marked(stop: Stop, marks: (u64, u64)) -> bool {
    match stop {
        Stop::Full => marks == (0, 2),
        Stop::Hears => marks.0 >= 1 && marks.1 == 0,
        Stop::Gives => marks == (2, 0),
    }
}

/// Whether all four runners ended early and soon behind the stop, by what came of the stopped site, and by the reports of the
/// texts that it sent and of those that it heard.
pub fn ends_by_the_stop(
    stop: Stop,
    stopped: &Outcome,
    sends: &PairReport,
    hears: &PairReport,
) -> Option<bool> {
    let soon = ends_soon(stopped, sends, hears)?;
    Some(soon && had_turns_left(stop, sends, hears) && is_marked(stop, stopped.marks))
}
