//! The notices of writers: what each call answers.
use grow_counters::COUNTER_LIMIT;
use std::alloc::Global;
use writer_notices::{MOST_WRITERS, NoticeError, Notices};

// A call of the notices, and its answer, where it has one.
enum Step {
    Sites(u16),
    Unfinished(Option<u16>),
    Announce(u16, Result<u64, NoticeError>),
    // As many writers as a site may have are announced under the numbers from 1 on.
    AnnounceAll(u16),
    // Whether more were announced at a site than have finished.
    IsOpen(u16, bool),
    Finish(u16),
    OpenAt(u16, u64),
    // The counters of a site, and how many rose.
    JoinRow(u16, u64, u64, u64),
    // Other notices are joined, and so many counters rise.
    Join(u64),
}

// The 65th unfinished writer of a site is refused.
const WRITERS: [Step; 12] = [
    Step::Unfinished(None),
    Step::Sites(3),
    Step::AnnounceAll(1),
    Step::Sites(3),
    Step::Announce(1, Err(NoticeError::TooManyWriters)),
    Step::Unfinished(Some(1)),
    Step::Sites(3),
    Step::IsOpen(1, true),
    Step::Finish(1),
    Step::Sites(3),
    Step::OpenAt(1, 63),
    Step::Announce(1, Ok(65)),
];

const OTHER: [Step; 3] = [Step::Sites(2), Step::Announce(1, Ok(1)), Step::Sites(2)];

// Received counters are joined, and a counter stops at its limit.
const JOINED: [Step; 7] = [
    Step::Sites(2),
    Step::JoinRow(0, COUNTER_LIMIT, COUNTER_LIMIT, 2),
    Step::Sites(2),
    Step::Announce(0, Err(NoticeError::CounterFull)),
    Step::Sites(2),
    Step::Join(1),
    Step::Unfinished(Some(1)),
];

fn notices_of(alloc: Global, sites: u16) -> Option<Notices> {
    if sites > 16 {
        return None;
    }
    Notices::new(alloc, sites).ok()
}

fn announce(it: &mut Notices, s: u16) -> Option<Result<u64, NoticeError>> {
    if s >= it.sites() {
        return None;
    }
    Some(it.announce(s))
}

fn announces_all(it: &mut Notices, s: u16) -> bool {
    for n in 1..=MOST_WRITERS {
        if announce(it, s) != Some(Ok(n)) {
            return false;
        }
    }
    true
}

fn is_open(it: &Notices, s: u16) -> Option<bool> {
    if s >= it.sites() {
        return None;
    }
    Some(it.finished(s) < it.announced(s))
}

fn finish(it: &mut Notices, s: u16) -> bool {
    if s >= it.sites() || it.finished(s) >= it.announced(s) {
        return false;
    }
    it.finish(s);
    true
}

fn open_at(it: &Notices, s: u16) -> Option<u64> {
    if s >= it.sites() {
        return None;
    }
    Some(it.open_at(s))
}

fn join_row(it: &mut Notices, s: u16, announced: u64, finished: u64) -> Option<u64> {
    if s >= it.sites() || finished > announced || announced > COUNTER_LIMIT {
        return None;
    }
    Some(it.join_row(s, announced, finished))
}

fn join(it: &mut Notices, other: &Notices) -> Option<u64> {
    if other.sites() != it.sites() {
        return None;
    }
    Some(it.join(other))
}

// Whether a call has its answer.
fn is_answered(it: &mut Notices, other: &Notices, step: &Step) -> bool {
    match step {
        Step::Sites(sites) => it.sites() == *sites,
        Step::Unfinished(site) => it.unfinished() == *site,
        Step::Announce(s, answer) => announce(it, *s) == Some(*answer),
        Step::AnnounceAll(s) => announces_all(it, *s),
        Step::IsOpen(s, answer) => is_open(it, *s) == Some(*answer),
        Step::Finish(s) => finish(it, *s),
        Step::OpenAt(s, count) => open_at(it, *s) == Some(*count),
        Step::JoinRow(s, announced, finished, risen) => {
            join_row(it, *s, *announced, *finished) == Some(*risen)
        }
        Step::Join(risen) => join(it, other) == Some(*risen),
    }
}

// The first of these calls that is answered otherwise.
fn first_wrong(it: &mut Notices, other: &Notices, steps: &[Step]) -> Option<usize> {
    for (k, step) in steps.iter().enumerate() {
        if !is_answered(it, other, step) {
            return Some(k);
        }
    }
    None
}

// The same for other notices and then for those that join them, of so many sites.
fn wrong_at_two(
    alloc: Global,
    sites: u16,
    other_steps: &[Step],
    steps: &[Step],
) -> Option<[Option<usize>; 2]> {
    let mut it = notices_of(alloc, sites)?;
    let mut other = notices_of(alloc, sites)?;
    let first = first_wrong(&mut other, &it, other_steps);
    Some([first, first_wrong(&mut it, &other, steps)])
}

const NONE: Option<[Option<usize>; 2]> = Some([None, None]);

#[test]
fn writers_are_announced_and_finished(rt: HostRuntime) {
    assert!(rt; wrong_at_two(rt.alloc(), 3, &[], &WRITERS) == NONE);
}

#[test]
fn notices_are_joined(rt: HostRuntime) {
    assert!(rt; wrong_at_two(rt.alloc(), 2, &OTHER, &JOINED) == NONE);
}
