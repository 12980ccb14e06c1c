//! A site over files that stop at each call in turn, at its first start and at its second, as a desk and behind its lock:
//! what is found then is what was answered, or that and the one call in doubt.
use crate::desks::{
    DeskWork, ENTERS, LEAVE_7, NOTHING, ONE_BACK, ONE_LEFT, ONE_READER, Part, READ_7, READ_8,
    TWO_READERS, Told, answered, ask, is_part, over,
};
use crate::files::{Work, closed_after, empty_files, found_after_crash, fused, left_after};
use crate::sites::{At, run_site};
use crate::stores::serves_over;
use admission_core::Ask;
use desk_log::Desk;
use site_store::Keeper;
use sqlite::{Alter, Connection, Files};
use sqlite_disk::Crash;
use std::alloc::Global;
use std::sync::Wait;

/// A start of a site: whether a reader entered before it, whether it serves behind its lock, its calls and their
/// replies; then what is kept after none of these calls, one, two and so on, and what one more call is answered then.
struct Story {
    is_second: bool,
    by_site: bool,
    calls: &'static [(Ask, Told)],
    kept: &'static [(Part, Told)],
    next: Ask,
}

/// A reader enters, another does, the first leaves and enters again.
const FOUR_CALLS: [(Ask, Told); 4] = [
    (READ_7, Told::Admitted),
    (READ_8, Told::Admitted),
    (LEAVE_7, Told::Left),
    (READ_7, Told::Admitted),
];

const KEPT_OF_FOUR: [(Part, Told); 5] = [
    (NOTHING, Told::Admitted),
    (ONE_READER, Told::AlreadyHere),
    (TWO_READERS, Told::AlreadyHere),
    (ONE_LEFT, Told::Admitted),
    (ONE_BACK, Told::AlreadyHere),
];

/// The reader that is there asks again, and another enters.
const SECOND_START: [(Ask, Told); 2] = [(READ_7, Told::AlreadyHere), (READ_8, Told::Admitted)];

const KEPT_OF_SECOND: [(Part, Told); 3] = [
    (ONE_READER, Told::Admitted),
    (ONE_READER, Told::Admitted),
    (TWO_READERS, Told::AlreadyHere),
];

static STORIES: [Story; 4] = [
    Story {
        is_second: false,
        by_site: false,
        calls: &FOUR_CALLS,
        kept: &KEPT_OF_FOUR,
        next: READ_7,
    },
    Story {
        is_second: true,
        by_site: false,
        calls: &SECOND_START,
        kept: &KEPT_OF_SECOND,
        next: READ_8,
    },
    Story {
        is_second: false,
        by_site: true,
        calls: &FOUR_CALLS,
        kept: &KEPT_OF_FOUR,
        next: READ_7,
    },
    Story {
        is_second: true,
        by_site: true,
        calls: &SECOND_START,
        kept: &KEPT_OF_SECOND,
        next: READ_8,
    },
];

/// What a start was answered: how many calls were kept, and whether the next one is in doubt.
#[derive(Clone, Copy, PartialEq, Eq)]
struct Answered {
    kept: usize,
    in_doubt: bool,
}

const UNOPENED: Answered = Answered {
    kept: 0,
    in_doubt: false,
};

/// Whether a desk is frozen, and says so.
fn is_stopped<K: Keeper>(desk: &mut Desk<K>) -> bool {
    ask(desk, Ask::Leave { r: 0, h: 9 }) == Told::Frozen && desk.is_frozen()
}

/// Makes the calls at a desk, up to the first that the store doesn't take; the desk has to be frozen then.
fn play<K: Keeper>(desk: &mut Desk<K>, story: &Story) -> Option<Answered> {
    let (kept, other) = answered(desk, story.calls);
    let in_doubt = other.is_some();
    if in_doubt && (other != Some(Told::StoreFault) || !is_stopped(desk)) {
        return None;
    }
    Some(Answered { kept, in_doubt })
}

/// What a desk is answered.
#[derive(Drop)]
struct AtDesk(&'static Story);

impl DeskWork for AtDesk {
    type Found = Answered;

    fn at<K: Keeper + Drop>(&self, _alloc: Global, desk: Desk<K>) -> Option<(Answered, K)> {
        let mut desk = desk;
        let answered = play(&mut desk, self.0)?;
        Some((answered, desk.into_keeper()))
    }
}

/// The same over a connection, which a desk may not open on.
fn played_by_desk<S: Alter + Drop>(
    alloc: Global,
    connection: Connection<S>,
    story: &'static Story,
) -> Option<(Answered, Connection<S>)> {
    let (answered, connection) = over(alloc, connection, 2, &AtDesk(story))?;
    Some((answered.unwrap_or(UNOPENED), connection))
}

/// What a site behind its lock is answered, and its connection.
fn played_by_site<S: Alter + Drop, R: Wait>(
    rt: &R,
    alloc: Global,
    connection: Connection<S>,
    story: &Story,
) -> Option<(Answered, Connection<S>)> {
    let (at, _, connection) = run_site(rt, alloc, connection, 2, story.calls)?;
    Some((answered_at(at), connection))
}

fn answered_at(at: At) -> Answered {
    match at {
        At::Unopened => UNOPENED,
        At::Served(kept) => Answered {
            kept,
            in_doubt: false,
        },
        At::Stopped(kept) => Answered {
            kept,
            in_doubt: true,
        },
    }
}

fn played_over<S: Alter + Drop, R: Wait>(
    rt: &R,
    alloc: Global,
    connection: Connection<S>,
    story: &'static Story,
) -> Option<(Answered, Connection<S>)> {
    if story.by_site {
        played_by_site(rt, alloc, connection, story)
    } else {
        played_by_desk(alloc, connection, story)
    }
}

/// Whether a desk begins with what is kept after so many calls, and goes on as after these.
fn goes_on<K: Keeper>(desk: &mut Desk<K>, story: &Story, calls: usize) -> bool {
    match story.kept.get(calls) {
        Some((part, told)) => is_part(desk.first(), *part) && ask(desk, story.next) == *told,
        None => false,
    }
}

/// Whether a desk begins with what was answered, or that and the call in doubt.
fn is_kept<K: Keeper>(desk: &mut Desk<K>, story: &Story, answered: Answered) -> bool {
    goes_on(desk, story, answered.kept)
        || (answered.in_doubt && goes_on(desk, story, answered.kept.saturating_add(1)))
}

/// A reader enters over an empty database.
#[derive(Drop)]
struct EntersFirst;

impl Work for EntersFirst {
    type Found = bool;

    fn over<S: Alter + Drop, R: Wait>(
        &self,
        _rt: &R,
        alloc: Global,
        connection: Connection<S>,
    ) -> Option<(bool, Connection<S>)> {
        match serves_over(alloc, connection, ENTERS) {
            Some(connection) => Some((true, connection)),
            None => None,
        }
    }
}

/// A start, and what it is answered.
#[derive(Drop)]
struct Plays(&'static Story);

impl Work for Plays {
    type Found = Answered;

    fn over<S: Alter + Drop, R: Wait>(
        &self,
        rt: &R,
        alloc: Global,
        connection: Connection<S>,
    ) -> Option<(Answered, Connection<S>)> {
        played_over(rt, alloc, connection, self.0)
    }
}

/// Whether what was answered is found in a database.
#[derive(Drop)]
struct Finds {
    story: &'static Story,
    answered: Answered,
}

impl DeskWork for Finds {
    type Found = bool;

    fn at<K: Keeper + Drop>(&self, _alloc: Global, desk: Desk<K>) -> Option<(bool, K)> {
        let mut desk = desk;
        let found = is_kept(&mut desk, self.story, self.answered);
        Some((found, desk.into_keeper()))
    }
}

impl Work for Finds {
    type Found = bool;

    fn over<S: Alter + Drop, R: Wait>(
        &self,
        _rt: &R,
        alloc: Global,
        connection: Connection<S>,
    ) -> Option<(bool, Connection<S>)> {
        let (found, connection) = over(alloc, connection, 2, self)?;
        Some((found.unwrap_or(false), connection))
    }
}

/// The files that a start begins with, made of empty ones.
fn first_files<D: Crash + Drop, R: Wait>(
    rt: &R,
    alloc: Global,
    empty: Files<D>,
    story: &Story,
) -> Option<Files<D>> {
    if !story.is_second {
        return Some(empty);
    }
    let (_, files) = closed_after(rt, alloc, empty, &EntersFirst)?;
    Some(files)
}

/// How many calls are answered over files of which each stops after so many calls, and which may not open, if that is
/// found once they have crashed.
fn stopped<R: Wait>(
    rt: &R,
    alloc: Global,
    story: &'static Story,
    log: u64,
    db: u64,
) -> Option<usize> {
    let first = fused(first_files(rt, alloc, empty_files(alloc), story)?, log, db);
    let (answered, left) = left_after(rt, alloc, first, &Plays(story))?;
    let answered = answered.unwrap_or(UNOPENED);
    let found = found_after_crash(rt, alloc, left, &Finds { story, answered })?;
    found.then_some(answered.kept)
}

/// At how many calls of one file a start was stopped until it ran to its end, if each stop left what was answered, or
/// that and the call in doubt.
fn stops<R: Wait>(rt: &R, alloc: Global, story: &'static Story, of_log: bool) -> Option<u64> {
    for calls in 0..600u64 {
        let (log, db) = if of_log {
            (calls, 10000)
        } else {
            (10000, calls)
        };
        if stopped(rt, alloc, story, log, db)? == story.calls.len() {
            return Some(calls);
        }
    }
    None
}

/// The same of both files.
fn all_stops<R: Wait>(rt: &R, alloc: Global, story: &'static Story) -> Option<u64> {
    let of_log = stops(rt, alloc, story, true)?;
    Some(of_log.saturating_add(stops(rt, alloc, story, false)?))
}

#[test]
fn a_site_is_found_again_after_each_stop(rt: HostRuntime) {
    for (row, story) in STORIES.iter().enumerate() {
        let count = all_stops(&rt, rt.alloc(), story).unwrap_or(0);
        assert!(rt; count >= 10, "story {row}: {count}");
    }
}
