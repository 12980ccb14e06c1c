//! A site over two files of which one stops at a call: whichever call that is, what was answered is kept, and at most
//! the call in doubt beside it.
use super::runs::{NO_LINE, Script, served};
use crate::files::{Work, closed_after, empty_files, found_after_crash, fused, left_after};
use exit_status::{Status, StoreRefusal};
use sqlite::{Alter, Connection, Files};
use sqlite_disk::Crash;
use std::alloc::Global;
use std::sync::Wait;

// How a run ended, and what it wrote.
type Answer = (Status, &'static str);

// A run that is stopped: the one before it, if there was one, which is not; and its script. Its answers, by how many of
// its changes were kept before the device stopped: behind the last of these that where it did not, and at the end that
// where the store could not be opened. Then the answers to the two readers at the next run, by how many of the changes
// are kept.
struct Story {
    first: Option<Script>,
    script: Script,
    changes: usize,
    answers: &'static [Answer],
    found: &'static [Answer],
}

// The store could not be opened.
const UNOPENED: Answer = (Status::NoStore(StoreRefusal::StoreFault), "");

// Two readers come.
const READERS: Script = Script {
    lines: "read a 7\nread a 8\n",
    ..NO_LINE
};

static STORIES: [Story; 2] = [
    // A line behind them says nothing.
    Story {
        first: None,
        script: Script {
            lines: "read a 7\nread a 8\nreed a 9\n",
            ..NO_LINE
        },
        changes: 2,
        answers: &[
            (
                Status::Fault,
                "refused StoreFault\nrefused Frozen\nline 3 refused BadWord\n",
            ),
            (
                Status::Fault,
                "admitted\nrefused StoreFault\nline 3 refused BadWord\n",
            ),
            (
                Status::Refused,
                "admitted\nadmitted\nline 3 refused BadWord\n",
            ),
            UNOPENED,
        ],
        found: &[
            (Status::Done, "admitted\nadmitted\n"),
            (Status::Done, "refused AlreadyHere\nadmitted\n"),
            (Status::Done, "refused AlreadyHere\nrefused AlreadyHere\n"),
        ],
    },
    // The second start of a site: the reader of the first is inside, and another comes.
    Story {
        first: Some(Script {
            lines: "read a 7\n",
            ..NO_LINE
        }),
        script: READERS,
        changes: 1,
        answers: &[
            (Status::Fault, "refused AlreadyHere\nrefused StoreFault\n"),
            (Status::Done, "refused AlreadyHere\nadmitted\n"),
            UNOPENED,
        ],
        found: &[
            (Status::Done, "refused AlreadyHere\nadmitted\n"),
            (Status::Done, "refused AlreadyHere\nrefused AlreadyHere\n"),
        ],
    },
];

// Which of these answers it is.
fn place_of(ended: Status, written: &[u8], answers: &[Answer]) -> Option<usize> {
    let mut place = 0usize;
    for (status, text) in answers {
        if *status == ended && text.as_bytes() == written {
            return Some(place);
        }
        place = place.saturating_add(1);
    }
    None
}

// Serves a script, and gives which answer it came to, and the database.
fn answered<S: Alter + Drop>(
    alloc: Global,
    connection: Connection<S>,
    script: Script,
    answers: &[Answer],
) -> Option<(usize, Connection<S>)> {
    let (ended, written, connection) = served(alloc, connection, script)?;
    match place_of(ended, written.bytes(), answers) {
        Some(place) => Some((place, connection)),
        None => None,
    }
}

/// A script is carried out whole.
#[derive(Drop)]
struct Serves(Script);

impl Work for Serves {
    type Found = bool;

    fn over<S: Alter + Drop, R: Wait>(
        &self,
        _rt: &R,
        alloc: Global,
        connection: Connection<S>,
    ) -> Option<(bool, Connection<S>)> {
        let (ended, _, connection) = served(alloc, connection, self.0)?;
        if ended == Status::Done {
            Some((true, connection))
        } else {
            None
        }
    }
}

/// A script, and which of these answers it comes to.
#[derive(Drop)]
struct Answers {
    script: Script,
    answers: &'static [Answer],
}

impl Work for Answers {
    type Found = usize;

    fn over<S: Alter + Drop, R: Wait>(
        &self,
        _rt: &R,
        alloc: Global,
        connection: Connection<S>,
    ) -> Option<(usize, Connection<S>)> {
        answered(alloc, connection, self.script, self.answers)
    }
}

// The files that a run begins with, made of empty ones.
fn first_files<D: Crash + Drop, R: Wait>(
    rt: &R,
    alloc: Global,
    empty: Files<D>,
    story: &Story,
) -> Option<Files<D>> {
    let Some(script) = story.first else {
        return Some(empty);
    };
    let (_, files) = closed_after(rt, alloc, empty, &Serves(script))?;
    Some(files)
}

// Which answer it is over files of which each stops after so many calls, and which may not open, and how many changes are
// found to be kept once they have crashed.
fn stopped<R: Wait>(
    rt: &R,
    alloc: Global,
    story: &Story,
    log: u64,
    db: u64,
) -> Option<(usize, usize)> {
    let first = fused(first_files(rt, alloc, empty_files(alloc), story)?, log, db);
    let plays = Answers {
        script: story.script,
        answers: story.answers,
    };
    let (answer, left) = left_after(rt, alloc, first, &plays)?;
    let finds = Answers {
        script: READERS,
        answers: story.found,
    };
    let found = found_after_crash(rt, alloc, left, &finds)?;
    Some((answer.unwrap_or(story.changes.saturating_add(1)), found))
}

// Whether what was answered is found, and no more than the call in doubt beside it.
fn is_kept(story: &Story, answer: usize, found: usize) -> bool {
    if answer > story.changes {
        return found == 0;
    }
    found == answer || (answer < story.changes && found == answer.saturating_add(1))
}

// At how many calls of one file the device was stopped until the script was carried out whole: where the store was not
// opened, where none of the changes was kept, and where some were.
fn stops<R: Wait>(rt: &R, alloc: Global, story: &Story, of_log: bool) -> Option<[u64; 3]> {
    let mut unopened = 0u64;
    let mut first = 0u64;
    let mut second = 0u64;
    for calls in 0..400u64 {
        let (log, db) = if of_log {
            (calls, 10_000)
        } else {
            (10_000, calls)
        };
        let (answer, found) = stopped(rt, alloc, story, log, db)?;
        if !is_kept(story, answer, found) {
            return None;
        }
        if answer == story.changes {
            return Some([unopened, first, second]);
        }
        if answer > story.changes {
            unopened = unopened.saturating_add(1);
        } else if answer == 0 {
            first = first.saturating_add(1);
        } else {
            second = second.saturating_add(1);
        }
    }
    None
}

// Which of these stops of a story there were.
fn kinds<R: Wait>(rt: &R, alloc: Global, story: usize, of_log: bool) -> Option<[bool; 3]> {
    let [unopened, first, second] = stops(rt, alloc, STORIES.get(story)?, of_log)?;
    Some([unopened >= 1, first >= 1, second >= 1])
}

#[test]
fn what_was_answered_is_kept_wherever_the_log_stops(rt: HostRuntime) {
    assert!(rt; kinds(&rt, rt.alloc(), 0, true) == Some([true, true, true]));
    assert!(rt; kinds(&rt, rt.alloc(), 1, true) == Some([true, true, false]));
}

#[test]
fn what_was_answered_is_kept_wherever_the_database_stops(rt: HostRuntime) {
    for story in 0..STORIES.len() {
        let kinds = kinds(&rt, rt.alloc(), story, false);
        assert!(rt; kinds.map(|kinds| kinds[0]) == Some(true), "{story}");
    }
}
