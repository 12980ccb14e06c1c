//! A list of sessions: what each call answers, and the order of the list.
use session_list::{Phase, Session, Sessions};
use std::alloc::Global;

// A call of a list, and its answer, where it has one.
enum Step {
    // A reader comes, unless its holder has a session at the record.
    Arrive(u16, u64, bool),
    Remove(u16, u64, Option<Phase>),
    // A phase is set, if the holder has a session at the record.
    Change(u16, u64, Phase, bool),
    PhaseOf(u16, u64, Option<Phase>),
    Count(usize),
    IsEmpty(bool),
}

// Removals in the middle, a return of the same holder, a changed phase.
const STEPS: [Step; 18] = [
    Step::IsEmpty(true),
    Step::Arrive(0, 1, true),
    Step::Arrive(0, 2, true),
    Step::Arrive(0, 3, true),
    Step::Arrive(0, 4, true),
    Step::Arrive(0, 5, true),
    Step::Arrive(0, 3, false),
    Step::Remove(0, 3, Some(Phase::Reader)),
    Step::Remove(0, 3, None),
    Step::Remove(0, 1, Some(Phase::Reader)),
    Step::Arrive(0, 3, true),
    Step::Change(0, 4, Phase::Waiting, true),
    Step::Change(0, 4, Phase::Writer, true),
    Step::Change(1, 4, Phase::Writer, false),
    Step::Count(4),
    Step::IsEmpty(false),
    Step::PhaseOf(0, 4, Some(Phase::Writer)),
    Step::PhaseOf(0, 1, None),
];

const LEFT: [Session; 4] = [
    Session {
        r: 0,
        h: 2,
        phase: Phase::Reader,
    },
    Session {
        r: 0,
        h: 4,
        phase: Phase::Writer,
    },
    Session {
        r: 0,
        h: 5,
        phase: Phase::Reader,
    },
    Session {
        r: 0,
        h: 3,
        phase: Phase::Reader,
    },
];

fn reader(r: u16, h: u64) -> Session {
    Session {
        r,
        h,
        phase: Phase::Reader,
    }
}

// Adds a reader, if its holder has no session there.
fn arrive(sessions: &mut Sessions, r: u16, h: u64) -> Option<bool> {
    if sessions.phase(r, h).is_some() {
        return Some(false);
    }
    sessions.reserve().ok()?;
    sessions.push(Session {
        r,
        h,
        phase: Phase::Reader,
    });
    Some(true)
}

// Changes a phase, if the holder has a session there.
fn change(sessions: &mut Sessions, r: u16, h: u64, phase: Phase) -> bool {
    if sessions.phase(r, h).is_none() {
        return false;
    }
    sessions.set_phase(r, h, phase);
    true
}

// Whether a call has its answer.
fn is_answered(sessions: &mut Sessions, step: &Step) -> bool {
    match step {
        Step::Arrive(r, h, answer) => arrive(sessions, *r, *h) == Some(*answer),
        Step::Remove(r, h, phase) => sessions.remove(*r, *h) == *phase,
        Step::Change(r, h, phase, answer) => change(sessions, *r, *h, *phase) == *answer,
        Step::PhaseOf(r, h, phase) => sessions.phase(*r, *h) == *phase,
        Step::Count(count) => sessions.len() == *count,
        Step::IsEmpty(answer) => sessions.is_empty() == *answer,
    }
}

// The first of these calls that is answered otherwise.
fn first_wrong(sessions: &mut Sessions, steps: &[Step]) -> Option<usize> {
    for (k, step) in steps.iter().enumerate() {
        if !is_answered(sessions, step) {
            return Some(k);
        }
    }
    None
}

fn lists(alloc: Global, sessions: &Sessions, want: &[Session]) -> Option<bool> {
    let list = sessions.list(alloc).ok()?;
    Some(list.as_slice() == want)
}

// The first wrong call of an empty list, and whether the list that is left is this one.
fn run(alloc: Global, steps: &[Step], left: &[Session]) -> Option<(Option<usize>, bool)> {
    let mut sessions = Sessions::new(alloc);
    let wrong = first_wrong(&mut sessions, steps);
    Some((wrong, lists(alloc, &sessions, left)?))
}

#[test]
fn keeps_the_order_of_arrival(rt: HostRuntime) {
    assert!(rt; run(rt.alloc(), &STEPS, &LEFT) == Some((None, true)));
}

// Whether the list that is read from a list is the same; none where the list is refused.
fn read_back(alloc: Global, list: &[Session]) -> Option<Option<bool>> {
    match Sessions::from_list(alloc, list).ok()? {
        Some(sessions) => Some(Some(lists(alloc, &sessions, list)?)),
        None => Some(None),
    }
}

// A list is read back in its order, and refused where a holder stands twice at a record.
#[test]
fn reads_a_list_back(rt: HostRuntime) {
    let list = [reader(1, 7), reader(0, 7), reader(1, 6)];
    let twice = [reader(1, 7), reader(0, 7), reader(1, 7)];
    assert!(rt; read_back(rt.alloc(), &list) == Some(Some(true)));
    assert_eq!(rt; read_back(rt.alloc(), &twice), Some(None));
}

// The first of 2,000 holders that does not come to record 2.
fn first_away(sessions: &mut Sessions) -> Option<u64> {
    for h in 0..2000 {
        if arrive(sessions, 2, h) != Some(true) {
            return Some(h);
        }
    }
    None
}

// The first of the first 1,000 holders that does not leave.
fn first_staying(sessions: &mut Sessions) -> Option<u64> {
    for h in 0..1000 {
        if sessions.remove(2, h) != Some(Phase::Reader) {
            return Some(h);
        }
    }
    None
}

// The first session that is not of the next reader of record 2, from holder 1,000 on.
fn first_other(list: &[Session]) -> Option<usize> {
    let mut h = 1000u64;
    for (k, session) in list.iter().enumerate() {
        if *session != reader(2, h) {
            return Some(k);
        }
        h = h.wrapping_add(1);
    }
    None
}

// How many sessions a list has, and the first that is another.
fn count_and_other(alloc: Global, sessions: &Sessions) -> Option<(usize, Option<usize>)> {
    let list = sessions.list(alloc).ok()?;
    Some((list.len(), first_other(list.as_slice())))
}

fn list_of_many(alloc: Global) -> Option<(usize, Option<usize>)> {
    let mut sessions = Sessions::new(alloc);
    if first_away(&mut sessions).is_some() || first_staying(&mut sessions).is_some() {
        return None;
    }
    count_and_other(alloc, &sessions)
}

// 2,000 sessions, the first half of which leaves in order of arrival.
#[test]
fn lists_many_in_order(rt: HostRuntime) {
    assert!(rt; list_of_many(rt.alloc()) == Some((1000, None)));
}
