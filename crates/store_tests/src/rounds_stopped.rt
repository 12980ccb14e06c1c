//! Rounds of changes over files that stop at each call in turn: after a crash a store is found as a number of whole rounds
//! left it, those that were made, or those and the one in hand.
use crate::databases::layout;
use crate::files::{Stop, StoppedBy, Work, found_after_crash, left_after, left_by, stopping};
use crate::rounds::{each_made, holds, made_of};
use admission_core::Durable;
use merge_core::Layout;
use site_store::{Keeper, SqlKeeper};
use sqlite::{Alter, Connection};
use std::alloc::Global;
use std::sync::Wait;

/// Rounds of which each but the first begins with what the one before it left, one of them of one change alone.
static ROUNDS: [u64; 3] = [3, 1, 4];

/// What a store holds after none of these rounds, one, two and so on.
fn wanted(alloc: Global, layout: &Layout) -> Option<[Durable; 4]> {
    Some([
        each_made(alloc, layout, &[])?,
        each_made(alloc, layout, &ROUNDS[..1])?,
        each_made(alloc, layout, &ROUNDS[..2])?,
        each_made(alloc, layout, &ROUNDS)?,
    ])
}

/// After how many rounds a keeper would hold what it does.
fn rounds_in<K: Keeper>(alloc: Global, keeper: &mut K, wanted: &[Durable]) -> Option<usize> {
    let mut rounds = 0usize;
    for durable in wanted {
        if holds(alloc, keeper, durable) {
            return Some(rounds);
        }
        rounds = rounds.saturating_add(1);
    }
    None
}

/// How many rounds a keeper over a database makes; none where the store is not opened.
fn made_over<S: Alter + Drop>(
    alloc: Global,
    layout: &Layout,
    connection: Connection<S>,
) -> Option<(usize, Connection<S>)> {
    if !connection.is_autocommit() {
        return None;
    }
    match SqlKeeper::open(alloc, connection, layout, 0, None) {
        Ok(mut keeper) => {
            let made = made_of(alloc, layout, &mut keeper, &ROUNDS);
            Some((made, keeper.into_connection()))
        }
        Err((_, back)) => Some((0, back)),
    }
}

/// After how many rounds a store in a database holds what it does.
fn found_in<S: Alter + Drop>(
    alloc: Global,
    layout: &Layout,
    connection: Connection<S>,
) -> Option<(usize, Connection<S>)> {
    if !connection.is_autocommit() {
        return None;
    }
    let wanted = wanted(alloc, layout)?;
    let Ok(mut keeper) = SqlKeeper::open(alloc, connection, layout, 0, None) else {
        return None;
    };
    match rounds_in(alloc, &mut keeper, &wanted) {
        Some(rounds) => Some((rounds, keeper.into_connection())),
        None => None,
    }
}

/// How many rounds are made over a database.
#[derive(Drop)]
struct Makes;

impl Work for Makes {
    type Found = usize;

    fn over<S: Alter + Drop, R: Wait>(
        &self,
        _rt: &R,
        alloc: Global,
        connection: Connection<S>,
    ) -> Option<(usize, Connection<S>)> {
        let layout = layout(alloc, 2, 2)?;
        made_over(alloc, &layout, connection)
    }
}

/// After how many rounds a store that opens holds what it does.
#[derive(Drop)]
struct Finds;

impl Work for Finds {
    type Found = usize;

    fn over<S: Alter + Drop, R: Wait>(
        &self,
        _rt: &R,
        alloc: Global,
        connection: Connection<S>,
    ) -> Option<(usize, Connection<S>)> {
        let layout = layout(alloc, 2, 2)?;
        found_in(alloc, &layout, connection)
    }
}

/// How many rounds were made before a file stopped after so many calls, and how many are found after a crash.
fn stopped<R: Wait>(rt: &R, alloc: Global, stop: Stop, calls: u64) -> Option<(usize, usize)> {
    let (made, left) = left_after(rt, alloc, stopping(alloc, stop, calls), &Makes)?;
    let found = found_after_crash(rt, alloc, left_by(alloc, left, stop.by)?, &Finds)?;
    Some((made.unwrap_or(0), found))
}

/// At how many calls the rounds were stopped until all were made, and at how many of these the round in hand was found whole,
/// if each stop left the rounds that were made, or those and the one in hand.
fn counted<R: Wait>(rt: &R, alloc: Global, stop: Stop) -> Option<(u64, u64)> {
    let mut whole = 0u64;
    for calls in 0..400u64 {
        let (made, found) = stopped(rt, alloc, stop, calls)?;
        if found == made.saturating_add(1) {
            whole = whole.saturating_add(1);
        } else if found != made {
            return None;
        }
        if made == ROUNDS.len() {
            return Some((calls, whole));
        }
    }
    None
}

/// Each file of a machine that stops, and the log of a process that dies; and at how many calls at least the round in hand is
/// found whole.
static STOPS: [(Stop, u64); 3] = [
    (
        Stop {
            of_log: true,
            by: StoppedBy::Machine,
        },
        0,
    ),
    (
        Stop {
            of_log: false,
            by: StoppedBy::Machine,
        },
        0,
    ),
    (
        Stop {
            of_log: true,
            by: StoppedBy::Process,
        },
        1,
    ),
];

#[test]
fn rounds_survive_each_stop(rt: HostRuntime) {
    for (k, (stop, least)) in STOPS.iter().enumerate() {
        let count = counted(&rt, rt.alloc(), *stop);
        let survive = matches!(count, Some((calls, whole)) if calls >= 10 && whole >= *least);
        assert!(rt; survive, "row {k}: {count:?}");
    }
}
