//! What is done with a database that is the store of a site, step by step.
use crate::databases::{after_texts, in_memory, layout};
use crate::desks::{Shift, over};
use admission_core::{Durable, Phase};
use site_store::{Keeper, KeeperError, SqlKeeper, StoreOpenError};
use sqlite::{Alter, Connection};
use std::alloc::Global;

/// For which site and group a store is opened, and under which layout: so many sites, and so many seats of record `a`.
#[derive(Clone, Copy)]
pub struct At {
    pub sites: u16,
    pub seats: u32,
    pub site: u16,
    pub group: Option<&'static str>,
}

/// Site 0 of two, with two seats, in no group.
pub const HERE: At = At {
    sites: 2,
    seats: 2,
    site: 0,
    group: None,
};

/// What an opening comes to.
#[derive(Clone, Copy, PartialEq, Eq)]
pub enum Opened {
    Refused(StoreOpenError),
    /// How many counters and sessions the store holds, and whether the first session reads.
    Holds(usize, usize, bool),
    /// The store is opened, and there is no memory for what it holds.
    Unread,
    /// The store is opened, and fails then.
    Failed,
    /// There was no layout to open it under, or a transaction was open.
    Untried,
}

/// A store that holds nothing.
pub const EMPTY: Opened = Opened::Holds(0, 0, false);

fn sizes(durable: &Durable) -> Opened {
    let reads = match durable.sessions().first() {
        Some(session) => session.phase == Phase::Reader,
        None => false,
    };
    Opened::Holds(durable.cells().len(), durable.sessions().len(), reads)
}

/// What a keeper without a fault holds.
pub fn held_by<K: Keeper>(alloc: Global, keeper: &mut K) -> Opened {
    match keeper.load(alloc) {
        Ok(durable) if keeper.faults() == 0 => sizes(&durable),
        Err(KeeperError::Memory) => Opened::Unread,
        _ => Opened::Failed,
    }
}

/// Opens a store, and hands its connection back.
pub fn opened_at<S: Alter + Drop>(
    alloc: Global,
    connection: Connection<S>,
    at: At,
) -> (Opened, Connection<S>) {
    let Some(layout) = layout(alloc, at.sites, at.seats) else {
        return (Opened::Untried, connection);
    };
    if !connection.is_autocommit() {
        return (Opened::Untried, connection);
    }
    match SqlKeeper::open(alloc, connection, &layout, at.site, at.group) {
        Ok(mut keeper) => {
            let held = held_by(alloc, &mut keeper);
            (held, keeper.into_connection())
        }
        Err((error, back)) => (Opened::Refused(error), back),
    }
}

/// A step of a store.
#[derive(Clone, Copy)]
pub enum Step {
    /// The database takes these statements.
    Run(&'static str),
    /// It is opened as a store, or refused.
    Open(At, Opened),
    /// A desk serves over it.
    Serve(Shift),
}

fn opens<S: Alter + Drop>(
    alloc: Global,
    connection: Connection<S>,
    at: At,
    wanted: Opened,
) -> Option<Connection<S>> {
    let (found, back) = opened_at(alloc, connection, at);
    if found == wanted { Some(back) } else { None }
}

/// The connection after a desk's shift, if that goes as it is told.
pub fn serves_over<S: Alter + Drop>(
    alloc: Global,
    connection: Connection<S>,
    shift: Shift,
) -> Option<Connection<S>> {
    match over(alloc, connection, shift.sites, &shift)? {
        (Some(_), connection) => Some(connection),
        _ => None,
    }
}

/// The connection after a step, if that goes as it is told.
fn after<S: Alter + Drop>(
    alloc: Global,
    connection: Connection<S>,
    step: Step,
) -> Option<Connection<S>> {
    match step {
        Step::Run(texts) => after_texts(connection, &[texts]),
        Step::Open(at, wanted) => opens(alloc, connection, at, wanted),
        Step::Serve(shift) => serves_over(alloc, connection, shift),
    }
}

/// The connection after steps in turn, if each goes as it is told.
pub fn after_all<S: Alter + Drop>(
    alloc: Global,
    connection: Connection<S>,
    steps: &[Step],
) -> Option<Connection<S>> {
    let mut held = connection;
    for step in steps {
        match after(alloc, held, *step) {
            Some(next) => held = next,
            None => return None,
        }
    }
    Some(held)
}

/// Whether steps over a new database in memory go as they are told.
pub fn are_told(alloc: Global, steps: &[Step]) -> bool {
    match in_memory(alloc) {
        Some(empty) => after_all(alloc, empty, steps).is_some(),
        None => false,
    }
}
