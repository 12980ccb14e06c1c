//! What a store holds, and changes of it.
use admission_core::{Change, DurableCell, SessionChange};
use std::alloc::{AllocError, Global};
use store_content::{Index, Rows};
use store_rows::{Content, StoredCell, StoredNotice, StoredSession, Version};

macro_rules! cell {
    ($r:expr, $slot:expr, $value:expr) => {
        DurableCell {
            r: $r,
            slot: $slot,
            value: $value,
        }
    };
}

macro_rules! stored {
    ($r:expr, $slot:expr, $n:expr) => {
        StoredCell {
            r: $r,
            slot: $slot,
            n: $n,
        }
    };
}

macro_rules! notice {
    ($r:expr, $site:expr, $announced:expr, $finished:expr) => {
        StoredNotice {
            r: $r,
            site: $site,
            announced: $announced,
            finished: $finished,
        }
    };
}

macro_rules! session {
    ($r:expr, $h:expr, $phase:ident) => {
        Session {
            r: $r,
            h: $h,
            phase: Phase::$phase,
        }
    };
}

macro_rules! placed {
    ($r:expr, $h:expr, $stage:ident, $place:expr) => {
        StoredSession {
            r: $r,
            h: $h,
            stage: Stage::$stage,
            place: $place,
        }
    };
}

/// A change: its counters, and what becomes of a session.
#[derive(Clone, Copy)]
pub struct Step {
    pub cells: &'static [DurableCell],
    pub session: Option<SessionChange>,
}

macro_rules! put {
    ($r:expr, $h:expr, $phase:ident) => {
        Step {
            cells: &[],
            session: Some(SessionChange::Put(session!($r, $h, $phase))),
        }
    };
    ($r:expr, $h:expr, $phase:ident, $($cell:expr),+) => {
        Step {
            cells: &[$($cell),+],
            session: Some(SessionChange::Put(session!($r, $h, $phase))),
        }
    };
}

macro_rules! removed {
    ($r:expr, $h:expr) => {
        Step {
            cells: &[],
            session: Some(SessionChange::Removed(session!($r, $h, Reader))),
        }
    };
}

/// The rows that a content begins with.
#[derive(Clone, Copy)]
pub struct First {
    pub cells: &'static [StoredCell],
    pub notices: &'static [StoredNotice],
    pub sessions: &'static [StoredSession],
}

pub fn empty(alloc: Global) -> Content {
    Content {
        version: Version::Second,
        site: Vec::new(alloc),
        layout: Vec::new(alloc),
        cells: Vec::new(alloc),
        sessions: Vec::new(alloc),
        notices: Vec::new(alloc),
    }
}

/// Puts these rows behind those of a content.
pub fn fill(content: &mut Content, first: First) -> Result<(), AllocError> {
    content.cells.extend_from_slice(first.cells)?;
    content.notices.extend_from_slice(first.notices)?;
    content.sessions.extend_from_slice(first.sessions)
}

pub fn content(alloc: Global, first: First) -> Result<Content, AllocError> {
    let mut content = empty(alloc);
    fill(&mut content, first)?;
    Ok(content)
}

/// The rows of a change.
pub fn plan(alloc: Global, index: &Index, step: Step) -> Result<Option<Rows>, AllocError> {
    let change = Change::new(Vec::from_slice(alloc, step.cells)?, step.session);
    index.plan(alloc, &change)
}

// They stand behind the macros, which they use.
mod single;
mod stories;
