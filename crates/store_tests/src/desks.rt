//! Desks of site 0, what they answer to calls in turn, and what their keepers hold then.
ghost use Rattle.std.specs.Prelude.{◌<◌};
ghost use Rattle.desk_log.specs.Desk.{IsMadeFor};

use crate::databases::layout;
use admission_core::{Ask, Call, Durable, DurableCell, Phase, Refusal, Reply, Session};
use desk_log::Desk;
use merge_core::Layout;
use site_store::{Keeper, KeeperError, MemoryKeeper, SqlKeeper};
use sqlite::{Alter, Connection};
use std::alloc::Global;

/// The fewest entries that a log may have places for.
const PLACES: usize = 16;

/// What is done with a desk, whatever its keeper is.
pub trait DeskWork {
    type Found: Drop;

    /// What comes of it, and the keeper; nothing where it goes otherwise than it is to.
    fn at<K: Keeper + Drop>(&self, alloc: Global, desk: Desk<K>) -> Option<(Self::Found, K)>;
}

/// What comes of work with a desk of site 0 over a keeper, nothing where there is no desk, and the keeper.
fn over_keeper<K: Keeper + Drop, W: DeskWork>(
    alloc: Global,
    keeper: K,
    layout: Layout,
    work: &W,
) -> Option<(Option<W::Found>, K)>
    requires { 0 < layout.sites → IsMadeFor K.Keeper keeper layout 0 }
{
    match Desk::open(alloc, keeper, layout, 0, PLACES) {
        Ok(desk) => {
            let (found, keeper) = work.at(alloc, desk)?;
            Some((Some(found), keeper))
        }
        Err((_, keeper)) => Some((None, keeper)),
    }
}

/// What comes of work with a desk of two sites over a new keeper in memory.
pub fn over_memory<W: DeskWork>(alloc: Global, work: &W) -> Option<W::Found> {
    let layout = layout(alloc, 2, 2)?;
    let keeper = MemoryKeeper::new(alloc, &layout, 0).ok()?;
    let (found, _) = over_keeper(alloc, keeper, layout, work)?;
    found
}

/// What comes of work with a desk over a database, at so many sites, nothing where there is no desk, and the database.
pub fn over<S: Alter + Drop, W: DeskWork>(
    alloc: Global,
    connection: Connection<S>,
    sites: u16,
    work: &W,
) -> Option<(Option<W::Found>, Connection<S>)> {
    let layout = layout(alloc, sites, 2)?;
    if !connection.is_autocommit() {
        return Some((None, connection));
    }
    match SqlKeeper::open(alloc, connection, &layout, 0, None) {
        Ok(keeper) => {
            let (found, keeper) = over_keeper(alloc, keeper, layout, work)?;
            Some((found, keeper.into_connection()))
        }
        Err((_, back)) => Some((None, back)),
    }
}

/// Calls at record `a`: readers enter, the first leaves, and a seat is given to site 1.
pub const READ_7: Ask = Ask::Read { r: 0, h: 7 };

pub const READ_8: Ask = Ask::Read { r: 0, h: 8 };

pub const LEAVE_7: Ask = Ask::Leave { r: 0, h: 7 };

pub const GIVE: Ask = Ask::Give {
    r: 0,
    to: 1,
    seats: 1,
};

/// The counter of record `a` at a slot.
macro_rules! cell {
    ($slot:expr, $value:expr) => {
        DurableCell {
            r: 0,
            slot: $slot,
            value: $value,
        }
    };
}

/// A reader of record `a`.
macro_rules! reader {
    ($h:expr) => {
        Session {
            r: 0,
            h: $h,
            phase: Phase::Reader,
        }
    };
}

/// A reply, as far as these stories tell them apart.
#[derive(Clone, Copy, PartialEq, Eq)]
pub enum Told {
    Admitted,
    Left,
    Given,
    NoSite,
    NoSeat,
    AlreadyHere,
    Memory,
    StoreFault,
    Frozen,
    LogFull,
    Other,
}

pub fn told_by(reply: &Reply) -> Told {
    match reply {
        Reply::Admitted => Told::Admitted,
        Reply::Left(_) => Told::Left,
        Reply::Given => Told::Given,
        Reply::Refused(Refusal::NoSite) => Told::NoSite,
        Reply::Refused(Refusal::NoSeat { rights: 0 }) => Told::NoSeat,
        Reply::Refused(Refusal::AlreadyHere) => Told::AlreadyHere,
        Reply::Refused(Refusal::Memory) => Told::Memory,
        Reply::Refused(Refusal::StoreFault) => Told::StoreFault,
        Reply::Refused(Refusal::Frozen) => Told::Frozen,
        Reply::Refused(Refusal::LogFull) => Told::LogFull,
        _ => Told::Other,
    }
}

/// What a desk answers to a call of pass 0.
pub fn ask<K: Keeper>(desk: &mut Desk<K>, ask: Ask) -> Told {
    told_by(&desk.serve(0, &Call::Ask(ask)))
}

/// How many calls a desk answers as it is to, and its first other answer.
pub fn answered<K: Keeper>(desk: &mut Desk<K>, calls: &[(Ask, Told)]) -> (usize, Option<Told>) {
    let mut right = 0usize;
    for (call, wanted) in calls {
        let told = ask(desk, *call);
        if told != *wanted {
            return (right, Some(told));
        }
        right = right.saturating_add(1);
    }
    (right, None)
}

/// Counters and sessions of a durable part.
#[derive(Clone, Copy)]
pub struct Part {
    pub cells: &'static [DurableCell],
    pub sessions: &'static [Session],
}

pub const NOTHING: Part = Part {
    cells: &[],
    sessions: &[],
};

/// A reader has entered.
pub const ONE_READER: Part = Part {
    cells: &[cell!(200, 1)],
    sessions: &[reader!(7)],
};

/// Another has entered behind it.
pub const TWO_READERS: Part = Part {
    cells: &[cell!(200, 2)],
    sessions: &[reader!(7), reader!(8)],
};

/// The first has left.
pub const ONE_LEFT: Part = Part {
    cells: &[cell!(0, 3), cell!(200, 2)],
    sessions: &[reader!(8)],
};

/// It has come back.
pub const ONE_BACK: Part = Part {
    cells: &[cell!(0, 3), cell!(200, 3)],
    sessions: &[reader!(8), reader!(7)],
};

pub fn is_part(durable: &Durable, part: Part) -> bool {
    durable.cells() == part.cells && durable.sessions() == part.sessions
}

/// Whether a keeper holds this; or whether its store has failed, where it is to hold nothing that can be read.
fn holds<K: Keeper>(alloc: Global, keeper: &mut K, part: Option<Part>) -> bool {
    match (keeper.load(alloc), part) {
        (Ok(durable), Some(part)) => is_part(&durable, part) && keeper.faults() == 0,
        (Err(KeeperError::StoreFault), None) => keeper.faults() == 1,
        _ => false,
    }
}

/// A desk from its opening to its end: the number of sites, what it begins with, its calls and their replies, and what
/// its keeper holds then; `None` where the store has failed.
#[derive(Clone, Copy)]
pub struct Shift {
    pub sites: u16,
    pub first: Part,
    pub calls: &'static [(Ask, Told)],
    pub left: Option<Part>,
}

/// A reader enters.
pub const ENTERS: Shift = Shift {
    sites: 2,
    first: NOTHING,
    calls: &[(READ_7, Told::Admitted)],
    left: Some(ONE_READER),
};

impl DeskWork for Shift {
    type Found = bool;

    fn at<K: Keeper + Drop>(&self, alloc: Global, desk: Desk<K>) -> Option<(bool, K)> {
        let mut desk = desk;
        if !is_part(desk.first(), self.first) || answered(&mut desk, self.calls).1.is_some() {
            return None;
        }
        let mut keeper = desk.into_keeper();
        if holds(alloc, &mut keeper, self.left) {
            Some((true, keeper))
        } else {
            None
        }
    }
}
