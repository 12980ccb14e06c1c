//! Stores that are moved to the next generation of their group, and stores of sites that are built again, step by step over
//! databases in memory.
use crate::databases::{after_texts, in_memory, layout};
use crate::stores::{At, Opened, held_by};
use exit_status::{Status, StoreRefusal};
use live_databases::{Absence, RebuildEnd, ServiceEnd, make_rebuilt_over, regroup_over};
use rebuild_engine::{LineFault, LineRefusal, RebuildStop, rebuilt_site};
use serve_engine::{MarkFault, TextFault};
use site_rebuild::RebuildError;
use site_store::{Permission, ServedError, SqlKeeper};
use sqlite::{Alter, Connection};
use std::alloc::Global;

/// A site of so many, with two seats of record `a` at site 0, in a group or in none.
macro_rules! at {
    ($sites:expr, $site:expr, $group:expr) => {
        At {
            sites: $sites,
            seats: 2,
            site: $site,
            group: $group,
        }
    };
}

/// What the site of a store knows at first, behind the mark of its group's move.
const SILENT: &str = "east.2:moved d6a41a2b6edb4b8d 49d0174c {\"from\":0,\"rows\":[],\"v\":1}";

const LATER: &str = "east.3:moved d6a41a2b6edb4b8d 49d0174c {\"from\":0,\"rows\":[],\"v\":1}";

/// A reader is inside.
pub const READ: &str =
    "INSERT INTO cells VALUES (0, 200, 1); INSERT INTO sessions VALUES (0, 7, 1, 5)";

pub const TAKEN: &str =
    "east.2:moved d6a41a2b6edb4b8d 8fbd28c0 {\"from\":0,\"rows\":[{\"ann\":0,\"fin\":0,\"out\":[2,0],\"r\":0,\"s\":0,\"taken\":1}],\"v\":1}";

/// A seat was given to site 1; also as a site of the group sends it, of three sites, and on two lines.
pub const GAVE: &str =
    "east.2:moved d6a41a2b6edb4b8d dd43195b {\"from\":0,\"rows\":[{\"ann\":0,\"fin\":0,\"out\":[2,1],\"r\":0,\"s\":0,\"taken\":0}],\"v\":1}";

const SENT: &str =
    "east.2 d6a41a2b6edb4b8d dd43195b {\"from\":0,\"rows\":[{\"ann\":0,\"fin\":0,\"out\":[2,1],\"r\":0,\"s\":0,\"taken\":0}],\"v\":1}\n";

const OF_THREE: &str =
    "east.2:moved d6a41a2b6edb4b8d 82f0dfbe {\"from\":0,\"rows\":[{\"ann\":0,\"fin\":0,\"out\":[2,1,0],\"r\":0,\"s\":0,\"taken\":0}],\"v\":1}\n";

const SENT_OF_THREE: &str =
    "east.2 d6a41a2b6edb4b8d 82f0dfbe {\"from\":0,\"rows\":[{\"ann\":0,\"fin\":0,\"out\":[2,1,0],\"r\":0,\"s\":0,\"taken\":0}],\"v\":1}\n";

const TWICE: &str =
    "east.2:moved d6a41a2b6edb4b8d 49d0174c {\"from\":0,\"rows\":[],\"v\":1}\neast.2:moved d6a41a2b6edb4b8d 49d0174c {\"from\":0,\"rows\":[],\"v\":1}\n";

const DAMAGED: &str = "east.2:moved d6a41a2b6edb4b8d 49d0174d {\"from\":0,\"rows\":[],\"v\":1}\n";

const OTHER_RECORDS: &str =
    "east.2:moved d6a41a2b6edb4b8e 49d0174c {\"from\":0,\"rows\":[],\"v\":1}\n";

/// The site took a seat in the group.
const ACTED: &str =
    "east.2:moved d6a41a2b6edb4b8d 845ec61d {\"from\":0,\"rows\":[{\"ann\":0,\"fin\":0,\"out\":[0,0],\"r\":0,\"s\":1,\"taken\":1}],\"v\":1}\n";

/// What an opening, a move or a rebuild comes to.
#[derive(Clone, Copy)]
pub enum Came {
    /// The store was made, or was there, and is opened with so many counters and sessions.
    Open(usize, usize),
    Refused(ServedError),
    /// The store is moved, and this is its text.
    Text(&'static str),
    Unmoved(ServiceEnd),
    Rebuilt,
    NotRebuilt(RebuildEnd),
}

/// A step of a database.
#[derive(Clone, Copy)]
pub enum Step {
    /// It takes these statements.
    Run(&'static str),
    /// It is made a store.
    Make(At),
    /// Its store is opened.
    Open(At, Came),
    /// Its store is moved.
    Move(At, Came),
    /// A store is made in it, of a site that is built again, where these sites are lost, of these bytes.
    Build(At, &'static [u16], &'static str, Came),
}

/// Whether an opening goes as it is told, and the connection.
fn opens<S: Alter + Drop>(
    alloc: Global,
    connection: Connection<S>,
    at: At,
    create: bool,
    wanted: Came,
) -> Option<Connection<S>> {
    let layout = layout(alloc, at.sites, at.seats)?;
    if !connection.is_autocommit() {
        return None;
    }
    let permission = Permission {
        create,
        grow: false,
    };
    match SqlKeeper::open_served(alloc, connection, &layout, at.site, at.group, permission) {
        Ok((mut keeper, _)) => {
            let held = held_by(alloc, &mut keeper);
            let back = keeper.into_connection();
            is_open(held, wanted).then_some(back)
        }
        Err((error, back)) => is_refused(error, wanted).then_some(back),
    }
}

pub fn is_open(held: Opened, wanted: Came) -> bool {
    match (held, wanted) {
        (Opened::Holds(cells, sessions, _), Came::Open(c, s)) => cells == c && sessions == s,
        _ => false,
    }
}

fn is_refused(error: ServedError, wanted: Came) -> bool {
    match wanted {
        Came::Refused(refusal) => error == refusal,
        _ => false,
    }
}

/// A move of a store, and the connection.
pub fn moved_at<S: Alter + Drop>(
    alloc: Global,
    connection: Connection<S>,
    at: At,
) -> Option<(Result<String, ServiceEnd>, Connection<S>)> {
    let layout = layout(alloc, at.sites, at.seats)?;
    if !connection.is_autocommit() || at.site >= layout.sites() {
        return None;
    }
    Some(regroup_over(alloc, connection, layout, at.site, at.group.unwrap_or("")))
}

fn is_moved(told: &Result<String, ServiceEnd>, wanted: Came) -> bool {
    match (told, wanted) {
        (Ok(text), Came::Text(all)) => text.as_str() == all,
        (Err(ended), Came::Unmoved(end)) => *ended == end,
        _ => false,
    }
}

/// A rebuild of a site, what it comes to, and the connection.
pub fn built_at<S: Alter + Drop>(
    alloc: Global,
    connection: Connection<S>,
    at: At,
    lost: &[u16],
    bytes: &str,
) -> Option<(Option<RebuildEnd>, Connection<S>)> {
    let layout = layout(alloc, at.sites, at.seats)?;
    if !connection.is_autocommit() {
        return None;
    }
    let name = at.group.unwrap_or("");
    let rebuilt = match rebuilt_site(alloc, layout, at.site, lost, name, bytes.as_bytes()) {
        Ok(rebuilt) => rebuilt,
        Err(stop) => return Some((Some(RebuildEnd::Unbuilt(stop)), connection)),
    };
    match make_rebuilt_over(alloc, connection, rebuilt, at.site, name) {
        (Ok(_), back) => Some((None, back)),
        (Err(ended), back) => Some((Some(RebuildEnd::Ended(ended)), back)),
    }
}

fn is_built(ended: Option<RebuildEnd>, wanted: Came) -> bool {
    match (ended, wanted) {
        (None, Came::Rebuilt) => true,
        (Some(ended), Came::NotRebuilt(end)) => ended == end,
        _ => false,
    }
}

/// The connection after a step, if that goes as it is told.
pub fn after<S: Alter + Drop>(
    alloc: Global,
    connection: Connection<S>,
    step: Step,
) -> Option<Connection<S>> {
    match step {
        Step::Run(texts) => after_texts(connection, &[texts]),
        Step::Make(at) => opens(alloc, connection, at, true, Came::Open(0, 0)),
        Step::Open(at, wanted) => opens(alloc, connection, at, false, wanted),
        Step::Move(at, wanted) => {
            let (told, back) = moved_at(alloc, connection, at)?;
            is_moved(&told, wanted).then_some(back)
        }
        Step::Build(at, lost, bytes, wanted) => {
            let (ended, back) = built_at(alloc, connection, at, lost, bytes)?;
            is_built(ended, wanted).then_some(back)
        }
    }
}

/// Whether steps over a database go as they are told.
fn go_on<S: Alter + Drop>(alloc: Global, connection: Connection<S>, steps: &[Step]) -> bool {
    let mut held = connection;
    for step in steps {
        match after(alloc, held, *step) {
            Some(next) => held = next,
            None => return false,
        }
    }
    true
}

fn are_told(alloc: Global, steps: &[Step]) -> bool {
    match in_memory(alloc) {
        Some(empty) => go_on(alloc, empty, steps),
        None => false,
    }
}

pub const EAST: At = at!(2, 0, Some("east"));

pub const EAST_2: At = at!(2, 0, Some("east.2"));

const UNGROUPED: At = at!(2, 0, None);

pub const LOST: At = at!(2, 1, Some("east.2"));

const LOST_OF_THREE: At = at!(3, 1, Some("east.2"));

const WRONG_GROUP: Came = Came::Refused(ServedError::WrongGroup);

/// The end of a move of this name.
macro_rules! absent {
    ($absence:ident) => {
        Came::Unmoved(ServiceEnd::Absent(Absence::$absence))
    };
}

/// Stores that are moved, or not.
static MOVES: [&[Step]; 8] = [
    // a store with nothing in it, twice, and the names of before
    &[
        Step::Make(EAST),
        Step::Move(EAST, Came::Text(SILENT)),
        Step::Open(EAST, WRONG_GROUP),
        Step::Open(UNGROUPED, WRONG_GROUP),
        Step::Open(EAST_2, Came::Open(0, 0)),
        Step::Move(EAST, absent!(WrongGroup)),
        Step::Move(EAST_2, Came::Text(LATER)),
        Step::Open(EAST_2, WRONG_GROUP),
        Step::Open(at!(2, 0, Some("east.3")), Came::Open(0, 0)),
    ],
    // one with a session
    &[
        Step::Make(EAST),
        Step::Run(READ),
        Step::Move(EAST, Came::Text(TAKEN)),
        Step::Open(EAST_2, Came::Open(1, 1)),
    ],
    // one of no group
    &[
        Step::Make(UNGROUPED),
        Step::Move(EAST, absent!(NoGroup)),
        Step::Open(UNGROUPED, Came::Open(0, 0)),
    ],
    // one that is marked as outdated
    &[
        Step::Make(EAST),
        Step::Run("INSERT INTO meta VALUES ('outdated', '1')"),
        Step::Move(EAST, absent!(Outdated)),
        Step::Run("DELETE FROM meta WHERE name = 'outdated'"),
        Step::Open(EAST, Came::Open(0, 0)),
    ],
    // the last generation
    &[
        Step::Make(at!(2, 0, Some("east.1048575"))),
        Step::Move(at!(2, 0, Some("east.1048575")), absent!(LastGeneration)),
        Step::Open(at!(2, 0, Some("east.1048575")), Came::Open(0, 0)),
    ],
    // nothing, and a database of another program
    &[
        Step::Move(EAST, absent!(NoStore)),
        Step::Run("CREATE TABLE other (x INTEGER)"),
        Step::Move(EAST, absent!(NotAStore)),
    ],
    // another site's, and one of another layout
    &[
        Step::Make(EAST),
        Step::Move(
            at!(2, 1, Some("east")),
            Came::Unmoved(ServiceEnd::Ended(Status::NoStore(StoreRefusal::WrongSite))),
        ),
        Step::Move(
            at!(3, 0, Some("east")),
            Came::Unmoved(ServiceEnd::Ended(Status::NoStore(StoreRefusal::WrongLayout))),
        ),
        Step::Open(EAST, Came::Open(0, 0)),
    ],
    // counters that are no site's
    &[
        Step::Make(EAST),
        Step::Run("INSERT INTO cells VALUES (0, 202, 1)"),
        Step::Move(
            EAST,
            Came::Unmoved(ServiceEnd::Ended(Status::NoStore(StoreRefusal::WrongCounters))),
        ),
        Step::Run("DELETE FROM cells"),
        Step::Open(EAST, Came::Open(0, 0)),
    ],
];

/// A line that is refused.
macro_rules! line {
    ($number:expr, $fault:expr) => {
        Came::NotRebuilt(RebuildEnd::Unbuilt(RebuildStop::Line(LineRefusal {
            number: $number,
            fault: $fault,
        })))
    };
}

macro_rules! unmarked {
    ($fault:ident) => {
        line!(1, LineFault::Text(TextFault::Unmarked(MarkFault::$fault)))
    };
}

macro_rules! unbuilt {
    ($error:expr) => {
        Came::NotRebuilt(RebuildEnd::Unbuilt(RebuildStop::Site($error)))
    };
}

macro_rules! kept_out {
    ($absence:ident) => {
        Came::NotRebuilt(RebuildEnd::Ended(ServiceEnd::Absent(Absence::$absence)))
    };
}

/// Stores of sites that are built again, or not.
static REBUILDS: [&[Step]; 11] = [
    // of the text of a move, and not over the store that is there then
    &[
        Step::Build(LOST, &[1], GAVE, Came::Rebuilt),
        Step::Open(LOST, Came::Open(1, 0)),
        Step::Build(LOST, &[1], GAVE, kept_out!(Exists)),
        Step::Build(
            at!(2, 0, Some("east.2")),
            &[0],
            GAVE,
            unbuilt!(RebuildError::NoDelta { site: 1 }),
        ),
        Step::Open(LOST, Came::Open(1, 0)),
        Step::Open(at!(2, 1, Some("east")), WRONG_GROUP),
    ],
    // of a text that was sent, where the site is lost alone
    &[
        Step::Build(LOST, &[1], SENT, Came::Rebuilt),
        Step::Open(LOST, Came::Open(1, 0)),
    ],
    // two of three sites are lost: of the text of a move alone
    &[
        Step::Build(LOST_OF_THREE, &[1, 2], SENT_OF_THREE, unmarked!(WrongGroup)),
        Step::Build(LOST_OF_THREE, &[1, 2], OF_THREE, Came::Rebuilt),
        Step::Open(LOST_OF_THREE, Came::Open(1, 0)),
    ],
    // a site is missing
    &[
        Step::Build(
            LOST_OF_THREE,
            &[1],
            OF_THREE,
            unbuilt!(RebuildError::NoDelta { site: 2 }),
        ),
        Step::Build(LOST, &[1], "", unbuilt!(RebuildError::NoDelta { site: 0 })),
        Step::Open(LOST, Came::Refused(ServedError::NoStore)),
    ],
    // a group that was never moved
    &[
        Step::Build(
            at!(2, 1, Some("east")),
            &[1],
            SENT,
            Came::NotRebuilt(RebuildEnd::Unbuilt(RebuildStop::NotMoved)),
        ),
        Step::Build(
            at!(2, 1, Some("refused.2")),
            &[1],
            SENT,
            Came::NotRebuilt(RebuildEnd::Unbuilt(RebuildStop::NotMoved)),
        ),
    ],
    // a line is not to be taken
    &[
        Step::Build(LOST, &[1], TWICE, line!(2, LineFault::Twice)),
        Step::Build(LOST, &[1], DAMAGED, unmarked!(Damaged)),
        Step::Build(LOST, &[1], OTHER_RECORDS, unmarked!(OtherRecords)),
        Step::Build(
            LOST,
            &[1],
            "{\"from\":0,\"rows\":[],\"v\":1}",
            unmarked!(NoMark),
        ),
        Step::Build(at!(2, 1, Some("east.3")), &[1], SENT, unmarked!(WrongGroup)),
        Step::Build(
            at!(2, 1, Some("east.3")),
            &[1],
            SILENT,
            unmarked!(WrongGroup),
        ),
    ],
    // the site has acted
    &[Step::Build(LOST, &[1], ACTED, unbuilt!(RebuildError::Acted))],
    // it is not among the lost ones
    &[Step::Build(LOST, &[0], SILENT, unbuilt!(RebuildError::BadSite))],
    // a delta of another number of sites
    &[Step::Build(
        LOST,
        &[1],
        OF_THREE,
        unbuilt!(RebuildError::BadDelta { index: 0 }),
    )],
    // a database of another program
    &[
        Step::Run("CREATE TABLE other (x INTEGER)"),
        Step::Build(LOST, &[1], GAVE, kept_out!(NotAStore)),
        Step::Run("INSERT INTO other VALUES (1); CREATE TABLE meta (x INTEGER)"),
    ],
    // a store of another site
    &[
        Step::Make(EAST),
        Step::Build(LOST, &[1], GAVE, kept_out!(Exists)),
        Step::Open(EAST, Came::Open(0, 0)),
    ],
];

/// The first of the stories that goes otherwise.
fn first_other(alloc: Global, stories: &[&[Step]]) -> Option<usize> {
    for at in 0..stories.len() {
        if !are_told(alloc, stories[at]) {
            return Some(at);
        }
    }
    None
}

#[test]
fn a_store_is_moved_and_nothing_else_of_it_changes(rt: HostRuntime) {
    let other = first_other(rt.alloc(), &MOVES);
    assert!(rt; other == None, "{other:?}");
}

#[test]
fn a_site_is_built_again_where_no_store_is(rt: HostRuntime) {
    let other = first_other(rt.alloc(), &REBUILDS);
    assert!(rt; other == None, "{other:?}");
}
