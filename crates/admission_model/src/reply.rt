ghost use Rattle.std.specs.Prelude.{◌≡◌, IfOk};

use merge_core::Delta;
use session_list::Phase;
use std::alloc::{AllocError, Global};

/// Where seats would help: how many, and at which site.
#[derive(Clone, Copy, Debug, PartialEq, Eq)]
pub struct Plan {
    pub to: u16,
    pub seats: u64,
}

/// Why a site does not do what it was asked.
#[derive(Clone, Copy, Debug, PartialEq, Eq)]
pub enum Refusal {
    /// The layout has no such record.
    NoRecord,
    /// The holder's number is past the limit.
    BadHolder,
    /// The holder has a session at this record.
    AlreadyHere,
    /// A counter would pass its limit.
    CounterFull,
    /// A writer is announced; `site` is the least that shows one.
    WriterAnnounced { site: u16 },
    /// The site has no seat left.
    NoSeat { rights: u64 },
    /// The site has as many unfinished writers as it may have.
    TooManyWriters,
    /// The holder has no announced writer at this record.
    NotAnnounced,
    /// The holder's writer is inside.
    AlreadyInside,
    /// The site has fewer seats than the record.
    MissingSeats { rights: u64, seats: u32 },
    /// The holder has no session at this record.
    NotHere,
    /// The layout has no such site.
    NoSite,
    /// A site gives itself nothing.
    ToSelf,
    /// No seats were named.
    ZeroSeats,
    /// The site has fewer seats than were named.
    TooFewRights { rights: u64 },
    /// There is no plan.
    NoPlan,
    /// The row at this index has not the layout's form.
    OtherLayout { row: usize },
    /// The row at this index is none that a site can have.
    BadRow { row: usize },
    /// The delta tells more of this site than the site has done, at this record.
    OwnRowAhead { rec: u16 },
    /// No memory was found; nothing changed.
    Memory,
    /// The site has stopped after a fault of its store.
    Frozen,
    /// The log has its limit.
    LogFull,
    /// The store failed; the call may have been kept or not.
    StoreFault,
}

/// What a site answers.
#[derive(Debug, Drop)]
pub enum Reply {
    /// The session is inside.
    Admitted,
    /// The writer is announced, with its number at this site.
    Announced(u64),
    /// The session was in this phase, and is no more.
    Left(Phase),
    /// The seats are moved.
    Given,
    /// The plan was carried out.
    Gave { to: u16, seats: u64 },
    /// So many counters rose.
    Merged(u64),
    /// All rows that differ from the start.
    Snapshot(Delta),
    /// Nothing was done.
    Refused(Refusal),
}

impl Reply {
    /// An equal reply. Linear in the delta.
    pub fn try_copy(&self, alloc: Global) -> Result<Reply, AllocError>
        ensures { IfOk result (λ copy. copy ≡ self.now) }
    {
        Ok(match self {
            Reply::Admitted => Reply::Admitted,
            Reply::Announced(number) => Reply::Announced(*number),
            Reply::Left(phase) => Reply::Left(*phase),
            Reply::Given => Reply::Given,
            Reply::Gave { to, seats } => Reply::Gave {
                to: *to,
                seats: *seats,
            },
            Reply::Merged(risen) => Reply::Merged(*risen),
            Reply::Snapshot(delta) => Reply::Snapshot(delta.try_copy(alloc)?),
            Reply::Refused(refusal) => Reply::Refused(*refusal),
        })
    }
}
