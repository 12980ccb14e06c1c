//! What a store holds, as plain data.
ghost use Rattle.std.specs.Prelude.{◌≡◌, ◌&&◌, ◌<◌, ◌^◌};
ghost use Rattle.store_rows.specs.Rows.{cell_before, notice_before, session_before, stage_number, stage_of};

use std::marker::Model;
use store_schema::Version;

/// A counter: its record, its slot and its value, which is below 2^63.
#[derive(Clone, Copy, Debug, PartialEq, Eq)]
pub struct StoredCell {
    pub r: u16,
    pub slot: u16,
    pub n: u64,
}

/// What a session is doing at its record.
#[derive(Clone, Copy, Debug, PartialEq, Eq)]
pub enum Stage {
    /// Inside, reading; 1 in the store.
    Reader,
    /// Announced, not inside; 2 in the store.
    Waiting,
    /// Inside, writing; 3 in the store.
    Writer,
}

/// A session: its record, its holder, what it is doing, and its place in the order of arrival. Holder and place
/// are below 2^63.
#[derive(Clone, Copy, Debug, PartialEq, Eq)]
pub struct StoredSession {
    pub r: u16,
    pub h: u64,
    pub stage: Stage,
    pub place: u64,
}

/// What is known of another site's writers at a record: how many were announced, and how many have finished. Both
/// are below 2^63.
#[derive(Clone, Copy, Debug, PartialEq, Eq)]
pub struct StoredNotice {
    pub r: u16,
    pub site: u16,
    pub announced: u64,
    pub finished: u64,
}

/// A session that a commit puts, whether it is new or only its stage or place is, or one that it drops.
#[derive(Clone, Copy, Debug, PartialEq, Eq)]
pub enum SessionEdit {
    Put(StoredSession),
    Dropped { r: u16, h: u64 },
}

impl Stage {
    /// The number that stands for it in the store.
    pub fn number(self) -> u64
        ensures { result ≡ stage_number self }
    {
        match self {
            Stage::Reader => 1,
            Stage::Waiting => 2,
            Stage::Writer => 3,
        }
    }

    /// The stage that a number stands for.
    pub fn from_number(n: u64) -> Option<Stage>
        ensures { result ≡ stage_of n }
    {
        match n {
            1 => Some(Stage::Reader),
            2 => Some(Stage::Waiting),
            3 => Some(Stage::Writer),
            _ => None,
        }
    }
}

impl StoredCell {
    /// Whether it stands before another one: by record, then by slot.
    pub fn is_before(self, other: StoredCell) -> bool
        ensures { result ≡ cell_before self other }
    {
        self.r < other.r || (self.r == other.r && self.slot < other.slot)
    }
}

impl StoredSession {
    /// Whether it came before another one.
    pub fn is_before(self, other: StoredSession) -> bool
        ensures { result ≡ session_before self other }
    {
        self.place < other.place
    }
}

impl StoredNotice {
    /// Whether it stands before another one: by record, then by site.
    pub fn is_before(self, other: StoredNotice) -> bool
        ensures { result ≡ notice_before self other }
    {
        self.r < other.r || (self.r == other.r && self.site < other.site)
    }
}

/// What a store holds: its version, the site's number and the layout's line as they stand in the table `meta`, the
/// counters by record and slot, the sessions in order of arrival, and the notices of other sites by record and site.
#[derive(Debug, Drop)]
pub struct Content {
    pub version: Version,
    pub site: Vec<u8>,
    pub layout: Vec<u8>,
    pub cells: Vec<StoredCell>,
    pub sessions: Vec<StoredSession>,
    pub notices: Vec<StoredNotice>,
}

// Contracts see the lists.
impl Model for Content {
    ghost use Rattle.store_rows.specs.Rows.{Stored};

    ghost Value = { Stored };

    ghost view = { λ c. record {
      version = c.version;
      site = c.site.items;
      layout = c.layout.items;
      cells = c.cells.items;
      sessions = c.sessions.items;
      notices = c.notices.items;
    } };
}
