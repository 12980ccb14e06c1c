ghost use Rattle.std.specs.Prelude.{◌≡◌, IfOk};

pub use faults::{are_name_bytes, is_named, is_record_name};
use faults::{all_homes_good, fault_of};
use std::alloc::{AllocError, Global};
use std::marker::Model;
use thiserror::Error;

mod faults;

/// The greatest number of sites.
pub const MOST_SITES: u16 = 16;
/// The greatest number of records.
pub const MOST_RECORDS: usize = 256;
/// The greatest number of seats of a record.
pub const MOST_SEATS: u32 = 65_535;

/// The greatest number of bytes of a record's name.
pub const MOST_NAME_BYTES: usize = 16;

/// Why sites and records are no layout. The kinds are tried in this order, each over all records.
#[derive(Clone, Copy, Debug, PartialEq, Eq, Error)]
pub enum LayoutError {
    #[error("a layout needs a site")]
    TooFewSites,
    #[error("a layout has at most 16 sites")]
    TooManySites,
    #[error("a layout needs a record")]
    NoRecords,
    #[error("a layout has at most 256 records")]
    TooManyRecords,
    #[error("a record's name is 1 to 16 bytes of a-z, 0-9 and -, the first a letter")]
    BadName,
    #[error("two records have one name")]
    SameName,
    #[error("a record has 1 to 65535 seats")]
    BadSeats,
    #[error("a record's home is one of the sites")]
    BadHome,
    #[error("a record's problem is 1 or 2")]
    BadProblem,
}

/// The name of a record.
#[derive(Debug, Drop)]
pub struct RecordName {
    text: String,
}

// Contracts see the bytes.
impl Model for RecordName {
    ghost use Rattle.std.specs.Prelude.{ℕ, List};
    ghost use Rattle.std.specs.String.{string_bytes};

    ghost Value = { List ℕ };

    ghost view = { λ n. string_bytes n.text };
}

impl RecordName {
    ghost use Rattle.std.specs.Prelude.{◌≡◌, IfOk};
    ghost use Rattle.std.specs.String.{string_bytes};

    /// The name with this text, which [`Layout::new`] judges. Takes no memory.
    pub fn from_string(text: String) -> RecordName
        ensures { result ≡ string_bytes text }
    {
        RecordName { text }
    }

    /// The name's text, given back. Takes no memory.
    pub fn into_string(self) -> String
        ensures { string_bytes result ≡ self }
    {
        let RecordName { text } = self;
        text
    }

    /// The name's text.
    pub fn as_str(&self) -> &str
        ensures { result.now ≡ self.now }
    {
        self.text.as_str()
    }

    /// An equal name.
    pub fn try_copy(&self, alloc: Global) -> Result<RecordName, AllocError>
        ensures { IfOk result (λ copy. copy ≡ self.now) }
    {
        let text = String::from_str(alloc, self.text.as_str())?;
        Ok(RecordName { text })
    }
}

/// One record: its name, its number of seats, the site where they all start, and the rule of admission,
/// problem 1 or 2 of Courtois, Heymans and Parnas (1971).
#[derive(Debug, Drop)]
pub struct RecordSpec {
    pub name: RecordName,
    pub seats: u32,
    pub home: u16,
    pub problem: u16,
}

impl RecordSpec {
    ghost use Rattle.std.specs.Prelude.{◌≡◌, IfOk};

    /// An equal record.
    pub fn try_copy(&self, alloc: Global) -> Result<RecordSpec, AllocError>
        ensures { IfOk result (λ copy. copy ≡ self.now) }
    {
        let name = self.name.try_copy(alloc)?;
        Ok(RecordSpec {
            name,
            seats: self.seats,
            home: self.home,
            problem: self.problem,
        })
    }
}

/// The sites and the records, on which all sites agree before they start.
#[derive(Debug, Drop)]
pub struct Layout {
    sites: u16,
    records: Vec<RecordSpec>,
}

// Contracts see the sites and the list of the records, which are always a layout.
impl Model for Layout {
    ghost use Rattle.merge_core.specs.Layout.{LayoutState, IsLayout};

    ghost Value = { LayoutState };

    ghost view = { λ l. record { sites = l.sites; records = l.records.items } };

    ghost invariant = { λ l. IsLayout (record { sites = l.sites; records = l.records.items }) };
}

impl Layout {
    ghost use Rattle.std.specs.Prelude.{◌≡◌, ◌≢◌, ◌↔◌, IfOk, IsTrue, MatchOption, MatchResult, None, Ok, Some};
    ghost use Rattle.merge_core.specs.Layout.{IsLayout, layout_fault, at_sites};

    /// The layout of these records at so many sites, or the first kind of fault that some of them has.
    /// Takes no memory. Compares each pair of names.
    pub fn new(sites: u16, records: Vec<RecordSpec>) -> Result<Layout, LayoutError>
        ensures answer { MatchResult result
            (λ _. layout_fault sites records.items ≡ None)
            (λ e. layout_fault sites records.items ≡ Some e) }
        ensures value { IfOk result (λ l. l ≡ record { sites = sites; records = records.items }) }
        ensures layout { IfOk result (λ l. IsLayout l) }
    {
        if let Some(fault) = fault_of(sites, records.as_slice()) {
            return Err(fault);
        }
        Ok(Layout { sites, records })
    }

    /// The number of sites, which are numbered from 0.
    pub fn sites(&self) -> u16
        ensures sites { result ≡ self.now.sites }
        ensures layout { IsLayout self.now }
    {
        self.sites
    }

    /// The records, which are numbered from 0 in this order.
    pub fn records(&self) -> &[RecordSpec]
        ensures records { result.now ≡ self.now.records }
        ensures layout { IsLayout self.now }
    {
        self.records.as_slice()
    }

    /// The same records at so many sites, if that is a layout: every home has to be one of the sites. Memory is
    /// taken only where it is one. Linear in the records: names, seats and problems are those of a layout already.
    pub fn at_sites(&self, alloc: Global, sites: u16) -> Result<Option<Layout>, AllocError>
        ensures answer { IfOk result (λ found. MatchOption found
            (layout_fault sites self.now.records ≢ None)
            (λ l. l ≡ at_sites sites self.now)) }
        ensures certain { layout_fault sites self.now.records ≢ None → result ≡ Ok None }
    {
        if !self.fits_sites(sites) {
            return Ok(None);
        }
        let records = copied(alloc, self.records.as_slice())?;
        Ok(Some(Layout { sites, records }))
    }

    // Whether the same records at so many sites are a layout.
    fn fits_sites(&self, sites: u16) -> bool
        ensures { IsTrue result ↔ (layout_fault sites self.now.records ≡ None) }
    {
        if sites == 0 || sites > MOST_SITES {
            return false;
        }
        all_homes_good(sites, self.records.as_slice())
    }

    /// An equal layout.
    pub fn try_copy(&self, alloc: Global) -> Result<Layout, AllocError>
        ensures { IfOk result (λ copy. copy ≡ self.now) }
    {
        let records = copied(alloc, self.records.as_slice())?;
        Ok(Layout {
            sites: self.sites,
            records,
        })
    }
}

// An equal list of records.
fn copied(alloc: Global, records: &[RecordSpec]) -> Result<Vec<RecordSpec>, AllocError>
    ensures { IfOk result (λ copy. copy.items ≡ records.now) }
{
    let mut copy = Vec::with_capacity(alloc, records.len())?;
    for record in records {
        copy.push(record.try_copy(alloc)?)?;
    }
    Ok(copy)
}
