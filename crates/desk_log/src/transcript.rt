use crate::entry::Entries;
use admission_core::Durable;
use std::marker::Model;
use thiserror::Error;

/// What one opening of a site leaves: how many sites it knew, what it began with, and what it answered.
#[derive(Debug, Drop)]
pub struct Run {
    pub sites: u16,
    pub first: Durable,
    pub entries: Entries,
}

/// The openings of a site, oldest first.
#[derive(Debug, Drop)]
pub struct Runs {
    items: Vec<Run>,
}

// Contracts see the list.
impl Model for Runs {
    ghost use Rattle.std.specs.Prelude.{List};
    ghost use Rattle.desk_log.specs.declared.transcript.Run.{Run};

    ghost Value = { List Run };

    ghost view = { λ r. r.items.items };
}

impl Runs {
    ghost use Rattle.std.specs.Prelude.{◌≡◌, length};

    /// These runs. Takes no memory.
    pub fn from_vec(items: Vec<Run>) -> Runs
        ensures { result ≡ items.items }
    {
        Runs { items }
    }

    /// The runs, given back. Takes no memory.
    pub fn into_vec(self) -> Vec<Run>
        ensures { result.items ≡ self }
    {
        let Runs { items } = self;
        items
    }

    /// The runs.
    pub fn as_slice(&self) -> &[Run]
        ensures { result.now ≡ self.now }
    {
        self.items.as_slice()
    }

    /// How many there are.
    pub fn len(&self) -> usize
        ensures { result ≡ length self.now }
    {
        self.items.len()
    }
}

/// What all openings of a site leave.
#[derive(Debug, Drop)]
pub struct Transcript {
    pub site: u16,
    pub runs: Runs,
}

/// Why a transcript did not join another.
#[derive(Clone, Copy, Debug, PartialEq, Eq, Error)]
pub enum AppendError {
    /// The two are of different sites.
    #[error("the transcript is of another site")]
    OtherSite,
    #[error("out of memory")]
    Memory,
}

impl Transcript {
    ghost use Rattle.desk_log.specs.Transcript.{IsAppended};

    /// Puts the runs of a later transcript of the same site behind. Refused, in this order: `OtherSite`; `Memory`. A
    /// transcript that is refused is handed back, and this one is as it was. Linear in the later one's runs.
    pub fn append(&mut self, later: Transcript) -> Result<(), (AppendError, Transcript)>
        ensures { IsAppended self.old self.new later result }
    {
        if later.site != self.site {
            return Err((AppendError::OtherSite, later));
        }
        let Transcript { site, mut runs } = later;
        if self.runs.items.append(&mut runs.items).is_err() {
            return Err((AppendError::Memory, Transcript { site, runs }));
        }
        Ok(())
    }
}
