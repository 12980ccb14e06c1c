//! Why a log file is not taken.
ghost use Rattle.std.specs.Prelude.{◌≡◌};
ghost use Rattle.transcript_reader.specs.declared.reading.ReadError.{ReadError as ReadErrorThere};
ghost use Rattle.log_file.specs.declared.refusal.LogError.TheVariants.{Memory, Refused};
ghost use Rattle.log_file.specs.Refusals.{read_error};

use std::alloc::{AllocError, AllocFailed};
use thiserror::Error;
use transcript_reader::ReadError;

/// Why a file can't be a site's log: the first that applies, from the top.
#[derive(Clone, Copy, Debug, PartialEq, Eq, Error)]
pub enum LogRefusal {
    /// It can't be opened or read.
    #[error("the log can't be read")]
    NotRead,
    /// Another process holds it, as the log of a service. Then it is not read.
    #[error("another process writes to it")]
    InUse,
    /// No line of it is whole, and it is not the front of a line with which a log of the site can begin.
    #[error("it is no log of the site")]
    NotALog,
    /// Its line of this number, counted from 1, is whole, and is no line of a log.
    #[error("line {line} is no line of a log")]
    NotTranscript { line: u64 },
    /// It has a run of another site.
    #[error("it is the log of another site")]
    WrongSite,
    /// It does not end with what the store kept: it is the log of another store, or begins behind the store's first call.
    #[error("it does not fit what the store kept")]
    WrongStore,
}

impl LogRefusal {
    ghost use Rattle.std.specs.Prelude.{◌≡◌};
    ghost use Rattle.log_file.specs.Refusals.{log_refusal_name};

    /// The name that the program writes.
    pub fn name(self) -> &'static str
        ensures { result.now ≡ log_refusal_name self }
    {
        match self {
            LogRefusal::NotRead => "NotRead",
            LogRefusal::InUse => "InUse",
            LogRefusal::NotALog => "NotALog",
            LogRefusal::NotTranscript { .. } => "NotTranscript",
            LogRefusal::WrongSite => "WrongSite",
            LogRefusal::WrongStore => "WrongStore",
        }
    }
}

/// Why a log was not opened.
#[derive(Clone, Copy, Debug, PartialEq, Eq, Error)]
pub enum LogError {
    /// The file is not taken, and nothing was written to it.
    #[error(transparent)]
    Refused(LogRefusal),
    #[error("out of memory")]
    Memory,
    /// The file was not written.
    #[error("the log was not written")]
    Io,
}

impl From<AllocError> for LogError {
    ghost from_gives = { λ _ e. e ≡ Memory };

    fn from(_e: AllocError) -> LogError {
        LogError::Memory
    }
}

impl<T: Drop> From<AllocFailed<T>> for LogError {
    ghost from_gives = { λ _ e. e ≡ Memory };

    fn from(_e: AllocFailed<T>) -> LogError {
        LogError::Memory
    }
}

impl From<ReadError> for LogError {
    ghost from_gives = { λ r e. e ≡ read_error r };

    fn from(e: ReadError) -> LogError {
        match e {
            ReadError::NotTranscript { line } => {
                LogError::Refused(LogRefusal::NotTranscript { line })
            }
            ReadError::Memory => LogError::Memory,
        }
    }
}
