//! How a service ends.
ghost use Rattle.std.specs.Prelude.{◌≡◌, ◌++◌, MatchBool, codes};
ghost use Rattle.text_input.specs.Source.{HasFault};
ghost use Rattle.text_input.specs.Sink.{Writes};
ghost use Rattle.exit_status.specs.Endings.{Says};
ghost use Rattle.live_databases.specs.Endings.{absence_name, service_code, service_line, with_note};

use exit_status::Status;
use log_file::LogRefusal;
use std::io::Write;
use text_input::Sink;

/// Why the database at a path is not served.
#[derive(Clone, Copy, Debug, PartialEq, Eq)]
pub enum Absence {
    /// None is there, and none was to be made.
    NoStore,
    /// One is there, and a new one was to be made.
    Exists,
    /// Another process has it open.
    InUse,
    /// It is the store of this site in another group of sites, or in none, or in some where none is named.
    WrongGroup,
    /// What is there was not made by this program as a store.
    NotAStore,
    /// The folder of the path is missing.
    NoFolder,
    /// It is marked: some delta has shown that it is older than what others have seen of its site.
    Outdated,
    /// It is the store of this site in no group of sites, and only one of a group can be moved to the next generation.
    NoGroup,
    /// No generation is behind that of the site's group.
    LastGeneration,
}

impl Absence {
    /// The name that the program writes.
    pub fn name(self) -> &'static str
        ensures { result.now ≡ absence_name self }
    {
        match self {
            Absence::NoStore => "NoStore",
            Absence::Exists => "Exists",
            Absence::InUse => "InUse",
            Absence::WrongGroup => "WrongGroup",
            Absence::NotAStore => "NotAStore",
            Absence::NoFolder => "NoFolder",
            Absence::Outdated => "Outdated",
            Absence::NoGroup => "NoGroup",
            Absence::LastGeneration => "LastGeneration",
        }
    }
}

/// How a service ended.
#[derive(Clone, Copy, Debug, PartialEq, Eq)]
pub enum ServiceEnd {
    /// As a command does.
    Ended(Status),
    /// No database was served.
    Absent(Absence),
    /// The site's log can't be used, and nothing was served.
    NoLog(LogRefusal),
    /// The file named for the log is the store itself, and nothing was served.
    LogIsStore,
    /// The site's log could not be written before anything was served.
    Unlogged,
    /// Some delta showed that the site's store is older than what others have seen of it.
    Outdated,
}

impl ServiceEnd {
    /// The same, where it is known whether some reply told that the store is older than what others have seen: only that
    /// or a fault of the store makes a site end so.
    pub fn with_note(self, outdated: bool) -> ServiceEnd
        ensures { result ≡ with_note self outdated }
    {
        match self {
            ServiceEnd::Ended(Status::Fault) if outdated => ServiceEnd::Outdated,
            ended => ended,
        }
    }

    /// The exit status.
    pub fn code(self) -> u8
        ensures { result ≡ service_code self }
    {
        match self {
            ServiceEnd::Ended(status) => status.code(),
            ServiceEnd::Absent(_) | ServiceEnd::Outdated => 5,
            ServiceEnd::Unlogged => 7,
            ServiceEnd::NoLog(_) | ServiceEnd::LogIsStore => 8,
        }
    }

    /// Says what goes with the end, and gives the exit status.
    pub fn end<E: Write>(self, errors: &mut Sink<E>) -> u8
        ensures code { result ≡ service_code self }
        ensures said { Says errors.old errors.new (service_line self) }
    {
        match self {
            ServiceEnd::Ended(status) => {
                let _ = status.end(errors);
            }
            ServiceEnd::Absent(absence) => {
                let _ = write_refusal(errors, "store refused ", absence.name());
            }
            ServiceEnd::NoLog(refusal) => {
                let _ = write_refusal(errors, "log refused ", refusal.name());
            }
            ServiceEnd::LogIsStore => {
                let _ = errors.write_and_flush("log refused IsStore\n");
            }
            ServiceEnd::Unlogged => {
                let _ = errors.write_and_flush("io\n");
            }
            ServiceEnd::Outdated => {
                let _ = errors.write_and_flush("store refused Outdated\n");
            }
        }
        self.code()
    }
}

// Writes a line that says what is refused, and why. Whether that succeeded.
fn write_refusal<E: Write>(errors: &mut Sink<E>, what: &str, name: &str) -> bool
    ensures { MatchBool result
        (Writes errors.old errors.new (what.now ++ (name.now ++ codes "\n")))
        (HasFault errors.new.fault) }
{
    errors.write(what) && errors.write(name) && errors.write_and_flush("\n")
}
