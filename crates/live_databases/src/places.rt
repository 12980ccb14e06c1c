//! Which files stand at paths, by their device and number. No contract can say what is at a path.
ghost use Rattle.std.specs.Prelude.{◌≡◌, Bool, IfErr};
ghost use Rattle.exit_status.specs.declared.status.Status.TheVariants.{Memory as NoRoom};
ghost use Rattle.live_databases.specs.LiveStores.{IsUnopened};
ghost use Rattle.live_databases.specs.declared.service_end.ServiceEnd.TheVariants.{Ended};

use crate::service_end::{Absence, ServiceEnd};
use exit_status::{Status, StoreRefusal};
use live_site::StorePlace;
use std::alloc::AllocError;
use std::fs;
use std::fs::{Metadata, OpenOptions};
use std::io::{Error, ErrorKind};
use std::os::unix::fs::{MetadataExt, OpenOptionsExt};
use std::path::PathBuf;

/// A file, by its device and its number there.
#[derive(Clone, Copy, Debug, PartialEq, Eq)]
pub(crate) struct Place {
    device: u64,
    number: u64,
}

// The place of a file.
fn place_of(found: &Metadata) -> Place {
    Place {
        device: found.dev(),
        number: found.ino(),
    }
}

/// The file at a path, or where a link at it leads. An empty one is made where none is there and a store is to be made;
/// else the service ends, which the end tells.
pub(crate) fn find_file(rt: &HostRuntime, path: &str, create: bool) -> Result<Place, ServiceEnd>
    ensures { IfErr result (IsUnopened create) }
{
    match fs::metadata(rt, path) {
        Ok(found) => return Ok(place_of(&found)),
        Err(error) if error.kind() != ErrorKind::NotFound => return Err(unreadable(&error)),
        Err(_) => {}
    }
    if !is_folder_there(rt, path)? {
        return Err(ServiceEnd::Absent(Absence::NoFolder));
    }
    if !create {
        return Err(ServiceEnd::Absent(Absence::NoStore));
    }
    if let Err(error) = make_file(rt, path) {
        return Err(unreadable(&error));
    }
    match fs::metadata(rt, path) {
        Ok(found) => Ok(place_of(&found)),
        Err(error) => Err(unreadable(&error)),
    }
}

// Makes an empty file at a path, as one that is to be a database. One that is there is left as it is.
fn make_file(rt: &HostRuntime, path: &str) -> Result<(), Error> {
    let _file = OpenOptions::new()
        .append(true)
        .create(true)
        .mode(0o644)
        .open(rt, path)?;
    Ok(())
}

// How a service ends where a file can't be looked at.
fn unreadable(error: &Error) -> ServiceEnd
    ensures { (create : Bool) → IsUnopened create result }
{
    if error.kind() == ErrorKind::OutOfMemory {
        return ServiceEnd::Ended(Status::Memory);
    }
    ServiceEnd::Ended(Status::NoStore(StoreRefusal::StoreFault))
}

// Whether the folder of a path is there.
fn is_folder_there(rt: &HostRuntime, path: &str) -> Result<bool, ServiceEnd>
    ensures { IfErr result (λ ended. ended ≡ Ended NoRoom) }
{
    let Ok(mut folder) = PathBuf::from_str(rt.alloc(), path) else {
        return Err(ServiceEnd::Ended(Status::Memory));
    };
    let _ = folder.pop(); // the file's own name
    if folder.as_str().is_empty() {
        return Ok(true);
    }
    match fs::metadata(rt, folder.as_str()) {
        Ok(found) => Ok(found.is_dir()),
        Err(error) => Ok(error.kind() != ErrorKind::NotFound),
    }
}

/// Whether this file stands at a path.
pub(crate) fn is_at(rt: &HostRuntime, path: &str, place: Place) -> bool {
    match fs::metadata(rt, path) {
        Ok(found) => place_of(&found) == place,
        Err(_) => false,
    }
}

/// The log that SQLite keeps beside a database, and the name of the journal that it would look for there.
#[derive(Drop)]
pub(crate) struct StoreLog {
    pub path: String,
    pub place: Place,
    journal_path: String,
}

/// SQLite's log of the database at a path, which is open; none where no memory is found for it.
pub(crate) fn find_log(rt: &HostRuntime, path: &str) -> Option<StoreLog> {
    let real = fs::canonicalize(rt, path).ok()?;
    let log_path = format!(in rt.alloc(); "{}-wal", real.as_str()).ok()?;
    let journal_path = format!(in rt.alloc(); "{}-journal", real.as_str()).ok()?;
    let found = fs::metadata(rt, log_path.as_str()).ok()?;
    Some(StoreLog {
        path: log_path,
        place: place_of(&found),
        journal_path,
    })
}

/// The file of a store that is served, at the path where it was opened, and SQLite's log beside it.
#[derive(Drop)]
pub(crate) struct StoreFile<'a> {
    pub rt: &'a HostRuntime,
    pub path: &'a str,
    pub place: Place,
    pub log: Option<StoreLog>,
}

// Without SQLite's log the file alone is an older store, so that has to be there too.
impl StorePlace for StoreFile<'_> {
    fn is_there(&self) -> bool {
        if !may_be_at(self.rt, self.path, self.place) {
            return false;
        }
        match &self.log {
            Some(log) => may_be_at(self.rt, log.path.as_str(), log.place),
            None => true,
        }
    }
}

// Whether this file stands at a path, or no memory is found for a look.
fn may_be_at(rt: &HostRuntime, path: &str, place: Place) -> bool {
    match fs::metadata(rt, path) {
        Ok(found) => place_of(&found) == place,
        Err(error) => error.kind() == ErrorKind::OutOfMemory,
    }
}

/// Whether the file for a log is one of a store's: its database, SQLite's log, or what the next opening would take for SQLite's
/// journal, by its name.
pub(crate) fn is_store_file(log: &str, store: &StoreFile<'_>) -> Result<bool, AllocError> {
    let Some(beside) = &store.log else {
        return Err(AllocError);
    };
    Ok(
        is_at(store.rt, log, store.place)
            || is_at(store.rt, log, beside.place)
            || is_named(store.rt, log, beside.journal_path.as_str()),
    )
}

// Whether a path names this file, where no link leads to and which need not be there: the same name in the same folder.
fn is_named(rt: &HostRuntime, path: &str, real: &str) -> bool {
    let (folder, name) = path.rsplit_once('/').unwrap_or((".", path));
    let Some((real_folder, real_name)) = real.rsplit_once('/') else {
        return false;
    };
    match fs::canonicalize(rt, folder) {
        Ok(found) => name == real_name && found.as_str() == real_folder,
        Err(_) => false,
    }
}
