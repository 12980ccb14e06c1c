//! Work over databases on files, which may stop. A function that hands a database on files to one over any store is dear
//! to prove, so what is done over such a database is a `Work`, and few functions name its store.
use crate::databases::after_texts;
use sqlite::{Alter, Connection, FileStore, Files, Options};
use sqlite_disk::{Crash, Disk, Fuse, Memory};
use std::alloc::Global;
use std::sync::Wait;

/// What is done over a database, whatever its store is.
pub trait Work {
    type Found: Drop;

    /// What comes of it, and the database; nothing where it goes otherwise than it is to.
    fn over<S: Alter + Drop, R: Wait>(
        &self,
        rt: &R,
        alloc: Global,
        connection: Connection<S>,
    ) -> Option<(Self::Found, Connection<S>)>;
}

/// Empty files.
pub fn empty_files(alloc: Global) -> Files<Memory> {
    Files {
        log: Memory::new(alloc),
        db: Memory::new(alloc),
    }
}

/// Files of which each stops after so many calls.
pub fn fused(files: Files<Memory>, log: u64, db: u64) -> Files<Fuse<Memory>> {
    Files {
        log: Fuse::new(files.log, log),
        db: Fuse::new(files.db, db),
    }
}

/// A database on files, or the files where they do not open.
pub fn opened<D: Crash + Drop>(
    alloc: Global,
    files: Files<D>,
) -> Result<Connection<FileStore<D>>, Files<D>> {
    if !files.may_be_used() {
        return Err(files);
    }
    match Connection::open_files(alloc, files, Options::new(1)) {
        Ok(connection) => Ok(connection),
        Err((_, left)) => Err(left.into_files()),
    }
}

/// The files as a crash leaves them.
pub fn crashed<D: Crash + Drop>(files: Files<D>) -> Files<D> {
    let mut left = files;
    left.log.crash();
    left.db.crash();
    left
}

/// A file with all that was written to another one.
fn written(alloc: Global, file: &Fuse<Memory>) -> Option<Memory> {
    let mut copy = Memory::new(alloc);
    copy.write_at(0, file.inner().bytes()).ok()?;
    copy.sync().ok()?;
    Some(copy)
}

/// What stops: the machine, and what was not synced is lost; or the process alone, and all that it wrote stays.
#[derive(Clone, Copy, PartialEq, Eq)]
pub enum StoppedBy {
    Machine,
    Process,
}

/// A file that stops, and with what.
#[derive(Clone, Copy)]
pub struct Stop {
    pub of_log: bool,
    pub by: StoppedBy,
}

/// Empty files of which one stops after so many calls.
pub fn stopping(alloc: Global, stop: Stop, calls: u64) -> Files<Fuse<Memory>> {
    if stop.of_log {
        fused(empty_files(alloc), calls, 10000)
    } else {
        fused(empty_files(alloc), 10000, calls)
    }
}

/// Files that crash next, as a stop leaves them: those of a process with all that it had written, and they do not stop any
/// more.
pub fn left_by(
    alloc: Global,
    files: Files<Fuse<Memory>>,
    by: StoppedBy,
) -> Option<Files<Fuse<Memory>>> {
    if by == StoppedBy::Machine {
        return Some(files);
    }
    let log = written(alloc, &files.log)?;
    let db = written(alloc, &files.db)?;
    Some(fused(Files { log, db }, u64::MAX, u64::MAX))
}

/// The files of a database, which are not closed in order.
fn files_of<D: Crash + Drop>(connection: Connection<FileStore<D>>) -> Files<D> {
    connection.into_store().close()
}

/// The files of a database that is closed in order.
fn closed<D: Disk + Drop>(connection: Connection<FileStore<D>>) -> Option<Files<D>> {
    connection.close_files().ok()
}

/// What comes of work over a database on files.
fn worked<D: Crash + Drop, W: Work, R: Wait>(
    rt: &R,
    alloc: Global,
    connection: Connection<FileStore<D>>,
    work: &W,
) -> Option<(W::Found, Connection<FileStore<D>>)> {
    work.over(rt, alloc, connection)
}

fn left_over<D: Crash + Drop, W: Work, R: Wait>(
    rt: &R,
    alloc: Global,
    connection: Connection<FileStore<D>>,
    work: &W,
) -> Option<(W::Found, Files<D>)> {
    match worked(rt, alloc, connection, work) {
        Some((found, connection)) => Some((found, files_of(connection))),
        None => None,
    }
}

fn closed_over<D: Crash + Drop, W: Work, R: Wait>(
    rt: &R,
    alloc: Global,
    connection: Connection<FileStore<D>>,
    work: &W,
) -> Option<(W::Found, Files<D>)> {
    match worked(rt, alloc, connection, work) {
        Some((found, connection)) => Some((found, closed(connection)?)),
        None => None,
    }
}

/// What comes of work over a database on files.
pub fn found_over<D: Crash + Drop, W: Work, R: Wait>(
    rt: &R,
    alloc: Global,
    connection: Connection<FileStore<D>>,
    work: &W,
) -> Option<W::Found> {
    match left_over(rt, alloc, connection, work) {
        Some((found, _)) => Some(found),
        None => None,
    }
}

/// What comes of work over files, nothing where they do not open, and the files, which are not closed in order.
pub fn left_after<D: Crash + Drop, W: Work, R: Wait>(
    rt: &R,
    alloc: Global,
    files: Files<D>,
    work: &W,
) -> Option<(Option<W::Found>, Files<D>)> {
    match opened(alloc, files) {
        Ok(connection) => {
            let (found, left) = left_over(rt, alloc, connection, work)?;
            Some((Some(found), left))
        }
        Err(left) => Some((None, left)),
    }
}

/// What comes of work over files, and the files, closed in order.
pub fn closed_after<D: Crash + Drop, W: Work, R: Wait>(
    rt: &R,
    alloc: Global,
    files: Files<D>,
    work: &W,
) -> Option<(W::Found, Files<D>)> {
    match opened(alloc, files) {
        Ok(connection) => closed_over(rt, alloc, connection, work),
        Err(_) => None,
    }
}

/// What comes of work over files once they have crashed.
pub fn found_after_crash<D: Crash + Drop, W: Work, R: Wait>(
    rt: &R,
    alloc: Global,
    files: Files<D>,
    work: &W,
) -> Option<W::Found> {
    match opened(alloc, crashed(files)) {
        Ok(connection) => found_over(rt, alloc, connection, work),
        Err(_) => None,
    }
}

/// A database takes these statements.
#[derive(Drop)]
pub struct Texts(pub &'static [&'static str]);

impl Work for Texts {
    type Found = bool;

    fn over<S: Alter + Drop, R: Wait>(
        &self,
        _rt: &R,
        _alloc: Global,
        connection: Connection<S>,
    ) -> Option<(bool, Connection<S>)> {
        match after_texts(connection, self.0) {
            Some(connection) => Some((true, connection)),
            None => None,
        }
    }
}
