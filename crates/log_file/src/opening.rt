//! A log file is opened: held, read, mended, and given the line of a new run.
ghost use Rattle.std.specs.Prelude.{◌≡◌, ◌++◌, ◌≤◌, IfOk, MatchBool, MatchResult, string_bytes};
ghost use Rattle.std.specs.Io.KnownBytes.{Consumes, IsAtEnd};
ghost use Rattle.transcript_text.specs.Texts.{MayBegin};
ghost use Rattle.log_file.specs.Opening.{IsBegunLog, IsOpenedLog, Puts, run_line};
ghost use Rattle.log_file.specs.Errors.{IsHoldError, IsReadError, open_error, Cuts};

use crate::file::{LogFile, SystemFile};
use crate::file_log::FileLog;
use crate::folder::sync_name;
use crate::hold::ExclusiveFile;
use crate::mending::{Mended, mend};
use crate::refusal::{LogError, LogRefusal};
use admission_core::Durable;
use merge_core::Layout;
use std::alloc::{AllocError, Global};
use std::fs::OpenOptions;
use std::io;
use std::io::{ErrorKind, Read};
use std::rt::Files;
use transcript_text::{book_told, push_front, push_sites};

/// Opens the log file at a path for a new run of a site, which begins with what its store kept: the file is made where
/// there is none, held against others until the log is dropped, read, mended ([`mend`]), and the line of the new run is
/// appended. The folder of an empty file is synced before, so that the file's name is there after a crash. Records are named
/// by the layout.
///
/// Refused as by [`mend`]; before that as `NotRead` where the file can't be opened, as `InUse` where another process, or this
/// one, has opened it as a log, and as `NotRead` where it can't be read. Then nothing was written to it. `Io` is answered
/// where it was not written, or its folder not synced; then it may have been mended, and have a part of the new run's line.
pub fn open_log<R: Files<File: ExclusiveFile> + AllocGlobal>(
    rt: &R,
    path: &str,
    layout: &Layout,
    site: u16,
    first: &Durable,
) -> Result<FileLog<SystemFile<R::File>>, LogError>
    ensures { IsOpenedLog R.File.ExclusiveFile R.File.Read.remaining R.File.Write.contents layout.now site first.now result }
{
    match open_file(rt, path) {
        Ok(file) => open_over(rt, path, file, layout, site, first),
        Err(error) => Err(open_error(error.kind())),
    }
}

// Opens the file to read it and to append to it.
fn open_file<R: Files>(rt: &R, path: &str) -> io::Result<R::File> {
    let mut how = OpenOptions::new();
    how.read(true).append(true).create(true);
    how.open(rt, path)
}

// The error for a file that was not opened or read.
fn open_error(kind: ErrorKind) -> LogError
    ensures { result ≡ open_error kind }
{
    if kind == ErrorKind::OutOfMemory {
        return LogError::Memory;
    }
    LogError::Refused(LogRefusal::NotRead)
}

// Begins the log of a new run in the file at a path, which is open, and of which nothing was read.
fn open_over<R: Files<File: ExclusiveFile> + AllocGlobal>(
    rt: &R,
    path: &str,
    file: R::File,
    layout: &Layout,
    site: u16,
    first: &Durable,
) -> Result<FileLog<SystemFile<R::File>>, LogError>
    ensures { IsOpenedLog R.File.ExclusiveFile R.File.Read.remaining R.File.Write.contents layout.now site first.now result }
{
    let mut file = file;
    hold(&file)?;
    let bytes = read_file(rt.alloc(), &mut file)?;
    let mended = mend(rt.alloc(), layout, site, bytes.as_slice(), first)?;
    let size = bytes.as_slice().len() as u64;
    sync_name(rt, path, size)?;
    begin_log(
        rt.alloc(),
        SystemFile::new(file),
        size,
        mended,
        layout,
        site,
        first,
    )
}

// Holds a file.
fn hold<F: ExclusiveFile>(file: &F) -> Result<(), LogError>
    ensures { MatchResult result (λ _. F.is_held file.now) (IsHoldError F.ExclusiveFile file.now) }
{
    match file.try_hold() {
        Ok(true) => Ok(()),
        Ok(false) => Err(LogError::Refused(LogRefusal::InUse)),
        Err(()) => Err(LogError::Refused(LogRefusal::NotRead)),
    }
}

// All that a file has.
fn read_file<F: Read>(alloc: Global, file: &mut F) -> Result<Vec<u8>, LogError>
    ensures { MatchResult result
        (λ bytes. Consumes (F.remaining file.old) (F.remaining file.new) bytes.items × IsAtEnd (F.remaining file.new))
        IsReadError }
{
    let mut bytes = Vec::new(alloc);
    match file.read_to_end(&mut bytes) {
        Ok(_) => Ok(bytes),
        Err(error) => Err(open_error(error.kind())),
    }
}

/// Begins the log of a new run in a file that has so many bytes: has it be as mended, and appends the run's line. `Io` is
/// answered where that fails.
pub fn begin_log<F: LogFile + Drop>(
    alloc: Global,
    file: F,
    size: u64,
    mended: Mended,
    layout: &Layout,
    site: u16,
    first: &Durable,
) -> Result<FileLog<F>, LogError>
    requires within { mended.kept ≤ size }
    requires may_begin { MayBegin layout.now site layout.now.sites first.now }
    ensures { IsBegunLog F.LogFile file size mended.kept (string_bytes mended.tail ++ run_line layout.now site first.now) layout.now result }
{
    let Mended { kept, tail } = mended;
    let text = run_text(alloc, tail, layout, site, first)?;
    let names = layout.try_copy(alloc)?;
    // No file has so many bytes that it does not fit.
    let Some(end) = kept.checked_add(text.len() as u64) else {
        return Err(LogError::Memory);
    };
    let mut file = file;
    if !put(&mut file, size, kept, text.as_str()) {
        return Err(LogError::Io);
    }
    Ok(FileLog::new(alloc, file, names, end))
}

// A text with the line of a run behind it that begins so.
fn run_text(
    alloc: Global,
    tail: String,
    layout: &Layout,
    site: u16,
    first: &Durable,
) -> Result<String, AllocError>
    requires { MayBegin layout.now site layout.now.sites first.now }
    ensures { IfOk result (λ text. string_bytes text ≡ string_bytes tail ++ run_line layout.now site first.now) }
{
    let sites = layout.sites();
    let Some(told) = book_told(alloc, layout, site, sites, first)? else {
        unreachable!();
    };
    let mut text = tail;
    push_front(alloc, &mut text, layout, site, &told, first.sessions())?;
    push_sites(&mut text, Some(sites))?;
    text.push_str("\n")?;
    Ok(text)
}

// Has a file of so many bytes keep the first ones, with a text behind them. Whether that succeeded.
fn put<F: LogFile>(file: &mut F, size: u64, kept: u64, text: &str) -> bool
    requires { kept ≤ size }
    ensures { MatchBool result (Puts F.LogFile file.old file.new size kept text.now) (F.has_failed file.new) }
{
    cut_to(file, size, kept) && file.append(text)
}

// Has a file of so many bytes keep the first ones alone. Whether that succeeded.
fn cut_to<F: LogFile>(file: &mut F, size: u64, kept: u64) -> bool
    requires { kept ≤ size }
    ensures { MatchBool result (Cuts F.LogFile file.old file.new size kept) (F.has_failed file.new) }
{
    if kept == size {
        return true;
    }
    file.cut(kept)
}
