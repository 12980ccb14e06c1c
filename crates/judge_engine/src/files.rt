//! Closed logs in files: the files are read one after another, part by part, and judged together.
ghost use Rattle.std.specs.Prelude.{◌≡◌, ◌≢◌, ◌<◌, ◌++◌, [], ℕ, List, Option, None, Some, MatchOption, MatchResult};
ghost use Rattle.std.specs.Io.KnownBytes.{Consumes, IsAtEnd};
ghost use Rattle.std.specs.IoError.{error_kind};
ghost use Rattle.merge_core.specs.Layout.{LayoutState};
ghost use Rattle.log_judge.specs.declared.keeping.Keeping.{Keeping as KeepingThere};
ghost use Rattle.text_input.specs.Lines.{lines_of};
ghost use Rattle.text_input.specs.Sink.{Writes};
ghost use Rattle.text_input.specs.Source.{HasFault};
ghost use Rattle.transcript_reader.specs.declared.runs.SiteRun.{SiteRun as SiteRunThere};
ghost use Rattle.transcript_reader.specs.Reading.{AreLines, IsRefusedAt};
ghost use Rattle.judge_engine.specs.Files.{EndsFiles, FailsAt, HadText, IsFileFault, IsReadFault, IsSourceFault, ReadsFiles, ReadsWhole};
ghost use Rattle.judge_engine.specs.Reading.{AreLogsOf, EndsReading, HasReadTexts, IsUnjudged, ReadsTexts, TakesBytes, TakesText};

use crate::cut::Cut;
use crate::engine::judgement;
use crate::reading::Reading;
use log_judge::{Keeping, Logs};
use merge_core::Layout;
use std::alloc::Global;
use std::io;
use std::io::{ErrorKind, Read, Write};
use text_input::{InputError, Sink, Source};
use thiserror::Error;

// How many bytes one read asks for.
const CHUNK: usize = 65_536;

// How many merges of each site the first reading keeps at most.
const MOST: usize = 64;

/// Closed logs that can be opened, each as often as one likes.
pub trait LogFiles {
    ghost use Rattle.std.specs.Prelude.{ℕ, List, Option};
    ghost use Rattle.std.specs.declared.io.ErrorKind.{ErrorKind as ErrorKindThere};

    /// What opening one gives.
    type File: Read + Drop;

    /// How many there are.
    ghost number: { Self → ℕ };

    /// What the one of this number may have when it is opened, where its bytes are known.
    ghost holds: { Self → ℕ → Option (List ℕ) → Type 0 };

    /// Of which kind the fault may be where the one of this number does not open.
    ghost fails: { Self → ℕ → ErrorKindThere → Type 0 };

    /// How many there are.
    fn count(&self) -> usize
        ensures { result ≡ number self.now };

    /// Opens one of them at its beginning, by its number, counted from 0.
    fn open(&self, file: usize) -> io::Result<Self::File>
        requires { file < number self.now }
        ensures { MatchResult result (λ opened. holds self.now file (Self.File.remaining opened)) (λ error. fails self.now file (error_kind error)) };
}

/// Why closed logs in files were not judged. A file is named by its number, counted from 0, a line by its number in the
/// file, counted from 1.
#[derive(Clone, Copy, Debug, PartialEq, Eq, Error)]
pub enum FilesError {
    /// The line is none of a log: it begins no run, and is no entry of the run before it in the file. No earlier line is
    /// refused.
    #[error("line {line} of file {file} is no line of a log")]
    Refused { file: usize, line: u64 },
    /// The file did not open, or was not read to its end.
    #[error("file {file} was not read")]
    Unread { file: usize },
    /// Two readings were needed, and found different logs.
    #[error("the files have changed meanwhile")]
    Changed,
    #[error("out of memory")]
    Memory,
    /// All was judged, and a write failed.
    #[error("the judgement was not written")]
    Unwritten,
}

/// Reads files of closed logs, one after another and each to its end, and writes the table of a cut through all of them and
/// the verdict on it; where it is no cut, the verdict alone. The lines of each file are those of whole runs, whatever the
/// order of runs of different sites; the runs of a site follow one another in order of files. Nothing is written where a
/// file is refused or not read.
///
/// What is kept does not grow with the files, but for the longest line: the first reading keeps at most 64 merges of each
/// site. Where these do not tell the verdict, the files are read once more, and what is written is said of what they then had.
pub fn judge_files<F: LogFiles, W: Write>(
    alloc: Global,
    layout: &Layout,
    cut: &Cut,
    files: &F,
    sink: &mut Sink<W>,
) -> Result<(), FilesError>
    ensures { EndsFiles layout.now cut.now (F.holds files.now) (F.fails files.now) (F.number files.now) sink.old sink.new result }
{
    let logs = match read_all(alloc, layout, cut, Keeping::First(MOST), files) {
        Ok(logs) => logs,
        Err(error) => return Err(error),
    };
    let Ok(answer) = judgement(alloc, layout, &logs, cut) else {
        return Err(FilesError::Memory);
    };
    let Some(text) = answer else {
        return judge_again(alloc, layout, cut, logs, files, sink);
    };
    write_judgement(sink, text.as_str())
}

// Judges what the files have when they are read once more, by the own rows of the first reading.
fn judge_again<F: LogFiles, W: Write>(
    alloc: Global,
    layout: &Layout,
    cut: &Cut,
    first: Logs,
    files: &F,
    sink: &mut Sink<W>,
) -> Result<(), FilesError>
    requires { (keeping : KeepingThere) × (runs : List SiteRunThere) × AreLogsOf layout.now cut.now keeping runs first }
    ensures { (keeping : KeepingThere) (runs : List SiteRunThere) → ReadsFiles layout.now (F.holds files.now) (F.number files.now) runs
        → AreLogsOf layout.now cut.now keeping runs first → IsUnjudged layout.now cut.now first
        → EndsFiles layout.now cut.now (F.holds files.now) (F.fails files.now) (F.number files.now) sink.old sink.new result }
{
    let Ok(tables) = first.own_tables(alloc, layout) else {
        return Err(FilesError::Memory);
    };
    let again = match read_all(alloc, layout, cut, Keeping::Above(tables), files) {
        Ok(again) => again,
        Err(error) => return Err(error),
    };
    let Ok(answer) = judgement(alloc, layout, &again, cut) else {
        return Err(FilesError::Memory);
    };
    let Some(text) = answer else {
        return Err(FilesError::Changed);
    };
    write_judgement(sink, text.as_str())
}

// Writes a judgement.
fn write_judgement<W: Write>(sink: &mut Sink<W>, text: &str) -> Result<(), FilesError>
    ensures { MatchResult result (λ _. Writes sink.old sink.new text.now) (λ error. (error ≡ FilesError.Unwritten) × HasFault sink.new.fault) }
{
    if !sink.write_and_flush(text) {
        return Err(FilesError::Unwritten);
    }
    Ok(())
}

// Reads all files, and gives what is kept of their logs.
fn read_all<F: LogFiles>(
    alloc: Global,
    layout: &Layout,
    cut: &Cut,
    keeping: Keeping,
    files: &F,
) -> Result<Logs, FilesError>
    ensures { MatchResult result
        (λ logs. (runs : List SiteRunThere) × ReadsFiles layout.now (F.holds files.now) (F.number files.now) runs × AreLogsOf layout.now cut.now keeping runs logs)
        (IsReadFault layout.now (F.holds files.now) (F.fails files.now) (F.number files.now)) }
{
    let Ok(mut reading) = Reading::new(alloc, layout, cut, keeping) else {
        return Err(FilesError::Memory);
    };
    if let Err(error) = read_files(&mut reading, files) {
        return Err(error);
    }
    Ok(reading.logs)
}

// Reads all files, each as one text.
fn read_files<F: LogFiles>(reading: &mut Reading, files: &F) -> Result<(), FilesError>
    requires { (layout : LayoutState) × (cut : Option (List ℕ)) × (keeping : KeepingThere) × ReadsTexts layout cut keeping [] reading.old }
    ensures { (layout : LayoutState) (cut : Option (List ℕ)) (keeping : KeepingThere) → ReadsTexts layout cut keeping [] reading.old
        → MatchResult result
        (λ _. (runs : List SiteRunThere) × ReadsFiles layout (F.holds files.now) (F.number files.now) runs × ReadsTexts layout cut keeping runs reading.new)
        (FailsAt layout (F.holds files.now) (F.fails files.now) (F.number files.now)) }
{
    'files: for file in 0..files.count() {
        if let Err(error) = read_file(reading, files, file) {
            return Err(error);
        }
    }
    Ok(())
}

// Reads a file as the next text.
fn read_file<F: LogFiles>(reading: &mut Reading, files: &F, file: usize) -> Result<(), FilesError>
    requires there { file < F.number files.now }
    requires begun { HasReadTexts reading.old }
    ensures { (layout : LayoutState) (cut : Option (List ℕ)) (keeping : KeepingThere) (earlier : List SiteRunThere)
        → ReadsTexts layout cut keeping earlier reading.old → MatchResult result
        (λ _. (text : List ℕ) × (runs : List SiteRunThere) × HadText (F.holds files.now) file text × AreLines layout (lines_of text) runs
        × ReadsTexts layout cut keeping (earlier ++ runs) reading.new)
        (IsFileFault layout (F.holds files.now) (F.fails files.now) file) }
{
    match files.open(file) {
        Ok(opened) => read_source(reading, &mut Source::new(opened), file),
        Err(error) => Err(unopened(error.kind(), file)),
    }
}

// Reads all that a source has, as the next text.
fn read_source<R: Read>(
    reading: &mut Reading,
    source: &mut Source<R>,
    file: usize,
) -> Result<(), FilesError>
    requires { HasReadTexts reading.old }
    ensures { (layout : LayoutState) (cut : Option (List ℕ)) (keeping : KeepingThere) (earlier : List SiteRunThere)
        → ReadsTexts layout cut keeping earlier reading.old → MatchResult result
        (λ _. (text : List ℕ) × (runs : List SiteRunThere) × Consumes source.old.remaining source.new.remaining text × IsAtEnd source.new.remaining
        × AreLines layout (lines_of text) runs × ReadsTexts layout cut keeping (earlier ++ runs) reading.new)
        (IsSourceFault layout source.old source.new file) }
{
    match read_text(reading, source) {
        Ok(()) => end_text(reading, file),
        Err(InputError::Memory) => Err(FilesError::Memory),
        Err(InputError::TooLong | InputError::Io) => Err(FilesError::Unread { file }),
    }
}

// Why a file was not read that did not open.
fn unopened(kind: ErrorKind, file: usize) -> FilesError
    ensures memory { kind ≡ ErrorKind.OutOfMemory → result ≡ FilesError.Memory }
    ensures other { kind ≢ ErrorKind.OutOfMemory → result ≡ FilesError.Unread file }
{
    if kind == ErrorKind::OutOfMemory {
        return FilesError::Memory;
    }
    FilesError::Unread { file }
}

// Whether the text that was read is refused; else another one begins.
fn end_text(reading: &mut Reading, file: usize) -> Result<(), FilesError>
    ensures { (layout : LayoutState) (cut : Option (List ℕ)) (keeping : KeepingThere) (earlier : List SiteRunThere) (text : List ℕ)
        → EndsReading layout cut keeping earlier text reading.old.layout reading.old.refused reading.old.site reading.old.logs
        → MatchResult result
        (λ _. (runs : List SiteRunThere) × AreLines layout (lines_of text) runs × ReadsTexts layout cut keeping (earlier ++ runs) reading.new)
        (λ error. (line : ℕ) × (error ≡ FilesError.Refused file line) × IsRefusedAt layout (lines_of text) line) }
{
    if let Some(line) = reading.refused {
        return Err(FilesError::Refused { file, line });
    }
    reading.begin_text();
    Ok(())
}

// Takes in all that a source has, as the whole next text.
fn read_text<R: Read>(reading: &mut Reading, source: &mut Source<R>) -> Result<(), InputError>
    requires { HasReadTexts reading.old }
    ensures { ReadsWhole source.old source.new (λ text. TakesText reading.old text reading.new) result }
{
    if let Err(error) = read_parts(reading, source) {
        return Err(error);
    }
    if reading.finish().is_err() {
        return Err(InputError::Memory);
    }
    Ok(())
}

// Takes in all that a source has, part by part.
fn read_parts<R: Read>(reading: &mut Reading, source: &mut Source<R>) -> Result<(), InputError>
    requires { HasReadTexts reading.old }
    ensures { ReadsWhole source.old source.new (λ bytes. TakesBytes reading.old bytes reading.new) result }
{
    let mut chunk = [0u8; CHUNK];
    'parts: for _ in 0..u64::MAX {
        match source.read(&mut chunk[..]) {
            Ok(0) => return Ok(()),
            Ok(n) => {
                let Ok(()) = reading.add(&chunk[..n]) else {
                    return Err(InputError::Memory);
                };
            }
            Err(error) => return Err(error),
        }
    }
    Err(InputError::Memory) // so many parts find no room anywhere
}
