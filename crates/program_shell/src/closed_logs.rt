//! The command `judge`: over the logs of its input, or over files of logs.
ghost use Rattle.std.specs.Prelude.{◌≡◌, ◌≢◌, [], length, map, slice_index_or};
ghost use Rattle.program_shell.specs.ClosedLogs.{EndsFilesAt, EndsJudgeOf, EndsAsUnread, TellsFiles, TellsRefused, any_fault, changed_text, not_read_text, opened_with, path_at, refused_text};

use exit_status::Status;
use judge_engine::{Cut, FilesError, LogFiles, judge_engine, judge_files};
use merge_core::Layout;
use std::io::{Read, Write};
use std::rt::Files;
use std::{fs, io};
use text_input::{Sink, Source};

/// Judges the logs of the input, or of these files, if there are some; the input is not read then. Gives the exit status.
pub(crate) fn judge_logs<R: Files + AllocGlobal, I: Read, O: Write, E: Write>(
    rt: &R,
    paths: &[&str],
    layout: &Layout,
    cut: &Cut,
    source: &mut Source<I>,
    sink: &mut Sink<O>,
    errors: &mut Sink<E>,
) -> u8
    ensures { EndsJudgeOf R.File.Read.remaining (map (λ path. path.now) paths.now) cut.now layout.now source.old source.new sink.old sink.new errors.old errors.new result }
{
    if paths.is_empty() {
        let ended = judge_engine(rt.alloc(), layout, cut, source, sink);
        return ended.end(errors);
    }
    judge_paths(rt, paths, layout, cut, sink, errors)
}

// Files of closed logs, by their paths.
#[derive(Drop)]
struct LogPaths<'a, R: Files> {
    rt: &'a R,
    paths: &'a [&'a str],
}

// No contract has what is at a path.
impl<R: Files> LogFiles for LogPaths<'_, R> {
    ghost use Rattle.std.specs.Prelude.{length};
    ghost use Rattle.program_shell.specs.ClosedLogs.{any_fault, opened_with};

    type File = R::File;

    ghost number = { λ l. length l.paths.now };

    ghost holds = { λ l. opened_with R.File.Read.remaining };

    ghost fails = { λ l. any_fault };

    fn count(&self) -> usize {
        self.paths.len()
    }

    fn open(&self, file: usize) -> io::Result<R::File> {
        fs::open(self.rt, self.paths[file])
    }
}

// Judges the logs of files, and tells how that ended.
fn judge_paths<R: Files + AllocGlobal, O: Write, E: Write>(
    rt: &R,
    paths: &[&str],
    layout: &Layout,
    cut: &Cut,
    sink: &mut Sink<O>,
    errors: &mut Sink<E>,
) -> u8
    ensures { EndsFilesAt R.File.Read.remaining (map (λ path. path.now) paths.now) cut.now layout.now sink.old sink.new errors.old errors.new result }
{
    let files = LogPaths { rt, paths };
    let judged = judge_files(rt.alloc(), layout, cut, &files, sink);
    tell(judged, paths, sink, errors)
}

// Tells how judging files ended, and gives the exit status.
fn tell<O: Write, E: Write>(
    judged: Result<(), FilesError>,
    paths: &[&str],
    sink: &mut Sink<O>,
    errors: &mut Sink<E>,
) -> u8
    ensures { TellsFiles (map (λ path. path.now) paths.now) judged sink.old sink.new errors.old errors.new result }
{
    match judged {
        Ok(()) => Status::Done.end(errors),
        Err(FilesError::Refused { file, line }) => {
            let ended = tell_refused(path_at(paths, file), line, sink);
            ended.end(errors)
        }
        Err(FilesError::Unread { file }) => {
            let path = path_at(paths, file);
            let _ = errors.write(path) && errors.write_and_flush(" refused NotRead\n");
            Status::Io.code()
        }
        Err(FilesError::Changed) => {
            let _ = errors.write_and_flush("logs refused Changed\n");
            Status::Io.code()
        }
        Err(FilesError::Memory) => Status::Memory.end(errors),
        Err(FilesError::Unwritten) => Status::Io.end(errors),
    }
}

// Writes the refusal of a line of a file. How the program ends.
fn tell_refused<O: Write>(path: &str, line: u64, sink: &mut Sink<O>) -> Status
    ensures { TellsRefused (refused_text path.now line) sink.old sink.new result }
{
    if sink.print_and_flush(format_args!("{path} line {line} refused NotTranscript\n")) {
        return Status::Refused;
    }
    Status::Io
}

// The path of this number.
fn path_at<'a>(paths: &[&'a str], file: usize) -> &'a str
    ensures { result.now ≡ path_at (map (λ path. path.now) paths.now) file }
{
    if file < paths.len() {
        return paths[file];
    }
    ""
}
