//! The command `run`, and the file that its closed logs are written to: that stands under its name whole, or not at all.
ghost use Rattle.std.specs.Prelude.{◌≡◌, ◌≤◌, option_map};
ghost use Rattle.program_shell.specs.Runs.{EndsRunTo, IsPlaced, without_file};

use exit_status::Status;
use merge_core::Layout;
use run_engine::run_engine;
use std::alloc::AllocError;
use std::fs;
use std::io::{ErrorKind, Read, Write};
use std::rt::Files;
use std::sync::Wait;
use std::thread::Threads;
use text_input::{Sink, Source};

/// Carries out a script at sites that work at the same time, and writes their closed logs to a file, if one is named. May
/// wait.
pub fn run_sites<R: Files + AllocGlobal, T: Threads + Wait + Sync, I: Read, O: Write>(
    rt: &R,
    threads: &T,
    layout: &Layout,
    turns: u64,
    out: Option<&str>,
    source: &mut Source<I>,
    sink: &mut Sink<O>,
) -> Status
    requires few { turns ≤ 1000 }
    ensures { EndsRunTo (option_map (λ path. path.now) out.entry) layout.now source.old source.new sink.old sink.new result }
{
    let Some(path) = out else {
        let mut none: Option<Sink<R::File>> = None;
        return run_engine(threads, rt.alloc(), layout, turns, source, sink, &mut none);
    };
    let Ok(part) = part_of(rt, path) else {
        return Status::Memory;
    };
    let file = match fs::create(rt, part.as_str()) {
        Ok(file) => file,
        Err(error) => return without_file(error.kind()),
    };
    let mut logs = Some(Sink::new(file));
    let ended = run_engine(threads, rt.alloc(), layout, turns, source, sink, &mut logs);
    place_file(rt, part.as_str(), path, ended)
}

// Where the file of a path is written: beside it, so that what stands at the path is whole; but at the path itself, where
// something else than a file stands, as a link, a pipe or a device.
fn part_of<R: Files + AllocGlobal>(rt: &R, path: &str) -> Result<String, AllocError> {
    let is_other = match fs::symlink_metadata(rt, path) {
        Ok(found) => !found.is_file(),
        Err(_) => path.is_empty(),
    };
    let suffix = if is_other { "" } else { ".part" };
    format!(in rt.alloc(); "{path}{suffix}")
}

// How a run ends for which no file could be made.
fn without_file(kind: ErrorKind) -> Status
    ensures { result ≡ without_file kind }
{
    if kind == ErrorKind::OutOfMemory {
        return Status::Memory;
    }
    Status::Io
}

// Has the file that was written stand at its path, if the run was carried out; else nothing is left of it. How the run
// then ends.
fn place_file<R: Files>(rt: &R, part: &str, path: &str, ended: Status) -> Status
    ensures { IsPlaced ended result }
{
    if part == path {
        return ended;
    }
    match ended {
        Status::Done => {
            if fs::rename(rt, part, path).is_ok() {
                return Status::Done;
            }
            let _ = fs::remove_file(rt, part);
            Status::Io
        }
        _ => {
            let _ = fs::remove_file(rt, part);
            ended
        }
    }
}
