//! The engine of `run`.
ghost use Rattle.std.specs.Prelude.{◌≡◌, ◌≤◌, ◌++◌, string_bytes, IfOk};
ghost use Rattle.run_engine.specs.Engine.{AnswersRun, AnswersScript, EndsRun, error_name, refusal_line};

use crate::logs::write_logs;
use crate::replies::output_text;
use crate::script::{Asked, LineError, ScriptError, read_script};
use crate::sites::run_sites;
use exit_status::{Status, write_too_long};
use merge_core::Layout;
use std::alloc::{AllocError, Global};
use std::io::{Read, Write};
use std::sync::Wait;
use std::thread::Threads;
use text_input::{InputError, Sink, Source, read_input};

/// Reads the whole input as a script, carries it out at sites that work at the same time, and writes the replies, site by
/// site in the script's order, and then the verdict on the closed logs at their ends. Between all sites are links whose
/// runners take so many turns, at most 1,000. The lines of the closed logs are written first, where there is a sink for
/// them. A script with a line that can't be read is refused before a site is opened. Memory that is refused outside a
/// runner's turn ends the run once its threads have ended. Where a thread can't be started, its links are closed, so that
/// all others end, and the answer is `Memory`; only at two sites are the tasks then carried out one after another. May wait.
pub fn run_engine<Rt: Threads + Wait + Sync, R: Read, W: Write, F: Write>(
    rt: &Rt,
    alloc: Global,
    layout: &Layout,
    turns: u64,
    source: &mut Source<R>,
    sink: &mut Sink<W>,
    logs: &mut Option<Sink<F>>,
) -> Status
    requires few { turns ≤ 1000 }
    ensures { EndsRun layout.now source.old source.new sink.old sink.new logs.old logs.new result }
{
    match read_input(alloc, source) {
        Ok(input) => answer_script(rt, alloc, layout, turns, input.as_slice(), sink, logs),
        Err(InputError::TooLong) => {
            if !write_too_long(sink) {
                return Status::Io;
            }
            Status::Refused
        }
        Err(InputError::Memory) => Status::Memory,
        Err(InputError::Io) => Status::Io,
    }
}

// Answers a script that was read.
fn answer_script<Rt: Threads + Wait + Sync, W: Write, F: Write>(
    rt: &Rt,
    alloc: Global,
    layout: &Layout,
    turns: u64,
    script: &[u8],
    sink: &mut Sink<W>,
    logs: &mut Option<Sink<F>>,
) -> Status
    requires few { turns ≤ 1000 }
    ensures { AnswersScript layout.now script.now sink.old sink.new logs.old logs.new result }
{
    match read_script(alloc, layout, script) {
        Ok(asked) => answer_run(rt, alloc, layout, turns, asked.as_slice(), sink, logs),
        Err(ScriptError::Refused { number, error }) => {
            let Ok(text) = refusal_line(alloc, number, error) else {
                return Status::Memory;
            };
            if !sink.write_and_flush(text.as_str()) {
                return Status::Io;
            }
            Status::Refused
        }
        Err(ScriptError::Memory) => Status::Memory,
    }
}

// Carries out what a script asks, and writes what came of it.
fn answer_run<Rt: Threads + Wait + Sync, W: Write, F: Write>(
    rt: &Rt,
    alloc: Global,
    layout: &Layout,
    turns: u64,
    asked: &[Asked],
    sink: &mut Sink<W>,
    logs: &mut Option<Sink<F>>,
) -> Status
    requires few { turns ≤ 1000 }
    ensures { AnswersRun layout.now asked.now sink.old sink.new logs.old logs.new result }
{
    let _ = layout.sites(); // tells the invariant: it is a layout
    let Ok(transcripts) = run_sites(rt, alloc, layout, turns, asked) else {
        return Status::Memory;
    };
    let Ok(text) = output_text(alloc, layout, transcripts.as_slice()) else {
        return Status::Memory;
    };
    match write_logs(alloc, layout, transcripts.as_slice(), logs) {
        Ok(true) => {}
        Ok(false) => return Status::Io,
        Err(_) => return Status::Memory,
    }
    if !sink.write_and_flush(text.as_str()) {
        return Status::Io;
    }
    Status::Done
}

// The line that tells of a refused line.
fn refusal_line(alloc: Global, number: u64, error: LineError) -> Result<String, AllocError>
    ensures { IfOk result (λ text. string_bytes text ≡ refusal_line number error) }
{
    let name = error_name(error);
    format!(in alloc; "line {number} refused {name}\n")
}

// The name of a refusal, as the program writes it.
fn error_name(error: LineError) -> &'static str
    ensures { result.now ≡ error_name error }
{
    match error {
        LineError::TooManyLines => "TooManyLines",
        LineError::BadWord => "BadWord",
        LineError::NoSite => "NoSite",
    }
}
