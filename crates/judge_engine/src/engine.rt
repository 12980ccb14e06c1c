ghost use Rattle.std.specs.Prelude.{◌≡◌, ◌++◌, ℕ, List, Ok, string_bytes, IfOk, MatchOption};
ghost use Rattle.desk_log.specs.declared.transcript.Transcript.{Transcript as TranscriptThere};
ghost use Rattle.log_judge.specs.Verdict.{AreOfSites};
ghost use Rattle.log_judge.specs.Stream.{AreAllLogs};
ghost use Rattle.judge_engine.specs.Cuts.{lengths_of};
ghost use Rattle.judge_engine.specs.Engine.{AnswersLogs, EndsJudge, IsJudgement, refusal_line};
ghost use Rattle.judge_engine.specs.Reading.{IsTakenIn, IsUnjudged};

use crate::cut::Cut;
use crate::intake::Intake;
use crate::verdict::verdict_line;
use exit_status::{Status, write_too_long};
use log_judge::{Logs, Verdict};
use merge_core::Layout;
use std::alloc::{AllocError, Global};
use std::io::{Read, Write};
use text_input::{INPUT_LIMIT, InputError, Sink, Source, read_into};

/// Reads the whole input as the closed logs of all sites, and writes the table of a cut through them and the verdict on it;
/// where it is no cut, the verdict alone; or the refusal of the first line that is none of a log.
pub fn judge_engine<R: Read, W: Write>(
    alloc: Global,
    layout: &Layout,
    cut: &Cut,
    source: &mut Source<R>,
    sink: &mut Sink<W>,
) -> Status
    ensures { EndsJudge layout.now cut.now source.old source.new sink.old sink.new result }
{
    let Ok(mut intake) = Intake::new(alloc, layout, cut) else {
        return Status::Memory;
    };
    match read_into(source, INPUT_LIMIT, &mut intake) {
        Ok(()) => answer_logs(alloc, layout, cut, intake, sink),
        Err(InputError::TooLong) => {
            if !write_too_long(sink) {
                return Status::Io;
            }
            Status::Refused
        }
        Err(InputError::Memory) => Status::Memory,
        Err(InputError::Io) => Status::Io,
    }
}

// Writes the answer to an input that was read.
fn answer_logs<W: Write>(
    alloc: Global,
    layout: &Layout,
    cut: &Cut,
    intake: Intake,
    sink: &mut Sink<W>,
) -> Status
    requires { (bytes : List ℕ) × IsTakenIn layout.now cut.now bytes intake }
    ensures { (bytes : List ℕ) → IsTakenIn layout.now cut.now bytes intake → AnswersLogs layout.now cut.now bytes sink.old sink.new result }
{
    let Ok(reading) = intake.finish() else {
        return Status::Memory;
    };
    match reading.refused {
        None => {
            let Ok(answer) = judgement(alloc, layout, &reading.logs, cut) else {
                return Status::Memory;
            };
            let text = answer.unwrap(); // all was kept
            if !sink.write_and_flush(text.as_str()) {
                return Status::Io;
            }
            Status::Done
        }
        Some(line) => {
            let Ok(text) = refusal_line(alloc, line) else {
                return Status::Memory;
            };
            if !sink.write_and_flush(text.as_str()) {
                return Status::Io;
            }
            Status::Refused
        }
    }
}

// The table of the cut and the verdict on it; nothing where too little was kept for a verdict.
pub(crate) fn judgement(
    alloc: Global,
    layout: &Layout,
    logs: &Logs,
    cut: &Cut,
) -> Result<Option<String>, AllocError>
    requires { (ts : List TranscriptThere) × AreOfSites layout.now ts × AreAllLogs layout.now ts (lengths_of cut.now ts) logs.now }
    ensures { IfOk result (λ answer. MatchOption answer (IsUnjudged layout.now cut.now logs.now)
        (λ text. (ts : List TranscriptThere) → AreOfSites layout.now ts → AreAllLogs layout.now ts (lengths_of cut.now ts) logs.now
        → IsJudgement layout.now ts (lengths_of cut.now ts) (string_bytes text))) }
{
    let _sites = layout.sites(); // tells that the layout is one
    let lengths = cut.lengths(alloc, logs)?;
    let lengths = lengths.as_slice();
    if !logs.is_cut(lengths) {
        let line = verdict_line(alloc, layout, Verdict::BadCut)?;
        return Ok(Some(line));
    }
    let Some(verdict) = logs.verdict(alloc, layout)? else {
        return Ok(None);
    };
    let mut text = logs.cut_table(alloc, lengths)?;
    let line = verdict_line(alloc, layout, verdict)?;
    text.push_str(line.as_str())?;
    Ok(Some(text))
}

// The line that tells of a refused line.
fn refusal_line(alloc: Global, number: u64) -> Result<String, AllocError>
    ensures { IfOk result (λ text. string_bytes text ≡ refusal_line number) }
{
    format!(in alloc; "line {number} refused NotTranscript\n")
}
