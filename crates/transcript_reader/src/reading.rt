//! The transcripts of all sites from their lines.
ghost use Rattle.std.specs.Prelude.{◌≡◌, ◌<◌, ◌+◌, length, IfOk, Err, MatchResult};
ghost use Rattle.text_input.specs.Lines.{lines_of};
ghost use Rattle.transcript_reader.specs.declared.reading.ReadError.TheVariants.{Memory};
ghost use Rattle.transcript_reader.specs.Reading.{AreTranscriptsOf, IsFaultOf};
ghost use Rattle.transcript_reader.specs.Lines.{StopsAt, HasRun, HasNoRun};

use crate::entries::entries_in;
use crate::openings::{Opening, opening_in};
use crate::runs::{SiteRun, add_run, no_runs};
use desk_log::{Entries, Run, Transcript};
use merge_core::Layout;
use std::alloc::{AllocError, AllocFailed, Global};
use text_input::cut_line;
use text_parts::Unread;
use thiserror::Error;

/// Why bytes were not read as the lines of runs.
#[derive(Clone, Copy, Debug, PartialEq, Eq, Error)]
pub enum ReadError {
    /// The first line that is refused, counted from 1: it begins no run, and is no entry of the run before it.
    #[error("line {line} is no line of a transcript")]
    NotTranscript { line: u64 },
    #[error("out of memory")]
    Memory,
}

impl From<AllocError> for ReadError {
    ghost from_gives = { λ _ e. e ≡ Memory };

    fn from(_e: AllocError) -> ReadError {
        ReadError::Memory
    }
}

impl<T: Drop> From<AllocFailed<T>> for ReadError {
    ghost from_gives = { λ _ e. e ≡ Memory };

    fn from(_e: AllocFailed<T>) -> ReadError {
        ReadError::Memory
    }
}

// The run whose lines stand at the front, and the bytes behind it.
fn run_at<'a>(
    alloc: Global,
    layout: &Layout,
    bytes: &'a [u8],
) -> Result<(SiteRun, &'a [u8]), Unread>
    requires { 0 < length bytes.now }
    ensures run { IfOk result (λ x. HasRun layout.now (lines_of bytes.now) x.0 (lines_of x.1.now)) }
    ensures stops { IfOk result (λ x. StopsAt layout.now.records (lines_of x.1.now)) }
    ensures shorter { IfOk result (λ x. length x.1.now < length bytes.now) }
    ensures refused { result ≡ Err Unread.Refused → HasNoRun layout.now (lines_of bytes.now) }
{
    let (line, rest) = cut_line(bytes);
    let Opening { site, sites, first } = opening_in(alloc, layout, line)?;
    let (entries, rest) = entries_in(alloc, layout, rest)?;
    let entries = Entries::from_vec(entries);
    let run = Run {
        sites,
        first,
        entries,
    };
    Ok((SiteRun { site, run }, rest))
}

// The number of the first line behind those of a run. No memory holds so many lines that there is none.
fn line_behind(line: u64, run: &SiteRun) -> Result<u64, AllocError>
    ensures { IfOk result (λ n. n ≡ (line + length run.now.run.entries) + 1) }
{
    let lines = run.run.entries.len() as u64;
    match line.checked_add(lines) {
        Some(last) if last < u64::MAX => Ok(last + 1),
        _ => Err(AllocError),
    }
}

/// What the lines say: a transcript for each site of the layout, in order of sites. They are the lines of runs that
/// [`transcript_text::transcript_text`] writes; the line that begins a run may lack the number of sites, which then
/// is the layout's. Runs of one site stand in their order, and a site without a run has an empty transcript. Linear in
/// the bytes, for each run in the layout's slots, and for each entry and each session in the records, among which its name
/// is looked up.
pub fn read_transcripts(
    alloc: Global,
    layout: &Layout,
    bytes: &[u8],
) -> Result<Vec<Transcript>, ReadError>
    ensures { MatchResult result (λ transcripts. AreTranscriptsOf layout.now bytes.now transcripts.items) (IsFaultOf layout.now bytes.now) }
{
    let mut transcripts = no_runs(alloc, layout.sites())?;
    let mut rest = bytes;
    let mut line = 1;
    while !rest.is_empty() {
        match run_at(alloc, layout, rest) {
            Ok((run, behind)) => {
                line = line_behind(line, &run)?;
                add_run(alloc, &mut transcripts, run)?;
                rest = behind;
            }
            Err(Unread::Refused) => return Err(ReadError::NotTranscript { line }),
            Err(Unread::Memory) => return Err(ReadError::Memory),
        }
    }
    Ok(transcripts)
}
