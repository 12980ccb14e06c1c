//! What must stand in a log file before the next run.
ghost use Rattle.std.specs.Prelude.{◌≡◌, ◌≤◌, IfOk, length, string_bytes};
ghost use Rattle.transcript_text.specs.Texts.{MayBegin};
ghost use Rattle.log_file.specs.Pieces.{AreWhole};
ghost use Rattle.log_file.specs.Mending.{IsDoubted, IsMended};
ghost use Rattle.log_file.specs.Judging.{IsJudged, IsWholeMended, doubt_answer};

use crate::doubt::doubted_line;
use crate::fronts::may_be_log;
use crate::legality::{fits, is_only_of, runs_of};
use crate::pieces::{before_last, whole_lines, with_tail};
use crate::refusal::{LogError, LogRefusal};
use admission_core::Durable;
use merge_core::Layout;
use std::alloc::Global;
use transcript_reader::read_transcripts;

/// What must stand in a log file: so many of its first bytes, and this text behind them.
#[derive(Debug, Drop)]
pub struct Mended {
    pub kept: u64,
    pub tail: String,
}

/// What must stand in a site's log file before its next run, which begins with what the store kept.
///
/// A line without LF was torn by a crash, and is dropped: its change was never handed to the store. The last whole entry may
/// be that of a change that the store did not keep; then it is written again with the reply `refused StoreFault`. Refused,
/// in this order: `NotALog`, where no line is whole, and the bytes are not the front of one with which a log of the site can
/// begin; `NotTranscript`, by the whole lines; `WrongSite`; `WrongStore`, where the log fits what the store kept in neither
/// way. `Memory` may come in place of each.
///
/// Linear in the entries, a merge in its rows, and in the runs times the layout's slots; without a whole line in the sites
/// times the layout's slots. Beside the bytes there is room for their transcripts, and for a copy of the bytes where the
/// last entry is written again.
pub fn mend(
    alloc: Global,
    layout: &Layout,
    site: u16,
    bytes: &[u8],
    first: &Durable,
) -> Result<Mended, LogError>
    ensures mended { IsMended layout.now site bytes.now first.now result }
    ensures within { IfOk result (λ m. m.kept ≤ length bytes.now) }
    ensures may_begin { IfOk result (λ _. MayBegin layout.now site layout.now.sites first.now) }
{
    let whole = whole_lines(bytes);
    if !may_be_log(alloc, layout, site, bytes, whole)? {
        return Err(LogError::Refused(LogRefusal::NotALog));
    }
    mend_whole(alloc, layout, site, whole, first)
}

// What must stand there, by whole lines.
fn mend_whole(
    alloc: Global,
    layout: &Layout,
    site: u16,
    whole: &[u8],
    first: &Durable,
) -> Result<Mended, LogError>
    requires { AreWhole whole.now }
    ensures { IsWholeMended layout.now site whole.now first.now result }
{
    match judge_log(alloc, layout, site, whole, first)? {
        Judged::Fits => Ok(Mended {
            kept: whole.len() as u64,
            tail: String::new(alloc),
        }),
        Judged::Unfit(None) => Err(LogError::Refused(LogRefusal::WrongStore)),
        Judged::Unfit(Some(tail)) => mend_last(alloc, layout, site, whole, tail, first),
    }
}

/// What is known of whole lines: they are a log that fits what the store kept; or one that does not, with the line of its
/// last entry as it is written in doubt, if there is an entry that may be.
#[derive(Debug, Drop)]
pub(crate) enum Judged {
    Fits,
    Unfit(Option<String>),
}

// Judges whole lines.
fn judge_log(
    alloc: Global,
    layout: &Layout,
    site: u16,
    whole: &[u8],
    first: &Durable,
) -> Result<Judged, LogError>
    ensures { IsJudged layout.now site whole.now first.now result }
{
    let transcripts = read_transcripts(alloc, layout, whole)?;
    if !is_only_of(transcripts.as_slice(), site) {
        return Err(LogError::Refused(LogRefusal::WrongSite));
    }
    let doubted = doubted_line(alloc, layout, runs_of(transcripts.as_slice(), site))?;
    if fits(alloc, layout, site, transcripts, first)? {
        return Ok(Judged::Fits);
    }
    Ok(Judged::Unfit(doubted))
}

// Puts the line of an entry in doubt in place of the last line, if the log fits with it.
fn mend_last(
    alloc: Global,
    layout: &Layout,
    site: u16,
    whole: &[u8],
    tail: String,
    first: &Durable,
) -> Result<Mended, LogError>
    requires whole { AreWhole whole.now }
    requires doubted { IsDoubted layout.now site whole.now first.now (string_bytes tail) }
    ensures { IsWholeMended layout.now site whole.now first.now result }
{
    let front = before_last(whole);
    let other = with_tail(alloc, front, tail.as_str())?;
    match doubt_answer(judge_log(alloc, layout, site, other.as_slice(), first)) {
        Ok(()) => Ok(Mended {
            kept: front.len() as u64,
            tail,
        }),
        Err(error) => Err(error),
    }
}

// The answer of a log with its last entry in doubt.
fn doubt_answer(judged: Result<Judged, LogError>) -> Result<(), LogError>
    ensures { result ≡ doubt_answer judged }
{
    match judged {
        Ok(Judged::Fits) => Ok(()),
        Err(LogError::Memory) => Err(LogError::Memory),
        Ok(Judged::Unfit(_)) | Err(LogError::Refused(_) | LogError::Io) => {
            Err(LogError::Refused(LogRefusal::WrongStore))
        }
    }
}
