//! Sessions from their text.
ghost use Rattle.std.specs.Prelude.{◌≡◌, length};
ghost use Rattle.script_text.specs.Words.{record_word};
ghost use Rattle.text_parts.specs.Readers.{Gives, joined_at};
ghost use Rattle.transcript_reader.specs.Readers.{phase_after, phase_at, session_at, sessions_at};

use crate::quoted::cut_at;
use admission_core::{Phase, Session};
use merge_core::Layout;
use script_text::record_word;
use std::alloc::Global;
use text_parts::{Unread, after, behind_comma, number_at};

// A phase behind its word.
fn phase_after<'a>(
    literal: &[u8],
    phase: Phase,
    bytes: &'a [u8],
) -> Result<(Phase, &'a [u8]), Unread>
    ensures { Gives (λ x. (x.0, x.1.now)) result (phase_after literal.now phase bytes.now) }
{
    let rest = after(literal, bytes)?;
    Ok((phase, rest))
}

// What a session is doing, up to the closing quote.
#[tactic(auto, unfolding(crate::specs::Readers::phase_at))]
fn phase_at(bytes: &[u8]) -> Result<(Phase, &[u8]), Unread>
    ensures { Gives (λ x. (x.0, x.1.now)) result (phase_at bytes.now) }
{
    if let [b'r', ..] = bytes {
        return phase_after(b"reader\"", Phase::Reader, bytes);
    }
    if let [b'w', b'a', ..] = bytes {
        return phase_after(b"waiting\"", Phase::Waiting, bytes);
    }
    phase_after(b"writer\"", Phase::Writer, bytes)
}

// A record by its name.
fn named_record(layout: &Layout, name: &[u8]) -> Result<u16, Unread>
    ensures { Gives (λ r. r) result (record_word layout.now.records name.now) }
{
    match record_word(layout, name) {
        Some(r) => Ok(r),
        None => Err(Unread::Refused),
    }
}

// One session.
#[tactic(auto, unfolding(crate::specs::Readers::session_at))]
fn session_at<'a>(layout: &Layout, bytes: &'a [u8]) -> Result<(Session, &'a [u8]), Unread>
    ensures { Gives (λ x. (x.0, x.1.now)) result (session_at layout.now.records bytes.now) }
{
    let rest = after(b"\"", bytes)?;
    let (name, rest) = cut_at(b' ', rest)?;
    let r = named_record(layout, name)?;
    let (h, rest) = number_at(rest)?;
    let rest = after(b" ", rest)?;
    let (phase, rest) = phase_at(rest)?;
    Ok((Session { r, h, phase }, rest))
}

// One session and further ones.
#[tactic(auto, unfolding(text_parts::specs::Readers::joined_at))]
fn some_sessions<'a>(
    alloc: Global,
    layout: &Layout,
    bytes: &'a [u8],
) -> Result<(Vec<Session>, &'a [u8]), Unread>
    ensures { Gives (λ x. (x.0.items, x.1.now)) result (joined_at (session_at layout.now.records) (length bytes.now) bytes.now) }
{
    let mut sessions = Vec::new(alloc);
    let (first, mut rest) = session_at(layout, bytes)?;
    sessions.push(first)?;
    for _ in 0..bytes.len() {
        let Some(tail) = behind_comma(rest) else {
            return Ok((sessions, rest));
        };
        let (session, behind) = session_at(layout, tail)?;
        sessions.push(session)?;
        rest = behind;
    }
    Ok((sessions, rest))
}

/// The sessions up to the closing bracket, and the bytes from there on.
#[tactic(auto, unfolding(crate::specs::Readers::sessions_at))]
pub(crate) fn sessions_at<'a>(
    alloc: Global,
    layout: &Layout,
    bytes: &'a [u8],
) -> Result<(Vec<Session>, &'a [u8]), Unread>
    ensures { Gives (λ x. (x.0.items, x.1.now)) result (sessions_at layout.now.records bytes.now) }
{
    match bytes {
        [] => Err(Unread::Refused),
        [b']', ..] => Ok((Vec::new(alloc), bytes)),
        [_, ..] => some_sessions(alloc, layout, bytes),
    }
}
