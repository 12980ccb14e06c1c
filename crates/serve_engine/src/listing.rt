//! What a site shows of a record: its sessions.
ghost use Rattle.std.specs.Prelude.{◌≡◌, ◌++◌, ◌<◌, ◌≤◌, ℕ, Bool, length, string_bytes, IfOk, decimal, true};
ghost use Rattle.admission_model.specs.Account.{Account};
ghost use Rattle.admission_core.specs.Core.{IsCore, Stands};
ghost use Rattle.serve_engine.specs.Answers.{number_at, separator, sessions_line, sessions_text};
ghost use Rattle.session_list.specs.declared.session.Session.{Session};
ghost use Rattle.serve_engine.specs.Looks.{session_part, still_first};

use crate::showing::push_no_record;
use admission_core::{Session, SiteCore};
use script_text::phase_name;
use std::alloc::AllocError;
use text_parts::push_field;

/// Writes how many sessions a record has, then holder and phase of each in order of arrival, and LF; or that there is no
/// such record. Copies the site's durable part: linear in the book, and `n log n` in the sessions.
pub(crate) fn push_sessions(text: &mut String, core: &SiteCore, r: u16) -> Result<(), AllocError>
    requires { IsCore core.now }
    ensures { IfOk result (λ _. (a : Account) → Stands a core.now → string_bytes text.new ≡ string_bytes text.old ++ sessions_line a r) }
{
    if usize::from(r) >= core.layout().records().len() {
        return push_no_record(text);
    }
    let durable = core.durable()?;
    push_list(text, r, durable.sessions())?;
    text.push_str("\n")
}

// Writes how many sessions are at a record, and which.
fn push_list(text: &mut String, r: u16, sessions: &[Session]) -> Result<(), AllocError>
    ensures { IfOk result (λ _. string_bytes text.new ≡ string_bytes text.old ++ (decimal (number_at r sessions.now) ++ sessions_text r true sessions.now)) }
{
    push_field(text, "", number_at(r, sessions))?;
    push_each(text, r, sessions)
}

// How many sessions are at a record.
fn number_at(r: u16, sessions: &[Session]) -> u64
    ensures { result ≡ number_at r sessions.now }
{
    let mut number = 0;
    for session in sessions {
        if session.r == r {
            number += 1;
        }
    }
    number
}

// Writes the sessions at a record.
fn push_each(text: &mut String, r: u16, sessions: &[Session]) -> Result<(), AllocError>
    ensures { IfOk result (λ _. string_bytes text.new ≡ string_bytes text.old ++ sessions_text r true sessions.now) }
{
    let mut first = true;
    for session in sessions {
        first = push_at(text, r, first, *session)?;
    }
    Ok(())
}

// Writes a session where it is at the record. Whether none was written yet.
fn push_at(text: &mut String, r: u16, first: bool, session: Session) -> Result<bool, AllocError>
    ensures text { IfOk result (λ _. string_bytes text.new ≡ string_bytes text.old ++ session_part r first session) }
    ensures first { IfOk result (λ still. still ≡ still_first r first session) }
{
    if session.r != r {
        return Ok(first);
    }
    push_field(text, separator(first), session.h)?;
    text.push_str(" ")?;
    text.push_str(phase_name(session.phase))?;
    Ok(false)
}

// What stands before a session.
fn separator(first: bool) -> &'static str
    ensures { result.now ≡ separator first }
{
    if first { " " } else { ", " }
}
