//! The texts of replies.
ghost use Rattle.std.specs.Prelude.{◌≡◌, ◌++◌, ℕ, List, string_bytes, IfOk};
ghost use Rattle.script_text.specs.Replies.{phase_word, left_text, refusal_name, refusal_numbers, numbers_text, refusal_text, reply_text, unread_line};

use admission_model::{Phase, Refusal, Reply};
use delta_codec::push_delta;
use std::alloc::AllocError;
use text_parts::push_field;

/// What a session is doing: `reader`, `waiting` or `writer`.
pub fn phase_name(phase: Phase) -> &'static str
    ensures { result.now ≡ phase_word phase }
{
    match phase {
        Phase::Reader => "reader",
        Phase::Waiting => "waiting",
        Phase::Writer => "writer",
    }
}

/// The name of the variant.
pub fn refusal_name(refusal: Refusal) -> &'static str
    ensures { result.now ≡ refusal_name refusal }
{
    match refusal {
        Refusal::NoRecord => "NoRecord",
        Refusal::BadHolder => "BadHolder",
        Refusal::AlreadyHere => "AlreadyHere",
        Refusal::CounterFull => "CounterFull",
        Refusal::WriterAnnounced { .. } => "WriterAnnounced",
        Refusal::NoSeat { .. } => "NoSeat",
        Refusal::TooManyWriters => "TooManyWriters",
        Refusal::NotAnnounced => "NotAnnounced",
        Refusal::AlreadyInside => "AlreadyInside",
        Refusal::MissingSeats { .. } => "MissingSeats",
        Refusal::NotHere => "NotHere",
        Refusal::NoSite => "NoSite",
        Refusal::ToSelf => "ToSelf",
        Refusal::ZeroSeats => "ZeroSeats",
        Refusal::TooFewRights { .. } => "TooFewRights",
        Refusal::NoPlan => "NoPlan",
        Refusal::OtherLayout { .. } => "OtherLayout",
        Refusal::BadRow { .. } => "BadRow",
        Refusal::OwnRowAhead { .. } => "OwnRowAhead",
        Refusal::Memory => "Memory",
        Refusal::Frozen => "Frozen",
        Refusal::LogFull => "LogFull",
        Refusal::StoreFault => "StoreFault",
    }
}

// The numbers of a refusal, each behind a blank.
fn push_numbers(text: &mut String, refusal: Refusal) -> Result<(), AllocError>
    ensures { IfOk result (λ _. string_bytes text.new ≡ string_bytes text.old ++ numbers_text (refusal_numbers refusal)) }
{
    match refusal {
        Refusal::WriterAnnounced { site } => push_field(text, " ", u64::from(site)),
        Refusal::NoSeat { rights } => push_field(text, " ", rights),
        Refusal::MissingSeats { rights, seats } => {
            push_field(text, " ", rights)?;
            push_field(text, " ", u64::from(seats))
        }
        Refusal::TooFewRights { rights } => push_field(text, " ", rights),
        Refusal::OtherLayout { row } => push_field(text, " ", row as u64),
        Refusal::BadRow { row } => push_field(text, " ", row as u64),
        Refusal::OwnRowAhead { rec } => push_field(text, " ", u64::from(rec)),
        _ => Ok(()),
    }
}

/// Writes `refused`, the refusal's name and its numbers onto the end, with blanks between them.
pub fn push_refusal(text: &mut String, refusal: Refusal) -> Result<(), AllocError>
    ensures { IfOk result (λ _. string_bytes text.new ≡ string_bytes text.old ++ refusal_text refusal) }
{
    text.push_str("refused ")?;
    text.push_str(refusal_name(refusal))?;
    push_numbers(text, refusal)
}

fn left_text(phase: Phase) -> &'static str
    ensures { result.now ≡ left_text phase }
{
    match phase {
        Phase::Reader => "left reader",
        Phase::Waiting => "withdrawn",
        Phase::Writer => "left writer",
    }
}

/// Writes the text of a reply onto the end: a snapshot's is the text of its delta. Linear in the text, and it takes
/// memory for the text alone. After want of memory the text may have a part of it.
pub fn push_reply(text: &mut String, reply: &Reply) -> Result<(), AllocError>
    ensures { IfOk result (λ _. string_bytes text.new ≡ string_bytes text.old ++ reply_text reply.now) }
{
    match reply {
        Reply::Admitted => text.push_str("admitted"),
        Reply::Announced(number) => push_field(text, "announced ", *number),
        Reply::Left(phase) => text.push_str(left_text(*phase)),
        Reply::Given => text.push_str("given"),
        Reply::Gave { to, seats } => {
            push_field(text, "gave ", u64::from(*to))?;
            push_field(text, " ", *seats)
        }
        Reply::Merged(risen) => push_field(text, "merged ", *risen),
        Reply::Snapshot(delta) => push_delta(text, delta),
        Reply::Refused(refusal) => push_refusal(text, *refusal),
    }
}

/// Writes the line that tells of a line that says nothing, by its number from 1.
pub fn push_unread_line(text: &mut String, number: u64) -> Result<(), AllocError>
    ensures { IfOk result (λ _. string_bytes text.new ≡ string_bytes text.old ++ unread_line number) }
{
    push_field(text, "line ", number)?;
    text.push_str(" refused BadWord\n")?;
    Ok(())
}
