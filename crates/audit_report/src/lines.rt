//! The lines of the tables, written place by place.
ghost use Rattle.std.specs.Prelude.{◌≡◌, ◌++◌, string_bytes, IfOk};
ghost use Rattle.audit_report.specs.Lines.{blanks, left_in, right_in, number_in, place_text, seat_line, phase_text, session_line};

use itoa::Buffer;
use session_list::{Phase, Session};
use std::alloc::AllocError;

/// What a site counts of a record's seats: its rights, the seats inside, and its own writers that have announced
/// themselves and not finished.
#[derive(Clone, Copy, Debug)]
pub struct SeatCounts {
    pub rights: u64,
    pub inside: u64,
    pub unfinished: u64,
}

/// Writes so many blanks.
fn push_blanks(text: &mut String, n: usize) -> Result<(), AllocError>
    ensures { IfOk result (λ _. string_bytes text.new ≡ string_bytes text.old ++ blanks n) }
{
    for _k in 0..n {
        text.push_str(" ")?;
    }
    Ok(())
}

/// Writes a text at the left of so many places.
fn push_left(text: &mut String, places: usize, value: &str) -> Result<(), AllocError>
    ensures { IfOk result (λ _. string_bytes text.new ≡ string_bytes text.old ++ left_in places value.now) }
{
    text.push_str(value)?;
    push_blanks(text, places.saturating_sub(value.len()))
}

/// Writes a text at the right of so many places.
fn push_right(text: &mut String, places: usize, value: &str) -> Result<(), AllocError>
    ensures { IfOk result (λ _. string_bytes text.new ≡ string_bytes text.old ++ right_in places value.now) }
{
    push_blanks(text, places.saturating_sub(value.len()))?;
    text.push_str(value)
}

/// Writes a number at the right of so many places.
fn push_number(text: &mut String, places: usize, n: u64) -> Result<(), AllocError>
    ensures { IfOk result (λ _. string_bytes text.new ≡ string_bytes text.old ++ number_in places n) }
{
    let mut buffer = Buffer::new();
    push_right(text, places, buffer.format(n))
}

/// Writes a record's name and a site.
fn push_place(text: &mut String, name: &str, i: u16) -> Result<(), AllocError>
    ensures { IfOk result (λ _. string_bytes text.new ≡ string_bytes text.old ++ place_text name.now i) }
{
    push_left(text, 16, name)?;
    push_number(text, 5, u64::from(i))
}

/// Writes a line of the seat table.
pub fn push_seat_line(
    text: &mut String,
    name: &str,
    i: u16,
    counts: SeatCounts,
) -> Result<(), AllocError>
    ensures { IfOk result (λ _. string_bytes text.new ≡ string_bytes text.old ++ seat_line name.now i counts) }
{
    push_place(text, name, i)?;
    push_number(text, 8, counts.rights)?;
    push_number(text, 8, counts.inside)?;
    push_number(text, 12, counts.unfinished)?;
    text.push_str("\n")
}

/// The word for a phase.
fn word_of(phase: Phase) -> &'static str
    ensures { result.now ≡ phase_text phase }
{
    match phase {
        Phase::Reader => "reader",
        Phase::Waiting => "waiting",
        Phase::Writer => "writer",
    }
}

/// Writes a line of the session table.
pub fn push_session_line(
    text: &mut String,
    name: &str,
    i: u16,
    session: Session,
) -> Result<(), AllocError>
    ensures { IfOk result (λ _. string_bytes text.new ≡ string_bytes text.old ++ session_line name.now i session) }
{
    push_place(text, name, i)?;
    push_number(text, 15, session.h)?;
    text.push_str("  ")?;
    text.push_str(word_of(session.phase))?;
    text.push_str("\n")
}
