//! The sessions that a store kept, and whether they agree with a book.
ghost use Rattle.std.specs.Prelude.{◌≡◌, ℕ, ◌+◌, ◌^◌, ◌≤◌, ◌<◌, ◌↔◌, List, length, slice_index, All, IsTrue, IfOk};
ghost use Rattle.merge_core.specs.declared.cell.Cell.TheVariants.{Out, Taken, Ann, Fin};
ghost use Rattle.merge_core.specs.Layout.{shape_of};
ghost use Rattle.merge_core.specs.Rows.{grant};
ghost use Rattle.merge_core.specs.Book.{book_shape, counter_of};
ghost use Rattle.session_list.specs.declared.session.Session.{Session};
ghost use Rattle.admission_model.specs.Account.{seats_in, session_total, weight, writers};
ghost use Rattle.admission_core.specs.Restored.{AddsUp, IsSession, IsHeldOf};

use super::RestoreError;
use crate::starts::grant;
use admission_model::{HOLDER_LIMIT, Phase, Session};
use merge_core::{Book, Cell, Layout};
use session_list::Sessions;
use std::alloc::{AllocError, Global};

/// The sessions of a list, in its order, if they agree with the book. Linear in the records and the sessions.
pub fn restored_sessions(
    alloc: Global,
    layout: &Layout,
    site: u16,
    book: &Book,
    sessions: &[Session],
) -> Result<Sessions, RestoreError>
    requires site { site < layout.now.sites }
    requires shape { book_shape book.now ≡ shape_of layout.now }
    ensures { IsHeldOf layout.now site (counter_of book.now) sessions.now result }
{
    if !are_sessions(layout, sessions) {
        return Err(RestoreError::WrongSessions);
    }
    let Some(held) = Sessions::from_list(alloc, sessions)? else {
        return Err(RestoreError::WrongSessions);
    };
    let inside = seats_inside(alloc, layout, sessions)?;
    let unfinished = open_writers(alloc, layout, sessions)?;
    if !all_add_up(layout, site, book, inside.as_slice(), unfinished.as_slice()) {
        return Err(RestoreError::WrongSessions);
    }
    Ok(held)
}

// Whether each session is of a record and a holder that can be.
fn are_sessions(layout: &Layout, sessions: &[Session]) -> bool
    ensures { IsTrue result ↔ All (IsSession layout.now) sessions.now }
{
    sessions.iter().all(|session| is_session(layout, *session))
}

// Whether a session is of a record and a holder that can be.
fn is_session(layout: &Layout, session: Session) -> bool
    ensures { IsTrue result ↔ IsSession layout.now session }
{
    usize::from(session.r) < layout.records().len() && session.h <= HOLDER_LIMIT
}

// The seats that the sessions of each record take. Linear in the records and the sessions.
fn seats_inside(
    alloc: Global,
    layout: &Layout,
    sessions: &[Session],
) -> Result<Vec<u128>, AllocError>
    requires { All (IsSession layout.now) sessions.now }
    ensures size { IfOk result (λ sums. length sums.items ≡ length layout.now.records) }
    ensures few { IfOk result (λ sums. (r : ℕ) → slice_index sums.items r < 2 ^ 100) }
    ensures sums { IfOk result (λ sums. (r : ℕ) → r < length layout.now.records → slice_index sums.items r ≡ session_total (weight (seats_in layout.now r)) r sessions.now) }
{
    let mut sums: Vec<u128> = vec![in alloc; 0; layout.records().len()]?;
    for session in sessions {
        let r = usize::from(session.r);
        sums[r] += weight_of(layout, session.r, session.phase);
    }
    Ok(sums)
}

// The seats that a phase takes at a record.
fn weight_of(layout: &Layout, r: u16, phase: Phase) -> u128
    requires { r < length layout.now.records }
    ensures weighs { result ≡ weight (seats_in layout.now r) phase }
    ensures few { result ≤ 65535 }
{
    match phase {
        Phase::Reader => 1,
        Phase::Waiting => 0,
        Phase::Writer => u128::from(layout.records()[usize::from(r)].seats),
    }
}

// The writers among the sessions of each record. Linear in the records and the sessions.
fn open_writers(
    alloc: Global,
    layout: &Layout,
    sessions: &[Session],
) -> Result<Vec<u128>, AllocError>
    requires { All (IsSession layout.now) sessions.now }
    ensures size { IfOk result (λ sums. length sums.items ≡ length layout.now.records) }
    ensures few { IfOk result (λ sums. (r : ℕ) → slice_index sums.items r < 2 ^ 100) }
    ensures sums { IfOk result (λ sums. (r : ℕ) → r < length layout.now.records → slice_index sums.items r ≡ session_total writers r sessions.now) }
{
    let mut sums: Vec<u128> = vec![in alloc; 0; layout.records().len()]?;
    for session in sessions {
        let r = usize::from(session.r);
        sums[r] += writers_of(session.phase);
    }
    Ok(sums)
}

// The unfinished writers that a phase counts for.
fn writers_of(phase: Phase) -> u128
    ensures counts { result ≡ writers phase }
    ensures few { result ≤ 1 }
{
    match phase {
        Phase::Reader => 0,
        Phase::Waiting | Phase::Writer => 1,
    }
}

// Whether the sums of each record are what the book shows. Linear in the records.
fn all_add_up(layout: &Layout, site: u16, book: &Book, inside: &[u128], unfinished: &[u128]) -> bool
    requires site { site < layout.now.sites }
    requires shape { book_shape book.now ≡ shape_of layout.now }
    requires inside { length inside.now ≡ length layout.now.records }
    requires unfinished { length unfinished.now ≡ length layout.now.records }
    requires few_inside { (r : ℕ) → slice_index inside.now r < 2 ^ 100 }
    requires few_unfinished { (r : ℕ) → slice_index unfinished.now r < 2 ^ 100 }
    ensures { (sessions : List Session)
        → ((r : ℕ) → r < length layout.now.records → slice_index inside.now r ≡ session_total (weight (seats_in layout.now r)) r sessions)
        → ((r : ℕ) → r < length layout.now.records → slice_index unfinished.now r ≡ session_total writers r sessions)
        → (IsTrue result ↔ ((r : ℕ) → r < length layout.now.records → AddsUp layout.now site (counter_of book.now) sessions r)) }
{
    let few = layout.records().len() as u16;
    for r in 0..few {
        if !adds_up(
            layout,
            site,
            book,
            r,
            inside[usize::from(r)],
            unfinished[usize::from(r)],
        ) {
            return false;
        }
    }
    true
}

// Whether so many seats inside and unfinished writers are what the book shows of a record.
fn adds_up(layout: &Layout, site: u16, book: &Book, r: u16, inside: u128, unfinished: u128) -> bool
    requires site { site < layout.now.sites }
    requires record { r < length layout.now.records }
    requires shape { book_shape book.now ≡ shape_of layout.now }
    requires few_inside { inside < 2 ^ 100 }
    requires few_unfinished { unfinished < 2 ^ 100 }
    ensures { let counter = counter_of book.now r site in IsTrue result
        ↔ ((counter Taken + grant (shape_of layout.now) r site ≡ counter (Out site) + inside) × (counter Ann ≡ counter Fin + unfinished)) }
{
    let taken = u128::from(book.counter(r, site, Cell::Taken));
    let made = u128::from(book.counter(r, site, Cell::Out(site)));
    let announced = u128::from(book.counter(r, site, Cell::Ann));
    let finished = u128::from(book.counter(r, site, Cell::Fin));
    let granted = u128::from(grant(layout, r, site));
    taken + granted == made + inside && announced == finished + unfinished
}
