//! What an operation does to the book and the sessions. Nothing here takes memory.
ghost use Rattle.std.specs.Prelude.{◌≡◌, ◌<◌, Some};
ghost use Rattle.admission_core.specs.Prepared.{has_room};
ghost use Rattle.admission_model.specs.Order.{sessions_next};
ghost use Rattle.merge_core.specs.Book.{IsBook};
ghost use Rattle.admission_core.specs.Carrying.{IsAllowed, RaisesOwn};
ghost use Rattle.admission_model.specs.Account.{record_of};
ghost use Rattle.admission_model.specs.declared.operation.Operation.TheVariants.{EnteredRead, AnnouncedWriter, EnteredWrite, LeftRecord};

use admission_model::{Operation, Phase, Session};
use merge_core::Book;
use session_list::Sessions;

/// Carries an operation of `site` out at a record with so many seats, whose caller shows that nothing refuses
/// it and that there is room for a session that comes.
pub fn carry_out(
    book: &mut Book,
    sessions: &mut Sessions,
    site: u16,
    seats: u64,
    operation: Operation,
)
    requires allowed { IsAllowed book.old sessions.old.sessions site seats operation }
    requires place { has_room (Some operation) sessions.old.room }
    ensures book { IsBook book.new }
    ensures counters { RaisesOwn book.old book.new sessions.old.sessions site seats operation }
    ensures sessions { sessions.new.sessions ≡ sessions_next operation sessions.old.sessions }
{
    match operation {
        Operation::EnteredRead { r, h } => {
            enter_reader(book, sessions, site, r, h);
        }
        Operation::AnnouncedWriter { r, h } => {
            announce_writer(book, sessions, site, r, h);
        }
        Operation::EnteredWrite { r, h } => {
            enter_writer(book, sessions, site, seats, r, h);
        }
        Operation::LeftRecord { r, h } => {
            leave(book, sessions, site, seats, r, h);
        }
        Operation::GaveSeats { r, to, seats } => {
            let _ = book.transfer(r, site, to, seats);
        }
    }
}

/// The record of an operation.
pub fn record_of(operation: Operation) -> u16
    ensures { result ≡ record_of operation }
{
    match operation {
        Operation::EnteredRead { r, .. }
        | Operation::AnnouncedWriter { r, .. }
        | Operation::EnteredWrite { r, .. }
        | Operation::LeftRecord { r, .. }
        | Operation::GaveSeats { r, .. } => r,
    }
}

// A reader takes one seat.
fn enter_reader(book: &mut Book, sessions: &mut Sessions, site: u16, r: u16, h: u64)
    requires allowed { IsAllowed book.old sessions.old.sessions site 0 (EnteredRead r h) }
    requires place { 0 < sessions.old.room }
    ensures book { IsBook book.new }
    ensures counters { RaisesOwn book.old book.new sessions.old.sessions site 0 (EnteredRead r h) }
    ensures sessions { sessions.new.sessions ≡ sessions_next (EnteredRead r h) sessions.old.sessions }
{
    let _ = book.take(r, site, 1);
    sessions.push(Session {
        r,
        h,
        phase: Phase::Reader,
    });
}

// A writer is counted, and takes no seat yet.
fn announce_writer(book: &mut Book, sessions: &mut Sessions, site: u16, r: u16, h: u64)
    requires allowed { IsAllowed book.old sessions.old.sessions site 0 (AnnouncedWriter r h) }
    requires place { 0 < sessions.old.room }
    ensures book { IsBook book.new }
    ensures counters { RaisesOwn book.old book.new sessions.old.sessions site 0 (AnnouncedWriter r h) }
    ensures sessions { sessions.new.sessions ≡ sessions_next (AnnouncedWriter r h) sessions.old.sessions }
{
    let _ = book.announce(r, site);
    sessions.push(Session {
        r,
        h,
        phase: Phase::Waiting,
    });
}

// A writer takes all seats.
fn enter_writer(book: &mut Book, sessions: &mut Sessions, site: u16, seats: u64, r: u16, h: u64)
    requires { IsAllowed book.old sessions.old.sessions site seats (EnteredWrite r h) }
    ensures book { IsBook book.new }
    ensures counters { RaisesOwn book.old book.new sessions.old.sessions site seats (EnteredWrite r h) }
    ensures sessions { sessions.new.sessions ≡ sessions_next (EnteredWrite r h) sessions.old.sessions }
{
    let _ = book.take(r, site, seats);
    sessions.set_phase(r, h, Phase::Writer);
}

// A session gives back what it took, and a writer is finished.
fn leave(book: &mut Book, sessions: &mut Sessions, site: u16, seats: u64, r: u16, h: u64)
    requires { IsAllowed book.old sessions.old.sessions site seats (LeftRecord r h) }
    ensures book { IsBook book.new }
    ensures counters { RaisesOwn book.old book.new sessions.old.sessions site seats (LeftRecord r h) }
    ensures sessions { sessions.new.sessions ≡ sessions_next (LeftRecord r h) sessions.old.sessions }
{
    match sessions.remove(r, h) {
        Some(Phase::Reader) => book.give(r, site, 1),
        Some(Phase::Waiting) => book.finish(r, site),
        Some(Phase::Writer) => {
            book.give(r, site, seats);
            book.finish(r, site);
        }
        None => {}
    }
}
