//! What the errors of counters, rights, seats, notices and books say.
use grow_counters::CounterError;
use merge_core::{CheckError, DeltaError, LayoutError};
use rights_matrix::TransferError;
use seat_rows::SeatError;
use std::alloc::Global;
use std::fmt::Display;
use writer_notices::NoticeError;

// Whether a value is printed so.
fn says(alloc: Global, value: &impl Display, text: &str) -> bool {
    match format!(in alloc; "{value}") {
        Ok(printed) => printed.as_str() == text,
        Err(_) => false,
    }
}

// An error of one of the crates.
enum Fault {
    Counter(CounterError),
    Transfer(TransferError),
    Seat(SeatError),
    Notice(NoticeError),
    Layout(LayoutError),
    Delta(DeltaError),
    Check(CheckError),
}

const TEXTS: [(Fault, &str); 12] = [
    (
        Fault::Counter(CounterError::CounterFull),
        "the counter would pass its limit",
    ),
    (
        Fault::Transfer(TransferError::ToSelf),
        "a site cannot transfer rights to itself",
    ),
    (
        Fault::Transfer(TransferError::ZeroSeats),
        "a transfer of no rights",
    ),
    (
        Fault::Transfer(TransferError::CounterFull),
        "the counter of these transfers would pass its limit",
    ),
    (
        Fault::Transfer(TransferError::TooFewRights { rights: 7 }),
        "only 7 rights are left at this site",
    ),
    (
        Fault::Seat(SeatError::CounterFull),
        "the counter of taken seats would pass its limit",
    ),
    (
        Fault::Seat(SeatError::NoSeat { rights: 7 }),
        "only 7 seats are free to this site",
    ),
    (
        Fault::Notice(NoticeError::CounterFull),
        "the counter would pass its limit",
    ),
    (
        Fault::Notice(NoticeError::TooManyWriters),
        "the site has too many unfinished writers",
    ),
    (
        Fault::Layout(LayoutError::BadSeats),
        "a record has 1 to 65535 seats",
    ),
    (Fault::Delta(DeltaError::BadDelta), "the rows are no delta"),
    (
        Fault::Check(CheckError::OtherLayout { row: 7 }),
        "row 7 is of another layout",
    ),
];

fn fault_says(alloc: Global, fault: &Fault, text: &str) -> bool {
    match fault {
        Fault::Counter(error) => says(alloc, error, text),
        Fault::Transfer(error) => says(alloc, error, text),
        Fault::Seat(error) => says(alloc, error, text),
        Fault::Notice(error) => says(alloc, error, text),
        Fault::Layout(error) => says(alloc, error, text),
        Fault::Delta(error) => says(alloc, error, text),
        Fault::Check(error) => says(alloc, error, text),
    }
}

// The first of these errors that says something else.
fn first_wrong(alloc: Global, texts: &[(Fault, &str)]) -> Option<usize> {
    for (k, (fault, text)) in texts.iter().enumerate() {
        if !fault_says(alloc, fault, *text) {
            return Some(k);
        }
    }
    None
}

#[test]
fn errors_say_what_is_wrong(rt: HostRuntime) {
    assert_eq!(rt; first_wrong(rt.alloc(), &TEXTS), None);
}
