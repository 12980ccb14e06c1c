//! Whether two values are equal, of those that derive no comparison.
ghost use Rattle.std.specs.Prelude.{◌≡◌, ◌↔◌, IsTrue};

use admission_core::{Call, Durable, DurableCell, Reply, Session};
use merge_core::{Delta, Layout, RecordSpec, Row};

/// Whether two calls are equal. Linear in the deltas.
pub fn same_call(a: &Call, b: &Call) -> bool
    ensures { IsTrue result ↔ (a.now ≡ b.now) }
{
    match (a, b) {
        (Call::Ask(x), Call::Ask(y)) => *x == *y,
        (Call::Merge(x), Call::Merge(y)) => same_delta(x, y),
        (Call::Snapshot, Call::Snapshot) => true,
        _ => false,
    }
}

/// Whether two replies are equal. Linear in the deltas.
pub fn same_reply(a: &Reply, b: &Reply) -> bool
    ensures { IsTrue result ↔ (a.now ≡ b.now) }
{
    match (a, b) {
        (Reply::Admitted, Reply::Admitted) => true,
        (Reply::Announced(x), Reply::Announced(y)) => *x == *y,
        (Reply::Left(x), Reply::Left(y)) => *x == *y,
        (Reply::Given, Reply::Given) => true,
        (Reply::Gave { to, seats }, Reply::Gave { to: at, seats: n }) => *to == *at && *seats == *n,
        (Reply::Merged(x), Reply::Merged(y)) => *x == *y,
        (Reply::Snapshot(x), Reply::Snapshot(y)) => same_delta(x, y),
        (Reply::Refused(x), Reply::Refused(y)) => *x == *y,
        _ => false,
    }
}

// Whether two deltas are equal.
fn same_delta(a: &Delta, b: &Delta) -> bool
    ensures { IsTrue result ↔ (a.now ≡ b.now) }
{
    a.from_site() == b.from_site() && same_rows(a.rows(), b.rows())
}

// Whether two lists of rows are equal.
fn same_rows(a: &[Row], b: &[Row]) -> bool
    ensures { IsTrue result ↔ (a.now ≡ b.now) }
{
    if a.len() != b.len() {
        return false;
    }
    'rows: for i in 0..a.len() {
        if !same_row(&a[i], &b[i]) {
            return false;
        }
    }
    true
}

// Whether two rows are equal.
fn same_row(a: &Row, b: &Row) -> bool
    ensures { IsTrue result ↔ (a.now ≡ b.now) }
{
    a.r == b.r
        && a.s == b.s
        && a.out.as_slice() == b.out.as_slice()
        && a.taken == b.taken
        && a.ann == b.ann
        && a.fin == b.fin
}

/// Whether two durable parts are equal. Linear.
pub fn same_durable(a: &Durable, b: &Durable) -> bool
    ensures { IsTrue result ↔ (a.now ≡ b.now) }
{
    same_cells(a.cells(), b.cells()) && same_sessions(a.sessions(), b.sessions())
}

// Whether two lists of counters are equal.
fn same_cells(a: &[DurableCell], b: &[DurableCell]) -> bool
    ensures { IsTrue result ↔ (a.now ≡ b.now) }
{
    if a.len() != b.len() {
        return false;
    }
    'cells: for i in 0..a.len() {
        if a[i] != b[i] {
            return false;
        }
    }
    true
}

// Whether two lists of sessions are equal.
fn same_sessions(a: &[Session], b: &[Session]) -> bool
    ensures { IsTrue result ↔ (a.now ≡ b.now) }
{
    if a.len() != b.len() {
        return false;
    }
    'sessions: for i in 0..a.len() {
        if a[i] != b[i] {
            return false;
        }
    }
    true
}

/// Whether two layouts are equal. Linear.
pub fn same_layout(a: &Layout, b: &Layout) -> bool
    ensures { IsTrue result ↔ (a.now ≡ b.now) }
{
    a.sites() == b.sites() && same_records(a.records(), b.records())
}

// Whether two lists of records are equal.
fn same_records(a: &[RecordSpec], b: &[RecordSpec]) -> bool
    ensures { IsTrue result ↔ (a.now ≡ b.now) }
{
    if a.len() != b.len() {
        return false;
    }
    'records: for i in 0..a.len() {
        if !same_record(&a[i], &b[i]) {
            return false;
        }
    }
    true
}

// Whether two records are equal.
fn same_record(a: &RecordSpec, b: &RecordSpec) -> bool
    ensures { IsTrue result ↔ (a.now ≡ b.now) }
{
    a.name.as_str() == b.name.as_str()
        && a.seats == b.seats
        && a.home == b.home
        && a.problem == b.problem
}
