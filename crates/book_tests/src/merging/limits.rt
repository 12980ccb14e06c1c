//! Books and deltas with as many sites, records, seats and counts as there may be.
use super::books::merged;
use grow_counters::{COUNTER_LIMIT, Counts};
use merge_core::*;
use std::alloc::Global;

// The home of record `r`: one of the first 15 sites, so that a layout of 15 sites may grow to 16.
fn home(r: u16) -> u16 {
    r % 15
}

fn greatest_spec(alloc: Global, r: u16) -> Option<RecordSpec> {
    let text = format!(in alloc; "record-{r}").ok()?;
    Some(RecordSpec {
        name: RecordName::from_string(text),
        seats: 65_535,
        home: home(r),
        problem: 2,
    })
}

// The layout of 16 sites with as many records, each with as many seats, as there may be.
fn greatest_layout(alloc: Global) -> Option<Layout> {
    let mut records = Vec::new(alloc);
    for r in 0..256 {
        records.push(greatest_spec(alloc, r)?).ok()?;
    }
    Layout::new(16, records).ok()?.try_copy(alloc).ok()
}

// Counters of rights at their greatest, which on the diagonal is the limit above the grant.
fn greatest_rights(alloc: Global, sites: u16, r: u16, s: u16) -> Option<Vec<u64>> {
    let mut out = Vec::new(alloc);
    for j in 0..sites {
        let grant = if j == s && s == home(r) { 65_535 } else { 0 };
        out.push(COUNTER_LIMIT + grant).ok()?;
    }
    Some(out)
}

// The row of site `s` for record `r` with every counter at its greatest.
fn greatest_row(alloc: Global, sites: u16, r: u16, s: u16) -> Option<Row> {
    Some(Row {
        r,
        s,
        out: Counts::from_vec(greatest_rights(alloc, sites, r, s)?),
        taken: COUNTER_LIMIT,
        ann: COUNTER_LIMIT,
        fin: COUNTER_LIMIT,
    })
}

fn push_rows(alloc: Global, rows: &mut Vec<Row>, sites: u16, r: u16) -> Option<()> {
    for s in 0..sites {
        rows.push(greatest_row(alloc, sites, r, s)?).ok()?;
    }
    Some(())
}

// All rows of all records at so many sites.
fn greatest_rows(alloc: Global, sites: u16) -> Option<Vec<Row>> {
    let mut rows = Vec::new(alloc);
    for r in 0..256 {
        push_rows(alloc, &mut rows, sites, r)?;
    }
    Some(rows)
}

fn greatest_delta(alloc: Global, sites: u16) -> Option<Delta> {
    Delta::new(15, greatest_rows(alloc, sites)?)
        .ok()?
        .try_copy(alloc)
        .ok()
}

// The book of the greatest layout before any operation.
fn fresh_book(alloc: Global) -> Option<Book> {
    Book::genesis(alloc, &greatest_layout(alloc)?).ok()
}

// The book of the greatest layout that took the greatest delta of so many sites, and how many counters rose.
fn greatest_book(alloc: Global, sites: u16) -> Option<(Book, u64)> {
    let delta = greatest_delta(alloc, sites)?;
    let mut book = fresh_book(alloc)?;
    let risen = merged(&mut book, &delta).ok()?;
    Some((book, risen))
}

fn told(alloc: Global, book: &Book) -> Option<Delta> {
    if book.sites() == 0 {
        return None;
    }
    book.snapshot(alloc, 0).ok()
}

// How many rows a book tells, and how many of them a delta lacks.
fn tells(alloc: Global, book: &Book, delta: &Delta) -> Option<(usize, usize)> {
    let told = told(alloc, book)?;
    let thin = told.thin(alloc, delta).ok()?;
    Some((told.rows().len(), thin.rows().len()))
}

fn told_and_thin(alloc: Global) -> Option<(u64, (usize, usize))> {
    let delta = greatest_delta(alloc, 16)?;
    let (book, risen) = greatest_book(alloc, 16)?;
    Some((risen, tells(alloc, &book, &delta)?))
}

#[test]
fn the_greatest_delta_is_joined_and_told(rt: HostRuntime) {
    assert!(rt; told_and_thin(rt.alloc()) == Some((4_096 * 19, (4_096, 0))));
}

// Takes each delta of a list, if a book takes them all.
fn join_all(book: &mut Book, deltas: &[Delta]) -> Option<()> {
    if deltas.iter().any(|delta| book.check(delta).is_err()) {
        return None;
    }
    book.join_all(deltas);
    Some(())
}

// The greatest deltas of 15 sites and of 16.
fn both_deltas(alloc: Global) -> Option<Vec<Delta>> {
    let mut deltas = Vec::new(alloc);
    deltas.push(greatest_delta(alloc, 15)?).ok()?;
    deltas.push(greatest_delta(alloc, 16)?).ok()?;
    Some(deltas)
}

fn book_of_both(alloc: Global) -> Option<Book> {
    let deltas = both_deltas(alloc)?;
    let mut book = fresh_book(alloc)?;
    join_all(&mut book, deltas.as_slice())?;
    Some(book)
}

fn joined_in_a_list(alloc: Global) -> Option<(usize, usize)> {
    tells(alloc, &book_of_both(alloc)?, &greatest_delta(alloc, 16)?)
}

#[test]
fn the_greatest_deltas_are_joined_in_a_list(rt: HostRuntime) {
    assert!(rt; joined_in_a_list(rt.alloc()) == Some((4_096, 0)));
}

// Whether two books of one layout are the same before the second takes a delta, and then.
fn same_until_joined(alloc: Global) -> Option<(bool, bool)> {
    let layout = greatest_layout(alloc)?;
    let delta = greatest_delta(alloc, 16)?;
    let one = Book::genesis(alloc, &layout).ok()?;
    let mut other = Book::genesis(alloc, &layout).ok()?;
    let before = one.same(&other);
    if other.check(&delta).is_err() {
        return None;
    }
    other.join(&delta);
    Some((before, one.same(&other)))
}

#[test]
fn books_are_compared_whole(rt: HostRuntime) {
    assert!(rt; same_until_joined(rt.alloc()) == Some((true, false)));
}

// How many counters come back after a restart of the last site.
fn forgotten(alloc: Global) -> Option<u64> {
    let delta = greatest_delta(alloc, 16)?;
    let (mut book, _) = greatest_book(alloc, 16)?;
    if book.sites() < 16 {
        return None;
    }
    book.keep(15);
    merged(&mut book, &delta).ok()
}

// Of each record the 15 other rows lose 15 counters of rights and the taken one.
#[test]
fn the_greatest_book_restarts(rt: HostRuntime) {
    assert!(rt; forgotten(rt.alloc()) == Some(256 * 15 * 16));
}

// The book of 15 of the layout's 16 sites that took the delta, widened to them all.
fn grown(alloc: Global, layout: &Layout, delta: &Delta) -> Option<Book> {
    if layout.sites() != 16 {
        return None;
    }
    let earlier = layout.at_sites(alloc, 15).ok()??;
    let mut book = Book::genesis(alloc, &earlier).ok()?;
    if book.check(delta).is_err() {
        return None;
    }
    book.join(delta);
    book.widened(alloc, layout).ok()
}

// How many rows the widened book tells, and how many of them a fresh book of the wider layout lacks, which
// took the same delta.
fn grown_and_told(alloc: Global) -> Option<(usize, usize)> {
    let layout = greatest_layout(alloc)?;
    let wide = grown(alloc, &layout, &greatest_delta(alloc, 15)?)?;
    let (fresh, _) = greatest_book(alloc, 15)?;
    tells(alloc, &wide, &told(alloc, &fresh)?)
}

#[test]
fn the_greatest_book_grows(rt: HostRuntime) {
    assert!(rt; grown_and_told(rt.alloc()) == Some((256 * 15, 0)));
}
