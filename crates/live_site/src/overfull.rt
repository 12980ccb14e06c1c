//! Deltas that give a site more rights than a record has seats.
ghost use Rattle.std.specs.Prelude.{◌≡◌, ◌<◌, ◌≤◌, min, length, IsTrue, None};
ghost use Rattle.merge_core.specs.Book.{book_shape};
ghost use Rattle.merge_core.specs.Tests.{is_placed};
ghost use Rattle.admission_model.specs.declared.ask.Call.TheVariants.{Merge};
ghost use Rattle.admission_model.specs.Account.{seats_in};
ghost use Rattle.admission_model.specs.Serving.{reason};
ghost use Rattle.admission_model.specs.View.{rights_of};
ghost use Rattle.admission_core.specs.Core.{IsCore, core_view};
ghost use Rattle.live_site.specs.Overfull.{first_overfull, lacking, overfull_in};
ghost use Rattle.live_site.specs.Walk.{given_with, rise};
ghost use Rattle.merge_core.specs.declared.cell.Cell.TheVariants.{Out};
ghost use Rattle.merge_core.specs.Rows.{counter_in, counters_of};

use admission_core::{Call, SiteCore};
use merge_core::{Cell, Delta, Row};

/// The least record to which a call that nothing else refuses would give the site more rights than the record has
/// seats: only a delta can. Linear in it.
pub(crate) fn overfull_in(core: &SiteCore, call: &Call) -> Option<u16>
    requires core { IsCore core.now }
    requires free { reason (core_view core.now) call.now ≡ None }
    ensures { result ≡ overfull_in (core_view core.now) call.now }
{
    match call {
        Call::Merge(delta) => first_overfull(core, delta),
        Call::Ask(_) => None,
        Call::Snapshot => None,
    }
}

// The same of a delta. Rows rise, so the first record that is found is the least.
fn first_overfull(core: &SiteCore, delta: &Delta) -> Option<u16>
    requires core { IsCore core.now }
    requires free { reason (core_view core.now) (Merge delta.now) ≡ None }
    ensures { result ≡ first_overfull (core_view core.now) delta.now.rows }
{
    let mut r = 0;
    let mut given = 0;
    for row in delta.rows() {
        given = given_with(core, r, given, row);
        r = row.r;
        if given > lacking(core, r) {
            return Some(r);
        }
    }
    None
}

// What a row gives to its record, with what rows before it gave to record r; at most the greatest number.
fn given_with(core: &SiteCore, r: u16, given: u64, row: &Row) -> u64
    requires core { IsCore core.now }
    requires placed { IsTrue (is_placed (book_shape core.now.book) row.now) }
    ensures { result ≡ min (given_with (core_view core.now) r given row.now) 18446744073709551615 }
{
    let more = rise(core, row);
    if row.r == r {
        return given.saturating_add(more);
    }
    more
}

// How many rights a row gives to the site.
fn rise(core: &SiteCore, row: &Row) -> u64
    requires core { IsCore core.now }
    requires placed { IsTrue (is_placed (book_shape core.now.book) row.now) }
    ensures { result ≡ rise (core_view core.now) row.now }
{
    let i = core.site();
    moved_to(row, i).saturating_sub(core.book().counter(row.r, row.s, Cell::Out(i)))
}

// How many rights a row shows as moved to site i.
fn moved_to(row: &Row, i: u16) -> u64
    ensures { result ≡ counter_in (counters_of row.now) (Out i) }
{
    row.out.as_slice().get(usize::from(i)).copied().unwrap_or(0)
}

// How many rights to all seats of a record the site lacks.
fn lacking(core: &SiteCore, r: u16) -> u64
    requires core { IsCore core.now }
    requires record { r < length core.now.layout.records }
    ensures value { result ≡ lacking (core_view core.now) r }
    ensures few { result ≤ 4294967295 }
{
    seats(core, r).saturating_sub(rights(core, r))
}

// How many seats a record has.
fn seats(core: &SiteCore, r: u16) -> u64
    requires { r < length core.now.layout.records }
    ensures value { result ≡ seats_in core.now.layout r }
    ensures few { result ≤ 4294967295 }
{
    u64::from(core.layout().records()[usize::from(r)].seats)
}

// How many seats of a record the site may still take or give away.
fn rights(core: &SiteCore, r: u16) -> u64
    requires core { IsCore core.now }
    requires record { r < length core.now.layout.records }
    ensures { result ≡ rights_of (core_view core.now) r }
{
    core.book().rights(r, core.site())
}
