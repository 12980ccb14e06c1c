//! What is settled between lost sites, as a book tells it. The sums are of 128 bits, so that no counter is too great.
ghost use Rattle.std.specs.Prelude.{◌≡◌, ◌<◌, ◌≤◌, ◌*◌, ◌+◌, ◌^◌, length, if◌then◌else◌};
ghost use Rattle.merge_core.specs.Book.{counter_of, book_shape};
ghost use Rattle.merge_core.specs.Layout.{shape_of};
ghost use Rattle.rebuild_laws.specs.Settling.{total_lost, given_left, had_left, lacking, sparing, shared, settlement};
ghost use Rattle.site_rebuild.specs.Rebuilt.{gone_of, IsWithin};

use crate::cells::grant;
use merge_core::{Book, Cell, Layout};

/// Whether a site is among the lost ones. Linear in their number.
pub fn is_lost(lost: &[u16], i: u16) -> bool
    ensures { result ≡ gone_of lost.now i }
{
    lost.iter().any(|s| *s == i)
}

/// The seats of a record that lost site `d` gives to lost site `j`. Cubic in the number of sites.
pub fn settled(layout: &Layout, book: &Book, lost: &[u16], r: u16, d: u16, j: u16) -> u64
    requires shape { book_shape book.now ≡ shape_of layout.now }
    requires within { IsWithin layout.now (gone_of lost.now) (counter_of book.now) }
    requires record { r < length layout.now.records }
    requires giver { d < layout.now.sites }
    requires getter { j < layout.now.sites }
    ensures { result ≡ settlement (shape_of layout.now) (gone_of lost.now) layout.now.sites (counter_of book.now) r d j }
{
    if !is_lost(lost, d) || !is_lost(lost, j) {
        return 0;
    }
    let spared = total_sparing(layout, book, lost, r, d);
    let lacked = total_lacking(layout, book, lost, r, j);
    shared_numbers(
        spared,
        site_sparing(layout, book, lost, r, d),
        lacked,
        site_lacking(layout, book, lost, r, j),
    ) as u64
}

/// The seats that a lost site gave too many. Quadratic in the number of sites.
pub fn site_lacking(layout: &Layout, book: &Book, lost: &[u16], r: u16, d: u16) -> u128
    requires shape { book_shape book.now ≡ shape_of layout.now }
    requires record { r < length layout.now.records }
    requires site { d < layout.now.sites }
    ensures value { result ≡ lacking (shape_of layout.now) (gone_of lost.now) layout.now.sites (counter_of book.now) r d }
    ensures few { result ≤ 17 * 2 ^ 64 }
{
    seats_given(layout, book, lost, r, d).saturating_sub(seats_had(layout, book, lost, r, d))
}

// The seats that it has over.
fn site_sparing(layout: &Layout, book: &Book, lost: &[u16], r: u16, d: u16) -> u128
    requires shape { book_shape book.now ≡ shape_of layout.now }
    requires record { r < length layout.now.records }
    requires site { d < layout.now.sites }
    ensures value { result ≡ sparing (shape_of layout.now) (gone_of lost.now) layout.now.sites (counter_of book.now) r d }
    ensures few { result ≤ 17 * 2 ^ 64 }
{
    seats_had(layout, book, lost, r, d).saturating_sub(seats_given(layout, book, lost, r, d))
}

// The seats that it gave to the sites that are left.
fn seats_given(layout: &Layout, book: &Book, lost: &[u16], r: u16, d: u16) -> u128
    requires shape { book_shape book.now ≡ shape_of layout.now }
    requires record { r < length layout.now.records }
    requires site { d < layout.now.sites }
    ensures value { result ≡ given_left (gone_of lost.now) layout.now.sites (counter_of book.now) r d }
    ensures few { result ≤ 16 * 2 ^ 64 }
{
    let mut sum = 0;
    for j in 0..layout.sites() {
        sum += unless_lost(lost, j, book.counter(r, d, Cell::Out(j)));
    }
    sum
}

// The seats that it was granted, and those that the sites that are left gave to it.
fn seats_had(layout: &Layout, book: &Book, lost: &[u16], r: u16, d: u16) -> u128
    requires shape { book_shape book.now ≡ shape_of layout.now }
    requires record { r < length layout.now.records }
    requires site { d < layout.now.sites }
    ensures value { result ≡ had_left (shape_of layout.now) (gone_of lost.now) layout.now.sites (counter_of book.now) r d }
    ensures few { result ≤ 17 * 2 ^ 64 }
{
    let mut sum = 0;
    for j in 0..layout.sites() {
        sum += unless_lost(lost, j, book.counter(r, j, Cell::Out(d)));
    }
    u128::from(grant(layout, r, d)) + sum
}

// The seats that the lost sites below `n` have over.
fn total_sparing(layout: &Layout, book: &Book, lost: &[u16], r: u16, n: u16) -> u128
    requires shape { book_shape book.now ≡ shape_of layout.now }
    requires record { r < length layout.now.records }
    requires sites { n ≤ layout.now.sites }
    ensures value { result ≡ total_lost (gone_of lost.now) n (sparing (shape_of layout.now) (gone_of lost.now) layout.now.sites (counter_of book.now) r) }
    ensures few { result ≤ 2 ^ 85 }
{
    let mut sum = 0;
    for e in 0..n {
        sum += if_lost(lost, e, site_sparing(layout, book, lost, r, e));
    }
    sum
}

// The seats that they gave too many.
fn total_lacking(layout: &Layout, book: &Book, lost: &[u16], r: u16, n: u16) -> u128
    requires shape { book_shape book.now ≡ shape_of layout.now }
    requires record { r < length layout.now.records }
    requires sites { n ≤ layout.now.sites }
    ensures value { result ≡ total_lost (gone_of lost.now) n (lacking (shape_of layout.now) (gone_of lost.now) layout.now.sites (counter_of book.now) r) }
    ensures few { result ≤ 2 ^ 85 }
{
    let mut sum = 0;
    for e in 0..n {
        sum += if_lost(lost, e, site_lacking(layout, book, lost, r, e));
    }
    sum
}

// A site's number, or 0 where it is lost.
fn unless_lost(lost: &[u16], i: u16, value: u64) -> u128
    ensures value { result ≡ (if gone_of lost.now i then 0 else value) }
    ensures few { result ≤ 2 ^ 64 }
{
    if is_lost(lost, i) {
        return 0;
    }
    u128::from(value)
}

// A site's number, or 0 where it is left.
fn if_lost(lost: &[u16], i: u16, value: u128) -> u128
    ensures value { result ≡ (if gone_of lost.now i then value else 0) }
    ensures few { result ≤ value }
{
    if is_lost(lost, i) {
        return value;
    }
    0
}

// How many numbers are both among the `m` from `a` on, and among the `k` from `b` on.
fn shared_numbers(a: u128, m: u128, b: u128, k: u128) -> u128
    requires first { a + m ≤ 2 ^ 100 }
    requires second { b + k ≤ 2 ^ 100 }
    ensures { result ≡ shared a m b k }
{
    (a + m).min(b + k).saturating_sub(a.max(b))
}
