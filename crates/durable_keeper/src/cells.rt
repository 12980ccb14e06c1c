//! Counters in their order, and some put among others.
ghost use Rattle.std.specs.Prelude.{◌≡◌, ◌+◌, ◌<◌, ◌≤◌, length, vec_len, vec_capacity, IfOk, MatchOption};
ghost use Rattle.admission_core.specs.Durable.{AreRising, is_same_place, put_cell, put_cells};
ghost use Rattle.durable_keeper.specs.Placing.{IsPlaceOf};

use admission_core::DurableCell;
use std::alloc::{AllocError, Global};

/// Counters that rise by record and slot, put at their places among others that rise; of two at one place the one that is put
/// stays. Linear.
pub fn put_cells(
    alloc: Global,
    put: &[DurableCell],
    kept: &[DurableCell],
) -> Result<Vec<DurableCell>, AllocError>
    ensures { AreRising put.now → AreRising kept.now → IfOk result (λ all. all.items ≡ put_cells put.now kept.now) }
{
    let mut all = Vec::new(alloc);
    let mut i = 0;
    let mut j = 0;
    'cells: while i < put.len() && j < kept.len() {
        let first = put[i];
        let other = kept[j];
        if other.is_before(first) {
            all.push(other)?;
            j += 1;
        } else if first.is_before(other) {
            all.push(first)?;
            i += 1;
        } else {
            all.push(first)?;
            i += 1;
            j += 1;
        }
    }
    all.extend_from_slice(&put[i..])?;
    all.extend_from_slice(&kept[j..])?;
    Ok(all)
}

// So many counters at most are put one by one, since each may move all that stand behind its place.
const FEW: usize = 4;

// Whether two cells are at one record's slot.
fn is_same_place(c: DurableCell, d: DurableCell) -> bool
    ensures { result ≡ is_same_place c d }
{
    c.r == d.r && c.slot == d.slot
}

// How many of the cells, which rise, stand before this one. By bisection.
fn count_before(kept: &[DurableCell], cell: DurableCell) -> usize
    requires { AreRising kept.now }
    ensures { IsPlaceOf cell kept.now result }
{
    let mut low = 0;
    let mut high = kept.len();
    'cells: while low < high {
        let middle = low + (high - low) / 2;
        if kept[middle].is_before(cell) {
            low = middle + 1;
        } else {
            high = middle;
        }
    }
    low
}

// Puts a counter at its place among others that rise, in room that is there. Linear in those behind a place that is new.
fn put_reserved(kept: &mut Vec<DurableCell>, cell: DurableCell)
    requires rising { AreRising kept.old.items }
    requires room { vec_len kept.old < vec_capacity kept.old }
    ensures cells { kept.new.items ≡ put_cell cell kept.old.items }
    ensures more { vec_len kept.new ≤ vec_len kept.old + 1 }
    ensures capacity { vec_capacity kept.old ≤ vec_capacity kept.new }
{
    let at = count_before(kept.as_slice(), cell);
    if at < kept.len() && is_same_place(cell, kept[at]) {
        kept[at] = cell;
        return;
    }
    let _ = kept.insert(at, cell);
}

// Puts counters at their places among others that rise, in room that is there for all: one search for each, and one move of
// those behind it where its place is new.
fn put_all_reserved(kept: &mut Vec<DurableCell>, put: &[DurableCell])
    requires rising { AreRising kept.old.items }
    requires room { vec_len kept.old + length put.now ≤ vec_capacity kept.old }
    ensures { kept.new.items ≡ put_cells put.now kept.old.items }
{
    let mut left = put.len();
    'cells: while left > 0 {
        left -= 1;
        put_reserved(kept, put[left]);
    }
}

// A new list of counters that rise, with a few more put at their places, and with room for about as many more. Linear.
fn put_in_more_room(
    alloc: Global,
    put: &[DurableCell],
    kept: &[DurableCell],
) -> Result<Vec<DurableCell>, AllocError>
    requires few { length put.now ≤ 4 }
    requires kept { AreRising kept.now }
    ensures { IfOk result (λ all. all.items ≡ put_cells put.now kept.now) }
{
    let mut all = Vec::with_capacity(alloc, 2 * kept.len() + FEW)?;
    all.extend_from_slice(kept)?;
    put_all_reserved(&mut all, put);
    Ok(all)
}

/// The list that takes the place of counters that rise, once others that rise are put among them, as [`put_cells`] makes it.
/// `None` where only a few are put and there is room for them: [`put_among`] puts these in place. Linear in both.
pub(crate) fn new_list(
    kept: &Vec<DurableCell>,
    put: &[DurableCell],
) -> Result<Option<Vec<DurableCell>>, AllocError>
    requires put { AreRising put.now }
    requires kept { AreRising kept.now.items }
    ensures { IfOk result (λ made. MatchOption made
        (vec_len kept.now + length put.now ≤ vec_capacity kept.now)
        (λ all. all.items ≡ put_cells put.now kept.now.items)) }
{
    let alloc = *kept.allocator();
    if put.len() > FEW {
        return Ok(Some(put_cells(alloc, put, kept.as_slice())?));
    }
    if kept.len() + put.len() <= kept.capacity() {
        return Ok(None);
    }
    Ok(Some(put_in_more_room(alloc, put, kept.as_slice())?))
}

/// Puts counters among those that are kept. The list that [`new_list`] made takes the place of the old one. Where it made
/// none, the counters are put in the room that is there. Takes no memory.
pub(crate) fn put_among(
    kept: &mut Vec<DurableCell>,
    put: &[DurableCell],
    made: Option<Vec<DurableCell>>,
)
    requires kept { AreRising kept.old.items }
    requires made { MatchOption made
        (vec_len kept.old + length put.now ≤ vec_capacity kept.old)
        (λ all. all.items ≡ put_cells put.now kept.old.items) }
    ensures { kept.new.items ≡ put_cells put.now kept.old.items }
{
    match made {
        Some(all) => *kept = all,
        None => put_all_reserved(kept, put),
    }
}
