//! The values of cells by record and slot.
ghost use Rattle.std.specs.Prelude.{◌≡◌, ℕ, ◌+◌, ◌*◌, ◌^◌, ◌<◌, length, All, IfOk, None, unwrap_or, slice_index_or};
ghost use Rattle.admission_core.specs.Restored.{IsListed, TellsCells, value_in};

use admission_model::DurableCell;
use merge_core::Layout;
use std::alloc::{AllocError, Global};

/// The slots of a record: with 16 sites the last one is 415.
const SLOTS: usize = 416;

/// The values of cells by record and slot. Linear in the layout's slots and the cells.
pub fn table_of(
    alloc: Global,
    layout: &Layout,
    site: u16,
    cells: &[DurableCell],
) -> Result<Vec<Option<u64>>, AllocError>
    requires { All (IsListed layout.now site) cells.now }
    ensures size { IfOk result (λ t. length t.items ≡ length layout.now.records * 416) }
    ensures cells { IfOk result (λ t. TellsCells cells.now t.items) }
    ensures fits { IfOk result (λ t. (k : ℕ) → unwrap_or (slice_index_or t.items k None) 0 < 2 ^ 64) }
{
    let mut table = vec![in alloc; None; layout.records().len() * SLOTS]?;
    for k in 0..cells.len() {
        let cell = &cells[cells.len() - 1 - k];
        let value = value_of(cell);
        table[usize::from(cell.r) * SLOTS + usize::from(cell.slot)] = Some(value);
    }
    Ok(table)
}

// The value of a cell.
fn value_of(cell: &DurableCell) -> u64
    ensures { result ≡ cell.now.value }
{
    cell.value
}

/// The value at a slot, if there is one.
pub fn value_at(table: &[Option<u64>], r: u16, slot: u16) -> Option<u64>
    requires { r * 416 + slot < length table.now }
    ensures { result ≡ value_in table.now r slot }
{
    table[usize::from(r) * SLOTS + usize::from(slot)]
}
