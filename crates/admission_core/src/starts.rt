//! What the counters of a layout are before any operation.
ghost use Rattle.std.specs.Prelude.{◌≡◌, ◌<◌, length};
ghost use Rattle.merge_core.specs.Layout.{shape_of};
ghost use Rattle.merge_core.specs.Rows.{grant, start_counter};

use merge_core::{Cell, Layout};

/// The seats that a site is granted of a record.
pub fn grant(layout: &Layout, r: u16, s: u16) -> u64
    requires { r < length layout.now.records }
    ensures { result ≡ grant (shape_of layout.now) r s }
{
    let record = &layout.records()[usize::from(r)];
    if s == record.home {
        u64::from(record.seats)
    } else {
        0
    }
}

/// The start of a counter.
pub fn start_counter(layout: &Layout, r: u16, s: u16, cell: Cell) -> u64
    requires { r < length layout.now.records }
    ensures { result ≡ start_counter (shape_of layout.now) r s cell }
{
    match cell {
        Cell::Out(j) if j == s => grant(layout, r, s),
        _ => 0,
    }
}
