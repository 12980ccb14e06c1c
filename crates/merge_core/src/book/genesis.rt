ghost use Rattle.std.specs.Prelude.{◌≡◌, ◌<◌, ◌≤◌, map, All, IfOk};
ghost use Rattle.merge_core.specs.Book.{IsRecord};
ghost use Rattle.merge_core.specs.Start.{start_record};

use crate::RecordSpec;
use crate::record::RecordState;
use seat_rows::SeatRow;
use std::alloc::{AllocError, Global};
use writer_notices::Notices;

/// The records before any operation.
pub fn genesis_records(
    alloc: Global,
    sites: u16,
    specs: &[RecordSpec],
) -> Result<Vec<RecordState>, AllocError>
    requires few { sites ≤ 16 }
    requires homes { All (λ spec. spec.home < sites) specs.now }
    ensures start { IfOk result (λ v. v.items ≡ map (start_record sites) specs.now) }
    ensures valid { IfOk result (λ v. All (IsRecord sites) v.items) }
{
    let mut records = Vec::with_capacity(alloc, specs.len())?;
    for spec in specs {
        records.push(genesis_record(alloc, sites, spec)?)?;
    }
    Ok(records)
}

// One record before any operation.
fn genesis_record(alloc: Global, sites: u16, spec: &RecordSpec) -> Result<RecordState, AllocError>
    requires few { sites ≤ 16 }
    requires home { spec.now.home < sites }
    ensures start { IfOk result (λ it. it ≡ start_record sites spec.now) }
    ensures valid { IfOk result (λ it. IsRecord sites it) }
{
    let seats = SeatRow::new(alloc, sites, spec.home, spec.seats)?;
    let notices = Notices::new(alloc, sites)?;
    Ok(RecordState { seats, notices })
}
