//! Which record of a layout is at fault.
ghost use Rattle.std.specs.Prelude.{◌≡◌};
ghost use Rattle.layout_file.specs.Places.{NamesRecord, has_fault};

use merge_core::{LayoutError, MOST_SEATS, RecordSpec, is_named, is_record_name};

/// The place of the first record that has the fault, counted from 1; none where it is the fault of no single record. Linear
/// in the records, but for `SameName`, which compares each pair of names.
pub(crate) fn faulty_record(error: LayoutError, sites: u16, records: &[RecordSpec]) -> Option<usize>
    ensures { NamesRecord error sites records.now result }
{
    for i in 0..records.len() {
        if has_fault(error, sites, &records[..i], &records[i]) {
            return Some(i + 1);
        }
    }
    None
}

// Whether a record behind earlier ones has the fault.
fn has_fault(error: LayoutError, sites: u16, earlier: &[RecordSpec], spec: &RecordSpec) -> bool
    ensures { result ≡ has_fault error sites earlier.now spec.now }
{
    match error {
        LayoutError::BadName => !is_record_name(spec.name.as_str().as_bytes()),
        LayoutError::SameName => is_named(spec.name.as_str(), earlier),
        LayoutError::BadSeats => !(1 <= spec.seats && spec.seats <= MOST_SEATS),
        LayoutError::BadHome => !(spec.home < sites),
        LayoutError::BadProblem => !(spec.problem == 1 || spec.problem == 2),
        LayoutError::TooFewSites
        | LayoutError::TooManySites
        | LayoutError::NoRecords
        | LayoutError::TooManyRecords => false,
    }
}
