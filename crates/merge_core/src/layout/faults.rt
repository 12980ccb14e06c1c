ghost use Rattle.std.specs.Prelude.{◌≡◌};
ghost use Rattle.std.specs.List.{list_all};
ghost use Rattle.merge_core.specs.Layout.{is_name_byte, is_record_name, has_name, names_differ, has_good_name, has_good_seats, has_good_home, has_good_problem, layout_fault};

use super::{LayoutError, MOST_NAME_BYTES, MOST_RECORDS, MOST_SEATS, MOST_SITES, RecordSpec};

/// What is wrong with the sites and records, if anything: the first kind in the order of [`LayoutError`].
pub fn fault_of(sites: u16, records: &[RecordSpec]) -> Option<LayoutError>
    ensures { result ≡ layout_fault sites records.now }
{
    if sites == 0 {
        return Some(LayoutError::TooFewSites);
    }
    if sites > MOST_SITES {
        return Some(LayoutError::TooManySites);
    }
    if records.is_empty() {
        return Some(LayoutError::NoRecords);
    }
    if records.len() > MOST_RECORDS {
        return Some(LayoutError::TooManyRecords);
    }
    if !all_names_good(records) {
        return Some(LayoutError::BadName);
    }
    if !all_names_differ(records) {
        return Some(LayoutError::SameName);
    }
    if !all_seats_good(records) {
        return Some(LayoutError::BadSeats);
    }
    if !all_homes_good(sites, records) {
        return Some(LayoutError::BadHome);
    }
    if !all_problems_good(records) {
        return Some(LayoutError::BadProblem);
    }
    None
}

fn all_names_good(records: &[RecordSpec]) -> bool
    ensures { result ≡ list_all has_good_name records.now }
{
    records
        .iter()
        .all(|record| is_record_name(record.name.as_str().as_bytes()))
}

/// Whether bytes are a record's name: 1 to 16 letters from a to z, digits or `-`, the first a letter.
pub fn is_record_name(name: &[u8]) -> bool
    ensures { result ≡ is_record_name name.now }
{
    match name {
        [] => false,
        [first, rest @ ..] => first.is_ascii_lowercase()
            && rest.len() < MOST_NAME_BYTES
            && are_name_bytes(rest),
    }
}

/// Whether all bytes are such as names have behind their first letter.
pub fn are_name_bytes(bytes: &[u8]) -> bool
    ensures { result ≡ list_all is_name_byte bytes.now }
{
    bytes.iter().all(|b| (*b >= b'a' && *b <= b'z') || (*b >= b'0' && *b <= b'9') || *b == b'-')
}

fn all_names_differ(records: &[RecordSpec]) -> bool
    ensures { result ≡ names_differ records.now }
{
    for i in 0..records.len() {
        if is_named(records[i].name.as_str(), &records[i + 1..]) {
            return false;
        }
    }
    true
}

/// Whether one of these records has this name. Compares it with each.
pub fn is_named(name: &str, records: &[RecordSpec]) -> bool
    ensures { result ≡ has_name name.now records.now }
{
    records.iter().any(|record| record.name.as_str() == name)
}

fn all_seats_good(records: &[RecordSpec]) -> bool
    ensures { result ≡ list_all has_good_seats records.now }
{
    records
        .iter()
        .all(|record| 1 <= record.seats && record.seats <= MOST_SEATS)
}

/// Whether the home of every record is one of the sites.
pub fn all_homes_good(sites: u16, records: &[RecordSpec]) -> bool
    ensures { result ≡ list_all (has_good_home sites) records.now }
{
    records.iter().all(|record| record.home < sites)
}

fn all_problems_good(records: &[RecordSpec]) -> bool
    ensures { result ≡ list_all has_good_problem records.now }
{
    records
        .iter()
        .all(|record| record.problem == 1 || record.problem == 2)
}
