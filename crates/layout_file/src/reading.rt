ghost use Rattle.std.specs.Prelude.{◌≡◌, string_bytes, IfOk};
ghost use Rattle.toml.specs.Data.{get};
ghost use Rattle.toml.specs.View.{view, items_view};
ghost use Rattle.text_parts.specs.Readers.{Gives};
ghost use Rattle.layout_file.specs.LayoutFile.{IsRefused, ReadsLayout, ReadsLayoutFile, TellsLayout, key_count, number_in, number_at_key, short_at_key, text_at_key, record_in, records_in, records_of, records_at_key, parts_in, built_in_layout};

use crate::fault::LayoutFault;
use crate::places::faulty_record;
use crate::refusal::LayoutRefusal;
use merge_core::{Layout, LayoutError, RecordName, RecordSpec};
use std::alloc::{AllocError, Global};
use std::io::Read;
use text_input::{InputError, Source, read_up_to};
use text_parts::Unread;
use toml::Value;

/// The most bytes of a layout file.
pub const LAYOUT_LIMIT: u32 = 1_048_576;

/// Reads a layout file, and never more than one byte past the limit of its size.
pub fn read_layout_file<R: Read>(
    alloc: Global,
    source: &mut Source<R>,
) -> Result<Layout, LayoutRefusal>
    ensures { ReadsLayoutFile source.old source.new result }
{
    match read_up_to(alloc, source, LAYOUT_LIMIT) {
        Ok(bytes) => read_layout(alloc, bytes.as_slice()),
        Err(InputError::TooLong) => Err(LayoutRefusal::whole(LayoutFault::TooLong)),
        Err(InputError::Memory) => Err(LayoutRefusal::whole(LayoutFault::Memory)),
        Err(InputError::Io) => Err(LayoutRefusal::whole(LayoutFault::NotRead)),
    }
}

/// The layout that a file's bytes describe, or why they describe none, and which record is at fault.
pub fn read_layout(alloc: Global, bytes: &[u8]) -> Result<Layout, LayoutRefusal>
    ensures { ReadsLayout bytes.now result }
{
    let Ok(text) = std::str::from_utf8(bytes) else {
        return Err(LayoutRefusal::whole(LayoutFault::NotToml));
    };
    let table = match toml::table_from_str(alloc, text) {
        Ok(table) => table,
        Err(error) => {
            if error.is_memory() {
                return Err(LayoutRefusal::whole(LayoutFault::Memory));
            }
            return Err(LayoutRefusal::whole(LayoutFault::NotToml));
        }
    };
    layout_in(alloc, &Value::Table(table))
}

// The layout that a document describes.
fn layout_in(alloc: Global, value: &Value) -> Result<Layout, LayoutRefusal>
    ensures { TellsLayout (parts_in (view value.now)) result }
{
    let (sites, records) = match parts_in(alloc, value) {
        Ok(parts) => parts,
        Err(Unread::Memory) => return Err(LayoutRefusal::whole(LayoutFault::Memory)),
        Err(Unread::Refused) => return Err(LayoutRefusal::whole(LayoutFault::WrongKeys)),
    };
    match Layout::new(sites, records) {
        Ok(layout) => Ok(layout),
        Err(error) => Err(refusal_in(alloc, value, error)),
    }
}

// The refusal of a document's sites and records. They are read once more, to find the record at fault.
fn refusal_in(alloc: Global, value: &Value, error: LayoutError) -> LayoutRefusal
    requires { IsRefused (parts_in (view value.now)) error }
    ensures { TellsLayout (parts_in (view value.now)) (Err result) }
{
    match parts_in(alloc, value) {
        Ok((sites, records)) => LayoutRefusal {
            fault: LayoutFault::Refused(error),
            place: faulty_record(error, sites, records.as_slice()),
        },
        Err(Unread::Memory) => LayoutRefusal::whole(LayoutFault::Memory),
        Err(Unread::Refused) => LayoutRefusal::whole(LayoutFault::WrongKeys),
    }
}

/// The layout that the program takes without a file.
pub fn built_in(alloc: Global) -> Result<Layout, AllocError>
    ensures { IfOk result (λ layout. layout ≡ built_in_layout) }
{
    let name = String::from_str(alloc, "a")?;
    let mut records = Vec::new(alloc);
    records.push(RecordSpec {
        name: RecordName::from_string(name),
        seats: 2,
        home: 0,
        problem: 1,
    })?;
    match Layout::new(2, records) {
        Ok(layout) => Ok(layout),
        Err(_) => Err(AllocError),
    }
}

// The sites and the records.
#[tactic(auto, unfolding(crate::specs::LayoutFile::parts_in))]
fn parts_in(alloc: Global, value: &Value) -> Result<(u16, Vec<RecordSpec>), Unread>
    ensures { Gives (λ x. record { sites = x.0; records = x.1.items }) result (parts_in (view value.now)) }
{
    if key_count(value) != 2 {
        return Err(Unread::Refused);
    }
    let sites = short_at(value, "sites")?;
    let records = records_at(alloc, value, "record")?;
    Ok((sites, records))
}

// The records at a key.
#[tactic(auto, unfolding(crate::specs::LayoutFile::records_at_key))]
fn records_at(alloc: Global, value: &Value, key: &str) -> Result<Vec<RecordSpec>, Unread>
    ensures { Gives (λ x. x.items) result (records_at_key key.now (view value.now)) }
{
    records_of(alloc, member(value, key)?)
}

// The records of an array.
fn records_of(alloc: Global, value: &Value) -> Result<Vec<RecordSpec>, Unread>
    ensures { Gives (λ x. x.items) result (records_of (view value.now)) }
{
    match value.as_array() {
        Some(items) => records_in(alloc, items.as_slice()),
        None => Err(Unread::Refused),
    }
}

// Each item is a record.
fn records_in(alloc: Global, items: &[Value]) -> Result<Vec<RecordSpec>, Unread>
    ensures { Gives (λ x. x.items) result (records_in (items_view items.now)) }
{
    let mut records = Vec::new(alloc);
    for item in items {
        records.push(record_in(alloc, item)?)?;
    }
    Ok(records)
}

// One record.
#[tactic(auto, unfolding(crate::specs::LayoutFile::record_in))]
fn record_in(alloc: Global, value: &Value) -> Result<RecordSpec, Unread>
    ensures { Gives (λ x. x) result (record_in (view value.now)) }
{
    if key_count(value) != 4 {
        return Err(Unread::Refused);
    }
    let name = text_at(alloc, value, "name")?;
    let seats = number_at(value, "seats")?;
    let home = short_at(value, "home")?;
    let problem = short_at(value, "problem")?;
    Ok(RecordSpec {
        name: RecordName::from_string(name),
        seats,
        home,
        problem,
    })
}

// A copy of the text at a key.
#[tactic(auto, unfolding(crate::specs::LayoutFile::text_at_key))]
fn text_at(alloc: Global, value: &Value, key: &str) -> Result<String, Unread>
    ensures { Gives (λ x. string_bytes x) result (text_at_key key.now (view value.now)) }
{
    match member(value, key)?.as_str() {
        Some(text) => Ok(String::from_str(alloc, text)?),
        None => Err(Unread::Refused),
    }
}

// The number at a key, of which 65,536 is taken as 65,535.
#[tactic(auto, unfolding(crate::specs::LayoutFile::short_at_key))]
fn short_at(value: &Value, key: &str) -> Result<u16, Unread>
    ensures { Gives (λ x. x) result (short_at_key key.now (view value.now)) }
{
    let number = number_at(value, key)?;
    Ok(number.min(65_535) as u16)
}

// The number at a key.
#[tactic(auto, unfolding(crate::specs::LayoutFile::number_at_key))]
fn number_at(value: &Value, key: &str) -> Result<u32, Unread>
    ensures { Gives (λ x. x) result (number_at_key key.now (view value.now)) }
{
    number_in(member(value, key)?)
}

// An integer from 0 to 65,536.
fn number_in(value: &Value) -> Result<u32, Unread>
    ensures { Gives (λ x. x) result (number_in (view value.now)) }
{
    match value.as_integer() {
        Some(number) => {
            if number < 0 || number > 65_536 {
                return Err(Unread::Refused);
            }
            Ok(number as u32)
        }
        None => Err(Unread::Refused),
    }
}

// What stands at a key.
fn member<'a>(value: &'a Value, key: &str) -> Result<&'a Value, Unread>
    ensures { Gives (λ x. view x.now) result (get key.now (view value.now)) }
{
    match value.get(key) {
        Some(found) => Ok(found),
        None => Err(Unread::Refused),
    }
}

// How many keys a table has; 0 for what is no table.
fn key_count(value: &Value) -> usize
    ensures { result ≡ key_count (view value.now) }
{
    match value.as_table() {
        Some(table) => table.len(),
        None => 0,
    }
}
