//! Layouts, what comes of reading and writing texts, and whether closed logs are equal.
use desk_log::same::{same_call, same_durable, same_reply};
use desk_log::{Entry, Run, Transcript};
use merge_core::{Layout, RecordName, RecordSpec};
use std::alloc::Global;
use transcript_reader::{ReadError, read_transcripts};
use transcript_text::{may_be_written, transcript_text};

/// Name, seats, home and problem of a record.
pub type Record = (&'static str, u32, u16, u16);

/// Three seats under problem 2.
pub static ONE_RECORD: [Record; 1] = [("a", 3, 0, 2)];

/// A record besides, whose seats start at site 1.
pub static TWO_RECORDS: [Record; 2] = [("a", 3, 0, 2), ("stock-2", 2, 1, 1)];

/// Two seats under problem 1.
pub static TWO_SEATS: [Record; 1] = [("a", 2, 0, 1)];

/// So many sites, and these records.
pub fn layout_of(alloc: Global, sites: u16, all: &[Record]) -> Option<Layout> {
    let mut records = Vec::new(alloc);
    for (name, seats, home, problem) in all {
        let name = RecordName::from_string(String::from_str(alloc, *name).ok()?);
        records
            .push(RecordSpec {
                name,
                seats: *seats,
                home: *home,
                problem: *problem,
            })
            .ok()?;
    }
    Layout::new(sites, records).ok()
}

/// The texts of transcripts, one after another.
pub fn written(alloc: Global, layout: &Layout, transcripts: &[Transcript]) -> Option<String> {
    let mut all = String::new(alloc);
    for transcript in transcripts {
        if !may_be_written(alloc, layout, transcript).ok()? {
            return None;
        }
        let text = transcript_text(alloc, layout, transcript).ok()?;
        all.push_str(text.as_str()).ok()?;
    }
    Some(all)
}

/// The number of the first line that is refused; 0 where none is.
pub fn refused_line(alloc: Global, layout: &Layout, bytes: &[u8]) -> Option<u64> {
    match read_transcripts(alloc, layout, bytes) {
        Ok(_) => Some(0),
        Err(ReadError::NotTranscript { line }) => Some(line),
        Err(ReadError::Memory) => None,
    }
}

// Whether two entries are equal.
fn same_entry(a: &Entry, b: &Entry) -> bool {
    a.pass == b.pass && same_call(&a.call, &b.call) && same_reply(&a.reply, &b.reply)
}

// Whether two runs are equal.
fn same_run(a: &Run, b: &Run) -> bool {
    for (x, y) in a.entries.as_slice().iter().zip(b.entries.as_slice()) {
        if !same_entry(x, y) {
            return false;
        }
    }
    a.sites == b.sites
        && same_durable(&a.first, &b.first)
        && a.entries.as_slice().len() == b.entries.as_slice().len()
}

// Whether two transcripts are equal.
fn same_transcript(a: &Transcript, b: &Transcript) -> bool {
    for (x, y) in a.runs.as_slice().iter().zip(b.runs.as_slice()) {
        if !same_run(x, y) {
            return false;
        }
    }
    a.site == b.site && a.runs.len() == b.runs.len()
}

/// Whether transcripts, one for each site, are written as this text, and read back from it as they are.
pub fn are_kept(
    alloc: Global,
    layout: &Layout,
    transcripts: &[Transcript],
    text: &str,
) -> Option<bool> {
    if written(alloc, layout, transcripts)?.as_str() != text {
        return Some(false);
    }
    let again = read_transcripts(alloc, layout, text.as_bytes()).ok()?;
    for (x, y) in again.as_slice().iter().zip(transcripts) {
        if !same_transcript(x, y) {
            return Some(false);
        }
    }
    Some(again.len() == transcripts.len())
}
