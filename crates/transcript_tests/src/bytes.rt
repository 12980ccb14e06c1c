//! A transcript of two lines, with each byte replaced by each other byte: it is refused, or it is the text of what is read.
use crate::texts::{ONE_RECORD, layout_of, written};
use merge_core::Layout;
use std::alloc::Global;
use transcript_reader::{ReadError, read_transcripts};

// The line that begins a run up to the number of sites, that number, and its end; and a line behind it.
const FRONT: &[u8] =
    b"{\"book\":\"{\\\"from\\\":1,\\\"rows\\\":[],\\\"v\\\":1}\",\"sessions\":[],\"site\":1";

const SITES: &[u8] = b",\"sites\":3";

const NOTHING: &[u8] = b"";

const END: &[u8] = b"}\n";

const ENTRY: &[u8] = b"{\"call\":\"announce a 5\",\"pass\":0,\"reply\":\"announced 1\"}\n";

// A text, what is lacking in it, and the place where that would stand.
#[derive(Drop)]
struct Spelled {
    text: Vec<u8>,
    lacking: &'static [u8],
    place: usize,
}

// These parts, one behind the other.
fn joined(alloc: Global, parts: &[&[u8]]) -> Option<Vec<u8>> {
    let mut all = Vec::new(alloc);
    for part in parts {
        all.extend_from_slice(*part).ok()?;
    }
    Some(all)
}

// The text with another byte at a place.
fn changed(alloc: Global, text: &[u8], at: usize, byte: u8) -> Option<Vec<u8>> {
    let mut all = Vec::from_slice(alloc, text).ok()?;
    *all.get_mut(at)? = byte;
    Some(all)
}

// Whether a text is refused, or is just what is written of what is read, but for what is lacking at the place.
fn is_right(
    alloc: Global,
    layout: &Layout,
    text: &[u8],
    lacking: &[u8],
    place: usize,
) -> Option<bool> {
    match read_transcripts(alloc, layout, text) {
        Err(ReadError::NotTranscript { .. }) => Some(true),
        Err(ReadError::Memory) => None,
        Ok(transcripts) => {
            let again = written(alloc, layout, transcripts.as_slice())?;
            let (front, back) = text.split_at_checked(place)?;
            let wanted = joined(alloc, &[front, lacking, back])?;
            Some(again.as_bytes() == wanted.as_slice())
        }
    }
}

// The first other byte at a place that makes a text which is read and not written so.
fn wrong_byte(alloc: Global, layout: &Layout, spelled: &Spelled, at: usize) -> Option<Option<u8>> {
    let text = spelled.text.as_slice();
    for byte in 0..=255u8 {
        let other = changed(alloc, text, at, byte)?;
        if !is_right(
            alloc,
            layout,
            other.as_slice(),
            spelled.lacking,
            spelled.place,
        )? {
            return Some(Some(byte));
        }
    }
    Some(None)
}

// The first place and byte where a text is read and not written so.
fn first_wrong(alloc: Global, spelled: &Spelled) -> Option<Option<(usize, u8)>> {
    let layout = layout_of(alloc, 3, &ONE_RECORD)?;
    for at in 0..spelled.text.len() {
        if let Some(byte) = wrong_byte(alloc, &layout, spelled, at)? {
            return Some(Some((at, byte)));
        }
    }
    Some(None)
}

// The same of both lines, or of the first one in the older spelling, which lacks the number of sites.
fn first_wrong_of(alloc: Global, older: bool) -> Option<Option<(usize, u8)>> {
    let place = FRONT.len();
    let (text, lacking) = if older {
        (joined(alloc, &[FRONT, END])?, SITES)
    } else {
        (joined(alloc, &[FRONT, SITES, END, ENTRY])?, NOTHING)
    };
    first_wrong(
        alloc,
        &Spelled {
            text,
            lacking,
            place,
        },
    )
}

#[test]
fn a_changed_byte_is_refused_or_comes_back(rt: HostRuntime) {
    for older in [false, true] {
        let wrong = first_wrong_of(rt.alloc(), older);
        assert!(rt; wrong == Some(None), "{older} {wrong:?}");
    }
}
