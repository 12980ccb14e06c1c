//! Lines of transcripts, as they are or changed.
use crate::texts::{TWO_RECORDS, layout_of, refused_line};
use std::alloc::Global;

/// The beginning of a run of site 1 of three.
pub const OPENING: &str =
    "{\"book\":\"{\\\"from\\\":1,\\\"rows\\\":[],\\\"v\\\":1}\",\"sessions\":[],\"site\":1,\"sites\":3}\n";

// The same in the older spelling.
const SHORT: &str =
    "{\"book\":\"{\\\"from\\\":1,\\\"rows\\\":[],\\\"v\\\":1}\",\"sessions\":[],\"site\":1}\n";

const ENTRY: &str = "{\"call\":\"announce a 5\",\"pass\":0,\"reply\":\"announced 1\"}\n";

// A text, and the first of its lines that is refused; 0 where none is.
static TEXTS: [(&str, &str, u64); 22] = [
    ("", "", 0),
    (OPENING, ENTRY, 0),
    (SHORT, ENTRY, 0),
    (OPENING, SHORT, 0),
    (ENTRY, OPENING, 1),
    (OPENING, "\n", 2),
    (
        OPENING,
        "{\"call\":\"announce a 5\", \"pass\":0,\"reply\":\"announced 1\"}\n",
        2,
    ),
    (
        OPENING,
        "{\"call\":\"announce a 5\",\"pass\":0,\"reply\":\"announced 1\"}",
        0,
    ),
    (ENTRY, "", 1),
    (
        "{\"book\":\"{\\\"from\\\":1,\\\"rows\\\":[],\\\"v\\\":1}\",\"sessions\":[],\"site\":3,\"sites\":3}\n",
        ENTRY,
        1,
    ),
    (
        "{\"book\":\"{\\\"from\\\":1,\\\"rows\\\":[],\\\"v\\\":1}\",\"sessions\":[],\"site\":65536,\"sites\":3}\n",
        ENTRY,
        1,
    ),
    (
        "{\"book\":\"{\\\"from\\\":1,\\\"rows\\\":[],\\\"v\\\":1}\",\"sessions\":[],\"site\":1,\"sites\":65536}\n",
        ENTRY,
        1,
    ),
    (
        "{\"book\":\"{\\\"from\\\":3,\\\"rows\\\":[],\\\"v\\\":1}\",\"sessions\":[],\"site\":3}\n",
        "",
        1,
    ),
    (
        "{\"book\":\"{\\\"from\\\":0,\\\"rows\\\":[],\\\"v\\\":1}\",\"sessions\":[],\"site\":1}\n",
        "",
        1,
    ),
    (
        OPENING,
        "{\"book\":\"{\\\"from\\\":0,\\\"rows\\\":[],\\\"v\\\":1}\",\"sessions\":[],\"site\":0,\"sites\":4}\n",
        2,
    ),
    (
        OPENING,
        "{\"book\":\"{\\\"from\\\":0,\\\"rows\\\":[],\\\"v\\\":1}\",\"sessions\":[],\"site\":0,\"sites\":1}\n",
        2,
    ),
    (
        OPENING,
        "{\"book\":\"{\\\"from\\\":1,\\\"rows\\\":[],\\\"v\\\":1}\",\"sessions\":[\"a 7 reader\"],\"site\":1,\"sites\":3}\n",
        2,
    ),
    // A row that does not fit the layout, and one that names more than a site keeps: the readers at another one.
    (
        OPENING,
        "{\"book\":\"{\\\"from\\\":1,\\\"rows\\\":[{\\\"ann\\\":0,\\\"fin\\\":0,\\\"out\\\":[0,1],\\\"r\\\":0,\\\"s\\\":1,\\\"taken\\\":0}],\\\"v\\\":1}\",\"sessions\":[],\"site\":1,\"sites\":3}\n",
        2,
    ),
    (
        OPENING,
        "{\"book\":\"{\\\"from\\\":1,\\\"rows\\\":[{\\\"ann\\\":0,\\\"fin\\\":0,\\\"out\\\":[3,0,0],\\\"r\\\":0,\\\"s\\\":0,\\\"taken\\\":1}],\\\"v\\\":1}\",\"sessions\":[],\"site\":1,\"sites\":3}\n",
        2,
    ),
    // An entry with a number that its type does not have, and then a line that is none of a log.
    (
        OPENING,
        "{\"call\":\"announce a 5\",\"pass\":65536,\"reply\":\"announced 1\"}\nno line\n",
        2,
    ),
    (
        OPENING,
        "{\"call\":\"take {\\\"from\\\":16,\\\"rows\\\":[],\\\"v\\\":1}\",\"pass\":0,\"reply\":\"merged 0\"}\nno line\n",
        2,
    ),
    (
        OPENING,
        "{\"call\":\"announce a 5\",\"pass\":65535,\"reply\":\"announced 1\"}\n{\"call\":\"send\",\"pass\":18446744073709551616,\"reply\":\"admitted\"}\n\n",
        3,
    ),
];

// The first text of the table that is judged otherwise.
fn first_wrong_text(alloc: Global) -> Option<Option<usize>> {
    let layout = layout_of(alloc, 3, &TWO_RECORDS)?;
    for (k, (front, back, line)) in TEXTS.iter().enumerate() {
        let mut text = String::from_str(alloc, *front).ok()?;
        text.push_str(*back).ok()?;
        if refused_line(alloc, &layout, text.as_bytes())? != *line {
            return Some(Some(k));
        }
    }
    Some(None)
}

#[test]
fn each_text_is_read_up_to_its_first_refused_line(rt: HostRuntime) {
    let wrong = first_wrong_text(rt.alloc());
    assert!(rt; wrong == Some(None), "{wrong:?}");
}

// Two runs of so many entries each, and then this line.
fn long_text(alloc: Global, entries: u64, last: &str) -> Option<String> {
    let mut text = String::new(alloc);
    for _ in 0..2 {
        text.push_str(OPENING).ok()?;
        for _ in 0..entries {
            text.push_str(ENTRY).ok()?;
        }
    }
    text.push_str(last).ok()?;
    Some(text)
}

// The first line of such a text that is refused.
fn refused_in_long_text(alloc: Global, entries: u64, last: &str) -> Option<u64> {
    let layout = layout_of(alloc, 3, &TWO_RECORDS)?;
    let text = long_text(alloc, entries, last)?;
    refused_line(alloc, &layout, text.as_bytes())
}

#[test]
fn more_than_70000_lines_are_read(rt: HostRuntime) {
    let refused = refused_in_long_text(rt.alloc(), 35_000, "no line\n");
    assert!(rt; refused == Some(70_003), "{refused:?}");
}
