//! The line of a layout, how other lines compare with it, and that memory that is there is used.
use layout_line::{Line, compare, layout_line};
use merge_core::{Layout, RecordName, RecordSpec};
use std::alloc::Global;

/// A record.
fn spec(alloc: Global, name: &str, seats: u32, home: u16, problem: u16) -> Option<RecordSpec> {
    let text = String::from_str(alloc, name).ok()?;
    Some(RecordSpec {
        name: RecordName::from_string(text),
        seats,
        home,
        problem,
    })
}

/// Two records at so many sites.
fn layout(alloc: Global, sites: u16) -> Option<Layout> {
    let mut records = Vec::new(alloc);
    records.push(spec(alloc, "a", 2, 0, 1)?).ok()?;
    records.push(spec(alloc, "z-9", 65535, 3, 2)?).ok()?;
    Layout::new(sites, records).ok()
}

/// The line of these records at so many sites.
static WRITTEN: [(u16, &str); 2] = [
    (16, "16;a,2,0,1;z-9,65535,3,2"),
    (4, "4;a,2,0,1;z-9,65535,3,2"),
];

fn is_written(alloc: Global, row: (u16, &str)) -> bool {
    let Some(layout) = layout(alloc, row.0) else {
        return false;
    };
    match layout_line(alloc, &layout) {
        Ok(text) => text.as_str() == row.1,
        Err(_) => false,
    }
}

/// Lines, a site, and how they compare with the layout at 16 sites.
static COMPARED: [(&str, u16, Line); 10] = [
    ("16;a,2,0,1;z-9,65535,3,2", 15, Line::Same),
    ("15;a,2,0,1;z-9,65535,3,2", 14, Line::Earlier),
    ("15;a,2,0,1;z-9,65535,3,2", 15, Line::Other),
    ("4;a,2,0,1;z-9,65535,3,2", 0, Line::Earlier),
    ("3;a,2,0,1;z-9,65535,3,2", 0, Line::Other),
    ("17;a,2,0,1;z-9,65535,3,2", 0, Line::Other),
    ("016;a,2,0,1;z-9,65535,3,2", 0, Line::Other),
    ("16;a,2,0,1", 0, Line::Other),
    ("16;a,2,0,1;z-9,65535,3,1", 0, Line::Other),
    ("", 0, Line::Other),
];

fn is_compared(alloc: Global, row: (&str, u16, Line)) -> bool {
    let Some(layout) = layout(alloc, 16) else {
        return false;
    };
    match compare(alloc, row.0.as_bytes(), &layout, row.1) {
        Ok(found) => found == row.2,
        Err(_) => false,
    }
}

/// The first row of each table that is wrong.
fn wrong_rows(alloc: Global) -> (Option<usize>, Option<usize>) {
    let written = WRITTEN.iter().position(|row| !is_written(alloc, *row));
    let compared = COMPARED.iter().position(|row| !is_compared(alloc, *row));
    (written, compared)
}

#[test]
fn writes_and_compares(rt: HostRuntime) {
    assert_eq!(rt; wrong_rows(rt.alloc()), (None, None));
}
