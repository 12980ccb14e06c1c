//! Layout files: which are taken, what is wrong with others, and with which record.
use layout_file::read_layout;
use std::alloc::{AllocError, Global};

// The name of what is wrong with a layout file.
fn fault_of(alloc: Global, text: &[u8]) -> &'static str {
    match read_layout(alloc, text) {
        Ok(_) => "none",
        Err(refusal) => refusal.fault.name(),
    }
}

// The place of the record that a layout file is refused for.
fn place_of(alloc: Global, text: &[u8]) -> Option<usize> {
    match read_layout(alloc, text) {
        Ok(_) => None,
        Err(refusal) => refusal.place,
    }
}

static LAYOUT_FILES: [(&[u8], &str); 28] = [
    (
        b"sites = 2\n[[record]]\nname = \"a\"\nseats = 2\nhome = 0\nproblem = 1\n",
        "none",
    ),
    (
        b"record = [{problem = 1, home = 1, seats = 65535, name = \"a-1\"}]\nsites = 16",
        "none",
    ),
    (b"sites = \n", "NotToml"),
    (b"sites = 2\nsites = 2\n", "NotToml"),
    // no UTF-8
    (b"\xff", "NotToml"),
    (b"", "WrongKeys"),
    (b"sites = 2\n", "WrongKeys"),
    (b"record = []\n", "WrongKeys"),
    (b"sites = 2\nrecord = []\nother = 1\n", "WrongKeys"),
    (b"sites = \"2\"\nrecord = []\n", "WrongKeys"),
    (b"sites = 2\nrecord = 1\n", "WrongKeys"),
    (b"sites = 2\nrecord = [1]\n", "WrongKeys"),
    (b"sites = -1\nrecord = []\n", "WrongKeys"),
    (b"sites = 65537\nrecord = []\n", "WrongKeys"),
    (
        b"sites = 2\n[[record]]\nname = 1\nseats = 2\nhome = 0\nproblem = 1\n",
        "WrongKeys",
    ),
    (
        b"sites = 2\n[[record]]\nname = \"a\"\nseats = 2\nhome = 0\n",
        "WrongKeys",
    ),
    (
        b"sites = 2\n[[record]]\nname = \"a\"\nseats = 2\nhome = 0\nproblem = 1\nother = 1\n",
        "WrongKeys",
    ),
    (b"sites = 0\nrecord = []\n", "TooFewSites"),
    (b"sites = 17\nrecord = []\n", "TooManySites"),
    (b"sites = 65536\nrecord = []\n", "TooManySites"),
    (b"sites = 2\nrecord = []\n", "NoRecords"),
    (
        b"sites = 2\n[[record]]\nname = \"A\"\nseats = 2\nhome = 0\nproblem = 1\n",
        "BadName",
    ),
    (
        b"sites = 2\n[[record]]\nname = \"a\"\nseats = 0\nhome = 9\nproblem = 1\n[[record]]\nname = \"a\"\nseats = 2\nhome = 0\nproblem = 1\n",
        "SameName",
    ),
    (
        b"sites = 2\n[[record]]\nname = \"a\"\nseats = 0\nhome = 0\nproblem = 1\n",
        "BadSeats",
    ),
    (
        b"sites = 2\n[[record]]\nname = \"a\"\nseats = 65536\nhome = 0\nproblem = 1\n",
        "BadSeats",
    ),
    (
        b"sites = 2\n[[record]]\nname = \"a\"\nseats = 2\nhome = 2\nproblem = 1\n",
        "BadHome",
    ),
    (
        b"sites = 2\n[[record]]\nname = \"a\"\nseats = 2\nhome = 65536\nproblem = 1\n",
        "BadHome",
    ),
    (
        b"sites = 2\n[[record]]\nname = \"a\"\nseats = 2\nhome = 0\nproblem = 3\n",
        "BadProblem",
    ),
];

#[test]
fn each_fault_of_a_layout_file_has_its_name(rt: HostRuntime) {
    for (row, (text, name)) in LAYOUT_FILES.iter().enumerate() {
        assert!(rt; fault_of(rt.alloc(), text) == *name, "row {row}");
    }
}

// Layout files that are refused, what for, and for which record.
static PLACES: [(&[u8], &str, Option<usize>); 12] = [
    (b"sites = \n", "NotToml", None),
    (b"sites = 2\nrecord = [1]\n", "WrongKeys", None),
    (
        b"sites = 0\nrecord = [{problem = 1, home = 0, seats = 0, name = \"a\"}]\n",
        "TooFewSites",
        None,
    ),
    (
        b"sites = 17\nrecord = [{problem = 1, home = 0, seats = 0, name = \"a\"}]\n",
        "TooManySites",
        None,
    ),
    (b"sites = 2\nrecord = []\n", "NoRecords", None),
    // the first of two
    (
        b"sites = 2\nrecord = [
            {name = \"a\", seats = 2, home = 0, problem = 1},
            {name = \"b\", seats = 0, home = 0, problem = 1},
            {name = \"c\", seats = 0, home = 0, problem = 1},
        ]\n",
        "BadSeats",
        Some(2),
    ),
    (
        b"sites = 2\nrecord = [
            {name = \"a\", seats = 2, home = 0, problem = 1},
            {name = \"b\", seats = 2, home = 1, problem = 1},
            {name = \"c\", seats = 2, home = 2, problem = 1},
            {name = \"d\", seats = 2, home = 3, problem = 1},
        ]\n",
        "BadHome",
        Some(3),
    ),
    // the last one
    (
        b"sites = 2\nrecord = [
            {name = \"a\", seats = 2, home = 0, problem = 1},
            {name = \"b\", seats = 2, home = 0, problem = 2},
            {name = \"c\", seats = 2, home = 0, problem = 0},
        ]\n",
        "BadProblem",
        Some(3),
    ),
    // the first one
    (
        b"sites = 2\nrecord = [
            {name = \"1\", seats = 2, home = 0, problem = 1},
            {name = \"\", seats = 2, home = 0, problem = 1},
        ]\n",
        "BadName",
        Some(1),
    ),
    // an earlier record has a fault that is looked for later
    (
        b"sites = 2\nrecord = [
            {name = \"a\", seats = 0, home = 9, problem = 9},
            {name = \"A\", seats = 2, home = 0, problem = 1},
        ]\n",
        "BadName",
        Some(2),
    ),
    // the first record whose name an earlier one has; that of the fifth stands further in front
    (
        b"sites = 2\nrecord = [
            {name = \"a\", seats = 2, home = 0, problem = 1},
            {name = \"b\", seats = 2, home = 0, problem = 1},
            {name = \"c\", seats = 2, home = 0, problem = 1},
            {name = \"b\", seats = 2, home = 0, problem = 1},
            {name = \"a\", seats = 2, home = 0, problem = 1},
        ]\n",
        "SameName",
        Some(4),
    ),
    (
        b"sites = 2\nrecord = [
            {name = \"a\", seats = 0, home = 9, problem = 9},
            {name = \"a\", seats = 2, home = 0, problem = 1},
        ]\n",
        "SameName",
        Some(2),
    ),
];

#[test]
fn the_first_record_at_fault_is_told(rt: HostRuntime) {
    for (row, (text, name, place)) in PLACES.iter().enumerate() {
        assert!(rt; fault_of(rt.alloc(), text) == *name, "row {row}");
        assert!(rt; place_of(rt.alloc(), text) == *place, "row {row}");
    }
}

// A layout file of so many records.
fn file_of_records(alloc: Global, records: u16) -> Result<String, AllocError> {
    let mut text = String::from_str(alloc, "sites = 2\n")?;
    for _ in 0..records {
        text.push_str("[[record]]\nname = \"a\"\nseats = 2\nhome = 0\nproblem = 1\n")?;
    }
    Ok(text)
}

#[test]
fn more_than_256_records_are_too_many(rt: HostRuntime) {
    let text = file_of_records(rt.alloc(), 257).expect(&rt, "memory");
    assert!(rt; fault_of(rt.alloc(), text.as_bytes()) == "TooManyRecords");
    assert!(rt; place_of(rt.alloc(), text.as_bytes()) == None);
}
