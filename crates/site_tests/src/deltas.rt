//! Worked texts and faults, texts at the limits, and a plain reading that goes by way of a JSON tree.
use crate::layouts::full_delta;
use delta_codec::laws::text_laws;
use delta_codec::{DecodeError, TEXT_LIMIT, decode, encode};
use grow_counters::{COUNTER_LIMIT, Counts};
use merge_core::{Delta, Row};
use serde_json::Value;
use std::alloc::{AllocError, Global};

const NO_ROWS: &str = "{\"from\":0,\"rows\":[],\"v\":1}";

const ONE_ROW: &str =
    "{\"from\":0,\"rows\":[{\"ann\":0,\"fin\":0,\"out\":[2,1],\"r\":0,\"s\":0,\"taken\":0}],\"v\":1}";

const SAME_ROW_AGAIN: &str = "},{\"ann\":0,\"fin\":0,\"out\":[2,1],\"r\":0,\"s\":0,\"taken\":0}]";

// A text, a piece of it, what that is replaced by, and the fault that is told then.
type Change = (&'static str, &'static str, &'static str, &'static str);

const CHANGES: [Change; 14] = [
    (NO_ROWS, "0", "16", "NotCanonical"),
    (
        NO_ROWS,
        "\"from\":0",
        "\"from\":0,\"from\":0",
        "NotCanonical",
    ),
    (NO_ROWS, "\"v\":1", "\"v\":2", "NotCanonical"),
    (NO_ROWS, "1}", "1} ", "NotCanonical"),
    (ONE_ROW, ",", ", ", "NotCanonical"),
    (ONE_ROW, "[2,1]", "[2,01]", "NotJson"),
    (ONE_ROW, "[2,1]", "[]", "NotCanonical"),
    (ONE_ROW, "[2,1]", "[18446744073709551616,1]", "NotCanonical"),
    (ONE_ROW, "[2,1]", "[1e999,1]", "NotJson"),
    (
        ONE_ROW,
        "[2,1]",
        "[2,1,0,0,0,0,0,0,0,0,0,0,0,0,0,0,0]",
        "NotCanonical",
    ),
    (ONE_ROW, "\"r\":0", "\"r\":256", "NotCanonical"),
    (ONE_ROW, "\"r\":0", "\"r\":65536", "NotCanonical"),
    (
        ONE_ROW,
        "\"ann\":0,\"fin\":0",
        "\"fin\":0,\"ann\":0",
        "NotCanonical",
    ),
    (ONE_ROW, "}]", SAME_ROW_AGAIN, "NotCanonical"),
];

// The text of the delta that the bytes are read as, or the name of the fault.
fn answer(alloc: Global, bytes: &[u8]) -> Result<String, AllocError> {
    match decode(alloc, bytes) {
        Ok(delta) => encode(alloc, &delta),
        Err(error) => String::from_str(alloc, error.name()),
    }
}

// The text with one piece of it replaced by another.
fn changed(alloc: Global, text: &str, old: &str, new: &str) -> Result<String, AllocError> {
    let mut all = String::new(alloc);
    match text.split_once(old) {
        Some((front, back)) => {
            all.push_str(front)?;
            all.push_str(new)?;
            all.push_str(back)?;
        }
        None => all.push_str("no such piece")?,
    }
    Ok(all)
}

// The number under a name.
fn number(value: &Value, name: &str) -> Option<u64> {
    value.get(name)?.as_u64()
}

fn small(value: &Value, name: &str) -> Option<u16> {
    u16::try_from(number(value, name)?).ok()
}

// The counters under the name `out`.
fn counters_of(alloc: Global, value: &Value) -> Option<Counts> {
    let mut counters = Vec::new(alloc);
    for counter in value.get("out")?.as_array()? {
        counters.push(counter.as_u64()?).ok()?;
    }
    Some(Counts::from_vec(counters))
}

// The numbers under these names.
fn numbers(value: &Value) -> Option<[u64; 3]> {
    Some([
        number(value, "taken")?,
        number(value, "ann")?,
        number(value, "fin")?,
    ])
}

fn row_of(alloc: Global, value: &Value) -> Option<Row> {
    let r = small(value, "r")?;
    let s = small(value, "s")?;
    let [taken, ann, fin] = numbers(value)?;
    let out = counters_of(alloc, value)?;
    Some(Row {
        r,
        s,
        out,
        taken,
        ann,
        fin,
    })
}

fn delta_of(alloc: Global, value: &Value) -> Option<Delta> {
    let from = small(value, "from")?;
    let mut rows = Vec::new(alloc);
    for row in value.get("rows")?.as_array()? {
        rows.push(row_of(alloc, row)?).ok()?;
    }
    Delta::new(from, rows).ok()
}

// What `answer` gives, by a tree: the value's fields make a delta, whose own text has to be the bytes.
fn plain_answer(alloc: Global, bytes: &[u8]) -> Result<String, AllocError> {
    let Ok(text) = std::str::from_utf8(bytes) else {
        return String::from_str(alloc, "NotUtf8");
    };
    let Ok(value) = Value::from_str(alloc, text) else {
        return String::from_str(alloc, "NotJson");
    };
    if let Some(delta) = delta_of(alloc, &value) {
        let written = encode(alloc, &delta)?;
        if written.as_str() == text {
            return Ok(written);
        }
    }
    String::from_str(alloc, "NotCanonical")
}

fn is_full(row: &Row, most: u64) -> bool {
    if row.taken != most || row.ann != most || row.fin != most || row.out.len() != 16 {
        return false;
    }
    for counter in row.out.as_slice() {
        if *counter != most {
            return false;
        }
    }
    true
}

// How many rows from the front on are those of the full delta.
fn full_rows(delta: &Delta, most: u64) -> usize {
    let mut at = 0usize;
    for row in delta.rows() {
        if at >= 4096
            || usize::from(row.r) != at / 16
            || usize::from(row.s) != at % 16
            || !is_full(row, most)
        {
            return at;
        }
        at += 1;
    }
    at
}

fn full_rows_read(alloc: Global, bytes: &[u8], most: u64) -> Option<usize> {
    let read = decode(alloc, bytes).ok()?;
    Some(full_rows(&read, most))
}

// The length of the full delta's text, and how many of its rows are read back from it.
fn there_and_back(alloc: Global, most: u64) -> Option<(usize, usize)> {
    let text = encode(alloc, &full_delta(alloc, 0, most)?).ok()?;
    let rows = full_rows_read(alloc, text.as_bytes(), most)?;
    Some((text.len(), rows))
}

// Whether the bytes are read as a delta with this text, or refused with a fault of this name.
fn is_answer(alloc: Global, bytes: &[u8], want: &str) -> bool {
    match answer(alloc, bytes) {
        Ok(read) => read.as_str() == want,
        Err(_) => false,
    }
}

// The same by a tree.
fn is_plain_answer(alloc: Global, bytes: &[u8], want: &str) -> bool {
    match plain_answer(alloc, bytes) {
        Ok(read) => read.as_str() == want,
        Err(_) => false,
    }
}

fn are_answers(alloc: Global, bytes: &[u8], want: &str) -> bool {
    is_answer(alloc, bytes, want) && is_plain_answer(alloc, bytes, want)
}

// A text, a piece of it, and what that is replaced by.
type Text = (&'static str, &'static str, &'static str);

const TEXTS: [Text; 5] = [
    (NO_ROWS, "{", "{"),
    (ONE_ROW, "{", "{"),
    (ONE_ROW, "[2,1]", "[2,1,0]"),
    (ONE_ROW, "\"taken\":0", "\"taken\":18446744073709551615"),
    (ONE_ROW, "[2,1]", "[12345678,1234567890123]"),
];

fn is_text(alloc: Global, (text, old, new): &Text) -> bool {
    match changed(alloc, *text, *old, *new) {
        Ok(text) => are_answers(alloc, text.as_bytes(), text.as_str()),
        Err(_) => false,
    }
}

// The first text that does not come back.
fn first_lost(alloc: Global) -> Option<usize> {
    for (k, text) in TEXTS.iter().enumerate() {
        if !is_text(alloc, text) {
            return Some(k);
        }
    }
    None
}

#[test]
fn texts_are_read_and_written(rt: HostRuntime) {
    let lengths = (NO_ROWS.len(), ONE_ROW.len());
    assert!(rt; lengths == (26, 77));
    assert_eq!(rt; first_lost(rt.alloc()), None);
}

#[test]
fn deltas_at_the_limits_are_read_and_written(rt: HostRuntime) {
    text_laws();
    let most = there_and_back(rt.alloc(), u64::MAX);
    let limit = there_and_back(rt.alloc(), COUNTER_LIMIT);
    assert!(rt; (most, limit) == (Some((1_814_330, 4096)), Some((1_269_562, 4096))));
}

// One byte so many times, and the fault.
static LONG: [(u8, usize, &str); 5] = [
    (b'[', TEXT_LIMIT, "NotJson"),
    (b'[', TEXT_LIMIT + 1, "TooLong"),
    (b'[', TEXT_LIMIT + 2, "TooLong"),
    (b' ', 2_097_152, "NotJson"),
    (b' ', 2_097_153, "TooLong"),
];

fn is_long(alloc: Global, byte: u8, count: usize, fault: &str) -> bool {
    match vec![in alloc; byte; count] {
        Ok(text) => is_answer(alloc, text.as_slice(), fault),
        Err(_) => false,
    }
}

// The first of these texts with another fault.
fn first_wrong_length(alloc: Global) -> Option<usize> {
    for (row, (byte, count, fault)) in LONG.iter().enumerate() {
        if !is_long(alloc, *byte, *count, fault) {
            return Some(row);
        }
    }
    None
}

#[test]
fn texts_above_the_limit_are_too_long(rt: HostRuntime) {
    assert_eq!(rt; first_wrong_length(rt.alloc()), None);
}

fn is_refused(alloc: Global, (text, old, new, fault): &Change) -> bool {
    match changed(alloc, *text, *old, *new) {
        Ok(text) => are_answers(alloc, text.as_bytes(), *fault),
        Err(_) => false,
    }
}

// The first change with another fault.
fn first_wrong_change(alloc: Global) -> Option<usize> {
    for (k, change) in CHANGES.iter().enumerate() {
        if !is_refused(alloc, change) {
            return Some(k);
        }
    }
    None
}

#[test]
fn a_changed_text_is_refused(rt: HostRuntime) {
    assert_eq!(rt; first_wrong_change(rt.alloc()), None);
}

// 200 brackets that open and as many that close.
fn deep_text(alloc: Global) -> Option<Vec<u8>> {
    let mut deep = vec![in alloc; b'['; 200].ok()?;
    deep.extend_from_slice(&[b']'; 200]).ok()?;
    Some(deep)
}

fn deep_is_refused(alloc: Global) -> bool {
    match deep_text(alloc) {
        Some(deep) => is_answer(alloc, deep.as_slice(), "NotJson"),
        None => false,
    }
}

// The first length to which the text of one row is cut and read otherwise than as no JSON.
fn first_wrong_cut(alloc: Global) -> Option<usize> {
    let text = ONE_ROW.as_bytes();
    for end in 0..text.len() {
        if !is_answer(alloc, &text[..end], "NotJson") {
            return Some(end);
        }
    }
    None
}

#[test]
fn other_inputs_are_refused(rt: HostRuntime) {
    let deep = deep_is_refused(rt.alloc());
    let object = is_answer(rt.alloc(), b"{}", "NotCanonical");
    let byte = is_answer(rt.alloc(), &[255], "NotUtf8");
    assert!(rt; [deep, object, byte] == [true, true, true]);
    assert_eq!(rt; first_wrong_cut(rt.alloc()), None);
}

// What each fault prints.
const PRINTED: [(DecodeError, &str); 5] = [
    (DecodeError::TooLong, "the text is too long"),
    (DecodeError::NotUtf8, "the text is not UTF-8"),
    (DecodeError::NotJson, "the text is not JSON"),
    (
        DecodeError::NotCanonical,
        "the text is not the canonical text of a delta",
    ),
    (DecodeError::Memory, "out of memory"),
];

fn prints(alloc: Global, fault: DecodeError, text: &str) -> bool {
    match format!(in alloc; "{fault}") {
        Ok(printed) => printed.as_str() == text,
        Err(_) => false,
    }
}

// The first fault that prints something else.
fn first_wrong_fault(alloc: Global) -> Option<usize> {
    for (k, (fault, text)) in PRINTED.iter().enumerate() {
        if !prints(alloc, *fault, *text) {
            return Some(k);
        }
    }
    None
}

#[test]
fn a_fault_is_printed(rt: HostRuntime) {
    assert_eq!(rt; first_wrong_fault(rt.alloc()), None);
}

// Whether both readings give the same answer.
fn is_same_by_a_tree(alloc: Global, bytes: &[u8]) -> bool {
    match answer(alloc, bytes) {
        Ok(read) => is_plain_answer(alloc, bytes, read.as_str()),
        Err(_) => false,
    }
}

// The first byte that, put in place `i` of a text, makes one that the readings answer differently.
fn first_apart_at(alloc: Global, text: &mut [u8], i: usize) -> Option<u8> {
    if i >= text.len() {
        return Some(0);
    }
    let kept = text[i];
    for byte in 0..=255u8 {
        text[i] = byte;
        if !is_same_by_a_tree(alloc, text) {
            return Some(byte);
        }
    }
    text[i] = kept;
    None
}

// The first place and byte of the text of one row.
fn first_apart(alloc: Global) -> Option<Option<(usize, u8)>> {
    let mut text = Vec::from_slice(alloc, ONE_ROW.as_bytes()).ok()?;
    for i in 0..ONE_ROW.len() {
        if let Some(byte) = first_apart_at(alloc, &mut text, i) {
            return Some(Some((i, byte)));
        }
    }
    Some(None)
}

#[test]
fn a_tree_gives_the_same_answers(rt: HostRuntime) {
    assert_eq!(rt; first_apart(rt.alloc()), Some(None));
}

// ---- any one allocation may be refused; the tests fail where a second try finds no memory either

const TWO_ROWS: &str =
    "{\"from\":0,\"rows\":[{\"ann\":0,\"fin\":0,\"out\":[4,3,0],\"r\":0,\"s\":0,\"taken\":1},{\"ann\":1,\"fin\":0,\"out\":[0,0,0],\"r\":0,\"s\":1,\"taken\":0}],\"v\":1}";

fn is_row(row: &Row, s: u16, out: &[u64], numbers: [u64; 3]) -> bool {
    row.r == 0
        && row.s == s
        && row.out.as_slice() == out
        && [row.taken, row.ann, row.fin] == numbers
}

// Whether a delta is that of the two rows. Takes no memory.
fn is_two_rows(delta: &Delta) -> bool {
    match delta.rows() {
        [first, second] => {
            delta.from_site() == 0
                && is_row(first, 0, &[4, 3, 0], [1, 0, 0])
                && is_row(second, 1, &[0, 0, 0], [0, 1, 0])
        }
        _ => false,
    }
}

// The delta of the two rows; read again where that found no memory.
fn two_rows(alloc: Global) -> Result<Delta, DecodeError> {
    match decode(alloc, TWO_ROWS.as_bytes()) {
        Err(DecodeError::Memory) => decode(alloc, TWO_ROWS.as_bytes()),
        read => read,
    }
}

// The text of a delta; written again where that found no memory.
fn text_again(alloc: Global, delta: &Delta) -> Result<String, AllocError> {
    match encode(alloc, delta) {
        Err(_) => encode(alloc, delta),
        text => text,
    }
}

fn is_written(alloc: Global, delta: &Delta) -> bool {
    match text_again(alloc, delta) {
        Ok(text) => text.as_str() == TWO_ROWS,
        Err(_) => false,
    }
}

// Whether the two rows are read, and written again.
fn come_back(alloc: Global) -> bool {
    match two_rows(alloc) {
        Ok(delta) => is_two_rows(&delta) && is_written(alloc, &delta),
        Err(_) => false,
    }
}

#[test]
fn refused_growths_leave_a_text_whole(rt: HostRuntime) {
    assert!(rt; come_back(rt.alloc()));
}
