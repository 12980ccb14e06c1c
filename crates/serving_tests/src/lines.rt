//! Scripts, served by a desk over memory.
use desk_log::Desk;
use durable_keeper::MemoryKeeper;
use layout_file::built_in;
use site_script::serve_script;
use std::alloc::Global;

// A desk of site 0 of the built-in layout, with so many places.
fn small_desk(alloc: Global, limit: usize) -> Option<Desk<MemoryKeeper>> {
    let layout = built_in(alloc).ok()?;
    let keeper = MemoryKeeper::new(alloc, &layout, 0).ok()?;
    Desk::open(alloc, keeper, layout, 0, limit).ok()
}

// What a script is answered there, whether it was read whole, and how many entries the log has then.
fn answered(alloc: Global, limit: usize, script: &[u8]) -> Option<(String, bool, usize)> {
    let mut desk = small_desk(alloc, limit)?;
    let served = serve_script(alloc, &mut desk, 0, script).ok()?;
    Some((served.text, served.whole, desk.entries().len()))
}

// Whether a script is answered so by a desk with 16 places.
fn is_answer(alloc: Global, script: &[u8], text: &str, whole: bool, entries: usize) -> bool {
    match answered(alloc, 16, script) {
        Some(answer) => answer.0.as_str() == text && answer.1 == whole && answer.2 == entries,
        None => false,
    }
}

static LINES: [(&str, &str); 15] = [
    ("read a 8", "admitted"),
    (
        "send",
        "{\"from\":0,\"rows\":[{\"ann\":0,\"fin\":0,\"out\":[2,0],\"r\":0,\"s\":0,\"taken\":1}],\"v\":1}",
    ),
    ("leave a 8", "left reader"),
    ("announce a 9", "announced 1"),
    ("write a 9", "admitted"),
    ("leave a 9", "left writer"),
    ("give a 1 1", "given"),
    ("help a", "refused NoPlan"),
    ("read b 7", "refused NoRecord"),
    (
        "take {\"from\":1,\"rows\":[{\"ann\":1,\"fin\":0,\"out\":[0,0],\"r\":0,\"s\":1,\"taken\":0}],\"v\":1}",
        "merged 1",
    ),
    ("take ", "refused NotJson"),
    ("take [1]", "refused NotCanonical"),
    (
        "take  {\"from\":1,\"rows\":[],\"v\":1}",
        "refused NotCanonical",
    ),
    (
        "take {\"from\":1,\"rows\":[],\"v\":1}\r",
        "refused NotCanonical",
    ),
    ("help a", "gave 1 1"),
];

// One script of all these lines, and its answer.
fn all_lines(alloc: Global) -> Option<(String, String)> {
    let mut script = String::new(alloc);
    let mut text = String::new(alloc);
    for (line, answer) in &LINES {
        script.push_str(line).ok()?;
        script.push_str("\n").ok()?;
        text.push_str(answer).ok()?;
        text.push_str("\n").ok()?;
    }
    Some((script, text))
}

static SCRIPTS: [(&[u8], &str, bool, usize); 7] = [
    (b"", "", true, 0),
    (
        b"read a 7\n\nread a 8\n",
        "admitted\nline 2 refused BadWord\n",
        false,
        1,
    ),
    (
        b"take x\ntake",
        "refused NotJson\nline 2 refused BadWord\n",
        false,
        0,
    ),
    (b"take \xff\n", "line 1 refused BadWord\n", false, 0),
    (b"read a 7", "admitted\n", true, 1),
    (
        b"read a 0\nsend\n",
        "admitted\n{\"from\":0,\"rows\":[{\"ann\":0,\"fin\":0,\"out\":[2,0],\"r\":0,\"s\":0,\"taken\":1}],\"v\":1}\n",
        true,
        2,
    ),
    (
        b"take {\"from\":1,\"rows\":[],\"v\":1}\n",
        "merged 0\n",
        true,
        1,
    ),
];

// The same line so often, and then others.
fn repeated(alloc: Global, line: &str, times: u64, behind: &str) -> Option<String> {
    let mut script = String::new(alloc);
    for _ in 0..times {
        script.push_str(line).ok()?;
    }
    script.push_str(behind).ok()?;
    Some(script)
}

// Whether one script of all lines is answered by their answers.
fn is_each_answered(alloc: Global) -> Option<bool> {
    let (script, text) = all_lines(alloc)?;
    Some(is_answer(alloc, script.as_bytes(), text.as_str(), true, 11))
}

#[test]
fn each_kind_of_line_is_answered(rt: HostRuntime) {
    assert!(rt; is_each_answered(rt.alloc()) == Some(true));
}

#[test]
fn scripts_are_answered_line_by_line(rt: HostRuntime) {
    for (row, (script, text, whole, entries)) in SCRIPTS.iter().enumerate() {
        assert!(rt;
            is_answer(rt.alloc(), script, text, *whole, *entries),
            "row {row}"
        );
    }
}

// Whether 17 readers and as many lines that are refused without a log fill a log of 16 places.
fn gets_full(alloc: Global) -> Option<bool> {
    let script = repeated(alloc, "read a 7\ntake x\n", 17, "send\ntake x\n")?;
    let refused = repeated(
        alloc,
        "refused AlreadyHere\nrefused NotJson\n",
        15,
        "refused LogFull\nrefused NotJson\nrefused LogFull\nrefused NotJson\n",
    )?;
    let text = format!(in alloc; "admitted\nrefused NotJson\n{refused}").ok()?;
    Some(is_answer(alloc, script.as_bytes(), text.as_str(), true, 16))
}

#[test]
fn a_log_gets_full(rt: HostRuntime) {
    assert!(rt; gets_full(rt.alloc()) == Some(true));
}

// How long the answer to 10,000 readers that come and leave is, whether the script was read whole, and the entries.
fn long_answer(alloc: Global) -> Option<(usize, bool, usize)> {
    let script = repeated(alloc, "read a 7\nleave a 7\n", 10_000, "")?;
    let (text, whole, entries) = answered(alloc, 65_536, script.as_bytes())?;
    Some((text.len(), whole, entries))
}

#[test]
fn long_scripts_are_served(rt: HostRuntime) {
    assert!(rt; long_answer(rt.alloc()) == Some((210_000, true, 20_000)));
}
