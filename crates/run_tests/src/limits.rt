//! The most lines of a script, and one more; the most sites; and an input past its limit.
use crate::runs::{ONE_SITE, end_of, ending};
use exit_status::Status;
use std::alloc::{AllocError, Global};
use std::sync::Wait;
use std::thread::Threads;
use test_streams::{Giving, Keeping, NEVER};
use text_input::Sink;
use text_parts::push_field;

// A line so many times.
fn repeated(alloc: Global, line: &str, count: u32) -> Result<String, AllocError> {
    let mut text = String::new(alloc);
    for _ in 0..count {
        text.push_str(line)?;
    }
    Ok(text)
}

// A script of so many lines, what is behind it, and how it ends.
static LENGTHS: [(u32, &str, Status); 3] = [
    (16_384, "", Status::Done),
    (16_384, "0 help a\n", Status::Refused),
    (16_384, "nothing", Status::Refused),
];

// What is written of it.
fn output_of(alloc: Global, ended: Status) -> Result<String, AllocError> {
    if ended == Status::Refused {
        return String::from_str(alloc, "line 16385 refused TooManyLines\n");
    }
    let mut output = repeated(alloc, "0: refused NotHere\n", 16_384)?;
    output.push_str("consistent\n")?;
    Ok(output)
}

// Whether it ends so.
fn ends_at<Rt: Threads + Wait + Sync>(
    rt: &Rt,
    alloc: Global,
    row: &(u32, &str, Status),
) -> Result<bool, AllocError> {
    let mut script = repeated(alloc, "0 leave a 1\n", row.0)?;
    script.push_str(row.1)?;
    let output = output_of(alloc, row.2)?;
    let mut writer = Keeping::new(alloc, NEVER);
    let ended = end_of(rt, alloc, (ONE_SITE, 1), script.as_str(), &mut writer);
    Ok(ended == Some(row.2) && writer.bytes() == output.as_bytes())
}

#[test]
fn a_script_has_16384_lines_and_no_more(rt: HostRuntime) {
    for row in &LENGTHS {
        assert!(rt; ends_at(&rt, rt.alloc(), row) == Ok(true));
    }
}

// A reader at the first of so many sites, and a holder at each other who is not there.
fn many_sites(alloc: Global, sites: u64) -> Result<(String, String), AllocError> {
    let mut script = String::new(alloc);
    let mut output = String::from_str(alloc, "0: admitted\n")?;
    for site in 0..sites {
        push_field(&mut script, "", site)?;
        if site > 0 {
            script.push_str(" leave a 1\n")?;
            push_field(&mut output, "", site)?;
            output.push_str(": refused NotHere\n")?;
        } else {
            script.push_str(" read a 1\n")?;
        }
    }
    output.push_str("consistent\n")?;
    Ok((script, output))
}

// Whether 16 sites answer so, over 240 links.
fn are_answered<Rt: Threads + Wait + Sync>(rt: &Rt, alloc: Global) -> Result<bool, AllocError> {
    let toml = "sites = 16\n[[record]]\nname = \"a\"\nseats = 2\nhome = 0\nproblem = 1\n";
    let (script, output) = many_sites(alloc, 16)?;
    let mut writer = Keeping::new(alloc, NEVER);
    let ended = end_of(rt, alloc, (toml, 3), script.as_str(), &mut writer);
    Ok(ended == Some(Status::Done) && writer.bytes() == output.as_bytes())
}

#[test]
fn sixteen_sites_work_at_the_same_time(rt: HostRuntime) {
    assert!(rt; are_answered(&rt, rt.alloc()) == Ok(true));
}

// How many blanks stand behind a line, and what is written.
static LONG: [(usize, &str); 2] = [
    (16_777_205, "line 2 refused BadWord\n"),
    (16_777_206, "input refused TooLong\n"),
];

fn is_refused<Rt: Threads + Wait + Sync>(
    rt: &Rt,
    alloc: Global,
    blanks: usize,
    output: &str,
) -> bool {
    let mut reader = Giving::new(b"0 read a 7\n", NEVER).followed_by(b' ', blanks);
    let mut writer = Keeping::new(alloc, NEVER);
    let mut none: Option<Sink<Keeping>> = None;
    let ended = ending(
        rt,
        alloc,
        (ONE_SITE, 1),
        &mut reader,
        &mut writer,
        &mut none,
    );
    ended == Some(Status::Refused) && writer.bytes() == output.as_bytes()
}

#[test]
fn a_script_past_the_limit_is_refused_whole(rt: HostRuntime) {
    for (blanks, output) in &LONG {
        assert!(rt; is_refused(&rt, rt.alloc(), *blanks, output), "{blanks}");
    }
}
