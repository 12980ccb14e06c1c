//! The closed logs that a run writes: they are read again, and judged again. Those of two linked sites have the calls of
//! their runners.
use crate::runs::{ONE_SITE, ending};
use admission_core::{Ask, Call, Reply};
use desk_log::{Entry, Transcript};
use exit_status::Status;
use judge_engine::{Cut, judge_engine};
use layout_file::read_layout;
use std::alloc::Global;
use std::sync::Wait;
use std::thread::Threads;
use test_streams::texts::{THREE_SITES, TWO_SITES};
use test_streams::{Giving, Keeping, NEVER};
use text_input::{Sink, Source};
use transcript_reader::read_transcripts;

// The logs of a script, if it was carried out under a layout with so many turns a link.
fn logs_of<Rt: Threads + Wait + Sync>(
    rt: &Rt,
    alloc: Global,
    at: (&str, u64),
    script: &str,
) -> Option<Keeping> {
    let mut reader = Giving::new(script.as_bytes(), NEVER);
    let mut writer = Keeping::new(alloc, NEVER);
    let mut logs = Keeping::new(alloc, NEVER);
    let mut sink = Some(Sink::new(&mut logs));
    match ending(rt, alloc, at, &mut reader, &mut writer, &mut sink)? {
        Status::Done => Some(logs),
        _ => None,
    }
}

// The log of a script at one site, which has no links.
const ONE_LOG: &str = "\
{\"book\":\"{\\\"from\\\":0,\\\"rows\\\":[],\\\"v\\\":1}\",\"sessions\":[],\"site\":0,\"sites\":1}\n\
{\"call\":\"read a 1\",\"pass\":0,\"reply\":\"admitted\"}\n\
{\"call\":\"leave a 1\",\"pass\":0,\"reply\":\"left reader\"}\n";

fn is_logged<Rt: Threads + Wait + Sync>(rt: &Rt, alloc: Global) -> Option<bool> {
    let logs = logs_of(rt, alloc, (ONE_SITE, 30), "0 read a 1\n0 leave a 1\n")?;
    Some(logs.bytes() == ONE_LOG.as_bytes())
}

#[test]
fn the_log_of_one_site_is_written(rt: HostRuntime) {
    assert!(rt; is_logged(&rt, rt.alloc()) == Some(true));
}

// A layout, a script whose replies may depend on the schedule, and how many calls of callers there are.
static SCRIPTS: [(&str, &str, usize); 3] = [
    (
        TWO_SITES,
        "1 announce a 5\n0 read a 1\n1 write a 5\n0 leave a 1\n1 write a 5\n1 leave a 5\n0 help a\n",
        7,
    ),
    (
        THREE_SITES,
        "2 announce a 1\n1 announce a 1\n0 read a 1\n0 give a 2 1\n2 read a 7\n1 write a 1\n2 leave a 1\n",
        7,
    ),
    (THREE_SITES, "", 0),
];

// How many entries callers made.
fn count_calls(transcripts: &[Transcript]) -> usize {
    let mut count = 0usize;
    for transcript in transcripts {
        for run in transcript.runs.as_slice() {
            for entry in run.entries.as_slice() {
                count = count.saturating_add(usize::from(entry.pass == 0));
            }
        }
    }
    count
}

// Whether the logs are those of a transcript for each site, with so many calls of callers.
fn are_read_again(alloc: Global, toml: &str, logs: &[u8], calls: usize) -> Option<bool> {
    let layout = read_layout(alloc, toml.as_bytes()).ok()?;
    let transcripts = read_transcripts(alloc, &layout, logs).ok()?;
    let mut runs = 0usize;
    for transcript in transcripts.as_slice() {
        runs = runs.saturating_add(transcript.runs.len());
    }
    Some(runs == usize::from(layout.sites()) && count_calls(transcripts.as_slice()) == calls)
}

// Whether the judge finds the logs consistent.
fn are_consistent(alloc: Global, toml: &str, logs: &[u8]) -> Option<bool> {
    let layout = read_layout(alloc, toml.as_bytes()).ok()?;
    let mut reader = Giving::new(logs, NEVER);
    let mut writer = Keeping::new(alloc, NEVER);
    let ended = judge_engine(
        alloc,
        &layout,
        &Cut::full(),
        &mut Source::new(&mut reader),
        &mut Sink::new(&mut writer),
    );
    Some(ended == Status::Done && writer.bytes().ends_with(b"\nconsistent\n"))
}

fn are_judged_again<Rt: Threads + Wait + Sync>(
    rt: &Rt,
    alloc: Global,
    row: &(&str, &str, usize),
) -> Option<bool> {
    let (toml, script, calls) = *row;
    let logs = logs_of(rt, alloc, (toml, 30), script)?;
    Some(
        are_read_again(alloc, toml, logs.bytes(), calls)?
            && are_consistent(alloc, toml, logs.bytes())?,
    )
}

#[test]
fn logs_are_read_and_judged_again(rt: HostRuntime) {
    for row in &SCRIPTS {
        assert!(rt; are_judged_again(&rt, rt.alloc(), row) == Some(true));
    }
}

// What the runners of a site called: for help, for a snapshot, to merge, and anything else.
#[derive(Clone, Copy, Debug, PartialEq, Eq)]
struct Calls {
    help: u32,
    snapshot: u32,
    merge: u32,
    other: u32,
}

// Whether a pass may be an outbox's, and whether it may be an inbox's. Pass 0 is the caller's; at each of two sites pass 1 is
// the outbox's, and pass 2 the inbox's.
fn may_be(sites: u16, pass: u16) -> (bool, bool) {
    if sites == 2 {
        (pass == 1, pass == 2)
    } else {
        (pass > 0, pass > 0)
    }
}

// One call more.
fn count_entry(calls: &mut Calls, sites: u16, entry: &Entry) {
    if entry.pass == 0 {
        return;
    }
    let count = match (may_be(sites, entry.pass), &entry.call) {
        ((true, _), Call::Ask(Ask::Help { .. })) => &mut calls.help,
        ((true, _), Call::Snapshot) => &mut calls.snapshot,
        ((_, true), Call::Merge(_)) => &mut calls.merge,
        _ => &mut calls.other,
    };
    *count = count.saturating_add(1);
}

// What the runners of a site, of so many, called in its last run.
fn calls_of(sites: u16, transcript: &Transcript) -> Option<Calls> {
    let mut calls = Calls {
        help: 0,
        snapshot: 0,
        merge: 0,
        other: 0,
    };
    for entry in transcript.runs.as_slice().last()?.entries.as_slice() {
        count_entry(&mut calls, sites, entry);
    }
    Some(calls)
}

// What the runners of each site called.
fn linked_calls<Rt: Threads + Wait + Sync>(
    rt: &Rt,
    alloc: Global,
    at: (&str, u64),
    script: &str,
) -> Option<Vec<Calls>> {
    let logs = logs_of(rt, alloc, at, script)?;
    let layout = read_layout(alloc, at.0.as_bytes()).ok()?;
    let transcripts = read_transcripts(alloc, &layout, logs.bytes()).ok()?;
    let mut all = Vec::new(alloc);
    for transcript in transcripts.as_slice() {
        all.push(calls_of(layout.sites(), transcript)?).ok()?;
    }
    Some(all)
}

// Whether the runners of each of so many sites called that.
fn call_so<Rt: Threads + Wait + Sync>(
    rt: &Rt,
    alloc: Global,
    at: (&str, u64),
    sites: usize,
    each: Calls,
) -> Option<bool> {
    let found = linked_calls(rt, alloc, at, "1 announce a 5\n0 read a 1\n")?;
    let mut as_many = 0usize;
    for calls in found.as_slice() {
        as_many = as_many.saturating_add(usize::from(*calls == each));
    }
    Some(as_many == sites && found.len() == sites)
}

// A layout and the turns of each of its links; how many sites there are; and how often the runners of each site call.
type Turns = ((&'static str, u64), usize, u32);

// A few turns, and the most that there may be.
static TURNS: [Turns; 4] = [
    ((TWO_SITES, 30), 2, 30),
    ((THREE_SITES, 30), 3, 60),
    ((TWO_SITES, 1000), 2, 1000),
    ((THREE_SITES, 1000), 3, 2000),
];

// Each two sites are linked both ways: in each turn of a link its sender asks itself to help and tells, and its receiver
// hears.
#[test]
fn sites_tell_each_other_at_each_turn(rt: HostRuntime) {
    for (at, sites, times) in &TURNS {
        let each = Calls {
            help: *times,
            snapshot: *times,
            merge: *times,
            other: 0,
        };
        assert!(rt;
            call_so(&rt, rt.alloc(), *at, *sites, each) == Some(true),
            "{sites} sites, {times} calls"
        );
    }
}

// Whether some merge of a site's log told it of something new.
fn heard_news(transcript: &Transcript) -> Option<bool> {
    let mut heard = false;
    for entry in transcript.runs.as_slice().last()?.entries.as_slice() {
        if let Reply::Merged(raised) = &entry.reply {
            heard = heard || *raised > 0;
        }
    }
    Some(heard)
}

// Whether each site but the first heard something new.
fn all_heard<Rt: Threads + Wait + Sync>(rt: &Rt, alloc: Global) -> Option<bool> {
    let logs = logs_of(rt, alloc, (THREE_SITES, 30), "")?;
    let layout = read_layout(alloc, THREE_SITES.as_bytes()).ok()?;
    let transcripts = read_transcripts(alloc, &layout, logs.bytes()).ok()?;
    let mut all = transcripts.len() == 3;
    for transcript in transcripts.as_slice() {
        all = all && (transcript.site == 0 || heard_news(transcript)?);
    }
    Some(all)
}

// Site 0 has all seats at first, and gives some before it tells: both others hear of it.
#[test]
fn each_of_three_sites_hears_of_the_first(rt: HostRuntime) {
    assert!(rt; all_heard(&rt, rt.alloc()) == Some(true));
}

// How often a site's log merges what a site told.
fn merges_of(transcript: &Transcript, site: u16) -> Option<usize> {
    let mut count = 0usize;
    for entry in transcript.runs.as_slice().last()?.entries.as_slice() {
        if let Call::Merge(delta) = &entry.call {
            count = count.saturating_add(usize::from(delta.from_site() == site));
        }
    }
    Some(count)
}

// Whether each of three sites merges what each other one told in each of 30 turns, and nothing that it told itself.
fn all_linked<Rt: Threads + Wait + Sync>(rt: &Rt, alloc: Global) -> Option<bool> {
    let logs = logs_of(rt, alloc, (THREE_SITES, 30), "")?;
    let layout = read_layout(alloc, THREE_SITES.as_bytes()).ok()?;
    let transcripts = read_transcripts(alloc, &layout, logs.bytes()).ok()?;
    let mut all = transcripts.len() == 3;
    for transcript in transcripts.as_slice() {
        for site in 0..3 {
            let wanted = if site == transcript.site { 0 } else { 30 };
            all = all && merges_of(transcript, site)? == wanted;
        }
    }
    Some(all)
}

// No two links lead the same way, and none ends where it begins.
#[test]
fn each_of_three_sites_hears_each_other(rt: HostRuntime) {
    assert!(rt; all_linked(&rt, rt.alloc()) == Some(true));
}

// A layout of two sites with 20 records.
fn twenty_records(alloc: Global) -> Option<String> {
    let mut toml = String::new(alloc);
    toml.push_str("sites = 2\n").ok()?;
    for name in "abcdefghijklmnopqrst".chars() {
        toml.push_str("[[record]]\nname = \"").ok()?;
        toml.push(name).ok()?;
        toml.push_str("\"\nseats = 2\nhome = 0\nproblem = 1\n")
            .ok()?;
    }
    Some(toml)
}

// The records that the outbox of a site asked it to help with, in order. At each of two sites it has pass 1.
fn helped(alloc: Global, transcript: &Transcript) -> Option<Vec<u16>> {
    let mut records = Vec::new(alloc);
    for entry in transcript.runs.as_slice().last()?.entries.as_slice() {
        if entry.pass == 1 {
            if let Call::Ask(Ask::Help { r }) = &entry.call {
                records.push(*r).ok()?;
            }
        }
    }
    Some(records)
}

// The first record of some that follow one another, and how many there are. Two rounds of 15 turns: before each, help is
// asked for the records of its turns in the run, and in it for those of its own turns.
static HELPED: [(u16, u16); 5] = [(0, 15), (0, 15), (15, 5), (0, 10), (0, 15)];

// The records that are to be helped.
fn wanted(alloc: Global) -> Option<Vec<u16>> {
    let mut records = Vec::new(alloc);
    for (first, count) in &HELPED {
        for n in 0..*count {
            records.push(first.saturating_add(n)).ok()?;
        }
    }
    Some(records)
}

// At how many sites of two the outbox asked for help with these records, in this order.
fn count_helped<Rt: Threads + Wait + Sync>(rt: &Rt, alloc: Global) -> Option<usize> {
    let toml = twenty_records(alloc)?;
    let logs = logs_of(rt, alloc, (toml.as_str(), 30), "")?;
    let layout = read_layout(alloc, toml.as_bytes()).ok()?;
    let transcripts = read_transcripts(alloc, &layout, logs.bytes()).ok()?;
    let wanted = wanted(alloc)?;
    let mut sites = 0usize;
    for transcript in transcripts.as_slice() {
        let found = helped(alloc, transcript)?;
        sites = sites.saturating_add(usize::from(found.as_slice() == wanted.as_slice()));
    }
    Some(sites)
}

// In 30 turns each of 20 records has its turn at both sites.
#[test]
fn each_record_has_its_turn(rt: HostRuntime) {
    assert!(rt; count_helped(&rt, rt.alloc()) == Some(2));
}
