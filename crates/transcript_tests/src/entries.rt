//! The lines of entries: each call and each reply, with numbers at their limits, is written as its text and read back as
//! it was; a line that is no entry is refused.
use crate::lines::OPENING;
use crate::texts::{TWO_RECORDS, are_kept, layout_of, refused_line};
use admission_core::{Ask, Call, Durable, Phase, Refusal, Reply};
use desk_log::{Entries, Entry, Run, Runs, Transcript};
use grow_counters::Counts;
use merge_core::{Delta, Layout, Row};
use std::alloc::Global;

// A call. What is merged is what site 1 of three tells.
#[derive(Clone, Copy)]
enum Asked {
    Ask(Ask),
    Merge,
    Send,
}

// A reply. A snapshot tells what site 1 of three tells.
#[derive(Clone, Copy)]
enum Said {
    Admitted,
    Announced(u64),
    Left(Phase),
    Given,
    Gave(u16, u64),
    Merged(u64),
    Snapshot,
    Refused(Refusal),
}

// A call and its pass, and the texts of both.
static CALLS: [(Asked, u16, &str, &str); 12] = [
    (Asked::Ask(Ask::Read { r: 0, h: 7 }), 0, "read a 7", "0"),
    (
        Asked::Ask(Ask::Announce { r: 0, h: 0 }),
        1,
        "announce a 0",
        "1",
    ),
    (
        Asked::Ask(Ask::Quill { r: 1, h: u64::MAX }),
        65_535,
        "write stock-2 18446744073709551615",
        "65535",
    ),
    (Asked::Ask(Ask::Leave { r: 0, h: 5 }), 63, "leave a 5", "63"),
    (
        Asked::Ask(Ask::Give {
            r: 0,
            to: 1,
            seats: 3,
        }),
        0,
        "give a 1 3",
        "0",
    ),
    (
        Asked::Ask(Ask::Give {
            r: 1,
            to: 65_535,
            seats: u64::MAX,
        }),
        0,
        "give stock-2 65535 18446744073709551615",
        "0",
    ),
    (Asked::Ask(Ask::Help { r: 0 }), 0, "help a", "0"),
    (Asked::Ask(Ask::Help { r: 2 }), 0, "help ?2", "0"),
    (
        Asked::Ask(Ask::Read { r: 65_535, h: 0 }),
        0,
        "read ?65535 0",
        "0",
    ),
    (
        Asked::Ask(Ask::Give {
            r: 300,
            to: 0,
            seats: 1,
        }),
        0,
        "give ?300 0 1",
        "0",
    ),
    (
        Asked::Merge,
        0,
        "take {\\\"from\\\":1,\\\"rows\\\":[{\\\"ann\\\":1,\\\"fin\\\":0,\\\"out\\\":[0,0,0],\\\"r\\\":0,\\\"s\\\":1,\\\"taken\\\":0}],\\\"v\\\":1}",
        "0",
    ),
    (Asked::Send, 0, "send", "0"),
];

// A reply, and its text.
static REPLIES: [(Said, &str); 41] = [
    (Said::Admitted, "admitted"),
    (Said::Announced(1), "announced 1"),
    (Said::Announced(u64::MAX), "announced 18446744073709551615"),
    (Said::Left(Phase::Reader), "left reader"),
    (Said::Left(Phase::Writer), "left writer"),
    (Said::Left(Phase::Waiting), "withdrawn"),
    (Said::Given, "given"),
    (Said::Gave(1, 2), "gave 1 2"),
    (
        Said::Gave(65_535, u64::MAX),
        "gave 65535 18446744073709551615",
    ),
    (Said::Merged(0), "merged 0"),
    (Said::Merged(u64::MAX), "merged 18446744073709551615"),
    (
        Said::Snapshot,
        "{\\\"from\\\":1,\\\"rows\\\":[{\\\"ann\\\":1,\\\"fin\\\":0,\\\"out\\\":[0,0,0],\\\"r\\\":0,\\\"s\\\":1,\\\"taken\\\":0}],\\\"v\\\":1}",
    ),
    (Said::Refused(Refusal::NoRecord), "refused NoRecord"),
    (Said::Refused(Refusal::BadHolder), "refused BadHolder"),
    (Said::Refused(Refusal::AlreadyHere), "refused AlreadyHere"),
    (Said::Refused(Refusal::CounterFull), "refused CounterFull"),
    (
        Said::Refused(Refusal::TooManyWriters),
        "refused TooManyWriters",
    ),
    (Said::Refused(Refusal::NotAnnounced), "refused NotAnnounced"),
    (
        Said::Refused(Refusal::AlreadyInside),
        "refused AlreadyInside",
    ),
    (Said::Refused(Refusal::NotHere), "refused NotHere"),
    (Said::Refused(Refusal::NoSite), "refused NoSite"),
    (Said::Refused(Refusal::ToSelf), "refused ToSelf"),
    (Said::Refused(Refusal::ZeroSeats), "refused ZeroSeats"),
    (Said::Refused(Refusal::NoPlan), "refused NoPlan"),
    (Said::Refused(Refusal::Memory), "refused Memory"),
    (Said::Refused(Refusal::Frozen), "refused Frozen"),
    (Said::Refused(Refusal::LogFull), "refused LogFull"),
    (Said::Refused(Refusal::StoreFault), "refused StoreFault"),
    (
        Said::Refused(Refusal::WriterAnnounced { site: 1 }),
        "refused WriterAnnounced 1",
    ),
    (
        Said::Refused(Refusal::WriterAnnounced { site: 65_535 }),
        "refused WriterAnnounced 65535",
    ),
    (
        Said::Refused(Refusal::NoSeat { rights: u64::MAX }),
        "refused NoSeat 18446744073709551615",
    ),
    (
        Said::Refused(Refusal::MissingSeats {
            rights: 2,
            seats: 3,
        }),
        "refused MissingSeats 2 3",
    ),
    (
        Said::Refused(Refusal::MissingSeats {
            rights: u64::MAX,
            seats: u32::MAX,
        }),
        "refused MissingSeats 18446744073709551615 4294967295",
    ),
    (
        Said::Refused(Refusal::TooFewRights { rights: u64::MAX }),
        "refused TooFewRights 18446744073709551615",
    ),
    (
        Said::Refused(Refusal::OtherLayout { row: 0 }),
        "refused OtherLayout 0",
    ),
    (
        Said::Refused(Refusal::OtherLayout { row: usize::MAX }),
        "refused OtherLayout 18446744073709551615",
    ),
    (
        Said::Refused(Refusal::BadRow { row: 3 }),
        "refused BadRow 3",
    ),
    (
        Said::Refused(Refusal::BadRow { row: usize::MAX }),
        "refused BadRow 18446744073709551615",
    ),
    (
        Said::Refused(Refusal::OwnRowAhead { rec: 0 }),
        "refused OwnRowAhead 0",
    ),
    (
        Said::Refused(Refusal::OwnRowAhead { rec: 65_535 }),
        "refused OwnRowAhead 65535",
    ),
    (
        Said::Refused(Refusal::NoSeat { rights: 0 }),
        "refused NoSeat 0",
    ),
];

// A call, the number of a pass and a reply that are no entry: a number is one above its limit, or the spelling is
// another one.
static OTHER_LINES: [(&str, &str, &str); 42] = [
    ("read a 18446744073709551616", "0", "admitted"),
    ("give a 65536 1", "0", "given"),
    ("give a 1 18446744073709551616", "0", "given"),
    ("help ?1", "0", "refused NoRecord"),
    ("help ?65536", "0", "refused NoRecord"),
    ("help b", "0", "refused NoRecord"),
    ("help ", "0", "refused NoRecord"),
    ("read a 07", "0", "admitted"),
    ("read a +7", "0", "admitted"),
    ("read a -7", "0", "admitted"),
    ("read a  7", "0", "admitted"),
    ("Read a 7", "0", "admitted"),
    ("quill a 7", "0", "admitted"),
    ("0 read a 7", "0", "admitted"),
    ("restart", "0", "restarted"),
    ("take 0", "0", "merged 0"),
    ("take ", "0", "merged 0"),
    (
        "take {\\\"from\\\":16,\\\"rows\\\":[],\\\"v\\\":1}",
        "0",
        "merged 0",
    ),
    ("send ", "0", "admitted"),
    ("", "0", "admitted"),
    ("send", "65536", "admitted"),
    ("send", "00", "admitted"),
    ("send", "", "admitted"),
    ("send", "0", "admitted "),
    ("send", "0", ""),
    ("send", "0", "announced 18446744073709551616"),
    ("send", "0", "gave 65536 1"),
    ("send", "0", "gave 1 18446744073709551616"),
    ("send", "0", "merged 18446744073709551616"),
    ("send", "0", "refused WriterAnnounced 65536"),
    ("send", "0", "refused NoSeat 18446744073709551616"),
    ("send", "0", "refused MissingSeats 1 4294967296"),
    ("send", "0", "refused MissingSeats 18446744073709551616 1"),
    ("send", "0", "refused TooFewRights 18446744073709551616"),
    ("send", "0", "refused OtherLayout 18446744073709551616"),
    ("send", "0", "refused BadRow 18446744073709551616"),
    ("send", "0", "refused OwnRowAhead 65536"),
    ("send", "0", "refused NoMessage"),
    ("send", "0", "refused NoSeat"),
    ("send", "0", "sent 0"),
    ("send", "0", "restarted"),
    ("s\\end", "0", "admitted"),
];

// What site 1 of three tells: a writer is announced there.
fn message(alloc: Global) -> Option<Delta> {
    let out = Counts::from_vec(Vec::from_slice(alloc, &[0u64, 0, 0]).ok()?);
    let mut rows = Vec::new(alloc);
    rows.push(Row {
        r: 0,
        s: 1,
        out,
        taken: 0,
        ann: 1,
        fin: 0,
    })
    .ok()?;
    Delta::new(1, rows).ok()
}

fn call_of(alloc: Global, asked: Asked) -> Option<Call> {
    Some(match asked {
        Asked::Ask(ask) => Call::Ask(ask),
        Asked::Merge => Call::Merge(message(alloc)?),
        Asked::Send => Call::Snapshot,
    })
}

fn reply_of(alloc: Global, said: Said) -> Option<Reply> {
    Some(match said {
        Said::Admitted => Reply::Admitted,
        Said::Announced(number) => Reply::Announced(number),
        Said::Left(phase) => Reply::Left(phase),
        Said::Given => Reply::Given,
        Said::Gave(to, seats) => Reply::Gave { to, seats },
        Said::Merged(risen) => Reply::Merged(risen),
        Said::Snapshot => Reply::Snapshot(message(alloc)?),
        Said::Refused(refusal) => Reply::Refused(refusal),
    })
}

// A run of a site of three that begins with nothing and has this entry.
fn run_with(alloc: Global, entry: Entry) -> Option<Run> {
    let mut entries = Vec::new(alloc);
    entries.push(entry).ok()?;
    Some(Run {
        sites: 3,
        first: Durable::new(Vec::new(alloc), Vec::new(alloc)),
        entries: Entries::from_vec(entries),
    })
}

// Three transcripts, of which that of site 1 has this run, and the others none.
fn transcripts_with(alloc: Global, run: Run) -> Option<Vec<Transcript>> {
    let mut all = Vec::new(alloc);
    for site in 0..3u16 {
        let runs = Runs::from_vec(Vec::new(alloc));
        all.push(Transcript { site, runs }).ok()?;
    }
    let mut runs = Vec::new(alloc);
    runs.push(run).ok()?;
    all.get_mut(1)?.runs = Runs::from_vec(runs);
    Some(all)
}

// The lines of a run of site 1 with one entry.
fn text_of(alloc: Global, call: &str, pass: &str, reply: &str) -> Option<String> {
    let mut text = String::from_str(alloc, OPENING).ok()?;
    for part in [
        "{\"call\":\"",
        call,
        "\",\"pass\":",
        pass,
        ",\"reply\":\"",
        reply,
        "\"}\n",
    ] {
        text.push_str(part).ok()?;
    }
    Some(text)
}

// Whether an entry is written as this text, and read back as it was.
fn is_kept(alloc: Global, layout: &Layout, entry: Entry, text: &str) -> Option<bool> {
    let transcripts = transcripts_with(alloc, run_with(alloc, entry)?)?;
    are_kept(alloc, layout, transcripts.as_slice(), text)
}

// The same of a call of a pass.
fn is_call_kept(
    alloc: Global,
    layout: &Layout,
    (asked, pass): (Asked, u16),
    (call, number): (&str, &str),
) -> Option<bool> {
    let text = text_of(alloc, call, number, "admitted")?;
    let call = call_of(alloc, asked)?;
    let reply = Reply::Admitted;
    is_kept(alloc, layout, Entry { pass, call, reply }, text.as_str())
}

// The same of a reply.
fn is_reply_kept(alloc: Global, layout: &Layout, said: Said, reply: &str) -> Option<bool> {
    let text = text_of(alloc, "send", "0", reply)?;
    let call = Call::Snapshot;
    let reply = reply_of(alloc, said)?;
    let pass = 0;
    is_kept(alloc, layout, Entry { pass, call, reply }, text.as_str())
}

// The first call of the table that is not kept.
fn first_lost_call(alloc: Global) -> Option<Option<usize>> {
    let layout = layout_of(alloc, 3, &TWO_RECORDS)?;
    for (k, (asked, pass, call, number)) in CALLS.iter().enumerate() {
        if !is_call_kept(alloc, &layout, (*asked, *pass), (*call, *number))? {
            return Some(Some(k));
        }
    }
    Some(None)
}

// The first reply of the table that is not kept.
fn first_lost_reply(alloc: Global) -> Option<Option<usize>> {
    let layout = layout_of(alloc, 3, &TWO_RECORDS)?;
    for (k, (said, reply)) in REPLIES.iter().enumerate() {
        if !is_reply_kept(alloc, &layout, *said, *reply)? {
            return Some(Some(k));
        }
    }
    Some(None)
}

// The first line of the table that is not refused.
fn first_read_line(alloc: Global) -> Option<Option<usize>> {
    let layout = layout_of(alloc, 3, &TWO_RECORDS)?;
    for (k, (call, pass, reply)) in OTHER_LINES.iter().enumerate() {
        let text = text_of(alloc, *call, *pass, *reply)?;
        if refused_line(alloc, &layout, text.as_bytes())? != 2 {
            return Some(Some(k));
        }
    }
    Some(None)
}

#[test]
fn each_call_and_each_reply_come_back(rt: HostRuntime) {
    let call = first_lost_call(rt.alloc());
    assert!(rt; call == Some(None), "{call:?}");
    let reply = first_lost_reply(rt.alloc());
    assert!(rt; reply == Some(None), "{reply:?}");
}

#[test]
fn other_lines_are_no_entries(rt: HostRuntime) {
    let read = first_read_line(rt.alloc());
    assert!(rt; read == Some(None), "{read:?}");
}
