//! The verdicts on logs that are read from their text.
use crate::judged::{has_table, verdict_at};
use log_judge::Verdict;
use std::alloc::Global;
use test_keepers::layout_of;
use transcript_reader::{ReadError, read_transcripts};

// What comes of a text: the number of the first line that is refused, or the verdict.
#[derive(Clone, Copy, Debug, PartialEq, Eq)]
enum Told {
    Refused(u64),
    Judged(Verdict),
}

// A run of site 1 of three begins.
const OPENING: &str =
    "{\"book\":\"{\\\"from\\\":1,\\\"rows\\\":[],\\\"v\\\":1}\",\"sessions\":[],\"site\":1,\"sites\":3}\n";

// The site announces a writer.
const ENTRY: &str = "{\"call\":\"announce a 5\",\"pass\":0,\"reply\":\"announced 1\"}\n";

// A run of site 1 of three begins that knows a reader at site 0, which no site keeps of another.
const MORE: &str =
    "{\"book\":\"{\\\"from\\\":1,\\\"rows\\\":[{\\\"ann\\\":0,\\\"fin\\\":0,\\\"out\\\":[3,0,0],\\\"r\\\":0,\\\"s\\\":0,\\\"taken\\\":1}],\\\"v\\\":1}\",\"sessions\":[],\"site\":1,\"sites\":3}\n";

// The same of a writer at site 0, which is kept.
const NOTICED: &str =
    "{\"book\":\"{\\\"from\\\":1,\\\"rows\\\":[{\\\"ann\\\":1,\\\"fin\\\":0,\\\"out\\\":[3,0,0],\\\"r\\\":0,\\\"s\\\":0,\\\"taken\\\":0}],\\\"v\\\":1}\",\"sessions\":[],\"site\":1,\"sites\":3}\n";

// The site hears of that writer.
const HEARD: &str =
    "{\"call\":\"take {\\\"from\\\":0,\\\"rows\\\":[{\\\"ann\\\":1,\\\"fin\\\":0,\\\"out\\\":[3,0,0],\\\"r\\\":0,\\\"s\\\":0,\\\"taken\\\":0}],\\\"v\\\":1}\",\"pass\":0,\"reply\":\"merged 1\"}\n";

// Three parts of a text, a cut, and what comes of them.
static CASES: [(&str, &str, &str, [u64; 3], Told); 10] = [
    (
        OPENING,
        ENTRY,
        "",
        [0, 1, 0],
        Told::Judged(Verdict::Consistent),
    ),
    (
        OPENING,
        "{\"call\":\"announce a 5\",\"pass\":0,\"reply\":\"announced 2\"}\n",
        "",
        [0, 1, 0],
        Told::Judged(Verdict::BadReply { site: 1, at: 0 }),
    ),
    (OPENING, ENTRY, "", [0, 2, 0], Told::Judged(Verdict::BadCut)),
    (
        OPENING,
        "{\"call\":\"announce a 5\", \"pass\":0,\"reply\":\"announced 1\"}\n",
        "",
        [0, 1, 0],
        Told::Refused(2),
    ),
    (ENTRY, "", "", [0, 1, 0], Told::Refused(1)),
    (
        "{\"book\":\"{\\\"from\\\":1,\\\"rows\\\":[],\\\"v\\\":1}\",\"sessions\":[],\"site\":3,\"sites\":3}\n",
        ENTRY,
        "",
        [0, 1, 0],
        Told::Refused(1),
    ),
    (OPENING, MORE, ENTRY, [0, 1, 0], Told::Refused(2)),
    (
        NOTICED,
        "",
        "",
        [0, 0, 0],
        Told::Judged(Verdict::BadJoint { site: 1 }),
    ),
    (
        OPENING,
        HEARD,
        NOTICED,
        [0, 0, 0],
        Told::Judged(Verdict::Consistent),
    ),
    (
        OPENING,
        HEARD,
        OPENING,
        [0, 0, 0],
        Told::Judged(Verdict::BadJoint { site: 1 }),
    ),
];

static TABLE: &str =
    "site      cut  entries  runs\n   0        0        0     0\n   1        1        1     1\n   2        0        0     0\n";

// What comes of a text and a cut, and whether they have the table.
fn outcome_of(alloc: Global, text: &str, cut: &[u64]) -> Option<(Told, bool)> {
    let layout = layout_of(alloc, 3, 3, 2)?;
    match read_transcripts(alloc, &layout, text.as_bytes()) {
        Ok(all) => {
            let verdict = verdict_at(alloc, &layout, all.as_slice(), cut)?;
            let table = has_table(alloc, all.as_slice(), cut, TABLE);
            Some((Told::Judged(verdict), table))
        }
        Err(ReadError::NotTranscript { line }) => Some((Told::Refused(line), false)),
        Err(ReadError::Memory) => None,
    }
}

// The first case of which something else comes. A text that is judged has the table, but for the cut that is none.
fn first_other(alloc: Global) -> Option<Option<(usize, Told, bool)>> {
    for (k, (front, middle, back, cut, wanted)) in CASES.iter().enumerate() {
        let mut text = String::from_str(alloc, *front).ok()?;
        text.push_str(*middle).ok()?;
        text.push_str(*back).ok()?;
        let (came, table) = outcome_of(alloc, text.as_str(), cut.as_slice())?;
        if came != *wanted || table != (k < 2) {
            return Some(Some((k, came, table)));
        }
    }
    Some(None)
}

#[test]
fn logs_are_judged_from_their_text(rt: HostRuntime) {
    let other = first_other(rt.alloc());
    assert!(rt; other == Some(None), "{other:?}");
}
