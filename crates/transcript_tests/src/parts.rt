//! Parts with which a run may begin, and parts that no site of the layout keeps: these are not written.
use crate::texts::{TWO_RECORDS, layout_of};
use admission_core::{Durable, DurableCell, Phase, Session};
use desk_log::{Entries, Run, Runs, Transcript};
use std::alloc::Global;
use transcript_text::may_be_written;

// Counters by record and slot, sessions of the first record, whether site 0 of three may begin so.
type Part = (&'static [(u16, u16, u64)], &'static [(u64, Phase)], bool);

static PARTS: [Part; 6] = [
    (&[], &[], true),
    (&[(0, 200, 1)], &[(7, Phase::Reader)], true),
    // a counter as it is at the start, one of a record that is not there, and counters that do not rise
    (&[(0, 200, 0)], &[], false),
    (&[(9, 200, 1)], &[], false),
    (&[(0, 200, 1), (0, 200, 1)], &[(7, Phase::Reader)], false),
    // a reader without a seat
    (&[], &[(7, Phase::Reader)], false),
];

fn durable(alloc: Global, cells: &[(u16, u16, u64)], sessions: &[(u64, Phase)]) -> Option<Durable> {
    let mut kept = Vec::new(alloc);
    for (r, slot, value) in cells {
        kept.push(DurableCell {
            r: *r,
            slot: *slot,
            value: *value,
        })
        .ok()?;
    }
    let mut all = Vec::new(alloc);
    for (h, phase) in sessions {
        all.push(Session {
            r: 0,
            h: *h,
            phase: *phase,
        })
        .ok()?;
    }
    Some(Durable::new(kept, all))
}

// Whether the log of a run without entries that begins so may be written.
fn is_written(alloc: Global, part: &Part) -> Option<bool> {
    let (cells, sessions, _) = *part;
    let layout = layout_of(alloc, 3, &TWO_RECORDS)?;
    let mut runs = Vec::new(alloc);
    runs.push(Run {
        sites: 3,
        first: durable(alloc, cells, sessions)?,
        entries: Entries::from_vec(Vec::new(alloc)),
    })
    .ok()?;
    let transcript = Transcript {
        site: 0,
        runs: Runs::from_vec(runs),
    };
    may_be_written(alloc, &layout, &transcript).ok()
}

#[test]
fn a_run_begins_with_what_a_site_keeps(rt: HostRuntime) {
    for (row, part) in PARTS.iter().enumerate() {
        assert!(rt; is_written(rt.alloc(), part) == Some(part.2), "row {row}");
    }
}
