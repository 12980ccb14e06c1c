//! Three sites behind their locks, of which any one allocation may be refused: a call that finds no memory leaves no entry,
//! and the logs of the others are consistent. `checks/refused_growths.sh judge_tests` refuses each allocation in turn.
use crate::judged::verdict_at;
use crate::posts::three_closed;
use crate::verdicts::{Told, story_of};
use log_judge::{Verdict, full_cut};
use std::alloc::Global;
use std::sync::Wait;
use test_keepers::layout_of;

/// How many entries each of three logs has, and the verdict at their ends.
#[derive(Clone, Copy, Debug)]
struct Ending {
    first: u64,
    second: u64,
    third: u64,
    verdict: Verdict,
}

// What comes of the story, if there is memory to open, close and judge.
fn judged_story<R: Wait>(rt: &R, alloc: Global) -> Option<Ending> {
    let (plan, steps) = story_of(Told::Helped);
    let layout = layout_of(alloc, plan.sites, plan.seats, plan.problem)?;
    let transcripts = three_closed(rt, alloc, plan, (steps, false))?;
    let cut = full_cut(alloc, transcripts.as_slice()).ok()?;
    let verdict = verdict_at(alloc, &layout, transcripts.as_slice(), cut.as_slice())?;
    Some(Ending {
        first: *cut.get(0)?,
        second: *cut.get(1)?,
        third: *cut.get(2)?,
        verdict,
    })
}

// The same; told again where there was no memory.
fn judged_again<R: Wait>(rt: &R, alloc: Global) -> Option<Ending> {
    match judged_story(rt, alloc) {
        None => judged_story(rt, alloc),
        told => told,
    }
}

// Whether the logs are consistent, and have most of the 14 entries: one call may have found no memory, and where a message is
// not sent, what would take it is left out too.
fn is_right(told: Option<Ending>) -> bool {
    let Some(told) = told else {
        return false;
    };
    let right = told.verdict == Verdict::Consistent && told.third == 0;
    right && told.first >= 7 && told.first <= 8 && told.second >= 3 && told.second <= 6
}

#[test]
fn calls_that_find_no_memory_leave_consistent_logs(rt: HostRuntime) {
    let told = judged_again(&rt, rt.alloc());
    assert!(rt; is_right(told), "{told:?}");
}
