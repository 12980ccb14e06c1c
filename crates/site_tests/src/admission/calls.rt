//! What each call of a site answers, and what it changes.
use super::sites::{
    Answer, TWO_SITES, is_same, kept, serve, site, sizes, sizes_after_restart, told,
};
use crate::layouts::{Counters, delta};
use admission_core::*;
use merge_core::{Delta, Row};
use std::alloc::Global;

// An ask, its answer, the slots and values that rise, and the session that comes, changes or goes.
type Step = (Ask, Answer, [Option<(u16, u64)>; 2], Option<SessionChange>);

// At a site with both seats: the slot of a counter is the site that the seats went to, 200 for seats taken, 201
// for writers announced and 202 for those finished.
const STEPS: [Step; 11] = [
    (
        Ask::Read { r: 0, h: 1 },
        Answer::Admitted,
        [Some((200, 1)), None],
        Some(SessionChange::Put(Session {
            r: 0,
            h: 1,
            phase: Phase::Reader,
        })),
    ),
    (
        Ask::Announce { r: 0, h: 2 },
        Answer::Announced(1),
        [Some((201, 1)), None],
        Some(SessionChange::Put(Session {
            r: 0,
            h: 2,
            phase: Phase::Waiting,
        })),
    ),
    (
        Ask::Quill { r: 0, h: 2 },
        Answer::Refused(Refusal::MissingSeats {
            rights: 1,
            seats: 2,
        }),
        [None, None],
        None,
    ),
    (
        Ask::Leave { r: 0, h: 1 },
        Answer::Left(Phase::Reader),
        [Some((0, 3)), None],
        Some(SessionChange::Removed(Session {
            r: 0,
            h: 1,
            phase: Phase::Reader,
        })),
    ),
    (
        Ask::Quill { r: 0, h: 2 },
        Answer::Admitted,
        [Some((200, 3)), None],
        Some(SessionChange::Put(Session {
            r: 0,
            h: 2,
            phase: Phase::Writer,
        })),
    ),
    (
        Ask::Leave { r: 0, h: 2 },
        Answer::Left(Phase::Writer),
        [Some((0, 5)), Some((202, 1))],
        Some(SessionChange::Removed(Session {
            r: 0,
            h: 2,
            phase: Phase::Writer,
        })),
    ),
    (
        Ask::Announce { r: 0, h: 3 },
        Answer::Announced(2),
        [Some((201, 2)), None],
        Some(SessionChange::Put(Session {
            r: 0,
            h: 3,
            phase: Phase::Waiting,
        })),
    ),
    (
        Ask::Leave { r: 0, h: 3 },
        Answer::Left(Phase::Waiting),
        [Some((202, 2)), None],
        Some(SessionChange::Removed(Session {
            r: 0,
            h: 3,
            phase: Phase::Waiting,
        })),
    ),
    (
        Ask::Help { r: 0 },
        Answer::Gave { to: 1, seats: 1 },
        [Some((1, 1)), None],
        None,
    ),
    (
        Ask::Give {
            r: 0,
            to: 1,
            seats: 1,
        },
        Answer::Given,
        [Some((1, 2)), None],
        None,
    ),
    (
        Ask::Give {
            r: 0,
            to: 1,
            seats: 1,
        },
        Answer::Refused(Refusal::TooFewRights { rights: 0 }),
        [None, None],
        None,
    ),
];

// The slot and the value of a cell.
fn slot_of(cell: Option<&DurableCell>) -> Option<(u16, u64)> {
    cell.map(|cell| (cell.slot, cell.value))
}

// The slots and values of a change of two cells at most.
fn slots(change: &Change) -> Option<[Option<(u16, u64)>; 2]> {
    if change.cells().len() > 2 {
        return None;
    }
    Some([
        slot_of(change.cells().get(0)),
        slot_of(change.cells().get(1)),
    ])
}

type Slots = [Option<(u16, u64)>; 2];

// What a change has, if it is empty where it has nothing.
fn parts(change: &Change) -> Option<(Slots, Option<SessionChange>)> {
    let slots = slots(change)?;
    let session = change.session();
    if change.is_empty() != (slots == [None, None] && session.is_none()) {
        return None;
    }
    Some((slots, session))
}

// What a call leads to, prepared and carried out by hand, if both give the same answer.
fn carried_out(core: &mut SiteCore, ask: Ask) -> Option<Step> {
    let call = Call::Ask(ask);
    let prepared = core.prepare(&call);
    let answer = told(prepared.reply());
    let parts = parts(prepared.change());
    if told(&core.apply(prepared)) != answer {
        return None;
    }
    let (slots, session) = parts?;
    Some((ask, answer, slots, session))
}

fn is_step(one: &Step, other: &Step) -> bool {
    one == other
}

// The first of these steps that goes otherwise.
fn first_other(core: &mut SiteCore, steps: &[Step]) -> Option<Option<(usize, Step)>> {
    for (k, step) in steps.iter().enumerate() {
        let other = carried_out(core, step.0)?;
        if !is_step(&other, step) {
            return Some(Some((k, other)));
        }
    }
    Some(None)
}

fn first_of_all(alloc: Global, steps: &[Step]) -> Option<Option<(usize, Step)>> {
    first_other(&mut site(alloc, TWO_SITES, 0)?, steps)
}

fn is_answered_so(core: &mut SiteCore, steps: &[Step]) -> bool {
    for step in steps {
        if serve(core, step.0) != step.1 {
            return false;
        }
    }
    true
}

// The site after all steps by its public calls, if they are answered so.
fn served(alloc: Global, steps: &[Step]) -> Option<SiteCore> {
    let mut core = site(alloc, TWO_SITES, 0)?;
    is_answered_so(&mut core, steps).then_some(core)
}

// A row of two sites as numbers: record, site, rights, and what was taken, announced and finished.
type Seen = (u16, u16, [u64; 2], [u64; 3]);

fn seen(row: &Row) -> Option<Seen> {
    let out = row.out.as_slice();
    let rights = [*out.get(0)?, *out.get(1)?];
    Some((row.r, row.s, rights, [row.taken, row.ann, row.fin]))
}

// The label and the only row of a delta.
fn only_row(delta: &Delta) -> Option<(u16, Seen)> {
    if delta.rows().len() != 1 {
        return None;
    }
    Some((delta.from_site(), seen(delta.rows().get(0)?)?))
}

fn served_and_told(alloc: Global, steps: &[Step]) -> Option<(u16, Seen)> {
    only_row(&served(alloc, steps)?.snapshot().ok()?)
}

fn copy_of(alloc: Global, kept: &Durable) -> Option<Durable> {
    let copy = kept.try_copy(alloc).ok()?;
    is_same(&copy, kept).then_some(copy)
}

// What the site keeps after all steps, copied and taken apart.
fn served_and_kept(alloc: Global, steps: &[Step]) -> Option<(Vec<DurableCell>, Vec<Session>)> {
    let left = kept(&served(alloc, steps)?)?;
    Some(copy_of(alloc, &left)?.into_parts())
}

const KEPT: [DurableCell; 5] = [
    DurableCell {
        r: 0,
        slot: 0,
        value: 5,
    },
    DurableCell {
        r: 0,
        slot: 1,
        value: 2,
    },
    DurableCell {
        r: 0,
        slot: 200,
        value: 3,
    },
    DurableCell {
        r: 0,
        slot: 201,
        value: 2,
    },
    DurableCell {
        r: 0,
        slot: 202,
        value: 2,
    },
];

fn keeps_the_cells(alloc: Global, steps: &[Step]) -> Option<(bool, usize)> {
    let (cells, sessions) = served_and_kept(alloc, steps)?;
    Some((cells.as_slice() == KEPT.as_slice(), sessions.len()))
}

// After all steps two seats came back of the two of the grant and a reader's one, two went to site 1, and three were
// taken.
#[test]
fn each_ask_has_its_change(rt: HostRuntime) {
    let steps: &[Step] = &STEPS;
    assert!(rt; first_of_all(rt.alloc(), steps) == Some(None));
    let row = (0, 0, [5, 2], [3, 2, 2]);
    assert!(rt; served_and_told(rt.alloc(), steps) == Some((0, row)));
    assert!(rt; keeps_the_cells(rt.alloc(), steps) == Some((true, 0)));
}

// What the site tells and keeps when a reader's call is prepared, which is then carried out.
fn sizes_between(core: &mut SiteCore) -> Option<[usize; 3]> {
    let call = Call::Ask(Ask::Read { r: 0, h: 1 });
    let prepared = core.prepare(&call);
    let between = sizes(core);
    let _ = core.apply(prepared);
    between
}

// The same before the call, when it is prepared, and when it is carried out.
fn prepared_and_applied(alloc: Global) -> Option<[[usize; 3]; 3]> {
    let mut core = site(alloc, TWO_SITES, 0)?;
    let before = sizes(&core)?;
    let between = sizes_between(&mut core)?;
    Some([before, between, sizes(&core)?])
}

#[test]
fn a_prepared_call_changes_nothing(rt: HostRuntime) {
    assert!(rt; prepared_and_applied(rt.alloc()) == Some([[0, 0, 0], [0, 0, 0], [1, 1, 1]]));
}

// Site 0 gave site 1 a seat, took one, and announced a writer.
const TOLD: Counters = (0, 0, &[2, 1], [1, 1, 0]);

// The counters of that which a fresh site 1 keeps.
const KEPT_OF_TOLD: [DurableCell; 2] = [
    DurableCell {
        r: 0,
        slot: 100,
        value: 1,
    },
    DurableCell {
        r: 0,
        slot: 300,
        value: 1,
    },
];

fn is_change(change: &Change, cells: &[DurableCell]) -> bool {
    change.session().is_none() && change.cells() == cells
}

// The answer to a call, prepared and carried out by hand, and whether it changes these counters alone.
fn answer_and_change(core: &mut SiteCore, call: &Call, cells: &[DurableCell]) -> (Answer, bool) {
    let prepared = core.prepare(call);
    let same = is_change(prepared.change(), cells);
    (told(&core.apply(prepared)), same)
}

fn hears_and_keeps(alloc: Global) -> Option<(Answer, bool)> {
    let call = Call::Merge(delta(alloc, TOLD)?);
    let mut core = site(alloc, TWO_SITES, 1)?;
    Some(answer_and_change(&mut core, &call, &KEPT_OF_TOLD))
}

// Three counters rise, of which the site keeps the seat that was sent to it and the notice.
#[test]
fn a_merge_has_its_change(rt: HostRuntime) {
    assert!(rt; hears_and_keeps(rt.alloc()) == Some((Answer::Merged(3), true)));
}

// What a site that merged a delta and admitted a reader tells and keeps.
fn sizes_with_reader(core: &mut SiteCore, delta: &Delta) -> Option<[usize; 3]> {
    let _ = core.merge(delta);
    if serve(core, Ask::Read { r: 0, h: 7 }) != Answer::Admitted {
        return None;
    }
    sizes(core)
}

// The same before and after a restart, and what the site answers to the same delta again.
fn restarted(alloc: Global) -> Option<([usize; 3], [usize; 3], Answer)> {
    let delta = delta(alloc, TOLD)?;
    let mut core = site(alloc, TWO_SITES, 1)?;
    let before = sizes_with_reader(&mut core, &delta)?;
    let after = sizes_after_restart(&mut core)?;
    Some((before, after, told(&core.merge(&delta))))
}

// It forgets the seat that site 0 took, and nothing that it keeps.
#[test]
fn a_restart_forgets_what_is_not_kept(rt: HostRuntime) {
    assert!(rt; restarted(rt.alloc()) == Some(([2, 3, 1], [2, 3, 1], Answer::Merged(1))));
}

// The answer to the snapshot as a call, and whether it changes nothing.
fn snapshot_answer(core: &mut SiteCore) -> (Answer, bool) {
    let prepared = core.prepare(&Call::Snapshot);
    let unchanged = prepared.change().is_empty();
    (told(&core.apply(prepared)), unchanged)
}

// The site's own number, and the sites of its layout and of its book.
fn numbers(core: &SiteCore) -> [u16; 3] {
    [core.site(), core.layout().sites(), core.book().sites()]
}

fn looked_at(alloc: Global) -> Option<((Answer, bool), [u16; 3])> {
    let mut core = site(alloc, TWO_SITES, 1)?;
    let answer = snapshot_answer(&mut core);
    Some((answer, numbers(&core)))
}

#[test]
fn a_fresh_site_tells_nothing(rt: HostRuntime) {
    let want = ((Answer::Rows(0), true), [1, 2, 2]);
    assert!(rt; looked_at(rt.alloc()) == Some(want));
}

// The plan for record 0.
fn plan(core: &SiteCore) -> Option<Plan> {
    if core.layout().records().is_empty() {
        return None;
    }
    core.plan(0)
}

fn reason(core: &SiteCore, ask: Ask) -> Option<Refusal> {
    core.reason(&Call::Ask(ask))
}

// The reasons of a reader, of a hand-over and of a snapshot, none of which changes anything.
fn reasons(core: &SiteCore) -> [Option<Refusal>; 3] {
    let hand_over = Ask::Give {
        r: 1,
        to: 1,
        seats: 1,
    };
    [
        reason(core, Ask::Read { r: 0, h: 1 }),
        reason(core, hand_over),
        core.reason(&Call::Snapshot),
    ]
}

fn plan_and_reasons(alloc: Global) -> Option<(Option<Plan>, [Option<Refusal>; 3])> {
    let core = site(alloc, TWO_SITES, 0)?;
    Some((plan(&core), reasons(&core)))
}

// One seat is above the even share.
#[test]
fn a_site_tells_its_plan_and_reasons(rt: HostRuntime) {
    let plan = Some(Plan { to: 1, seats: 1 });
    let want = (plan, [None, Some(Refusal::NoRecord), None]);
    assert!(rt; plan_and_reasons(rt.alloc()) == Some(want));
}

// The notice of a writer at site 0 sends all seats of site 1 there.
fn plan_to_a_writer(alloc: Global) -> Option<Option<Plan>> {
    let mut core = site(alloc, TWO_SITES, 1)?;
    let _ = core.merge(&delta(alloc, TOLD)?);
    Some(plan(&core))
}

#[test]
fn a_plan_goes_to_the_writer(rt: HostRuntime) {
    assert!(rt; plan_to_a_writer(rt.alloc()) == Some(Some(Plan { to: 0, seats: 1 })));
}
