//! The rows that a single change puts, large contents, and rows that are those of no site.
use super::{First, Step, content, empty, plan};
use admission_core::{DurableCell, Phase, Session, SessionChange};
use std::alloc::{AllocError, Global};
use store_content::{Index, durable_of};
use store_rows::{Content, SessionEdit, Stage, StoredCell, StoredNotice, StoredSession};

/// Whether a change of a content puts just these rows.
fn puts(
    alloc: Global,
    content: &Content,
    step: Step,
    cells: &[StoredCell],
    notices: &[StoredNotice],
    edit: Option<SessionEdit>,
) -> Result<bool, AllocError> {
    let Some(index) = Index::of(alloc, content)? else {
        return Ok(false);
    };
    match plan(alloc, &index, step)? {
        Some(rows) => Ok(
            rows.cells.as_slice() == cells
                && rows.notices.as_slice() == notices
                && rows.edit == edit,
        ),
        None => Ok(false),
    }
}

/// Whether a change of both numbers of a notice puts its row once.
fn puts_a_notice_once(alloc: Global) -> Result<bool, AllocError> {
    let step = Step {
        cells: &[cell!(3, 200, 1), cell!(3, 302, 5), cell!(3, 402, 4)],
        session: None,
    };
    puts(
        alloc,
        &empty(alloc),
        step,
        &[stored!(3, 200, 1)],
        &[notice!(3, 2, 5, 4)],
        None,
    )
}

/// 256 records with a notice of each of 16 sites.
fn fill_notices(notices: &mut Vec<StoredNotice>) -> Result<(), AllocError> {
    for i in 0..4096u16 {
        notices.push(notice!(i / 16, i % 16, 2, 1))?;
    }
    Ok(())
}

/// 2,000 sessions.
fn fill_sessions(sessions: &mut Vec<StoredSession>) -> Result<(), AllocError> {
    for place in 1..=2000u64 {
        sessions.push(placed!(0, place, Reader, place))?;
    }
    Ok(())
}

/// These notices and sessions.
fn large(alloc: Global) -> Result<Content, AllocError> {
    let mut content = empty(alloc);
    fill_notices(&mut content.notices)?;
    fill_sessions(&mut content.sessions)?;
    Ok(content)
}

/// Whether a session that comes gets the place after that of the last.
fn has_a_place(alloc: Global, content: &Content) -> Result<bool, AllocError> {
    let wanted = Some(SessionEdit::Put(placed!(1, 1, Reader, 2001)));
    puts(alloc, content, put!(1, 1, Reader), &[], &[], wanted)
}

/// How many counters and sessions a content stands for, and the counter at place 33.
fn sizes(
    alloc: Global,
    content: &Content,
) -> Result<(usize, usize, Option<DurableCell>), AllocError> {
    let durable = durable_of(alloc, content)?;
    let there = durable.cells().get(33).copied();
    Ok((durable.cells().len(), durable.sessions().len(), there))
}

/// Whether a session has a place in a large content, and its sizes.
fn of_large(alloc: Global) -> Result<(bool, (usize, usize, Option<DurableCell>)), AllocError> {
    let content = large(alloc)?;
    let has_place = has_a_place(alloc, &content)?;
    Ok((has_place, sizes(alloc, &content)?))
}

#[test]
fn one_change_puts_its_rows(rt: HostRuntime) {
    assert_eq!(rt; puts_a_notice_once(rt.alloc()), Ok(true));
}

#[test]
fn a_large_content_is_taken(rt: HostRuntime) {
    let wanted = (true, (8192, 2000, Some(cell!(1, 301, 2))));
    assert_eq!(rt; of_large(rt.alloc()), Ok(wanted));
}

// ---- counters out of their place

/// Two counters at their places, two at slots from 300 on, one of them a notice's, and that notice.
const MISPLACED: First = First {
    cells: &[
        stored!(0, 1, 5),
        stored!(0, 300, 7),
        stored!(1, 420, 2),
        stored!(2, 0, 3),
    ],
    notices: &[notice!(0, 0, 4, 1)],
    sessions: &[],
};

/// What they tell: the first of the two stands at the last slot, which names nothing.
static TOLD: [DurableCell; 5] = [
    cell!(0, 1, 5),
    cell!(0, 300, 4),
    cell!(0, 400, 1),
    cell!(0, 65535, 7),
    cell!(2, 0, 3),
];

/// Whether a content is that of some site and stands for these counters.
fn tells(alloc: Global, first: First, cells: &[DurableCell]) -> Result<bool, AllocError> {
    let content = content(alloc, first)?;
    let durable = durable_of(alloc, &content)?;
    Ok(Index::of(alloc, &content)?.is_some() && durable.cells() == cells)
}

#[test]
fn counters_out_of_their_place_name_nothing(rt: HostRuntime) {
    assert_eq!(rt; tells(rt.alloc(), MISPLACED, &TOLD), Ok(true));
}

// ---- rows of no site

macro_rules! of_cells {
    ($($cell:expr),+) => {
        First {
            cells: &[$($cell),+],
            notices: &[],
            sessions: &[],
        }
    };
}

macro_rules! of_notices {
    ($($notice:expr),+) => {
        First {
            cells: &[],
            notices: &[$($notice),+],
            sessions: &[],
        }
    };
}

macro_rules! of_sessions {
    ($($session:expr),+) => {
        First {
            cells: &[],
            notices: &[],
            sessions: &[$($session),+],
        }
    };
}

// Each kind of content that is none of a site.
static NONE_OF_A_SITE: [First; 9] = [
    of_cells!(stored!(0, 1, 1), stored!(0, 1, 1)),
    of_notices!(notice!(1, 0, 1, 1), notice!(0, 1, 1, 1)),
    of_notices!(notice!(0, 16, 1, 1)),
    of_notices!(notice!(0, 1, 1 << 63, 1)),
    of_notices!(notice!(0, 1, 1, 1 << 63)),
    of_sessions!(placed!(0, 1, Reader, 0)),
    of_sessions!(placed!(0, 1, Reader, (1 << 62) + 1)),
    of_sessions!(placed!(0, 1, Reader, 2), placed!(0, 2, Reader, 2)),
    of_sessions!(
        placed!(0, 1, Reader, 2),
        placed!(1, 1, Reader, 3),
        placed!(0, 1, Reader, 4)
    ),
];

fn is_of_a_site(alloc: Global, first: First) -> Result<bool, AllocError> {
    Ok(Index::of(alloc, &content(alloc, first)?)?.is_some())
}

/// The first of these contents that is not refused.
fn accepted(alloc: Global) -> Option<usize> {
    NONE_OF_A_SITE
        .iter()
        .position(|first| is_of_a_site(alloc, *first) != Ok(false))
}

#[test]
fn other_contents_are_refused(rt: HostRuntime) {
    assert_eq!(rt; accepted(rt.alloc()), None);
}
