//! Changes that are made of a content in turn, and what it holds then.
use super::{First, Step, content, plan};
use admission_core::{Durable, DurableCell, Phase, Session, SessionChange};
use std::alloc::{AllocError, Global};
use store_content::{Index, Rows, durable_of};
use store_rows::{Content, SessionEdit, Stage, StoredCell, StoredNotice, StoredSession};

// What a commit of rows makes of a content.

fn put_cells(cells: &mut Vec<StoredCell>, rows: &[StoredCell]) -> Result<(), AllocError> {
    for row in rows {
        cells.retain(|other| other.r != row.r || other.slot != row.slot);
        cells.push(*row)?;
    }
    cells.sort_unstable_by_key(|cell| (cell.r, cell.slot));
    Ok(())
}

fn put_notices(notices: &mut Vec<StoredNotice>, rows: &[StoredNotice]) -> Result<(), AllocError> {
    for row in rows {
        notices.retain(|other| other.r != row.r || other.site != row.site);
        notices.push(*row)?;
    }
    notices.sort_unstable_by_key(|notice| (notice.r, notice.site));
    Ok(())
}

fn edit(sessions: &mut Vec<StoredSession>, edit: SessionEdit) -> Result<(), AllocError> {
    match edit {
        SessionEdit::Put(session) => {
            sessions.retain(|other| other.r != session.r || other.h != session.h);
            sessions.push(session)?;
            sessions.sort_unstable_by_key(|session| session.place);
        }
        SessionEdit::Dropped { r, h } => sessions.retain(|other| other.r != r || other.h != h),
    }
    Ok(())
}

fn commit(content: &mut Content, rows: &Rows) -> Result<(), AllocError> {
    put_cells(&mut content.cells, &rows.cells)?;
    put_notices(&mut content.notices, &rows.notices)?;
    match rows.edit {
        Some(change) => edit(&mut content.sessions, change),
        None => Ok(()),
    }
}

fn take(content: &mut Content, index: &mut Index, rows: &Rows) -> Result<(), AllocError> {
    index.reserve(rows)?;
    commit(content, rows)?;
    index.advance(rows);
    Ok(())
}

/// Makes changes of a content in turn, and counts those for which there was a place.
fn make_all(alloc: Global, content: &mut Content, steps: &[Step]) -> Result<u64, AllocError> {
    let Some(mut index) = Index::of(alloc, content)? else {
        return Ok(0);
    };
    let mut made: u64 = 0;
    for step in steps {
        if let Some(rows) = plan(alloc, &index, *step)? {
            take(content, &mut index, &rows)?;
            made = made.saturating_add(1);
        }
    }
    Ok(made)
}

/// The sessions of a content, the changes that are made of it, how many of these find a place, and then its notices and
/// sessions, and the counters and sessions that it stands for.
struct Story {
    sessions: &'static [StoredSession],
    steps: &'static [Step],
    made: u64,
    notices: &'static [StoredNotice],
    places: &'static [StoredSession],
    cells: &'static [DurableCell],
    inside: &'static [Session],
}

static STORIES: [Story; 3] = [
    // Counters of each kind, and sessions that come and change, are read back from the rows that were planned.
    Story {
        sessions: &[],
        steps: &[
            put!(
                0,
                8,
                Waiting,
                cell!(0, 0, 5),
                cell!(0, 103, 2),
                cell!(0, 200, 4),
                cell!(0, 201, 1),
                cell!(0, 301, 7),
                cell!(0, 315, 1),
                cell!(0, 401, 6),
                cell!(2, 415, 9)
            ),
            put!(
                0,
                9,
                Reader,
                cell!(0, 15, 1),
                cell!(0, 202, 1),
                cell!(0, 315, 3),
                cell!(0, 415, 2),
                cell!(1, 302, 4)
            ),
            put!(0, 8, Writer, cell!(2, 415, 10)),
        ],
        made: 3,
        notices: &[
            notice!(0, 1, 7, 6),
            notice!(0, 15, 3, 2),
            notice!(1, 2, 4, 0),
            notice!(2, 15, 0, 10),
        ],
        places: &[placed!(0, 8, Writer, 1), placed!(0, 9, Reader, 2)],
        cells: &[
            cell!(0, 0, 5),
            cell!(0, 15, 1),
            cell!(0, 103, 2),
            cell!(0, 200, 4),
            cell!(0, 201, 1),
            cell!(0, 202, 1),
            cell!(0, 301, 7),
            cell!(0, 315, 3),
            cell!(0, 401, 6),
            cell!(0, 415, 2),
            cell!(1, 302, 4),
            cell!(2, 415, 10),
        ],
        inside: &[session!(0, 8, Writer), session!(0, 9, Reader)],
    },
    // The place after the greatest is given again once the last session went, and one before it had gone.
    Story {
        sessions: &[],
        steps: &[
            put!(0, 1, Reader),
            put!(0, 2, Reader),
            put!(0, 3, Reader),
            removed!(0, 2),
            removed!(0, 3),
            put!(7, 3, Reader),
        ],
        made: 6,
        notices: &[],
        places: &[placed!(0, 1, Reader, 1), placed!(7, 3, Reader, 2)],
        cells: &[],
        inside: &[session!(0, 1, Reader), session!(7, 3, Reader)],
    },
    // Past the last place no session comes; one that is there changes and goes, and then one comes.
    Story {
        sessions: &[placed!(1, 4, Reader, 1 << 62)],
        steps: &[
            put!(1, 5, Reader),
            put!(1, 4, Reader),
            removed!(1, 4),
            put!(1, 5, Reader),
        ],
        made: 3,
        notices: &[],
        places: &[placed!(1, 5, Reader, 1)],
        cells: &[],
        inside: &[session!(1, 5, Reader)],
    },
];

/// Which parts of a story are as they are told.
fn agrees(story: &Story, made: u64, content: &Content, durable: &Durable) -> [bool; 5] {
    [
        made == story.made,
        content.notices.as_slice() == story.notices,
        content.sessions.as_slice() == story.places,
        durable.cells() == story.cells,
        durable.sessions() == story.inside,
    ]
}

fn outcome(alloc: Global, story: &Story) -> Result<[bool; 5], AllocError> {
    let first = First {
        cells: &[],
        notices: &[],
        sessions: story.sessions,
    };
    let mut content = content(alloc, first)?;
    let made = make_all(alloc, &mut content, story.steps)?;
    let durable = durable_of(alloc, &content)?;
    Ok(agrees(story, made, &content, &durable))
}

/// The first story that goes otherwise than it is told.
fn wrong_story(alloc: Global) -> Option<usize> {
    STORIES
        .iter()
        .position(|story| outcome(alloc, story) != Ok([true; 5]))
}

#[test]
fn changes_are_read_back(rt: HostRuntime) {
    assert_eq!(rt; wrong_story(rt.alloc()), None);
}
