//! The durable part that a content stands for.
ghost use Rattle.std.specs.Prelude.{◌≡◌, ◌++◌, ◌<◌, ◌≤◌, ◌==◌, [], ◌∷◌, map, filter, IfOk, OnOk, if◌then◌else◌};
ghost use Rattle.std.specs.List.{AllByRecursion};
ghost use Rattle.admission_model.specs.Durable.{AreRising, put_cells};
ghost use Rattle.store_rows.specs.Rows.{cell_before};
ghost use Rattle.store_rows.specs.Sorted.{IsRising};
ghost use Rattle.store_content.specs.Content.{IsContent, IsNotice, announced_cells, durable_cell, durable_in, finished_cells, is_in_place, misplaced_cells, phase_of, session_of, table_cells};

use crate::cells::{ANNOUNCED, FINISHED};
use admission_core::{Durable, DurableCell, Phase, Session};
use durable_keeper::put_cells;
use std::alloc::{AllocError, Global};
use store_rows::{Content, Stage, StoredCell, StoredNotice, StoredSession};

/// A slot that names no counter at any site.
const NAMELESS: u16 = 65535;

/// The durable part that a content stands for: its counters and those of its notices by record and slot, and its
/// sessions in order of their places. Where counters of the table have slots from 300 on, the first of them stands at
/// the slot 65,535, so that no site begins from it. Linear.
pub fn durable_of(alloc: Global, content: &Content) -> Result<Durable, AllocError>
    ensures { IfOk result (λ d. IsContent content.now → d ≡ durable_in content.now) }
{
    let own = table_cells(alloc, &content.cells)?;
    let finished = finished_cells(alloc, &content.notices)?;
    let announced = announced_cells(alloc, &content.notices)?;
    let cells = put_cells(alloc, &finished, &own)?;
    let cells = put_cells(alloc, &announced, &cells)?;
    let sessions = sessions_from(alloc, &content.sessions)?;
    Ok(Durable::new(cells, sessions))
}

fn phase_of(stage: Stage) -> Phase
    ensures { result ≡ phase_of stage }
{
    match stage {
        Stage::Reader => Phase::Reader,
        Stage::Waiting => Phase::Waiting,
        Stage::Writer => Phase::Writer,
    }
}

// The counters at their places.
fn placed_cells(alloc: Global, cells: &[StoredCell]) -> Result<Vec<DurableCell>, AllocError>
    ensures { IfOk result (λ all. all.items ≡ map durable_cell (filter is_in_place cells.now)) }
{
    cells
        .iter()
        .filter(|cell| cell.slot < ANNOUNCED)
        .map(|cell| DurableCell {
            r: cell.r,
            slot: cell.slot,
            value: cell.n,
        })
        .collect(alloc)
}

// The first counter that is not at its place, if there is one, at a slot that names none.
fn misplaced_cells(alloc: Global, cells: &[StoredCell]) -> Result<Vec<DurableCell>, AllocError>
    ensures { IfOk result (λ all. all.items ≡ misplaced_cells cells.now) }
{
    let mut all = Vec::new(alloc);
    for cell in cells {
        if cell.slot >= ANNOUNCED {
            all.push(DurableCell {
                r: cell.r,
                slot: NAMELESS,
                value: cell.n,
            })?;
            return Ok(all);
        }
    }
    Ok(all)
}

fn table_cells(alloc: Global, cells: &[StoredCell]) -> Result<Vec<DurableCell>, AllocError>
    ensures { IsRising cell_before cells.now → IfOk result (λ all. all.items ≡ table_cells cells.now) }
{
    let placed = placed_cells(alloc, cells)?;
    let misplaced = misplaced_cells(alloc, cells)?;
    let all = put_cells(alloc, &misplaced, &placed)?;
    Ok(all)
}

fn sessions_from(alloc: Global, sessions: &[StoredSession]) -> Result<Vec<Session>, AllocError>
    ensures { IfOk result (λ all. all.items ≡ map session_of sessions.now) }
{
    sessions
        .iter()
        .map(|session| Session {
            r: session.r,
            h: session.h,
            phase: phase_of(session.stage),
        })
        .collect(alloc)
}

// Adds a cell, unless its value is 0.
fn push_moved(cells: &mut Vec<DurableCell>, cell: DurableCell) -> Result<(), AllocError>
    ensures { OnOk result (cells.new.items ≡ (if cell.value == 0 then cells.old.items else cells.old.items ++ cell ∷ [])) }
{
    if cell.value == 0 {
        return Ok(());
    }
    cells.push(cell)?;
    Ok(())
}

fn announced_cells(alloc: Global, notices: &[StoredNotice]) -> Result<Vec<DurableCell>, AllocError>
    ensures { AllByRecursion IsNotice notices.now → IfOk result (λ all. all.items ≡ announced_cells notices.now) }
{
    let mut cells = Vec::new(alloc);
    for notice in notices {
        let cell = DurableCell {
            r: notice.r,
            slot: ANNOUNCED.wrapping_add(notice.site),
            value: notice.announced,
        };
        push_moved(&mut cells, cell)?;
    }
    Ok(cells)
}

fn finished_cells(alloc: Global, notices: &[StoredNotice]) -> Result<Vec<DurableCell>, AllocError>
    ensures { AllByRecursion IsNotice notices.now → IfOk result (λ all. all.items ≡ finished_cells notices.now) }
{
    let mut cells = Vec::new(alloc);
    for notice in notices {
        let cell = DurableCell {
            r: notice.r,
            slot: FINISHED.wrapping_add(notice.site),
            value: notice.finished,
        };
        push_moved(&mut cells, cell)?;
    }
    Ok(cells)
}
