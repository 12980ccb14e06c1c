//! Answers, with the change and the room that carrying them out needs.
ghost use Rattle.std.specs.Prelude.{◌≡◌, Some, ◌≤◌, ◌+◌, ◌++◌, OnOk};
ghost use Rattle.admission_core.specs.declared.change.SessionChange.TheVariants.{Put};
ghost use Rattle.admission_model.specs.Asked.{operation_put, operation_removed, raised_cell};
ghost use Rattle.admission_model.specs.View.{View};
ghost use Rattle.admission_core.specs.Decided.{ended_phase};
ghost use Rattle.admission_core.specs.Kept.{put_by, removed_by};
ghost use Rattle.admission_core.specs.Prepared.{arrives};

use super::SiteCore;
use crate::change::{Change, SessionChange};
use crate::prepared::Prepared;
use admission_model::{Ask, DurableCell, Operation, Phase, Refusal, Reply, Session};
use merge_core::{Cell, Delta};
use std::alloc::AllocError;

impl SiteCore {
    ghost use Rattle.std.specs.Prelude.{◌≡◌, ◌≤◌, ◌<◌, ℕ, false, length, IfOk, OnOk, IsTrue};
    ghost use Rattle.admission_model.specs.declared.ask.Call.TheVariants.{Ask as AskCall, Merge, Snapshot};
    ghost use Rattle.admission_model.specs.Account.{record_of};
    ghost use Rattle.admission_model.specs.Asked.{operation_cells, operation_change, raised_cell};
    ghost use Rattle.admission_model.specs.Account.{on_phase, weight, writers, seats_in};
    ghost use Rattle.std.specs.Prelude.{◌++◌};
    ghost use Rattle.merge_core.specs.declared.cell.Cell.TheVariants.{Out, Taken, Fin};
    ghost use Rattle.merge_core.specs.Book.{counter_of};
    ghost use Rattle.std.specs.Prelude.{Some};
    ghost use Rattle.admission_core.specs.Core.{Core, core_view, SameContent, is_memory};
    ghost use Rattle.admission_core.specs.Kept.{change_of};
    ghost use Rattle.admission_core.specs.Decided.{ended_phase};
    ghost use Rattle.admission_core.specs.Prepared.{IsReadyFor, IsChangeFor, arrives, has_room};
    ghost use Rattle.admission_core.specs.Carrying.{IsAllowed};

    /// Prepares what a caller asks.
    pub(super) fn prepare_ask<'c>(&mut self, ask: Ask) -> Prepared<'c>
        ensures content { SameContent self.old self.new }
        ensures room { self.old.room ≤ self.new.room }
        ensures ready { IsReadyFor self.new (AskCall ask) result }
        ensures change { IsChangeFor self.old (AskCall ask) result }
    {
        let decision = match self.decide(ask) {
            Ok(decision) => decision,
            Err(refusal) => return Prepared::refused(self.alloc, refusal),
        };
        let operation = decision.operation;
        let Ok(change) = self.make_room(operation, decision.ended) else {
            return Prepared::refused(self.alloc, Refusal::Memory);
        };
        Prepared::doing(decision.answer, change, operation)
    }

    /// Prepares a merge.
    pub(super) fn prepare_merge<'c>(&mut self, delta: &'c Delta) -> Prepared<'c>
        ensures content { SameContent self.old self.new }
        ensures room { self.old.room ≤ self.new.room }
        ensures ready { IsReadyFor self.new (Merge delta.now) result }
        ensures change { IsChangeFor self.old (Merge delta.now) result }
    {
        if let Some(refusal) = self.merge_reason(delta) {
            return Prepared::refused(self.alloc, refusal);
        }
        let Ok(cells) = self.risen_cells(delta) else {
            return Prepared::refused(self.alloc, Refusal::Memory);
        };
        let answer = Reply::Merged(self.raised_by(delta));
        Prepared::hearing(answer, Change::new(cells, None), delta)
    }

    /// Prepares a snapshot.
    pub(super) fn prepare_snapshot<'c>(&mut self) -> Prepared<'c>
        ensures content { SameContent self.old self.new }
        ensures room { self.old.room ≤ self.new.room }
        ensures ready { IsReadyFor self.new Snapshot result }
        ensures change { IsChangeFor self.old Snapshot result }
    {
        let Ok(delta) = self.snapshot() else {
            return Prepared::refused(self.alloc, Refusal::Memory);
        };
        Prepared::answered(self.alloc, Reply::Snapshot(delta))
    }

    /// Makes room for the session that an operation brings, if it brings one.
    pub(super) fn reserve_for(&mut self, operation: Operation) -> Result<(), AllocError>
        ensures content { SameContent self.old self.new }
        ensures place { OnOk result (has_room (Some operation) self.new.room) }
    {
        if arrives(operation) {
            self.sessions.reserve()?;
        }
        Ok(())
    }

    // The change that an operation makes, and room for a session that comes. `ended` is the phase of the session that it ends.
    fn make_room(
        &mut self,
        operation: Operation,
        ended: Option<Phase>,
    ) -> Result<Change, AllocError>
        requires allowed { IsAllowed self.old.book self.old.sessions self.old.site (seats_in self.old.layout (record_of operation)) operation }
        requires ended { ended ≡ ended_phase (core_view self.old) operation }
        ensures content { SameContent self.old self.new }
        ensures room { self.old.room ≤ self.new.room }
        ensures place { OnOk result (IsTrue (arrives operation) → 0 < self.new.room) }
        ensures change { IfOk result (λ c. change_of c ≡ operation_change (core_view self.old) operation) }
    {
        let cells = self.operation_cells(operation, ended)?;
        if arrives(operation) {
            self.sessions.reserve()?;
        }
        Ok(Change::new(cells, session_change(operation, ended)))
    }

    // The cells that an operation raises.
    fn operation_cells(
        &self,
        operation: Operation,
        ended: Option<Phase>,
    ) -> Result<Vec<DurableCell>, AllocError>
        requires allowed { IsAllowed self.now.book self.now.sessions self.now.site (seats_in self.now.layout (record_of operation)) operation }
        requires ended { ended ≡ ended_phase (core_view self.now) operation }
        ensures { IfOk result (λ cells. cells.items ≡ operation_cells (core_view self.now) operation) }
    {
        let mut cells = Vec::new(self.alloc);
        match operation {
            Operation::EnteredRead { r, .. } => self.push_taken(&mut cells, r, 1)?,
            Operation::AnnouncedWriter { r, .. } => {
                push_raised(&mut cells, r, ANNOUNCED, self.own(r, Cell::Ann), 1)?;
            }
            Operation::EnteredWrite { r, .. } => {
                self.push_taken(&mut cells, r, u64::from(self.seats(r)))?;
            }
            Operation::LeftRecord { r, .. } => self.push_left(&mut cells, r, ended)?,
            Operation::GaveSeats { r, to, seats } => {
                push_raised(&mut cells, r, to, self.own(r, Cell::Out(to)), seats)?;
            }
        }
        Ok(cells)
    }

    // The seats taken, where they rise by so many.
    fn push_taken(&self, cells: &mut Vec<DurableCell>, r: u16, by: u64) -> Result<(), AllocError>
        requires record { r < length self.now.layout.records }
        requires few { by ≤ 1000000000000 }
        ensures { OnOk result (cells.new.items ≡ cells.old.items ++ raised_cell r 200 (counter_of self.now.book r self.now.site Taken) by) }
    {
        push_raised(cells, r, TAKEN, self.own(r, Cell::Taken), by)
    }

    // What a session that ends in a phase gives back.
    fn push_left(
        &self,
        cells: &mut Vec<DurableCell>,
        r: u16,
        ended: Option<Phase>,
    ) -> Result<(), AllocError>
        requires { r < length self.now.layout.records }
        ensures { OnOk result (cells.new.items ≡ cells.old.items
            ++ (raised_cell r self.now.site (counter_of self.now.book r self.now.site (Out self.now.site)) (on_phase (weight (seats_in self.now.layout r)) ended)
            ++ raised_cell r 202 (counter_of self.now.book r self.now.site Fin) (on_phase writers ended))) }
    {
        let seats = u64::from(self.seats(r));
        let (weight, writers) = match ended {
            Some(Phase::Reader) => (1, 0),
            Some(Phase::Waiting) => (0, 1),
            Some(Phase::Writer) => (seats, 1),
            None => (0, 0),
        };
        let back = self.own(r, Cell::Out(self.site));
        push_raised(cells, r, self.site, back, weight)?;
        push_raised(cells, r, FINISHED, self.own(r, Cell::Fin), writers)
    }
}

// The session that an operation puts or removes, which ends in this phase, if one ends.
fn session_change(operation: Operation, ended: Option<Phase>) -> Option<SessionChange>
    ensures put { put_by result ≡ operation_put operation }
    ensures removed { (v : View) → ended ≡ ended_phase v operation → removed_by result ≡ operation_removed v operation }
{
    match operation {
        Operation::EnteredRead { r, h } => put(r, h, Phase::Reader),
        Operation::AnnouncedWriter { r, h } => put(r, h, Phase::Waiting),
        Operation::EnteredWrite { r, h } => put(r, h, Phase::Writer),
        Operation::LeftRecord { r, h } => {
            ended.map(|phase| SessionChange::Removed(Session { r, h, phase }))
        }
        Operation::GaveSeats { .. } => None,
    }
}

// A session that comes or changes its phase.
fn put(r: u16, h: u64, phase: Phase) -> Option<SessionChange>
    ensures { result ≡ Some (Put (record { r = r; h = h; phase = phase })) }
{
    Some(SessionChange::Put(Session { r, h, phase }))
}

/// The slots of the site's own row behind those of the seats that it moved.
const TAKEN: u16 = 200;

const ANNOUNCED: u16 = 201;

const FINISHED: u16 = 202;

// The new value of a counter that rises; one that does not gets no cell.
fn push_raised(
    cells: &mut Vec<DurableCell>,
    r: u16,
    slot: u16,
    old: u64,
    by: u64,
) -> Result<(), AllocError>
    requires { old + by ≤ 4000000000000 }
    ensures { OnOk result (cells.new.items ≡ cells.old.items ++ raised_cell r slot old by) }
{
    if by != 0 {
        cells.push(DurableCell {
            r,
            slot,
            value: old + by,
        })?;
    }
    Ok(())
}

// Whether a session comes.
fn arrives(operation: Operation) -> bool
    ensures { result ≡ arrives operation }
{
    matches!(
        operation,
        Operation::EnteredRead { .. } | Operation::AnnouncedWriter { .. }
    )
}
