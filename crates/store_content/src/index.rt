//! What is remembered of a store's content between calls, so that a change needs no query.
ghost use Rattle.std.specs.Prelude.{◌≡◌, ℕ, ◌≤◌, ◌↔◌, ◌++◌, List, [], ◌∷◌, length, max, Some, None, Ok, IsSome, IfOk, OnOk, IfSome, MatchResult, if◌then◌else◌};
ghost use Rattle.std.specs.List.{IsDistinct};
ghost use Rattle.std.specs.Map.{keys_of, lookup};
ghost use Rattle.indexmap.specs.IndexMap.{spare};
ghost use Rattle.admission_model.specs.Durable.{AreRising};
ghost use Rattle.admission_core.specs.Kept.{ChangeState};
ghost use Rattle.store_rows.specs.declared.content.StoredNotice.{StoredNotice};
ghost use Rattle.store_rows.specs.Rows.{Stored, notice_before, session_before};
ghost use Rattle.store_rows.specs.Sorted.{IsRising, put_all};
ghost use Rattle.store_rows.specs.Changes.{edited};
ghost use Rattle.store_content.specs.Content.{IsContent, IsOnce, notice_in, place_in, stage_for};
ghost use Rattle.store_content.specs.Known.{HasRoom, IsPlaceFor, IsPlacedEdit, Knows, greatest_value, is_place, same_key};
ghost use Rattle.store_content.specs.Plan.{IsPlan, IsPlanned, IsTellable, LacksPlace, Makes, after, begins_row, edit_of, notices_of, row_after, site_at};

use crate::cells::{ANNOUNCED, FINISHED, begins_row, site_at, stored_cells, value_at};
use crate::checks::{MOST_PLACES, has_rows};
use crate::rows::Rows;
use admission_core::{Change, DurableCell, Phase, Session, SessionChange};
use indexmap::IndexMap;
use std::alloc::{AllocError, Global};
use store_rows::{Content, SessionEdit, Stage, StoredNotice, StoredSession};

/// The places of sessions by record and holder.
type Places = IndexMap<(u16, u64), u64>;

/// The notices by record and site.
type Notices = IndexMap<(u16, u16), StoredNotice>;

/// What is remembered of the content of a site's store: the place of each session, the greatest place, and the
/// notices. With it the rows of a change are found without a look into the store.
#[derive(Debug, Drop)]
pub struct Index {
    places: Places,
    notices: Notices,
    greatest: u64,
}

// There is no place left for a session.
#[derive(Clone, Copy, Debug)]
struct Full;

fn stage_for(phase: Phase) -> Stage
    ensures { result ≡ stage_for phase }
{
    match phase {
        Phase::Reader => Stage::Reader,
        Phase::Waiting => Stage::Waiting,
        Phase::Writer => Stage::Writer,
    }
}

impl Index {
    /// The index of a content without sessions and notices, as a new store's is. Takes no memory.
    pub fn new(alloc: Global) -> Index
        ensures { (it : Stored) → it.sessions ≡ [] → it.notices ≡ [] → Knows result it }
    {
        Index {
            places: IndexMap::new(alloc),
            notices: IndexMap::new(alloc),
            greatest: 0,
        }
    }

    /// The index of a content, or `None` where it is not that of a site: where counters, notices or sessions do not
    /// rise, a notice's site is past 15 or one of its numbers 2^63 or more, a place is 0 or past 2^62, or a holder
    /// stands twice at a record. Linear in the content.
    pub fn of(alloc: Global, content: &Content) -> Result<Option<Index>, AllocError>
        ensures content { IfOk result (λ found. IsSome found ↔ IsContent content.now) }
        ensures knows { IfOk result (λ found. IfSome found (λ index. Knows index content.now)) }
    {
        if !has_rows(content) {
            return Ok(None);
        }
        let Some(places) = places_of(alloc, &content.sessions)? else {
            return Ok(None);
        };
        let notices = known_notices(alloc, &content.notices)?;
        let greatest = greatest_of(&places);
        Ok(Some(Index {
            places,
            notices,
            greatest,
        }))
    }

    /// The rows of a change, or `None` where its session is new and the greatest place is 2^62. A session that comes
    /// gets the place after the greatest, and one that is there keeps its own. Linear in the change, with a binary
    /// search in it for each counter of a notice.
    pub fn plan(&self, alloc: Global, change: &Change) -> Result<Option<Rows>, AllocError>
        ensures rows { (it : Stored) → Knows self.now it → IsTellable change.now → IfOk result (IsPlanned change.now it) }
        ensures law { (it : Stored) → Knows self.now it → IsContent it → IsTellable change.now → IfOk result (λ found. IfSome found (Makes change.now it)) }
        ensures full { (it : Stored) → Knows self.now it → LacksPlace change.now.session it → result ≡ Ok None }
    {
        let Ok(edit) = self.edit_of(change.session()) else {
            return Ok(None);
        };
        let cells = stored_cells(alloc, change.cells())?;
        let notices = self.notices_of(alloc, change.cells())?;
        Ok(Some(Rows {
            cells,
            notices,
            edit,
        }))
    }

    /// Room for what [`advance`](Index::advance) takes in of these rows, or want of memory. What is known stays.
    pub fn reserve(&mut self, rows: &Rows) -> Result<(), AllocError>
        ensures room { OnOk result (HasRoom self.new rows.now) }
        ensures knows { (it : Stored) → Knows self.old it → Knows self.new it }
    {
        self.places.reserve(1)?;
        self.notices.reserve(rows.notices.len())?;
        Ok(())
    }

    /// Takes in the rows of a change that was made of the content, for which there is room. Takes no memory. Linear in
    /// the rows, and once in the sessions where the one of the greatest place goes.
    pub fn advance(&mut self, rows: &Rows)
        requires { HasRoom self.old rows.now }
        ensures { (c : ChangeState) → (it : Stored) → Knows self.old it → IsContent it → IsPlan c it rows.now → Knows self.new (after rows.now it) }
    {
        put_notices(&mut self.notices, &rows.notices);
        if let Some(edit) = rows.edit {
            self.take_edit(edit);
        }
    }

    // The place of a session that is put.
    fn place_for(&self, r: u16, h: u64) -> Result<u64, Full>
        ensures { (it : Stored) → Knows self.now it → IsPlaceFor r h it result }
    {
        if let Some(place) = self.places.get(&(r, h)) {
            return Ok(*place);
        }
        if self.greatest < MOST_PLACES {
            Ok(self.greatest + 1)
        } else {
            Err(Full)
        }
    }

    // The edit of a session that is put or removed.
    fn edit_of(&self, change: Option<SessionChange>) -> Result<Option<SessionEdit>, Full>
        ensures { (it : Stored) → Knows self.now it → MatchResult result (λ edit. (edit ≡ edit_of change it) × (¬ LacksPlace change it)) (λ _. LacksPlace change it) }
    {
        match change {
            None => Ok(None),
            Some(SessionChange::Put(session)) => {
                let place = self.place_for(session.r, session.h)?;
                Ok(Some(SessionEdit::Put(StoredSession {
                    r: session.r,
                    h: session.h,
                    stage: stage_for(session.phase),
                    place,
                })))
            }
            Some(SessionChange::Removed(session)) => Ok(Some(SessionEdit::Dropped {
                r: session.r,
                h: session.h,
            })),
        }
    }

    // What is known of a site's writers at a record after a change of these cells.
    fn row_after(&self, cells: &[DurableCell], r: u16, site: u16) -> StoredNotice
        requires { site ≤ 65135 }
        ensures { (it : Stored) → Knows self.now it → AreRising cells.now → result ≡ row_after cells.now it r site }
    {
        let known = self.notices.get(&(r, site)).copied();
        let announced = known.map_or(0, |notice| notice.announced);
        let finished = known.map_or(0, |notice| notice.finished);
        StoredNotice {
            r,
            site,
            announced: value_at(cells, r, ANNOUNCED + site).unwrap_or(announced),
            finished: value_at(cells, r, FINISHED + site).unwrap_or(finished),
        }
    }

    // Adds the row of a cell, one of those of a change, where it begins one.
    fn push_row(
        &self,
        rows: &mut Vec<StoredNotice>,
        cells: &[DurableCell],
        cell: DurableCell,
    ) -> Result<(), AllocError>
        ensures { (it : Stored) → Knows self.now it → AreRising cells.now
            → OnOk result (rows.new.items ≡ (if begins_row cells.now cell then rows.old.items ++ row_after cells.now it cell.r (site_at cell.slot) ∷ [] else rows.old.items)) }
    {
        if !begins_row(cells, cell) {
            return Ok(());
        }
        rows.push(self.row_after(cells, cell.r, site_at(cell.slot)))?;
        Ok(())
    }

    // The notices of which a counter changes, as they are after the change.
    fn notices_of(
        &self,
        alloc: Global,
        cells: &[DurableCell],
    ) -> Result<Vec<StoredNotice>, AllocError>
        ensures { (it : Stored) → Knows self.now it → AreRising cells.now → IfOk result (λ rows. rows.items ≡ notices_of cells.now it) }
    {
        let mut rows = Vec::new(alloc);
        for cell in cells {
            self.push_row(&mut rows, cells, *cell)?;
        }
        Ok(rows)
    }

    // Takes in an edit of a session, whose place is its own or the next.
    fn take_edit(&mut self, edit: SessionEdit)
        requires { 1 ≤ spare self.old.places }
        ensures { (it : Stored) → Knows self.old it → IsRising session_before it.sessions → IsOnce it.sessions → IsPlacedEdit edit it.sessions
            → Knows self.new (record it { sessions = edited (Some edit) it.sessions }) }
    {
        match edit {
            SessionEdit::Put(session) => self.put_session(session),
            SessionEdit::Dropped { r, h } => self.drop_session(r, h),
        }
    }

    fn put_session(&mut self, session: StoredSession)
        requires { 1 ≤ spare self.old.places }
        ensures places { (r h : ℕ) → lookup (same_key (r, h)) self.new.places.entries
            ≡ (if same_key (session.r, session.h) (r, h) then Some session.place else lookup (same_key (r, h)) self.old.places.entries) }
        ensures unique { IsDistinct same_key (keys_of self.new.places.entries) }
        ensures greatest { self.new.greatest ≡ max self.old.greatest session.place }
        ensures notices { self.new.notices ≡ self.old.notices }
    {
        let _ = self.places.insert((session.r, session.h), session.place);
        self.greatest = self.greatest.max(session.place);
    }

    fn drop_session(&mut self, r: u16, h: u64)
        ensures places { (q g : ℕ) → lookup (same_key (q, g)) self.new.places.entries ≡ (if same_key (r, h) (q, g) then None else lookup (same_key (q, g)) self.old.places.entries) }
        ensures unique { IsDistinct same_key (keys_of self.new.places.entries) }
        ensures greatest { self.new.greatest ≡ (if is_place self.old.greatest (lookup (same_key (r, h)) self.old.places.entries) then greatest_value self.new.places.entries else self.old.greatest) }
        ensures notices { self.new.notices ≡ self.old.notices }
    {
        if self.places.swap_remove(&(r, h)) == Some(self.greatest) {
            self.greatest = greatest_of(&self.places);
        }
    }
}

// The greatest of the places, and 0 where there is none.
fn greatest_of(places: &Places) -> u64
    ensures { result ≡ greatest_value places.now.entries }
{
    places
        .values()
        .fold(0, |greatest, place| greatest.max(*place))
}

// The places of sessions, or `None` where a holder stands twice at a record.
fn places_of(alloc: Global, sessions: &[StoredSession]) -> Result<Option<Places>, AllocError>
    ensures once { IfOk result (λ found. IsSome found ↔ IsOnce sessions.now) }
    ensures places { IfOk result (λ found. IfSome found (λ places. (r h : ℕ) → lookup (same_key (r, h)) places.entries ≡ place_in sessions.now r h)) }
    ensures unique { IfOk result (λ found. IfSome found (λ places. IsDistinct same_key (keys_of places.entries))) }
{
    let mut places = IndexMap::with_capacity(alloc, sessions.len())?;
    let mut left = sessions.len();
    'sessions: while left > 0 {
        left -= 1;
        let session = sessions[left];
        if places
            .insert((session.r, session.h), session.place)?
            .is_some()
        {
            return Ok(None);
        }
    }
    Ok(Some(places))
}

// The notices of a content.
fn known_notices(alloc: Global, notices: &[StoredNotice]) -> Result<Notices, AllocError>
    ensures { IfOk result (λ known. (r j : ℕ) → lookup (same_key (r, j)) known.entries ≡ notice_in notices.now r j) }
{
    let mut known = IndexMap::with_capacity(alloc, notices.len())?;
    let mut left = notices.len();
    'notices: while left > 0 {
        left -= 1;
        let notice = notices[left];
        let _ = known.insert((notice.r, notice.site), notice)?;
    }
    Ok(known)
}

// Puts notices, for which there is room.
fn put_notices(known: &mut Notices, rows: &[StoredNotice])
    requires { length rows.now ≤ spare known.old }
    ensures { (ns : List StoredNotice) → ((r j : ℕ) → lookup (same_key (r, j)) known.old.entries ≡ notice_in ns r j)
        → (r j : ℕ) → lookup (same_key (r, j)) known.new.entries ≡ notice_in (put_all notice_before rows.now ns) r j }
{
    for notice in rows {
        let _ = known.insert((notice.r, notice.site), *notice);
    }
}
