//! What a store holds, read table by table inside one transaction.
ghost use Rattle.std.specs.Prelude.{◌≡◌, ◌≢◌, ◌↔◌, ◌<◌, ◌^◌, ℕ, List, Bool, [], map, Some, None, Err, pos, All, IsTrue, IfOk, IfSome, IsSome, OnOk};
ghost use Rattle.sqlite_rules.specs.Lists.{Has};
ghost use Rattle.sqlite_value.specs.declared.value.Value.TheVariants.{Int, Text};
ghost use Rattle.sqlite_value.specs.Order.{Row as SqlRow, column};
ghost use Rattle.sqlite.specs.State.{HasCleanDisk, Survives};
ghost use Rattle.sqlite.specs.Held.{state};
ghost use Rattle.sqlite.specs.declared.error.Error.TheVariants.{SqliteFailure};
ghost use Rattle.sqlite.specs.declared.error.ErrorCode.TheVariants.{OutOfMemory};
ghost use Rattle.store_schema.specs.Tables.{IsSchemaOf, meta_tree};
ghost use Rattle.store_rows.specs.Rows.{cell_row, session_row, notice_row, cell_before, session_before, notice_before};
ghost use Rattle.store_rows.specs.Holding.{HoldsParts, IsStoreOf, mark};
ghost use Rattle.std.specs.List.{AllByRecursion};
ghost use Rattle.store_tables.specs.Marking.{ShowsNames};
ghost use Rattle.store_rows.specs.Refusals.{HasRefused};
ghost use Rattle.store_tables.specs.Reads.{is_chain, TellsMark, IsCellInRange, IsSessionInRange, IsNoticeInRange, IsInRange, ReadsTable};
ghost use Rattle.store_tables.specs.declared.reads.Unread.TheVariants.{Bad, Memory, Failed};

use crate::error::is_memory;
use crate::making::version_text;
use sqlite::types::ValueRef;
use sqlite::{Alter, Error, Row, Transaction};
use std::alloc::{AllocError, Global};
use store_rows::{Content, Stage, StoredCell, StoredNotice, StoredSession, Version};

/// Why a store was not read.
pub(crate) enum Unread {
    /// It holds what no store holds.
    Bad,
    Memory,
    /// The database refused a call, and not for want of memory.
    Failed,
}

impl From<AllocError> for Unread {
    ghost from_gives = { λ _ u. u ≡ Memory };

    fn from(_e: AllocError) -> Unread {
        Unread::Memory
    }
}

impl From<Error> for Unread {
    ghost from_gives = { λ e u. (u ≡ Memory ↔ (e ≡ SqliteFailure OutOfMemory)) × (u ≢ Bad) };

    fn from(error: Error) -> Unread {
        if is_memory(error) {
            Unread::Memory
        } else {
            Unread::Failed
        }
    }
}

/// A whole number that is not below 0.
fn whole(row: &Row, at: usize) -> Option<u64>
    ensures sound { IfSome result (λ n. column row.now at ≡ Int (pos n)) }
    ensures found { (n : ℕ) → column row.now at ≡ Int (pos n) → result ≡ Some n }
{
    match row.get_ref(at) {
        Ok(ValueRef::Int(n)) if n >= 0 => Some(n as u64),
        _ => None,
    }
}

/// A whole number up to 65,535.
fn short(row: &Row, at: usize) -> Option<u16>
    ensures sound { IfSome result (λ n. column row.now at ≡ Int (pos n)) }
    ensures found { (n : ℕ) → n < 2 ^ 16 → column row.now at ≡ Int (pos n) → result ≡ Some n }
{
    let n = whole(row, at)?;
    if n > 65535 {
        return None;
    }
    Some(n as u16)
}

/// What stands in a row of a table, in an order of its own.
pub(crate) trait Item: Copy + Drop {
    ghost row_of: { Self → SqlRow };

    ghost before: { Self → Self → Bool };

    // its numbers are such as its columns take
    ghost is_in_range: { Self → Type 0 };

    /// The item of a row, if it is one.
    fn from_row(found: &Row) -> Option<Self>
        ensures sound { IfSome result (λ x. found.now ≡ row_of x) }
        ensures found { (x : Self) → is_in_range x → found.now ≡ row_of x → IsSome result };

    fn comes_before(self, other: Self) -> bool
        ensures { result ≡ before self other };
}

impl Item for StoredCell {
    ghost row_of = { cell_row };

    ghost before = { cell_before };

    ghost is_in_range = { IsCellInRange };

    fn from_row(found: &Row) -> Option<StoredCell> {
        if found.column_count() != 3 {
            return None;
        }
        let r = short(found, 0)?;
        let slot = short(found, 1)?;
        let n = whole(found, 2)?;
        Some(StoredCell { r, slot, n })
    }

    fn comes_before(self, other: StoredCell) -> bool {
        self.is_before(other)
    }
}

impl Item for StoredSession {
    ghost row_of = { session_row };

    ghost before = { session_before };

    ghost is_in_range = { IsSessionInRange };

    fn from_row(found: &Row) -> Option<StoredSession> {
        if found.column_count() != 4 {
            return None;
        }
        let r = short(found, 0)?;
        let h = whole(found, 1)?;
        let stage = Stage::from_number(whole(found, 2)?)?;
        let place = whole(found, 3)?;
        if place == 0 || place > 1 << 62 {
            return None;
        }
        Some(StoredSession { r, h, stage, place })
    }

    fn comes_before(self, other: StoredSession) -> bool {
        self.is_before(other)
    }
}

impl Item for StoredNotice {
    ghost row_of = { notice_row };

    ghost before = { notice_before };

    ghost is_in_range = { IsNoticeInRange };

    fn from_row(found: &Row) -> Option<StoredNotice> {
        if found.column_count() != 4 {
            return None;
        }
        let r = short(found, 0)?;
        let site = short(found, 1)?;
        let announced = whole(found, 2)?;
        let finished = whole(found, 3)?;
        if site > 15 {
            return None;
        }
        Some(StoredNotice {
            r,
            site,
            announced,
            finished,
        })
    }

    fn comes_before(self, other: StoredNotice) -> bool {
        self.is_before(other)
    }
}

/// Whether each item stands before the next.
fn are_rising<T: Item>(items: &[T]) -> bool
    ensures { result ≡ is_chain T.before items.now }
{
    let mut rest = items;
    'items: while let [first, later @ ..] = rest {
        if let [second, ..] = later
            && !first.comes_before(*second)
        {
            return false;
        }
        rest = later;
    }
    true
}

/// The items of rows, if each row is one.
fn items_in<T: Item>(alloc: Global, rows: &[Row]) -> Result<Option<Vec<T>>, AllocError>
    ensures sound { IfOk result (λ found. IfSome found (λ all. map T.row_of all.items ≡ rows.now)) }
    ensures found { ((r : _) → Has rows.now r → (x : _) × T.is_in_range x × (r ≡ T.row_of x)) → IfOk result IsSome }
{
    let mut all = Vec::new(alloc);
    'rows: for found in rows {
        let Some(item) = T::from_row(found) else {
            return Ok(None);
        };
        all.push(item)?;
    }
    Ok(Some(all))
}

/// The items of rows, if each row is one and they rise.
fn rising_in<T: Item>(alloc: Global, rows: &[Row]) -> Result<Vec<T>, Unread>
    ensures rows { IfOk result (λ all. map T.row_of all.items ≡ rows.now) }
    ensures chain { IfOk result (λ all. IsTrue (is_chain T.before all.items)) }
    ensures own { ((r : _) → Has rows.now r → (x : _) × T.is_in_range x × (r ≡ T.row_of x)) → ((all : _) → map T.row_of all ≡ rows.now → IsTrue (is_chain T.before all)) → result ≢ Err Bad }
    ensures unrefused { result ≢ Err Failed }
{
    let Some(all) = items_in::<T>(alloc, rows)? else {
        return Err(Unread::Bad);
    };
    if !are_rising(all.as_slice()) {
        return Err(Unread::Bad);
    }
    Ok(all)
}

/// The counters of a store.
fn read_cells<S: Alter>(
    alloc: Global,
    tx: &mut Transaction<'_, S>,
) -> Result<Vec<StoredCell>, Unread>
    ensures { ReadsTable S.Store (λ p. p.cells) IsCellInRange tx.old result tx.new }
{
    let rows = tx.query_all(
        "SELECT record, slot, n FROM cells ORDER BY record, slot",
        &[],
    )?;
    rising_in(alloc, rows.as_slice())
}

/// The sessions of a store, in order of arrival.
fn read_sessions<S: Alter>(
    alloc: Global,
    tx: &mut Transaction<'_, S>,
) -> Result<Vec<StoredSession>, Unread>
    ensures { ReadsTable S.Store (λ p. p.sessions) IsSessionInRange tx.old result tx.new }
{
    let rows = tx.query_all(
        "SELECT record, holder, phase, place FROM sessions ORDER BY place",
        &[],
    )?;
    rising_in(alloc, rows.as_slice())
}

/// The notices of a store of the second version.
fn read_notices<S: Alter>(
    alloc: Global,
    tx: &mut Transaction<'_, S>,
) -> Result<Vec<StoredNotice>, Unread>
    ensures same_reference { tx.new.conn.ghost_name ≡ tx.old.conn.ghost_name }
    ensures read { HasCleanDisk (state S.Store tx.new.conn.now) → (p : _) → p.tables ≡ Version.Second → HoldsParts p (state S.Store tx.old.conn.now).now
        → IfOk result (λ all. (all.items ≡ p.notices) × ((state S.Store tx.new.conn.now).now ≡ (state S.Store tx.old.conn.now).now)) }
    ensures own { HasCleanDisk (state S.Store tx.new.conn.now) → (p : _) → p.tables ≡ Version.Second
        → HoldsParts p (state S.Store tx.old.conn.now).now → All IsNoticeInRange p.notices → result ≢ Err Bad }
    ensures refused { HasCleanDisk (state S.Store tx.new.conn.now) → IsSchemaOf Version.Second (state S.Store tx.old.conn.now).now.schema
        → result ≡ Err Failed → HasRefused (state S.Store tx.old.conn.now) (state S.Store tx.new.conn.now) }
    ensures survives { Survives (state S.Store tx.old.conn.now) (state S.Store tx.new.conn.now) (λ _. ⊥) }
{
    let rows = tx.query_all(
        "SELECT record, site, ann, fin FROM notices ORDER BY record, site",
        &[],
    )?;
    rising_in(alloc, rows.as_slice())
}

/// Whether the first column of a row is this text.
pub(crate) fn is_named(row: &Row, name: &[u8]) -> bool
    ensures sound { IsTrue result → column row.now 0 ≡ Text name.now }
    ensures found { column row.now 0 ≡ Text name.now → IsTrue result }
{
    match row.get_ref(0) {
        Ok(ValueRef::Text(found)) => found == name,
        _ => false,
    }
}

/// The text in a column of a row, if it is one.
fn text_at(alloc: Global, row: &Row, at: usize) -> Result<Option<Vec<u8>>, AllocError>
    ensures sound { IfOk result (λ found. IfSome found (λ text. column row.now at ≡ Text text.items)) }
    ensures found { (text : List ℕ) → column row.now at ≡ Text text → IfOk result IsSome }
{
    match row.get_ref(at) {
        Ok(ValueRef::Text(found)) => Ok(Some(Vec::from_slice(alloc, found)?)),
        _ => Ok(None),
    }
}

/// The value of the mark of this name among rows of `meta`, if it is a text.
fn mark_in(alloc: Global, rows: &[Row], name: &[u8]) -> Result<Option<Vec<u8>>, AllocError>
    ensures sound { (value : _) → TellsMark rows.now (mark name.now value) → IfOk result (λ found. IfSome found (λ text. text.items ≡ value)) }
    ensures found { (value : _) → TellsMark rows.now (mark name.now value) → IfOk result IsSome }
{
    'rows: for row in rows {
        if is_named(row, name) {
            return text_at(alloc, row, 1);
        }
    }
    Ok(None)
}

/// The same, where it has to be there.
fn mark_of(alloc: Global, rows: &[Row], name: &[u8]) -> Result<Vec<u8>, Unread>
    ensures sound { (value : _) → TellsMark rows.now (mark name.now value) → IfOk result (λ text. text.items ≡ value) }
    ensures own { (value : _) → TellsMark rows.now (mark name.now value) → result ≢ Err Bad }
    ensures unrefused { result ≢ Err Failed }
{
    let Some(text) = mark_in(alloc, rows, name)? else {
        return Err(Unread::Bad);
    };
    Ok(text)
}

/// The rows of `meta`.
pub(crate) fn read_marks<S: Alter>(tx: &mut Transaction<'_, S>) -> Result<Vec<Row>, Unread>
    ensures same_reference { tx.new.conn.ghost_name ≡ tx.old.conn.ghost_name }
    ensures read { HasCleanDisk (state S.Store tx.new.conn.now) → (p : _) → HoldsParts p (state S.Store tx.old.conn.now).now
        → IfOk result (λ rows. AllByRecursion (TellsMark rows.items) p.marks × ((state S.Store tx.new.conn.now).now ≡ (state S.Store tx.old.conn.now).now)) }
    ensures own { result ≢ Err Bad }
    ensures shown { HasCleanDisk (state S.Store tx.new.conn.now) → (v : Version) → IsSchemaOf v (state S.Store tx.old.conn.now).now.schema
        → IfOk result (λ rows. ShowsNames ((state S.Store tx.old.conn.now).now.trees meta_tree) rows.items) }
    ensures same { HasCleanDisk (state S.Store tx.new.conn.now) → (v : Version) → IsSchemaOf v (state S.Store tx.old.conn.now).now.schema
        → OnOk result ((state S.Store tx.new.conn.now).now ≡ (state S.Store tx.old.conn.now).now) }
    ensures refused { HasCleanDisk (state S.Store tx.new.conn.now) → (v : Version) → IsSchemaOf v (state S.Store tx.old.conn.now).now.schema
        → result ≡ Err Failed → HasRefused (state S.Store tx.old.conn.now) (state S.Store tx.new.conn.now) }
    ensures survives { Survives (state S.Store tx.old.conn.now) (state S.Store tx.new.conn.now) (λ _. ⊥) }
{
    let rows = tx.query_all("SELECT name, value FROM meta", &[])?;
    Ok(rows)
}

/// The notices of a store of a version.
fn read_notices_of<S: Alter>(
    alloc: Global,
    tx: &mut Transaction<'_, S>,
    version: Version,
) -> Result<Vec<StoredNotice>, Unread>
    ensures same_reference { tx.new.conn.ghost_name ≡ tx.old.conn.ghost_name }
    ensures read { HasCleanDisk (state S.Store tx.new.conn.now) → (p : _) → p.tables ≡ version → HoldsParts p (state S.Store tx.old.conn.now).now
        → IfOk result (λ all. all.items ≡ p.notices) }
    ensures own { HasCleanDisk (state S.Store tx.new.conn.now) → (p : _) → p.tables ≡ version → HoldsParts p (state S.Store tx.old.conn.now).now → All IsNoticeInRange p.notices → result ≢ Err Bad }
    ensures refused { HasCleanDisk (state S.Store tx.new.conn.now) → IsSchemaOf version (state S.Store tx.old.conn.now).now.schema
        → result ≡ Err Failed → HasRefused (state S.Store tx.old.conn.now) (state S.Store tx.new.conn.now) }
    ensures survives { Survives (state S.Store tx.old.conn.now) (state S.Store tx.new.conn.now) (λ _. ⊥) }
{
    match version {
        Version::First => Ok(Vec::new(alloc)),
        Version::Second => read_notices(alloc, tx),
    }
}

/// What a store holds whose tables are those of a version. At most four calls of the store.
pub(crate) fn read_all<S: Alter>(
    alloc: Global,
    tx: &mut Transaction<'_, S>,
    version: Version,
) -> Result<Content, Unread>
    ensures same_reference { tx.new.conn.ghost_name ≡ tx.old.conn.ghost_name }
    ensures read { HasCleanDisk (state S.Store tx.new.conn.now) → (it : _) → it.version ≡ version → IsStoreOf (state S.Store tx.old.conn.now).now it
        → IfOk result (λ found. found ≡ it) }
    ensures own { HasCleanDisk (state S.Store tx.new.conn.now) → (it : _) → it.version ≡ version → IsStoreOf (state S.Store tx.old.conn.now).now it → IsInRange it → result ≢ Err Bad }
    ensures refused { HasCleanDisk (state S.Store tx.new.conn.now) → IsSchemaOf version (state S.Store tx.old.conn.now).now.schema
        → result ≡ Err Failed → HasRefused (state S.Store tx.old.conn.now) (state S.Store tx.new.conn.now) }
    ensures survives { Survives (state S.Store tx.old.conn.now) (state S.Store tx.new.conn.now) (λ _. ⊥) }
{
    let rows = read_marks(tx)?;
    let found = mark_of(alloc, rows.as_slice(), b"version")?;
    if found.as_slice() != version_text(version).as_bytes() {
        return Err(Unread::Bad);
    }
    let site = mark_of(alloc, rows.as_slice(), b"site")?;
    let layout = mark_of(alloc, rows.as_slice(), b"layout")?;
    let cells = read_cells(alloc, tx)?;
    let sessions = read_sessions(alloc, tx)?;
    let notices = read_notices_of(alloc, tx, version)?;
    Ok(Content {
        version,
        site,
        layout,
        cells,
        sessions,
        notices,
    })
}
