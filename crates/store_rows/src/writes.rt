//! The statements of a transaction, one function each, and what they make of a store.
ghost use Rattle.std.specs.Prelude.{◌≡◌, ◌<◌, ◌^◌, pos, [], ◌∷◌, length, All, Some};
ghost use Rattle.sqlite_value.specs.declared.value.Value.TheVariants.{Int};
ghost use Rattle.sqlite_value.specs.Value.{owned};
ghost use Rattle.sqlite.specs.Values.{bound};
ghost use Rattle.store_rows.specs.Rows.{cell_row, notice_row};
ghost use Rattle.store_schema.specs.Tables.{no_schema, schema_1, schema_2, schema_3, schema_4};
ghost use Rattle.store_rows.specs.Holding.{mark};
ghost use Rattle.store_rows.specs.Steps.{Runs, RunsText, Puts, Makes, Brings, Any, HasFreePlace, HasNoSuchPlace, IsNewTo, IsStorable, if_changed, with_mark, with_cells, with_notices, with_drop, with_session, with_edit};

use crate::content::{SessionEdit, StoredCell, StoredNotice, StoredSession};
use sqlite::types::ValueRef;
use sqlite::{Alter, Error, Transaction};

/// A whole number as the store takes it.
fn number<'a>(n: u64) -> ValueRef<'a>
    requires { n < 2 ^ 63 }
    ensures { owned result ≡ Int (pos n) }
{
    ValueRef::Int(n as i64)
}

/// Runs a statement, whatever number of rows it changes.
fn run<S: Alter>(
    tx: &mut Transaction<'_, S>,
    sql: &str,
    params: &[ValueRef<'_>],
) -> Result<(), Error>
    ensures { RunsText S.Store sql.now (bound params.now) tx.old result tx.new }
{
    tx.execute(sql, params)?;
    Ok(())
}

/// Makes the table of the marks, in a database without tables.
pub fn create_meta<S: Alter>(tx: &mut Transaction<'_, S>) -> Result<(), Error>
    ensures { Runs S.Store (λ _. Makes no_schema schema_1) tx.old result tx.new }
{
    run(
        tx,
        "CREATE TABLE meta (name TEXT PRIMARY KEY NOT NULL, value TEXT NOT NULL)",
        &[],
    )
}

/// Makes the table of the counters, the second.
pub fn create_cells<S: Alter>(tx: &mut Transaction<'_, S>) -> Result<(), Error>
    ensures { Runs S.Store (λ _. Makes schema_1 schema_2) tx.old result tx.new }
{
    run(
        tx,
        "CREATE TABLE cells (record INTEGER NOT NULL, slot INTEGER NOT NULL, n INTEGER NOT NULL CHECK (n >= 0), PRIMARY KEY (record, slot))",
        &[],
    )
}

/// Makes the table of the sessions, the third.
pub fn create_sessions<S: Alter>(tx: &mut Transaction<'_, S>) -> Result<(), Error>
    ensures { Runs S.Store (λ _. Makes schema_2 schema_3) tx.old result tx.new }
{
    run(
        tx,
        "CREATE TABLE sessions (record INTEGER NOT NULL, holder INTEGER NOT NULL, phase INTEGER NOT NULL, place INTEGER NOT NULL UNIQUE, PRIMARY KEY (record, holder))",
        &[],
    )
}

/// Makes the table of the notices, the last.
pub fn create_notices<S: Alter>(tx: &mut Transaction<'_, S>) -> Result<(), Error>
    ensures { Runs S.Store (λ _. Makes schema_3 schema_4) tx.old result tx.new }
{
    run(
        tx,
        "CREATE TABLE notices (record INTEGER NOT NULL, site INTEGER NOT NULL, ann INTEGER NOT NULL CHECK (ann >= 0), fin INTEGER NOT NULL CHECK (fin >= 0), PRIMARY KEY (record, site))",
        &[],
    )
}

/// Sets a row of `meta`.
pub fn put_mark<S: Alter>(tx: &mut Transaction<'_, S>, name: &str, value: &str) -> Result<(), Error>
    ensures { Runs S.Store (λ _. Brings Any (with_mark (mark name.now value.now))) tx.old result tx.new }
{
    run(
        tx,
        "INSERT OR REPLACE INTO meta (name, value) VALUES (?1, ?2)",
        &[
            ValueRef::Text(name.as_bytes()),
            ValueRef::Text(value.as_bytes()),
        ],
    )
}

/// The columns of a counter's row.
fn cell_values<'a>(cell: StoredCell) -> [ValueRef<'a>; 3]
    requires { cell.n < 2 ^ 63 }
    ensures { bound result ≡ cell_row cell }
{
    [
        number(u64::from(cell.r)),
        number(u64::from(cell.slot)),
        number(cell.n),
    ]
}

/// Sets a counter that is there, and tells how many rows that changed.
fn update_cell<S: Alter>(tx: &mut Transaction<'_, S>, cell: StoredCell) -> Result<usize, Error>
    requires { cell.n < 2 ^ 63 }
    ensures { Puts S.Store 0 Any (λ count. Brings Any (if_changed count (with_cells (cell ∷ [])))) tx.old result tx.new }
{
    tx.execute(
        "UPDATE cells SET n = ?3 WHERE record = ?1 AND slot = ?2",
        &cell_values(cell),
    )
}

/// Sets a counter, with its entry in the index, whether it is there or not.
fn replace_cell<S: Alter>(tx: &mut Transaction<'_, S>, cell: StoredCell) -> Result<(), Error>
    requires { cell.n < 2 ^ 63 }
    ensures { Puts S.Store 1 Any (λ _. Brings Any (with_cells (cell ∷ []))) tx.old result tx.new }
{
    run(
        tx,
        "INSERT OR REPLACE INTO cells (record, slot, n) VALUES (?1, ?2, ?3)",
        &cell_values(cell),
    )
}

/// Sets a counter. Where it is there, the index stays, and so a page less goes into the log.
fn put_cell<S: Alter>(tx: &mut Transaction<'_, S>, cell: StoredCell) -> Result<(), Error>
    requires { cell.n < 2 ^ 63 }
    ensures { Puts S.Store 1 Any (λ _. Brings Any (with_cells (cell ∷ []))) tx.old result tx.new }
{
    let count = update_cell(tx, cell)?;
    if count == 0 {
        return replace_cell(tx, cell);
    }
    Ok(())
}

/// The columns of a notice's row.
fn notice_values<'a>(notice: StoredNotice) -> [ValueRef<'a>; 4]
    requires announced { notice.announced < 2 ^ 63 }
    requires finished { notice.finished < 2 ^ 63 }
    ensures { bound result ≡ notice_row notice }
{
    [
        number(u64::from(notice.r)),
        number(u64::from(notice.site)),
        number(notice.announced),
        number(notice.finished),
    ]
}

/// Sets a notice that is there, and tells how many rows that changed.
fn update_notice<S: Alter>(
    tx: &mut Transaction<'_, S>,
    notice: StoredNotice,
) -> Result<usize, Error>
    requires announced { notice.announced < 2 ^ 63 }
    requires finished { notice.finished < 2 ^ 63 }
    ensures { Puts S.Store 0 Any (λ count. Brings Any (if_changed count (with_notices (notice ∷ [])))) tx.old result tx.new }
{
    tx.execute(
        "UPDATE notices SET ann = ?3, fin = ?4 WHERE record = ?1 AND site = ?2",
        &notice_values(notice),
    )
}

/// Sets a notice, with its entry in the index, whether it is there or not.
fn replace_notice<S: Alter>(tx: &mut Transaction<'_, S>, notice: StoredNotice) -> Result<(), Error>
    requires announced { notice.announced < 2 ^ 63 }
    requires finished { notice.finished < 2 ^ 63 }
    ensures { Puts S.Store 1 Any (λ _. Brings Any (with_notices (notice ∷ []))) tx.old result tx.new }
{
    run(
        tx,
        "INSERT OR REPLACE INTO notices (record, site, ann, fin) VALUES (?1, ?2, ?3, ?4)",
        &notice_values(notice),
    )
}

/// Sets a notice. Where it is there, the index stays, and so a page less goes into the log.
fn put_notice<S: Alter>(tx: &mut Transaction<'_, S>, notice: StoredNotice) -> Result<(), Error>
    requires announced { notice.announced < 2 ^ 63 }
    requires finished { notice.finished < 2 ^ 63 }
    ensures { Puts S.Store 1 Any (λ _. Brings Any (with_notices (notice ∷ []))) tx.old result tx.new }
{
    let count = update_notice(tx, notice)?;
    if count == 0 {
        return replace_notice(tx, notice);
    }
    Ok(())
}

/// Adds a session.
fn add_session<S: Alter>(tx: &mut Transaction<'_, S>, session: StoredSession) -> Result<(), Error>
    requires holder { session.h < 2 ^ 63 }
    requires place { session.place < 2 ^ 63 }
    ensures { Puts S.Store 1 (IsNewTo session) (λ _. Brings (HasNoSuchPlace session) (with_session session)) tx.old result tx.new }
{
    run(
        tx,
        "INSERT INTO sessions (record, holder, phase, place) VALUES (?1, ?2, ?3, ?4)",
        &[
            number(u64::from(session.r)),
            number(session.h),
            number(session.stage.number()),
            number(session.place),
        ],
    )
}

/// Drops the session of a holder at a record, if there is one.
fn drop_session<S: Alter>(tx: &mut Transaction<'_, S>, r: u16, h: u64) -> Result<(), Error>
    requires { h < 2 ^ 63 }
    ensures { Puts S.Store 0 Any (λ _. Brings Any (with_drop r h)) tx.old result tx.new }
{
    run(
        tx,
        "DELETE FROM sessions WHERE record = ?1 AND holder = ?2",
        &[number(u64::from(r)), number(h)],
    )
}

/// Puts a session in the place of the one that its holder has at its record, if there is one.
fn put_session<S: Alter>(tx: &mut Transaction<'_, S>, session: StoredSession) -> Result<(), Error>
    requires holder { session.h < 2 ^ 63 }
    requires place { session.place < 2 ^ 63 }
    ensures { Puts S.Store 1 (λ p. HasFreePlace (Some (SessionEdit.Put session)) p.sessions)
        (λ _. Brings (λ p. HasFreePlace (Some (SessionEdit.Put session)) p.sessions) (with_edit (Some (SessionEdit.Put session))))
        tx.old result tx.new }
{
    drop_session(tx, session.r, session.h)?;
    add_session(tx, session)
}

/// Sets counters, in turn. One statement each, and a second where the counter is new.
pub fn put_cells<S: Alter>(tx: &mut Transaction<'_, S>, cells: &[StoredCell]) -> Result<(), Error>
    requires { All (λ c. c.n < 2 ^ 63) cells.now }
    ensures { Puts S.Store (length cells.now) Any (λ _. Brings Any (with_cells cells.now)) tx.old result tx.new }
{
    for cell in cells {
        put_cell(tx, *cell)?;
    }
    Ok(())
}

/// Sets notices, in turn. One statement each, and a second where the notice is new.
pub fn put_notices<S: Alter>(
    tx: &mut Transaction<'_, S>,
    notices: &[StoredNotice],
) -> Result<(), Error>
    requires { All (λ n. (n.announced < 2 ^ 63) × (n.finished < 2 ^ 63)) notices.now }
    ensures { Puts S.Store (length notices.now) Any (λ _. Brings Any (with_notices notices.now)) tx.old result tx.new }
{
    for notice in notices {
        put_notice(tx, *notice)?;
    }
    Ok(())
}

/// Puts or drops a session, or does nothing. At most two statements.
pub fn edit_session<S: Alter>(
    tx: &mut Transaction<'_, S>,
    edit: Option<SessionEdit>,
) -> Result<(), Error>
    requires { IsStorable edit }
    ensures { Puts S.Store 1 (λ p. HasFreePlace edit p.sessions) (λ _. Brings (λ p. HasFreePlace edit p.sessions) (with_edit edit)) tx.old result tx.new }
{
    match edit {
        Some(SessionEdit::Put(session)) => put_session(tx, session),
        Some(SessionEdit::Dropped { r, h }) => drop_session(tx, r, h),
        None => Ok(()),
    }
}
