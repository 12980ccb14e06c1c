//! One change of a store, as one transaction.
ghost use Rattle.std.specs.Prelude.{◌≡◌, ◌≢◌, ◌⊎◌, ◌↔◌, ◌<◌, ◌^◌, false, All, Err, IsTrue, OnOk};
ghost use Rattle.sqlite.specs.State.{HasCleanDisk, IsUnchanged, KeepsCommit, Survives};
ghost use Rattle.sqlite.specs.Held.{state};
ghost use Rattle.sqlite.specs.declared.error.Error.{Error as SqlError};
ghost use Rattle.sqlite.specs.declared.error.Error.TheVariants.{MultipleStatement, SqliteFailure};
ghost use Rattle.sqlite.specs.declared.error.ErrorCode.TheVariants.{OutOfMemory};
ghost use Rattle.store_rows.specs.Changes.{changed};
ghost use Rattle.store_rows.specs.Steps.{Brings, HasFreePlace, IsStorable, with_cells, with_notices, with_edit};
ghost use Rattle.store_tables.specs.declared.error.TableError.TheVariants.{BadStore, Memory, StoreFault};
ghost use Rattle.store_tables.specs.Transacts.{Turns, Takes, RunsOpen, Transacts};
ghost use Rattle.store_rows.specs.Refusals.{HasRefused, HasLackedMemory};

use crate::error::{TableError, is_memory};
use sqlite::{Alter, Connection, Error, Transaction};
use store_rows::writes::{edit_session, put_cells, put_notices};
use store_rows::{SessionEdit, StoredCell, StoredNotice};

/// A text of two statements, which no call runs: where it is refused as such, it was understood, and the connection is
/// open.
const TWO_STATEMENTS: &str = "SELECT 1; SELECT 1";

/// Whether a text was refused for its second statement alone.
fn is_understood(error: Error) -> bool
    ensures { IsTrue result ↔ (error ≡ MultipleStatement) }
{
    error == Error::MultipleStatement
}

/// Goes on only where the connection is open. Changes nothing. Takes no memory where the connection has understood the
/// text before, under the same schema.
pub(crate) fn check_open<S: Alter>(tx: &mut Transaction<'_, S>) -> Result<(), Error>
    ensures same_reference { tx.new.conn.ghost_name ≡ tx.old.conn.ghost_name }
    ensures open { HasCleanDisk (state S.Store tx.new.conn.now) → OnOk result (IsUnchanged (state S.Store tx.old.conn.now) (state S.Store tx.new.conn.now)) }
    ensures kept { HasCleanDisk (state S.Store tx.new.conn.now) → KeepsCommit (state S.Store tx.old.conn.now) (state S.Store tx.new.conn.now) }
    ensures refused { HasCleanDisk (state S.Store tx.new.conn.now) → (e : SqlError) → result ≡ Err e → e ≢ SqliteFailure OutOfMemory
        → HasRefused (state S.Store tx.old.conn.now) (state S.Store tx.new.conn.now) }
    ensures either { HasCleanDisk (state S.Store tx.new.conn.now) → (e : SqlError) → result ≡ Err e
        → HasRefused (state S.Store tx.old.conn.now) (state S.Store tx.new.conn.now)
        ⊎ ((e ≡ SqliteFailure OutOfMemory) × HasLackedMemory (state S.Store tx.old.conn.now) (state S.Store tx.new.conn.now)) }
    ensures survives { Survives (state S.Store tx.old.conn.now) (state S.Store tx.new.conn.now) (λ _. ⊥) }
{
    let Err(error) = tx.prepare(TWO_STATEMENTS) else {
        return Ok(());
    };
    if is_understood(error) {
        return Ok(());
    }
    Err(error)
}

/// Goes on only where the connection is open still, with the last commit as it was. Commits nothing. Takes no memory where
/// the connection has understood the same text before, under the same schema.
pub fn check_connection<S: Alter>(conn: &mut Connection<S>) -> Result<(), Error>
    requires { conn.old.in_transaction ≡ false }
    ensures idle { conn.new.in_transaction ≡ false }
    ensures settled { HasCleanDisk (state S.Store conn.new) → OnOk result (IsUnchanged (state S.Store conn.old) (state S.Store conn.new)) }
    ensures refused { HasCleanDisk (state S.Store conn.new) → (e : SqlError) → result ≡ Err e
        → HasRefused (state S.Store conn.old) (state S.Store conn.new) ⊎ ((e ≡ SqliteFailure OutOfMemory) × HasLackedMemory (state S.Store conn.old) (state S.Store conn.new)) }
    ensures survives { Survives (state S.Store conn.old) (state S.Store conn.new) (λ _. ⊥) }
{
    let Err(error) = conn.prepare(TWO_STATEMENTS) else {
        return Ok(());
    };
    if !is_understood(error) {
        return Err(error);
    }
    Ok(())
}

/// What a refused commit is told as: want of memory where the database answered so, and the connection is open still
/// with the last commit as it was; else a fault. Commits nothing.
pub(crate) fn refusal_of<S: Alter>(conn: &mut Connection<S>, error: Error) -> TableError
    requires { conn.old.in_transaction ≡ false }
    ensures idle { conn.new.in_transaction ≡ false }
    ensures kind { result ≢ BadStore }
    ensures memory { result ≡ Memory → error ≡ SqliteFailure OutOfMemory }
    ensures settled { HasCleanDisk (state S.Store conn.new) → result ≡ Memory → IsUnchanged (state S.Store conn.old) (state S.Store conn.new) }
    ensures survives { Survives (state S.Store conn.old) (state S.Store conn.new) (λ _. ⊥) }
{
    if !is_memory(error) {
        return TableError::StoreFault;
    }
    match check_connection(conn) {
        Ok(()) => TableError::Memory,
        Err(_) => TableError::StoreFault,
    }
}

/// Sets counters and notices, and puts or drops a session.
fn change<S: Alter>(
    tx: &mut Transaction<'_, S>,
    cells: &[StoredCell],
    notices: &[StoredNotice],
    edit: Option<SessionEdit>,
) -> Result<(), Error>
    requires cells { All (λ c. c.n < 2 ^ 63) cells.now }
    requires notices { All (λ n. (n.announced < 2 ^ 63) × (n.finished < 2 ^ 63)) notices.now }
    requires edit { IsStorable edit }
    ensures { RunsOpen S.Store (Brings (λ p. HasFreePlace edit p.sessions) (λ p. with_edit edit (with_notices notices.now (with_cells cells.now p)))) tx.old result tx.new }
{
    check_open(tx)?;
    put_cells(tx, cells)?;
    put_notices(tx, notices)?;
    edit_session(tx, edit)
}

/// Sets counters and notices, and puts or drops a session, in one transaction. Want of memory is told where the database
/// answered so before the commit, or at the commit, and nothing was committed.
pub(crate) fn write<S: Alter>(
    conn: &mut Connection<S>,
    cells: &[StoredCell],
    notices: &[StoredNotice],
    edit: Option<SessionEdit>,
) -> Result<(), TableError>
    requires idle { conn.old.in_transaction ≡ false }
    requires cells { All (λ c. c.n < 2 ^ 63) cells.now }
    requires notices { All (λ n. (n.announced < 2 ^ 63) × (n.finished < 2 ^ 63)) notices.now }
    requires edit { IsStorable edit }
    ensures { Transacts S.Store (Turns (Takes edit) (changed cells.now notices.now edit)) conn.old result conn.new }
{
    let mut tx = conn.transaction();
    change(&mut tx, cells, notices, edit)?;
    match tx.commit() {
        Ok(()) => Ok(()),
        Err(error) => Err(refusal_of(conn, error)),
    }
}
