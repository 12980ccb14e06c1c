//! The rows of several changes of a store, as one transaction (group commit).
ghost use Rattle.std.specs.Prelude.{◌≡◌, ◌<◌, ◌^◌, false, All};
ghost use Rattle.store_rows.specs.Steps.{Brings, with_cells, with_notices, Runs};
ghost use Rattle.store_tables.specs.Rounds.{AreStorable, HaveFreePlaces, TakesAll, changed_all, with_edits};
ghost use Rattle.store_tables.specs.Transacts.{Turns, RunsOpen, Transacts};
ghost use Rattle.store_tables.specs.Keeping.{ChangesStore};

use crate::commits::{check_open, refusal_of};
use crate::error::TableError;
use sqlite::{Alter, Connection, Error, Transaction};
use store_rows::writes::{edit_session, put_cells, put_notices};
use store_rows::{SessionEdit, StoredCell, StoredNotice};

/// Puts and drops sessions, in turn. At most two statements each.
fn edit_sessions<S: Alter>(tx: &mut Transaction<'_, S>, edits: &[SessionEdit]) -> Result<(), Error>
    requires { AreStorable edits.now }
    ensures { Runs S.Store (λ _. Brings (λ p. HaveFreePlaces edits.now p.sessions) (with_edits edits.now)) tx.old result tx.new }
{
    for edit in edits {
        edit_session(tx, Some(*edit))?;
    }
    Ok(())
}

/// Sets counters and notices, and puts and drops sessions, in turn.
fn change_all<S: Alter>(
    tx: &mut Transaction<'_, S>,
    cells: &[StoredCell],
    notices: &[StoredNotice],
    edits: &[SessionEdit],
) -> Result<(), Error>
    requires cells { All (λ c. c.n < 2 ^ 63) cells.now }
    requires notices { All (λ n. (n.announced < 2 ^ 63) × (n.finished < 2 ^ 63)) notices.now }
    requires edits { AreStorable edits.now }
    ensures { RunsOpen S.Store (Brings (λ p. HaveFreePlaces edits.now p.sessions) (λ p. with_edits edits.now (with_notices notices.now (with_cells cells.now p)))) tx.old result tx.new }
{
    check_open(tx)?;
    put_cells(tx, cells)?;
    put_notices(tx, notices)?;
    edit_sessions(tx, edits)
}

/// Sets counters and notices, and puts and drops sessions, in turn, in one transaction. Want of memory is told where the
/// database answered so before the commit, or at the commit, and nothing was committed.
fn write_all<S: Alter>(
    conn: &mut Connection<S>,
    cells: &[StoredCell],
    notices: &[StoredNotice],
    edits: &[SessionEdit],
) -> Result<(), TableError>
    requires idle { conn.old.in_transaction ≡ false }
    requires cells { All (λ c. c.n < 2 ^ 63) cells.now }
    requires notices { All (λ n. (n.announced < 2 ^ 63) × (n.finished < 2 ^ 63)) notices.now }
    requires edits { AreStorable edits.now }
    ensures { Transacts S.Store (Turns (TakesAll edits.now) (changed_all cells.now notices.now edits.now)) conn.old result conn.new }
{
    let mut tx = conn.transaction();
    change_all(&mut tx, cells, notices, edits)?;
    match tx.commit() {
        Ok(()) => Ok(()),
        Err(error) => Err(refusal_of(conn, error)),
    }
}

/// The rows of several changes, by what the connection keeps.
pub(crate) fn write_all_kept<S: Alter>(
    conn: &mut Connection<S>,
    cells: &[StoredCell],
    notices: &[StoredNotice],
    edits: &[SessionEdit],
) -> Result<(), TableError>
    requires idle { conn.old.in_transaction ≡ false }
    requires cells { All (λ c. c.n < 2 ^ 63) cells.now }
    requires notices { All (λ n. (n.announced < 2 ^ 63) × (n.finished < 2 ^ 63)) notices.now }
    requires edits { AreStorable edits.now }
    ensures { ChangesStore S.Store (TakesAll edits.now) (changed_all cells.now notices.now edits.now) conn.old result conn.new }
{
    // what these two ensure of a connection, the transaction is proved with
    let _is_idle = conn.is_autocommit();
    let _schema = conn.schema(); // the second
    write_all(conn, cells, notices, edits)
}
