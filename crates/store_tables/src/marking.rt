//! The mark of a store that is older than what others have seen of its site.
ghost use Rattle.std.specs.Prelude.{◌≡◌, ◌≢◌, true, false, Err, IsTrue, IfOk, OnOk};
ghost use Rattle.sqlite_rules.specs.Lists.{Has};
ghost use Rattle.sqlite_value.specs.declared.value.Value.TheVariants.{Text};
ghost use Rattle.sqlite_value.specs.Order.{Row as SqlRow, column};
ghost use Rattle.sqlite.specs.State.{HasCleanDisk, Survives};
ghost use Rattle.sqlite.specs.Held.{state};
ghost use Rattle.store_schema.specs.declared.Version.TheVariants.{Second};
ghost use Rattle.store_rows.specs.Holding.{Keeps, KeepsBeside, KeepsEither, Leaves};
ghost use Rattle.store_tables.specs.declared.error.TableError.TheVariants.{BadStore, Memory};
ghost use Rattle.store_tables.specs.declared.reads.Unread.TheVariants.{Bad, Failed};
ghost use Rattle.store_tables.specs.Marking.{HasOutdatedMark, MarksOutdated, ReadsOutdated, TellsOutdated};
ghost use Rattle.store_rows.specs.Refusals.{HasRefused};
ghost use Rattle.store_tables.specs.Transacts.{RunsOpen, Transacts};

use crate::commits::{check_open, refusal_of};
use crate::error::TableError;
use crate::reads::{Unread, is_named, read_marks};
use sqlite::{Alter, Connection, Error, Row, Transaction};
use store_rows::writes::put_mark;

/// Sets the mark.
fn put_outdated<S: Alter>(tx: &mut Transaction<'_, S>) -> Result<(), Error>
    ensures { RunsOpen S.Store MarksOutdated tx.old result tx.new }
{
    check_open(tx)?;
    put_mark(tx, "outdated", "1")
}

/// Sets the mark, in one transaction.
fn mark<S: Alter>(conn: &mut Connection<S>) -> Result<(), TableError>
    requires { conn.old.in_transaction ≡ false }
    ensures { Transacts S.Store MarksOutdated conn.old result conn.new }
{
    let mut tx = conn.transaction();
    put_outdated(&mut tx)?;
    match tx.commit() {
        Ok(()) => Ok(()),
        Err(error) => Err(refusal_of(conn, error)),
    }
}

/// The mark of a store of the second version, by what the connection keeps. What it holds stays, whatever the answer.
pub(crate) fn mark_kept<S: Alter>(conn: &mut Connection<S>) -> Result<(), TableError>
    requires { conn.old.in_transaction ≡ false }
    ensures idle { conn.new.in_transaction ≡ false }
    ensures honest { HasCleanDisk (state S.Store conn.new) → HasCleanDisk (state S.Store conn.old) }
    ensures done { (it : _) → it.version ≡ Second → Keeps S.Store conn.old it → OnOk result (Leaves S.Store conn.new HasOutdatedMark) }
    ensures kept { (it : _) → it.version ≡ Second → Keeps S.Store conn.old it → Keeps S.Store conn.new it }
    ensures either { (a b : _) → a.version ≡ Second → b.version ≡ Second → KeepsEither S.Store conn.old a b → KeepsEither S.Store conn.new a b }
    ensures beside { (it : _) → (others : _) → it.version ≡ Second → Keeps S.Store conn.old it → KeepsBeside S.Store conn.old others → KeepsBeside S.Store conn.new others }
    ensures undone { result ≡ Err Memory → Survives (state S.Store conn.old) (state S.Store conn.new) (λ _. ⊥) }
    ensures kind { result ≢ Err BadStore }
{
    // what these two ensure of a connection, the transaction is proved with
    let _is_idle = conn.is_autocommit();
    let _schema = conn.schema(); // the second
    mark(conn)
}

/// Whether rows of `meta` have a name.
fn has_name(rows: &[Row], name: &[u8]) -> bool
    ensures found { IsTrue result → (r : SqlRow) × Has rows.now r × (column r 0 ≡ Text name.now) }
    ensures none { result ≡ false → (r : SqlRow) → Has rows.now r → column r 0 ≡ Text name.now → ⊥ }
{
    'rows: for row in rows {
        if is_named(row, name) {
            return true;
        }
    }
    false
}

/// Whether a store has a row of the mark's name.
fn read_outdated<S: Alter>(tx: &mut Transaction<'_, S>) -> Result<bool, Unread>
    ensures same_reference { tx.new.conn.ghost_name ≡ tx.old.conn.ghost_name }
    ensures reads { ReadsOutdated (state S.Store tx.old.conn.now) result (state S.Store tx.new.conn.now) }
{
    check_open(tx)?;
    let rows = read_marks(tx)?;
    Ok(has_name(rows.as_slice(), b"outdated"))
}

/// The same, in a transaction of its own.
fn ask_outdated<S: Alter>(conn: &mut Connection<S>) -> Result<bool, Unread>
    requires { conn.old.in_transaction ≡ false }
    ensures idle { conn.new.in_transaction ≡ false }
    ensures reads { ReadsOutdated (state S.Store conn.old) result (state S.Store conn.new) }
{
    let mut tx = conn.transaction();
    let found = read_outdated(&mut tx)?;
    Ok(found)
}

/// Whether a store has a row of the mark's name, by what the connection keeps.
pub(crate) fn outdated_kept<S: Alter>(conn: &mut Connection<S>) -> Result<bool, Unread>
    requires { conn.old.in_transaction ≡ false }
    ensures idle { conn.new.in_transaction ≡ false }
    ensures told { (it : _) → Keeps S.Store conn.old it → IfOk result (λ found. Leaves S.Store conn.new (TellsOutdated found)) }
    ensures marked { HasCleanDisk (state S.Store conn.new) → (it : _) → Keeps S.Store conn.old it → Leaves S.Store conn.old HasOutdatedMark → IfOk result (λ found. found ≡ true) }
    ensures unmarked { HasCleanDisk (state S.Store conn.new) → (it : _) → Keeps S.Store conn.old it → Leaves S.Store conn.old (TellsOutdated false)
        → IfOk result (λ found. found ≡ false) }
    ensures kind { result ≢ Err Bad }
    ensures refused { HasCleanDisk (state S.Store conn.new) → (it : _) → Keeps S.Store conn.old it → result ≡ Err Failed → HasRefused (state S.Store conn.old) (state S.Store conn.new) }
    ensures survives { Survives (state S.Store conn.old) (state S.Store conn.new) (λ _. ⊥) }
{
    // what these two ensure of a connection, the transaction is read with
    let _is_idle = conn.is_autocommit();
    let _schema = conn.schema(); // the second
    ask_outdated(conn)
}
