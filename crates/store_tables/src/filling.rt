//! A store that is made with counters and notices in it.
ghost use Rattle.std.specs.Prelude.{◌≡◌, ◌<◌, ◌^◌, false, All};
ghost use Rattle.store_tables.specs.Transacts.{BecomesFilled, filled, RunsOpen, Transacts};
ghost use Rattle.store_tables.specs.Keeping.{MakesStore};

use crate::commits::refusal_of;
use crate::error::TableError;
use crate::making::make_all;
use sqlite::{Alter, Connection, Error, Transaction};
use store_rows::writes::{put_cells, put_notices};
use store_rows::{StoredCell, StoredNotice};

/// Makes the tables and their marks, and sets counters and notices.
fn fill_all<S: Alter>(
    tx: &mut Transaction<'_, S>,
    site: &str,
    layout: &str,
    cells: &[StoredCell],
    notices: &[StoredNotice],
) -> Result<(), Error>
    requires cells { All (λ c. c.n < 2 ^ 63) cells.now }
    requires notices { All (λ n. (n.announced < 2 ^ 63) × (n.finished < 2 ^ 63)) notices.now }
    ensures { RunsOpen S.Store (BecomesFilled site.now layout.now cells.now notices.now) tx.old result tx.new }
{
    make_all(tx, site, layout)?;
    put_cells(tx, cells)?;
    put_notices(tx, notices)
}

/// Makes a store of the second version with counters and notices in it, in one transaction.
fn make_filled<S: Alter>(
    conn: &mut Connection<S>,
    site: &str,
    layout: &str,
    cells: &[StoredCell],
    notices: &[StoredNotice],
) -> Result<(), TableError>
    requires idle { conn.old.in_transaction ≡ false }
    requires cells { All (λ c. c.n < 2 ^ 63) cells.now }
    requires notices { All (λ n. (n.announced < 2 ^ 63) × (n.finished < 2 ^ 63)) notices.now }
    ensures { Transacts S.Store (BecomesFilled site.now layout.now cells.now notices.now) conn.old result conn.new }
{
    let mut tx = conn.transaction();
    fill_all(&mut tx, site, layout, cells, notices)?;
    match tx.commit() {
        Ok(()) => Ok(()),
        Err(error) => Err(refusal_of(conn, error)),
    }
}

/// The same, by what the connection keeps.
pub(crate) fn make_filled_kept<S: Alter>(
    conn: &mut Connection<S>,
    site: &str,
    layout: &str,
    cells: &[StoredCell],
    notices: &[StoredNotice],
) -> Result<(), TableError>
    requires idle { conn.old.in_transaction ≡ false }
    requires cells { All (λ c. c.n < 2 ^ 63) cells.now }
    requires notices { All (λ n. (n.announced < 2 ^ 63) × (n.finished < 2 ^ 63)) notices.now }
    ensures { MakesStore S.Store (filled site.now layout.now cells.now notices.now) conn.old result conn.new }
{
    // what these two ensure of a connection, the transaction is proved with
    let _is_idle = conn.is_autocommit();
    let _schema = conn.schema(); // the second
    make_filled(conn, site, layout, cells, notices)
}
