//! The row of a store for its site, set anew.
ghost use Rattle.std.specs.Prelude.{◌≡◌, false};
ghost use Rattle.store_schema.specs.declared.Version.TheVariants.{Second};
ghost use Rattle.store_tables.specs.Transacts.{Turns, with_site, RunsOpen, Transacts};
ghost use Rattle.store_tables.specs.Keeping.{ChangesStore};

use crate::commits::{check_open, refusal_of};
use crate::error::TableError;
use sqlite::{Alter, Connection, Error, Transaction};
use store_rows::writes::put_mark;

/// Sets the row.
fn put_site<S: Alter>(tx: &mut Transaction<'_, S>, site: &str) -> Result<(), Error>
    ensures { RunsOpen S.Store (Turns (λ it. it.version ≡ Second) (with_site site.now)) tx.old result tx.new }
{
    check_open(tx)?;
    put_mark(tx, "site", site)
}

/// Sets the row, in one transaction.
fn set_site<S: Alter>(conn: &mut Connection<S>, site: &str) -> Result<(), TableError>
    requires { conn.old.in_transaction ≡ false }
    ensures { Transacts S.Store (Turns (λ it. it.version ≡ Second) (with_site site.now)) conn.old result conn.new }
{
    let mut tx = conn.transaction();
    put_site(&mut tx, site)?;
    match tx.commit() {
        Ok(()) => Ok(()),
        Err(error) => Err(refusal_of(conn, error)),
    }
}

/// The row set in a store of the second version, by what the connection keeps.
pub(crate) fn set_site_kept<S: Alter>(
    conn: &mut Connection<S>,
    site: &str,
) -> Result<(), TableError>
    requires { conn.old.in_transaction ≡ false }
    ensures { ChangesStore S.Store (λ it. it.version ≡ Second) (with_site site.now) conn.old result conn.new }
{
    // what these two ensure of a connection, the transaction is proved with
    let _is_idle = conn.is_autocommit();
    let _schema = conn.schema(); // the second
    set_site(conn, site)
}
