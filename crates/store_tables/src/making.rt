//! The tables are made, and a store of the first version becomes one of the second.
ghost use Rattle.std.specs.Prelude.{◌≡◌, false, codes};
ghost use Rattle.store_schema.specs.declared.Version.TheVariants.{Second};
ghost use Rattle.store_rows.specs.Rows.{version_text};
ghost use Rattle.store_rows.specs.Changes.{renewed};
ghost use Rattle.store_rows.specs.Holding.{mark};
ghost use Rattle.store_rows.specs.Steps.{Brings, Any, with_mark, Runs};
ghost use Rattle.store_tables.specs.Transacts.{Turns, Upgrades, BecomesEmpty, BecomesStore, RunsOpen, Transacts};

use crate::commits::{check_open, refusal_of};
use crate::error::TableError;
use sqlite::{Alter, Connection, Error, Transaction};
use store_rows::Version;
use store_rows::writes::{create_cells, create_meta, create_notices, create_sessions, put_mark};

/// The text that `meta` has for a version.
pub(crate) fn version_text(version: Version) -> &'static str
    ensures { result.now ≡ version_text version }
{
    match version {
        Version::First => "1",
        Version::Second => "2",
    }
}

/// The tables, always in one order, so that every store of a version has one schema.
fn create_tables<S: Alter>(tx: &mut Transaction<'_, S>) -> Result<(), Error>
    ensures { Runs S.Store (λ _. BecomesEmpty) tx.old result tx.new }
{
    create_meta(tx)?;
    create_cells(tx)?;
    create_sessions(tx)?;
    create_notices(tx)
}

/// The rows of `meta`.
fn put_marks<S: Alter>(tx: &mut Transaction<'_, S>, site: &str, layout: &str) -> Result<(), Error>
    ensures { Runs S.Store
        (λ _. Brings Any (λ p. with_mark (mark (codes "layout") layout.now) (with_mark (mark (codes "site") site.now)
        (with_mark (mark (codes "version") (version_text Second)) p))))
        tx.old result tx.new }
{
    put_mark(tx, "version", version_text(Version::Second))?;
    put_mark(tx, "site", site)?;
    put_mark(tx, "layout", layout)
}

/// Makes the tables and their marks.
pub(crate) fn make_all<S: Alter>(
    tx: &mut Transaction<'_, S>,
    site: &str,
    layout: &str,
) -> Result<(), Error>
    ensures { RunsOpen S.Store (BecomesStore site.now layout.now) tx.old result tx.new }
{
    check_open(tx)?;
    create_tables(tx)?;
    put_marks(tx, site, layout)
}

/// Makes an empty store of the second version, in one transaction.
pub(crate) fn make<S: Alter>(
    conn: &mut Connection<S>,
    site: &str,
    layout: &str,
) -> Result<(), TableError>
    requires { conn.old.in_transaction ≡ false }
    ensures { Transacts S.Store (BecomesStore site.now layout.now) conn.old result conn.new }
{
    let mut tx = conn.transaction();
    make_all(&mut tx, site, layout)?;
    match tx.commit() {
        Ok(()) => Ok(()),
        Err(error) => Err(refusal_of(conn, error)),
    }
}

/// Makes the table of notices and sets the version, where the store is of the first version.
fn upgrade<S: Alter>(tx: &mut Transaction<'_, S>, version: Version) -> Result<(), Error>
    ensures { Runs S.Store (λ _. Upgrades version) tx.old result tx.new }
{
    match version {
        Version::First => {
            create_notices(tx)?;
            put_mark(tx, "version", version_text(Version::Second))
        }
        Version::Second => Ok(()),
    }
}

/// Brings a store to the second version and to a layout line.
fn renew_all<S: Alter>(
    tx: &mut Transaction<'_, S>,
    version: Version,
    layout: &str,
) -> Result<(), Error>
    ensures { RunsOpen S.Store (Turns (λ it. it.version ≡ version) (renewed layout.now)) tx.old result tx.new }
{
    check_open(tx)?;
    upgrade(tx, version)?;
    put_mark(tx, "layout", layout)
}

/// Brings a store to the second version and to a layout line, in one transaction.
pub(crate) fn renew<S: Alter>(
    conn: &mut Connection<S>,
    version: Version,
    layout: &str,
) -> Result<(), TableError>
    requires { conn.old.in_transaction ≡ false }
    ensures { Transacts S.Store (Turns (λ it. it.version ≡ version) (renewed layout.now)) conn.old result conn.new }
{
    let mut tx = conn.transaction();
    renew_all(&mut tx, version, layout)?;
    match tx.commit() {
        Ok(()) => Ok(()),
        Err(error) => Err(refusal_of(conn, error)),
    }
}
