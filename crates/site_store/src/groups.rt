//! Whether a store is in no group of sites.
ghost use Rattle.std.specs.Prelude.{◌≡◌, ◌≢◌, ◌↔◌, false, Err, None, IsTrue, IfOk};
ghost use Rattle.sqlite.specs.State.{HasCleanDisk};
ghost use Rattle.sqlite.specs.Held.{state};
ghost use Rattle.store_rows.specs.Rows.{Stored};
ghost use Rattle.store_rows.specs.Holding.{Keeps};
ghost use Rattle.store_tables.specs.Kept.{CommitsNothing, connection_of};
ghost use Rattle.site_store.specs.Opened.{CommitsNothing as CommitsNone};
ghost use Rattle.site_store.specs.SiteText.{site_text};

use crate::opening::site_text;
use sqlite::{Alter, Connection};
use std::alloc::Global;
use store_tables::{TableError, Tables};
use text_parts::is_same;

/// Whether a database, in which no transaction is open, as the caller shows, is the store of this site in no group, by its
/// row for the site alone. Hands the database back; nothing is committed. Linear in what is stored.
pub fn is_ungrouped<S: Alter>(
    alloc: Global,
    connection: Connection<S>,
    site: u16,
) -> (Result<bool, TableError>, Connection<S>)
    requires { connection.in_transaction ≡ false }
    ensures kept { (it : Stored) → Keeps S.Store connection it → Keeps S.Store result.1 it }
    ensures told { (it : Stored) → Keeps S.Store connection it → HasCleanDisk (state S.Store result.1) → IfOk result.0 (λ found. IsTrue found ↔ (it.site ≡ site_text site None)) }
    ensures unwritten { CommitsNone S.Store connection result.1 }
{
    let mut tables = Tables::over(connection);
    let found = names_alone(alloc, &mut tables, site);
    (found, tables.into_connection())
}

// Whether tables are those of a store whose row for the site is that of this site in no group.
fn names_alone<S: Alter>(
    alloc: Global,
    tables: &mut Tables<S>,
    site: u16,
) -> Result<bool, TableError>
    ensures kept { (it : Stored) → Keeps S.Store (connection_of tables.old) it → Keeps S.Store (connection_of tables.new) it }
    ensures told { (it : Stored) → Keeps S.Store (connection_of tables.old) it → HasCleanDisk (state S.Store (connection_of tables.new))
        → IfOk result (λ found. IsTrue found ↔ (it.site ≡ site_text site None)) }
    ensures unwritten { CommitsNothing tables.old tables.new }
{
    let Ok(own) = site_text(alloc, site, None) else {
        return Err(TableError::Memory);
    };
    let Some(content) = tables.look(alloc)? else {
        return Ok(false);
    };
    Ok(is_same(content.site.as_slice(), own.as_bytes()))
}
