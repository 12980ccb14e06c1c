//! A store is made that has counters from the first.
ghost use Rattle.std.specs.Prelude.{◌≡◌, ◌≢◌, false, None, OnOk, IfOk, IfErr};
ghost use Rattle.sqlite.specs.State.{HasCleanDisk};
ghost use Rattle.sqlite.specs.Held.{state};
ghost use Rattle.durable_keeper.specs.Keeping.{IsChange};
ghost use Rattle.store_rows.specs.Rows.{Stored};
ghost use Rattle.store_rows.specs.Holding.{Keeps, KeepsNothing};
ghost use Rattle.store_content.specs.Plan.{IsTellable};
ghost use Rattle.store_tables.specs.Kept.{connection_of};
ghost use Rattle.site_store.specs.declared.error.ServedError.TheVariants.{Memory, StoreFault};
ghost use Rattle.site_store.specs.Opened.{CommitsNothing};
ghost use Rattle.site_store.specs.Making.{IsLeftNew, IsNew, counters_alone, new_content, to_make};
ghost use Rattle.site_store.specs.Served.{IsDenied, IsDevice, IsPermitted};
ghost use Rattle.site_store.specs.SiteText.{named};

use crate::error::ServedError;
use crate::opening::site_text;
use crate::served::{Permission, check_permission};
use admission_core::{Change, DurableCell};
use layout_line::layout_line;
use merge_core::Layout;
use sqlite::{Alter, Connection};
use std::alloc::Global;
use store_content::Index;
use store_tables::Tables;

/// Makes the store of a site, of a group of sites or of none, that has these counters and no session, in one transaction: a
/// crash leaves nothing, or the whole store. The database has to hold no table, index or view; any other is refused, and
/// nothing is written then. The caller shows that no transaction is open. Hands the database back. Linear in the counters and
/// in the layout.
pub fn make_store<S: Alter>(
    alloc: Global,
    connection: Connection<S>,
    layout: &Layout,
    site: u16,
    group: Option<&str>,
    cells: Vec<DurableCell>,
) -> (Result<(), ServedError>, Connection<S>)
    requires idle { connection.in_transaction ≡ false }
    requires cells { IsChange layout.now site (counters_alone cells.items) }
    ensures made { KeepsNothing S.Store connection → OnOk result.0 (Keeps S.Store result.1 (new_content layout.now site (named group.entry) cells.items)) }
    ensures content { IsNew layout.now site (named group.entry) cells.items }
    ensures left { KeepsNothing S.Store connection → IfErr result.0 (IsLeftNew S.Store layout.now site (named group.entry) cells.items result.1) }
    ensures there { (it : Stored) → Keeps S.Store connection it → Keeps S.Store result.1 it }
    ensures never { (it : Stored) → Keeps S.Store connection it → HasCleanDisk (state S.Store result.1) → IfOk result.0 (λ _. ⊥) }
    ensures blank { HasCleanDisk (state S.Store result.1) → OnOk result.0 (IsPermitted to_make (state S.Store connection).now.schema) }
    ensures denied { HasCleanDisk (state S.Store result.1) → IfErr result.0 (IsDenied to_make (state S.Store connection).now.schema) }
    ensures judged { IfErr result.0 (λ e. e ≢ StoreFault → e ≢ Memory → CommitsNothing S.Store connection result.1) }
{
    let _ = layout.sites(); // tells that the layout is one
    let mut connection = connection;
    let permission = Permission {
        create: true,
        grow: false,
    };
    match check_permission(&mut connection, permission) {
        Ok(()) => {}
        Err(error) => return (Err(error), connection),
    }
    let mut tables = Tables::over(connection);
    let done = fill_new(alloc, &mut tables, layout, site, group, cells);
    (done, tables.into_connection())
}

// Makes the store in tables, of which there are none.
fn fill_new<S: Alter>(
    alloc: Global,
    tables: &mut Tables<S>,
    layout: &Layout,
    site: u16,
    group: Option<&str>,
    cells: Vec<DurableCell>,
) -> Result<(), ServedError>
    requires { IsTellable (counters_alone cells.items) }
    ensures made { KeepsNothing S.Store (connection_of tables.old) → OnOk result (Keeps S.Store (connection_of tables.new) (new_content layout.now site (named group.entry) cells.items)) }
    ensures left { KeepsNothing S.Store (connection_of tables.old) → IfErr result (IsLeftNew S.Store layout.now site (named group.entry) cells.items (connection_of tables.new)) }
    ensures honest { HasCleanDisk (state S.Store (connection_of tables.new)) → HasCleanDisk (state S.Store (connection_of tables.old)) }
    ensures device { IfErr result IsDevice }
{
    let Ok(line) = layout_line(alloc, layout) else {
        return Err(ServedError::Memory);
    };
    let Ok(own) = site_text(alloc, site, group) else {
        return Err(ServedError::Memory);
    };
    let index = Index::new(alloc);
    let change = Change::new(cells, None);
    let Ok(planned) = index.plan(alloc, &change) else {
        return Err(ServedError::Memory);
    };
    let Some(rows) = planned else {
        return Err(ServedError::StoreFault); // only a session may lack a place
    };
    match tables.make_filled(own.as_str(), line.as_str(), &rows.cells, &rows.notices) {
        Ok(()) => Ok(()),
        Err(error) => Err(ServedError::from(error)),
    }
}
