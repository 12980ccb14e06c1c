//! What a connection keeps, over each transaction.
ghost use Rattle.std.specs.Prelude.{◌≡◌, ◌<◌, ◌^◌, false, All, None, Some, Ok, Err};
ghost use Rattle.sqlite.specs.Held.{state};
ghost use Rattle.store_schema.specs.Found.{found_in};
ghost use Rattle.store_schema.specs.declared.Found.TheVariants.{Blank, Store, Other};
ghost use Rattle.store_rows.specs.Changes.{changed, renewed};
ghost use Rattle.store_rows.specs.Steps.{IsStorable};
ghost use Rattle.store_tables.specs.Transacts.{Takes, made};
ghost use Rattle.store_tables.specs.Looking.{IsRefusedLook, Looks};
ghost use Rattle.store_tables.specs.Reads.{ReadsFound};
ghost use Rattle.store_tables.specs.declared.reads.Unread.TheVariants.{Bad, Failed};
ghost use Rattle.store_tables.specs.Keeping.{ChangesStore, MakesStore};

use crate::commits::{check_open, write};
use crate::error::TableError;
use crate::making::{make, renew};
use crate::reads::{Unread, read_all};
use sqlite::{Alter, Connection, Transaction};
use std::alloc::Global;
use store_rows::{Content, SessionEdit, StoredCell, StoredNotice, Version};
use store_schema::{Found, found_in};

/// A change of a store, by what the connection keeps.
pub(crate) fn write_kept<S: Alter>(
    conn: &mut Connection<S>,
    cells: &[StoredCell],
    notices: &[StoredNotice],
    edit: Option<SessionEdit>,
) -> Result<(), TableError>
    requires idle { conn.old.in_transaction ≡ false }
    requires cells { All (λ c. c.n < 2 ^ 63) cells.now }
    requires notices { All (λ n. (n.announced < 2 ^ 63) × (n.finished < 2 ^ 63)) notices.now }
    requires edit { IsStorable edit }
    ensures { ChangesStore S.Store (Takes edit) (changed cells.now notices.now edit) conn.old result conn.new }
{
    // what these two ensure of a connection, the transaction is proved with
    let _is_idle = conn.is_autocommit();
    let _schema = conn.schema(); // the second
    write(conn, cells, notices, edit)
}

/// A new store, by what the connection keeps.
pub(crate) fn make_kept<S: Alter>(
    conn: &mut Connection<S>,
    site: &str,
    layout: &str,
) -> Result<(), TableError>
    requires { conn.old.in_transaction ≡ false }
    ensures { MakesStore S.Store (made site.now layout.now) conn.old result conn.new }
{
    // what these two ensure of a connection, the transaction is proved with
    let _is_idle = conn.is_autocommit();
    let _schema = conn.schema(); // the second
    make(conn, site, layout)
}

/// A store brought to the second version and to a layout line, by what the connection keeps.
pub(crate) fn renew_kept<S: Alter>(
    conn: &mut Connection<S>,
    version: Version,
    layout: &str,
) -> Result<(), TableError>
    requires { conn.old.in_transaction ≡ false }
    ensures { ChangesStore S.Store (λ it. it.version ≡ version) (renewed layout.now) conn.old result conn.new }
{
    // what these two ensure of a connection, the transaction is proved with
    let _is_idle = conn.is_autocommit();
    let _schema = conn.schema(); // the second
    renew(conn, version, layout)
}

/// What a database holds in whose schema this was found, inside one transaction, which changes nothing.
fn read_found<S: Alter>(
    alloc: Global,
    tx: &mut Transaction<'_, S>,
    found: Found,
) -> Result<Option<Content>, Unread>
    ensures same_reference { tx.new.conn.ghost_name ≡ tx.old.conn.ghost_name }
    ensures reads { ReadsFound found (state S.Store tx.old.conn.now) result (state S.Store tx.new.conn.now) }
{
    check_open(tx)?;
    match found {
        Found::Blank => Ok(None),
        Found::Other => Err(Unread::Bad),
        Found::Store(version) => {
            let content = read_all(alloc, tx, version)?;
            Ok(Some(content))
        }
    }
}

/// The same, in a transaction of its own.
fn read_whole<S: Alter>(
    alloc: Global,
    conn: &mut Connection<S>,
    found: Found,
) -> Result<Option<Content>, Unread>
    requires { conn.old.in_transaction ≡ false }
    ensures idle { conn.new.in_transaction ≡ false }
    ensures reads { ReadsFound found (state S.Store conn.old) result (state S.Store conn.new) }
{
    let mut tx = conn.transaction();
    let content = read_found(alloc, &mut tx, found)?;
    Ok(content)
}

/// What a database holds, by what the connection keeps.
pub(crate) fn look_kept<S: Alter>(
    alloc: Global,
    conn: &mut Connection<S>,
) -> Result<Option<Content>, Unread>
    requires { conn.old.in_transaction ≡ false }
    ensures idle { conn.new.in_transaction ≡ false }
    ensures looks { Looks S.Store Bad conn.old result conn.new }
    ensures refused { IsRefusedLook S.Store Failed conn.old result conn.new }
{
    // what it ensures of a connection, the transaction is read with
    let _is_idle = conn.is_autocommit();
    let found = found_in(conn.schema());
    read_whole(alloc, conn, found)
}
