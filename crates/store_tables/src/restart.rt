//! A crash of both files of a store, and the store opened again.
ghost use Rattle.std.specs.Prelude.{◌≡◌, false, IfOk};
ghost use Rattle.store_tables.specs.Kept.{has_failed, IsHonest, KeepsStore, KeepsOneOf, KeepsBlank, KeepsBlankOr, KeepsOthers, KeepsOutdated};

use crate::tables::Tables;
use sqlite::{Connection, FileStore, Files, Options};
use sqlite_disk::Crash;
use std::alloc::Global;

/// Gives up a store without closing it, lets both its files crash, and opens them again: what a crash could leave is
/// what the new store keeps. Where the files do not open, as for want of memory, they come back.
pub fn restart<D: Crash + Drop>(
    alloc: Global,
    tables: Tables<FileStore<D>>,
    options: Options,
) -> Result<Tables<FileStore<D>>, Files<D>>
    ensures kept { (it : _) → KeepsStore tables it → IfOk result (λ again. KeepsStore again it) }
    ensures either { (a : _) → (b : _) → KeepsOneOf tables a b → IfOk result (λ again. KeepsOneOf again a b) }
    ensures bare { KeepsBlank tables → IfOk result KeepsBlank }
    ensures bare_or { (it : _) → KeepsBlankOr tables it → IfOk result (λ again. KeepsBlankOr again it) }
    ensures beside { (others : _) → KeepsOthers tables others → IfOk result (λ again. KeepsOthers again others) }
    ensures marked { KeepsOutdated tables → IfOk result KeepsOutdated }
    ensures honest { IfOk result (λ again. IsHonest again → IsHonest tables) }
    ensures sound { IfOk result (λ again. has_failed again ≡ false) }
{
    let mut left = tables.into_connection().into_store().close();
    left.log.crash();
    left.db.crash();
    match Connection::open_files(alloc, left, options) {
        Ok(conn) => Ok(Tables::over(conn)),
        Err((_, rest)) => Err(rest.into_files()),
    }
}
