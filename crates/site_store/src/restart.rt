//! A crash of a keeper's files, and the keeper opened again.
ghost use Rattle.std.specs.Prelude.{◌≡◌, ◌⊎◌, IfSome};
ghost use Rattle.admission_core.specs.Kept.{DurableState};
ghost use Rattle.sqlite.specs.Effect.{Database};
ghost use Rattle.sqlite.specs.Files.{over_files};
ghost use Rattle.store_rows.specs.Holding.{KeepsBeside};
ghost use Rattle.site_store.specs.Sql.{KeepsPart, KeepsEitherPart, below, group_of, is_honest, layout_of, site_of};

use crate::sql::SqlKeeper;
use sqlite::{FileStore, Options};
use sqlite_disk::Crash;
use std::alloc::Global;

/// Gives up a keeper without closing it, lets both files of its store crash, and opens them again, for the same site,
/// layout and group: what it kept is what the new one keeps, and where it was not known which of two durable parts that
/// is, the new one keeps one of them. Tables of other names, which were made behind those of the store, keep their rows.
/// `None` where the files do not open, or the store is refused.
pub fn restart<D: Crash + Drop>(
    alloc: Global,
    keeper: SqlKeeper<FileStore<D>>,
    options: Options,
) -> Option<SqlKeeper<FileStore<D>>>
    ensures layout { IfSome result (λ again. layout_of again ≡ layout_of keeper) }
    ensures site { IfSome result (λ again. site_of again ≡ site_of keeper) }
    ensures group { IfSome result (λ again. group_of again ≡ group_of keeper) }
    ensures kept { (d : DurableState) → KeepsPart keeper d → IfSome result (λ again. KeepsPart again d) }
    ensures beside { (d : DurableState) → (others : Database) → KeepsPart keeper d → KeepsBeside over_files (below keeper) others
        → IfSome result (λ again. KeepsBeside over_files (below again) others) }
    ensures either { (d e : DurableState) → KeepsEitherPart keeper d e → IfSome result (λ again. is_honest again → ∥ KeepsPart again d ⊎ KeepsPart again e ∥₁) }
    ensures either_beside { (d e : DurableState) → (others : Database) → KeepsEitherPart keeper d e → KeepsBeside over_files (below keeper) others
        → IfSome result (λ again. KeepsBeside over_files (below again) others) }
{
    let (tables, layout, site, group) = keeper.into_parts();
    let Ok(again) = store_tables::restart::restart(alloc, tables, options) else {
        return None;
    };
    let connection = again.into_connection();
    if !connection.is_autocommit() {
        return None;
    }
    match SqlKeeper::open(alloc, connection, &layout, site, group.as_deref()) {
        Ok(again) => Some(again),
        Err(_) => None,
    }
}
