//! A site's store is moved to the next generation of its group.
ghost use Rattle.std.specs.Prelude.{◌≡◌, ◌<◌, false, string_bytes, IfOk, MatchResult};
ghost use Rattle.admission_core.specs.Core.{Stands};
ghost use Rattle.admission_core.specs.Kept.{DurableState};
ghost use Rattle.admission_model.specs.Account.{Account, layout_of};
ghost use Rattle.admission_model.specs.Merging.{snapshot_of};
ghost use Rattle.admission_model.specs.View.{view_of};
ghost use Rattle.serve_engine.specs.Moved.{moved_text};
ghost use Rattle.store_rows.specs.Rows.{Stored};
ghost use Rattle.sqlite.specs.Effect.{Database};
ghost use Rattle.store_rows.specs.Holding.{Keeps, KeepsBeside};
ghost use Rattle.site_store.specs.Opened.{CommitsNothing};
ghost use Rattle.site_store.specs.Sql.{KeepsContent, KeepsPart, below, site_of};
ghost use Rattle.live_databases.specs.Moves.{EndsForeign, EndsRefused, HasMoved, IsNotMoved, Moves, MovesNot, TellsNone, TellsWhole, foreign_end, unfit_end};

use crate::service_end::{Absence, ServiceEnd};
use crate::serving::{Service, open_keeper, refused_store, unloaded};
use admission_core::{RestoreError, SiteCore};
use exit_status::{Status, StoreRefusal};
use group_names::{is_group_name, next_name};
use layout_file::LayoutFault;
use merge_core::Layout;
use serve_engine::{Marking, moved_text};
use site_store::{Permission, ServedError, SqlKeeper, is_ungrouped};
use sqlite::{Alter, Connection};
use std::alloc::{AllocError, Global};
use store_tables::TableError;

/// Moves the store of a site to the next generation of its group, and gives the text to print: the site's whole delta behind a
/// mark of its own. The text is made before the move is committed: what is told before that would count though the move never
/// came. Hands the database back, in which no transaction is open. Linear in what is stored.
pub fn regroup_over<S: Alter + Drop>(
    alloc: Global,
    connection: Connection<S>,
    layout: Layout,
    site: u16,
    group: &str,
) -> (Result<String, ServiceEnd>, Connection<S>)
    requires idle { connection.in_transaction ≡ false }
    requires site { site < layout.sites }
    ensures { MatchResult result.0
        (λ text. HasMoved S.Store layout site group.now connection result.1 (string_bytes text))
        (λ ended. IsNotMoved S.Store layout site group.now connection result.1 ended) }
{
    if !is_group_name(group) {
        return (Err(ServiceEnd::Absent(Absence::WrongGroup)), connection); // no store is of such a group
    }
    let next = match next_name(alloc, group) {
        Ok(Some(next)) => next,
        Ok(None) => return (Err(ServiceEnd::Absent(Absence::LastGeneration)), connection),
        Err(AllocError) => return (Err(ServiceEnd::Ended(Status::Memory)), connection),
    };
    let service = Service {
        site,
        group: Some(group),
        marking: Marking::Marked,
        permission: Permission {
            create: false,
            grow: false,
        },
    };
    let (mut keeper, _made) = match open_keeper(alloc, connection, &layout, service) {
        Ok(opened) => opened,
        Err((error, connection)) => {
            let (ended, connection) = end_refused(alloc, error, connection, site);
            return (Err(ended), connection);
        }
    };
    let told = move_told(alloc, &mut keeper, layout, site, next.as_str());
    (told, keeper.into_connection())
}

// How a move ends whose store is refused: that of no group by a name of its own.
fn end_refused<S: Alter>(
    alloc: Global,
    error: ServedError,
    connection: Connection<S>,
    site: u16,
) -> (ServiceEnd, Connection<S>)
    requires { connection.in_transaction ≡ false }
    ensures { EndsRefused S.Store site error connection result.1 result.0 }
{
    match error {
        ServedError::WrongGroup => end_foreign(alloc, connection, site),
        _ => (refused_store(error), connection),
    }
}

// How a move ends whose store is refused as that of another group.
fn end_foreign<S: Alter>(
    alloc: Global,
    connection: Connection<S>,
    site: u16,
) -> (ServiceEnd, Connection<S>)
    requires { connection.in_transaction ≡ false }
    ensures kept { (it : Stored) → Keeps S.Store connection it → Keeps S.Store result.1 it }
    ensures unwritten { CommitsNothing S.Store connection result.1 }
    ensures ends { EndsForeign S.Store site connection result.1 result.0 }
{
    let (found, connection) = is_ungrouped(alloc, connection, site);
    (foreign_end(found), connection)
}

// The same by what was found of the store's row for the site: whether it is of no group.
fn foreign_end(found: Result<bool, TableError>) -> ServiceEnd
    ensures { result ≡ foreign_end found }
{
    match found {
        Ok(true) => ServiceEnd::Absent(Absence::NoGroup),
        Ok(false) => ServiceEnd::Absent(Absence::WrongGroup),
        Err(error) => refused_store(ServedError::from(error)),
    }
}

// Makes the text, and moves the store behind that.
fn move_told<S: Alter>(
    alloc: Global,
    keeper: &mut SqlKeeper<S>,
    layout: Layout,
    site: u16,
    name: &str,
) -> Result<String, ServiceEnd>
    requires site { site < layout.sites }
    requires its_site { site_of keeper.old ≡ site }
    ensures { MatchResult result
        (λ text. Moves layout site name.now keeper.old keeper.new (string_bytes text))
        (λ ended. MovesNot layout site name.now keeper.old keeper.new ended) }
{
    let text = match whole_text(alloc, keeper, layout, site, name) {
        Ok(text) => text,
        Err(ended) => return Err(ended),
    };
    match keeper.move_to_group(name) {
        Ok(()) => Ok(text),
        Err(error) => Err(unloaded(error)),
    }
}

// The text that tells all that the site knows, by what its store gives back.
fn whole_text<S: Alter>(
    alloc: Global,
    keeper: &mut SqlKeeper<S>,
    layout: Layout,
    site: u16,
    name: &str,
) -> Result<String, ServiceEnd>
    requires site { site < layout.sites }
    ensures told { MatchResult result
        (λ text. TellsWhole layout site name.now keeper.old keeper.new (string_bytes text))
        (λ ended. TellsNone layout site keeper.old keeper.new ended) }
    ensures content { (it : Stored) → KeepsContent keeper.old it → KeepsContent keeper.new it }
    ensures part { (d : DurableState) → KeepsPart keeper.old d → KeepsPart keeper.new d }
    ensures beside { (others : Database) → KeepsBeside S.Store (below keeper.old) others → KeepsBeside S.Store (below keeper.new) others }
    ensures same_site { site_of keeper.new ≡ site_of keeper.old }
{
    let first = match keeper.load_part(alloc) {
        Ok(first) => first,
        Err(error) => return Err(unloaded(error)),
    };
    let core = match SiteCore::restore(alloc, layout, site, first) {
        Ok(core) => core,
        Err(error) => return Err(unfit(error)),
    };
    match core_text(alloc, &core, name) {
        Ok(text) => Ok(text),
        Err(AllocError) => Err(ServiceEnd::Ended(Status::Memory)),
    }
}

// How a move ends whose store begins no site.
fn unfit(error: RestoreError) -> ServiceEnd
    ensures { result ≡ unfit_end error }
{
    match error {
        RestoreError::BadSite => ServiceEnd::Ended(Status::NoLayout(LayoutFault::NoSite)),
        RestoreError::WrongCounters => {
            ServiceEnd::Ended(Status::NoStore(StoreRefusal::WrongCounters))
        }
        RestoreError::WrongSessions => {
            ServiceEnd::Ended(Status::NoStore(StoreRefusal::WrongSessions))
        }
        RestoreError::Memory => ServiceEnd::Ended(Status::Memory),
    }
}

// The text of all that a core knows.
fn core_text(alloc: Global, core: &SiteCore, name: &str) -> Result<String, AllocError>
    ensures { IfOk result (λ text. (a : Account) → Stands a core.now → string_bytes text ≡ moved_text (layout_of a).records name.now (snapshot_of (view_of a))) }
{
    let delta = core.snapshot()?;
    moved_text(alloc, core.layout(), name, &delta)
}
