//! A service over a database, whatever this lies on.
ghost use Rattle.std.specs.Prelude.{◌≡◌, false, option_copied, IfErr, IfOk};
ghost use Rattle.site_store.specs.Opened.{IsKeeperOf};
ghost use Rattle.live_databases.specs.Services.{served_by};
ghost use Rattle.live_databases.specs.ServedStores.{OpensServed};
ghost use Rattle.live_databases.specs.LiveStores.{ServesOver, LogsOver, unloaded_end, unlogged_end};
ghost use Rattle.live_databases.specs.Endings.{refused_store};

use crate::service_end::{Absence, ServiceEnd};
use durable_keeper::KeeperError;
use exit_status::{Status, StoreRefusal};
use line_conversation::Conversation;
use live_site::{CallLog, StorePlace};
use log_file::{ExclusiveFile, FileLog, LogError, SystemFile, open_log};
use merge_core::Layout;
use serve_engine::{Marking, serve_engine};
use site_store::{Keeper, Permission, ServedError, SqlKeeper};
use sqlite::{Alter, Connection};
use std::alloc::Global;
use std::rt::Files;

/// Which site is served, and how.
#[derive(Clone, Copy, Debug)]
pub struct Service<'a> {
    /// The site's number.
    pub site: u16,
    /// The name of the group of sites that the site belongs to, if it has one.
    pub group: Option<&'a str>,
    /// Whether deltas travel with a mark.
    pub marking: Marking,
    /// What the opening of its store may write.
    pub permission: Permission,
}

/// Opens the store of a site for a service, in a database in which no transaction is open, and tells whether this call made
/// it. A refusal hands the database back.
pub(crate) fn open_keeper<S: Alter>(
    alloc: Global,
    connection: Connection<S>,
    layout: &Layout,
    service: Service<'_>,
) -> Result<(SqlKeeper<S>, bool), (ServedError, Connection<S>)>
    requires { connection.in_transaction ≡ false }
    ensures keeper { IfOk result (λ x. IsKeeperOf layout.now service.entry.site (option_copied service.entry.group) x.0) }
    ensures opened { OpensServed S.Store layout.now (served_by service.entry) connection result }
    ensures idle { IfErr result (λ x. x.1.in_transaction ≡ false) }
{
    SqlKeeper::open_served(
        alloc,
        connection,
        layout,
        service.site,
        service.group,
        service.permission,
    )
}

/// Serves a site over a database in which no transaction is open, and hands the database back. The place is where the
/// database lies.
pub fn serve_live_over<S: Alter + Drop, C: Conversation, L: CallLog, P: StorePlace>(
    alloc: Global,
    connection: Connection<S>,
    layout: Layout,
    service: Service<'_>,
    conversation: &mut C,
    log: &mut L,
    place: &P,
) -> (ServiceEnd, Connection<S>)
    requires { connection.in_transaction ≡ false }
    ensures { ServesOver S.Store ⟦<SqlKeeper<S> as Keeper>⟧ C.Conversation L.CallLog layout (served_by service.entry) connection result.1
        conversation.old conversation.new log.old log.new result.0 }
{
    let (keeper, _made) = match open_keeper(alloc, connection, &layout, service) {
        Ok(opened) => opened,
        Err((error, connection)) => return (refused_store(error), connection),
    };
    let (status, keeper) = serve_engine(
        alloc,
        keeper,
        layout,
        service.site,
        service.group,
        service.marking,
        conversation,
        log,
        place,
    );
    (ServiceEnd::Ended(status), keeper.into_connection())
}

/// How the service ends where the store is refused.
pub(crate) fn refused_store(error: ServedError) -> ServiceEnd
    ensures { result ≡ refused_store error }
{
    match error {
        ServedError::NotAStore => ServiceEnd::Absent(Absence::NotAStore),
        ServedError::NoStore => ServiceEnd::Absent(Absence::NoStore),
        ServedError::Exists => ServiceEnd::Absent(Absence::Exists),
        ServedError::BadStore => ServiceEnd::Ended(Status::NoStore(StoreRefusal::BadStore)),
        ServedError::WrongSite => ServiceEnd::Ended(Status::NoStore(StoreRefusal::WrongSite)),
        ServedError::WrongGroup => ServiceEnd::Absent(Absence::WrongGroup),
        ServedError::Outdated => ServiceEnd::Absent(Absence::Outdated),
        ServedError::WrongLayout => {
            ServiceEnd::Ended(Status::NoStore(StoreRefusal::WrongLayout))
        }
        ServedError::StoreFault => ServiceEnd::Ended(Status::NoStore(StoreRefusal::StoreFault)),
        ServedError::Memory => ServiceEnd::Ended(Status::Memory),
    }
}

/// The same with a log in the file at a path, which is opened for what the store kept: each call is in it before its change
/// is committed. Whether this call made the store, too.
pub fn serve_logged_over<
    S: Alter + Drop,
    C: Conversation,
    R: Files<File: ExclusiveFile> + AllocGlobal,
    P: StorePlace,
>(
    rt: &R,
    path: &str,
    connection: Connection<S>,
    layout: Layout,
    service: Service<'_>,
    conversation: &mut C,
    place: &P,
) -> (ServiceEnd, bool, Connection<S>)
    requires { connection.in_transaction ≡ false }
    ensures { LogsOver S.Store ⟦<SqlKeeper<S> as Keeper>⟧ R.File.ExclusiveFile R.File.Read.remaining R.File.Write.contents C.Conversation ⟦<FileLog<SystemFile<R::File>> as CallLog>⟧ layout
        (served_by service.entry) connection result.2 conversation.old conversation.new result.1 result.0 }
{
    let alloc = rt.alloc();
    let (mut keeper, made) = match open_keeper(alloc, connection, &layout, service) {
        Ok(opened) => opened,
        Err((error, connection)) => return (refused_store(error), false, connection),
    };
    let first = match keeper.load(alloc) {
        Ok(first) => first,
        Err(error) => return (unloaded(error), made, keeper.into_connection()),
    };
    let mut log = match open_log(rt, path, &layout, service.site, &first) {
        Ok(log) => log,
        Err(error) => return (unlogged(error), made, keeper.into_connection()),
    };
    let (status, keeper) = serve_engine(
        alloc,
        keeper,
        layout,
        service.site,
        service.group,
        service.marking,
        conversation,
        &mut log,
        place,
    );
    (ServiceEnd::Ended(status), made, keeper.into_connection())
}

/// How the service ends where the store gives nothing back.
pub(crate) fn unloaded(error: KeeperError) -> ServiceEnd
    ensures { result ≡ unloaded_end error }
{
    match error {
        KeeperError::Memory => ServiceEnd::Ended(Status::Memory),
        KeeperError::StoreFault => { ServiceEnd::Ended(Status::NoStore(StoreRefusal::StoreFault)) }
    }
}

// How it ends where the log is not opened.
fn unlogged(error: LogError) -> ServiceEnd
    ensures { result ≡ unlogged_end error }
{
    match error {
        LogError::Memory => ServiceEnd::Ended(Status::Memory),
        LogError::Refused(refusal) => ServiceEnd::NoLog(refusal),
        LogError::Io => ServiceEnd::Unlogged,
    }
}
