//! The database at a path, of a runtime that has some.
ghost use Rattle.std.specs.Prelude.{◌≡◌, ◌<◌, Bool, true, false, string_bytes, IfErr, IfOk, MatchResult, option_copied, option_map};
ghost use Rattle.sqlite_wal.specs.Files.{image_at};
ghost use Rattle.live_databases.specs.LiveDatabases.{EndsLive};
ghost use Rattle.live_databases.specs.LiveFound.{EndsFound, FindsFiles, RunsOver};
ghost use Rattle.live_databases.specs.LiveMoves.{EndsUntold, MovesSome, RebuildsNone, RebuildsSome};
ghost use Rattle.live_databases.specs.LiveRounds.{EndsLiveRounds};
ghost use Rattle.live_databases.specs.LiveStores.{IsUnopened};
ghost use Rattle.live_databases.specs.Services.{served_by};
ghost use Rattle.live_databases.specs.Endings.{is_unlogged, unopened_end};

use crate::places::{Place, StoreFile, find_file, find_log, is_at, is_store_file};
use crate::rebuilding::RebuildEnd;
use crate::regrouping::{rebuild_found, regroup_found};
use crate::rounds::serve_rounds_found;
use crate::service_end::{Absence, ServiceEnd};
use crate::serving::{Service, serve_live_over, serve_logged_over};
use exit_status::{Status, StoreRefusal};
use layout_file::LayoutFault;
use line_conversation::{Conversation, RoundConversation};
use live_site::{CallLog, NoLog};
use log_file::{ExclusiveFile, FileLog, SystemFile};
use merge_core::Layout;
use site_store::{Keeper, SqlKeeper};
use sqlite::{Connection, Error, ErrorCode, FileFrom, FileStore, Start, Unknown};
use std::io::{Read, Write};
use std::time::Duration;
use std::{fs, thread};

/// Which site is served over which database, and how.
#[derive(Clone, Copy, Debug)]
pub struct Opening<'a> {
    /// Where the database is.
    pub path: &'a str,
    /// The site, and how it is served.
    pub service: Service<'a>,
    /// How many seconds to wait where another process has the database open.
    pub wait: u16,
    /// The file for the site's log, if there is one.
    pub log: Option<&'a str>,
    /// How many calls are committed together at most. Only [`serve_live_rounds`] reads it, which knows no log.
    pub together: u16,
}

/// A runtime that has databases for a service.
pub trait LiveDatabases {
    /// Serves a site of the layout over the database at a path: it is opened, the site's store in it is judged, and then the
    /// conversation's lines are answered.
    fn serve_conversation<C: Conversation>(
        &self,
        opening: Opening<'_>,
        layout: Layout,
        conversation: &mut C,
    ) -> ServiceEnd
        requires { opening.service.site < layout.sites }
        ensures { EndsLive C.Conversation layout opening.entry.service.site (option_copied opening.entry.service.group) opening.entry.service.marking (option_map (λ path. path.now) opening.entry.log)
            conversation.old conversation.new result };

    /// The same where lines that have come are carried out in rounds, each of which is committed in one transaction. There is no
    /// log.
    fn serve_rounds<C: RoundConversation>(
        &self,
        opening: Opening<'_>,
        layout: Layout,
        conversation: &mut C,
    ) -> ServiceEnd
        requires { opening.service.site < layout.sites }
        ensures { EndsLiveRounds C.Conversation opening.entry.together layout opening.entry.service.site (option_copied opening.entry.service.group)
            opening.entry.service.marking conversation.old conversation.new result };

    /// Moves the store of a site of the layout at a path to the next generation of its group, and gives the text to print: the
    /// site's whole delta behind a mark of its own.
    fn move_store(
        &self,
        path: &str,
        layout: Layout,
        site: u16,
        group: &str,
    ) -> Result<String, ServiceEnd>
        requires { site < layout.sites }
        ensures { MatchResult result (λ text. MovesSome layout site group.now (string_bytes text)) (EndsUntold layout site) };

    /// Builds a site of the group of this name again, which lost its store with these others, of the bytes of an input, makes
    /// its store at a path where none is, and gives what is printed of the site.
    fn rebuild_store(
        &self,
        path: &str,
        layout: Layout,
        site: u16,
        lost: &[u16],
        name: &str,
        bytes: &[u8],
    ) -> Result<String, RebuildEnd>
        ensures { MatchResult result
            (λ text. RebuildsSome layout site lost.now name.now bytes.now (string_bytes text))
            (RebuildsNone layout site lost.now name.now bytes.now) };
}

impl LiveDatabases for HostRuntime {
    fn serve_conversation<C: Conversation>(
        &self,
        opening: Opening<'_>,
        layout: Layout,
        conversation: &mut C,
    ) -> ServiceEnd {
        serve_found::<Unknown, C>(self, opening, layout, conversation)
    }

    fn serve_rounds<C: RoundConversation>(
        &self,
        opening: Opening<'_>,
        layout: Layout,
        conversation: &mut C,
    ) -> ServiceEnd {
        serve_rounds_found::<Unknown, C>(self, opening, layout, conversation)
    }

    fn move_store(
        &self,
        path: &str,
        layout: Layout,
        site: u16,
        group: &str,
    ) -> Result<String, ServiceEnd> {
        regroup_found::<Unknown>(self, path, layout, site, group)
    }

    fn rebuild_store(
        &self,
        path: &str,
        layout: Layout,
        site: u16,
        lost: &[u16],
        name: &str,
        bytes: &[u8],
    ) -> Result<String, RebuildEnd> {
        rebuild_found::<Unknown>(self, path, layout, site, lost, name, bytes)
    }
}

/// What the files at a path hold when they are opened. A value is used up by one opening, so that code over any beginning says
/// the same of each try.
pub trait Beginning: Start {
    /// A value for one opening.
    fn begin() -> Self;
}

impl Beginning for Unknown {
    fn begin() -> Unknown {
        Unknown
    }
}

/// Serves a site over the database at a path, where `S` stands for what its files hold. `main` gives [`Unknown`], which
/// supposes that a write that is torn by a crash leaves each byte old or new. That the files are those at the path is
/// read in the code. Before each line that reaches the site it is looked whether the file and SQLite's log are still at their
/// paths; where one is not, the site serves no more, since what it would answer would be lost.
///
/// At the end the log beside the file is copied into it; where that fails, the next opening reads it there. A store that this
/// call made and then did not serve, as its log is refused, is removed before the database is closed, so that the same
/// command can be repeated and no other process has used it meanwhile. Where another file stands at the path by then, that
/// one stays, and nothing is removed; only a file that comes there in the very moment of the removal is lost.
pub fn serve_found<S: Beginning, C: Conversation>(
    rt: &HostRuntime,
    opening: Opening<'_>,
    layout: Layout,
    conversation: &mut C,
) -> ServiceEnd
    requires { opening.service.site < layout.sites }
    ensures live { EndsLive C.Conversation layout opening.entry.service.site (option_copied opening.entry.service.group) opening.entry.service.marking (option_map (λ path. path.now) opening.entry.log)
        conversation.old conversation.new result }
    ensures found { EndsFound ⟦<SqlKeeper<FileStore<FileFrom<S>>> as Keeper>⟧ ⟦<std::fs::File as ExclusiveFile>⟧ ⟦<std::fs::File as Read>⟧.remaining ⟦<std::fs::File as Write>⟧.contents C.Conversation
        ⟦<NoLog as CallLog>⟧ ⟦<FileLog<SystemFile<std::fs::File>> as CallLog>⟧ layout (served_by opening.entry.service)
        (option_map (λ path. path.now) opening.entry.log) (image_at S.Start) conversation.old conversation.new result }
{
    if let Some(log) = opening.log {
        if log == opening.path {
            return ServiceEnd::LogIsStore;
        }
    }
    let (connection, place) = match open_in_time::<S>(rt, opening) {
        Ok(opened) => opened,
        Err(ended) => return ended,
    };
    let store = StoreFile {
        rt,
        path: opening.path,
        place,
        log: find_log(rt, opening.path),
    };
    let (ended, made, connection) = serve_open(
        rt,
        opening,
        connection,
        layout,
        conversation,
        &store,
    );
    if made && is_unlogged(ended) {
        remove_made(&store, &connection, made, ended);
    }
    let _ = connection.close(); // what was answered is in the log, if not in the file
    ended
}

// Serves a site over its database, with a log if one is named. Whether this call made the store.
fn serve_open<S: Beginning, C: Conversation>(
    rt: &HostRuntime,
    opening: Opening<'_>,
    connection: Connection<FileStore<FileFrom<S>>>,
    layout: Layout,
    conversation: &mut C,
    store: &StoreFile<'_>,
) -> (ServiceEnd, bool, Connection<FileStore<FileFrom<S>>>)
    requires site { opening.service.site < layout.sites }
    requires idle { connection.in_transaction ≡ false }
    ensures { RunsOver ⟦<SqlKeeper<FileStore<FileFrom<S>>> as Keeper>⟧ ⟦<std::fs::File as ExclusiveFile>⟧ ⟦<std::fs::File as Read>⟧.remaining ⟦<std::fs::File as Write>⟧.contents C.Conversation
        ⟦<NoLog as CallLog>⟧ ⟦<FileLog<SystemFile<std::fs::File>> as CallLog>⟧ layout (served_by opening.entry.service)
        (option_map (λ path. path.now) opening.entry.log) connection result.2 conversation.old conversation.new result.1 result.0 }
{
    let Some(log) = opening.log else {
        let (ended, connection) = serve_live_over(
            rt.alloc(),
            connection,
            layout,
            opening.service,
            conversation,
            &mut NoLog {},
            store,
        );
        return (ended, false, connection);
    };
    match is_store_file(log, store) {
        Ok(false) => {}
        Ok(true) => return (ServiceEnd::LogIsStore, false, connection),
        Err(_) => return (ServiceEnd::Ended(Status::Memory), false, connection),
    }
    serve_logged_over(
        rt,
        log,
        connection,
        layout,
        opening.service,
        conversation,
        store,
    )
}

// Removes the store that this start made, where nothing was served for want of a log that can be used. No process can have used
// it: it is still locked, as the open connection shows. Another file at its path stays, unless it comes there between the look
// and the removal. Where a link leads to the store, the link stays. SQLite's log goes first: without it the database is empty, so
// that the store is not there again where only one of the two was removed.
fn remove_made<S: Beginning>(
    store: &StoreFile<'_>,
    _locked: &Connection<FileStore<FileFrom<S>>>,
    made: bool,
    ended: ServiceEnd,
)
    requires made { made ≡ true }
    requires unlogged { is_unlogged ended ≡ true }
{
    let _ = (made, ended);
    let Ok(real) = fs::canonicalize(store.rt, store.path) else {
        return;
    };
    if is_at(store.rt, real.as_str(), store.place) {
        remove_log(store);
        let _ = fs::remove_file(store.rt, real.as_str());
    }
}

// Removes SQLite's log of a store.
fn remove_log(store: &StoreFile<'_>) {
    if let Some(log) = &store.log {
        if is_at(store.rt, log.path.as_str(), log.place) {
            let _ = fs::remove_file(store.rt, log.path.as_str());
        }
    }
}

// Whether nothing was served, for want of a log that can be used.
fn is_unlogged(ended: ServiceEnd) -> bool
    ensures { result ≡ is_unlogged ended }
{
    match ended {
        ServiceEnd::NoLog(_) | ServiceEnd::Unlogged => true,
        _ => false,
    }
}

/// Opens the database at a path. Where another process has it open it is tried again each hundredth of a second.
pub(crate) fn open_in_time<S: Beginning>(
    rt: &HostRuntime,
    opening: Opening<'_>,
) -> Result<(Connection<FileStore<FileFrom<S>>>, Place), ServiceEnd>
    ensures opened { IfOk result (λ x. FindsFiles (image_at S.Start) x.0) }
    ensures idle { IfOk result (λ x. x.0.in_transaction ≡ false) }
    ensures unopened { IfErr result (IsUnopened opening.entry.service.permission.create) }
{
    let create = opening.service.permission.create;
    for _ in 0..u64::from(opening.wait) * 100 {
        match open_once::<S>(rt, opening.path, create) {
            Err(ServiceEnd::Absent(Absence::InUse)) => {
                thread::sleep(rt, Duration::from_millis(10));
            }
            opened => return opened,
        }
    }
    open_once::<S>(rt, opening.path, create)
}

/// Opens the database at a path, where a file is there or is to be made. The file that was found there before is there still
/// behind the opening, which locks it: so it is the one that was opened, and no other process has removed it meanwhile. Which
/// file that is, is handed back.
pub(crate) fn open_once<S: Beginning>(
    rt: &HostRuntime,
    path: &str,
    create: bool,
) -> Result<(Connection<FileStore<FileFrom<S>>>, Place), ServiceEnd>
    ensures opened { IfOk result (λ x. FindsFiles (image_at S.Start) x.0) }
    ensures idle { IfOk result (λ x. x.0.in_transaction ≡ false) }
    ensures unopened { IfErr result (IsUnopened create) }
{
    let place = match find_file(rt, path, create) {
        Ok(place) => place,
        Err(ended) => return Err(ended),
    };
    let connection = match Connection::open_from(rt, path, false, S::begin()) {
        Ok(connection) => connection,
        Err((error, _)) => return Err(unopened(error)),
    };
    if is_at(rt, path, place) {
        return Ok((connection, place));
    }
    let _ = connection.close(); // nothing was written through it
    Err(ServiceEnd::Absent(Absence::InUse))
}

// How a service ends whose database could not be opened.
fn unopened(error: Error) -> ServiceEnd
    ensures unopened { (create : Bool) → IsUnopened create result }
    ensures ended { result ≡ unopened_end error }
{
    match error {
        Error::SqliteFailure(ErrorCode::OutOfMemory) => ServiceEnd::Ended(Status::Memory),
        Error::SqliteFailure(ErrorCode::DatabaseBusy) => ServiceEnd::Absent(Absence::InUse),
        Error::SqliteFailure(ErrorCode::NotADatabase) => ServiceEnd::Absent(Absence::NotAStore),
        _ => ServiceEnd::Ended(Status::NoStore(StoreRefusal::StoreFault)),
    }
}

/// Moves the store of a site at a path, if the layout has the site.
pub fn move_live<R: LiveDatabases>(
    rt: &R,
    path: &str,
    layout: Layout,
    site: u16,
    group: &str,
) -> Result<String, ServiceEnd>
    ensures { MatchResult result (λ text. MovesSome layout site group.now (string_bytes text)) (EndsUntold layout site) }
{
    if site >= layout.sites() {
        return Err(ServiceEnd::Ended(Status::NoLayout(LayoutFault::NoSite)));
    }
    rt.move_store(path, layout, site, group)
}

/// Serves a site over the database at a path, if the layout has the site.
pub fn serve_live<R: LiveDatabases, C: Conversation>(
    rt: &R,
    opening: Opening<'_>,
    layout: Layout,
    conversation: &mut C,
) -> ServiceEnd
    ensures { EndsLive C.Conversation layout opening.entry.service.site (option_copied opening.entry.service.group) opening.entry.service.marking (option_map (λ path. path.now) opening.entry.log)
        conversation.old conversation.new result }
{
    if opening.service.site >= layout.sites() {
        return ServiceEnd::Ended(Status::NoLayout(LayoutFault::NoSite));
    }
    rt.serve_conversation(opening, layout, conversation)
}

/// Serves a site over the database at a path in rounds, if the layout has the site.
pub fn serve_live_rounds<R: LiveDatabases, C: RoundConversation>(
    rt: &R,
    opening: Opening<'_>,
    layout: Layout,
    conversation: &mut C,
) -> ServiceEnd
    ensures { EndsLiveRounds C.Conversation opening.entry.together layout opening.entry.service.site (option_copied opening.entry.service.group)
        opening.entry.service.marking conversation.old conversation.new result }
{
    if opening.service.site >= layout.sites() {
        return ServiceEnd::Ended(Status::NoLayout(LayoutFault::NoSite));
    }
    rt.serve_rounds(opening, layout, conversation)
}
