//! A service whose calls are committed together, over a database, whatever this lies on. It has no log.
ghost use Rattle.std.specs.Prelude.{◌≡◌, ◌<◌, false, option_copied};
ghost use Rattle.sqlite_wal.specs.Files.{image_at};
ghost use Rattle.live_databases.specs.LiveRounds.{EndsFoundRounds, EndsLiveRounds, RoundsOver};
ghost use Rattle.live_databases.specs.Services.{served_by};

use crate::databases::{Beginning, Opening, open_in_time};
use crate::places::{StoreFile, find_log};
use crate::service_end::ServiceEnd;
use crate::serving::{Service, open_keeper, refused_store};
use line_conversation::RoundConversation;
use live_site::StorePlace;
use merge_core::Layout;
use serve_engine::serve_together;
use site_store::{Keeper, SqlKeeper};
use sqlite::{Alter, Connection, FileFrom, FileStore};
use std::alloc::Global;

/// Serves a site over a database in which no transaction is open, and hands the database back. Lines that have come are carried
/// out in rounds of at most so many, each of which is committed in one transaction. The place is where the database lies.
pub fn serve_rounds_over<S: Alter + Drop, C: RoundConversation, P: StorePlace>(
    alloc: Global,
    connection: Connection<S>,
    layout: Layout,
    service: Service<'_>,
    most: u16,
    conversation: &mut C,
    place: &P,
) -> (ServiceEnd, Connection<S>)
    requires { connection.in_transaction ≡ false }
    ensures { RoundsOver S.Store ⟦<SqlKeeper<S> as Keeper>⟧ C.Conversation most layout (served_by service.entry) connection result.1
        conversation.old conversation.new result.0 }
{
    let (keeper, _made) = match open_keeper(alloc, connection, &layout, service) {
        Ok(opened) => opened,
        Err((error, connection)) => return (refused_store(error), connection),
    };
    let (status, keeper) = serve_together(
        alloc,
        keeper,
        layout,
        service.site,
        service.group,
        service.marking,
        most as usize,
        conversation,
        place,
    );
    (ServiceEnd::Ended(status), keeper.into_connection())
}

/// The same over the database at a path, where `S` stands for what its files hold.
pub fn serve_rounds_found<S: Beginning, C: RoundConversation>(
    rt: &HostRuntime,
    opening: Opening<'_>,
    layout: Layout,
    conversation: &mut C,
) -> ServiceEnd
    requires { opening.service.site < layout.sites }
    ensures live { EndsLiveRounds C.Conversation opening.entry.together layout opening.entry.service.site (option_copied opening.entry.service.group)
        opening.entry.service.marking conversation.old conversation.new result }
    ensures found { EndsFoundRounds ⟦<SqlKeeper<FileStore<FileFrom<S>>> as Keeper>⟧ C.Conversation opening.entry.together layout (served_by opening.entry.service)
        (image_at S.Start) conversation.old conversation.new result }
{
    let (connection, place) = match open_in_time::<S>(rt, opening) {
        Ok(opened) => opened,
        Err(ended) => return ended,
    };
    let store = StoreFile {
        rt,
        path: opening.path,
        place,
        log: find_log(rt, opening.path),
    };
    let (ended, connection) = serve_rounds_over(
        rt.alloc(),
        connection,
        layout,
        opening.service,
        opening.together,
        conversation,
        &store,
    );
    let _ = connection.close(); // what was answered is in the log, if not in the file
    ended
}
