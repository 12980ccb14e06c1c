//! Sites over databases, whatever these lie on.
ghost use Rattle.std.specs.Prelude.{◌≡◌, false};
ghost use Rattle.stored_site.specs.StoredSites.{EndsOver, refusal_status};

use exit_status::{Status, StoreRefusal};
use merge_core::Layout;
use site_engine::site_engine;
use site_store::{Keeper, SqlKeeper, StoreOpenError};
use sqlite::{Alter, Connection};
use std::alloc::Global;
use std::io::{Read, Write};
use text_input::{Sink, Source};

/// Serves a site that is in no group over a database in which no transaction is open, and hands the database back.
pub fn serve_over<S: Alter + Drop, I: Read, O: Write>(
    alloc: Global,
    connection: Connection<S>,
    layout: Layout,
    site: u16,
    source: &mut Source<I>,
    sink: &mut Sink<O>,
) -> (Status, Connection<S>)
    requires { connection.in_transaction ≡ false }
    ensures { EndsOver S.Store ⟦<SqlKeeper<S> as Keeper>⟧ layout site connection result.1 source.old source.new sink.old sink.new result.0 }
{
    let keeper = match SqlKeeper::open(alloc, connection, &layout, site, None) {
        Ok(keeper) => keeper,
        Err((error, connection)) => return (refusal_status(error), connection),
    };
    let (ended, keeper) = site_engine(alloc, keeper, layout, site, source, sink);
    (ended, keeper.into_connection())
}

// How the program ends where the store is refused.
fn refusal_status(error: StoreOpenError) -> Status
    ensures { result ≡ refusal_status error }
{
    match error {
        StoreOpenError::BadStore => Status::NoStore(StoreRefusal::BadStore),
        StoreOpenError::WrongSite => Status::NoStore(StoreRefusal::WrongSite),
        // These names are fixed and none of them is for a group: a store of another group counts as another site's.
        StoreOpenError::WrongGroup => Status::NoStore(StoreRefusal::WrongSite),
        StoreOpenError::WrongLayout => Status::NoStore(StoreRefusal::WrongLayout),
        StoreOpenError::StoreFault => Status::NoStore(StoreRefusal::StoreFault),
        StoreOpenError::Memory => Status::Memory,
    }
}
