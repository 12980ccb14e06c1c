//! The store of a site that is built again.
ghost use Rattle.std.specs.Prelude.{◌≡◌, false, string_bytes, MatchResult};
ghost use Rattle.durable_keeper.specs.Keeping.{IsChange};
ghost use Rattle.site_store.specs.Making.{counters_alone};
ghost use Rattle.live_databases.specs.Rebuilds.{HasMadeAnew, HasNotMadeAnew};

use crate::service_end::ServiceEnd;
use crate::serving::refused_store;
use rebuild_engine::{RebuildStop, Rebuilt};
use site_store::make_store;
use sqlite::{Alter, Connection};
use std::alloc::Global;

/// How a rebuild ends that made no store.
#[derive(Clone, Copy, Debug, PartialEq, Eq)]
pub enum RebuildEnd {
    /// As a service does.
    Ended(ServiceEnd),
    /// The site is not built again of this input.
    Unbuilt(RebuildStop),
}

/// Makes the store of a site of the group of this name that was built again, in a database that holds nothing, in one
/// transaction, and gives what is printed of the site. Hands the database back. Linear in the counters and in the layout.
pub fn make_rebuilt_over<S: Alter>(
    alloc: Global,
    connection: Connection<S>,
    rebuilt: Rebuilt,
    site: u16,
    name: &str,
) -> (Result<String, ServiceEnd>, Connection<S>)
    requires idle { connection.in_transaction ≡ false }
    requires cells { IsChange rebuilt.core.layout site (counters_alone rebuilt.cells.items) }
    ensures { MatchResult result.0
        (λ shown. (string_bytes shown ≡ string_bytes rebuilt.shown) × HasMadeAnew S.Store rebuilt.core.layout site name.now rebuilt.cells.items connection result.1)
        (λ ended. HasNotMadeAnew S.Store rebuilt.core.layout site name.now rebuilt.cells.items connection result.1 ended) }
{
    let Rebuilt { core, cells, shown } = rebuilt;
    let group = Some(name);
    let (made, connection) = make_store(alloc, connection, core.layout(), site, group, cells);
    match made {
        Ok(()) => (Ok(shown), connection),
        Err(error) => (Err(refused_store(error)), connection),
    }
}
